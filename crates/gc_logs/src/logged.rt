//! Any link, with a log of what is on it.

ghost use Rattle.std.specs.Prelude.{◌≡◌, ◌<◌, [], ◌∷◌, length};
ghost use Rattle.gc_links.specs.Acts.{AddsActs, Closed, clock_act, read_act, put_act, open_act, CameWithin, IsPartIfErr};
ghost use Rattle.gc_logs.specs.Logging.{Logs, log_seen, sink_of};

use crate::logging::Log;
use gc_lines::{PortFailed, Sink};
use gc_links::{Came, Link, Moment};

/// A link over another, of which a log is written into a sink: each line that went or came, and what became of the
/// connection. Its acts are those of the link inside, whatever becomes of the log.
///
/// A line of the log has the last moment that the link's clock gave before the line was written, or that given to `new` if the
/// clock gave none yet; a line that ends in received bytes has the moment that came with these bytes. If the sink fails the log
/// ends there, and the link goes on.
#[derive(Drop)]
pub struct Logged<L, K> {
    /// The link inside.
    pub link: L,
    log: Log<K>,
}

impl<L: Link, K: Sink> Logged<L, K> {
    /// A link over `link`, with an empty log. What is logged before the link's clock gives a moment has the moment `utc`, in
    /// milliseconds since 1970, UTC.
    pub fn new(link: L, sink: K, utc: u64) -> Logged<L, K>
        ensures { result.link ≡ link }
    {
        Logged {
            link,
            log: Log::new(sink, utc),
        }
    }

    /// Whether the log's sink has failed: from then on nothing is logged.
    pub fn has_lost_its_log(&self) -> bool
        ensures { result ≡ K.failed (sink_of self.now) }
    {
        self.log.lines.sink.has_failed()
    }

    /// The sink that the log is written into.
    pub fn sink(&self) -> &K
        ensures { result.now ≡ self.now.log.lines.sink }
    {
        &self.log.lines.sink
    }
}

impl<L, K: Drop> Logged<L, K> {
    /// The link inside, without its log.
    pub fn into_link(self) -> L
        ensures { result ≡ self.link }
    {
        let Logged { link, log: _ } = self;
        link
    }
}

impl<L: Link, K: Sink> Link for Logged<L, K> {
    ghost acts = { λ l. L.acts l.link };

    // Reads the clock of the link inside. If it gives a moment, the lines from here on have that moment, until the link gives
    // another.
    fn now(&mut self) -> Result<Moment, PortFailed>
        ensures tells { AddsActs (L.acts self.old.link) (L.acts self.new.link) (clock_act result ∷ []) }
        ensures logs { Logs (log_seen K.Sink self.old.log) (log_seen K.Sink self.new.log) (clock_act result) }
    {
        let told = self.link.now();
        if let Ok(moment) = &told {
            self.log.lines.utc = moment.utc;
        }
        told
    }

    // Reads from the link inside, and logs the received bytes (`add_received`), or that the connection ended or failed. Of a
    // silence it takes the moment, and logs nothing. Nor does it log anything where the clock couldn't be read (`NoMoment`).
    fn read(&mut self, buf: &mut [u8], millis: u64) -> Came
        requires { 0 < length buf.old }
        ensures tells { AddsActs (L.acts self.old.link) (L.acts self.new.link) (read_act result buf.new ∷ []) }
        ensures within { CameWithin result buf.new }
        ensures logs { Logs (log_seen K.Sink self.old.log) (log_seen K.Sink self.new.log) (read_act result buf.new) }
    {
        let came = self.link.read(buf, millis);
        match came {
            Came::Bytes(n, moment) => {
                self.log.lines.utc = moment.utc;
                self.log.add_received(&buf[..n]);
            }
            Came::Silence(moment) => self.log.lines.utc = moment.utc,
            Came::End => self.log.add_word(b"ended"),
            Came::Failure => self.log.add_word(b"failed"),
            Came::NoMoment => {}
        }
        came
    }

    // Writes to the link inside, and logs the bytes that were sent (`add_sent`), and that the connection failed, if it did.
    fn put(&mut self, bytes: &[u8]) -> Result<(), usize>
        requires { 0 < length bytes.now }
        ensures tells { AddsActs (L.acts self.old.link) (L.acts self.new.link) (put_act result bytes.now ∷ []) }
        ensures part { IsPartIfErr result bytes.now }
        ensures logs { Logs (log_seen K.Sink self.old.log) (log_seen K.Sink self.new.log) (put_act result bytes.now) }
    {
        let put = self.link.put(bytes);
        match put {
            Ok(()) => self.log.add_sent(bytes),
            Err(n) => {
                self.log.add_sent(&bytes[..n]);
                self.log.add_word(b"failed");
            }
        }
        put
    }

    // Closes the link inside, and logs what was pending of both directions, and the close.
    fn close(&mut self)
        ensures tells { AddsActs (L.acts self.old.link) (L.acts self.new.link) (Closed ∷ []) }
        ensures logs { Logs (log_seen K.Sink self.old.log) (log_seen K.Sink self.new.log) Closed }
    {
        self.link.close();
        self.log.flush();
        self.log.add_word(b"closed");
    }

    // Opens the link inside, and logs whether a connection was made.
    fn open(&mut self) -> Result<(), PortFailed>
        ensures tells { AddsActs (L.acts self.old.link) (L.acts self.new.link) (open_act result ∷ []) }
        ensures logs { Logs (log_seen K.Sink self.old.log) (log_seen K.Sink self.new.log) (open_act result) }
    {
        let opened = self.link.open();
        match &opened {
            Ok(()) => self.log.add_word(b"open"),
            Err(_) => self.log.add_word(b"not open"),
        }
        opened
    }
}
