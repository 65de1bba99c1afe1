//! The connection of a caller who is served: the end at which the instrument answers, with its reading and its writing side. While a
//! reply waits until it is to be sent, the connection is watched.

ghost use Rattle.std.specs.Io.{ReadsAtMost, WritesAtMost};
ghost use Rattle.gc_ask.specs.Serving.{ServesOne};
ghost use Rattle.gc_links.specs.Acts.{GivesAtMost};

use crate::busy_clock::{BusyClock, EARLY_ROOM};
use crate::queue::CallerQueue;
use crate::simulated::{Simulates, serve_anew};
use gc_instrument::{ServeFault, Served};
use gc_lines::{FromReader, ToWriter};
use gc_links::{Wire, read_stream_within, write_stream};
use std::io::{self, ErrorKind, Read, Write};
use std::net::TcpStream;
use std::thread;
use std::time::{Clock, Duration};

// For how long a connection is watched at once, in milliseconds, while a reply waits.
const WATCH: u64 = 100;

// The most bytes of one read while a reply waits.
const PIECE: usize = 256;

// The most tries of one read: it is tried again each time that it was interrupted.
const MOST_TRIES: u32 = 1000;

/// The connection of a caller.
#[derive(Drop)]
pub(crate) enum Connection<'a, R> {
    /// Over TCP.
    Stream(&'a TcpStream, Waits<'a>),
    /// Over a device.
    Device(&'a Wire<'a, R>),
}

/// How long a caller over TCP is waited for.
#[derive(Clone, Copy)]
pub(crate) struct Waits<'a> {
    /// How long a read may wait, which the stream's time-out says already; `None`: without end.
    pub(crate) longest: Option<Duration>,
    /// The callers who are served after this one; `None`: there are none.
    pub(crate) queue: Option<&'a CallerQueue<'a>>,
}

/// How serving a caller ended.
#[derive(Clone, Copy)]
pub(crate) struct Ended {
    /// At the end of the connection, or with a fault before it, which is one of `serve`.
    pub(crate) served: Result<Served, ServeFault>,
    /// Whether a read failed because it had timed out (`is_time_out`).
    pub(crate) is_idle: bool,
}

impl<'a, R: Clock> Connection<'a, R> {
    /// Serves the caller of this connection, of which nothing was read yet, with the instrument, which is restarted for it, in at
    /// most `max_reads` reads. It sets no time-outs: the connection has them already, or waits without end.
    pub(crate) fn serve<'c, I: Simulates<'c>>(
        &self,
        rt: &R,
        instrument: &mut I,
        max_reads: u32,
    ) -> Ended
        ensures { ServesOne I.answers I.restarted max_reads instrument.old instrument.new result.served }
    {
        let clock = instrument.clock();
        let mut source = FromReader::new(RequestReader {
            rt,
            connection: self,
            clock,
            is_idle: false,
        });
        let mut writer = ToWriter::new(ReplyWriter {
            rt,
            connection: self,
            clock,
        });
        let served = serve_anew(instrument, &mut source, &mut writer, max_reads);
        Ended {
            served,
            is_idle: source.reader().is_idle,
        }
    }

    // Reads what comes within about so many milliseconds. `None`: nothing came, or the read was interrupted. `Some(0)`: the connection
    // has ended. Reads after this one may wait as long as before.
    fn read_within(&self, buf: &mut [u8], millis: u64) -> io::Result<Option<usize>>
        ensures { GivesAtMost result buf.new }
    {
        match self {
            Connection::Stream(stream, waits) => {
                read_stream_within(stream, buf, millis, waits.longest)
            }
            Connection::Device(wire) => wire.read_within(buf, millis),
        }
    }

    // Whether nobody can take a reply over this connection, whose reading has ended, or another caller waits. Over TCP a caller who has
    // only ended his writing can't be told from one who went away: he has his reply as long as nobody else calls. A device that has
    // ended is gone.
    fn is_to_be_left(&self) -> bool {
        match self {
            Connection::Stream(_, waits) => match waits.queue {
                Some(queue) => queue.has_next(),
                None => false,
            },
            Connection::Device(_) => true,
        }
    }

    // Reads the connection, waiting until something comes, the connection ends (0) or fails (`Err`), or its time-out has
    // passed (`Err`). A device has no time-out.
    fn read_plain(&self, buf: &mut [u8]) -> io::Result<usize>
        ensures { ReadsAtMost result buf.new }
    {
        match self {
            Connection::Stream(stream, _) => read_stream(stream, buf),
            Connection::Device(wire) => read_wire(wire, buf),
        }
    }

    // Reads the connection, and records in the clock when that read returned, also at the end or with `Err`. Bytes that came while the
    // instrument was busy are handed out first, with no read, as `BusyClock::take_early` says.
    fn read_noted(&self, rt: &R, clock: &BusyClock, buf: &mut [u8]) -> io::Result<usize>
        ensures { ReadsAtMost result buf.new }
    {
        let early = clock.take_early(buf);
        if early > 0 {
            return Ok(early);
        }
        let read = self.read_plain(buf);
        clock.note_now(rt);
        read
    }

    // Reads the connection: as `read_noted` does if there is a clock, else as `read_plain` does.
    fn read(&self, rt: &R, clock: Option<&BusyClock>, buf: &mut [u8]) -> io::Result<usize>
        ensures { ReadsAtMost result buf.new }
    {
        match clock {
            Some(clock) => self.read_noted(rt, clock, buf),
            None => self.read_plain(buf),
        }
    }

    // Writes to the connection, as much as it takes at once.
    fn write_plain(&self, buf: &[u8]) -> io::Result<usize>
        ensures { WritesAtMost result buf.now }
    {
        match self {
            Connection::Stream(stream, _) => write_stream(stream, buf),
            Connection::Device(wire) => write_wire(wire, buf),
        }
    }

    // Waits until the instrument is free, if a reply has to wait for that, and watches the connection meanwhile. `Err`: the connection
    // failed.
    fn wait(&self, rt: &R, clock: &BusyClock) -> io::Result<()> {
        let left = clock.left(rt);
        if left == 0 {
            return Ok(());
        }
        // As many looks as there are spans of time, and one for each byte that there is room for, as it may end a look.
        for _ in 0..(left / WATCH).saturating_add(EARLY_ROOM as u64) {
            if clock.left(rt) <= WATCH {
                break;
            }
            self.watch(rt, clock)?;
        }
        clock.wait(rt);
        if clock.drops() && !clock.is_left() {
            self.take_in(clock);
        }
        Ok(())
    }

    // Watches the connection for `WATCH` milliseconds, or until something happens: moves what comes into the clock, as long as there is
    // room, notes its end, and leaves it after its end where `is_to_be_left` says so. `Err`: the connection failed.
    fn watch(&self, rt: &R, clock: &BusyClock) -> io::Result<()> {
        if clock.has_ended() && self.is_to_be_left() {
            clock.leave();
            return Ok(());
        }
        if clock.has_ended() || clock.room() == 0 {
            thread::sleep(rt, Duration::from_millis(WATCH));
            return Ok(());
        }
        let mut buf = [0u8; PIECE];
        let most = clock.room().min(PIECE);
        match self.read_within(&mut buf[..most], WATCH)? {
            Some(0) => clock.note_end(),
            Some(n) => clock.store_early(&buf[..n]),
            None => {}
        }
        Ok(())
    }

    // Moves into the clock what has come while the instrument was busy, until a read brings nothing or fails, or there is no room
    // left.
    fn take_in(&self, clock: &BusyClock) {
        let mut buf = [0u8; PIECE];
        for _ in 0..EARLY_ROOM / PIECE {
            let most = clock.room().min(PIECE);
            if most == 0 {
                return;
            }
            match self.read_within(&mut buf[..most], 1) {
                Ok(Some(n)) if n > 0 => clock.store_early(&buf[..n]),
                _ => return,
            }
        }
    }
}

// The writing end of a connection. A reply of an instrument whose replies take time, of which `clock` is the clock, waits here
// until it is to be sent.
#[derive(Drop)]
struct ReplyWriter<'a, R> {
    rt: &'a R,
    connection: &'a Connection<'a, R>,
    clock: Option<&'a BusyClock>,
}

// Each write is sent at once, so there is nothing to flush.
impl<'a, R: Clock> Write for ReplyWriter<'a, R> {
    // Waits until the instrument is free, if it is busy, and writes. Once the connection was left, the bytes are discarded, as the
    // system discards what is sent to a caller who went away.
    fn write(&mut self, buf: &[u8]) -> io::Result<usize> {
        if let Some(clock) = self.clock {
            self.connection.wait(self.rt, clock)?;
            if clock.is_left() {
                return Ok(buf.len());
            }
        }
        self.connection.write_plain(buf)
    }

    fn flush(&mut self) -> io::Result<()> {
        Ok(())
    }
}

// The reading end of a connection. For an instrument whose replies take time, of which `clock` is the clock, it records when
// bytes came.
#[derive(Drop)]
struct RequestReader<'a, R> {
    rt: &'a R,
    connection: &'a Connection<'a, R>,
    clock: Option<&'a BusyClock>,
    // Whether the last failed read had timed out (`is_time_out`).
    is_idle: bool,
}

// `remaining` is `None`: which bytes will come over a connection isn't known.
impl<'a, R: Clock> Read for RequestReader<'a, R> {
    ghost use Rattle.std.specs.Prelude.{None};

    ghost remaining = { λ _. None };

    fn read(&mut self, buf: &mut [u8]) -> io::Result<usize> {
        match self.connection.read(self.rt, self.clock, buf) {
            Ok(n) => Ok(n),
            Err(error) => {
                self.is_idle = is_time_out(error.kind());
                Err(error)
            }
        }
    }
}

// Reads a connection over TCP. A read that is interrupted is made again, up to `MOST_TRIES` times in all; after that the error is
// `Interrupted`. The system interrupts a read with a time-out where the program was stopped and goes on.
fn read_stream(stream: &TcpStream, buf: &mut [u8]) -> io::Result<usize>
    ensures { ReadsAtMost result buf.new }
{
    let mut stream = stream;
    for _ in 0..MOST_TRIES {
        match stream.read(buf) {
            Ok(n) => return Ok(n),
            Err(error) if error.kind() == ErrorKind::Interrupted => {}
            Err(error) => return Err(error),
        }
    }
    Err(io::Error::from(ErrorKind::Interrupted))
}

// Reads the wire of a device, once.
fn read_wire<R: Clock>(wire: &Wire<'_, R>, buf: &mut [u8]) -> io::Result<usize>
    ensures { ReadsAtMost result buf.new }
{
    let mut wire = wire;
    wire.read(buf)
}

// Writes to the wire of a device, as much as it takes at once.
fn write_wire<R: Clock>(wire: &Wire<'_, R>, buf: &[u8]) -> io::Result<usize>
    ensures { WritesAtMost result buf.now }
{
    let mut wire = wire;
    wire.write(buf)
}

// Whether an error of a read says that it had timed out: nothing came before its time-out, or the system gave the connection
// up because the other end answered nothing (`TimedOut`).
fn is_time_out(kind: ErrorKind) -> bool {
    matches!(kind, ErrorKind::WouldBlock | ErrorKind::TimedOut)
}
