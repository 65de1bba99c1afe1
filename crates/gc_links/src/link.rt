//! A link: a connection that can be made again, and a clock, as one port, so that the order of all its calls is known.

ghost use Rattle.std.specs.Prelude.{[], ◌∷◌, ◌<◌, length};
ghost use Rattle.gc_links.specs.Acts.{Closed, AddsActs, clock_act, put_act, read_act, open_act, CameWithin, IsPartIfErr};

use gc_lines::PortFailed;
use gc_values::FileValues;

/// A moment, on two clocks. Either clock may go back. Where `elapsed` does, the deadline of a request isn't moved, so it is
/// further away by as much.
#[derive(Clone, Copy)]
pub struct Moment {
    /// Milliseconds since some start, for deadlines.
    pub elapsed: u64,
    /// Milliseconds since 1970-01-01, UTC, for time stamps.
    pub utc: u64,
    /// Whether the end of the run was asked for by this moment. `false` where nobody can ask.
    pub stops: bool,
    /// When the file by which somebody asks for a cycle was changed last, in milliseconds since 1970. 0: there is none, or nobody can ask.
    pub touched: u64,
    /// The values of files by this moment, for requests that are sent next; none where no file is read.
    pub values: FileValues,
}

/// The result of a read of a link. With bytes comes the moment after the read, and with silence a moment by which none had come.
#[derive(Clone, Copy)]
pub enum Came {
    /// This many bytes came, at least one.
    Bytes(usize, Moment),
    /// No byte came before the read ended, and none had come by this moment. The read ended at about the end of its time, or
    /// earlier. The link is as good as before.
    Silence(Moment),
    /// The other end closed the connection, or the device is at its end.
    End,
    /// The connection failed.
    Failure,
    /// The clock couldn't be read, before or after the read. What came, if anything did, is not known.
    NoMoment,
}

/// A connection that can be closed and made again, and its clock.
///
/// Each call is one act. `acts` are those so far, or `None` where they aren't known, as of a socket.
pub trait Link {
    ghost use Rattle.std.specs.Prelude.{List, Option};
    ghost use Rattle.gc_links.specs.Acts.{Act};

    /// The acts of its calls so far, if they are known.
    ghost acts: { Self → Option (List Act) };

    /// Reads the clock. `Err`: it couldn't be read.
    fn now(&mut self) -> Result<Moment, PortFailed>
        ensures { AddsActs (acts self.old) (acts self.new) (clock_act result ∷ []) };

    /// Reads some bytes into the front of `buf`, which is not empty, and waits for them about `millis` milliseconds at most. It
    /// may end earlier, with `Silence`.
    ///
    /// Without a connection it waits that long, and returns `Silence`, or `NoMoment`.
    fn read(&mut self, buf: &mut [u8], millis: u64) -> Came
        requires { 0 < length buf.old }
        ensures tells { AddsActs (acts self.old) (acts self.new) (read_act result buf.new ∷ []) }
        ensures within { CameWithin result buf.new };

    /// Writes all of these bytes, at least one. `Err(n)`: only the first n of them went out, because the connection failed,
    /// or because there is none (then n is 0). A write that stalls is cut off.
    fn put(&mut self, bytes: &[u8]) -> Result<(), usize>
        requires { 0 < length bytes.now }
        ensures tells { AddsActs (acts self.old) (acts self.new) (put_act result bytes.now ∷ []) }
        ensures part { IsPartIfErr result bytes.now };

    /// Closes the connection.
    fn close(&mut self)
        ensures { AddsActs (acts self.old) (acts self.new) (Closed ∷ []) };

    /// Makes a new connection, in place of the old one, if one is open. `Err`: none could be made; the old one may be closed
    /// or not.
    fn open(&mut self) -> Result<(), PortFailed>
        ensures { AddsActs (acts self.old) (acts self.new) (open_act result ∷ []) };
}
