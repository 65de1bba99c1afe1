//! The calls that a link makes of the system, in order, with what the system answered. They exist for proofs alone: no code
//! reads them, and they have no bytes.

ghost use Rattle.std.specs.Prelude.{◌≡◌, [], ◌∷◌, ◌++◌, List};
ghost use base.Fml.{ftrue};
ghost use Rattle.gc_links.specs.Calls.{Call};
ghost use Rattle.gc_links.specs.CallCoding.{calls_code};

use std::marker::Model;
use std::net::{HostAddrs, SocketAddr};
use std::time::{Instant, SystemTime};

/// The calls that a link has made of the system so far, in order. Only this crate can make such a value, or add a call.
#[derive(Drop)]
pub struct Calls {
    pub ghost made: { List Call } by { calls_code },
}

impl Model for Calls {
    ghost also_owns = { λ _. ftrue };
}

/// The far end of a connection.
#[derive(Clone, Copy, Drop)]
pub(crate) enum FarEnd<'a> {
    /// An address, over TCP.
    Address(SocketAddr),
    /// The device at this path.
    Device(&'a str),
}

/// A note of one call of the system, with what it answered.
#[derive(Clone, Copy, Drop)]
pub(crate) enum CallNote<'a> {
    /// The monotonic clock was read.
    Monotonic(Instant),
    /// The monotonic clock couldn't be read.
    NoMonotonic,
    /// The clock of the time of day was read.
    Wall(SystemTime),
    /// The clock of the time of day couldn't be read.
    NoWall,
    /// A name with its port was looked up, and has these addresses.
    Found(&'a str, &'a HostAddrs),
    /// A name with its port couldn't be looked up.
    NotFound(&'a str),
    /// A connection to this end was made.
    Reached(FarEnd<'a>),
    /// No connection to this end could be made, or only one to itself, which was dropped at once.
    NotReached(FarEnd<'a>),
    /// These bytes were handed to a write, which took this many of them.
    Took(FarEnd<'a>, &'a [u8], usize),
    /// These bytes were handed to a write, which was interrupted, or had no room yet, and took none.
    TookNone(FarEnd<'a>, &'a [u8]),
    /// These bytes were handed to a write, which failed.
    NotTaken(FarEnd<'a>, &'a [u8]),
    /// A read gave these bytes: none where the other end has closed the connection.
    Came(FarEnd<'a>, &'a [u8]),
    /// A read gave nothing in its time.
    CameNone(FarEnd<'a>),
    /// A read failed, or couldn't be given its time.
    NotCome(FarEnd<'a>),
    /// The connection to this end was dropped.
    Dropped(FarEnd<'a>),
    /// The system was asked whether the open device at this end is a terminal still, and whether it is.
    Asked(FarEnd<'a>, bool),
    /// A file was looked for at this path, and whether it is there; not if the system didn't say.
    Looked(&'a str, bool),
    /// A file at this path was read, which was changed last at this moment, in milliseconds since 1970, and has these bytes.
    Kept(&'a str, u64, &'a [u8]),
    /// At this path there is no regular file of at most 64 bytes, or the system didn't give it, or didn't say when it was changed.
    NotKept(&'a str),
}

impl Calls {
    ghost use Rattle.gc_links.specs.CallNoted.{call_of};

    /// The calls of a link that has made none.
    pub(crate) fn new() -> Calls
        ensures { result.made ≡ [] }
    {
        Calls {}
    }

    /// The calls with one more at their end, the one that the note reports. They are ghost, so there is nothing to copy.
    pub(crate) fn then(&self, _note: &CallNote<'_>) -> Calls
        ensures { result.made ≡ self.now.made ++ call_of _note.now ∷ [] }
    {
        Calls {}
    }
}
