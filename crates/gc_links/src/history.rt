//! The history of a link: the results of its calls, in order. It exists for proofs alone: no code reads it, and it has no bytes.

ghost use Rattle.std.specs.Prelude.{◌≡◌, [], ◌∷◌, ◌++◌, List};
ghost use base.Fml.{ftrue};
ghost use Rattle.gc_links.specs.Acts.{Act};
ghost use Rattle.gc_links.specs.Coding.{acts_code};

use crate::link::Moment;
use std::marker::Model;

/// The acts of a link so far, in order.
#[derive(Drop)]
pub struct History {
    pub ghost acts: { List Act } by { acts_code },
}

impl Model for History {
    ghost also_owns = { λ _. ftrue };
}

/// A note of one act of a link, with the bytes that were written or read in it, and the moment that it reported.
#[derive(Clone, Copy, Drop)]
pub enum Note<'a> {
    /// The clock was read, and it was this moment.
    Told(Moment),
    /// The clock couldn't be read, alone or in a read.
    Untold,
    /// All of these bytes went out.
    Put(&'a [u8]),
    /// `Cut(bytes, n)`: only the first n of these bytes went out, and the connection failed, or there was none.
    Cut(&'a [u8], usize),
    /// A read gave these bytes, and then it was this moment.
    Gave(&'a [u8], Moment),
    /// A read gave no byte, and none had come by this moment.
    Silent(Moment),
    /// The other end closed the connection, or the device is at its end.
    Ended,
    /// A read failed.
    Broke,
    /// The connection was closed.
    Closed,
    /// A new connection was made.
    Opened,
    /// No new connection could be made.
    Unopened,
}

impl History {
    ghost use Rattle.gc_links.specs.Noted.{act_of};

    /// The history of a link of which no call was made.
    pub fn new() -> History
        ensures { result.acts ≡ [] }
    {
        History {}
    }

    /// The history with one more act at its end, the one that the note reports. The acts are ghost, so there is nothing to
    /// copy.
    pub fn then(&self, _note: &Note<'_>) -> History
        ensures { result.acts ≡ self.now.acts ++ act_of _note.now ∷ [] }
    {
        History {}
    }
}
