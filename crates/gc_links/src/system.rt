//! The calls that a link makes of the system. Each is one small function, which notes what the system answered. No other code of
//! a link gets at the runtime or at the system's value of a connection, so none can make a call that isn't noted.
//!
//! That these functions note what they do is read here, and not proved: the system is in no clause.

ghost use Rattle.std.specs.Prelude.{◌≡◌, [], ◌∷◌, ◌++◌};
ghost use Rattle.gc_links.specs.CallNoted.{call_of};

use crate::calls::{CallNote, Calls};

mod clocks;
mod devices;
mod files;
mod sockets;

pub(crate) use devices::OpenDevice;
pub(crate) use files::SmallFile;
pub(crate) use sockets::{Heard, Wired, Written, read_timed, send_at_once};

/// The system as a link calls it, and the calls so far.
#[derive(Drop)]
pub(crate) struct System<'a, R> {
    rt: &'a R,
    /// The calls so far, which proofs alone can read.
    pub(crate) calls: Calls,
}

impl<'a, R> System<'a, R> {
    /// The system over this runtime, of which no call was made yet.
    pub(crate) fn new(rt: &'a R) -> System<'a, R>
        ensures { result.calls.made ≡ [] }
    {
        System {
            rt,
            calls: Calls::new(),
        }
    }

    /// The calls so far.
    pub(crate) fn into_calls(self) -> Calls
        ensures { result.made ≡ self.entry.calls.made }
    {
        let System { rt: _, calls } = self;
        calls
    }

    // Notes a call that was made.
    fn note(&mut self, note: &CallNote<'_>)
        ensures { self.new.calls.made ≡ self.old.calls.made ++ call_of note.now ∷ [] }
    {
        self.calls = self.calls.then(note);
    }
}
