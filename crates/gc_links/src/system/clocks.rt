//! The system's clocks, and its sleep.

ghost use Rattle.std.specs.Prelude.{◌≡◌, [], ◌∷◌, ◌++◌};
ghost use Rattle.gc_links.specs.Answered.{monotonic_call, wall_call};

use super::System;
use crate::calls::CallNote;
use std::time::{Clock, Duration, Instant, SystemTime};
use std::{io, thread};

impl<'a, R: Clock> System<'a, R> {
    /// Reads the monotonic clock.
    pub(crate) fn monotonic(&mut self) -> io::Result<Instant>
        ensures { self.new.calls.made ≡ self.old.calls.made ++ monotonic_call result ∷ [] }
    {
        let read = Instant::now(self.rt);
        let note = match &read {
            Ok(instant) => CallNote::Monotonic(*instant),
            Err(_) => CallNote::NoMonotonic,
        };
        self.note(&note);
        read
    }

    /// Reads the clock of the time of day.
    pub(crate) fn wall(&mut self) -> io::Result<SystemTime>
        ensures { self.new.calls.made ≡ self.old.calls.made ++ wall_call result ∷ [] }
    {
        let read = SystemTime::now(self.rt);
        let note = match &read {
            Ok(time) => CallNote::Wall(*time),
            Err(_) => CallNote::NoWall,
        };
        self.note(&note);
        read
    }

    /// Sleeps for `millis` milliseconds. A rest is not noted.
    pub(crate) fn rest(&self, millis: u64) {
        thread::sleep(self.rt, Duration::from_millis(millis));
    }
}
