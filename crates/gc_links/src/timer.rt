//! The clock of a link: the time since it was made, and the time of day.

ghost use Rattle.std.specs.Prelude.{◌≡◌, ◌∷◌, ◌++◌, [], IfOk};
ghost use Rattle.std.specs.Time.{instant_nanos};
ghost use Rattle.std.specs.Duration.{as_nanos};
ghost use Rattle.gc_links.specs.Calls.{Makes, Monotonic};
ghost use Rattle.gc_links.specs.Clocks.{ClocksGive, in_millis};

use crate::link::Moment;
use crate::system::System;
use gc_lines::PortFailed;
use gc_values::no_values;
use std::io;
use std::time::{Clock, Duration, Instant, UNIX_EPOCH};

/// The clock of a link: the time since the clock was made, and the time of day.
#[derive(Drop)]
pub(crate) struct Timer {
    start: Instant,
}

impl Timer {
    /// A clock that starts now. It fails where the clock can't be read.
    pub(crate) fn new<R: Clock>(system: &mut System<'_, R>) -> io::Result<Timer>
        ensures { IfOk result (λ timer.
            system.new.calls.made ≡ system.old.calls.made ++ Monotonic (instant_nanos timer.start) ∷ []) }
    {
        match system.monotonic() {
            Ok(start) => Ok(Timer { start }),
            Err(error) => Err(error),
        }
    }

    /// Reads both clocks. It fails where one can't be read. Where the system's clock has gone back behind the start,
    /// `elapsed` is 0. A time of day before 1970 counts as the beginning of 1970. The moment's `stops` is `false`, and it has no
    /// values: this clock doesn't know whether the end of the run was asked for, and reads no files.
    pub(crate) fn moment<R: Clock>(&self, system: &mut System<'_, R>) -> Result<Moment, PortFailed>
        ensures { Makes system.old.calls.made system.new.calls.made (ClocksGive (instant_nanos self.now.start) result) }
    {
        let Ok(now) = system.monotonic() else {
            return Err(PortFailed);
        };
        let Ok(time) = system.wall() else {
            return Err(PortFailed);
        };
        let since_1970 = time.duration_since(UNIX_EPOCH).unwrap_or(Duration::ZERO);
        Ok(Moment {
            elapsed: millis_of(now.duration_since(self.start)),
            utc: millis_of(since_1970),
            stops: false,
            touched: 0,
            values: no_values(),
        })
    }
}

/// A time in milliseconds, rounded down; `u64::MAX` if it has more.
pub fn millis_of(time: Duration) -> u64
    ensures { result ≡ in_millis (as_nanos time) }
{
    u64::try_from(time.as_millis()).unwrap_or(u64::MAX)
}
