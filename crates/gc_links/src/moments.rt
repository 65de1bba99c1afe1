//! The moment that a read of a link reports.

ghost use Rattle.std.specs.Prelude.{ℕ, ◌≤◌, List, length, None};
ghost use Rattle.std.specs.Time.{instant_nanos};
ghost use Rattle.gc_links.specs.Acts.{CameWithin, read_act};
ghost use Rattle.gc_links.specs.Calls.{Makes};
ghost use Rattle.gc_links.specs.Clocks.{ClocksAfter};
ghost use Rattle.gc_links.specs.Does.{DoesOver};

use crate::link::Came;
use crate::system::System;
use crate::timer::Timer;
use std::time::Clock;

/// Waits for `millis` milliseconds in place of a read, where there is no connection. It returns `Silence` with the moment
/// after the wait, or `NoMoment` where the clock couldn't be read.
pub(crate) fn wait<R: Clock>(system: &mut System<'_, R>, timer: &Timer, millis: u64) -> Came
    ensures does { (buf : List ℕ) → Makes system.old.calls.made system.new.calls.made
        (DoesOver (instant_nanos timer.now.start) None (read_act result buf)) }
    ensures within { (buf : List ℕ) → CameWithin result buf }
{
    system.rest(millis);
    match timer.moment(system) {
        Ok(moment) => Came::Silence(moment),
        Err(_) => Came::NoMoment,
    }
}

/// The outcome of a read that gave `n` bytes: `Bytes` with the moment after the read, or `End` where `n` is 0, at the end of
/// the stream. `NoMoment`: bytes came, and the clock couldn't be read.
pub(crate) fn came<R: Clock>(system: &mut System<'_, R>, timer: &Timer, n: usize) -> Came
    ensures does { Makes system.old.calls.made system.new.calls.made (ClocksAfter (instant_nanos timer.now.start) n result) }
    ensures within { (buf : List ℕ) → n ≤ length buf → CameWithin result buf }
{
    if n == 0 {
        return Came::End;
    }
    match timer.moment(system) {
        Ok(moment) => Came::Bytes(n, moment),
        Err(_) => Came::NoMoment,
    }
}
