//! Starts of the instrument: how often it signed on, reported at most once a minute.

use gc_logs::{MINUTE, RateLimit};
use std::io::{self, Write};

/// What was reported of the instrument's sign-ons.
#[derive(Drop)]
pub(crate) struct Starts {
    // How many of them were reported.
    told: u64,
    // When that was.
    last: RateLimit,
}

impl Starts {
    /// Nothing was reported.
    pub(crate) fn new() -> Starts {
        Starts {
            told: 0,
            last: RateLimit::new(),
        }
    }

    /// Claims the writing of a line at `elapsed`, by the clock for deadlines, where `count` sign-ons came so far. It is granted if these are
    /// others than were reported, and no line was written in the last minute, and then they count as reported. Returns whether it is granted.
    pub(crate) fn claim(&mut self, count: u64, elapsed: u64) -> bool {
        if self.told == count || !self.last.claim(elapsed, MINUTE) {
            return false;
        }
        self.told = count;
        true
    }
}

/// Writes that the instrument signed on, `count` times so far.
pub(crate) fn tell_starts<E: Write>(count: u64, messages: &mut E) -> io::Result<()> {
    writeln!(
        messages,
        "geocom: the instrument was switched on or off (sign-ons so far: {count}): the setup is sent anew"
    )
}
