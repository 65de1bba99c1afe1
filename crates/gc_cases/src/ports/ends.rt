//! Callers whose connections end in each way, and what is reported of them.

ghost use Rattle.std.specs.Prelude.{None};

use gc_ask::{CallerFault, Callers, keep};
use gc_lines::ServeFault;
use gc_probes::Told;

// Callers whose connections end as `FIRST_ENDS` says, in this order, and those of all later callers well.
#[derive(Drop)]
struct Ends {
    // How many callers were served.
    at: usize,
}

// How the connections of the first seven callers end.
const FIRST_ENDS: [Result<(), CallerFault>; 7] = [
    Ok(()),
    Err(CallerFault::Serving(ServeFault::Read { replies: 0 })),
    Err(CallerFault::Serving(ServeFault::Write {
        replies: 7,
        bytes: 21,
    })),
    Err(CallerFault::Serving(ServeFault::TooManyReads { replies: 0 })),
    Ok(()),
    Err(CallerFault::Socket),
    Err(CallerFault::Idle),
];

impl Callers for Ends {
    ghost served = { λ _. None };

    // Serves nobody, and counts a caller as served. The end is the next of `FIRST_ENDS`, and after these a good one.
    fn serve_next(&mut self) -> Result<(), CallerFault> {
        let end = FIRST_ENDS.get(self.at).copied().unwrap_or(Ok(()));
        self.at = self.at.saturating_add(1);
        end
    }
}

/// Serves eight callers, whose first seven connections end as `FIRST_ENDS` says, and the eighth well. Reports how many were
/// served, whether the lines of all faults were written, and these lines.
pub fn tell_ends(came: &mut Told) {
    let mut ends = Ends { at: 0 };
    let mut messages = Vec::new(came.alloc);
    let all = keep(&mut ends, 8, &mut messages);
    tell_served(ends.at, all, came);
    came.text(": ");
    came.bytes(messages.as_slice());
}

/// Serves the same eight callers with room for forty bytes of messages, which is less than the lines of their faults have.
/// Reports how many were served, and whether all of these lines were written.
pub fn tell_cut_ends(came: &mut Told) {
    let mut ends = Ends { at: 0 };
    let mut room = [0; 40];
    let mut messages: &mut [u8] = &mut room;
    let all = keep(&mut ends, 8, &mut messages);
    tell_served(ends.at, all, came);
}

// Reports that `count` callers were served, and whether the lines of all faults were written (`all`).
fn tell_served(count: usize, all: bool, came: &mut Told) {
    came.counted(&count, " served, ");
    came.text(written_word(all));
}

/// The words by which a case says whether the lines of all faults were written (`all`).
pub fn written_word(all: bool) -> &'static str {
    if all { "all told" } else { "not all told" }
}
