//! The simulated line of the example, in simulated time: which lines it loses, repeats and delays.

use arrayvec::ArrayVec;
use gc_instrument::{SIMULATOR_SERIAL, simulator_name};
use gc_rehearsal::{Altered, Chance, Fate, Rehearsed};
use gc_scenes::{SceneInstrument, SceneRules, Ways};
use std::alloc::Global;

/// A line to whose lines, counted from 1 in the order in which they are sent, these things happen: the 22nd is lost, the 25th comes
/// twice, the 29th takes three seconds, and at the 32nd the connection closes. Each other one takes 40 milliseconds.
///
/// The first 16 are those of the synchronization, and the next two the null procedure after it. So without these events request k,
/// counted from 0, is line 19 + 2 k, and the next one its reply.
#[derive(Drop)]
pub struct Lossy {
    lines: u64,
}

impl Lossy {
    /// A link over such a line to a new simulator.
    pub fn link(alloc: Global) -> Rehearsed<Lossy> {
        let rules = SceneRules {
            prisms: ArrayVec::new(),
            faults: ArrayVec::new(),
            answers: ArrayVec::new(),
            noise: None,
            repeats: true,
            ways: Ways::none(),
        };
        let instrument = SceneInstrument::new(SIMULATOR_SERIAL, simulator_name(), rules);
        Rehearsed::new(
            alloc,
            Lossy { lines: 0 },
            instrument,
            ArrayVec::new(),
            0,
            false,
        )
    }
}

impl Chance for Lossy {
    fn fate(&mut self) -> Fate {
        self.lines = self.lines.saturating_add(1);
        Fate {
            lost: self.lines == 22,
            repeated: self.lines == 25,
            delay: if self.lines == 29 { 3_000 } else { 40 },
            hold: 0,
            closes: self.lines == 32,
        }
    }

    fn late_fate(&mut self) -> Fate {
        self.fate()
    }

    fn alter(&mut self, bytes: &[u8]) -> Altered {
        let mut same = Altered::new();
        for &byte in bytes {
            if same.try_push(byte).is_err() {
                break;
            }
        }
        same
    }

    fn cut_place(&mut self) -> usize {
        3
    }

    fn keeps(&mut self) -> bool {
        false
    }

    fn refusal(&mut self) -> u64 {
        0
    }

    fn restarts(&mut self) -> bool {
        false
    }
}
