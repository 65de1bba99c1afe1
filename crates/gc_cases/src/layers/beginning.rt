//! Rows of a synchronization by null procedures, one after the other, as `Beginning` of gc_client plays it.

use gc_client::Beginning;
use gc_probes::{Row, Rows, Told};

/// A synchronization in progress.
#[derive(Drop)]
pub struct Beginnings {
    beginning: Beginning,
}

impl Beginnings {
    /// A synchronization of which no null procedure is answered.
    pub fn new() -> Beginnings {
        Beginnings {
            beginning: Beginning::new(),
        }
    }

    // Reports the line of the first null procedure that isn't answered, or `nothing` if all are.
    fn ask(&self, came: &mut Told) {
        match self.beginning.ask() {
            Some(line) => came.bytes(line.as_slice()),
            None => came.text("nothing"),
        }
    }

    // Reports how many null procedures are answered, and whether all are.
    fn tell_answered(&self, came: &mut Told) {
        came.counted(&self.beginning.answered(), ", begun ");
        came.display(&self.beginning.has_begun());
    }

    // Goes on in a new synchronization that has as many null procedures answered.
    fn resume(&mut self) {
        self.beginning = Beginning::resume(self.beginning.answered());
    }
}

impl Rows for Beginnings {
    // Plays a row: `ask`, `hear` with a line, `answered`, or `resume`.
    fn play(&mut self, row: Row<'_>, came: &mut Told) {
        match row.word {
            "ask" => self.ask(came),
            "hear" => came.display(&self.beginning.hear(row.bytes)),
            "answered" => self.tell_answered(came),
            "resume" => self.resume(),
            _ => came.text("an unknown word"),
        }
    }
}
