//! A `PieceSink` that also keeps how many bytes came with each write.

ghost use Rattle.std.specs.Prelude.{Some};

use gc_lines::{PortFailed, Sink};
use gc_probes::PieceSink;
use std::alloc::Global;

/// Takes up to a number of bytes of each write, and fails after a number of writes, or where memory runs out.
#[derive(Drop)]
pub struct Taking {
    sink: PieceSink,
    /// How many bytes came with each write that didn't fail, also those that it didn't take. A size for which memory runs out is
    /// missing.
    pub sizes: Vec<usize>,
}

impl Taking {
    /// A sink that took nothing yet, and takes at most `most` bytes, or 1 if that is 0, of each of `answers` writes.
    pub fn new(alloc: Global, most: usize, answers: u64) -> Taking {
        Taking {
            sink: PieceSink::new(alloc, most.max(1), answers),
            sizes: Vec::new(alloc),
        }
    }

    /// What it took.
    pub fn taken(&self) -> &[u8] {
        self.sink.taken()
    }
}

impl Sink for Taking {
    ghost taken = { λ t. Some t.sink.taken };

    ghost failed = { λ t. t.sink.failed };

    // Writes as `PieceSink` does.
    fn write(&mut self, bytes: &[u8]) -> Result<usize, PortFailed> {
        let written = self.sink.write(bytes);
        if written.is_ok() {
            let _ = self.sizes.push(bytes.len());
        }
        written
    }

    // Whether a write has failed.
    fn has_failed(&self) -> bool {
        self.sink.has_failed()
    }
}
