//! A sink that takes a few bytes for each call, and fails at the call that the test names.

ghost use Rattle.std.specs.Prelude.{◌≡◌, ◌<◌, [], Some, true, false, length};
ghost use Rattle.gc_lines.specs.Ports.{TakesBytes, Fails};
ghost use Rattle.gc_probes.specs.Seen.{SinkSeen, WritesAsAsked};

use gc_lines::{Durable, PortFailed, Sink};
use std::alloc::Global;
use std::marker::Model;

/// Takes at most a given number of bytes for each call, and keeps them. A call at which memory to
/// store them runs out fails, and so does each later one; then [`PieceSink::lacks_memory`] is true.
#[derive(Drop)]
pub struct PieceSink {
    taken: Vec<u8>,
    // How many bytes are taken for each call at most.
    most: usize,
    // How many more writes are answered, unless one fails because memory runs out: after that none is.
    answers_left: u64,
    // Whether a write has failed.
    failed: bool,
    // Whether a write failed because memory ran out.
    lacks_memory: bool,
}

impl Model for PieceSink {
    ghost use Rattle.std.specs.Prelude.{◌<◌};
    ghost use Rattle.gc_probes.specs.Seen.{SinkSeen};

    ghost Value = { SinkSeen };

    ghost view = { λ s. record {
      taken = s.taken.items;
      most = s.most;
      answers_left = s.answers_left;
      failed = s.failed;
      lacks_memory = s.lacks_memory;
    } };

    ghost invariant = { λ s. 0 < s.most };
}

impl PieceSink {
    /// A sink that takes up to `most` bytes for each call. It answers `answers` writes and fails
    /// from the next one on: so 0 fails at once, and `u64::MAX` never fails in a test but for memory.
    pub fn new(alloc: Global, most: usize, answers: u64) -> PieceSink
        requires { 0 < most }
        ensures { result ≡ record { taken = []; most = most; answers_left = answers; failed = false; lacks_memory = false } }
    {
        PieceSink {
            taken: Vec::new(alloc),
            most,
            answers_left: answers,
            failed: false,
            lacks_memory: false,
        }
    }

    /// The bytes that were taken.
    pub fn taken(&self) -> &[u8]
        ensures { result.now ≡ self.now.taken }
    {
        self.taken.as_slice()
    }

    /// Whether a write failed because memory ran out.
    pub fn lacks_memory(&self) -> bool
        ensures { result ≡ self.now.lacks_memory }
    {
        self.lacks_memory
    }
}

impl Sink for PieceSink {
    ghost taken = { λ s. Some s.taken };

    ghost failed = { λ s. s.failed };

    fn write(&mut self, bytes: &[u8]) -> Result<usize, PortFailed>
        requires { 0 < length bytes.now }
        ensures bytes { TakesBytes (Some self.old.taken) (Some self.new.taken) result bytes.now }
        ensures fails { Fails self.old.failed self.new.failed result }

        // The sink takes as many bytes as the test asked for, or all if they are fewer. It fails at the call that the test named,
        // or at which memory runs out, at each one after it, and at no other.
        ensures told { WritesAsAsked self.old self.new bytes.now result }
    {
        if self.failed || self.answers_left == 0 {
            self.failed = true;
            return Err(PortFailed);
        }
        let n = self.most.min(bytes.len());
        if self.taken.extend_from_slice(&bytes[..n]).is_err() {
            self.failed = true;
            self.lacks_memory = true;
            return Err(PortFailed);
        }
        self.answers_left -= 1;
        Ok(n)
    }

    fn has_failed(&self) -> bool {
        self.failed
    }
}

impl Durable for PieceSink {
    ghost is_durable = { λ _. true };

    // Fails where a write has failed. Else there is nothing to sync.
    fn sync(&mut self) -> Result<(), PortFailed> {
        if self.failed {
            return Err(PortFailed);
        }
        Ok(())
    }
}
