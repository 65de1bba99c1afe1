//! A wrapper that makes the bytes that any sink takes known to proofs: each write is passed on to the sink inside, and what that
//! took is noted in a transcript that exists in proofs alone.

ghost use Rattle.std.specs.Prelude.{◌≡◌, []};

use crate::transcript::{Piece, Transcript};
use gc_lines::{Durable, PortFailed, Sink};

/// A sink that notes which bytes the sink inside took.
#[derive(Drop)]
pub struct Told<K> {
    /// The sink inside.
    pub sink: K,
    /// The bytes that it took since it was wrapped, which proofs alone can read.
    pub told: Transcript,
}

impl<K> Told<K> {
    /// A sink over `sink`, of which nothing is noted yet.
    pub fn new(sink: K) -> Told<K>
        ensures inside { result.sink ≡ sink }
        ensures fresh { result.told.bytes ≡ [] }
    {
        Told {
            sink,
            told: Transcript::new(),
        }
    }
}

impl<K: Sink> Sink for Told<K> {
    ghost use Rattle.std.specs.Prelude.{Some};

    ghost taken = { λ t. Some t.told.bytes };

    ghost failed = { λ t. K.failed t.sink };

    // Writes into the sink inside, and notes the bytes that it took.
    fn write(&mut self, bytes: &[u8]) -> Result<usize, PortFailed> {
        match self.sink.write(bytes) {
            Ok(n) => {
                self.told = self.told.then(&Piece { bytes: &bytes[..n] });
                Ok(n)
            }
            Err(failed) => Err(failed),
        }
    }

    fn has_failed(&self) -> bool {
        self.sink.has_failed()
    }
}

impl<K: Durable> Durable for Told<K> {
    ghost is_durable = { λ t. K.is_durable t.sink };

    // Syncs the sink inside. Nothing is noted of that.
    fn sync(&mut self) -> Result<(), PortFailed> {
        self.sink.sync()
    }
}
