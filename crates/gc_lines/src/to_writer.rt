//! A sink over a writer of std. Each error of the writer, and a write that takes no byte, is a failure.

ghost use Rattle.std.specs.Prelude.{◌≡◌, true, false};

use crate::ports::{Durable, PortFailed, Sink};
use std::io::Write;

/// A sink that writes to a writer of std.
///
/// It fails at the first error of the writer, also an interruption, or where the writer takes none of the bytes, and at each later
/// call. It never flushes the writer.
#[derive(Drop)]
pub struct ToWriter<W> {
    writer: W,
    // Whether a write has failed.
    broken: bool,
}

impl<W: Write> ToWriter<W> {
    /// A sink that has not failed. What the writer already holds counts as taken.
    pub fn new(writer: W) -> ToWriter<W>
        ensures bytes { ⟦<ToWriter<W> as Sink>⟧.taken result ≡ W.contents writer }
        ensures failed { ⟦<ToWriter<W> as Sink>⟧.failed result ≡ false }
    {
        ToWriter {
            writer,
            broken: false,
        }
    }
}

impl<W: Write> Sink for ToWriter<W> {
    ghost taken = { λ s. W.contents s.writer };

    ghost failed = { λ s. s.broken };

    fn write(&mut self, bytes: &[u8]) -> Result<usize, PortFailed> {
        if self.broken {
            return Err(PortFailed);
        }
        match self.writer.write(bytes) {
            Ok(0) | Err(_) => {
                self.broken = true;
                Err(PortFailed)
            }
            Ok(n) => Ok(n),
        }
    }

    fn has_failed(&self) -> bool {
        self.broken
    }
}

// Nothing that a writer of std took is meant to outlast a crash, so `sync` has nothing to do. It fails where a write has failed.
impl<W: Write> Durable for ToWriter<W> {
    ghost is_durable = { λ _. true };

    fn sync(&mut self) -> Result<(), PortFailed> {
        if self.broken {
            return Err(PortFailed);
        }
        Ok(())
    }
}
