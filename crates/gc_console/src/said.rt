//! A wrapper that makes the bytes that a place for messages takes known to proofs: each write is passed on to the place inside, and
//! what that took is noted in a transcript that exists in proofs alone.

ghost use Rattle.std.specs.Prelude.{◌≡◌, []};

use gc_logs::{Piece, Transcript};
use std::io::{self, Write};

/// A place for messages that notes which bytes the place inside took.
#[derive(Drop)]
pub struct Said<E> {
    /// The place inside.
    pub inner: E,
    /// The bytes that it took since it was wrapped, which proofs alone can read.
    pub said: Transcript,
}

impl<E> Said<E> {
    /// A place over `inner`, of which nothing is noted yet.
    pub fn new(inner: E) -> Said<E>
        ensures { result.said.bytes ≡ [] }
    {
        Said {
            inner,
            said: Transcript::new(),
        }
    }
}

impl<E: Write> Write for Said<E> {
    ghost use Rattle.std.specs.Prelude.{Some};

    ghost contents = { λ s. Some s.said.bytes };

    // Writes into the place inside, and notes the bytes that it took.
    fn write(&mut self, buf: &[u8]) -> io::Result<usize> {
        match self.inner.write(buf) {
            Ok(n) => {
                self.said = self.said.then(&Piece { bytes: &buf[..n] });
                Ok(n)
            }
            Err(error) => Err(error),
        }
    }

    // Flushes the place inside. Nothing is noted of that.
    fn flush(&mut self) -> io::Result<()> {
        self.inner.flush()
    }
}
