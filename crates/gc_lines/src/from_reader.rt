//! A source over a reader of std. Each error of the reader, an interruption too, is a failure.

ghost use Rattle.std.specs.Prelude.{◌≡◌, ◌^◌, ◌-◌, ◌<◌, false, IsErr, length};
ghost use Rattle.gc_lines.specs.Ports.{GivesBytes, CountsRead, Fails};

use crate::ports::{PortFailed, Source};
use std::io::Read;

/// A source that reads from a reader of std.
///
/// It fails at the first error of the reader, also an interruption, and at the read after 2^64 - 1 answered ones. Then each later
/// read fails, too.
#[derive(Drop)]
pub struct FromReader<R> {
    reader: R,
    // How many reads were answered.
    answered: u64,
    // Whether the last answered read was the end; false where none was answered yet.
    at_end: bool,
    // Whether a read has failed.
    broken: bool,
}

impl<R: Read> FromReader<R> {
    /// A source that has answered no read. Its bytes are the reader's.
    pub fn new(reader: R) -> FromReader<R>
        ensures bytes { ⟦<FromReader<R> as Source>⟧.remaining result ≡ R.remaining reader }
        ensures reads { ⟦<FromReader<R> as Source>⟧.reads result ≡ 0 }
        ensures ended { ⟦<FromReader<R> as Source>⟧.ended result ≡ false }
        ensures failed { ⟦<FromReader<R> as Source>⟧.failed result ≡ false }
    {
        FromReader {
            reader,
            answered: 0,
            at_end: false,
            broken: false,
        }
    }

    /// The reader that it reads from.
    pub fn reader(&self) -> &R
        ensures { result.now ≡ self.now.reader }
    {
        &self.reader
    }
}

impl<R: Read> Source for FromReader<R> {
    ghost remaining = { λ s. R.remaining s.reader };

    ghost reads = { λ s. s.answered };

    ghost ended = { λ s. s.at_end };

    ghost failed = { λ s. s.broken };

    fn read(&mut self, buf: &mut [u8]) -> Result<usize, PortFailed>
        requires { 0 < length buf.old }
        ensures bytes { GivesBytes (R.remaining self.old.reader) (R.remaining self.new.reader) result buf.new }
        ensures counts { CountsRead self.old.answered self.new.answered self.old.at_end self.new.at_end result }
        ensures fails { Fails self.old.broken self.new.broken result }
        ensures limit { self.old.answered ≡ 2 ^ 64 - 1 → IsErr result }
    {
        // A read fails where one has failed before, and where 2^64 - 1 were answered, since no further one can be counted.
        if self.broken || self.answered == u64::MAX {
            self.broken = true;
            return Err(PortFailed);
        }
        match self.reader.read(buf) {
            Ok(n) => {
                self.answered += 1;
                self.at_end = n == 0;
                Ok(n)
            }
            Err(_) => {
                self.broken = true;
                Err(PortFailed)
            }
        }
    }

    fn has_failed(&self) -> bool {
        self.broken
    }
}
