//! What was read of a link and isn't used yet.

ghost use Rattle.std.specs.Prelude.{◌≡◌, ◌≤◌, [], drop, length, false, Ok};
ghost use Rattle.gc_lines.specs.Ports.{Fails};
ghost use Rattle.gc_ask.specs.Links.{ReadsMore, ReadsOnce};
ghost use Rattle.gc_ask.specs.declared.unused.TheConstants.{ROOM};
ghost use Rattle.gc_texts.specs.WholeTexts.{input_of};

use gc_lines::{PortFailed, Source};
use gc_texts::RunFault;
use std::marker::Model;

/// The most bytes of one read.
pub(crate) const ROOM: usize = 256;

/// The bytes of the last read that aren't used yet: `bytes[at..end]`.
#[derive(Drop)]
pub(crate) struct Unused {
    bytes: [u8; ROOM],
    at: usize,
    end: usize,
}

impl Model for Unused {
    ghost use Rattle.std.specs.Prelude.{◌≡◌, ◌≤◌, ℕ, List, length, take, drop};
    ghost use Rattle.gc_ask.specs.declared.unused.TheConstants.{ROOM};

    ghost Value = { List ℕ };

    ghost view = { λ r. drop r.at (take r.end r.bytes) };

    ghost invariant = { λ r. (r.at ≤ r.end) × (r.end ≤ ROOM) × (length r.bytes ≡ ROOM) };
}

impl Unused {
    // No bytes: nothing was read yet.
    pub(crate) fn new() -> Unused
        ensures { result ≡ [] }
    {
        Unused {
            bytes: [0; ROOM],
            at: 0,
            end: 0,
        }
    }

    // The bytes that aren't used yet, in the order in which they came.
    pub(crate) fn left(&self) -> &[u8]
        ensures { result.now ≡ self.now }
    {
        &self.bytes[self.at..self.end]
    }

    // Uses up the first `used` bytes.
    pub(crate) fn advance(&mut self, used: usize)
        requires { used ≤ length self.old }
        ensures { self.new ≡ drop used self.old }
    {
        self.at += used;
    }

    // Reads once, in place of what was left. Returns false at the end of the stream, where nothing is left. `Err`: the source
    // failed, and nothing is left either.
    fn read<S: Source>(&mut self, source: &mut S) -> Result<bool, PortFailed>
        ensures few { length self.new ≤ ROOM }
        ensures end { result ≡ Ok false → self.new ≡ [] }
        ensures bytes { ReadsOnce (input_of S.Source source.old) (input_of S.Source source.new) self.new result }
        ensures fails { Fails (S.failed source.old) (S.failed source.new) result }
    {
        self.at = 0;
        self.end = 0;
        let n = source.read(&mut self.bytes)?;
        self.end = n;
        Ok(n > 0)
    }

    // Reads once more, in place of what was left, and subtracts from `reads` a read that was answered. `Err`: `TooManyReads` if
    // no read is left, `Read` if it failed, and `LinkClosed` at the end of what comes.
    pub(crate) fn read_more<S: Source>(
        &mut self,
        source: &mut S,
        reads: &mut u32,
    ) -> Result<(), RunFault>
        ensures { ReadsMore (input_of S.Source source.old) (input_of S.Source source.new) self.new reads.old reads.new result }
    {
        if *reads == 0 {
            return Err(RunFault::TooManyReads);
        }
        let Ok(more) = self.read(source) else {
            return Err(RunFault::Read);
        };
        *reads -= 1;
        if !more {
            return Err(RunFault::LinkClosed);
        }
        Ok(())
    }
}
