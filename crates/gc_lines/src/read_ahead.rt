//! A reader that reads ahead into a fixed array, so that many small reads ask the reader under it but once.

ghost use Rattle.std.specs.Prelude.{◌≡◌, ◌-◌, ◌<◌, ◌≤◌, ◌++◌, [], OnOk, OnErr, IsTrue, ◌↔◌, length, min, take};
ghost use Rattle.std.specs.Io.{ReadsAtMost};
ghost use Rattle.std.specs.Io.KnownBytes.{ReadConsumes, Consumes, IsAtEnd, Keeps, prepend_known};

use std::io::{self, Read};
use std::marker::Model;

/// How many bytes are read ahead at most.
const AHEAD: usize = 8192;

/// A reader that reads ahead from another one, up to 8192 bytes at a time. It allocates nothing itself.
///
/// Where bytes are held, a call returns as many of them as its buffer has room for, and doesn't read from the other reader. Where
/// none are held, it first reads once from the other, also for an empty buffer, and then returns as many of the bytes that came
/// as its buffer has room for. The other's end, or its error, is returned only after all bytes before it; a later call reads
/// from the other again.
#[derive(Drop)]
pub struct ReadAhead<R> {
    held: Held,
    reader: R,
}

// The bytes that were read and not yet given: `bytes[start..end]`.
#[derive(Drop)]
struct Held {
    bytes: [u8; AHEAD],
    start: usize,
    end: usize,
}

impl Model for Held {
    ghost use Rattle.std.specs.Prelude.{ℕ, ◌≤◌, List, slice_range};
    ghost use Rattle.gc_lines.specs.declared.read_ahead.TheConstants.{AHEAD};

    ghost Value = { List ℕ };

    ghost view = { λ h. slice_range h.bytes h.start h.end };

    ghost invariant = { λ h. (h.start ≤ h.end) × (h.end ≤ AHEAD) };
}

impl Held {
    // The state in which nothing is held.
    fn new() -> Held
        ensures { result ≡ [] }
    {
        Held {
            bytes: [0; AHEAD],
            start: 0,
            end: 0,
        }
    }

    // Whether nothing is held.
    fn is_empty(&self) -> bool
        ensures { IsTrue result ↔ (self.now ≡ []) }
    {
        self.start == self.end
    }

    // Reads once from `reader`, and holds the bytes that came: none at its end, or where the read fails. The caller has shown that
    // nothing was held.
    fn refill<R: Read>(&mut self, reader: &mut R) -> io::Result<()>
        requires { self.old ≡ [] }
        ensures ok { OnOk result (Consumes (R.remaining reader.old) (R.remaining reader.new) self.new
            × (self.new ≡ [] → IsAtEnd (R.remaining reader.new))) }
        ensures err { OnErr result (Keeps (R.remaining reader.old) (R.remaining reader.new) × (self.new ≡ [])) }
    {
        self.start = 0;
        self.end = 0;
        self.end = reader.read(&mut self.bytes)?;
        Ok(())
    }

    // Moves bytes from the front of those held into `buf`, as many as there are and `buf` has room for, and returns how many.
    fn give(&mut self, buf: &mut [u8]) -> usize
        ensures count { result ≡ min (length self.old) (length buf.old) }
        ensures bytes { self.old ≡ take result buf.new ++ self.new }
    {
        let count = (self.end - self.start).min(buf.len());
        buf[..count].copy_from_slice(&self.bytes[self.start..self.start + count]);
        self.start += count;
        count
    }
}

impl<R: Read> ReadAhead<R> {
    /// A reader that holds nothing yet: its bytes are the other's.
    pub fn new(reader: R) -> ReadAhead<R>
        ensures bytes { ⟦<ReadAhead<R> as Read>⟧.remaining result ≡ R.remaining reader }
        ensures nothing { result.held ≡ [] }
    {
        ReadAhead {
            held: Held::new(),
            reader,
        }
    }
}

impl<R: Read> Read for ReadAhead<R> {
    ghost remaining = { λ ahead. prepend_known ahead.held (R.remaining ahead.reader) };

    fn read(&mut self, buf: &mut [u8]) -> io::Result<usize>
        ensures bound { ReadsAtMost result buf.new }
        ensures bytes { ReadConsumes (⟦<ReadAhead<R> as Read>⟧.remaining self.old)
            (⟦<ReadAhead<R> as Read>⟧.remaining self.new) result buf.new }

        // Where bytes are held, it returns as many of them as `buf` has room for, and doesn't read from the other.
        ensures held { 0 < length self.old.held
            → (result ≡ Ok (min (length self.old.held) (length buf.old))) × (self.new.reader ≡ self.old.reader) }

        // Where the other failed, nothing is held: all bytes before that were returned.
        ensures failed { OnErr result ((self.old.held ≡ []) × (self.new.held ≡ [])) }
    {
        if self.held.is_empty() {
            self.held.refill(&mut self.reader)?;
        }
        Ok(self.held.give(buf))
    }
}
