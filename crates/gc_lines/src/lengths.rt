//! The lengths of the texts that wait to be written.

ghost use Rattle.std.specs.Prelude.{◌≡◌, ◌<◌, [], ◌∷◌, ◌++◌, length};

use std::marker::Model;

// The most lengths of texts.
pub(crate) const MOST_LENGTHS: usize = 256;

// At most 256 lengths, in an array: clearing them only resets the count, which matters where each text is written at once.
#[derive(Drop)]
pub(crate) struct Lengths {
    all: [usize; MOST_LENGTHS],
    // How many places of `all` are in use, from the first on.
    count: usize,
}

impl Model for Lengths {
    ghost use Rattle.std.specs.Prelude.{ℕ, ◌≤◌, List, take};

    ghost Value = { List ℕ };

    ghost view = { λ l. take l.count l.all };

    ghost invariant = { λ l. l.count ≤ 256 };
}

impl Lengths {
    // The empty list of lengths: no text waits.
    pub(crate) fn new() -> Lengths
        ensures { result ≡ [] }
    {
        Lengths {
            all: [0; MOST_LENGTHS],
            count: 0,
        }
    }

    // How many texts wait.
    #[inline]
    pub(crate) fn len(&self) -> usize
        ensures { result ≡ length self.now }
    {
        self.count
    }

    // The lengths of the texts that wait, in order.
    #[inline]
    pub(crate) fn as_slice(&self) -> &[usize]
        ensures { result.now ≡ self.now }
    {
        &self.all[..self.count]
    }

    // Counts one more text that waits, of this length.
    #[inline]
    pub(crate) fn push(&mut self, bytes: usize)
        requires { length self.old < 256 }
        ensures { self.new ≡ self.old ++ bytes ∷ [] }
    {
        self.all[self.count] = bytes;
        self.count += 1;
    }

    // Forgets all lengths: no text waits any more.
    #[inline]
    pub(crate) fn clear(&mut self)
        ensures { self.new ≡ [] }
    {
        self.count = 0;
    }
}
