//! The past of a file, and of several: what was done to it since it was opened. It exists for proofs alone: no code reads it, and it
//! has no bytes.

ghost use Rattle.std.specs.Prelude.{◌≡◌, [], ◌∷◌, ◌++◌, List};
ghost use base.Fml.{ftrue};
ghost use Rattle.gc_files.specs.Files.{Step};
ghost use Rattle.gc_files.specs.Coding.{files_code, steps_code};

use std::marker::Model;

/// The calls that changed a file, or synced it, in order.
#[derive(Drop)]
pub struct Past {
    pub ghost steps: { List Step } by { steps_code },
}

impl Model for Past {
    ghost also_owns = { λ _. ftrue };
}

/// A call of a file, or all calls of another past.
#[derive(Clone, Copy, Drop)]
pub enum Done<'a> {
    /// These bytes were appended.
    Append(&'a [u8]),
    /// All that the file holds was synced.
    Sync,
    /// All calls of another past, in order.
    All(&'a Past),
}

impl Past {
    ghost use Rattle.gc_files.specs.Noted.{steps_done};

    /// The past of a file that was just opened: no call was made since then.
    pub fn new() -> Past
        ensures { result.steps ≡ [] }
    {
        Past {}
    }

    /// The past with the call or the calls of `_done` added at its end. The calls are ghost, so there is nothing to copy.
    pub fn then(&self, _done: &Done<'_>) -> Past
        ensures { result.steps ≡ self.now.steps ++ steps_done _done.now }
    {
        Past {}
    }
}

/// The pasts of several files, one after the other.
#[derive(Drop)]
pub struct Pasts {
    pub ghost files: { List (List Step) } by { files_code },
}

impl Model for Pasts {
    ghost also_owns = { λ _. ftrue };
}

impl Pasts {
    ghost use Rattle.gc_files.specs.InTurn.{all_steps};

    /// The pasts of no file.
    pub fn new() -> Pasts
        ensures { result.files ≡ [] }
    {
        Pasts {}
    }

    /// These pasts, and after them that of one more file.
    pub fn then(&self, _past: &Past) -> Pasts
        ensures { result.files ≡ self.now.files ++ _past.now.steps ∷ [] }
    {
        Pasts {}
    }

    /// All calls of all these files, as one past.
    pub fn all(&self) -> Past
        ensures { result.steps ≡ all_steps self.now.files }
    {
        Past {}
    }
}
