//! The transcript of a stream: the bytes that went through it, in order. It exists for proofs alone: no code reads it, and it has
//! no bytes.

ghost use Rattle.std.specs.Prelude.{◌≡◌, [], ◌++◌, ℕ, List};
ghost use base.Fml.{ftrue};
ghost use Rattle.gc_logs.specs.Coding.{bytes_code};

use std::marker::Model;

/// The bytes that went through a stream so far, in order.
#[derive(Drop)]
pub struct Transcript {
    pub ghost bytes: { List ℕ } by { bytes_code },
}

impl Model for Transcript {
    ghost also_owns = { λ _. ftrue };
}

/// Bytes that went through a stream in one call.
#[derive(Clone, Copy, Drop)]
pub struct Piece<'a> {
    pub bytes: &'a [u8],
}

impl Transcript {
    /// The transcript of a stream through which nothing went yet.
    pub fn new() -> Transcript
        ensures { result.bytes ≡ [] }
    {
        Transcript {}
    }

    /// The transcript with the bytes of `_piece` added at its end. The bytes are ghost, so there is nothing to copy.
    pub fn then(&self, _piece: &Piece<'_>) -> Transcript
        ensures { result.bytes ≡ self.now.bytes ++ _piece.now.bytes.now }
    {
        Transcript {}
    }
}
