//! A wrapper that makes the bytes that any source gives known to proofs: each read is passed on to the source inside, and what that
//! gave is noted in a transcript that exists in proofs alone.

ghost use Rattle.std.specs.Prelude.{◌≡◌, ◌+◌, ◌<◌, ◌≤◌, [], length, IfOk, IfErr};
ghost use Rattle.gc_lines.specs.Ports.{GivesBytes, CountsRead, Fails};
ghost use Rattle.gc_logs.specs.Transcripts.{NotesRead, hearing_of, HearsText, HearsNoText};
ghost use Rattle.gc_texts.specs.declared.text.TheConstants.{TEXT_LIMIT};

use crate::transcript::{Piece, Transcript};
use gc_lines::{PortFailed, Source};
use gc_texts::{RunFault, TEXT_LIMIT};
use std::alloc::Global;

/// A source that notes which bytes the source inside gave.
#[derive(Drop)]
pub struct Heard<S> {
    /// The source inside.
    pub source: S,
    /// The bytes that its reads gave since it was wrapped, which proofs alone can read.
    pub heard: Transcript,
}

impl<S> Heard<S> {
    /// A source over `source`, of which nothing is noted yet.
    pub fn new(source: S) -> Heard<S>
        ensures inside { result.source ≡ source }
        ensures fresh { result.heard.bytes ≡ [] }
    {
        Heard {
            source,
            heard: Transcript::new(),
        }
    }
}

impl<S: Source> Source for Heard<S> {
    ghost remaining = { λ h. S.remaining h.source };

    ghost reads = { λ h. S.reads h.source };

    ghost ended = { λ h. S.ended h.source };

    ghost failed = { λ h. S.failed h.source };

    // Reads from the source inside, and notes the bytes that it gave.
    fn read(&mut self, buf: &mut [u8]) -> Result<usize, PortFailed>
        requires { 0 < length buf.old }
        ensures bytes { GivesBytes (S.remaining self.old.source) (S.remaining self.new.source) result buf.new }
        ensures counts { CountsRead (S.reads self.old.source) (S.reads self.new.source) (S.ended self.old.source) (S.ended self.new.source) result }
        ensures fails { Fails (S.failed self.old.source) (S.failed self.new.source) result }
        ensures heard { NotesRead self.old.heard.bytes self.new.heard.bytes result buf.new }
    {
        match self.source.read(buf) {
            Ok(n) => {
                self.heard = self.heard.then(&Piece { bytes: &buf[..n] });
                Ok(n)
            }
            Err(failed) => Err(failed),
        }
    }

    fn has_failed(&self) -> bool {
        self.source.has_failed()
    }
}

/// Reads a source until its input ends, as [`read_text`](gc_texts::read_text) does, with the same faults, and returns the bytes, which
/// are exactly those that the source noted. At most 65,537 bytes are read.
pub fn hear_text<S: Source>(alloc: Global, source: &mut Heard<S>) -> Result<Vec<u8>, RunFault>
    ensures found { IfOk result (λ text. HearsText (hearing_of S.Source source.old) (hearing_of S.Source source.new) text.items) }
    ensures fault { IfErr result (λ fault. HearsNoText (hearing_of S.Source source.old) (hearing_of S.Source source.new) fault) }
    ensures bounded { S.reads source.new.source ≤ S.reads source.old.source + (TEXT_LIMIT + 1) }
{
    let mut text = Vec::new(alloc);
    let mut buf = [0u8; 4096];
    loop {
        let room = (TEXT_LIMIT + 1 - text.len()).min(4096);
        let piece = &mut buf[..room];
        match source.read(piece) {
            Ok(0) => return Ok(text),
            Ok(n) => {
                if n > TEXT_LIMIT - text.len() {
                    return Err(RunFault::InputTooLong);
                }
                if text.extend_from_slice(&piece[..n]).is_err() {
                    return Err(RunFault::Memory);
                }
            }
            Err(_) => return Err(RunFault::Read),
        }
    }
}
