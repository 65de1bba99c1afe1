//! Frames out of the pieces of a stream: each ends at a line feed, wherever the stream is cut.

ghost use Rattle.std.specs.Prelude.{◌≡◌, ℕ, List, [], ◌++◌, ◌<◌, ◌↔◌, length, IfSome, IsTrue};
ghost use Rattle.std.specs.List.{position};
ghost use Rattle.gc_lines.specs.Assembler.{StandsFor};
ghost use Rattle.gc_lines.specs.Frames.{is_line_feed, frame_of};
ghost use Rattle.gc_lines.specs.Lent.{lent_seen, IsLineWithinLimit};
ghost use Rattle.gc_lines.specs.Taking.{IsUsedOf, KeepsPiece, EndsFrame};

use crate::frame::{Frame, Lent};
use crate::line::{Line, append};
use arrayvec::ArrayVec;
use memchr::memchr;
use std::marker::Model;

/// Takes the pieces of a stream, and gives its frames.
///
/// Of the bytes since the last line feed it keeps at most the first 513, which the longest line has with its CR, and the last
/// one, so its size does not grow with the stream. Contracts say with `StandsFor` which bytes may have come since the last line
/// feed; at first none have.
#[derive(Drop)]
pub struct Assembler {
    // The bytes since the last line feed, or since the start: only the first 513 where there are more.
    front: ArrayVec<u8, 513>,
    // The last byte since the last line feed, or 0 where none came.
    last: u8,
    // Whether more than 513 bytes came since the last line feed.
    long: bool,
}

impl Model for Assembler {
    ghost use Rattle.std.specs.Prelude.{ℕ, List};
    ghost use Rattle.gc_lines.specs.Assembler.{Kept, StandsFor};

    ghost Value = { Kept };

    ghost view = { λ a. record { front = a.front.items; last = a.last; long = a.long } };

    ghost invariant = { λ a. (rest : List ℕ) × StandsFor (record { front = a.front.items; last = a.last; long = a.long }) rest };
}

impl Assembler {
    /// An assembler at the start of a line.
    pub fn new() -> Assembler
        ensures { StandsFor result [] }
    {
        Assembler {
            front: ArrayVec::new(),
            last: 0,
            long: false,
        }
    }

    /// Whether the assembler is at the start of a line: no byte came since the last line feed, or none at all.
    pub fn at_start(&self) -> bool
        ensures stands { (rest : List ℕ) × StandsFor self.now rest }
        ensures start { (rest : List ℕ) → StandsFor self.now rest → IsTrue result ↔ (rest ≡ []) }
    {
        self.front.is_empty()
    }

    /// Uses the piece through its first line feed. It returns how many bytes those were, and the frame that they end.
    ///
    /// Where the piece has no line feed, all of it is used and the frame is [`Lent::More`], also where it is empty. After
    /// any other frame the assembler is at the start of a line. A line that is whole in the piece is lent from there; one
    /// that earlier pieces began is put together in `cut`, in place of what was there, and lent from `cut`.
    #[inline(always)]
    pub fn next<'a>(&mut self, piece: &'a [u8], cut: &'a mut Line) -> (usize, Lent<'a>)
        ensures stands { (rest : List ℕ) × StandsFor self.old rest }
        ensures used { IsUsedOf piece.now result.0 }
        ensures more { KeepsPiece self.old self.new piece.now result.0 (lent_seen result.1) }
        ensures frame { EndsFrame self.old self.new piece.now result.0 (lent_seen result.1) }
        ensures within { IsLineWithinLimit result.1 }
    {
        let Some(at) = line_feed_at(piece) else {
            self.keep(piece);
            return (piece.len(), Lent::More);
        };
        if self.front.is_empty() {
            return (at + 1, frame_in(&piece[..at]));
        }
        self.keep(&piece[..at]);
        (at + 1, self.finish(cut))
    }

    /// As [`Assembler::next`], but the frame that it returns has a copy of the line.
    #[inline]
    pub fn take(&mut self, piece: &[u8]) -> (usize, Frame)
        ensures stands { (rest : List ℕ) × StandsFor self.old rest }
        ensures used { IsUsedOf piece.now result.0 }
        ensures more { KeepsPiece self.old self.new piece.now result.0 result.1 }
        ensures frame { EndsFrame self.old self.new piece.now result.0 result.1 }
    {
        let mut cut = Line::new();
        let (used, lent) = self.next(piece, &mut cut);
        (used, lent.to_frame())
    }

    // Keeps further bytes of the line: it appends to `front` those that have room there, sets `last` to the last of the bytes,
    // and sets `long` where not all of them had room. Without bytes nothing changes.
    #[inline(never)]
    fn keep(&mut self, bytes: &[u8])
        ensures stands { (rest : List ℕ) × StandsFor self.old rest }
        ensures more { (rest : List ℕ) → StandsFor self.old rest → StandsFor self.new (rest ++ bytes.now) }
    {
        let room = self.front.remaining_capacity();
        let Some(last) = bytes.last() else { return };
        self.last = *last;
        if bytes.len() <= room {
            append(&mut self.front, bytes);
        } else {
            append(&mut self.front, &bytes[..room]);
            self.long = true;
        }
    }

    // The frame that a line feed makes of the bytes since the one before it, or since the start. Where it is a line, it is put
    // together in `cut`. The assembler is then at the start of a line.
    #[inline(never)]
    fn finish<'a>(&mut self, cut: &'a mut Line) -> Lent<'a>
        ensures frame { (rest : List ℕ) → StandsFor self.old rest → lent_seen result ≡ frame_of rest }
        ensures start { StandsFor self.new [] }
        ensures within { IsLineWithinLimit result }
    {
        if self.front.is_empty() || self.last != b'\r' {
            self.clear();
            return Lent::Cleared;
        }
        if self.long {
            self.clear();
            return Lent::Overlong;
        }
        let len = self.front.len() - 1;
        cut.clear();
        append(cut, &self.front[..len]);
        self.clear();
        Lent::Line(cut)
    }

    // Forgets all bytes: the assembler is at the start of a line.
    #[inline]
    fn clear(&mut self)
        ensures { StandsFor self.new [] }
    {
        self.front.clear();
        self.last = 0;
        self.long = false;
    }
}

// The frame that a line feed makes of these bytes of a piece, where they begin at the start of a line.
#[inline]
fn frame_in(bytes: &[u8]) -> Lent<'_>
    ensures frame { lent_seen result ≡ frame_of bytes.now }
    ensures within { IsLineWithinLimit result }
{
    let [line @ .., b'\r'] = bytes else {
        return Lent::Cleared;
    };
    if line.len() > 512 {
        return Lent::Overlong;
    }
    Lent::Line(line)
}

// The index of the first line feed in a piece. `None`: the piece has no line feed.
#[inline(always)]
fn line_feed_at(piece: &[u8]) -> Option<usize>
    ensures at { result ≡ position is_line_feed piece.now }
    ensures within { IfSome result (λ at. at < length piece.now) }
{
    memchr(b'\n', piece)
}
