//! The bytes of an incomplete line: a state keeps of them what the frame of the next line feed depends on.

ghost use Rattle.std.specs.Prelude.{◌≡◌, ◌≤◌, ◌↔◌, All, ◌+◌, ◌++◌, ℕ, List, [], length, Some, None, IsTrue};
ghost use Rattle.std.specs.List.{position};
ghost use Rattle.gc_lines.specs.Frames.{frame_of, is_line_feed};
ghost use Rattle.gc_lines.specs.Taking.{IsUsedOf};
ghost use Rattle.geocom_c.specs.Beginning.{IsGiven};
ghost use Rattle.geocom_c.specs.Rest.{IsNoLineFeed, IsRest, IsValid, UsesFirstLine, UsesUnended};
ghost use Rattle.geocom_c.specs.Rooms.{IsWritten, WritesWithin};
ghost use Rattle.geocom_c.specs.declared.header.TheConstants.{LINE_ROOM};

use crate::header::LINE_ROOM;
use gc_lines::{Assembler, Frame, Line, with_end};

// How many bytes are kept at most: a line of 512, its CR, and the last byte that came after these.
const KEPT: usize = 514;

/// The bytes since the last line feed: all of them, or of more than 514 the first 513 and the last.
#[repr(C)]
#[derive(Clone, Copy)]
pub struct GeocomRest {
    /// How many bytes are kept, at most 514.
    pub length: u16,
    /// The kept bytes, at the front.
    pub bytes: [u8; KEPT],
}

impl GeocomRest {
    // No byte since the last line feed.
    pub(crate) fn new() -> GeocomRest
        ensures { IsRest result [] }
    {
        GeocomRest {
            length: 0,
            bytes: [0; KEPT],
        }
    }

    // Whether at most 514 bytes are kept, and no line feed among them.
    pub(crate) fn is_valid(&self) -> bool
        ensures { IsTrue result ↔ IsValid self.now }
    {
        let length = usize::from(self.length);
        length <= KEPT && has_no_line_feed(&self.bytes[..length])
    }

    // Takes bytes of a piece through its first line feed, and returns how many these are, and the frame that the line feed ends.
    // No byte is kept then. Without a line feed all bytes are used, the frame is `More`, and what the frame of the next line feed
    // depends on is kept of them.
    pub(crate) fn take(&mut self, piece: &[u8]) -> (usize, Frame)
        requires { IsValid self.old }
        ensures used { IsUsedOf piece.now result.0 }
        ensures more { UsesUnended self.old piece.now result.0 (λ line. (result.1 ≡ Frame.More) × IsRest self.new line) }
        ensures frame { UsesFirstLine self.old piece.now result.0 (λ line. (result.1 ≡ frame_of line) × IsRest self.new []) }
    {
        let (used, frame) = self.frame(piece);
        match frame {
            Frame::More => {
                self.keep(piece);
                (used, Frame::More)
            }
            ended => {
                *self = GeocomRest::new();
                (used, ended)
            }
        }
    }

    // Returns how many bytes of a piece are used, those through its first line feed, and the frame that this line feed ends,
    // which is made of the kept bytes and the used ones after them. Without a line feed all bytes are used, and the frame is
    // `More`.
    fn frame(&self, piece: &[u8]) -> (usize, Frame)
        requires { IsValid self.now }
        ensures used { IsUsedOf piece.now result.0 }
        ensures more { UsesUnended self.now piece.now result.0 (λ line. result.1 ≡ Frame.More) }
        ensures frame { UsesFirstLine self.now piece.now result.0 (λ line. result.1 ≡ frame_of line) }
    {
        let mut assembler = Assembler::new();
        let _ = assembler.take(&self.bytes[..usize::from(self.length)]);
        assembler.take(piece)
    }

    // Keeps the bytes of a piece that has no line feed: as many as there is room for. If not all fit, the last byte of the piece
    // overwrites the last place.
    fn keep(&mut self, piece: &[u8])
        requires { IsValid self.old }
        ensures { (rest : List ℕ) → IsRest self.old rest → position is_line_feed piece.now ≡ None
            → IsRest self.new (rest ++ piece.now) }
    {
        let Some(last) = piece.last() else { return };
        let length = usize::from(self.length);
        let fitting = piece.len().min(KEPT - length);
        put_text(&mut self.bytes, length, &piece[..fitting]);
        self.length += fitting as u16;
        if fitting < piece.len() {
            self.bytes[KEPT - 1] = *last;
        }
    }
}

// Whether no byte is a line feed.
fn has_no_line_feed(bytes: &[u8]) -> bool
    ensures { IsTrue result ↔ All IsNoLineFeed bytes.now }
{
    bytes.iter().all(|b| *b != b'\n')
}

/// Writes a text over the bytes from place `at` on, counted from 0. There is room for all of it.
pub(crate) fn put_text(bytes: &mut [u8], at: usize, text: &[u8])
    requires { at + length text.now ≤ length bytes.old }
    ensures text { IsWritten at text.now bytes.old bytes.new }
    ensures written { WritesWithin (at + length text.now) bytes.old bytes.new }
    ensures fits { at + length text.now ≤ length bytes.new }
{
    bytes[at..at + text.len()].copy_from_slice(text);
}

/// Writes a line with its CR LF to the front of `room`, and returns how many bytes these are.
pub(crate) fn put_line(room: &mut [u8], line: &Line) -> u32
    requires { LINE_ROOM ≤ length room.old }
    ensures given { IsGiven (Some line.now.items) result room.new }
    ensures written { WritesWithin result room.old room.new }
{
    let text = with_end(line);
    put_text(room, 0, text.as_slice());
    text.len() as u32
}
