//! Feeding: the bytes of a line in flight, and then its CR LF, are handed to the assembler at the far end of their
//! direction, all at once or in parts.

ghost use Rattle.std.specs.Prelude.{◌≡◌, ◌+◌, ◌<◌, ◌≤◌, [], length};
ghost use Rattle.gc_lines.specs.Assembler.{StandsFor};
ghost use Rattle.gc_lines.specs.Lent.{IsLentLine};
ghost use Rattle.gc_lines.specs.Lines.{IsPlain};
ghost use Rattle.gc_world.specs.Sides.{StandsForPart};

use arrayvec::ArrayVec;
use gc_lines::{Assembler, Lent, Line, append, bytes_from};

/// The bytes of a line with its CR LF.
pub type Piece = ArrayVec<u8, 514>;

/// Feeds the next `n` bytes of a line whose first `gone` bytes have gone, its CR LF counted. The last byte, the LF, isn't among them, so
/// the line isn't completed. `cut` is left as it is: the assembler puts a line together there only when the line's last byte
/// comes.
#[inline(never)]
pub fn feed_some(assembler: &mut Assembler, line: &[u8], gone: usize, n: usize, cut: &mut Line)
    requires plain { IsPlain line.now }
    requires within { length line.now ≤ 512 }
    requires some { gone + n < length line.now + 2 }
    requires stands { StandsForPart assembler.old gone line.now }
    ensures { StandsForPart assembler.new (gone + n) line.now }
{
    // Where the bytes go past the line's end, the CR is among them. Where the CR has gone already, n is 0.
    let to = gone + n;
    if to <= line.len() {
        assembler.next(&line[gone..to], cut);
    } else if gone <= line.len() {
        assembler.next(&line[gone..], cut);
        assembler.next(b"\r", cut);
    }
}

/// Feeds what remains of a line whose first `gone` bytes have gone, its CR LF counted, as one piece, and returns the completed line.
/// The old content of the two buffers doesn't matter: in `piece` the line gets its CR LF, and in `cut` the assembler puts together a
/// line of which bytes have gone before.
#[inline(always)]
pub fn feed_rest<'a>(
    assembler: &mut Assembler,
    line: &[u8],
    gone: usize,
    piece: &'a mut Piece,
    cut: &'a mut Line,
) -> Lent<'a>
    requires plain { IsPlain line.now }
    requires within { length line.now ≤ 512 }
    requires some { gone < length line.now + 2 }
    requires stands { StandsForPart assembler.old gone line.now }
    ensures line { IsLentLine result line.now }
    ensures start { StandsFor assembler.new [] }
{
    piece.clear();
    append(piece, line);
    append(piece, b"\r\n");
    assembler.next(bytes_from(piece.as_slice(), gone), cut).1
}
