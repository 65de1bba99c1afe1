//! A frame is what a line feed, or the end of a piece, makes of the bytes before it.

ghost use Rattle.std.specs.Prelude.{◌≡◌};

use crate::line::{Line, line_from};

/// What a line feed makes of the bytes since the one before it, or since the start of the stream.
///
/// The manual ends a line by CR LF and says that a lone LF clears the receiver's buffer. That a line above 512 bytes is
/// discarded whole is this project's own.
#[derive(Drop)]
pub enum Frame {
    /// A line of at most 512 bytes, without its CR LF. CR LF alone is a line of no bytes.
    Line(Line),
    /// A line feed without a CR before it: the bytes before it are discarded.
    Cleared,
    /// A line of more than 512 bytes, its CR LF not counted: it is discarded.
    Overlong,
    /// No frame yet: no line feed came.
    More,
}

/// A frame whose line is borrowed: from the piece, where the line and its CR LF are whole in it, and else from the buffer in
/// which the line was put together.
#[derive(Clone, Copy)]
pub enum Lent<'a> {
    /// As [`Frame::Line`].
    Line(&'a [u8]),
    /// As [`Frame::Cleared`].
    Cleared,
    /// As [`Frame::Overlong`].
    Overlong,
    /// As [`Frame::More`].
    More,
}

ghost use Rattle.gc_lines.specs.Lent.{lent_seen, IsLineWithinLimit};

impl Lent<'_> {
    // The same frame; where it is a line, its bytes are copied.
    pub(crate) fn to_frame(self) -> Frame
        requires { IsLineWithinLimit self }
        ensures { result ≡ lent_seen self.entry }
    {
        match self {
            Lent::Line(bytes) => Frame::Line(line_from(bytes)),
            Lent::Cleared => Frame::Cleared,
            Lent::Overlong => Frame::Overlong,
            Lent::More => Frame::More,
        }
    }
}
