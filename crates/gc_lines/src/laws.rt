//! What is proved of the definitions themselves. Each function does nothing: its contract is the law.

ghost use Rattle.std.specs.Prelude.{◌≡◌};
ghost use Rattle.gc_lines.specs.Laws.{OneCut, FramesHoweverCut, PlainIsOneLine, ReadsRequests, ReadsReplies, WritesRequests, WritesReplies};
ghost use Rattle.gc_lines.specs.declared.answering.TheConstants.{PIECE};
ghost use Rattle.gc_lines.specs.declared.read_ahead.TheConstants.{AHEAD};

/// A run reads at most 256 bytes at a time, and a reader that reads ahead at most 8192.
pub fn limits()
    ensures piece { PIECE ≡ 256 }
    ensures ahead { AHEAD ≡ 8192 }
{}

/// A stream can be cut at its line feeds in one way alone: into the pieces before them, each of which makes a frame, and a rest.
pub fn one_cut()
    ensures { OneCut }
{}

/// The frames of a stream do not depend on where it is cut.
pub fn frames_however_cut()
    ensures { FramesHoweverCut }
{}

/// A stream of at most 512 bytes without CR and LF, and then CR LF, is one line.
pub fn plain_is_one_line()
    ensures { PlainIsOneLine }
{}

/// A line is read as a request exactly where it has the grammar, in one way, and refused exactly with its first bad field.
pub fn requests_are_read()
    ensures { ReadsRequests }
{}

/// A line is read as a reply exactly where it has the grammar, in one way, and refused exactly with its first bad field.
pub fn replies_are_read()
    ensures { ReadsReplies }
{}

/// A request in range has one written line, which reads back as that request and is plain where the parameters are.
pub fn requests_are_written()
    ensures { WritesRequests }
{}

/// A reply in range has one written line, which reads back as that reply and is plain where the parameters are.
pub fn replies_are_written()
    ensures { WritesReplies }
{}
