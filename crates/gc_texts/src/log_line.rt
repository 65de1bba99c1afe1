//! Lines of a log: what was on a link, each with its moment, in printable characters alone.

ghost use Rattle.std.specs.Prelude.{◌≡◌, ◌+◌, ◌*◌, ◌<◌, ◌≤◌, ◌++◌, length, take};
ghost use Rattle.arrayvec.specs.ArrayVec.{array_vec_len};
ghost use Rattle.gc_lines.specs.Ports.{FailsWith, TakesText};
ghost use Rattle.gc_texts.specs.Logs.{mark_text, is_unescaped, hex_digit, escape, escaped, log_line};

use crate::stamp::{STAMP_ROOM, stamp_text};
use arrayvec::ArrayVec;
use gc_lines::{Sink, append, write_whole};

/// The bytes that one line of a log records: at most as many as the longest line has with its CR LF.
pub type LogBytes = ArrayVec<u8, 514>;

/// The most bytes of the bytes that one line of a log records, as the line writes them: each as four at most.
pub const ESCAPED_ROOM: usize = 4 * 514;

// The bytes of the longest log line: a moment, a mark of two bytes, its bytes, two spaces and a line feed.
const LOG_ROOM: usize = STAMP_ROOM + 1 + 2 + 1 + ESCAPED_ROOM + 1;

/// What the bytes of a log line are: bytes that went or came, as a line without its CR LF or as they are, or words about the connection or
/// the log.
#[derive(Clone, Copy)]
pub enum LogMark {
    /// `>`: a line that went, without its CR LF.
    Went,
    /// `>|`: these bytes went, and no CR LF after them is left out: they end in a line feed without a CR, a close cut them
    /// off, or they are a part of a line of more than 512 bytes.
    WentPart,
    /// `<`: a line that came, without its CR LF.
    Came,
    /// `<|`: these bytes came, as with `>|`.
    CamePart,
    /// `-`: words on what became of the connection.
    Link,
}

impl LogMark {
    /// The mark as a log line has it.
    pub fn text(self) -> &'static [u8]
        ensures is { result.now ≡ mark_text self }
        ensures short { length result.now ≤ 2 }
    {
        match self {
            LogMark::Went => b">",
            LogMark::WentPart => b">|",
            LogMark::Came => b"<",
            LogMark::CamePart => b"<|",
            LogMark::Link => b"-",
        }
    }
}

/// Writes a line of a log, in one write where the sink takes all of it: the moment as `stamp_text` gives it, a space, the mark, a space,
/// the bytes, and a line feed. `utc` is the moment in milliseconds since 1970, UTC. Printable ASCII except the backslash is written as
/// it is; each other byte is `\x` and two lower-case digits of base 16.
///
/// `Err(n)`: the sink took the first n bytes of the line, which aren't all, and failed.
pub fn write_log_line<K: Sink>(
    sink: &mut K,
    utc: u64,
    mark: LogMark,
    bytes: &LogBytes,
) -> Result<(), usize>
    ensures failed { FailsWith result (K.failed sink.old) (K.failed sink.new) }
    ensures took { TakesText (K.taken sink.old) (K.taken sink.new) result (log_line utc mark bytes.now.items) }
{
    write_whole(sink, &log_line(utc, mark, bytes))
}

// The line of a log for this moment, mark and bytes, with its line feed.
fn log_line(utc: u64, mark: LogMark, bytes: &LogBytes) -> ArrayVec<u8, LOG_ROOM>
    ensures { result.items ≡ log_line utc mark bytes.now.items }
{
    let mut line = ArrayVec::new();
    append(&mut line, &stamp_text(utc));
    append(&mut line, b" ");
    append(&mut line, mark.text());
    append(&mut line, b" ");
    append_escaped(&mut line, bytes);
    append(&mut line, b"\n");
    line
}

/// Appends bytes, each as it is or as `\x` and two digits, in the form of a log line.
pub fn append_escaped<const N: usize>(to: &mut ArrayVec<u8, N>, bytes: &[u8])
    requires { array_vec_len to.old + 4 * length bytes.now ≤ N }
    ensures text { to.new.items ≡ to.old.items ++ escaped bytes.now }
    ensures room { array_vec_len to.new ≤ array_vec_len to.old + 4 * length bytes.now }
{
    for b in bytes {
        append_escape(to, *b);
    }
}

/// At most 514 bytes in the form of a log line (each becomes at most four), in a text of their own: for other texts that quote bytes.
pub fn escaped(bytes: &[u8]) -> ArrayVec<u8, ESCAPED_ROOM>
    requires { length bytes.now ≤ 514 }
    ensures is { result.items ≡ escaped bytes.now }
    ensures short { array_vec_len result ≤ 4 * length bytes.now }
{
    let mut text = ArrayVec::new();
    append_escaped(&mut text, bytes);
    text
}

// Appends a byte, as it is or as `\x` and two digits.
fn append_escape<const N: usize>(to: &mut ArrayVec<u8, N>, b: u8)
    requires { array_vec_len to.old + 4 ≤ N }
    ensures text { to.new.items ≡ to.old.items ++ escape b }
    ensures room { array_vec_len to.new ≤ array_vec_len to.old + 4 }
{
    if is_unescaped(b) {
        append(to, &[b]);
    } else {
        append(to, &[b'\\', b'x', hex_digit(b / 16), hex_digit(b % 16)]);
    }
}

// Whether a log line writes a byte as it is, without `\x`: printable ASCII except the backslash.
pub(crate) fn is_unescaped(b: u8) -> bool
    ensures { result ≡ is_unescaped b }
{
    31 < b && b < 127 && b != b'\\'
}

// A digit of base 16, in lower case.
pub(crate) fn hex_digit(n: u8) -> u8
    requires { n < 16 }
    ensures { result ≡ hex_digit n }
{
    if n < 10 { b'0' + n } else { b'a' - 10 + n }
}
