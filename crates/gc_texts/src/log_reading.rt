//! Reads the lines of a log. The mark and the bytes of a line are read in exactly the form that a log gives them. In place of the moment
//! any word of printable ASCII is accepted.

ghost use Rattle.std.specs.Prelude.{◌≡◌, ◌+◌, ◌<◌, ◌≤◌, ◌∷◌, ◌++◌, ℕ, ◌↔◌, List, length, MatchOption, IsTrue};
ghost use Rattle.gc_texts.specs.LineForms.{IsReadAs};
ghost use Rattle.gc_texts.specs.Logs.{AreBytes, BeginsWithNoByte, mark_text, hex_digit, escape, escaped, IsPrintable, IsLogLine};
ghost use Rattle.gc_texts.specs.declared.log_line.LogMark.{LogMark};

use crate::cuts::cut_at;
use crate::log_line::{LogBytes, LogMark, is_unescaped};

/// A line of a log, in its parts.
#[derive(Drop)]
pub struct LogLine<'a> {
    /// The moment, as the line has it: one word of printable ASCII, which isn't read as a time, and may be empty.
    pub moment: &'a [u8],
    /// Whether the bytes went or came, and as what, or are words about the connection or the log.
    pub mark: LogMark,
    /// The bytes themselves.
    pub bytes: LogBytes,
}

/// Reads a line of a log, without its line feed: a word of printable ASCII, a space, a mark, a space, and at most 514 bytes, each in the
/// one form that a log gives it. `None`: the line has another form, or more bytes.
pub fn read_log_line(line: &[u8]) -> Option<LogLine<'_>>
    ensures { MatchOption result
        ((moment : List ℕ) (mark : LogMark) (bytes : List ℕ) → length bytes ≤ 514 → IsLogLine line.now moment mark bytes → ⊥)
        (λ read. IsLogLine line.now read.moment.now read.mark read.bytes.items) }
{
    let (moment, behind) = cut_at(b' ', line);
    let behind = behind?;
    if !is_printable(moment) {
        return None;
    }
    let (word, text) = cut_at(b' ', behind);
    let text = text?;
    let mark = read_mark(word)?;
    let bytes = read_escaped(text)?;
    Some(LogLine {
        moment,
        mark,
        bytes,
    })
}

// Whether each byte of a text is printable ASCII.
fn is_printable(text: &[u8]) -> bool
    ensures { IsTrue result ↔ IsPrintable text.now }
{
    text.iter().all(|b| 32 <= *b && *b <= 126)
}

// Reads a mark. `None`: the text is no mark.
fn read_mark(text: &[u8]) -> Option<LogMark>
    ensures { IsReadAs (λ mark. text.now ≡ mark_text mark) result }
{
    match text {
        [b'>'] => Some(LogMark::Went),
        [b'>', b'|'] => Some(LogMark::WentPart),
        [b'<'] => Some(LogMark::Came),
        [b'<', b'|'] => Some(LogMark::CamePart),
        [b'-'] => Some(LogMark::Link),
        _ => None,
    }
}

// Reads at most 514 bytes, each as it is or as `\x` and two digits. `None`: the text has another form, or more bytes.
fn read_escaped(text: &[u8]) -> Option<LogBytes>
    ensures { MatchOption result
        ((bytes : List ℕ) → length bytes ≤ 514 → AreBytes bytes → text.now ≡ escaped bytes → ⊥)
        (λ bytes. (text.now ≡ escaped bytes.items) × AreBytes bytes.items) }
{
    let mut bytes = LogBytes::new();
    let mut left = text;
    while !left.is_empty() {
        let (b, more) = read_escape(left)?;
        if bytes.is_full() {
            return None;
        }
        bytes.push(b);
        left = more;
    }
    Some(bytes)
}

// Reads the byte that a text begins with, as it is or as `\x` and two digits, and returns it with what follows it. `None`:
// the text begins with no byte in the form that a log gives it.
fn read_escape(text: &[u8]) -> Option<(u8, &[u8])>
    ensures { MatchOption result (BeginsWithNoByte text.now) (λ r. text.now ≡ escape r.0 ++ r.1.now) }
{
    let [b, more @ ..] = text else {
        return None;
    };
    if is_unescaped(*b) {
        return Some((*b, more));
    }
    let digits = text.strip_prefix(b"\\x")?;
    read_digits(digits)
}

// Reads the two digits after `\x`, and returns their byte with what follows them. `None`: the text doesn't begin with two digits of base
// 16, in lower case, or their byte is one that a log writes as it is: printable ASCII other than the backslash.
fn read_digits(text: &[u8]) -> Option<(u8, &[u8])>
    ensures { MatchOption result (BeginsWithNoByte (92 ∷ 120 ∷ text.now)) (λ r. 92 ∷ 120 ∷ text.now ≡ escape r.0 ++ r.1.now) }
{
    let [high, low, more @ ..] = text else {
        return None;
    };
    let high = read_digit(*high)?;
    let low = read_digit(*low)?;
    let b = high * 16 + low;
    if is_unescaped(b) {
        return None;
    }
    Some((b, more))
}

// Reads a digit of base 16, in lower case. `None`: the byte is no such digit.
fn read_digit(digit: u8) -> Option<u8>
    ensures { MatchOption result ((n : ℕ) → n < 16 → digit ≡ hex_digit n → ⊥) (λ n. (n < 16) × (digit ≡ hex_digit n)) }
{
    match digit {
        b'0'..=b'9' => Some(digit - b'0'),
        b'a'..=b'f' => Some(digit - b'a' + 10),
        _ => None,
    }
}
