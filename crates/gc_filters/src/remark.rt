//! What a check, of a stream or of a log, remarks of a line behind its verdict.

ghost use Rattle.std.specs.Prelude.{◌≡◌, ◌+◌, ◌<◌, ◌≤◌, ◌^◌, false, get_or, is_ok, length};
ghost use Rattle.gc_lines.specs.Lent.{lent_seen};
ghost use Rattle.gc_lines.specs.Readers.{request_at};
ghost use Rattle.gc_filters.specs.Remarks.{is_gsi_word, is_gsi, has_lone_return, begins_as_sign_on, line_remark, frame_remark, came_remark, part_remark, remark_text};
ghost use Rattle.gc_texts.specs.SignOns.{is_sign_on};

use gc_lines::{Lent, read_request};
use gc_texts::{LogMark, cut_at, has_part, is_sign_on};

// The byte at this place of a line; 0 if the line is shorter.
fn byte_at(line: &[u8], place: usize) -> u8
    ensures { result ≡ get_or line.now place 0 }
{
    match line.get(place) {
        Some(byte) => *byte,
        None => 0,
    }
}

// Whether a GSI word begins at this place of a line: the word index 11 of measured data, or 41 of a code block, and behind four more
// bytes a sign.
fn is_gsi_word(place: usize, line: &[u8]) -> bool
    requires { place + 6 < 2 ^ 64 }
    ensures { result ≡ is_gsi_word place line.now }
{
    let first = byte_at(line, place);
    let second = byte_at(line, place + 1);
    let sign = byte_at(line, place + 6);
    (first == b'1' || first == b'4') && second == b'1' && (sign == b'+' || sign == b'-')
}

// Whether a line is measured data in GSI: its first word begins it, or stands behind one `*`.
fn is_gsi(line: &[u8]) -> bool
    ensures { result ≡ is_gsi line.now }
{
    if byte_at(line, 0) == b'*' {
        is_gsi_word(1, line)
    } else {
        is_gsi_word(0, line)
    }
}

// Whether a line reads as a request.
fn is_request(line: &[u8]) -> bool
    ensures { result ≡ is_ok (request_at line.now) }
{
    match read_request(line) {
        Ok(_) => true,
        Err(_) => false,
    }
}

// Whether bytes have a CR behind which the next reply begins, without a line feed.
fn has_lone_return(bytes: &[u8]) -> bool
    ensures { result ≡ has_lone_return bytes.now }
{
    has_part(b"\r%R1P,", bytes)
}

// Whether a `%` stands behind the first byte of a line. Else a sign-on is at the line's beginning, if it has one, and no reply begins behind
// a CR.
fn has_later_percent(line: &[u8]) -> bool
    ensures sign_on { result ≡ false → is_sign_on line.now ≡ begins_as_sign_on line.now }
    ensures lone { result ≡ false → has_lone_return line.now ≡ false }
{
    match line.split_first() {
        Some((_, rest)) => cut_at(b'%', rest).1.is_some(),
        None => false,
    }
}

// What is remarked of a whole line, whichever way it went: it has a sign-on in it, or a CR alone, or is measured data in GSI. Few lines have
// a `%` behind their first byte, and only these are searched.
fn line_remark(line: &[u8]) -> &'static [u8]
    ensures is { result.now ≡ line_remark line.now }
    ensures short { length result.now ≤ 11 }
{
    if has_later_percent(line) {
        searched_remark(line)
    } else if line.starts_with(b"%N1,") {
        b" sign-on"
    } else if is_gsi(line) {
        b" GSI"
    } else {
        b""
    }
}

// The same of any line, which is searched for a sign-on and for a CR alone.
fn searched_remark(line: &[u8]) -> &'static [u8]
    ensures is { result.now ≡ line_remark line.now }
    ensures short { length result.now ≤ 11 }
{
    if is_sign_on(line) {
        b" sign-on"
    } else if has_lone_return(line) {
        b" CR alone"
    } else if is_gsi(line) {
        b" GSI"
    } else {
        b""
    }
}

/// What is written behind the verdict on a frame: of a line what is remarked of it, and nothing of any other.
pub(crate) fn frame_remark(frame: Lent<'_>) -> &'static [u8]
    ensures is { result.now ≡ frame_remark (lent_seen frame.entry) }
    ensures short { length result.now ≤ 11 }
{
    match frame {
        Lent::Line(line) => line_remark(line),
        _ => b"",
    }
}

// What is remarked of a whole line that came: a request is one that came back, unless it has a sign-on in it; else as of any line.
fn came_remark(bytes: &[u8]) -> &'static [u8]
    ensures is { result.now ≡ came_remark bytes.now }
    ensures short { length result.now ≤ 11 }
{
    if is_sign_on(bytes) {
        b" sign-on"
    } else if is_request(bytes) {
        b" echo"
    } else {
        line_remark(bytes)
    }
}

// What is remarked of bytes that came and are no whole line: their line end is a CR alone, if a reply begins behind one.
fn part_remark(bytes: &[u8]) -> &'static [u8]
    ensures is { result.now ≡ part_remark bytes.now }
    ensures short { length result.now ≤ 11 }
{
    if has_lone_return(bytes) {
        b" CR alone"
    } else {
        b""
    }
}

/// What is written behind the verdict on a line of the log: that the reply is impossible, if it is (`doubted`); else what is remarked of
/// bytes that came.
pub(crate) fn remark_text(doubted: bool, mark: LogMark, bytes: &[u8]) -> &'static [u8]
    ensures is { result.now ≡ remark_text doubted mark bytes.now }
    ensures short { length result.now ≤ 11 }
{
    if doubted {
        return b" impossible";
    }
    match mark {
        LogMark::Came => came_remark(bytes),
        LogMark::CamePart => part_remark(bytes),
        _ => b"",
    }
}
