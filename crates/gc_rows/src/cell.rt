//! Cells: a record is one list of named cells. A row has a field for each cell, and an object a member for each that isn't blank.

ghost use Rattle.std.specs.Prelude.{◌≡◌, ℕ, ◌+◌, ◌*◌, ◌≤◌, length, option_map};
ghost use Rattle.gc_rows.specs.Cells.{content_seen, Code, Bytes, IsWithin};
ghost use Rattle.gc_rows.specs.Columns.{bytes_content, entry_seen, fault_content, line_content, line_sent, moment_content};
ghost use Rattle.gc_rows.specs.Rows.{AreNoLonger, com_of, code_of, values_of};
ghost use Rattle.gc_rows.specs.declared.cell.TheConstants.{MOMENT_ROOM, NAME_ROOM, NUMBER_ROOM};

use crate::record::EndedCommand;
use gc_catalogue::encode_asked;
use gc_lines::Line;
use gc_texts::{STAMP_ROOM, before, behind};
use gc_values::ValueFault;

/// What a cell holds.
#[derive(Clone, Copy)]
pub(crate) enum Content<'a> {
    /// Nothing: an empty field, and no member.
    Blank,
    /// Bytes, which may be any: a string.
    Bytes(&'a [u8]),
    /// A moment, in milliseconds since 1970-01-01, UTC: a string.
    Moment(u64),
    /// A number without a sign.
    Whole(u64),
    /// A code of a reply, in digits as its line has them: a number, which an object has without leading zeros.
    Code(&'a [u8]),
}

/// A cell of a record: the name of its column or member, and what it holds.
#[derive(Clone, Copy)]
pub(crate) struct Cell<'a>(pub &'a [u8], pub Content<'a>);

/// The most bytes of a moment in a row: a comma, and a field each byte of which may be escaped as four, each of these doubled, within
/// quotes. Other fields have room by the same count.
pub(crate) const MOMENT_ROOM: usize = 1 + 8 * STAMP_ROOM + 2;

/// The most bytes of a number in a row, after a comma.
pub(crate) const NUMBER_ROOM: usize = 1 + 8 * 20 + 2;

/// The most bytes of a member's name of at most 37 bytes, with a comma before it, within quotes, and with a colon after.
pub(crate) const NAME_ROOM: usize = 1 + 2 + 37 + 1;

/// The most bytes of the first cells in a row: two moments, five numbers, a name of 64 bytes, a word of 16, and three parts of a line.
pub(crate) const FIRST_FIELDS: usize = 2 * MOMENT_ROOM
    + 5 * NUMBER_ROOM
    + (8 * 64 + 3)
    + (8 * 16 + 3)
    + 3 * (8 * 512 + 3);

/// The most bytes of the first cells in an object: twelve names, and what a row has of these cells, but for the two codes, which are
/// written without quotes.
pub(crate) const FIRST_MEMBERS: usize = 12 * NAME_ROOM
    + 2 * MOMENT_ROOM
    + 5 * NUMBER_ROOM
    + (8 * 64 + 3)
    + (8 * 16 + 3)
    + 2 * 512
    + (8 * 512 + 3);

/// The most bytes of the last cells in a row: a word, a number and a line.
pub(crate) const LAST_FIELDS: usize = 8 * 16 + 3 + NUMBER_ROOM + (8 * 512 + 3);

/// The most bytes of the last cells in an object: those of a row, and three names.
pub(crate) const LAST_MEMBERS: usize = 3 * NAME_ROOM + LAST_FIELDS;

/// The parts of a reply's line, as they are written there.
#[derive(Clone, Copy)]
pub(crate) struct ReplyTexts<'a> {
    /// Its communication code.
    pub com: &'a [u8],
    /// Its return code.
    pub code: &'a [u8],
    /// Its values, with the commas between them.
    pub values: &'a [u8],
}

/// Cuts a reply's line into its communication code, its return code and its values. A part that the line lacks is empty.
pub(crate) fn texts_of(line: &[u8]) -> ReplyTexts<'_>
    ensures com { result.com.now ≡ com_of line.now }
    ensures code { result.code.now ≡ code_of line.now }
    ensures values { result.values.now ≡ values_of line.now }
    ensures short { AreNoLonger result line.now }
{
    let codes = behind(b',', line);
    let body = behind(b':', codes);
    ReplyTexts {
        com: before(b',', before(b':', codes)),
        code: before(b',', body),
        values: behind(b',', body),
    }
}

/// What the cells of a reply's line hold: its codes and its values. All are blank if there is no line.
#[derive(Clone, Copy)]
pub(crate) struct ReplyContents<'a> {
    pub com: Content<'a>,
    pub code: Content<'a>,
    pub values: Content<'a>,
}

/// What the cells of a reply's line hold, if there is a line.
pub(crate) fn reply_contents<'a>(line: Option<&'a Line>) -> ReplyContents<'a>
    ensures com { content_seen result.com ≡ line_content (λ l. Code (com_of l)) (option_map (λ l. l.now.items) line.entry) }
    ensures code { content_seen result.code ≡ line_content (λ l. Code (code_of l)) (option_map (λ l. l.now.items) line.entry) }
    ensures values { content_seen result.values ≡ line_content (λ l. Bytes (values_of l)) (option_map (λ l. l.now.items) line.entry) }
    ensures short_com { IsWithin 512 (8 * 512 + 3) (NAME_ROOM + 512) (content_seen result.com) }
    ensures short_code { IsWithin 512 (8 * 512 + 3) (NAME_ROOM + 512) (content_seen result.code) }
    ensures short_values { IsWithin 512 (8 * 512 + 3) (NAME_ROOM + (8 * 512 + 3)) (content_seen result.values) }
{
    match line {
        Some(line) => {
            let texts = texts_of(line);
            ReplyContents {
                com: Content::Code(texts.com),
                code: Content::Code(texts.code),
                values: Content::Bytes(texts.values),
            }
        }
        None => ReplyContents {
            com: Content::Blank,
            code: Content::Blank,
            values: Content::Blank,
        },
    }
}

/// A moment, if there is one.
pub(crate) fn moment_content(moment: Option<u64>) -> Content<'static>
    ensures is { content_seen result ≡ moment_content moment }
    ensures room { IsWithin 0 MOMENT_ROOM (NAME_ROOM + MOMENT_ROOM) (content_seen result) }
{
    match moment {
        Some(utc) => Content::Moment(utc),
        None => Content::Blank,
    }
}

/// These bytes, if there are any.
pub(crate) fn bytes_content(bytes: &[u8]) -> Content<'_>
    ensures is { content_seen result ≡ bytes_content bytes.now }
    ensures room { IsWithin (length bytes.now) (8 * length bytes.now + 3) (NAME_ROOM + (8 * length bytes.now + 3)) (content_seen result) }
{
    if bytes.is_empty() {
        Content::Blank
    } else {
        Content::Bytes(bytes)
    }
}

/// The number of a fault, if there is a fault.
pub(crate) fn fault_content(fault: Option<ValueFault>) -> Content<'static>
    ensures is { content_seen result ≡ fault_content fault }
    ensures room { IsWithin 0 NUMBER_ROOM (NAME_ROOM + NUMBER_ROOM) (content_seen result) }
{
    match fault {
        Some(fault) => Content::Whole(fault.number() as u64),
        None => Content::Blank,
    }
}

/// The request line of a command that ended, as it was sent, without its CR LF; empty if none was sent.
pub(crate) fn request_line(ended: EndedCommand<'_>) -> Line
    ensures { result.items ≡ line_sent (entry_seen ended.entry) }
{
    match ended.when.stamp.sent {
        // (an id is below 8)
        Some(_) => encode_asked(Some(ended.when.stamp.id % 8), &ended.command.call),
        None => Line::new(),
    }
}
