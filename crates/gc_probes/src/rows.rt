//! Cases of rows: each line `do WORD WHAT -> CAME` is played, one after the other.

use crate::case::Case;
use crate::escapes::bytes_of;
use crate::told::Told;

/// The most rows of a case.
const MOST_ROWS: usize = 10_000;

/// What a row has before its ` -> `, or up to its end if it has no arrow.
#[derive(Clone, Copy)]
pub struct Row<'a> {
    /// The first word.
    pub word: &'a str,
    /// The text after the space that follows that word; empty if there is no space.
    pub what: &'a str,
    /// The bytes for which `what` stands.
    pub bytes: &'a [u8],
}

impl<'a> Row<'a> {
    // The row of the text `given`. `bytes` are those for which the text after its first word stands.
    fn new(given: &'a str, bytes: &'a [u8]) -> Row<'a> {
        let (word, what) = cut_word(given);
        Row { word, what, bytes }
    }

    /// Cuts off the first word of `what`: returns it, and the bytes for which the text after the space behind it stands, none if
    /// there is no space. The word must have no backslash: each of its bytes is taken to stand for itself.
    pub fn cut_bytes(self) -> (&'a str, &'a [u8]) {
        let first = cut_word(self.what).0;
        let behind = self.bytes.get(first.len().saturating_add(1)..);
        (first, behind.unwrap_or(b""))
    }
}

/// What plays the rows of a case.
pub trait Rows {
    /// Plays a row, and appends what came to `came`, which is to be nothing for a row without an arrow.
    fn play(&mut self, row: Row<'_>, came: &mut Told);
}

/// Plays the rows of a case, and none after the first 10,000. Where something else came than what follows a row's arrow, a line
/// with what came is appended to `wrong`. If the case has no row, or an empty one first, none is played, and a line says so.
/// There is also a line for each row for whose bytes, or for what came of it, memory ran out.
pub fn play_rows<R: Rows>(case: &Case<'_>, rows: &mut R, wrong: &mut Told) {
    if !case.has("do") {
        return case.tell_wrong("rows", b"none", wrong);
    }
    for place in 0..MOST_ROWS {
        let Some(row) = case.value_at("do", place) else {
            break;
        };
        play_row(case, row, rows, wrong);
    }
}

// Plays one row of a case. Where something else came than what follows the row's arrow, or memory ran out for what came, it
// appends a line with what came to `wrong`.
fn play_row<R: Rows>(case: &Case<'_>, row: &str, rows: &mut R, wrong: &mut Told) {
    let (given, expected) = row.split_once(" -> ").unwrap_or((row, ""));
    let mut came = Told::new(wrong.alloc);
    play_given(given, rows, &mut came);
    if !came.is(expected) {
        tell_row(case, given, &came, wrong);
    }
}

// Plays what is before a row's arrow, a word and the text after it. If memory runs out for that text's bytes, nothing is played,
// and `came` lacks a part.
fn play_given<R: Rows>(given: &str, rows: &mut R, came: &mut Told) {
    match bytes_of(came.alloc, cut_word(given).1) {
        Ok(bytes) => rows.play(Row::new(given, bytes.as_slice()), came),
        Err(_) => came.lack(),
    }
}

// Appends a line to `wrong` for a row of which something else came than the case expects: what is before the row's arrow
// (`given`), and what came.
fn tell_row(case: &Case<'_>, given: &str, came: &Told, wrong: &mut Told) {
    case.begin_wrong("do", wrong);
    wrong.text(given);
    wrong.text(" -> ");
    wrong.escaped(came.as_bytes());
    wrong.text("\n");
}

/// The first word of a text, and what follows the space after it: nothing if there is no space.
pub fn cut_word(text: &str) -> (&str, &str) {
    text.split_once(' ').unwrap_or((text, ""))
}
