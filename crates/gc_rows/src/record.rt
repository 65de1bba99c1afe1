//! Records: how a command ended, with its moments, as a line, a row of comma-separated values, or a line of JSON.

ghost use Rattle.std.specs.Prelude.{◌≡◌, ℕ, ◌+◌, ◌*◌, ◌≤◌, ◌++◌, length, map, option_map};
ghost use Rattle.gc_lines.specs.Ports.{FailsWith, TakesText};
ghost use Rattle.gc_texts.specs.Endings.{ending_seen};
ghost use Rattle.gc_rows.specs.declared.record.TheConstants.{COLUMN_ROOM, FAULT_ROOM, HEAD_ROOM, REPLY_ROOM};
ghost use Rattle.gc_rows.specs.Records.{spaced_fault, spaced_line, ending_text, record_of, head_text, form_sign};
ghost use Rattle.gc_rows.specs.Rows.{Adds, behind_comma};
ghost use Rattle.std.specs.List.{flat_map};
ghost use Rattle.arrayvec.specs.ArrayVec.{array_vec_len};

use crate::column::{HEADER, HEADER_END, WIDE_FRONT};
use crate::described::MOST_COLUMNS;
use crate::json_line::json_line;
use crate::row::{append_field_after_comma, csv_row};
use crate::when::When;
use arrayvec::ArrayVec;
use gc_lines::{Line, Sink, append, write_whole};
use gc_texts::{Description, Ending, FieldName, STAMP_ROOM, Wish, append_escaped, stamp_text};
use gc_values::ValueFault;
use itoa::Buffer;

/// A command that ended, as its record has it.
#[derive(Clone, Copy)]
pub struct EndedCommand<'a> {
    /// When it was sent and ended, which one of its run it was, and when that run began.
    pub when: When,
    /// The name of its target, at most 64 bytes; empty if the target has none.
    pub name: &'a [u8],
    /// What was asked of which target.
    pub command: &'a Wish,
    /// How it ended.
    pub ending: Ending<'a>,
    /// How the station's text describes its procedure, if that isn't in the table and is described.
    pub described: Option<&'a Description>,
    /// The names of the columns that the text's descriptions add to those of the table's quantities, at most 64.
    pub columns: &'a [FieldName],
}

/// How records are written.
#[derive(Clone, Copy)]
pub enum Form {
    /// Each a line: the moment at which the command ended, its place, its target, and how it ended, with the bytes of the reply
    /// escaped as in a log.
    Lines,
    /// Each a row of comma-separated values, quoted as RFC 4180 has it. The names of the columns are the first row.
    Csv,
    /// As `Csv`, with a column for each quantity that an answer may have: those of the table's procedures, and then those that the
    /// text's descriptions add.
    Columns,
    /// Each an object of JSON on a line of its own, with the quantities of its answer, or, if the procedure isn't in the table,
    /// with the values that its description names, and the items of its values.
    Json,
}

/// The most bytes of what comes before all records: the names of the columns, each of the added ones in a field of at most 32 bytes, each
/// of which may be escaped as four, and each of these be doubled, within quotes after a comma.
pub const HEAD_ROOM: usize = 512 + MOST_COLUMNS * (8 * 32 + 3);

/// What comes before all records.
pub type Head = ArrayVec<u8, HEAD_ROOM>;

// The most bytes of an added column's name in the row of names, after a comma.
const COLUMN_ROOM: usize = 8 * 32 + 3;

// Appends the names of columns as fields, each after a comma.
fn append_names(head: &mut Head, columns: &[FieldName])
    requires few { length columns.now ≤ 64 }
    requires room { array_vec_len head.old + COLUMN_ROOM * length columns.now ≤ HEAD_ROOM }
    ensures { Adds head.old.items head.new.items (flat_map (λ n. behind_comma n.items) columns.now) (COLUMN_ROOM * length columns.now) }
{
    for name in columns {
        append_field_after_comma(head, name.as_slice());
    }
}

// The row of the columns' names with those of the quantities and these.
fn wide_head(columns: &[FieldName]) -> Head
    requires { length columns.now ≤ 64 }
    ensures { result.items ≡ head_text Form.Columns (map (λ n. n.items) columns.now) }
{
    let mut head = ArrayVec::new();
    append(&mut head, WIDE_FRONT.as_bytes());
    append_names(&mut head, columns);
    append(&mut head, HEADER_END.as_bytes());
    head
}

/// What comes before all records in this form, where descriptions add these columns: a row of the columns' names, with its line feed, or
/// nothing if the form has no columns.
pub fn head(form: Form, columns: &[FieldName]) -> Head
    requires { length columns.now ≤ 64 }
    ensures { result.items ≡ head_text form (map (λ n. n.items) columns.now) }
{
    let mut head = ArrayVec::new();
    match form {
        Form::Lines | Form::Json => (),
        Form::Csv => append(&mut head, HEADER.as_bytes()),
        Form::Columns => return wide_head(columns),
    }
    head
}

/// The bytes that a file of records in this form begins with, once it has a record: they distinguish it from a foreign file. A file of
/// `Lines` has no such bytes: the result is empty.
pub fn sign(form: Form, columns: &[FieldName]) -> Head
    requires { length columns.now ≤ 64 }
    ensures { result.items ≡ form_sign form (map (λ n. n.items) columns.now) }
{
    let mut sign = ArrayVec::new();
    match form {
        Form::Json => append(&mut sign, b"{\"run\":\""),
        Form::Lines | Form::Csv | Form::Columns => return head(form, columns),
    }
    sign
}

/// Writes what comes before all records in this form, where descriptions add these columns (`head`). `Err(n)`: the sink took the first n
/// bytes of that, which aren't all, and failed.
pub fn write_head<K: Sink>(sink: &mut K, form: Form, columns: &[FieldName]) -> Result<(), usize>
    requires { length columns.now ≤ 64 }
    ensures failed { FailsWith result (K.failed sink.old) (K.failed sink.new) }
    ensures took { TakesText (K.taken sink.old) (K.taken sink.new) result (head_text form (map (λ n. n.items) columns.now)) }
{
    write_whole(sink, &head(form, columns))
}

/// Writes the record of a command that ended, in this form. In the form `Lines` it has neither the target's name nor the request, nor the
/// moment at which that was sent. The record goes in one write if the sink takes all of it. `Err(n)`: the sink took the first n
/// bytes of the record, which aren't all, and failed.
pub fn write_record<K: Sink>(sink: &mut K, form: Form, ended: EndedCommand<'_>) -> Result<(), usize>
    requires named { length ended.name.now ≤ 64 }
    requires few { length ended.columns.now ≤ 64 }
    ensures failed { FailsWith result (K.failed sink.old) (K.failed sink.new) }
    ensures took { TakesText (K.taken sink.old) (K.taken sink.new) result (record_of form ended.entry) }
{
    match form {
        Form::Lines => write_whole(sink, &record_line(ended)),
        Form::Csv => write_whole(sink, &csv_row(false, ended)),
        Form::Columns => write_whole(sink, &csv_row(true, ended)),
        Form::Json => write_whole(sink, &json_line(ended)),
    }
}

// The most bytes of a space and a fault's number, which has at most 20 digits.
const FAULT_ROOM: usize = 1 + 20;

// The most bytes of a space and a reply's line, each byte of which may be written as four.
const REPLY_ROOM: usize = 1 + 4 * 512;

// The most bytes of how a command ended: a space and a word of at most 16 bytes, a fault, and the reply's line.
const ENDING_ROOM: usize = 1 + 16 + FAULT_ROOM + REPLY_ROOM;

// The most bytes of a record's line: a moment, a place and a target, and how the command ended.
const LINE_ROOM: usize = STAMP_ROOM + 1 + 20 + 1 + 10 + ENDING_ROOM + 1;

// The line of a command's record, with its line feed: when the command ended, its place, its target, and how it ended.
fn record_line(ended: EndedCommand<'_>) -> ArrayVec<u8, LINE_ROOM>
    ensures { result.items ≡ record_of Form.Lines ended.entry }
{
    let mut digits = Buffer::new();
    let mut line = ArrayVec::new();
    append(&mut line, &stamp_text(ended.when.stamp.utc));
    append(&mut line, b" ");
    append(
        &mut line,
        digits.format(ended.when.stamp.turn.place).as_bytes(),
    );
    append(&mut line, b" ");
    append(&mut line, digits.format(ended.command.target).as_bytes());
    append(&mut line, &ending_text(ended.ending));
    append(&mut line, b"\n");
    line
}

// How a command ended: its word and, if it has these, the number of its fault, and the line of the reply, escaped as in a log;
// each after a space.
fn ending_text(ending: Ending<'_>) -> ArrayVec<u8, ENDING_ROOM>
    ensures { result.items ≡ ending_text (ending_seen ending.entry) }
{
    let mut text = ArrayVec::new();
    append(&mut text, b" ");
    append(&mut text, ending.word());
    append_fault(&mut text, ending.fault());
    append_line(&mut text, ending.line());
    text
}

// Appends a space and the number of a fault, if there is a fault.
fn append_fault<const N: usize>(text: &mut ArrayVec<u8, N>, fault: Option<ValueFault>)
    requires { array_vec_len text.old + FAULT_ROOM ≤ N }
    ensures { Adds text.old.items text.new.items (spaced_fault fault) FAULT_ROOM }
{
    if let Some(fault) = fault {
        append(text, b" ");
        append(text, Buffer::new().format(fault.number()).as_bytes());
    }
}

// Appends a space and the line of a reply, escaped as in a log, if there is a line.
fn append_line<const N: usize>(text: &mut ArrayVec<u8, N>, line: Option<&Line>)
    requires { array_vec_len text.old + REPLY_ROOM ≤ N }
    ensures { text.new.items ≡ text.old.items ++ spaced_line (option_map (λ l. l.now.items) line.entry) }
{
    if let Some(line) = line {
        append(text, b" ");
        append_escaped(text, line);
    }
}
