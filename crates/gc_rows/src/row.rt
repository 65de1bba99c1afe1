//! Rows: a record as a row of comma-separated values, quoted as RFC 4180 has it, of printable ASCII alone.

ghost use Rattle.std.specs.Prelude.{◌≡◌, ℕ, ◌+◌, ◌*◌, ◌≤◌, ◌++◌, [], length, map, option_map, replicate, true};
ghost use Rattle.std.specs.List.{flat_map, list_any};
ghost use Rattle.arrayvec.specs.ArrayVec.{array_vec_len};
ghost use Rattle.gc_texts.specs.Descriptions.{description_seen};
ghost use Rattle.gc_texts.specs.Fields.{field_seen};
ghost use Rattle.gc_rows.specs.Cells.{AreShort, IsShortContent, cell_seen, content_seen, field_of, field_room, fields_of, fields_room};
ghost use Rattle.gc_rows.specs.Columns.{cells_in, entry_seen, raw_cells, row_fields};
ghost use Rattle.gc_rows.specs.DescribedCells.{described_cells};
ghost use Rattle.gc_rows.specs.NamedFields.{answer_fields_in, named_fields, quantity_fields, text_under};
ghost use Rattle.gc_rows.specs.Rows.{Adds, answer_columns, is_special, within_quotes, csv_field, field_text, behind_comma, fields_behind_commas, spread, value_behind_comma, row_of};
ghost use Rattle.gc_rows.specs.Quantities.{quantity_names, quantity_text};
ghost use Rattle.gc_rows.specs.declared.described.TheConstants.{MOST_COLUMNS};
ghost use Rattle.gc_rows.specs.declared.quantity.TheConstants.{QUANTITIES};
ghost use Rattle.gc_rows.specs.declared.row.TheConstants.{MOST_QUANTITIES, VALUE_ROOM, QUANTITIES_ROOM, TABLE_ROOM};

use crate::cell::{Cell, Content, request_line, texts_of};
use crate::column::{first_cells, last_cells, quantity_name};
use crate::counted::counted_answer;
use crate::described::{MOST_COLUMNS, described_values};
use crate::quantity::{
    MOST_VALUES, QUANTITIES, QUANTITY_ROOM, answer_values, column_of, quantity_text,
};
use crate::record::EndedCommand;
use arrayvec::ArrayVec;
use gc_catalogue::{Answer, Asked, Call};
use gc_lines::{Line, append};
use gc_texts::{Description, Field, FieldName, escaped, stamp_text, value_under};
use gc_values::Value;
use itoa::Buffer;

/// The most bytes of a row.
pub(crate) const ROW_ROOM: usize = 64_512;

// The most bytes of a value in a row: a comma, and a field of at most 64 bytes, each of which may be escaped as four, and each of
// these be doubled, within quotes.
const VALUE_ROOM: usize = 1 + 8 * QUANTITY_ROOM + 2;

// The most columns of quantities: those of the table's procedures, and those that descriptions add.
const MOST_QUANTITIES: usize = QUANTITIES + MOST_COLUMNS;

// The most bytes of the quantities of an answer in a row: a value for each column.
const QUANTITIES_ROOM: usize = MOST_QUANTITIES * VALUE_ROOM;

// The most bytes of the quantities of the table's procedures in a row: the values of an answer, and a comma for each column.
const TABLE_ROOM: usize = MOST_VALUES * VALUE_ROOM + QUANTITIES;

// A comma before each column of a quantity.
const COMMAS: [u8; MOST_QUANTITIES] = [b','; MOST_QUANTITIES];

// Whether a field has to be within quotes: it has a comma, a double quote, a CR or a line feed.
fn needs_quotes(text: &[u8]) -> bool
    ensures { result ≡ list_any is_special text.now }
{
    text.iter()
        .any(|b| matches!(b, b',' | b'"' | b'\r' | b'\n'))
}

// Appends a text, as it is written within quotes: each double quote twice.
fn append_doubled<const N: usize>(to: &mut ArrayVec<u8, N>, text: &[u8])
    requires { array_vec_len to.old + 2 * length text.now ≤ N }
    ensures { Adds to.old.items to.new.items (flat_map within_quotes text.now) (2 * length text.now) }
{
    for b in text {
        if *b == b'"' {
            append(to, b"\"\"");
        } else {
            append(to, &[*b]);
        }
    }
}

// Appends a text as a field: within double quotes if it has a byte that needs them, else as it is.
fn append_csv_field<const N: usize>(row: &mut ArrayVec<u8, N>, text: &[u8])
    requires { array_vec_len row.old + 2 * length text.now + 2 ≤ N }
    ensures { Adds row.old.items row.new.items (csv_field text.now) (2 * length text.now + 2) }
{
    if needs_quotes(text) {
        append(row, b"\"");
        append_doubled(row, text);
        append(row, b"\"");
    } else {
        append(row, text);
    }
}

// Appends a field that holds these bytes, escaped as in a line of a log.
fn append_field<const N: usize>(row: &mut ArrayVec<u8, N>, bytes: &[u8])
    requires short { length bytes.now ≤ 514 }
    requires room { array_vec_len row.old + 8 * length bytes.now + 2 ≤ N }
    ensures { Adds row.old.items row.new.items (field_text bytes.now) (8 * length bytes.now + 2) }
{
    append_csv_field(row, &escaped(bytes));
}

/// Appends a comma and a field that holds these bytes, escaped as in a line of a log.
pub(crate) fn append_field_after_comma<const N: usize>(row: &mut ArrayVec<u8, N>, bytes: &[u8])
    requires short { length bytes.now ≤ 514 }
    requires room { array_vec_len row.old + 8 * length bytes.now + 3 ≤ N }
    ensures { Adds row.old.items row.new.items (behind_comma bytes.now) (8 * length bytes.now + 3) }
{
    append(row, b",");
    append_field(row, bytes);
}

// Appends `count` empty fields, each after a comma.
fn append_blanks<const N: usize>(row: &mut ArrayVec<u8, N>, count: usize)
    requires few { count ≤ MOST_QUANTITIES }
    requires room { array_vec_len row.old + count ≤ N }
    ensures text { row.new.items ≡ row.old.items ++ replicate count 44 }
    ensures room { array_vec_len row.new ≡ array_vec_len row.old + count }
{
    append(row, &COMMAS[..count]);
}

// Appends what a cell holds as a field, after a comma.
fn append_content<const N: usize>(row: &mut ArrayVec<u8, N>, content: Content<'_>)
    requires short { IsShortContent 514 (content_seen content) }
    requires room { array_vec_len row.old + field_room (content_seen content) ≤ N }
    ensures { Adds row.old.items row.new.items (behind_comma (field_of (content_seen content.entry))) (field_room (content_seen content.entry)) }
{
    match content {
        Content::Blank => append(row, b","),
        Content::Bytes(bytes) | Content::Code(bytes) => append_field_after_comma(row, bytes),
        Content::Moment(utc) => append_field_after_comma(row, &stamp_text(utc)),
        Content::Whole(n) => append_field_after_comma(row, Buffer::new().format(n).as_bytes()),
    }
}

// Appends cells as fields, each after a comma.
fn append_cells<const N: usize>(row: &mut ArrayVec<u8, N>, cells: &[Cell<'_>])
    requires short { AreShort (map cell_seen cells.now) }
    requires room { array_vec_len row.old + fields_room (map cell_seen cells.now) ≤ N }
    ensures { Adds row.old.items row.new.items (fields_behind_commas (fields_of (map cell_seen cells.now))) (fields_room (map cell_seen cells.now)) }
{
    if let Some((cell, others)) = cells.split_first() {
        append_content(row, cell.1);
        append_cells(row, others);
    }
}

// Appends values as quantities, each a field after a comma.
fn append_values<const N: usize>(row: &mut ArrayVec<u8, N>, values: &[Value])
    requires few { length values.now ≤ 6 }
    requires room { array_vec_len row.old + VALUE_ROOM * length values.now ≤ N }
    ensures { Adds row.old.items row.new.items (flat_map value_behind_comma values.now) (VALUE_ROOM * length values.now) }
{
    for value in values {
        append_field_after_comma(row, &quantity_text(value));
    }
}

// Appends values as quantities, each in its column, of which that of the first is `first`; the other columns are empty.
fn append_spread<const N: usize>(row: &mut ArrayVec<u8, N>, first: usize, values: &[Value])
    requires few { length values.now ≤ 6 }
    requires fits { first + length values.now ≤ QUANTITIES }
    requires room { array_vec_len row.old + TABLE_ROOM ≤ N }
    ensures { Adds row.old.items row.new.items (fields_behind_commas (spread first (map quantity_text values.now))) TABLE_ROOM }
{
    append_blanks(row, first);
    append_values(row, values);
    append_blanks(row, QUANTITIES - first - values.len());
}

// Appends the quantities of an answer to a call, each in its column. All columns are empty if the answer has no quantity.
fn append_columns<const N: usize>(row: &mut ArrayVec<u8, N>, call: &Call, answer: &Answer)
    requires { array_vec_len row.old + TABLE_ROOM ≤ N }
    ensures { Adds row.old.items row.new.items (fields_behind_commas (answer_columns call.now answer.now)) TABLE_ROOM }
{
    match column_of(call, answer) {
        Some(first) => append_spread(row, first, &answer_values(answer)),
        None => append_blanks(row, QUANTITIES),
    }
}

// Appends the quantities of an answer to a call, each in its column, and then empty fields for the columns that descriptions add.
fn append_called<const N: usize>(
    row: &mut ArrayVec<u8, N>,
    call: &Call,
    answer: &Answer,
    columns: usize,
)
    requires few { columns ≤ MOST_COLUMNS }
    requires room { array_vec_len row.old + QUANTITIES_ROOM ≤ N }
    ensures { Adds row.old.items row.new.items (fields_behind_commas (answer_columns call.now answer.now ++ replicate columns [])) QUANTITIES_ROOM }
{
    append_columns(row, call, answer);
    append_blanks(row, columns);
}

// Appends the value under a name, of values that are in the order of these fields, as a field after a comma. The field is empty if there
// is no such value.
fn append_value_under<const N: usize>(
    row: &mut ArrayVec<u8, N>,
    name: &[u8],
    fields: &[Field],
    values: &[Value],
)
    requires { array_vec_len row.old + VALUE_ROOM ≤ N }
    ensures { Adds row.old.items row.new.items (behind_comma (text_under (map field_seen fields.now) values.now name.now)) VALUE_ROOM }
{
    match value_under(name, fields, values) {
        Some(value) => append_field_after_comma(row, &quantity_text(&value)),
        None => append(row, b","),
    }
}

// Appends the values under the names of the table's quantities (`append_value_under`).
fn append_known<const N: usize>(row: &mut ArrayVec<u8, N>, fields: &[Field], values: &[Value])
    requires { array_vec_len row.old + VALUE_ROOM * QUANTITIES ≤ N }
    ensures { Adds row.old.items row.new.items (fields_behind_commas (map (text_under (map field_seen fields.now) values.now) quantity_names)) (VALUE_ROOM * QUANTITIES) }
{
    for column in 0..QUANTITIES {
        append_value_under(row, quantity_name(column), fields, values);
    }
}

// Appends the values under the names of these columns (`append_value_under`).
fn append_added<const N: usize>(
    row: &mut ArrayVec<u8, N>,
    columns: &[FieldName],
    fields: &[Field],
    values: &[Value],
)
    requires { array_vec_len row.old + VALUE_ROOM * length columns.now ≤ N }
    ensures { Adds row.old.items row.new.items (flat_map (λ n. behind_comma (text_under (map field_seen fields.now) values.now n.items)) columns.now) (VALUE_ROOM * length columns.now) }
{
    for name in columns {
        append_value_under(row, name.as_slice(), fields, values);
    }
}

// Appends the values of an answer to a described procedure, each in the column of its name; the other columns are empty.
fn append_named<const N: usize>(
    row: &mut ArrayVec<u8, N>,
    columns: &[FieldName],
    fields: &[Field],
    values: &[Value],
)
    requires few { length columns.now ≤ MOST_COLUMNS }
    requires room { array_vec_len row.old + QUANTITIES_ROOM ≤ N }
    ensures { Adds row.old.items row.new.items (fields_behind_commas (map (text_under (map field_seen fields.now) values.now) (quantity_names ++ map (λ n. n.items) columns.now))) QUANTITIES_ROOM }
{
    append_known(row, fields, values);
    append_added(row, columns, fields, values);
}

// Appends an empty field for each column of a quantity, of which descriptions add so many.
fn append_empty<const N: usize>(row: &mut ArrayVec<u8, N>, columns: usize)
    requires few { columns ≤ MOST_COLUMNS }
    requires room { array_vec_len row.old + QUANTITIES_ROOM ≤ N }
    ensures { Adds row.old.items row.new.items (fields_behind_commas (replicate (QUANTITIES + columns) [])) QUANTITIES_ROOM }
{
    append_blanks(row, QUANTITIES + columns);
}

// Appends the values, as the reply's line has them, of an answer to a procedure that is described so, each in the column of its name. All
// columns are empty if they aren't of the description's kinds.
fn append_described<const N: usize>(
    row: &mut ArrayVec<u8, N>,
    columns: &[FieldName],
    description: &Description,
    came: &[u8],
)
    requires few { length columns.now ≤ MOST_COLUMNS }
    requires room { array_vec_len row.old + QUANTITIES_ROOM ≤ N }
    ensures { Adds row.old.items row.new.items (fields_behind_commas (named_fields (quantity_names ++ map (λ n. n.items) columns.now) (described_cells (description_seen description.now) came.now))) QUANTITIES_ROOM }
{
    match described_values(description, came) {
        Some(values) => append_named(row, columns, description.values.as_slice(), &values),
        None => append_empty(row, columns.len()),
    }
}

// Appends the values of an answer to a procedure that isn't in the table (`append_described`). All columns are empty if it isn't
// described.
fn append_raw<const N: usize>(
    row: &mut ArrayVec<u8, N>,
    columns: &[FieldName],
    described: Option<&Description>,
    reply: &Line,
)
    requires few { length columns.now ≤ MOST_COLUMNS }
    requires room { array_vec_len row.old + QUANTITIES_ROOM ≤ N }
    ensures { Adds row.old.items row.new.items (fields_behind_commas (named_fields (quantity_names ++ map (λ n. n.items) columns.now) (raw_cells (option_map (λ d. description_seen d.now) described.entry) reply.now.items))) QUANTITIES_ROOM }
{
    match described {
        Some(description) => append_described(row, columns, description, texts_of(reply).values),
        None => append_empty(row, columns.len()),
    }
}

// Appends the quantities of an answer to what a command asked, each in its column; `reply` is the line in which the answer came.
fn append_answer<const N: usize>(
    row: &mut ArrayVec<u8, N>,
    ended: EndedCommand<'_>,
    answer: &Answer,
    reply: &Line,
)
    requires few { length ended.columns.now ≤ MOST_COLUMNS }
    requires room { array_vec_len row.old + QUANTITIES_ROOM ≤ N }
    ensures { Adds row.old.items row.new.items (fields_behind_commas (answer_fields_in (entry_seen ended.entry) answer.now reply.now.items)) QUANTITIES_ROOM }
{
    match &ended.command.call {
        Asked::Table(call) => append_called(row, call, answer, ended.columns.len()),
        Asked::Raw(_) => append_raw(row, ended.columns, ended.described, reply),
    }
}

// Appends the quantities of the answer that counts of a command (`counted_answer`), each in its column. All columns are empty if there is
// none.
fn append_quantities<const N: usize>(row: &mut ArrayVec<u8, N>, ended: EndedCommand<'_>)
    requires few { length ended.columns.now ≤ MOST_COLUMNS }
    requires room { array_vec_len row.old + QUANTITIES_ROOM ≤ N }
    ensures { Adds row.old.items row.new.items (fields_behind_commas (quantity_fields true (entry_seen ended.entry))) QUANTITIES_ROOM }
{
    match counted_answer(ended.ending) {
        Some((answer, reply)) => append_answer(row, ended, answer, reply),
        None => append_empty(row, ended.columns.len()),
    }
}

// Appends the quantities of a command's answer (`append_quantities`), if the row has them.
fn append_quantities_if<const N: usize>(
    row: &mut ArrayVec<u8, N>,
    has_quantities: bool,
    ended: EndedCommand<'_>,
)
    requires few { length ended.columns.now ≤ MOST_COLUMNS }
    requires room { array_vec_len row.old + QUANTITIES_ROOM ≤ N }
    ensures { Adds row.old.items row.new.items (fields_behind_commas (quantity_fields has_quantities (entry_seen ended.entry))) QUANTITIES_ROOM }
{
    if has_quantities {
        append_quantities(row, ended);
    }
}

/// The row of a command's record, with its line feed; it has a column for each quantity if `has_quantities` is true: those of the table's
/// procedures, and those that descriptions add.
pub(crate) fn csv_row(has_quantities: bool, ended: EndedCommand<'_>) -> ArrayVec<u8, ROW_ROOM>
    requires named { length ended.name.now ≤ 64 }
    requires few { length ended.columns.now ≤ MOST_COLUMNS }
    ensures { result.items ≡ row_of (row_fields has_quantities (entry_seen ended.entry)) }
{
    let request = request_line(ended);
    let mut row = ArrayVec::new();
    append_field(&mut row, &stamp_text(ended.when.run));
    append_cells(&mut row, &first_cells(ended));
    append_quantities_if(&mut row, has_quantities, ended);
    append_cells(&mut row, &last_cells(ended, &request));
    append(&mut row, b"\n");
    row
}
