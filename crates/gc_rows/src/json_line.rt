//! Lines of JSON: a record as one object. Its quantities are members by their names, as numbers and as the reply wrote them; so are the
//! values that a description names of a procedure that isn't in the table, whose values are also one list of items.

ghost use Rattle.std.specs.Prelude.{◌≡◌, ℕ, ◌+◌, ◌*◌, ◌≤◌, ◌<◌, ◌++◌, Some, codes, false, length, map, option_map};
ghost use Rattle.std.specs.List.{flat_map};
ghost use Rattle.arrayvec.specs.ArrayVec.{array_vec_len};
ghost use Rattle.gc_catalogue.specs.Answers.{answer_fields};
ghost use Rattle.gc_rows.specs.Items.{items_of, split_items};
ghost use Rattle.gc_values.specs.Params.{total_length};
ghost use Rattle.gc_texts.specs.Descriptions.{description_seen};
ghost use Rattle.gc_texts.specs.Fields.{field_seen};
ghost use Rattle.gc_rows.specs.declared.cell.TheConstants.{NAME_ROOM};
ghost use Rattle.gc_rows.specs.declared.quantity.TheConstants.{QUANTITIES};
ghost use Rattle.gc_rows.specs.declared.json_line.TheConstants.{TEXT_ROOM, OWN_ROOM, STRINGS_ROOM, LIST_ROOM, VALUES_ROOM, ANSWER_ROOM};
ghost use Rattle.gc_rows.specs.Cells.{AreShort, IsShortContent, cell_seen, content_seen, member_room, members_in, members_of, members_room};
ghost use Rattle.gc_rows.specs.Columns.{answer_cells, cells_from, entry_seen, item_content, line_items, quantity_cells, split_content, value_cells};
ghost use Rattle.gc_rows.specs.DescribedCells.{answer_kinds, cells_of_values, described_cells, field_cells};
ghost use Rattle.gc_rows.specs.ValueReading.{values_read};
ghost use Rattle.gc_rows.specs.JsonLines.{behind_backslash, member_front, string_text, text_member, number_member, comma_where, strings_text, texts_member, members_text, without_zeros, value_members};
ghost use Rattle.gc_rows.specs.Quantities.{column_of};
ghost use Rattle.gc_rows.specs.Records.{record_of};
ghost use Rattle.gc_rows.specs.Rows.{Adds};
ghost use Rattle.gc_rows.specs.declared.record.Form.TheVariants.{Json};

use crate::cell::{Cell, Content, NAME_ROOM, request_line, texts_of};
use crate::column::{first_cells, last_cells, quantity_name};
use crate::counted::counted_answer;
use crate::described::described_values;
use crate::quantity::{QUANTITY_ROOM, answer_values, column_of, quantity_text};
use crate::record::EndedCommand;
use arrayvec::ArrayVec;
use gc_catalogue::{Answer, Asked, Call};
use gc_lines::{Line, append};
use gc_texts::{Description, Field, before, behind, escaped, stamp_text};
use gc_values::{Items, MOST_ITEMS, Value, split};
use itoa::Buffer;

/// The most bytes of a line of JSON.
pub(crate) const JSON_ROOM: usize = 29_696;

// The most bytes of a member that is a string, besides those within its quotes. Each byte that the string holds takes at most
// eight: it may be escaped as four, and each of these come after a backslash.
const TEXT_ROOM: usize = NAME_ROOM + 2;

// The most bytes of a value's members besides what the reply wrote of it: those of a text, which is one member. The names of a
// number, and the number itself, have fewer.
const OWN_ROOM: usize = TEXT_ROOM + 8 * QUANTITY_ROOM;

// The most bytes of up to 16 strings that hold 512 bytes together: each byte may be escaped as four, each of these come after a
// backslash, and each string has its quotes and a comma.
const STRINGS_ROOM: usize = 8 * 512 + 3 * 16;

// The most bytes of the member `items`: its name, the brackets, and the strings.
const LIST_ROOM: usize = NAME_ROOM + 2 + STRINGS_ROOM;

// The most bytes of the members of up to 16 values, of which the reply wrote 512 bytes together.
const VALUES_ROOM: usize = MOST_ITEMS * OWN_ROOM + 8 * 512;

// The most bytes of the members of an answer: those of its values, and the list of its items.
const ANSWER_ROOM: usize = VALUES_ROOM + LIST_ROOM;

// Appends a text with a backslash before each double quote and each backslash.
fn append_behind_backslashes<const N: usize>(line: &mut ArrayVec<u8, N>, text: &[u8])
    requires { array_vec_len line.old + 2 * length text.now ≤ N }
    ensures { Adds line.old.items line.new.items (flat_map behind_backslash text.now) (2 * length text.now) }
{
    for b in text {
        if *b == b'"' || *b == b'\\' {
            append(line, &[b'\\', *b]);
        } else {
            append(line, &[*b]);
        }
    }
}

// Appends a string that holds these bytes, escaped first as in a line of a log and then as JSON has it.
fn append_string<const N: usize>(line: &mut ArrayVec<u8, N>, bytes: &[u8])
    requires short { length bytes.now ≤ 514 }
    requires room { array_vec_len line.old + 8 * length bytes.now + 2 ≤ N }
    ensures { Adds line.old.items line.new.items (string_text bytes.now) (8 * length bytes.now + 2) }
{
    append(line, b"\"");
    append_behind_backslashes(line, &escaped(bytes));
    append(line, b"\"");
}

// Appends a comma, the name of a member within double quotes, and a colon. The name is `name` with `suffix` after it.
fn append_name<const N: usize>(line: &mut ArrayVec<u8, N>, name: &[u8], suffix: &[u8])
    requires short { length name.now ≤ 32 }
    requires ends { length suffix.now ≤ 5 }
    requires room { array_vec_len line.old + NAME_ROOM ≤ N }
    ensures { Adds line.old.items line.new.items (member_front (name.now ++ suffix.now)) NAME_ROOM }
{
    append(line, b",\"");
    append(line, name);
    append(line, suffix);
    append(line, b"\":");
}

// Appends a member that is a string of these bytes.
fn append_text<const N: usize>(line: &mut ArrayVec<u8, N>, name: &[u8], bytes: &[u8])
    requires named { length name.now ≤ 32 }
    requires short { length bytes.now ≤ 514 }
    requires room { array_vec_len line.old + 8 * length bytes.now + TEXT_ROOM ≤ N }
    ensures { Adds line.old.items line.new.items (text_member name.now bytes.now) (8 * length bytes.now + TEXT_ROOM) }
{
    append_name(line, name, b"");
    append_string(line, bytes);
}

// Appends a member that is a number, written as `digits`.
fn append_number<const N: usize>(line: &mut ArrayVec<u8, N>, name: &[u8], digits: &[u8])
    requires named { length name.now ≤ 32 }
    requires short { length digits.now ≤ 514 }
    requires room { array_vec_len line.old + length digits.now + NAME_ROOM ≤ N }
    ensures { Adds line.old.items line.new.items (number_member name.now digits.now) (length digits.now + NAME_ROOM) }
{
    append_name(line, name, b"");
    append(line, digits);
}

// Digits without leading zeros; of zeros alone the last stays, and no digits stay none.
fn without_zeros(digits: &[u8]) -> &[u8]
    ensures is { result.now ≡ without_zeros digits.now }
    ensures short { length result.now ≤ length digits.now }
{
    match digits {
        [b'0', rest @ ..] if !rest.is_empty() => without_zeros(rest),
        _ => digits,
    }
}

// Appends the member of a cell; nothing if it is blank.
fn append_content<const N: usize>(line: &mut ArrayVec<u8, N>, name: &[u8], content: Content<'_>)
    requires named { length name.now ≤ 32 }
    requires short { IsShortContent 514 (content_seen content) }
    requires room { array_vec_len line.old + member_room (content_seen content) ≤ N }
    ensures { Adds line.old.items line.new.items (members_text (members_in name.now (content_seen content.entry))) (member_room (content_seen content.entry)) }
{
    match content {
        Content::Blank => {}
        Content::Bytes(bytes) => append_text(line, name, bytes),
        Content::Moment(utc) => append_text(line, name, &stamp_text(utc)),
        Content::Whole(n) => append_number(line, name, Buffer::new().format(n).as_bytes()),
        Content::Code(digits) => append_number(line, name, without_zeros(digits)),
    }
}

// Appends the members of cells.
fn append_cells<const N: usize>(line: &mut ArrayVec<u8, N>, cells: &[Cell<'_>])
    requires short { AreShort (map cell_seen cells.now) }
    requires room { array_vec_len line.old + members_room (map cell_seen cells.now) ≤ N }
    ensures { Adds line.old.items line.new.items (members_text (members_of (map cell_seen cells.now))) (members_room (map cell_seen cells.now)) }
{
    if let Some((cell, others)) = cells.split_first() {
        append_content(line, cell.0, cell.1);
        append_cells(line, others);
    }
}

// Appends the members of a value. A text gives one: its bytes as a string, under this name. Any other value gives two: the number
// that it is as a quantity, under this name, and `came`, which is the value as the reply's line wrote it, under the name with
// `_text`.
fn append_value<const N: usize>(line: &mut ArrayVec<u8, N>, name: &[u8], value: &Value, came: &[u8])
    requires named { length name.now ≤ 32 }
    requires short { length came.now ≤ 514 }
    requires room { array_vec_len line.old + 8 * length came.now + OWN_ROOM ≤ N }
    ensures { Adds line.old.items line.new.items (members_text (value_members name.now value.now came.now)) (8 * length came.now + OWN_ROOM) }
{
    match value {
        Value::Text(text) => append_text(line, name, text.as_bytes()),
        Value::Double(_) | Value::Long(_) | Value::Short(_) | Value::Byte(_) | Value::Bool(_) => {
            append_number(line, name, &quantity_text(value));
            append_name(line, name, b"_text");
            append_string(line, came);
        }
    }
}

// Appends values, each under the name of its column: the first in column `first`, and the others after it. `came` are the same
// values as the reply's line has them, with the commas between them.
fn append_values<const N: usize>(
    line: &mut ArrayVec<u8, N>,
    first: usize,
    values: &[Value],
    came: &[u8],
)
    requires fits { first + length values.now ≤ QUANTITIES }
    requires short { length came.now ≤ 512 }
    requires room { array_vec_len line.old + (OWN_ROOM * length values.now + 8 * length came.now) ≤ N }
    ensures { Adds line.old.items line.new.items (members_text (members_of (value_cells first values.now came.now))) (OWN_ROOM * length values.now + 8 * length came.now) }
{
    let mut column = first;
    let mut rest = came;
    for value in values {
        append_value(line, quantity_name(column), value, before(b',', rest));
        column += 1;
        rest = behind(b',', rest);
    }
}

// Appends the comma before an item of a list, if another item is before it (`after_another`).
fn append_comma<const N: usize>(line: &mut ArrayVec<u8, N>, after_another: bool)
    requires { array_vec_len line.old + 1 ≤ N }
    ensures { Adds line.old.items line.new.items (comma_where after_another) 1 }
{
    if after_another {
        append(line, b",");
    }
}

// Appends strings that hold these texts, with commas between them.
fn append_strings<const N: usize>(line: &mut ArrayVec<u8, N>, texts: &Items<'_>)
    requires short { total_length texts.now ≤ 512 }
    requires few { length texts.now ≤ 16 }
    requires room { array_vec_len line.old + STRINGS_ROOM ≤ N }
    ensures { Adds line.old.items line.new.items (strings_text false texts.now) STRINGS_ROOM }
{
    for k in 0..texts.len() {
        append_comma(line, k > 0);
        append_string(line, texts.get(k));
    }
}

// Appends the member `items`, which is a list of strings that hold these texts.
fn append_list<const N: usize>(line: &mut ArrayVec<u8, N>, texts: &Items<'_>)
    requires short { total_length texts.now ≤ 512 }
    requires few { length texts.now ≤ 16 }
    requires room { array_vec_len line.old + LIST_ROOM ≤ N }
    ensures { Adds line.old.items line.new.items (texts_member (codes "items") texts.now) LIST_ROOM }
{
    append_name(line, b"items", b"");
    append(line, b"[");
    append_strings(line, texts);
    append(line, b"]");
}

// Appends the list of the items into which a reply's values split; nothing if they don't split.
fn append_items<const N: usize>(line: &mut ArrayVec<u8, N>, values: &[u8])
    requires short { length values.now ≤ 512 }
    requires room { array_vec_len line.old + LIST_ROOM ≤ N }
    ensures { Adds line.old.items line.new.items (members_text (members_in (codes "items") (split_content (split_items values.now)))) LIST_ROOM }
{
    match split(values) {
        Ok(items) => append_list(line, &items),
        Err(_) => {}
    }
}

// Appends the members of an answer to a call, which are its quantities; nothing if it has none. `came` are the answer's values as the
// reply's line has them, with the commas between them.
fn append_columns<const N: usize>(
    line: &mut ArrayVec<u8, N>,
    call: &Call,
    answer: &Answer,
    came: &[u8],
)
    requires short { length came.now ≤ 512 }
    requires room { array_vec_len line.old + ANSWER_ROOM ≤ N }
    ensures { Adds line.old.items line.new.items (members_text (members_of (cells_from (column_of call.now answer.now) (answer_fields answer.now).values came.now))) ANSWER_ROOM }
{
    if let Some(first) = column_of(call, answer) {
        append_values(line, first, &answer_values(answer), came);
    }
}

// Appends values, each under the name of its field. `came` are the same values as the reply's line has them.
fn append_fields<const N: usize>(
    line: &mut ArrayVec<u8, N>,
    fields: &[Field],
    values: &[Value],
    came: &Items<'_>,
)
    requires few { length fields.now ≤ 16 }
    requires all { length values.now ≡ length fields.now }
    requires written { length fields.now ≤ length came.now }
    requires short { total_length came.now ≤ 512 }
    requires room { array_vec_len line.old + VALUES_ROOM ≤ N }
    ensures { Adds line.old.items line.new.items (members_text (members_of (field_cells (map field_seen fields.now) values.now came.now))) VALUES_ROOM }
{
    for (k, field) in fields.iter().enumerate() {
        append_value(line, field.name.as_slice(), &values[k], came.get(k));
    }
}

// Appends the values of an answer to a procedure that is described so (`append_fields`), which were read of `came`, the values as the reply's
// line has them.
fn append_read<const N: usize>(
    line: &mut ArrayVec<u8, N>,
    description: &Description,
    values: &[Value],
    came: &[u8],
)
    requires read { values_read (answer_kinds (description_seen description.now)) came.now ≡ Some values.now }
    requires short { length came.now ≤ 512 }
    requires room { array_vec_len line.old + VALUES_ROOM ≤ N }
    ensures { Adds line.old.items line.new.items (members_text (members_of (field_cells (map field_seen description.now.values.items) values.now (items_of came.now)))) VALUES_ROOM }
{
    match split(came) {
        Ok(items) => append_fields(line, description.values.as_slice(), values, &items),
        Err(_) => {}
    }
}

// Appends the members of an answer to a procedure that is described so, which are the values that the description names; nothing if they
// aren't of its kinds. `came` are the answer's values as the reply's line has them, with the commas between them.
fn append_described<const N: usize>(
    line: &mut ArrayVec<u8, N>,
    description: &Description,
    came: &[u8],
)
    requires short { length came.now ≤ 512 }
    requires room { array_vec_len line.old + VALUES_ROOM ≤ N }
    ensures { Adds line.old.items line.new.items (members_text (members_of (described_cells (description_seen description.now) came.now))) VALUES_ROOM }
{
    match described_values(description, came) {
        Some(values) => append_read(line, description, &values, came),
        None => {}
    }
}

// Appends the members of an answer to a procedure that isn't in the table: the values that its description names, if it has one, and the
// list of the items. `came` are the answer's values as the reply's line has them.
fn append_raw<const N: usize>(
    line: &mut ArrayVec<u8, N>,
    described: Option<&Description>,
    came: &[u8],
)
    requires short { length came.now ≤ 512 }
    requires room { array_vec_len line.old + ANSWER_ROOM ≤ N }
    ensures { Adds line.old.items line.new.items (members_text (members_of (cells_of_values (option_map (λ d. description_seen d.now) described.entry) came.now) ++ members_in (codes "items") (split_content (split_items came.now)))) ANSWER_ROOM }
{
    if let Some(description) = described {
        append_described(line, description, came);
    }
    append_items(line, came);
}

// Appends the members of an answer to what a command asked; `reply` is the line in which the answer came. Of a call of the table they are
// the answer's quantities, and of any other procedure the values that its description names and the items of the line's values.
fn append_answer<const N: usize>(
    line: &mut ArrayVec<u8, N>,
    ended: EndedCommand<'_>,
    answer: &Answer,
    reply: &Line,
)
    requires { array_vec_len line.old + ANSWER_ROOM ≤ N }
    ensures { Adds line.old.items line.new.items (members_text (members_of (answer_cells ended.entry.command.now.call (entry_seen ended.entry).described answer.now reply.now.items) ++ members_in (codes "items") (line_items ended.entry.command.now.call reply.now.items))) ANSWER_ROOM }
{
    match &ended.command.call {
        Asked::Table(call) => append_columns(line, call, answer, texts_of(reply).values),
        Asked::Raw(_) => append_raw(line, ended.described, texts_of(reply).values),
    }
}

// Appends the quantities and the items of the answer that counts of a command (`counted_answer`); nothing if there is none.
fn append_quantities<const N: usize>(line: &mut ArrayVec<u8, N>, ended: EndedCommand<'_>)
    requires { array_vec_len line.old + ANSWER_ROOM ≤ N }
    ensures { Adds line.old.items line.new.items (members_text (members_of (quantity_cells (entry_seen ended.entry)) ++ members_in (codes "items") (item_content (entry_seen ended.entry)))) ANSWER_ROOM }
{
    if let Some((answer, reply)) = counted_answer(ended.ending) {
        append_answer(line, ended, answer, reply);
    }
}

/// The line of JSON of a command's record, with its line feed.
pub(crate) fn json_line(ended: EndedCommand<'_>) -> ArrayVec<u8, JSON_ROOM>
    requires { length ended.name.now ≤ 64 }
    ensures { result.items ≡ record_of Json ended.entry }
{
    let mut line = ArrayVec::new();
    let request = request_line(ended);
    append(&mut line, b"{\"run\":");
    append_string(&mut line, &stamp_text(ended.when.run));
    append_cells(&mut line, &first_cells(ended));
    append_quantities(&mut line, ended);
    append_cells(&mut line, &last_cells(ended, &request));
    append(&mut line, b"}\n");
    line
}
