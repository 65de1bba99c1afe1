//! Columns: the names under which a record holds something, in their order, and what it holds under each. The header of a row, the
//! cells of a record and the list of columns are made from one table.

ghost use Rattle.std.specs.Prelude.{◌≡◌, ◌≤◌, length, map};
ghost use Rattle.gc_rows.specs.Cells.{AreShort, cell_seen, fields_room, members_room};
ghost use Rattle.gc_rows.specs.Columns.{cells_in, entry_seen, first_columns, last_columns, line_sent};
ghost use Rattle.gc_rows.specs.Quantities.{quantity_name};
ghost use Rattle.gc_rows.specs.declared.cell.TheConstants.{FIRST_FIELDS, FIRST_MEMBERS, LAST_FIELDS, LAST_MEMBERS};

use crate::cell::{Cell, Content, bytes_content, fault_content, moment_content, reply_contents};
use crate::record::EndedCommand;
use gc_lines::Line;

/// What a record holds under a column, if it holds anything there.
#[derive(Clone, Copy)]
pub enum Kind {
    /// Bytes, which are escaped where they aren't printable: a string.
    Text,
    /// A moment in UTC, as `2026-11-22T23:08:27.123Z`: a string.
    Moment,
    /// A whole number; an object has it as a number.
    Whole,
    /// A decimal; an object has it as a number.
    Decimal,
    /// A code of a reply, in digits as the reply has them; an object has it as a number.
    Code,
    /// A list of strings, of objects alone.
    Texts,
}

/// A column of rows, and a member of objects.
#[derive(Clone, Copy)]
pub struct Column {
    /// Its name.
    pub name: &'static str,
    /// What is under it.
    pub kind: Kind,
    /// The unit of its numbers; empty if they have none.
    pub unit: &'static str,
}

// The table of columns, which it hands to the macro `made`: `run`, those before the quantities, the quantities, `items`, and those
// after all others. A column has its name and its kind; those of a record's cells have what `ended`, whose reply's parts are
// `reply` and whose request line is `request`, holds there; a quantity has its place among the quantities, of which one that is
// looked for is `column`, and its unit.
macro_rules! columns {
    ($made:ident, $ended:ident, $reply:ident, $request:ident, $column:ident) => {
        $made! {
            ["run" Moment]
            [
                "sent" Moment = moment_content($ended.when.stamp.sent),
                "time" Moment = Content::Moment($ended.when.stamp.utc),
                "cycle" Whole = Content::Whole($ended.when.stamp.cycle),
                "step" Whole = Content::Whole($ended.when.stamp.turn.place as u64),
                "target" Whole = Content::Whole($ended.command.target as u64),
                "name" Text = bytes_content($ended.name),
                "procedure" Whole = Content::Whole($ended.command.call.number() as u64),
                "outcome" Text = Content::Bytes($ended.ending.word()),
                "fault" Whole = fault_content($ended.ending.fault()),
                "rc_com" Code = $reply.com,
                "rc" Code = $reply.code,
                "values" Text = $reply.values,
            ]
            [
                $column;
                0 "hz_rad" Decimal "rad",
                1 "v_rad" Decimal "rad",
                2 "distance_m" Decimal "m",
                3 "mode" Whole "",
                4 "easting_m" Decimal "m",
                5 "northing_m" Decimal "m",
                6 "height_m" Decimal "m",
                7 "instrument_height_m" Decimal "m",
                8 "reflector_height_m" Decimal "m",
                9 "face" Whole "",
                10 "prism_type" Whole "",
                11 "temperature_c" Decimal "°C",
                12 "places" Whole "",
                13 "release" Whole "",
                14 "version" Whole "",
                15 "subversion" Whole "",
                16 "serial" Whole "",
                17 "instrument" Text "",
                18 "year" Whole "",
                19 "month" Whole "",
                20 "day" Whole "",
                21 "hour" Whole "",
                22 "minute" Whole "",
                23 "second" Whole "",
            ]
            ["items" Texts]
            [
                "quality" Text = bytes_content($ended.ending.quality_text()),
                "attempt" Whole = Content::Whole($ended.when.stamp.turn.attempt),
                "request" Text = bytes_content($request),
            ]
        }
    };
}

// The row of the columns' names without those of the quantities.
macro_rules! header {
    (
        [$run:literal $_run:ident]
        [$($first:literal $_first:ident = $_content:expr,)*]
        $_quantities:tt
        $_items:tt
        [$($last:literal $_last:ident = $_end:expr,)*]
    ) => {
        concat!($run, $(",", $first,)* $(",", $last,)* "\n")
    };
}

// The row of the columns' names up to those of the quantities.
macro_rules! wide_front {
    (
        [$run:literal $_run:ident]
        [$($first:literal $_first:ident = $_content:expr,)*]
        [$_column:ident; $($_place:literal $quantity:literal $_quantity:ident $_unit:literal,)*]
        $_items:tt
        $_last:tt
    ) => {
        concat!($run, $(",", $first,)* $(",", $quantity,)*)
    };
}

// The row of the columns' names after those of the quantities.
macro_rules! header_end {
    (
        $_run:tt
        $_first:tt
        $_quantities:tt
        $_items:tt
        [$($last:literal $_last:ident = $_end:expr,)*]
    ) => {
        concat!($(",", $last,)* "\n")
    };
}

// The cells of a record before its quantities.
macro_rules! first_cells {
    (
        $_run:tt
        [$($name:literal $_kind:ident = $content:expr,)*]
        $_quantities:tt
        $_items:tt
        $_last:tt
    ) => {
        [$(Cell($name.as_bytes(), $content)),*]
    };
}

// The cells of a record after all others.
macro_rules! last_cells {
    (
        $_run:tt
        $_first:tt
        $_quantities:tt
        $_items:tt
        [$($name:literal $_kind:ident = $content:expr,)*]
    ) => {
        [$(Cell($name.as_bytes(), $content)),*]
    };
}

// The name of the quantity in a column.
macro_rules! quantity_name {
    (
        $_run:tt
        $_first:tt
        [$column:ident; $($place:literal $name:literal $_kind:ident $_unit:literal,)*]
        $_items:tt
        $_last:tt
    ) => {
        match $column {
            $($place => $name.as_bytes(),)*
            _ => b"",
        }
    };
}

// All columns.
macro_rules! all_columns {
    (
        [$run:literal $of_run:ident]
        [$($first:literal $of_first:ident = $_content:expr,)*]
        [$_column:ident; $($_place:literal $quantity:literal $of_quantity:ident $unit:literal,)*]
        [$items:literal $of_items:ident]
        [$($last:literal $of_last:ident = $_end:expr,)*]
    ) => {
        [
            Column { name: $run, kind: Kind::$of_run, unit: "" },
            $(Column { name: $first, kind: Kind::$of_first, unit: "" },)*
            $(Column { name: $quantity, kind: Kind::$of_quantity, unit: $unit },)*
            Column { name: $items, kind: Kind::$of_items, unit: "" },
            $(Column { name: $last, kind: Kind::$of_last, unit: "" },)*
        ]
    };
}

/// The row of the columns' names, with its line feed, without those of the quantities.
pub(crate) const HEADER: &str = columns!(header, ended, reply, request, column);

/// The row of the columns' names with those of the quantities, up to these.
pub(crate) const WIDE_FRONT: &str = columns!(wide_front, ended, reply, request, column);

/// What follows `WIDE_FRONT` and the names of the columns that descriptions add, with the line feed.
pub(crate) const HEADER_END: &str = columns!(header_end, ended, reply, request, column);

/// All columns of rows and members of objects, in their order: `items` is of objects alone.
pub const COLUMNS: [Column; 41] = columns!(all_columns, ended, reply, request, column);

/// The cells of a record between its first one, `run`, and its quantities.
pub(crate) fn first_cells<'a>(ended: EndedCommand<'a>) -> [Cell<'a>; 12]
    requires { length ended.name.now ≤ 64 }
    ensures is { map cell_seen result ≡ cells_in first_columns (entry_seen ended.entry) }
    ensures short { AreShort (map cell_seen result) }
    ensures fields { fields_room (map cell_seen result) ≤ FIRST_FIELDS }
    ensures members { members_room (map cell_seen result) ≤ FIRST_MEMBERS }
{
    let reply = reply_contents(ended.ending.line());
    columns!(first_cells, ended, reply, request, column)
}

/// The cells of a record after all others: the quality of the answer, the attempt of the command's chain or, for a command of the
/// setup, of the setup, and the command's request line (`request_line`).
pub(crate) fn last_cells<'a>(ended: EndedCommand<'a>, request: &'a Line) -> [Cell<'a>; 3]
    requires { request.now.items ≡ line_sent (entry_seen ended) }
    ensures is { map cell_seen result ≡ cells_in last_columns (entry_seen ended.entry) }
    ensures short { AreShort (map cell_seen result) }
    ensures fields { fields_room (map cell_seen result) ≤ LAST_FIELDS }
    ensures members { members_room (map cell_seen result) ≤ LAST_MEMBERS }
{
    columns!(last_cells, ended, reply, request, column)
}

/// The name of the quantity in a column, counted from 0; empty for a column after the last.
pub(crate) fn quantity_name(column: usize) -> &'static [u8]
    ensures is { result.now ≡ quantity_name column }
    ensures short { length result.now ≤ 32 }
{
    columns!(quantity_name, ended, reply, request, column)
}
