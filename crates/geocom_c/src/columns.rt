//! The columns of a described procedure's answer, in plain fields.

ghost use Rattle.std.specs.Prelude.{◌≡◌, ◌≤◌, length, map};
ghost use Rattle.gc_texts.specs.Fields.{field_seen};
ghost use Rattle.geocom_c.specs.Columns.{IsColumnOf, kind_number};
ghost use Rattle.geocom_c.specs.FirstAre.{FirstAre};
ghost use Rattle.geocom_c.specs.Rooms.{WritesWithin};

use crate::header::{BOOLEAN, BYTE, DOUBLE, LONG, NAME_ROOM, SHORT, STRING};
use crate::rest::put_text;
use gc_texts::Field;
use gc_values::Kind;

/// A column of a described procedure's answer: the name and the kind of a value.
#[repr(C)]
#[derive(Clone, Copy)]
pub struct GeocomColumn {
    /// The name, at the front; zeros follow it.
    pub name: [u8; NAME_ROOM],
    /// How many bytes the name has, 1 to 32.
    pub length: u8,
    /// The kind: [`DOUBLE`] to [`STRING`].
    pub kind: u8,
}

// The number of a kind.
fn kind_number(kind: Kind) -> u8
    ensures { result ≡ kind_number kind }
{
    match kind {
        Kind::Double => DOUBLE,
        Kind::Long => LONG,
        Kind::Short => SHORT,
        Kind::Byte => BYTE,
        Kind::Bool => BOOLEAN,
        Kind::Text => STRING,
    }
}

// The column of a field.
fn column_of(field: &Field) -> GeocomColumn
    ensures { IsColumnOf result (field_seen field.now) }
{
    let mut name = [0; NAME_ROOM];
    put_text(&mut name, 0, field.name.as_slice());
    GeocomColumn {
        name,
        length: field.name.len() as u8,
        kind: kind_number(field.kind),
    }
}

// Writes the columns of fields to the front of `columns`.
pub(crate) fn put_columns(columns: &mut [GeocomColumn], fields: &[Field])
    requires room { length fields.now ≤ length columns.old }
    ensures columns { FirstAre IsColumnOf columns.new (map field_seen fields.now) }
    ensures written { WritesWithin (length fields.now) columns.old columns.new }
{
    for k in 0..fields.len() {
        columns[k] = column_of(&fields[k]);
    }
}
