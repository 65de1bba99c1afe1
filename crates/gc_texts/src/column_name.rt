//! The columns that a described procedure's values may have: which names, and of which kinds.

ghost use Rattle.std.specs.Prelude.{◌≡◌, map};
ghost use Rattle.std.specs.List.{list_any};
ghost use Rattle.std.specs.Str.{bytes_eq};
ghost use Rattle.gc_texts.specs.ColumnNames.{are_columns, is_column, is_decimal, is_name_of_decimal, is_name_of_row, is_name_of_text, is_name_of_whole, is_text, is_whole, ends_as_text, suits_name};
ghost use Rattle.gc_texts.specs.Fields.{field_seen};

use crate::field::Field;
use gc_values::Kind;

// The names of what each row has, whatever was answered.
const NAMES_OF_ROW: [&[u8]; 17] = [
    b"run",
    b"sent",
    b"time",
    b"cycle",
    b"step",
    b"target",
    b"name",
    b"procedure",
    b"outcome",
    b"fault",
    b"rc_com",
    b"rc",
    b"values",
    b"items",
    b"quality",
    b"attempt",
    b"request",
];

// The names of the table's quantities that are decimals.
const NAMES_OF_DECIMALS: [&[u8]; 9] = [
    b"hz_rad",
    b"v_rad",
    b"distance_m",
    b"easting_m",
    b"northing_m",
    b"height_m",
    b"instrument_height_m",
    b"reflector_height_m",
    b"temperature_c",
];

// The names of the table's quantities that are whole numbers.
const NAMES_OF_WHOLES: [&[u8]; 14] = [
    b"mode",
    b"face",
    b"prism_type",
    b"places",
    b"release",
    b"version",
    b"subversion",
    b"serial",
    b"year",
    b"month",
    b"day",
    b"hour",
    b"minute",
    b"second",
];

// Whether a name is one of these.
fn is_among(names: &[&[u8]], name: &[u8]) -> bool
    ensures { result ≡ list_any (λ n. bytes_eq n.now name.now) names.now }
{
    names.iter().any(|n| *n == name)
}

// Whether a row has something under this name, whatever was answered.
fn is_name_of_row(name: &[u8]) -> bool
    ensures { result ≡ is_name_of_row name.now }
{
    let names: [&[u8]; 17] = NAMES_OF_ROW;
    is_among(names.as_slice(), name)
}

// Whether this is the name of a quantity of the table that is a decimal.
pub(crate) fn is_name_of_decimal(name: &[u8]) -> bool
    ensures { result ≡ is_name_of_decimal name.now }
{
    let names: [&[u8]; 9] = NAMES_OF_DECIMALS;
    is_among(names.as_slice(), name)
}

// Whether this is the name of a quantity of the table that is a whole number.
pub(crate) fn is_name_of_whole(name: &[u8]) -> bool
    ensures { result ≡ is_name_of_whole name.now }
{
    let names: [&[u8]; 14] = NAMES_OF_WHOLES;
    is_among(names.as_slice(), name)
}

// Whether this is the name of the quantity of the table that is a text.
pub(crate) fn is_name_of_text(name: &[u8]) -> bool
    ensures { result ≡ is_name_of_text name.now }
{
    name == b"instrument".as_slice()
}

// Whether this is how JSON names what a reply wrote of a number.
fn ends_as_text(name: &[u8]) -> bool
    ensures { result ≡ ends_as_text name.now }
{
    name.ends_with(b"_text")
}

// Whether values of a kind are decimals.
pub(crate) fn is_decimal(kind: Kind) -> bool
    ensures { result ≡ is_decimal kind }
{
    matches!(kind, Kind::Double)
}

// Whether values of a kind are whole numbers.
pub(crate) fn is_whole(kind: Kind) -> bool
    ensures { result ≡ is_whole kind }
{
    matches!(kind, Kind::Long | Kind::Short | Kind::Byte | Kind::Bool)
}

// Whether values of a kind are texts.
pub(crate) fn is_text(kind: Kind) -> bool
    ensures { result ≡ is_text kind }
{
    matches!(kind, Kind::Text)
}

// Whether a value of this kind may have this name: under a name of the table's quantities are values of their sort.
fn suits_name(name: &[u8], kind: Kind) -> bool
    ensures { result ≡ suits_name name.now kind }
{
    if is_name_of_decimal(name) {
        return is_decimal(kind);
    }
    if is_name_of_whole(name) {
        return is_whole(kind);
    }
    if is_name_of_text(name) {
        return is_text(kind);
    }
    true
}

// Whether a field may be a column.
fn is_column(field: &Field) -> bool
    ensures { result ≡ is_column (field_seen field.now) }
{
    let name = field.name.as_slice();
    if is_name_of_row(name) {
        return false;
    }
    if ends_as_text(name) {
        return false;
    }
    suits_name(name, field.kind)
}

// Whether one of these fields has this name.
fn is_named(name: &[u8], fields: &[Field]) -> bool
    ensures { result ≡ list_any (λ f. bytes_eq f.name.items name.now) fields.now }
{
    fields.iter().any(|f| f.name.as_slice() == name)
}

/// Whether the fields may be the columns of an answer: each may be a column, and no two have one name.
pub(crate) fn are_columns(fields: &[Field]) -> bool
    ensures { result ≡ are_columns (map field_seen fields.now) }
{
    for (k, field) in fields.iter().enumerate() {
        if !is_column(field) {
            return false;
        }
        if is_named(field.name.as_slice(), &fields[k + 1..]) {
            return false;
        }
    }
    true
}
