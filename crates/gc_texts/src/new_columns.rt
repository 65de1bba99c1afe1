//! The columns that descriptions of procedures add to those of the table's quantities.

ghost use Rattle.std.specs.Prelude.{◌≡◌, ◌≤◌, ◌<◌, ◌+◌, ◌++◌, length, OnOk, OnErr, vec_capacity, vec_len};
ghost use Rattle.std.specs.List.{list_all, list_any};
ghost use Rattle.std.specs.Str.{bytes_eq};
ghost use Rattle.gc_texts.specs.NewColumns.{agrees_with, are_of_one_sort, fresh_names, has_column, is_fresh, is_new_column, is_of_sort};

use crate::column_name::{
    is_decimal, is_name_of_decimal, is_name_of_text, is_name_of_whole, is_text, is_whole,
};
use crate::description::Description;
use crate::field::{FIELD_ROOM, Field};
use crate::measured::has_name;
use arrayvec::ArrayVec;
use gc_lines::append;
use gc_values::{Kind, MOST_ITEMS};
use std::alloc::AllocError;

/// The most columns that a text's descriptions may add.
pub const COLUMNS_MAX: usize = 64;

/// The name of a column: a small letter, and then small letters, digits and `_`; at most 32 bytes.
pub type FieldName = ArrayVec<u8, FIELD_ROOM>;

/// Whether a column of this name is none of the table's quantities.
pub fn is_new_column(name: &[u8]) -> bool
    ensures { result ≡ is_new_column name.now }
{
    !is_name_of_decimal(name) && !is_name_of_whole(name) && !is_name_of_text(name)
}

// Whether one of these columns has this name.
fn has_column(columns: &[FieldName], name: &[u8]) -> bool
    ensures { result ≡ has_column columns.now name.now }
{
    columns.iter().any(|column| column.as_slice() == name)
}

// Whether the name is of a new column that these don't have.
fn is_fresh(columns: &[FieldName], name: &[u8]) -> bool
    ensures { result ≡ is_fresh columns.now name.now }
{
    is_new_column(name) && !has_column(columns, name)
}

// Whether values of two kinds are of one sort: decimals, whole numbers or texts.
fn is_of_sort(kind: Kind, other: Kind) -> bool
    ensures { result ≡ is_of_sort kind other }
{
    if is_decimal(kind) {
        return is_decimal(other);
    }
    if is_text(kind) {
        return is_text(other);
    }
    is_whole(other)
}

// Whether two fields with one name are of one sort. Two that have different names always are.
fn agrees_with(field: &Field, other: &Field) -> bool
    ensures { result ≡ agrees_with field.now other.now }
{
    !has_name(other, field.name.as_slice()) || is_of_sort(field.kind, other.kind)
}

// Whether a field agrees with each of these (`agrees_with`).
fn agrees_with_all(field: &Field, fields: &[Field]) -> bool
    ensures { result ≡ list_all (agrees_with field.now) fields.now }
{
    fields.iter().all(|other| agrees_with(field, other))
}

// Whether a field agrees with the values of each of these descriptions.
fn agrees_with_described(field: &Field, described: &[Description]) -> bool
    ensures { result ≡ list_all (λ d. list_all (agrees_with field.now) d.values.items) described.now }
{
    described.iter().all(|description| agrees_with_all(field, description.values.as_slice()))
}

/// Whether each of these fields is of the same sort as those of the descriptions that have its name: decimals, whole numbers or texts.
pub(crate) fn are_of_one_sort(described: &[Description], fields: &[Field]) -> bool
    ensures { result ≡ are_of_one_sort described.now fields.now }
{
    fields
        .iter()
        .all(|field| agrees_with_described(field, described))
}

/// How many of these fields are new columns that `columns` lack.
pub(crate) fn count_fresh(columns: &[FieldName], fields: &[Field]) -> usize
    ensures is { result ≡ length (fresh_names columns.now fields.now) }
    ensures few { result ≤ length fields.now }
{
    let mut count = 0;
    for field in fields {
        if is_fresh(columns, field.name.as_slice()) {
            count += 1;
        }
    }
    count
}

// A copy of a name.
fn copied(name: &FieldName) -> FieldName
    ensures { result ≡ name.now }
{
    let mut copied = ArrayVec::new();
    append(&mut copied, name.as_slice());
    copied
}

/// Appends the names of those fields, at most 16, that are new columns, and that `columns` lack. Fails if memory was refused: then none was
/// appended.
pub(crate) fn append_fresh(columns: &mut Vec<FieldName>, fields: &[Field]) -> Result<(), AllocError>
    requires { length fields.now ≤ 16 }
    ensures appends { OnOk result (columns.new.items
        ≡ columns.old.items ++ fresh_names columns.old.items fields.now) }
    ensures wants { OnErr result (vec_capacity columns.old < vec_len columns.old + 16) }
{
    columns.reserve(MOST_ITEMS)?;
    let before = columns.len();
    for field in fields {
        if is_fresh(&columns.as_slice()[..before], field.name.as_slice()) {
            columns.push_reserved(copied(&field.name));
        }
    }
    Ok(())
}
