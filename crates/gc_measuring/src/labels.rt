//! Labels: what a station's text says that its rows show, beside what was asked and answered.

ghost use Rattle.std.specs.Prelude.{◌≤◌, length};

use gc_texts::{Description, FieldName, Name};

/// What a station's text says of its rows: the names of targets, what procedures are that aren't in the table, and the columns that these
/// have beside those of the table's quantities.
#[derive(Drop)]
pub struct Labels {
    /// The names of targets.
    pub names: Vec<Name>,
    /// The descriptions of procedures that aren't in the table.
    pub described: Vec<Description>,
    /// The names of the columns that the descriptions add, at most 64.
    pub columns: Vec<FieldName>,
    pub ghost few: { length columns.items ≤ 64 },
}
