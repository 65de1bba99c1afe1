//! The rows that a station writes: each record as a line, as comma-separated values, or as a line of JSON.
#![tactic(auto)]

mod cell;
mod column;
mod counted;
mod described;
mod json_line;
pub mod laws;
mod quantity;
mod record;
mod row;
mod when;

pub use column::{COLUMNS, Column, Kind};
pub use record::{EndedCommand, Form, Head, head, sign, write_head, write_record};
pub use when::When;
