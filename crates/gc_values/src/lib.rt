//! Decimals, typed parameters and parameter lists.
#![tactic(auto)]

mod appending;
mod byte;
mod cutting;
mod decimal;
pub mod decimal_laws;
mod direction;
mod fault;
mod file_value;
mod filling;
mod front;
mod items;
pub mod laws;
mod limits;
mod numeral;
mod parameters;
mod power;
mod quick;
mod tail;
mod text;
mod units;
mod value;
mod whole;

pub use appending::{push_decimal, push_rounded};
pub use byte::{push_byte, read_byte, write_byte};
pub use decimal::Decimal;
pub use direction::{Direction, is_tolerance};
pub use fault::ValueFault;
pub use file_value::{
    FILE_VALUES, FileValues, KEPT_BYTES, PATH_BYTES, VALUE_BYTES, ValueFile, no_values, value_in,
    value_text,
};
pub use filling::filled_up;
pub use items::{Items, MOST_ITEMS, split};
pub use limits::{BOUND, PLACES};
pub use parameters::{Listed, Parameters};
pub use quick::Quick;
pub use text::{TEXT_BYTES, Text, push_text, read_text, write_text};
pub use value::{Kind, Value};
pub use whole::{
    push_bool, push_long, push_short, read_bool, read_long, read_short, read_whole, write_bool,
    write_long, write_short,
};
