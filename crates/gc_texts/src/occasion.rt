//! The occasion of a request: what it may take from the moment at which it is sent.

use gc_values::FileValues;

/// What a request may take from the moment at which it is sent.
#[derive(Clone, Copy)]
pub struct Occasion {
    /// The time of day, in milliseconds since 1970-01-01, UTC.
    pub utc: u64,
    /// The values of the text's files by then.
    pub values: FileValues,
}
