//! The limits of a decimal, which are this project's own, and how many digits are read in 64 bits.

/// A decimal's greatest absolute value, 10^13. It is inclusive, so that rounding never leaves the range.
pub const BOUND: u128 = 10_000_000_000_000;

/// A decimal's greatest number of places.
pub const PLACES: u8 = 24;

/// Any number of this many digits fits in 64 bits.
pub const DIGITS_IN_64_BITS: usize = 18;
