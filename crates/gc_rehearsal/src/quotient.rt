//! Quotients of counts.

/// `number` divided by `divisor`, cut off to a whole number; 0 if the divisor is 0.
pub(crate) fn quotient(number: u64, divisor: u64) -> u64 {
    number.checked_div(divisor).unwrap_or(0)
}
