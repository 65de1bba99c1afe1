//! The bytes that a case gives a player as input.

use crate::case::Case;
use crate::escapes::push_bytes_of;
use std::alloc::{AllocError, Global};

/// A case's input: the bytes under `front`, those under `input` as many times as the number under `times` says (once where no
/// number of 64 bits is there), and those under `behind`; none for a key that the case doesn't have. `Err`: memory ran out.
pub fn input_of(alloc: Global, case: &Case<'_>) -> Result<Vec<u8>, AllocError> {
    let mut input = Vec::new(alloc);
    push_input(case, &mut input)?;
    Ok(input)
}

// Appends a case's input, as `input_of` says.
fn push_input(case: &Case<'_>, input: &mut Vec<u8>) -> Result<(), AllocError> {
    push_bytes_of(input, case.value("front"))?;
    for _ in 0..case.number("times", 1u64) {
        push_bytes_of(input, case.value("input"))?;
    }
    push_bytes_of(input, case.value("behind"))
}
