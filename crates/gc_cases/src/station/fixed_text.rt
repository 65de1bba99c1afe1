//! Bytes and numbers, appended to a text that has room for a fixed number of bytes.

use arrayvec::ArrayVec;

/// Appends these bytes, if there is room for all of them; otherwise none.
pub fn note<const N: usize>(text: &mut ArrayVec<u8, N>, bytes: &[u8]) {
    let _ = text.try_extend_from_slice(bytes);
}

/// Appends a number in decimal digits, if there is room for all of them; otherwise none.
pub fn note_number<const N: usize>(text: &mut ArrayVec<u8, N>, n: u64) {
    let mut digits = itoa::Buffer::new();
    note(text, digits.format(n).as_bytes());
}
