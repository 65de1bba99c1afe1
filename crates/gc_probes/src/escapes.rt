//! Bytes as a value of a case spells them: each byte as itself, or with a backslash, as `\n` and `\x0a`.

use std::alloc::{AllocError, Global};

/// The bytes that a value stands for. `Err`: memory ran out.
pub fn bytes_of(alloc: Global, value: &str) -> Result<Vec<u8>, AllocError> {
    let mut bytes = Vec::new(alloc);
    push_bytes_of(&mut bytes, value)?;
    Ok(bytes)
}

/// Appends the bytes that a value stands for. `Err`: memory ran out, and some of them may be appended.
pub fn push_bytes_of(bytes: &mut Vec<u8>, value: &str) -> Result<(), AllocError> {
    let mut rest = value.as_bytes();
    // A value stands for no more bytes than it has.
    for _ in 0..value.len() {
        let Some((byte, behind)) = next_byte(rest) else {
            break;
        };
        bytes.push(byte)?;
        rest = behind;
    }
    Ok(())
}

/// Whether a value stands for these bytes.
pub fn spells(value: &str, bytes: &[u8]) -> bool {
    let mut rest = value.as_bytes();
    for byte in bytes {
        match next_byte(rest) {
            Some((next, behind)) if next == *byte => rest = behind,
            _ => return false,
        }
    }
    rest.is_empty()
}

// The first byte that a value stands for, and the rest of the value. `None`: the value is empty.
fn next_byte(value: &[u8]) -> Option<(u8, &[u8])> {
    let (byte, behind) = value.split_first()?;
    if *byte == b'\\' {
        return Some(escape_of(behind));
    }
    Some((*byte, behind))
}

// The byte that a backslash and the text `rest` after it stand for, and the text after that: `n`, `r` and `t` stand for LF, CR
// and a tab, `x` and two hexadecimal digits for the byte that these write, any other byte, also an `x` without two such digits
// after it, for itself, and a backslash at the end of the text for itself.
fn escape_of(rest: &[u8]) -> (u8, &[u8]) {
    if let Some(written) = hex_escape_of(rest) {
        return written;
    }
    match rest {
        [b'n', behind @ ..] => (b'\n', behind),
        [b'r', behind @ ..] => (b'\r', behind),
        [b't', behind @ ..] => (b'\t', behind),
        [other, behind @ ..] => (*other, behind),
        [] => (b'\\', rest),
    }
}

// The byte that an `x` and the two hexadecimal digits after it write, and the text after these. `None`: the text doesn't begin
// so.
fn hex_escape_of(rest: &[u8]) -> Option<(u8, &[u8])> {
    let [b'x', high, low, behind @ ..] = rest else {
        return None;
    };
    let high = char::from(*high).to_digit(16)?;
    let low = char::from(*low).to_digit(16)?;
    let byte = u8::try_from(high.wrapping_mul(16).wrapping_add(low)).ok()?;
    Some((byte, behind))
}
