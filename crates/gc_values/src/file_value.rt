//! Values of files: a number that another program keeps in a file, and how old it may be. Which bytes of a file are such a value, and
//! until when, is this project's own.

ghost use Rattle.std.specs.Prelude.{◌≡◌, ◌≤◌, ℕ, List, length, false, IfSome, IfNone};
ghost use Rattle.std.specs.List.{list_any};
ghost use Rattle.gc_values.specs.FileValues.{are_fresh, has_path, is_foreign, no_values, value_text, without_cr, IsLineOf, IsValueIn};

use crate::decimal::Decimal;
use crate::filling::filled_up;

/// The most bytes of a value's text. The written form of a decimal has at most 39.
pub const VALUE_BYTES: usize = 40;

/// The most values of files that a station's text may ask for.
pub const FILE_VALUES: usize = 16;

/// The most bytes of the path of a value's file.
pub const PATH_BYTES: usize = 128;

/// The most bytes that a file with a value may have, its line feed included.
pub const KEPT_BYTES: usize = 64;

/// The texts of values by one moment, in the order in which a station's text asks for them: each the written form of a decimal, with zeros
/// behind it; zeros alone if its file gave none.
pub type FileValues = [[u8; VALUE_BYTES]; FILE_VALUES];

/// The texts of values of which no file gave one.
pub fn no_values() -> FileValues
    ensures { result ≡ no_values }
{
    [[0; VALUE_BYTES]; FILE_VALUES]
}

// The bytes before the first zero; all of them if there is none.
fn before_zero(bytes: &[u8]) -> &[u8]
    ensures is { result.now ≡ value_text bytes.now }
    ensures short { length result.now ≤ length bytes.now }
{
    for (n, byte) in bytes.iter().enumerate() {
        if *byte == 0 {
            return &bytes[..n];
        }
    }
    bytes
}

/// The text of a value, without the zeros behind it; empty if the file gave none.
pub fn value_text(value: &[u8; VALUE_BYTES]) -> &[u8]
    ensures is { result.now ≡ value_text value.now }
    ensures short { length result.now ≤ 40 }
{
    before_zero(value)
}

/// A file that has a value, and how old it may be.
#[derive(Clone, Copy)]
pub struct ValueFile {
    // The path, and zeros in the places after it.
    bytes: [u8; PATH_BYTES],
    /// How many seconds may lie between its last change and the moment at which its value is taken.
    pub seconds: u64,
}

/// The file in the unused places of a list: one without a path.
impl Default for ValueFile {
    ghost use Rattle.std.specs.Prelude.{◌≡◌, replicate};

    ghost is_default = { λ file. (file.bytes ≡ replicate 128 0) × (file.seconds ≡ 0) };

    fn default() -> ValueFile {
        ValueFile {
            bytes: [0; PATH_BYTES],
            seconds: 0,
        }
    }
}

// Whether a byte may not be in the path of a value's file: it isn't printable ASCII, or is a space, a comma, a double quote or a brace.
fn is_foreign(byte: u8) -> bool
    ensures { result ≡ is_foreign byte }
{
    byte <= 32 || byte > 126 || matches!(byte, b',' | b'"' | b'{' | b'}')
}

// Whether a text has a byte that may not be in such a path.
fn has_foreign_byte(text: &[u8]) -> bool
    ensures { result ≡ list_any is_foreign text.now }
{
    text.iter().any(|byte| is_foreign(*byte))
}

// Whether a text may be such a path: 1 to 128 bytes, none of them foreign.
fn has_path(text: &[u8]) -> bool
    ensures { result ≡ has_path text.now }
{
    !text.is_empty() && text.len() <= PATH_BYTES && !has_foreign_byte(text)
}

impl ValueFile {
    ghost use Rattle.gc_values.specs.FileValues.{IsFileAt, path_of};

    /// The file at this path whose value may be so old. `None`: the text may not be its path.
    pub fn new(path: &[u8], seconds: u64) -> Option<ValueFile>
        ensures found { IfSome result (λ file. IsFileAt path.now seconds file) }
        ensures none { IfNone result (has_path path.now ≡ false) }
    {
        if !has_path(path) {
            return None;
        }
        Some(ValueFile {
            bytes: filled_up(path),
            seconds,
        })
    }

    /// The path of the file.
    pub fn path(&self) -> &[u8]
        ensures is { result.now ≡ path_of self.now }
        ensures short { length result.now ≤ 128 }
    {
        before_zero(&self.bytes)
    }
}

// Whether a file that was changed last at the moment `changed` has a value at the moment `now`, both in milliseconds since 1970: they are
// at most so many seconds apart. A file of the future, as after a change of the clock, counts as one of the past.
fn are_fresh(changed: u64, now: u64, seconds: u64) -> bool
    ensures { result ≡ are_fresh changed now seconds }
{
    changed.abs_diff(now) <= seconds.saturating_mul(1000)
}

// The text without one CR at its end, if it has one.
fn without_cr(text: &[u8]) -> &[u8]
    ensures { result.now ≡ without_cr text.now }
{
    let Some((last, front)) = text.split_last() else {
        return text;
    };
    if *last != b'\r' {
        return text;
    }
    front
}

// The line that a file's bytes are, which ends in a line feed, without it and without one CR before it. `None`: they are no such line, as
// while they are being written.
fn line_in(bytes: &[u8]) -> Option<&[u8]>
    ensures found { IfSome result (λ line. IsLineOf bytes.now line.now) }
    ensures none { IfNone result ((line : List ℕ) → IsLineOf bytes.now line → ⊥) }
{
    let (last, line) = bytes.split_last()?;
    if *last != b'\n' {
        return None;
    }
    Some(without_cr(line))
}

/// The value of a file with these bytes that was changed last at the moment `changed`, taken at the moment `now`, both in milliseconds
/// since 1970: the written form of the number of its one line, if that reads as one (`Decimal::read`) and the file isn't older than
/// `seconds`. Zeros alone: it isn't so.
pub fn value_in(bytes: &[u8], changed: u64, now: u64, seconds: u64) -> [u8; VALUE_BYTES]
    ensures { IsValueIn bytes.now changed now seconds result }
{
    if !are_fresh(changed, now, seconds) {
        return [0; VALUE_BYTES];
    }
    let Some(line) = line_in(bytes) else {
        return [0; VALUE_BYTES];
    };
    match Decimal::read(line) {
        Ok(number) => filled_up(&number.write()),
        Err(_) => [0; VALUE_BYTES],
    }
}
