//! Strings of at most 64 bytes: what may come between the double quotes, and how an item is read as one. The form is the
//! GeoCOM manual's; the limit, and that a backslash is a plain byte, are this project's own.

ghost use Rattle.std.specs.Prelude.{◌≡◌, ◌↔◌, ◌+◌, ◌≤◌, ◌++◌, List, [], ℕ, IfOk, IfErr, IfSome, IfNone, IsTrue};
ghost use Rattle.arrayvec.specs.ArrayVec.{array_vec_len};
ghost use Rattle.gc_values.specs.Text.{IsStringByte, AreStringBytes, AreTooLong, IsText, quoted, IsTextItem, IsNoString, IsLongString};
ghost use Rattle.gc_values.specs.ValueFault.{IsEither};

use crate::fault::ValueFault;
use crate::filling::filled_up;
use arrayvec::ArrayVec;
use std::marker::Model;

/// The greatest number of bytes of a string parameter.
pub const TEXT_BYTES: usize = 64;

/// The bytes of a string parameter: at most 64, none of them a double quote, CR or LF. The unused
/// bytes are zero.
#[derive(Clone, Copy, Debug, PartialEq, Eq)]
pub struct Text {
    bytes: [u8; TEXT_BYTES],
    // How many bytes are used, from the first on.
    len: u8,
}

impl Model for Text {
    ghost use Rattle.std.specs.Prelude.{◌++◌, ◌-◌, length, take, replicate, List, ℕ};

    ghost Value = { List ℕ };

    ghost use Rattle.gc_values.specs.Padding.{IsZeroPadded, padded_back};

    ghost view = { λ t. take t.len t.bytes };

    ghost invariant = { IsZeroPadded };

    ghost inverse = { λ bs. record { bytes = bs ++ replicate (64 - length bs) 0; len = length bs } };

    ghost inverse_ok = { padded_back };
}

/// Whether a byte is allowed in a string: neither a double quote nor CR nor LF.
fn is_string_byte(byte: u8) -> bool
    ensures { IsTrue result ↔ IsStringByte byte }
{
    byte != b'"' && byte != b'\r' && byte != b'\n'
}

/// Whether all the bytes are allowed in a string.
fn are_string_bytes(bytes: &[u8]) -> bool
    ensures { IsTrue result ↔ AreStringBytes bytes.now }
{
    bytes.iter().all(|byte| is_string_byte(*byte))
}

impl Text {
    /// A text without bytes.
    pub fn empty() -> Text
        ensures { result ≡ [] }
    {
        Text {
            bytes: [0; TEXT_BYTES],
            len: 0,
        }
    }

    /// The text of these bytes. It is refused as `Spelling` where a double quote, CR or LF is among
    /// them, and else as `Range` where they are more than 64.
    pub fn new(bytes: &[u8]) -> Result<Text, ValueFault>
        ensures value { IfOk result (λ t. (t ≡ bytes.now) × IsText t) }
        ensures only { IsText bytes.now → result ≡ Ok bytes.now }
        ensures spelling { (result ≡ Err ValueFault.Spelling) ↔ (AreStringBytes bytes.now → ⊥) }
        ensures range { (result ≡ Err ValueFault.Range) ↔ AreTooLong bytes.now }
        ensures faults { IfErr result (λ e. IsEither ValueFault.Spelling ValueFault.Range e) }
    {
        if !are_string_bytes(bytes) {
            return Err(ValueFault::Spelling);
        }
        if bytes.len() > TEXT_BYTES {
            return Err(ValueFault::Range);
        }
        Ok(Text {
            bytes: filled_up(bytes),
            len: bytes.len() as u8,
        })
    }

    /// The bytes, without the unused ones.
    pub fn as_bytes(&self) -> &[u8]
        ensures bytes { result.now ≡ self.now }
        ensures text { IsText self.now }
    {
        &self.bytes[..self.len as usize]
    }
}

/// The bytes between two double quotes. `None`: the item doesn't begin with a double quote and end with another.
fn between_quotes(item: &[u8]) -> Option<&[u8]>
    ensures found { IfSome result (λ bytes. item.now ≡ quoted bytes.now) }
    ensures none { IfNone result ((bytes : List ℕ) → item.now ≡ quoted bytes → ⊥) }
{
    match item {
        [b'"', bytes @ .., b'"'] => Some(bytes),
        _ => None,
    }
}

/// Reads a string: bytes other than `"`, CR and LF between double quotes. Anything else is refused
/// as `Spelling`, and more than 64 bytes between the quotes as `Range`.
pub fn read_text(item: &[u8]) -> Result<Text, ValueFault>
    ensures value { IfOk result (λ bytes. IsTextItem item.now bytes) }
    ensures only { (bytes : List ℕ) → IsTextItem item.now bytes → result ≡ Ok bytes }
    ensures spelling { (result ≡ Err ValueFault.Spelling) ↔ IsNoString item.now }
    ensures range { (result ≡ Err ValueFault.Range) ↔ IsLongString item.now }
    ensures faults { IfErr result (λ e. IsEither ValueFault.Spelling ValueFault.Range e) }
{
    match between_quotes(item) {
        Some(bytes) => Text::new(bytes),
        None => Err(ValueFault::Spelling),
    }
}

/// Appends a string between double quotes: at most 66 bytes with these.
pub fn push_text<const N: usize>(out: &mut ArrayVec<u8, N>, v: &Text)
    requires room { array_vec_len out.old + 66 ≤ N }
    ensures items { out.new.items ≡ out.old.items ++ quoted v.now }
    ensures text { IsText v.now }
    ensures len { array_vec_len out.new ≤ array_vec_len out.old + 66 }
{
    out.push(b'"');
    // The caller has shown that there is room, so this never fails.
    let _ = out.try_extend_from_slice(v.as_bytes());
    out.push(b'"');
}

/// Writes a string between double quotes.
pub fn write_text(v: &Text) -> ArrayVec<u8, 66>
    ensures text { result.items ≡ quoted v.now }
    ensures reads_back { IsTextItem result.items v.now }
{
    let mut out = ArrayVec::new();
    push_text(&mut out, v);
    out
}
