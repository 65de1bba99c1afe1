//! Byte parameters: two hexadecimal digits between single quotes, as in the GeoCOM manual. That
//! both cases are read and lower case is written is this project's own.

ghost use Rattle.std.specs.Prelude.{◌≡◌, ◌+◌, ◌≤◌, ◌++◌, ◌∷◌, [], ℕ, List, IfOk, IfErr, IfSome, IfNone, IsSomeAnd, MatchResult};
ghost use Rattle.arrayvec.specs.ArrayVec.{array_vec_len};
ghost use Rattle.hex.specs.Hex.{decode_sized, encode_lower};
ghost use Rattle.gc_values.specs.Byte.{IsByte, IsNoByte, byte_text};

use crate::fault::ValueFault;
use arrayvec::ArrayVec;
use hex::{decode_to_slice, encode_to_slice};

/// The byte that two hexadecimal digits, of either case, write. `None`: the bytes aren't two hexadecimal digits.
fn hex_byte(digits: &[u8]) -> Option<u8>
    ensures { MatchResult (decode_sized digits.now 1)
        (λ bytes. IsSomeAnd result (λ b. bytes ≡ b ∷ []))
        (λ _. result ≡ None) }
{
    let mut out = [0u8; 1];
    match decode_to_slice(digits, &mut out) {
        Ok(()) => Some(out[0]),
        Err(_) => None,
    }
}

/// The two bytes that are between single quotes. `None`: the item isn't two bytes between two single quotes.
fn pair_between_quotes(item: &[u8]) -> Option<(u8, u8)>
    ensures found { IfSome result (λ d. item.now ≡ 39 ∷ d.0 ∷ d.1 ∷ 39 ∷ []) }
    ensures none { IfNone result ((a b : ℕ) → item.now ≡ 39 ∷ a ∷ b ∷ 39 ∷ [] → ⊥) }
{
    match item {
        [b'\'', a, b, b'\''] => Some((*a, *b)),
        _ => None,
    }
}

/// Reads two hexadecimal digits, of either case, between single quotes. Anything else is refused as
/// `Spelling`.
pub fn read_byte(item: &[u8]) -> Result<u8, ValueFault>
    ensures value { IfOk result (λ n. IsByte item.now n) }
    ensures only { (n : ℕ) → IsByte item.now n → result ≡ Ok n }
    ensures fault { IfErr result (λ e. (e ≡ ValueFault.Spelling) × IsNoByte item.now) }
{
    let Some((a, b)) = pair_between_quotes(item) else {
        return Err(ValueFault::Spelling);
    };
    match hex_byte(&[a, b]) {
        Some(byte) => Ok(byte),
        None => Err(ValueFault::Spelling),
    }
}

/// Appends a byte as two hexadecimal digits in lower case between single quotes: 4 bytes.
pub fn push_byte<const N: usize>(out: &mut ArrayVec<u8, N>, v: u8)
    requires room { array_vec_len out.old + 4 ≤ N }
    ensures items { out.new.items ≡ out.old.items ++ byte_text v }
    ensures len { array_vec_len out.new ≡ array_vec_len out.old + 4 }
{
    let mut digits = [0u8; 2];
    // Two places hold the digits of one byte, and the caller has shown that there is room, so neither call fails.
    let _ = encode_to_slice([v], &mut digits);
    let _ = out.try_extend_from_slice(&[b'\'', digits[0], digits[1], b'\'']);
}

/// Writes a byte as two hexadecimal digits in lower case between single quotes.
pub fn write_byte(v: u8) -> ArrayVec<u8, 4>
    ensures text { result.items ≡ byte_text v }
    ensures reads_back { IsByte result.items v }
{
    let mut out = ArrayVec::new();
    push_byte(&mut out, v);
    out
}
