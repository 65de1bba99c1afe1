//! Whole numbers, with a sign or without one: any number of digits is read, and the range is looked
//! at afterwards, so that leading zeros never matter. The ranges are those of the GeoCOM manual's
//! types. That signs and leading zeros are read is this project's own.

ghost use Rattle.std.specs.Prelude.{◌≡◌, ◌⊎◌, ◌+◌, ◌<◌, ◌≤◌, ◌^◌, ◌++◌, ℕ, ℤ, pos, ◌∷◌, [], Bool, IfOk, IfErr, length};
ghost use Rattle.gc_values.specs.Whole.{NamesNumber, IsNumberFault, NamesWhole, IsBetween, IsWholeFault, FitsLong, FitsShort, signed_text};
ghost use Rattle.arrayvec.specs.ArrayVec.{array_vec_len};
ghost use Rattle.gc_values.specs.Boolean.{NamesBoolean, boolean_text};

use crate::cutting::cut_sign;
use crate::fault::ValueFault;
use crate::tail::Tail;
use arrayvec::ArrayVec;

/// Reads one or more digits, without a sign, as a number of at most `max`. Anything else is refused
/// as `Spelling`, and a greater number as `Range`.
pub fn read_whole(item: &[u8], max: u64) -> Result<u64, ValueFault>
    ensures value { IfOk result (λ n. NamesNumber item.now n × (n ≤ max)) }
    ensures only { (n : ℕ) → NamesNumber item.now n → n ≤ max → result ≡ Ok n }
    ensures fault { IfErr result (λ e. IsNumberFault max item.now e) }
{
    if item.is_empty() {
        return Err(ValueFault::Spelling);
    }
    // In place of every number above `max` this one is computed, so that no run of digits overflows.
    let above = u128::from(max) + 1;
    let mut value = 0;
    for byte in item {
        if !byte.is_ascii_digit() {
            return Err(ValueFault::Spelling);
        }
        value = (value * 10 + u128::from(*byte - b'0')).min(above);
    }
    if value == above {
        return Err(ValueFault::Range);
    }
    Ok(value as u64)
}

/// Reads an optional sign and one or more digits as a number from `-below` to `above`. What doesn't
/// have this form is refused as `Spelling`, and any other number as `Range`.
fn read_between(item: &[u8], below: u32, above: u32) -> Result<i64, ValueFault>
    ensures value { IfOk result (λ z. NamesWhole item.now z × IsBetween below above z) }
    ensures only { (z : ℤ) → NamesWhole item.now z → IsBetween below above z → result ≡ Ok z }
    ensures fault { IfErr result (λ e. IsWholeFault below above item.now e) }
{
    let (negative, digits) = cut_sign(item);
    let most = if negative { below } else { above };
    let magnitude = read_whole(digits, u64::from(most))? as i64;
    Ok(if negative { -magnitude } else { magnitude })
}

/// Reads a Long: an optional sign and one or more digits, from -2147483648 to 2147483647. What
/// doesn't have this form is refused as `Spelling`, and any other number as `Range`.
pub fn read_long(item: &[u8]) -> Result<i32, ValueFault>
    ensures value { IfOk result (λ z. NamesWhole item.now z × FitsLong z) }
    ensures only { (z : ℤ) → NamesWhole item.now z → FitsLong z → result ≡ Ok z }
    ensures fault { IfErr result (λ e. IsWholeFault 2147483648 2147483647 item.now e) }
{
    Ok(read_between(item, 2_147_483_648, 2_147_483_647)? as i32)
}

/// Reads a Short: an optional sign and one or more digits, from -32768 to 32767. What doesn't
/// have this form is refused as `Spelling`, and any other number as `Range`.
pub fn read_short(item: &[u8]) -> Result<i16, ValueFault>
    ensures value { IfOk result (λ z. NamesWhole item.now z × FitsShort z) }
    ensures only { (z : ℤ) → NamesWhole item.now z → FitsShort z → result ≡ Ok z }
    ensures fault { IfErr result (λ e. IsWholeFault 32768 32767 item.now e) }
{
    Ok(read_between(item, 32_768, 32_767)? as i16)
}

/// Reads a Boolean: an optional sign and one or more digits, of the value 0 or 1. What doesn't
/// have this form is refused as `Spelling`, and any other number as `Range`.
pub fn read_bool(item: &[u8]) -> Result<bool, ValueFault>
    ensures value { IfOk result (λ b. NamesBoolean item.now b) }
    ensures only { (b : Bool) → NamesBoolean item.now b → result ≡ Ok b }
    ensures fault { IfErr result (λ e. IsWholeFault 0 1 item.now e) }
{
    Ok(read_between(item, 0, 1)? == 1)
}

/// Writes a whole number into an empty `tail`: a minus where it is below zero, and digits without leading zeros.
fn put_signed(tail: &mut Tail, v: i32)
    requires { tail.old ≡ [] }
    ensures { tail.new ≡ signed_text v }
{
    tail.put_whole(u64::from(v.unsigned_abs()));
    if v < 0 {
        tail.put(b'-');
    }
}

/// Appends a whole number: a minus where it is below zero, and digits without leading zeros.
#[inline(always)]
fn push_signed<const N: usize>(out: &mut ArrayVec<u8, N>, v: i32)
    requires room { array_vec_len out.old + length (signed_text v) ≤ N }
    ensures { out.new.items ≡ out.old.items ++ signed_text v }
{
    let mut tail = Tail::new();
    put_signed(&mut tail, v);
    // The caller has shown that there is room, so this never fails.
    let _ = out.try_extend_from_slice(tail.as_bytes());
}

/// Appends a Long, as [`write_long`] writes it: at most 11 bytes.
pub fn push_long<const N: usize>(out: &mut ArrayVec<u8, N>, v: i32)
    requires room { array_vec_len out.old + 11 ≤ N }
    ensures items { out.new.items ≡ out.old.items ++ signed_text v }
    ensures len { array_vec_len out.new ≤ array_vec_len out.old + 11 }
{
    push_signed(out, v);
}

/// Appends a Short, as [`write_short`] writes it: at most 6 bytes.
pub fn push_short<const N: usize>(out: &mut ArrayVec<u8, N>, v: i16)
    requires room { array_vec_len out.old + 6 ≤ N }
    ensures items { out.new.items ≡ out.old.items ++ signed_text v }
    ensures len { array_vec_len out.new ≤ array_vec_len out.old + 6 }
{
    push_signed(out, i32::from(v));
}

/// Appends a Boolean: `0` or `1`.
pub fn push_bool<const N: usize>(out: &mut ArrayVec<u8, N>, v: bool)
    requires room { array_vec_len out.old + 1 ≤ N }
    ensures items { out.new.items ≡ out.old.items ++ boolean_text v }
    ensures len { array_vec_len out.new ≡ array_vec_len out.old + 1 }
{
    out.push(if v { b'1' } else { b'0' });
}

/// Writes a Long: a minus where it is below zero, and digits without leading zeros.
pub fn write_long(v: i32) -> ArrayVec<u8, 11>
    ensures text { result.items ≡ signed_text v }
    ensures reads_back { NamesWhole result.items v }
{
    let mut out = ArrayVec::new();
    push_long(&mut out, v);
    out
}

/// Writes a Short: a minus where it is below zero, and digits without leading zeros.
pub fn write_short(v: i16) -> ArrayVec<u8, 6>
    ensures text { result.items ≡ signed_text v }
    ensures reads_back { NamesWhole result.items v }
{
    let mut out = ArrayVec::new();
    push_short(&mut out, v);
    out
}

/// Writes a Boolean: `0` or `1`.
pub fn write_bool(v: bool) -> ArrayVec<u8, 1>
    ensures text { result.items ≡ boolean_text v }
    ensures reads_back { NamesBoolean result.items v }
{
    let mut out = ArrayVec::new();
    push_bool(&mut out, v);
    out
}
