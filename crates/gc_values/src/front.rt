//! Reads a number at the front of a list of parameters, and its comma, in one pass. Only the shortest form is read: at most 18
//! digits without a sign, and for a decimal a point among or after them. Every other spelling is left to other readers.

ghost use Rattle.std.specs.Prelude.{◌≡◌, ◌+◌, ◌*◌, ◌^◌, ◌≤◌, [], IfSome};
ghost use Rattle.std.specs.Option.{option_copied};
ghost use Rattle.gc_values.specs.Plainly.{CountsDigits, CutsDecimal, CutsNumber, IsItemAndRest};

use crate::decimal::Decimal;
use crate::limits::DIGITS_IN_64_BITS;

/// Any number with this many digits before the point is in a decimal's range.
const WHOLE_DIGITS: usize = 13;

/// Reads on in a number whose digits so far write `front`: takes the digits at the front of `text`, at most `most` of them. It returns
/// the number that the digits so far and these write together, and how many digits it took.
#[inline]
fn front_digits(front: u64, text: &[u8], most: usize) -> (u64, usize)
    requires { (front + 1) * 10 ^ most ≤ 10 ^ 18 }
    ensures { CountsDigits front text.now most result.0 result.1 }
{
    let mut value = front;
    for (i, byte) in text.iter().enumerate() {
        if i == most || !byte.is_ascii_digit() {
            return (value, i);
        }
        value = value * 10 + u64::from(*byte - b'0');
    }
    (value, text.len())
}

/// What was read of an item, and what follows the item's comma, if there is one; `text` is all of the list after the item.
/// `None`: neither the end of the list nor a comma follows the item.
#[inline]
fn with_rest<T: Copy>(item: T, text: &[u8]) -> Option<(T, Option<&[u8]>)>
    ensures { IfSome result (λ r. (r.0 ≡ item) × IsItemAndRest text.now [] (option_copied r.1)) }
{
    match text {
        [] => Some((item, None)),
        [b',', rest @ ..] => Some((item, Some(rest))),
        _ => None,
    }
}

/// The decimal at the front, and what follows its comma, if there is one. `None`: the text doesn't begin with 1 to 13 digits, a
/// point, and any digits after it, at most 18 digits in all, with a comma or the end of the text after them.
pub fn front_decimal(text: &[u8]) -> Option<(Decimal, Option<&[u8]>)>
    ensures { IfSome result (λ r. CutsDecimal text.now r.0 (option_copied r.1)) }
{
    let (whole, at) = front_digits(0, text, WHOLE_DIGITS);
    if at == 0 || at >= text.len() || text[at] != b'.' {
        return None;
    }
    let behind = &text[at + 1..];
    let (value, places) = front_digits(whole, behind, DIGITS_IN_64_BITS - at);
    let decimal = Decimal::from_parts(false, u128::from(value), places as u8);
    with_rest(decimal, &behind[places..])
}

/// The whole number at the front, and what follows its comma, if there is one. `None`: the text doesn't begin with 1 to 18 digits,
/// with a comma or the end of the text after them.
#[inline]
pub fn front_number(text: &[u8]) -> Option<(u64, Option<&[u8]>)>
    ensures { IfSome result (λ r. CutsNumber text.now r.0 (option_copied r.1)) }
{
    let (number, count) = front_digits(0, text, DIGITS_IN_64_BITS);
    if count == 0 {
        return None;
    }
    with_rest(number, &text[count..])
}
