//! A number's text is cut into its parts from the left: a sign, digits, a point with digits after it, an exponent. The longest run
//! of digits is cut off each time, so there is one way to cut.

ghost use Rattle.std.specs.Prelude.{◌≡◌, ℕ, ◌+◌, ◌≤◌, ◌++◌, ◌∷◌, Bool, List, length, Option, IfSome, IfNone};
ghost use Rattle.gc_values.specs.Cut.{CutsDigits, CutsSign, StartsNoDigit, StartsNoPoint, ReadsExponent, ReadsNumeral, StartsNoMark, CutsFraction};
ghost use Rattle.gc_values.specs.Digits.{number};
ghost use Rattle.gc_values.specs.Spelling.{Exponent, IsExponent, IsExponentDigits, Parts, IsNumeral, exponent_text, mark, spelling};

use crate::numeral::Numeral;

/// Cuts a number's text into its parts. `None`: the text hasn't the form that [`Decimal::read`](crate::Decimal::read) takes.
pub fn cut_numeral(text: &[u8]) -> Option<Numeral<'_>>
    ensures found { IfSome result (λ n. ReadsNumeral text.now n) }
    ensures none { IfNone result ((p : Parts) → IsNumeral p → text.now ≡ spelling p → ⊥) }
{
    let (negative, rest) = cut_sign(text);
    let (whole, rest) = cut_digits(rest);
    let (fraction, rest) = cut_fraction(rest);
    if whole.is_empty() && fraction.is_empty() {
        return None;
    }
    let (up, down) = exponent(rest)?;
    Some(Numeral {
        negative,
        whole,
        fraction,
        up,
        down,
    })
}

/// Cuts the longest run of digits off the front, and returns it, which may be empty, and the rest.
fn cut_digits(text: &[u8]) -> (&[u8], &[u8])
    ensures { CutsDigits text.now result.0.now result.1.now }
{
    for (i, byte) in text.iter().enumerate() {
        if !byte.is_ascii_digit() {
            return text.split_at(i);
        }
    }
    (text, &[])
}

/// Cuts off a sign, if one comes first. It returns whether a minus was cut off, and the rest.
pub fn cut_sign(text: &[u8]) -> (bool, &[u8])
    ensures { CutsSign text.now result.0 result.1.now }
{
    match text {
        [b'+', rest @ ..] => (false, rest),
        [b'-', rest @ ..] => (true, rest),
        _ => (false, text),
    }
}

/// Cuts off `E` or `e`, and returns the rest. `None`: neither comes first.
fn cut_mark(text: &[u8]) -> Option<&[u8]>
    ensures found { IfSome result (λ rest. (capital : Bool) × (text.now ≡ mark capital ∷ rest.now)) }
    ensures none { IfNone result (StartsNoMark text.now) }
{
    match text {
        [b'e', rest @ ..] => Some(rest),
        [b'E', rest @ ..] => Some(rest),
        _ => None,
    }
}

/// The number that an exponent's digits write, of which there are one to three. `None`: the text is something else.
fn exponent_number(text: &[u8]) -> Option<u16>
    ensures found { IfSome result (λ n. IsExponentDigits text.now × (n ≡ number text.now)) }
    ensures none { IfNone result (IsExponentDigits text.now → ⊥) }
{
    if text.is_empty() || text.len() > 3 {
        return None;
    }
    let mut value = 0;
    for byte in text {
        if !byte.is_ascii_digit() {
            return None;
        }
        value = value * 10 + u16::from(*byte - b'0');
    }
    Some(value)
}

/// How many times the exponent that a text writes multiplies by ten, and how many times it divides by ten. An empty text, which is no
/// exponent, is (0, 0). `None`: the text is something else.
fn exponent(text: &[u8]) -> Option<(u16, u16)>
    ensures found { IfSome result (λ r. ReadsExponent text.now r.0 r.1) }
    ensures none { IfNone result
        ((e : Option Exponent) → IsExponent e → text.now ≡ exponent_text e → ⊥) }
{
    if text.is_empty() {
        return Some((0, 0));
    }
    let rest = cut_mark(text)?;
    let (negative, digits) = cut_sign(rest);
    let value = exponent_number(digits)?;
    Some(if negative { (0, value) } else { (value, 0) })
}

/// Cuts off a point, and returns the rest. `None`: no point comes first.
fn cut_point(text: &[u8]) -> Option<&[u8]>
    ensures found { IfSome result (λ rest. text.now ≡ 46 ∷ rest.now) }
    ensures none { IfNone result (StartsNoPoint text.now) }
{
    match text {
        [b'.', rest @ ..] => Some(rest),
        _ => None,
    }
}

/// Cuts off a point and the digits after it, and returns these digits and the rest. Without a point at the front nothing is cut
/// off. The text doesn't begin with a digit.
fn cut_fraction(text: &[u8]) -> (&[u8], &[u8])
    requires { StartsNoDigit text.now }
    ensures { CutsFraction text.now result.0.now result.1.now }
{
    match cut_point(text) {
        Some(rest) => cut_digits(rest),
        None => (&[], text),
    }
}
