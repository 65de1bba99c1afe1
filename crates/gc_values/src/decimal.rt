//! Decimal numbers: at most 24 places, at most 10^13 from zero, and one written form for each value.
//!
//! Both limits, and which way a tie is rounded, are this project's own. Nothing here is a floating point
//! number, so that 1.99975 at three places is 2.0 for everybody.

ghost use Rattle.std.specs.Prelude.{◌≡◌, ◌≢◌, ◌+◌, ◌*◌, ◌/◌, ◌%◌, ◌^◌, ◌<◌, ◌≤◌, ◌↔◌, IsOk, IfOk, IfErr, MatchResult, IsTrue, ◌∷◌, [], length, if◌then◌else◌, ℕ, unsigned_abs};
ghost use Rattle.std.proofs.Common.{rules};
ghost use Rattle.std.specs.Cmp.Rules.{comparing};
ghost use Rattle.std.specs.Ordering.{as_partial_cmp};
ghost use Rattle.gc_values.specs.Fraction.{signed, SameValue, IsCanonical, IsInRange};
ghost use Rattle.gc_values.specs.Nearest.{SignedWithoutZeros, RoundsHalfUp};
ghost use Rattle.gc_values.specs.Spelling.{SpellsBeyond, SpellsNothing};
ghost use Rattle.gc_values.specs.ValueFault.{IsEither};
ghost use Rattle.gc_values.specs.Written.{places_text};
ghost use Rattle.gc_values.specs.Zeros.{WithoutZeros};

use crate::appending::push_decimal;
use crate::cutting::cut_numeral;
use crate::fault::ValueFault;
use crate::limits::{BOUND, PLACES};
use crate::power::power_of_ten;
use crate::tail::Tail;
use arrayvec::ArrayVec;
use std::cmp::Ordering;
use std::{fmt, str};

/// The decimal number `digits / 10^scale`, with no place more than it needs.
///
/// Equal values have equal digits and scale, so `==`, `<` and the hash go by the value. The unit is the
/// parameter's: radians for an angle, metres for a length.
#[derive(Clone, Copy, Debug, PartialEq, Eq, Hash)]
pub struct Decimal {
    // The value times 10^scale.
    digits: i128,
    // How many places follow the point.
    scale: u8,
    pub ghost has_few_places: { scale ≤ 24 },
    pub ghost is_in_range: { IsInRange digits scale },
    pub ghost is_canonical: { IsCanonical digits scale },
}

/// As [`without_zeros`], which calls it where the magnitude fits in 64 bits: a division of 128 bits is slow.
fn without_zeros_in_64_bits(mut digits: u64, mut scale: u8) -> (u64, u8)
    ensures { WithoutZeros digits scale result.0 result.1 }
{
    while scale > 0 && digits % 10 == 0 {
        digits /= 10;
        scale -= 1;
    }
    (digits, scale)
}

/// `magnitude / 10^scale` without the zeros at the end of its places, as its magnitude and its scale.
fn without_zeros(mut magnitude: u128, mut scale: u8) -> (u128, u8)
    ensures { WithoutZeros magnitude scale result.0 result.1 }
{
    if let Ok(short) = u64::try_from(magnitude) {
        let (short, scale) = without_zeros_in_64_bits(short, scale);
        return (u128::from(short), scale);
    }
    while scale > 0 && magnitude % 10 == 0 {
        magnitude /= 10;
        scale -= 1;
    }
    (magnitude, scale)
}

/// `a / b`, rounded down. The division is one of 64 bits where both fit, because one of 128 bits is slow.
fn quotient(a: u128, b: u128) -> u128
    requires { 0 < b }
    ensures { result ≡ a / b }
{
    match (u64::try_from(a), u64::try_from(b)) {
        (Ok(short), Ok(by)) => u128::from(short / by),
        _ => a / b,
    }
}

/// The whole number nearest to `a / b`, and of two that are equally near the greater one.
fn nearest(a: u128, b: u128) -> u128
    requires { 0 < b }
    ensures rounds { RoundsHalfUp a b result }
    ensures bound { (m : ℕ) → a ≤ m * b → result ≤ m }
{
    let below = quotient(a, b);
    let rest = a - below * b;
    if rest >= b - rest { below + 1 } else { below }
}

/// Writes the digits after the point of `magnitude / 10^scale` into an empty `tail`: as many as the scale is, or a lone zero where it
/// is 0. Returns the integer part.
fn put_places(tail: &mut Tail, magnitude: u128, scale: u8) -> u64
    requires empty { tail.old ≡ [] }
    requires places { scale ≤ 24 }
    requires range { magnitude ≤ 10 ^ 13 * 10 ^ scale }
    ensures digits { tail.new ≡ places_text scale (magnitude % 10 ^ scale) }
    ensures few { length tail.new ≤ 24 }
    ensures rest { result ≡ magnitude / 10 ^ scale }
{
    if scale == 0 {
        tail.put(b'0');
        return magnitude as u64;
    }
    if let Ok(short) = u64::try_from(magnitude) {
        return tail.put_last(short, scale);
    }
    let unit = power_of_ten(scale);
    let whole = magnitude / unit;
    tail.put_fraction(magnitude - whole * unit, scale);
    whole as u64
}

/// The number of this magnitude, with a minus where `negative`.
fn with_sign(negative: bool, magnitude: u128) -> i128
    requires { magnitude < 2 ^ 127 }
    ensures { result ≡ signed negative magnitude }
{
    let digits = magnitude as i128;
    if negative { -digits } else { digits }
}

impl Decimal {
    ghost use Rattle.gc_values.specs.declared.decimal.Decimal.{Decimal};
    ghost use Rattle.gc_values.specs.Fraction.{is_decimal, IsRounded, IsWithin};
    ghost use Rattle.gc_values.specs.Decimals.{GivesSpelled, SpellsDecimal, decimal, decimal_text, fraction, is_within, rounded, units, zero};
    ghost use Rattle.gc_values.specs.Written.{minus_text};

    /// The decimal 0.0.
    pub fn zero() -> Decimal
        ensures { result ≡ zero }
    {
        Decimal {
            digits: 0,
            scale: 0,
        }
    }

    /// The decimal `digits / 10^scale`, as it is: `Decimal::literal(15, 1)` is 1.5. The caller has shown that it is at most 10^13 from
    /// zero, and has at most 24 places and none that it doesn't need.
    pub fn literal(digits: i128, scale: u8) -> Decimal
        requires { IsTrue (is_decimal digits scale) }
        ensures { (h : IsTrue (is_decimal digits scale)) → result ≡ decimal digits scale h }
    {
        Decimal { digits, scale }
    }

    /// The decimal of the value `digits / 10^scale`.
    ///
    /// It is refused as `Range` exactly where the scale is above 24 or the value is more than 10^13 from zero.
    pub fn new(digits: i128, scale: u8) -> Result<Decimal, ValueFault>
        ensures value { IfOk result (λ d. SameValue d.digits d.scale digits scale) }
        ensures exact { IsOk result ↔ ((scale ≤ 24) × IsInRange digits scale) }
        ensures fault { IfErr result (λ e. e ≡ ValueFault.Range) }
    {
        if scale > PLACES {
            return Err(ValueFault::Range);
        }
        Decimal::try_from_parts(digits < 0, digits.unsigned_abs(), scale)
    }

    /// The decimal of the value `magnitude / 10^scale`, with a minus where `negative`. It is refused as `Range` exactly where
    /// `magnitude / 10^scale` is above 10^13.
    fn try_from_parts(negative: bool, magnitude: u128, scale: u8) -> Result<Decimal, ValueFault>
        requires { scale ≤ 24 }
        ensures made { IfOk result (λ d. SignedWithoutZeros negative magnitude scale d.digits d.scale) }
        ensures exact { MatchResult result (λ _. magnitude ≤ 10 ^ 13 * 10 ^ scale)
            (λ e. (e ≡ ValueFault.Range) × (10 ^ 13 * 10 ^ scale < magnitude)) }
    {
        if magnitude > BOUND * power_of_ten(scale) {
            return Err(ValueFault::Range);
        }
        Ok(Decimal::from_parts(negative, magnitude, scale))
    }

    /// The decimal of the value `magnitude / 10^scale`, which is at most 10^13, with a minus where `negative`.
    pub(crate) fn from_parts(negative: bool, magnitude: u128, scale: u8) -> Decimal
        requires places { scale ≤ 24 }
        requires range { magnitude ≤ 10 ^ 13 * 10 ^ scale }
        ensures { SignedWithoutZeros negative magnitude scale result.digits result.scale }
    {
        let (magnitude, scale) = without_zeros(magnitude, scale);
        Decimal {
            digits: with_sign(negative, magnitude),
            scale,
        }
    }

    /// Reads a number's text, and rounds it to 24 places, half away from zero.
    ///
    /// The text is an optional sign, digits with an optional point among, before or after them, and optionally `e` or `E`
    /// with an optional sign and one to three digits. Any other text is refused as `Spelling`, and a rounded value that is more
    /// than 10^13 from zero as `Range`.
    pub fn read(text: &[u8]) -> Result<Decimal, ValueFault>
        ensures value { IfOk result (λ d. SpellsDecimal text.now d) }
        ensures only { GivesSpelled text.now result }
        ensures again { (d : Decimal) → text.now ≡ decimal_text d → result ≡ Ok d }
        ensures range { (result ≡ Err ValueFault.Range) ↔ SpellsBeyond text.now }
        ensures spelling { (result ≡ Err ValueFault.Spelling) ↔ SpellsNothing text.now }
        ensures faults { IfErr result (λ e. IsEither ValueFault.Range ValueFault.Spelling e) }
    {
        let Some(parts) = cut_numeral(text) else {
            return Err(ValueFault::Spelling);
        };
        let (magnitude, scale) = parts.rounded_units();
        Decimal::try_from_parts(parts.negative, magnitude, scale)
    }

    /// The value rounded to at most this many places, half away from zero.
    ///
    /// The result is always in range, because the bound, 10^13, is a whole number.
    pub fn round(&self, places: u8) -> Decimal
        requires { places ≤ 24 }
        ensures rounding { IsRounded (fraction self.now) places result.digits result.scale }
        ensures exact { result ≡ rounded self.now places }
    {
        if self.scale <= places {
            return *self;
        }
        let unit = power_of_ten(self.scale - places);
        let (negative, magnitude) = self.parts();
        Decimal::from_parts(negative, nearest(magnitude, unit), places)
    }

    /// The one written form: a minus where the value is below zero, at least one digit on each side of the
    /// point, no other zero that isn't needed, and no exponent. Zero is `0.0`.
    pub fn write(&self) -> ArrayVec<u8, 40>
        ensures text { result.items ≡ decimal_text self.now }
        ensures reads_back { SpellsDecimal result.items self.now }
    {
        let mut out = ArrayVec::new();
        push_decimal(&mut out, self);
        out
    }

    /// Writes the written form into an empty `tail`.
    pub(crate) fn put(&self, tail: &mut Tail)
        requires { tail.old ≡ [] }
        ensures { tail.new ≡ decimal_text self.now }
    {
        let (negative, magnitude) = self.parts();
        let whole = put_places(tail, magnitude, self.scale());
        tail.put(b'.');
        tail.put_whole(whole);
        if negative {
            tail.put(b'-');
        }
    }

    /// Whether two values are at most the distance `area` apart; never, where `area` is below zero.
    #[inline(always)]
    pub fn within(&self, other: &Decimal, area: &Decimal) -> bool
        ensures fact { IsTrue result
            ↔ IsWithin (fraction self.now) (fraction other.now) (fraction area.now) }
        ensures exact { result ≡ is_within self.now other.now area.now }
    {
        (self.units() - other.units()).abs() <= area.units()
    }

    /// The value in units of 10^-24, the last place that a decimal may have: a whole number.
    pub fn units(&self) -> i128
        ensures value { result ≡ units self.now }
        ensures bound { unsigned_abs result ≤ 10 ^ 37 }
    {
        let (negative, magnitude) = self.parts();
        with_sign(negative, magnitude * power_of_ten(PLACES - self.scale))
    }

    /// Whether the value is below zero, and the magnitude of the digits.
    fn parts(&self) -> (bool, u128)
        ensures value { self.now.digits ≡ signed result.0 result.1 }
        ensures magnitude { result.1 ≡ unsigned_abs self.now.digits }
        ensures minus { minus_text self.now.digits ≡ (if result.0 then 45 ∷ [] else []) }
    {
        (self.digits < 0, self.digits.unsigned_abs())
    }

    /// The value times `10^scale`.
    pub fn digits(&self) -> i128
        ensures { result ≡ self.now.digits }
    {
        self.digits
    }

    /// The number of places after the point, at most 24.
    pub fn scale(&self) -> u8
        ensures { result ≡ self.now.scale }
    {
        self.scale
    }
}

/// The written form.
impl fmt::Display for Decimal {
    ghost use Rattle.std.specs.Prelude.{Some};
    ghost use Rattle.gc_values.specs.Decimals.{decimal_text};

    ghost output = { λ d. Some (decimal_text d) };

    fn fmt<W: fmt::Write>(&self, f: &mut fmt::Formatter<W>) -> fmt::Result {
        let text = self.write();
        // The written form is ASCII, so this never fails.
        let Ok(text) = str::from_utf8(text.as_slice()) else {
            unreachable!();
        };
        f.write_str(text)
    }
}

// Decimals are ordered by their values.
impl Ord for Decimal {
    ghost use Rattle.gc_values.specs.Decimals.{decimal_cmp};
    ghost use Rattle.gc_values.specs.DecimalOrder.{cmp_total, cmp_matches_eq};

    ghost cmp = { decimal_cmp };

    ghost total = { cmp_total };

    ghost matches_partial_cmp = { Prim.search (comparing, rules) };

    ghost matches_eq = { cmp_matches_eq };

    fn cmp(&self, other: &Decimal) -> Ordering {
        self.units().cmp(&other.units())
    }
}

impl PartialOrd for Decimal {
    ghost use Rattle.gc_values.specs.Decimals.{decimal_cmp};
    ghost use Rattle.gc_values.specs.DecimalOrder.{cmp_order};

    ghost partial_cmp = { as_partial_cmp decimal_cmp };

    ghost laws = { cmp_order };

    fn partial_cmp(&self, other: &Decimal) -> Option<Ordering> {
        Some(self.cmp(other))
    }
}
