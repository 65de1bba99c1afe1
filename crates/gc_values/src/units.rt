//! The magnitude of a number's text as a whole number of units of the last place: rounded there, and capped where no decimal is
//! as large.

ghost use Rattle.std.specs.Prelude.{◌≡◌, ℕ, ◌+◌, ◌*◌, ◌^◌, ◌<◌, ◌≤◌, length, min};
ghost use Rattle.gc_values.specs.Digits.{AreDigits, number};
ghost use Rattle.gc_values.specs.KeptDigits.{IsRoundedWithCap, all_digits, digit_or_zero, kept, kept_and_rounded};

use crate::limits::{DIGITS_IN_64_BITS, PLACES};
use crate::numeral::Numeral;

/// One more than a decimal's greatest number of units of the last place. Every greater number is taken for this one.
const CAP: u128 = 10_000_000_000_000_000_000_000_000_000_000_000_001;

/// The number `kept` times 10^`zeros`; the cap where that is more.
fn with_zeros(kept: u128, zeros: usize) -> u128
    ensures { result ≡ min CAP (kept * 10 ^ zeros) }
{
    // 10^38 is above the cap and fits in 128 bits, so more zeros change nothing.
    let power = 10u128.pow(zeros.min(38) as u32);
    kept.saturating_mul(power).min(CAP)
}

/// `front * 10^n` plus the number that these `n` digits write, in 64 bits.
fn followed_by(front: u64, digits: &[u8]) -> u64
    requires digits { AreDigits digits.now }
    requires small { (front + 1) * 10 ^ length digits.now ≤ 10 ^ 18 }
    ensures { result ≡ front * 10 ^ length digits.now + number digits.now }
{
    let mut value = front;
    for digit in digits {
        value = value * 10 + u64::from(*digit - b'0');
    }
    value
}

// All digits of a numeral are those before its point and then those after it, in a row.
impl Numeral<'_> {
    /// The digit at a place, counted from 0, of all digits, and 0 after the last one.
    #[tactic(auto, using(crate::proofs::Kept::digit_in_first, crate::proofs::Kept::digit_in_second, crate::proofs::Kept::digit_after_both, crate::proofs::Kept::digit_at_least_48))]
    fn digit_at(&self, place: usize) -> u8
        ensures { result ≡ digit_or_zero (all_digits self.now) place }
    {
        let length = self.whole.len();
        if place < length {
            self.whole[place] - b'0'
        } else if place - length < self.fraction.len() {
            self.fraction[place - length] - b'0'
        } else {
            0
        }
    }

    /// The number that the first `count` digits write, with a zero for each digit that is missing; the cap where that is more.
    fn kept_digits(&self, count: usize) -> u128
        ensures { result ≡ min CAP (kept (all_digits self.now) count) }
    {
        let mut kept = 0;
        for place in 0..count {
            let digit = self.digit_at(place);
            kept = (kept * 10 + u128::from(digit)).min(CAP);
        }
        kept
    }

    /// The number of the first `count` digits, as `kept_digits` returns it, and 1 more where the digit after them is 5 or above;
    /// the cap where that is more.
    fn kept_and_rounded(&self, count: usize) -> u128
        ensures { result ≡ min CAP (kept_and_rounded (all_digits self.now) count) }
    {
        let kept = self.kept_digits(count);
        if self.digit_at(count) >= 5 {
            (kept + 1).min(CAP)
        } else {
            kept
        }
    }

    /// The number that all digits write, of which there are at most 18.
    fn short_number(&self) -> u64
        requires { length self.now.whole.now + length self.now.fraction.now ≤ 18 }
        ensures { result ≡ number (all_digits self.now) }
    {
        followed_by(followed_by(0, self.whole), self.fraction)
    }

    /// The magnitude of the number, rounded to 24 places, half up: `(n, p)` stands for `n / 10^p`. In place of an `n` above the cap
    /// the cap is returned.
    ///
    /// No zero is appended that the value doesn't need, so this takes at most as many steps as there are digits, whatever the
    /// exponent is.
    pub fn rounded_units(&self) -> (u128, u8)
        ensures { IsRoundedWithCap self.now CAP result.0 result.1 }
    {
        let length = self.whole.len() + self.fraction.len();
        // Few digits, and no exponent, or one of 0: their number is read as it is, in 64 bits.
        if self.up == 0 && self.down == 0 && length <= DIGITS_IN_64_BITS {
            return (u128::from(self.short_number()), self.fraction.len() as u8);
        }
        // How many digits there would be up to the last of 24 places if `down` were 0, with zeros for those that are missing.
        let digits_to_last_place = self.whole.len() + usize::from(self.up) + usize::from(PLACES);
        // The exponent moves every digit at least two places past the last of the 24, so the value rounds to 0.
        let Some(count) = digits_to_last_place.checked_sub(usize::from(self.down)) else {
            return (0, PLACES);
        };
        // Digits are left over: the number is rounded there.
        if count < length {
            return (self.kept_and_rounded(count), PLACES);
        }
        // All digits count. Only zeros that are before the point are appended.
        let kept = self.kept_digits(length);
        let zeros = count - length;
        if zeros <= usize::from(PLACES) {
            (kept, PLACES - zeros as u8)
        } else {
            (with_zeros(kept, zeros - usize::from(PLACES)), 0)
        }
    }
}
