//! Decimals that are moved by units of 10^-24, and the generator of the noise.

ghost use Rattle.std.specs.Prelude.{◌≡◌, ◌*◌, ◌<◌, ◌≤◌, ◌^◌, unsigned_abs};
ghost use Rattle.gc_values.specs.Decimals.{units};
ghost use Rattle.gc_scenes.specs.Shifting.{shifted, next, deviation};

use gc_values::Decimal;

// The number of places of a decimal's units.
const PLACES: u8 = 24;

/// The decimal `d` plus `by` units of 10^-24, exactly; `d` itself if the sum is out of a decimal's range.
pub(crate) fn shifted(d: &Decimal, by: i128) -> Decimal
    requires { unsigned_abs by ≤ 3 * 10 ^ 37 }
    ensures { result ≡ shifted d.now by }
{
    match Decimal::new(d.units() + by, PLACES) {
        Ok(moved) => moved,
        Err(_) => *d,
    }
}

/// The generator's number after `x`, by a linear congruence modulo 2^32.
pub(crate) fn next(x: u32) -> u32
    ensures { result ≡ next x }
{
    ((u64::from(x) * 1_664_525 + 1_013_904_223) % 4_294_967_296) as u32
}

/// The deviation, in units of 10^-24, that the generator's number `x` gives: 0 to 1000 thousandths of the size of `most`, either way. A
/// thousandth is rounded down to whole units.
pub(crate) fn deviation(most: &Decimal, x: u32) -> i128
    ensures value { result ≡ deviation most.now x }
    ensures bound { unsigned_abs result ≤ 10 ^ 37 }
{
    // Bit 16 gives the sign, and the bits above it the thousandths; the lowest bits of such a generator vary least.
    let thousandths = u128::from((x / 131_072) % 1001);
    let size = (most.units().unsigned_abs() / 1000 * thousandths) as i128;
    if (x / 65_536) % 2 == 1 { -size } else { size }
}
