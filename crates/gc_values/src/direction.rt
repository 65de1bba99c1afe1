//! Directions of a telescope, and whether one is near another: all arithmetic on directions is here, in whole numbers of 10^-24
//! radians. A decimal has at most 10^37 of these, so that the sums here fit in 128 bits.

ghost use Rattle.std.specs.Prelude.{◌≡◌, ◌≤◌, ◌*◌, ◌^◌, unsigned_abs};
ghost use Rattle.gc_values.specs.Directions.{v_in_face_one, hz_in_face_one, is_close, is_close_turned, is_close_on_circle, is_near, is_up_to, is_place, is_tolerance};

use crate::decimal::Decimal;

// Half a turn, pi to 24 places, in units of 10^-24 radians.
const HALF_TURN: i128 = 3_141_592_653_589_793_238_462_643;

// A whole turn, in units of 10^-24 radians.
const TURN: i128 = 6_283_185_307_179_586_476_925_286;

/// Where a telescope points, in radians.
#[derive(Clone, Copy, PartialEq, Eq)]
pub struct Direction {
    /// The horizontal direction.
    pub hz: Decimal,
    /// The vertical angle: up to half a turn in face I, and above it in face II.
    pub v: Decimal,
}

// Whether the angles x and y are at most `most` apart, all in units of 10^-24 radians.
fn is_close(most: i128, x: i128, y: i128) -> bool
    requires first { unsigned_abs x ≤ 3 * 10 ^ 37 }
    requires second { unsigned_abs y ≤ 10 ^ 37 }
    ensures { result ≡ is_close most x y }
{
    (x - y).abs() <= most
}

// Whether the angles x plus `turns` whole turns and y are at most `most` apart, all in units of 10^-24 radians.
fn is_close_turned(most: i128, turns: i128, x: i128, y: i128) -> bool
    requires few { unsigned_abs turns ≤ 2 }
    requires first { unsigned_abs x ≤ 2 * 10 ^ 37 }
    requires second { unsigned_abs y ≤ 10 ^ 37 }
    ensures { result ≡ is_close_turned most turns x y }
{
    is_close(most, x + turns * TURN, y)
}

// Whether x and y are at most `most` apart on the circle: for some number of turns from -2 to 2, which are enough where neither is more
// than a turn from 0.
fn is_close_on_circle(most: i128, x: i128, y: i128) -> bool
    requires first { unsigned_abs x ≤ 2 * 10 ^ 37 }
    requires second { unsigned_abs y ≤ 10 ^ 37 }
    ensures { result ≡ is_close_on_circle most x y }
{
    is_close_turned(most, -2, x, y)
        || is_close_turned(most, -1, x, y)
        || is_close_turned(most, 0, x, y)
        || is_close_turned(most, 1, x, y)
        || is_close_turned(most, 2, x, y)
}

// Whether x is from 0 to `most`, both included.
fn is_up_to(most: i128, x: i128) -> bool
    ensures { result ≡ is_up_to most x }
{
    0 <= x && x <= most
}

/// Whether a number, in radians, is a tolerance: from 0 to half a turn, both included.
#[tactic(auto, unfolding(crate::specs::Directions::is_tolerance))]
pub fn is_tolerance(tolerance: &Decimal) -> bool
    ensures { result ≡ is_tolerance tolerance.now }
{
    is_up_to(HALF_TURN, tolerance.units())
}

impl Direction {
    // The vertical angle as face I has it, in units of 10^-24 radians: where it is above half a turn, a whole turn minus it.
    fn v_in_face_one(&self) -> i128
        ensures is { result ≡ v_in_face_one self.now }
        ensures bound { unsigned_abs result ≤ 2 * 10 ^ 37 }
    {
        let v = self.v.units();
        if v <= HALF_TURN { v } else { TURN - v }
    }

    // The horizontal direction as face I has it, in units of 10^-24 radians: where the vertical angle is above half a turn, the direction
    // minus half a turn.
    fn hz_in_face_one(&self) -> i128
        ensures is { result ≡ hz_in_face_one self.now }
        ensures bound { unsigned_abs result ≤ 2 * 10 ^ 37 }
    {
        let hz = self.hz.units();
        if self.v.units() <= HALF_TURN {
            hz
        } else {
            hz - HALF_TURN
        }
    }

    /// Whether the direction is near a place, whichever face it was measured in: both of its angles, as face I has them, are at most the
    /// tolerance, in radians, from the place's angles as they are, the horizontal one after at most two whole turns either way. Where the
    /// tolerance is below zero, nothing is near.
    pub fn is_near(&self, place: &Direction, tolerance: &Decimal) -> bool
        ensures { result ≡ is_near self.now place.now tolerance.now }
    {
        let most = tolerance.units();
        let v_is_near = is_close(most, self.v_in_face_one(), place.v.units());
        let hz_is_near = is_close_on_circle(most, self.hz_in_face_one(), place.hz.units());
        v_is_near && hz_is_near
    }

    /// Whether this is a place as face I has it: the horizontal direction from 0 to a turn, and the vertical angle from 0 to half a turn,
    /// all included.
    #[tactic(auto, unfolding(crate::specs::Directions::is_place))]
    pub fn is_place(&self) -> bool
        ensures { result ≡ is_place self.now }
    {
        is_up_to(TURN, self.hz.units()) && is_up_to(HALF_TURN, self.v.units())
    }
}
