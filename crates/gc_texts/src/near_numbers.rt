//! The numbers of a line `near` of a station's text: which of them is at fault.

ghost use Rattle.std.specs.Prelude.{IsTrue, IsFalse};
ghost use Rattle.gc_texts.specs.Nears.{is_length};
ghost use Rattle.gc_texts.specs.Troubles.{IsFit, IsUnfit, IsRangeTrouble, IsRestTrouble, IsNearTrouble, fits_hz, fits_v};
ghost use Rattle.gc_values.specs.Directions.{is_tolerance};

use crate::cuts::{before, behind, cut_at};
use crate::near::{is_length, read_double};
use crate::trouble::Trouble;
use gc_values::{Decimal, Direction, is_tolerance};

// Whether a text is a decimal from 0 to a turn, in radians.
fn is_hz(text: &[u8]) -> bool
    ensures fit { IsTrue result → IsFit fits_hz text.now }
    ensures unfit { IsFalse result → IsUnfit fits_hz text.now }
{
    match read_double(text) {
        Some(hz) => Direction {
            hz,
            v: Decimal::zero(),
        }
        .is_place(),
        None => false,
    }
}

// Whether a text is a decimal from 0 to half a turn, in radians, as a vertical angle.
fn is_v(text: &[u8]) -> bool
    ensures fit { IsTrue result → IsFit fits_v text.now }
    ensures unfit { IsFalse result → IsUnfit fits_v text.now }
{
    match read_double(text) {
        Some(v) => Direction {
            hz: Decimal::zero(),
            v,
        }
        .is_place(),
        None => false,
    }
}

// Whether a text is a tolerance, from 0 to half a turn, in radians.
pub(crate) fn is_tolerance_text(text: &[u8]) -> bool
    ensures fit { IsTrue result → IsFit is_tolerance text.now }
    ensures unfit { IsFalse result → IsUnfit is_tolerance text.now }
{
    match read_double(text) {
        Some(tolerance) => is_tolerance(&tolerance),
        None => false,
    }
}

// Whether a text is a length, from 0 to 100,000, in metres.
pub(crate) fn is_length_text(text: &[u8]) -> bool
    ensures fit { IsTrue result → IsFit is_length text.now }
    ensures unfit { IsFalse result → IsUnfit is_length text.now }
{
    match read_double(text) {
        Some(length) => is_length(&length),
        None => false,
    }
}

// Which number is at fault of the two that are left of a line `near`, a distance and its tolerance. `Near`: none of them.
fn range_trouble(words: &[u8]) -> Trouble
    ensures { IsRangeTrouble words.now result }
{
    if !is_length_text(before(b' ', words)) {
        return Trouble::NearDistance;
    }
    if !is_length_text(behind(b' ', words)) {
        return Trouble::NearDistanceTolerance;
    }
    Trouble::Near
}

// Which number is at fault after the tolerance of a line's angles, with which this text begins. `Near`: none, or nothing follows it.
fn rest_trouble(text: &[u8]) -> Trouble
    ensures { IsRestTrouble text.now result }
{
    match cut_at(b' ', text).1 {
        None => Trouble::Near,
        Some(words) => range_trouble(words),
    }
}

/// Which number is at fault of the three or five that follow a line's words `near T`. `Near`: none of them.
pub(crate) fn near_trouble(numbers: &[u8]) -> Trouble
    ensures { IsNearTrouble numbers.now result }
{
    let others = behind(b' ', numbers);
    let rest = behind(b' ', others);
    if !is_hz(before(b' ', numbers)) {
        return Trouble::NearHz;
    }
    if !is_v(before(b' ', others)) {
        return Trouble::NearV;
    }
    if !is_tolerance_text(before(b' ', rest)) {
        return Trouble::NearTolerance;
    }
    rest_trouble(rest)
}
