//! The ways of real instruments that a scene's instrument may have, from memory, and what each does by itself.

ghost use Rattle.std.specs.Prelude.{◌≡◌, ◌≤◌, ◌*◌, ◌^◌, ◌-ℤ◌, List, unsigned_abs};
ghost use Rattle.gc_values.specs.Decimals.{units};
ghost use Rattle.gc_values.specs.Directions.{half_turn};
ghost use Rattle.gc_scenes.specs.Ways.{no_ways, with_way, is_in_face_two, face_at, other_hz, other_v, target_in_face, is_turned, on_circle, apart, nearer, nearest, is_warning, has_distance, valued};

use crate::shifting::shifted;
use gc_catalogue::{Answer, Call};
use gc_instrument::{Face, NO_DISTANCE, Pointing, Target};
use gc_values::Decimal;

// Half a turn, pi to 24 places, in units of 10^-24 radians: the same number as in `gc_values`, whose code compares directions.
const HALF_TURN: i128 = 3_141_592_653_589_793_238_462_643;

// A whole turn, in the same units.
const TURN: i128 = 6_283_185_307_179_586_476_925_286;

// The window of target recognition, each way, in the same units: 0.0131 radians, about three quarters of a degree.
const WINDOW: u128 = 13_100_000_000_000_000_000_000;

// Return codes that are warnings, besides `NO_DISTANCE`.

// Measured, without all corrections.
const UNCORRECTED: u16 = 1283;

// Measured, without a guarantee of the accuracy.
const UNGUARANTEED: u16 = 1284;

// The angles alone, without all corrections.
const ANGLES_UNCORRECTED: u16 = 1288;

// The angles alone, without a guarantee of the accuracy.
const ANGLES_UNGUARANTEED: u16 = 1289;

/// Which ways of real instruments a scene's instrument has.
#[derive(Clone, Copy)]
pub struct Ways {
    /// In face II the telescope has other angles, and meets targets there; a face change turns it to them.
    pub faces: bool,
    /// A positioning with target recognition aims at a target.
    pub aims: bool,
    /// TMC_GetSimpleMea clears the distance that it answers.
    pub takes: bool,
    /// Replies to calls that answer angles have values also where the return code is a warning.
    pub values: bool,
    /// The clock runs from the date that it is set to.
    pub clock: bool,
}

/// One of the ways of [`Ways`], or all of them.
#[derive(Clone, Copy)]
pub enum Way {
    Faces,
    Aims,
    Takes,
    Values,
    Clock,
    /// All of them.
    Real,
}

impl Ways {
    /// None of the ways.
    pub fn none() -> Ways
        ensures { result ≡ no_ways }
    {
        Ways {
            faces: false,
            aims: false,
            takes: false,
            values: false,
            clock: false,
        }
    }

    /// These ways with this one as well, or all of them for `Way::Real`.
    pub fn with(self, way: Way) -> Ways
        ensures { result ≡ with_way way self }
    {
        let mut ways = self;
        match way {
            Way::Faces => ways.faces = true,
            Way::Aims => ways.aims = true,
            Way::Takes => ways.takes = true,
            Way::Values => ways.values = true,
            Way::Clock => ways.clock = true,
            Way::Real => {
                ways = Ways {
                    faces: true,
                    aims: true,
                    takes: true,
                    values: true,
                    clock: true,
                }
            }
        }
        ways
    }

    /// Whether the telescope is in face II if it points `there`. `false`: it is in face I, or the instrument has no angles of face II.
    pub(crate) fn is_turned(&self, there: &Pointing) -> bool
        ensures { result ≡ is_turned self.now there.now }
    {
        self.faces && is_in_face_two(&there.v)
    }
}

// Whether a vertical angle is one of face II: greater than half a turn.
fn is_in_face_two(v: &Decimal) -> bool
    ensures { result ≡ is_in_face_two v.now }
{
    HALF_TURN < v.units()
}

/// The face of the telescope at this vertical angle.
pub(crate) fn face_at(v: &Decimal) -> Face
    ensures { result ≡ face_at v.now }
{
    if is_in_face_two(v) {
        Face::Turned
    } else {
        Face::Normal
    }
}

/// The horizontal direction in the other face: half a turn less if it is at least half a turn, and else half a turn more. What would leave
/// a decimal's range stays.
pub(crate) fn other_hz(hz: &Decimal) -> Decimal
    ensures { result ≡ other_hz hz.now }
{
    let by = if HALF_TURN <= hz.units() {
        -HALF_TURN
    } else {
        HALF_TURN
    };
    shifted(hz, by)
}

/// The vertical angle in the other face: a turn minus the angle. What would leave a decimal's range stays.
pub(crate) fn other_v(v: &Decimal) -> Decimal
    ensures { result ≡ other_v v.now }
{
    let units = v.units();
    shifted(v, TURN - (units + units))
}

/// The target with the angles at which the telescope points at it: its own, or in face II (`turned`) those of that face.
pub(crate) fn target_in_face(turned: bool, target: &Target) -> Target
    ensures { result ≡ target_in_face turned target.now }
{
    if turned {
        Target {
            hz: other_hz(&target.hz),
            v: other_v(&target.v),
            distance: target.distance,
        }
    } else {
        *target
    }
}

// The angle between two directions with this difference, the shorter way round the circle, in units.
fn on_circle(difference: i128) -> u128
    ensures { result ≡ on_circle difference }
{
    let turn = TURN.unsigned_abs();
    let rest = difference.unsigned_abs() % turn;
    rest.min(turn - rest)
}

// `one` minus `other`, in units.
fn difference(one: &Decimal, other: &Decimal) -> i128
    ensures value { result ≡ units one.now -ℤ units other.now }
    ensures bound { unsigned_abs result ≤ 2 * 10 ^ 37 }
{
    one.units() - other.units()
}

// How far a target is from where the telescope points, in units: the difference of the horizontal angles, the shorter way round
// the circle, or that of the vertical ones, whichever is greater.
fn apart(there: &Pointing, target: &Target) -> u128
    ensures { result ≡ apart there.now target.now }
{
    let hz = on_circle(difference(&target.hz, &there.hz));
    let v = difference(&target.v, &there.v).unsigned_abs();
    hz.max(v)
}

// The nearer of the target found so far and `target`, and `found` if both are equally near. If none was found so far: `target` if
// it is within the window, and else none.
fn nearer(there: &Pointing, found: Option<Target>, target: &Target) -> Option<Target>
    ensures { result ≡ nearer there.now found target.now }
{
    match found {
        None => {
            if apart(there, target) <= WINDOW {
                Some(*target)
            } else {
                None
            }
        }
        Some(other) => {
            if apart(there, &other) <= apart(there, target) {
                Some(other)
            } else {
                Some(*target)
            }
        }
    }
}

/// The nearest of these targets within the window, the first of several that are equally near. `None`: none is within the window.
pub(crate) fn nearest(there: &Pointing, targets: &[Target]) -> Option<Target>
    ensures { result ≡ nearest there.now targets.now }
{
    let mut found = None;
    for target in targets {
        found = nearer(there, found, target);
    }
    found
}

/// Whether this return code is a warning, with which a reply may have values.
pub(crate) fn is_warning(rc: u16) -> bool
    ensures { result ≡ is_warning rc }
{
    rc == UNCORRECTED
        || rc == UNGUARANTEED
        || rc == NO_DISTANCE
        || rc == ANGLES_UNCORRECTED
        || rc == ANGLES_UNGUARANTEED
}

/// Whether a distance is among the values of a reply with this return code, which is a warning.
pub(crate) fn has_distance(rc: u16) -> bool
    ensures { result ≡ has_distance rc }
{
    rc == UNCORRECTED || rc == UNGUARANTEED
}

/// The answer of a call that answers angles: those of `there`, then this distance if the call answers one, and then the mode if
/// the call answers that, too. For any other call it is `Answer::Nothing`.
pub(crate) fn valued(there: &Pointing, call: &Call, distance: &Decimal) -> Answer
    ensures { result ≡ valued there.now call.now distance.now }
{
    let Pointing { hz, v } = *there;
    let distance = *distance;
    match call {
        Call::GetAngle { .. } => Answer::Angles { hz, v },
        Call::SimpleMea { .. } => Answer::Measured { hz, v, distance },
        Call::QuickDist => Answer::Measured { hz, v, distance },
        Call::MeasDistance { mode } => Answer::MeasuredMode {
            hz,
            v,
            distance,
            mode: *mode,
        },
        _ => Answer::Nothing,
    }
}
