//! How the instrument carries out calls whose outcome its ways of real instruments change; all others have that of the execution table.

ghost use Rattle.std.specs.Prelude.{◌≡◌, Option, true};
ghost use Rattle.gc_catalogue.specs.declared.answer.Answer.TheVariants.{Nothing};
ghost use Rattle.gc_catalogue.specs.declared.call.DateTime.{DateTime};
ghost use Rattle.gc_instrument.specs.Execution.{Executes, Gives, done, measured_outcome, unmeasured};
ghost use Rattle.gc_scenes.specs.Acting.{acted_faceless, aimed, faced, is_unchanged_by_ways, pointed_over};
ghost use Rattle.gc_scenes.specs.declared.ways.Ways.{Ways};

use crate::ways::{Ways, face_at, nearest, other_hz, other_v};
use gc_catalogue::{Answer, Call, DateTime};
use gc_instrument::{Instrument, NO_DISTANCE, NO_TARGET, Pointing};
use gc_values::Decimal;

/// Carries out a call with these ways over the instrument's targets, and returns the return code. `now` is what a running clock shows,
/// if one runs. An answer is written into `answer`, which stays `Answer::Nothing` if there is none. The face is left to
/// `set_face_by_angle`.
pub(crate) fn act_faceless(
    instrument: &mut Instrument,
    ways: &Ways,
    now: Option<DateTime>,
    call: &Call,
    answer: &mut Answer,
) -> u16
    requires { answer.old ≡ Nothing }
    ensures { Gives (acted_faceless ways.now now instrument.old call.now) instrument.new result answer.new }
{
    match call {
        Call::Position {
            hz,
            v,
            atr_mode,
            ..
        } => {
            if ways.aims && *atr_mode == 1 {
                aim(instrument, hz, v)
            } else {
                carry_out(instrument, call, answer)
            }
        }
        Call::ChangeFace { .. } => {
            if ways.faces {
                turn_over(instrument)
            } else {
                carry_out(instrument, call, answer)
            }
        }
        Call::SimpleMea { .. } => {
            if ways.takes {
                take_distance(instrument, answer)
            } else {
                carry_out(instrument, call, answer)
            }
        }
        Call::GetDate => match now {
            Some(date) => {
                *answer = Answer::Date(date);
                0
            }
            None => carry_out(instrument, call, answer),
        },
        _ => carry_out_unchanged(instrument, call, answer),
    }
}

// Carries out a call by the execution table, and returns the return code. The answer is written into `answer`: `Answer::Nothing` if
// there is none.
fn carry_out(instrument: &mut Instrument, call: &Call, answer: &mut Answer) -> u16
    ensures { Executes instrument.old call.now instrument.new result answer.new }
{
    let (rc, given) = instrument.execute(call);
    *answer = given;
    rc
}

// As `carry_out`, of a call that no way and no running clock changes (`is_unchanged_by_ways`): in `acted_faceless` the outcome of such
// a call is that of the execution table. It is a function of its own so that this is proved once, for all these calls. The face is
// left to `set_face_by_angle`.
fn carry_out_unchanged(instrument: &mut Instrument, call: &Call, answer: &mut Answer) -> u16
    requires { is_unchanged_by_ways call.now ≡ true }
    ensures { (ways : Ways) (now : Option DateTime) → Gives (acted_faceless ways now instrument.old call.now) instrument.new result answer.new }
{
    carry_out(instrument, call, answer)
}

// Turns to these angles, and then to the nearest target within the window of target recognition; the code is 0. If there is none, the
// telescope stays at the angles, and the code is 8710. The distance is cleared in either case.
fn aim(instrument: &mut Instrument, hz: &Decimal, v: &Decimal) -> u16
    ensures { Gives (aimed instrument.old hz.now v.now) instrument.new result Nothing }
{
    match nearest(&Pointing { hz: *hz, v: *v }, instrument.scene()) {
        Some(target) => {
            instrument.turn_to(&target.hz, &target.v);
            0
        }
        None => {
            instrument.turn_to(hz, v);
            NO_TARGET
        }
    }
}

// Turns the telescope to the other face's angles, which clears the distance. The code is always 0.
fn turn_over(instrument: &mut Instrument) -> u16
    ensures { Gives (done (pointed_over instrument.old) Nothing) instrument.new result Nothing }
{
    let there = instrument.pointing();
    instrument.turn_to(&other_hz(&there.hz), &other_v(&there.v));
    0
}

// Answers the angles and the distance, and clears the distance; the code is 0. If there is no distance, the code is 1285, and nothing
// is answered.
fn take_distance(instrument: &mut Instrument, answer: &mut Answer) -> u16
    requires { answer.old ≡ Nothing }
    ensures { Gives (measured_outcome (unmeasured instrument.old) instrument.old) instrument.new result answer.new }
{
    let known = instrument.distance();
    instrument.clear_distance();
    let Some(distance) = known else {
        return NO_DISTANCE;
    };
    let Pointing { hz, v } = instrument.pointing();
    *answer = Answer::Measured { hz, v, distance };
    0
}

/// Sets the telescope's face to the one that its vertical angle belongs to, if the instrument has both faces' angles (`faces`).
pub(crate) fn set_face_by_angle(instrument: &mut Instrument, faces: bool)
    ensures { instrument.new ≡ faced faces instrument.old }
{
    if faces {
        let there = instrument.pointing();
        instrument.set_face(face_at(&there.v));
    }
}
