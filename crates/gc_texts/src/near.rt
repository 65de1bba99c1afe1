//! Where a target is, and whether an answer was measured there.

ghost use Rattle.std.specs.Prelude.{◌≡◌};
ghost use Rattle.std.specs.Option.{option_copied};
ghost use Rattle.gc_texts.specs.LineForms.{IsReadAs};
ghost use Rattle.gc_values.specs.Decimals.{SpellsDecimal};
ghost use Rattle.gc_texts.specs.Nears.{is_length, AreRangeWords, IsRangeOf, AreNearWords, IsNearText, has_near, near_of, direction_of, distance_of, call_gives_direction, call_gives_distance, asked_gives_direction, asked_gives_distance, is_away, is_out_of_range, is_off_target};

use crate::again::Again;
use crate::agree::Twice;
use crate::codes::Codes;
use crate::cuts::{before, behind, cut_at};
use crate::expectation::Expectation;
use crate::form::Form;
use crate::procedure::target_of;
use crate::turn::Turn;
use gc_catalogue::{Answer, Asked, Call};
use gc_values::{Decimal, Direction, FileValues, is_tolerance};

/// How far away a target is, as a line `near` gives it. Both numbers are in metres, from 0 to 100,000.
#[derive(Clone, Copy)]
pub struct Range {
    /// Its slope distance, as answers have it.
    pub distance: Decimal,
    /// How far from there a measured distance may be.
    pub tolerance: Decimal,
}

/// Where a target is, as a line `near` gives it. Angles are in radians.
#[derive(Clone, Copy)]
pub struct Near {
    /// The target whose place it is.
    pub target: u32,
    /// Its direction in face I: the horizontal one within a turn, the vertical one within half a turn.
    pub place: Direction,
    /// How far from there each angle of a measurement may be: within half a turn.
    pub tolerance: Decimal,
    /// How far away it is, if the line says so.
    pub range: Option<Range>,
}

// The greatest distance of a line `near`, 100,000 metres, in units of 10^-24 metres.
const LONGEST: i128 = 100_000_000_000_000_000_000_000_000_000;

/// What a station's text says of a command beside its request and its deadline: what is expected of the answer, after what its chain is
/// repeated, and which command of the text it is; and what was known when it was sent.
#[derive(Clone, Copy)]
pub struct Expected {
    /// Where the command's target is, if the text says so.
    pub near: Option<Near>,
    /// How the answer is read, if its procedure isn't in the table and the text describes it.
    pub form: Option<Form>,
    /// The return codes that are accepted, beside 0.
    pub accepted: Codes,
    /// The return codes by which the instrument says that it is busy. One that is accepted, too, doesn't.
    pub busy: Codes,
    /// How long nothing is sent after an answer with such a code, in milliseconds: the command's deadline.
    pub wait: u64,
    /// What is expected of the values, if the command's line is one `expect`.
    pub expects: Option<Expectation>,
    /// Which of the text's items `>` is among these, counted from 0. `None`: none is.
    pub counter: Option<usize>,
    /// The number in the place of that item in the answer to this command before. `None`: there was none.
    pub before: Option<Decimal>,
    /// After which endings of the command its chain is repeated.
    pub again: Again,
    /// Which command of the text it is, and in which attempt of its chain or, for a command of the setup, of the setup.
    pub turn: Turn,
    /// Which sending of its chain it is in.
    pub twice: Twice,
    /// In a second sending the answer of the same command in the first, of which `Some(None)` says that it had no values. `None`:
    /// there is no such answer, or it isn't a second sending.
    pub first: Option<Option<Answer>>,
    /// The values of files by the moment at which it was sent, of which its request took some; none as long as it isn't sent.
    pub values: FileValues,
}

/// Reads a number in the forms of `Decimal::read`, which rounds it to 24 places. `None`: the text has none of these forms, or the
/// rounded number is more than 10^13 from zero.
pub fn read_double(text: &[u8]) -> Option<Decimal>
    ensures { IsReadAs (SpellsDecimal text.now) result }
{
    match Decimal::read(text) {
        Ok(d) => Some(d),
        Err(_) => None,
    }
}

/// Whether a number, in metres, may be a distance that a text gives, or a tolerance of distances: it is from 0 to 100,000, both included.
#[tactic(auto, unfolding(crate::specs::Nears::is_length))]
pub(crate) fn is_length(length: &Decimal) -> bool
    ensures { result ≡ is_length length.now }
{
    let units = length.units();
    0 <= units && units <= LONGEST
}

// Reads the words that say how far away a target is: its distance, and the tolerance of that, in metres. `None`: a word is no
// number, or a number lies outside its range.
fn read_range_words(distance: &[u8], tolerance: &[u8]) -> Option<Range>
    ensures { IsReadAs (AreRangeWords distance.now tolerance.now) result }
{
    let distance = read_double(distance)?;
    let tolerance = read_double(tolerance)?;
    if !is_length(&distance) {
        return None;
    }
    if !is_length(&tolerance) {
        return None;
    }
    Some(Range {
        distance,
        tolerance,
    })
}

// Reads what follows the tolerance of a target's angles: nothing, which gives no range, or `DISTANCE TOLERANCE`. `None`: it is neither,
// or a number lies outside its range.
fn read_range(words: Option<&[u8]>) -> Option<Option<Range>>
    ensures { IsReadAs (IsRangeOf (option_copied words.entry)) result }
{
    match words {
        None => Some(None),
        Some(words) => match read_range_words(before(b' ', words), behind(b' ', words)) {
            Some(range) => Some(Some(range)),
            None => None,
        },
    }
}

// Reads the words that say where a target is: its number, its horizontal and vertical angle, and the tolerance of both, in
// radians; and what follows these four, as `read_range` does. `None`: a word is no number, or a number lies outside its range.
fn read_near_words(
    target: &[u8],
    hz: &[u8],
    v: &[u8],
    tolerance: &[u8],
    words: Option<&[u8]>,
) -> Option<Near>
    ensures { IsReadAs (AreNearWords target.now hz.now v.now tolerance.now (option_copied words.entry)) result }
{
    let target = target_of(target)?;
    let hz = read_double(hz)?;
    let v = read_double(v)?;
    let tolerance = read_double(tolerance)?;
    let range = read_range(words)?;
    let place = Direction { hz, v };
    if !place.is_place() {
        return None;
    }
    if !is_tolerance(&tolerance) {
        return None;
    }
    Some(Near {
        target,
        place,
        tolerance,
        range,
    })
}

/// Reads `T HZ V TOLERANCE` or `T HZ V TOLERANCE DISTANCE TOLERANCE`: a target, its horizontal and vertical angle, and the tolerance of
/// both, in radians; and its distance and the tolerance of that, in metres. `None`: the text has no such form, or a number lies
/// outside its range.
pub(crate) fn read_near(text: &[u8]) -> Option<Near>
    ensures { IsReadAs (IsNearText text.now) result }
{
    let angles = behind(b' ', text);
    let others = behind(b' ', angles);
    let (tolerance, words) = cut_at(b' ', behind(b' ', others));
    read_near_words(
        before(b' ', text),
        before(b' ', angles),
        before(b' ', others),
        tolerance,
        words,
    )
}

/// Whether one of `nears` is of this target.
pub(crate) fn has_near(target: u32, nears: &[Near]) -> bool
    ensures { result ≡ has_near target nears.now }
{
    nears.iter().any(|near| near.target == target)
}

/// The first of `nears` that is of this target. `None`: none of them is.
pub(crate) fn near_of(target: u32, nears: &[Near]) -> Option<Near>
    ensures { result ≡ near_of target nears.now }
{
    nears.iter().copied().find(|near| near.target == target)
}

// The direction that an answer has, if it has one.
fn direction_of(answer: &Answer) -> Option<Direction>
    ensures { result ≡ direction_of answer.now }
{
    match *answer {
        Answer::Angles { hz, v }
        | Answer::Measured { hz, v, .. }
        | Answer::MeasuredMode { hz, v, .. } => Some(Direction { hz, v }),
        _ => None,
    }
}

// The distance that an answer has, if it has one, in metres.
fn distance_of(answer: &Answer) -> Option<Decimal>
    ensures { result ≡ distance_of answer.now }
{
    match *answer {
        Answer::Measured { distance, .. } | Answer::MeasuredMode { distance, .. } => Some(distance),
        _ => None,
    }
}

// Whether the answers of a call have a direction, that is, a measured horizontal and vertical angle (`direction_of`).
fn call_gives_direction(call: &Call) -> bool
    ensures { result ≡ call_gives_direction call.now }
{
    matches!(
        call,
        Call::GetAngle { .. } | Call::SimpleMea { .. } | Call::QuickDist | Call::MeasDistance { .. }
    )
}

/// Whether the answers of what is asked have a direction; those of a raw request have none.
pub(crate) fn asked_gives_direction(asked: &Asked) -> bool
    ensures { result ≡ asked_gives_direction asked.now }
{
    match asked {
        Asked::Table(call) => call_gives_direction(call),
        Asked::Raw(_) => false,
    }
}

// Whether the answers of a call have a distance (`distance_of`).
fn call_gives_distance(call: &Call) -> bool
    ensures { result ≡ call_gives_distance call.now }
{
    matches!(
        call,
        Call::SimpleMea { .. } | Call::QuickDist | Call::MeasDistance { .. }
    )
}

/// Whether the answers of what is asked have a distance; those of a raw request have none.
pub(crate) fn asked_gives_distance(asked: &Asked) -> bool
    ensures { result ≡ asked_gives_distance asked.now }
{
    match asked {
        Asked::Table(call) => call_gives_distance(call),
        Asked::Raw(_) => false,
    }
}

// Whether there is a direction that isn't near the place of the target.
fn is_away(near: &Near, direction: Option<Direction>) -> bool
    ensures { result ≡ is_away near.now direction }
{
    match direction {
        Some(direction) => !direction.is_near(&near.place, &near.tolerance),
        None => false,
    }
}

// Whether there is a distance that is further from the one of the range than the range's tolerance. `false` if no range is known.
fn is_out_of_range(range: Option<Range>, distance: Option<Decimal>) -> bool
    ensures { result ≡ is_out_of_range range distance }
{
    match (range, distance) {
        (Some(range), Some(distance)) => !distance.within(&range.distance, &range.tolerance),
        _ => false,
    }
}

/// Whether an answer was measured away from its target: its direction isn't near the target's place, or its distance isn't the
/// target's. `false` if no place is known (`near` is `None`), or the answer has no direction; a distance is looked at only if the place has
/// one.
#[tactic(auto, unfolding(crate::specs::Nears::is_off_target))]
pub fn is_off_target(near: Option<Near>, answer: &Answer) -> bool
    ensures { result ≡ is_off_target near answer.now }
{
    let Some(near) = near else { return false };
    is_away(&near, direction_of(answer)) || is_out_of_range(near.range, distance_of(answer))
}
