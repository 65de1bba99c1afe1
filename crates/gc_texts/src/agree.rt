//! Chains that are sent twice: how far apart the answers of the two sendings may be, and whether two answers agree.

ghost use Rattle.std.specs.Prelude.{◌≡◌, option_map};
ghost use Rattle.gc_texts.specs.LineForms.{IsReadAs};
ghost use Rattle.gc_texts.specs.Agrees.{AreAgreeWords, IsAgreeText, hz_agrees, place_agrees, is_same_date, answers_agree, agrees};

use crate::cuts::{before, behind};
use crate::near::{is_length, read_double};
use gc_catalogue::{Answer, DateTime, Station};
use gc_values::{Decimal, Direction, is_tolerance};

/// How far apart the values of a chain that is sent twice may be, as a line `agree` gives it.
#[derive(Clone, Copy)]
pub struct Agree {
    /// Horizontal angles, on the circle, in radians: from 0 to half a turn.
    pub hz: Decimal,
    /// Vertical angles, in radians: from 0 to half a turn.
    pub v: Decimal,
    /// Distances, coordinates and heights, in metres: from 0 to 100,000.
    pub distance: Decimal,
}

/// Which sending of its chain a task belongs to.
#[derive(Clone, Copy)]
pub enum Twice {
    /// The only one: an attempt of its chain sends it once.
    Once,
    /// The first of the two in an attempt of its chain.
    First,
    /// The second of the two, whose answer is compared with that of the first.
    Second {
        /// How far apart their values may be.
        agree: Agree,
        /// The place of its command in the chain, counted from 0: the `link` of the same command in the first sending.
        nth: usize,
    },
}

// Reads the words that say how far apart values may be: horizontal and vertical angles, in radians, and distances, in metres.
// `None`: a word is no number, or a number lies outside its range.
fn read_agree_words(hz: &[u8], v: &[u8], distance: &[u8]) -> Option<Agree>
    ensures { IsReadAs (AreAgreeWords hz.now v.now distance.now) result }
{
    let hz = read_double(hz)?;
    let v = read_double(v)?;
    let distance = read_double(distance)?;
    if !is_tolerance(&hz) {
        return None;
    }
    if !is_tolerance(&v) {
        return None;
    }
    if !is_length(&distance) {
        return None;
    }
    Some(Agree { hz, v, distance })
}

/// Reads `HZ V D`: how far apart horizontal and vertical angles may be, in radians, and distances, in metres. `None`: the text has no
/// such form, or a number lies outside its range.
pub(crate) fn read_agree(text: &[u8]) -> Option<Agree>
    ensures { IsReadAs (IsAgreeText text.now) result }
{
    let others = behind(b' ', text);
    read_agree_words(
        before(b' ', text),
        before(b' ', others),
        behind(b' ', others),
    )
}

// Whether two horizontal angles are near enough to each other, on the circle.
fn hz_agrees(agree: &Agree, first: Decimal, second: Decimal) -> bool
    ensures { result ≡ hz_agrees agree.now first second }
{
    let place = Direction {
        hz: first,
        v: Decimal::zero(),
    };
    Direction {
        hz: second,
        v: Decimal::zero(),
    }
    .is_near(&place, &agree.hz)
}

// Whether each coordinate and the instrument's height of two stations are near enough to each other.
fn place_agrees(agree: &Agree, first: &Station, second: &Station) -> bool
    ensures { result ≡ place_agrees agree.now first.now second.now }
{
    first.e0.within(&second.e0, &agree.distance)
        && first.n0.within(&second.n0, &agree.distance)
        && first.h0.within(&second.h0, &agree.distance)
        && first.hi.within(&second.hi, &agree.distance)
}

// Whether two moments of an instrument's clock are the same.
fn is_same_date(first: &DateTime, second: &DateTime) -> bool
    ensures { result ≡ is_same_date first.now second.now }
{
    first.year == second.year
        && first.month == second.month
        && first.day == second.day
        && first.hour == second.hour
        && first.minute == second.minute
        && first.second == second.second
}

// Whether two answers agree: they have the same shape, and of their values the angles, distances, coordinates and heights are near
// enough to each other, and any others are the same.
fn answers_agree(agree: &Agree, first: &Answer, second: &Answer) -> bool
    ensures { result ≡ answers_agree agree.now first.now second.now }
{
    match (first, second) {
        (Answer::Nothing, Answer::Nothing) => true,
        (Answer::Short(x), Answer::Short(y)) => x == y,
        (Answer::Version(x, y, z), Answer::Version(a, b, c)) => x == a && y == b && z == c,
        (Answer::Long(x), Answer::Long(y)) => x == y,
        (Answer::Name(x), Answer::Name(y)) => x.as_bytes() == y.as_bytes(),
        (Answer::Date(x), Answer::Date(y)) => is_same_date(x, y),
        (Answer::Temperature(x), Answer::Temperature(y)) => x == y,
        (Answer::Place(x), Answer::Place(y)) => place_agrees(agree, x, y),
        (Answer::Height(x), Answer::Height(y)) => x.within(y, &agree.distance),
        (
            Answer::Angles { hz, v },
            Answer::Angles {
                hz: other_hz,
                v: other_v,
            },
        ) => { hz_agrees(agree, *hz, *other_hz) && v.within(other_v, &agree.v) }
        (
            Answer::Measured { hz, v, distance },
            Answer::Measured {
                hz: other_hz,
                v: other_v,
                distance: other_distance,
            },
        ) => {
            hz_agrees(agree, *hz, *other_hz)
                && v.within(other_v, &agree.v)
                && distance.within(other_distance, &agree.distance)
        }
        (
            Answer::MeasuredMode {
                hz,
                v,
                distance,
                mode,
            },
            Answer::MeasuredMode {
                hz: other_hz,
                v: other_v,
                distance: other_distance,
                mode: other_mode,
            },
        ) => {
            hz_agrees(agree, *hz, *other_hz)
                && v.within(other_v, &agree.v)
                && distance.within(other_distance, &agree.distance)
                && mode == other_mode
        }
        _ => false,
    }
}

/// Whether the answers of two sendings of a command agree: neither has values; or both have, of the same shape, and angles, distances,
/// coordinates and heights are at most as far apart as `agree` says, horizontal angles on the circle, and all other values are the
/// same.
pub fn agrees(agree: &Agree, first: &Option<Answer>, second: Option<&Answer>) -> bool
    ensures { result ≡ agrees agree.now first.now (option_map (λ a. a.now) second.entry) }
{
    match (first, second) {
        (None, None) => true,
        (Some(first), Some(second)) => answers_agree(agree, first, second),
        _ => false,
    }
}
