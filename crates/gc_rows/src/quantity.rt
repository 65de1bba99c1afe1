//! Quantities: the values of an answer, each as a text, and the columns in which they are.

ghost use Rattle.std.specs.Prelude.{◌≡◌, ◌+◌, ◌≤◌, length, IfSome};
ghost use Rattle.gc_catalogue.specs.Answers.{answer_fields};
ghost use Rattle.gc_catalogue.specs.Structs.{date_values, station_values};
ghost use Rattle.gc_rows.specs.Quantities.{column_of, column_of_whole, quantity_text};
ghost use Rattle.gc_rows.specs.declared.quantity.TheConstants.{QUANTITIES};

use arrayvec::ArrayVec;
use gc_catalogue::{Answer, Call, DateTime, Station};
use gc_lines::append;
use gc_values::{Value, push_bool, push_decimal, push_long, push_short};
use itoa::Buffer;

/// How many columns of quantities there are.
pub(crate) const QUANTITIES: usize = 24;

/// The most values of an answer.
pub(crate) const MOST_VALUES: usize = 6;

/// The most bytes of a quantity.
pub(crate) const QUANTITY_ROOM: usize = 64;

/// The values of an answer, in their order on the line.
pub(crate) fn answer_values(answer: &Answer) -> ArrayVec<Value, MOST_VALUES>
    ensures { result.items ≡ (answer_fields answer.now).values }
{
    let mut values = ArrayVec::new();
    match answer {
        Answer::Nothing => (),
        Answer::Short(n) => values.push(Value::Short(*n)),
        Answer::Version(release, version, subversion) => {
            values.push(Value::Short(*release));
            values.push(Value::Short(*version));
            values.push(Value::Short(*subversion));
        }
        Answer::Long(n) => values.push(Value::Long(*n)),
        Answer::Name(name) => values.push(Value::Text(*name)),
        Answer::Date(date) => return date_values(date),
        Answer::Temperature(t) => values.push(Value::Double(*t)),
        Answer::Place(station) => return station_values(station),
        Answer::Height(h) => values.push(Value::Double(*h)),
        Answer::Angles { hz, v } => {
            values.push(Value::Double(*hz));
            values.push(Value::Double(*v));
        }
        Answer::Measured { hz, v, distance } => {
            values.push(Value::Double(*hz));
            values.push(Value::Double(*v));
            values.push(Value::Double(*distance));
        }
        Answer::MeasuredMode {
            hz,
            v,
            distance,
            mode,
        } => {
            values.push(Value::Double(*hz));
            values.push(Value::Double(*v));
            values.push(Value::Double(*distance));
            values.push(Value::Long(*mode));
        }
    }
    values
}

// The values of a date and time, in their order on the line: year, month, day, hour, minute, second.
fn date_values(date: &DateTime) -> ArrayVec<Value, MOST_VALUES>
    ensures { result.items ≡ date_values date.now }
{
    let mut values = ArrayVec::new();
    values.push(Value::Short(date.year));
    values.push(Value::Byte(date.month));
    values.push(Value::Byte(date.day));
    values.push(Value::Byte(date.hour));
    values.push(Value::Byte(date.minute));
    values.push(Value::Byte(date.second));
    values
}

// The values of a station's position, in their order on the line: easting, northing, height, and height of the instrument.
fn station_values(station: &Station) -> ArrayVec<Value, MOST_VALUES>
    ensures { result.items ≡ station_values station.now }
{
    let mut values = ArrayVec::new();
    values.push(Value::Double(station.e0));
    values.push(Value::Double(station.n0));
    values.push(Value::Double(station.h0));
    values.push(Value::Double(station.hi));
    values
}

/// The column of the first value of a call's answer, counted from 0; the other values have the columns directly after it, in
/// order. `None` if the answer has no quantity.
pub(crate) fn column_of(call: &Call, answer: &Answer) -> Option<usize>
    ensures is { result ≡ column_of call.now answer.now }
    ensures fits { IfSome result (λ first. first + length (answer_fields answer.now).values ≤ QUANTITIES) }
{
    match answer {
        Answer::Nothing => None,
        Answer::Angles { .. } | Answer::Measured { .. } | Answer::MeasuredMode { .. } => Some(0),
        Answer::Place(_) => Some(4),
        Answer::Height(_) => Some(8),
        Answer::Temperature(_) => Some(11),
        Answer::Version(..) => Some(13),
        Answer::Name(_) => Some(17),
        Answer::Date(_) => Some(18),
        Answer::Short(_) | Answer::Long(_) => column_of_whole(call),
    }
}

// The column of an answer that is one whole number (`Answer::Short`, `Answer::Long`), by the call: that of a face, of a type of
// prism, of a number of places, or of a serial number. `None` for any other call: its number is no quantity.
fn column_of_whole(call: &Call) -> Option<usize>
    ensures is { result ≡ column_of_whole call.now }
    ensures fits { IfSome result (λ column. column + 1 ≤ QUANTITIES) }
{
    match call {
        Call::GetFace => Some(9),
        Call::GetPrism => Some(10),
        Call::GetPrecision => Some(12),
        Call::InstrumentNo => Some(16),
        _ => None,
    }
}

/// A value as a quantity: a number in its one written form, a byte as a number, a boolean as 0 or 1, and the bytes of a text without
/// their quotes.
pub(crate) fn quantity_text(value: &Value) -> ArrayVec<u8, QUANTITY_ROOM>
    ensures { result.items ≡ quantity_text value.now }
{
    let mut text = ArrayVec::new();
    match value {
        Value::Double(d) => push_decimal(&mut text, d),
        Value::Long(n) => push_long(&mut text, *n),
        Value::Short(n) => push_short(&mut text, *n),
        Value::Byte(n) => append(&mut text, Buffer::new().format(*n).as_bytes()),
        Value::Bool(b) => push_bool(&mut text, *b),
        Value::Text(bytes) => append(&mut text, bytes.as_bytes()),
    }
    text
}
