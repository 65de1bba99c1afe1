//! Where an answer of a described procedure was measured, by the names of its columns.

ghost use Rattle.std.specs.Prelude.{◌≡◌, drop, map};
ghost use Rattle.std.specs.Str.{bytes_eq};
ghost use Rattle.gc_texts.specs.Fields.{field_seen};
ghost use Rattle.gc_texts.specs.Measured.{decimal_in, direction_from, first_value, measured_direction, measured_distance, value_under};

use crate::field::Field;
use gc_values::{Decimal, Direction, Value};

// The value at a place, counted from 0. `None`: there are fewer.
#[tactic(auto, using(crate::proofs::MeasuredSteps::value_there, crate::proofs::MeasuredSteps::value_past))]
pub(crate) fn value_at(values: &[Value], place: usize) -> Option<Value>
    ensures { result ≡ first_value (drop place values.now) }
{
    if place < values.len() {
        Some(values[place])
    } else {
        None
    }
}

// Whether a field has this name.
pub(crate) fn has_name(field: &Field, name: &[u8]) -> bool
    ensures { result ≡ bytes_eq field.now.name.items name.now }
{
    field.name.as_slice() == name
}

/// The value in the column of this name, of values that are in the order of these fields. `None`: no field has the name, or there are fewer
/// values.
pub fn value_under(name: &[u8], fields: &[Field], values: &[Value]) -> Option<Value>
    ensures { result ≡ value_under name.now (map field_seen fields.now) values.now }
{
    for (k, field) in fields.iter().enumerate() {
        if has_name(field, name) {
            return value_at(values, k);
        }
    }
    None
}

// The decimal that a value is. `None`: there is no value, or it is none.
pub(crate) fn decimal_in(value: Option<Value>) -> Option<Decimal>
    ensures { result ≡ decimal_in value }
{
    match value {
        Some(Value::Double(d)) => Some(d),
        _ => None,
    }
}

// The decimal in the column of this name, as `value_under`. `None`: there is none.
fn decimal_under(name: &[u8], fields: &[Field], values: &[Value]) -> Option<Decimal>
    ensures { result ≡ decimal_in (value_under name.now (map field_seen fields.now) values.now) }
{
    decimal_in(value_under(name, fields, values))
}

// The direction of two angles, if both are there.
fn direction_from(hz: Option<Decimal>, v: Option<Decimal>) -> Option<Direction>
    ensures { result ≡ direction_from hz v }
{
    match (hz, v) {
        (Some(hz), Some(v)) => Some(Direction { hz, v }),
        _ => None,
    }
}

/// The direction in which an answer with these values, in the order of these fields, was measured: what is in the columns `hz_rad` and
/// `v_rad`. `None`: one of them isn't there.
pub fn measured_direction(fields: &[Field], values: &[Value]) -> Option<Direction>
    ensures { result ≡ measured_direction (map field_seen fields.now) values.now }
{
    let hz = decimal_under(b"hz_rad", fields, values);
    let v = decimal_under(b"v_rad", fields, values);
    direction_from(hz, v)
}

/// The distance that an answer with these values, in the order of these fields, has: what is in the column `distance_m`. `None`: it isn't
/// there.
pub fn measured_distance(fields: &[Field], values: &[Value]) -> Option<Decimal>
    ensures { result ≡ measured_distance (map field_seen fields.now) values.now }
{
    decimal_under(b"distance_m", fields, values)
}
