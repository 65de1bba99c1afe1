//! Forms: how the answers of a described procedure are read, and which of their values say where they were measured.

ghost use Rattle.std.specs.Prelude.{◌≡◌, drop, map};
ghost use Rattle.gc_catalogue.specs.declared.answer.Reading.{Reading};
ghost use Rattle.gc_texts.specs.Descriptions.{described_as};
ghost use Rattle.gc_texts.specs.Fields.{field_seen};
ghost use Rattle.gc_texts.specs.Forms.{IsFormReading, answer_from, decimal_at, form_for, form_gives_direction, form_gives_distance, form_of, is_compared, measured_part, place_named};

use crate::description::{Description, described_as};
use crate::field::Field;
use crate::kinds::Kinds;
use crate::measured::{decimal_in, has_name, value_at};
use gc_catalogue::{Answer, Reading};
use gc_values::{Decimal, Value};

/// How the answers of a described procedure are read: the kinds of their values, and which of these are the two angles, in radians, and the
/// distance, in metres, of a measurement.
#[derive(Clone, Copy)]
pub struct Form {
    /// The kinds of the values.
    pub kinds: Kinds,
    /// The place of the column `hz_rad` among the values, counted from 0, if there is one.
    pub hz: Option<usize>,
    /// The place of the column `v_rad`.
    pub v: Option<usize>,
    /// The place of the column `distance_m`.
    pub distance: Option<usize>,
}

// The place of the field with this name, counted from 0. `None`: no field has it.
fn place_named(name: &[u8], fields: &[Field]) -> Option<usize>
    ensures { result ≡ place_named name.now (map field_seen fields.now) }
{
    for (k, field) in fields.iter().enumerate() {
        if has_name(field, name) {
            return Some(k);
        }
    }
    None
}

// The decimal at a place of these values, counted from 0. `None`: there is no place, or the value there is no decimal, or missing.
fn decimal_at(values: &[Value], place: Option<usize>) -> Option<Decimal>
    ensures { result ≡ decimal_at values.now place }
{
    match place {
        Some(k) => decimal_in(value_at(values, k)),
        None => None,
    }
}

// The answer that has these as its angles and its distance: `Answer::Nothing` unless both angles are there.
fn answer_from(hz: Option<Decimal>, v: Option<Decimal>, distance: Option<Decimal>) -> Answer
    ensures { result ≡ answer_from hz v distance }
{
    match (hz, v, distance) {
        (Some(hz), Some(v), Some(distance)) => Answer::Measured { hz, v, distance },
        (Some(hz), Some(v), None) => Answer::Angles { hz, v },
        _ => Answer::Nothing,
    }
}

impl Form {
    /// The form of a described procedure's answers.
    pub fn of(description: &Description) -> Form
        ensures { result ≡ form_of description.now }
    {
        let fields = description.values.as_slice();
        Form {
            kinds: description.answers(),
            hz: place_named(b"hz_rad", fields),
            v: place_named(b"v_rad", fields),
            distance: place_named(b"distance_m", fields),
        }
    }

    /// Whether what says where an answer was measured is all that it has in columns: it has both angles, or these and the distance, or
    /// nothing. Only of such an answer does a second sending confirm the columns.
    pub fn is_compared(&self) -> bool
        ensures { result ≡ is_compared self.now }
    {
        match (self.hz, self.v, self.distance) {
            (Some(_), Some(_), Some(_)) => self.kinds.count() == 3,
            (Some(_), Some(_), None) => self.kinds.count() == 2,
            _ => self.kinds.count() == 0,
        }
    }

    // What of an answer with these values says where it was measured.
    fn measured_part(&self, values: &[Value]) -> Answer
        ensures { result ≡ measured_part self.now values.now }
    {
        let hz = decimal_at(values, self.hz);
        let v = decimal_at(values, self.v);
        let distance = decimal_at(values, self.distance);
        answer_from(hz, v, distance)
    }

    /// The reading of a reply whose codes are both 0, with these parameters. `Unreadable`, with the fault of [`Kinds::read`], if they
    /// aren't values of the form's kinds; else the value, which has what the columns of a measurement have: `Answer::Measured` if both
    /// angles and a distance are there, `Answer::Angles` if the angles alone are, and else `Answer::Nothing`.
    pub fn reading(&self, params: &[u8]) -> Reading
        ensures found { IsFormReading self.now params.now result }
        ensures only { (other : Reading) → IsFormReading self.now params.now other → result ≡ other }
    {
        match self.kinds.read(params) {
            Ok(values) => Reading::Value(self.measured_part(values.as_slice())),
            Err(fault) => Reading::Unreadable(fault),
        }
    }
}

/// Whether answers of this form have a direction: both columns `hz_rad` and `v_rad`. `None`, no form, has none.
pub(crate) fn form_gives_direction(form: &Option<Form>) -> bool
    ensures { result ≡ form_gives_direction form.now }
{
    match form {
        Some(form) => form.hz.is_some() && form.v.is_some(),
        None => false,
    }
}

/// Whether answers of this form have a distance: a direction, and the column `distance_m`. `None`, no form, has none.
pub(crate) fn form_gives_distance(form: &Option<Form>) -> bool
    ensures { result ≡ form_gives_distance form.now }
{
    match form {
        Some(form) => form.hz.is_some() && form.v.is_some() && form.distance.is_some(),
        None => false,
    }
}

/// The form of the answers of the procedure with this number, by the description of it among these. `None`: none is of it.
pub fn form_for(rpc: u16, described: &[Description]) -> Option<Form>
    ensures { result ≡ form_for rpc described.now }
{
    match described_as(rpc, described) {
        Some(description) => Some(Form::of(description)),
        None => None,
    }
}
