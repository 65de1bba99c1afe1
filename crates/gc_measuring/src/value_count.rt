//! How many values an answer has, by the procedure that it answers.

ghost use Rattle.std.specs.Prelude.{◌≡◌};
ghost use Rattle.gc_measuring.specs.ValueCounts.{values_answered};

use gc_catalogue::{Asked, Call};
use gc_texts::{Description, described_as};
use gc_values::Kind;

/// How many values the answers of a procedure have, each up to a comma.
#[derive(Clone, Copy)]
pub(crate) struct ValueCount {
    /// How many they have at least.
    pub least: usize,
    /// Whether they may have more.
    pub more: bool,
}

impl ValueCount {
    /// The count of the answers to `asked`, where these procedures are described. `None`: the procedure isn't in the table, and isn't
    /// described.
    pub(crate) fn of(asked: &Asked, described: &[Description]) -> Option<ValueCount> {
        match asked {
            Asked::Table(call) => Some(ValueCount {
                least: values_answered(call),
                more: may_have_commas(call),
            }),
            Asked::Raw(raw) => {
                let description = described_as(raw.number(), described)?;
                Some(ValueCount::described(description))
            }
        }
    }

    // The count of the answers of a described procedure.
    fn described(description: &Description) -> ValueCount {
        ValueCount {
            least: description.values.len(),
            more: description.more || has_strings(description),
        }
    }

    /// Whether an answer may have so many values.
    pub(crate) fn suits(self, values: usize) -> bool {
        if self.more {
            self.least <= values
        } else {
            self.least == values
        }
    }
}

// How many values an answer to a call has.
fn values_answered(call: &Call) -> usize
    ensures { result ≡ values_answered call.now }
{
    match call {
        Call::GetPrecision
        | Call::InstrumentNo
        | Call::InstrumentName
        | Call::IntTemp
        | Call::GetHeight
        | Call::GetFace
        | Call::GetPrism => 1,
        Call::GetAngle { .. } => 2,
        Call::ComVersion | Call::CsvVersion | Call::SimpleMea { .. } | Call::QuickDist => 3,
        Call::GetStation | Call::MeasDistance { .. } => 4,
        Call::GetDate => 6,
        _ => 0,
    }
}

// Whether a value of a described procedure's answers is a string, which may have commas.
fn has_strings(description: &Description) -> bool {
    let mut values = description.values.iter();
    values.any(|field| matches!(field.kind, Kind::Text))
}

// Whether a value of an answer to a call may have commas, which part an expectation's items, too: a string may.
fn may_have_commas(call: &Call) -> bool {
    matches!(call, Call::InstrumentName)
}
