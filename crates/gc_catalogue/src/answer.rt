//! Answers: one variant for each shape, and what a reply says in answer to a call.

use crate::call::{DateTime, Station};
use gc_values::{Decimal, Text, ValueFault};

/// What an instrument sends where both codes are 0. Where there is no answer, `Nothing` stands. Angles are in radians, lengths in
/// metres.
#[derive(Clone, Copy, Debug, PartialEq, Eq)]
pub enum Answer {
    /// No values.
    Nothing,
    Short(i16),
    /// Release, version and subversion.
    Version(i16, i16, i16),
    Long(i32),
    Name(Text),
    Date(DateTime),
    /// In degrees Celsius.
    Temperature(Decimal),
    Place(Station),
    /// The reflector's height.
    Height(Decimal),
    Angles {
        hz: Decimal,
        v: Decimal,
    },
    Measured {
        hz: Decimal,
        v: Decimal,
        distance: Decimal,
    },
    MeasuredMode {
        hz: Decimal,
        v: Decimal,
        distance: Decimal,
        mode: i32,
    },
}

/// The shape of an answer: the variant of `Answer`, without its values. All answers of a procedure have one shape.
#[derive(Clone, Copy)]
pub enum Shape {
    Nothing,
    Short,
    Version,
    Long,
    Name,
    Date,
    Temperature,
    Place,
    Height,
    Angles,
    Measured,
    MeasuredMode,
}

/// What a reply says in answer to a call, or to a request for a procedure that isn't in the table.
#[derive(Clone, Copy, Debug, PartialEq, Eq)]
pub enum Reading {
    /// Both codes are 0: the procedure succeeded, with this answer. For a procedure that isn't in the table the answer is
    /// `Answer::Nothing`, whatever the parameters of the reply are.
    Value(Answer),
    /// The return code, which isn't 0; parameters beside it are not read.
    Refused(u16),
    /// The communication code, which isn't 0; nothing else is read.
    ComFault(u16),
    /// Both codes are 0, and the parameters can't be read: as the call's answer, or, for a procedure that isn't in the
    /// table, as at most 16 items.
    Unreadable(ValueFault),
}
