//! Why a value is refused, and the number that each refusal has.

ghost use Rattle.std.specs.Prelude.{◌≡◌};
ghost use Rattle.gc_values.specs.ValueFault.{value_fault_number};

use std::error::Error;
use std::fmt;

/// Why a value or a list of parameters is refused. The kinds and their numbers are this project's own.
///
/// No refusal changes the bytes that were read.
#[derive(Clone, Copy, Debug, PartialEq, Eq)]
pub enum ValueFault {
    /// The bytes haven't the form of their kind.
    Spelling,
    /// The form is there, and the value or its length is out of the kind's range; or [`Decimal::new`](crate::Decimal::new) was
    /// given a scale above 24.
    Range,
    /// The number of double quotes in a list of parameters is odd.
    OpenQuote,
    /// A list has more than 16 parameters.
    TooMany,
    /// The list has another number of parameters than the procedure takes.
    Count,
}

impl ValueFault {
    /// The fault's number, from 11 to 15.
    pub fn number(self) -> u8
        ensures { result ≡ value_fault_number self }
    {
        match self {
            ValueFault::Spelling => 11,
            ValueFault::Range => 12,
            ValueFault::OpenQuote => 13,
            ValueFault::TooMany => 14,
            ValueFault::Count => 15,
        }
    }
}

/// Why the value or the list is refused, in words.
impl fmt::Display for ValueFault {
    ghost use Rattle.std.specs.Prelude.{Some};
    ghost use Rattle.gc_values.specs.ValueFault.{value_fault_text};

    ghost output = { λ e. Some (value_fault_text e) };

    fn fmt<W: fmt::Write>(&self, f: &mut fmt::Formatter<W>) -> fmt::Result {
        match self {
            ValueFault::Spelling => f.write_str("the parameter hasn't the form of its kind"),
            ValueFault::Range => f.write_str("the parameter is out of its kind's range"),
            ValueFault::OpenQuote => f.write_str("a string isn't closed"),
            ValueFault::TooMany => f.write_str("there are more than 16 parameters"),
            ValueFault::Count => f.write_str("the number of parameters is another"),
        }
    }
}

impl Error for ValueFault {}
