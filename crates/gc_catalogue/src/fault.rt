//! Why a request names no call: the faults, their numbers and their texts.

ghost use Rattle.std.specs.Prelude.{◌≡◌, Some};
ghost use Rattle.gc_catalogue.specs.CallFault.{call_fault_number, refusal_number, call_fault_text};

use gc_values::ValueFault;
use std::error::Error;
use std::fmt;

/// Why a request names no call. The numbers are this project's own.
#[derive(Clone, Copy, Debug, PartialEq, Eq)]
pub enum CallFault {
    /// No procedure has the number.
    Unknown,
    /// The parameters can't be read as the procedure's.
    Parameters(ValueFault),
}

impl CallFault {
    /// The fault's number: 21 for `Unknown`, 22 for `Parameters`.
    pub fn number(self) -> u8
        ensures { result ≡ call_fault_number self }
    {
        match self {
            CallFault::Unknown => 21,
            CallFault::Parameters(_) => 22,
        }
    }

    /// The number that users of the program and of the library see: 21, or that of the parameters' fault, 11 to 15.
    pub fn refusal_number(self) -> u8
        ensures { result ≡ refusal_number self }
    {
        match self {
            CallFault::Unknown => self.number(),
            CallFault::Parameters(fault) => fault.number(),
        }
    }
}

impl fmt::Display for CallFault {
    ghost output = { λ fault. Some (call_fault_text fault) };

    fn fmt<W: fmt::Write>(&self, f: &mut fmt::Formatter<W>) -> fmt::Result {
        match self {
            CallFault::Unknown => f.write_str("no procedure has the number"),
            CallFault::Parameters(fault) => fault.fmt(f),
        }
    }
}

impl Error for CallFault {}
