//! The faults of a line, one for each field, their numbers and their texts.

ghost use Rattle.std.specs.Prelude.{◌≡◌, Some};
ghost use Rattle.gc_lines.specs.Faults.{line_fault_number, line_fault_text};

use std::error::Error;
use std::fmt;

/// Why a line was not read or written: its first faulty field from the left, or that it is too long.
///
/// The fields are those of the GeoCOM manual's chapter on the ASCII protocol; their limits and the faults' numbers are this
/// project's own.
#[derive(Clone, Copy, Debug, PartialEq, Eq)]
pub enum LineFault {
    /// 1: a line that is read as a request doesn't begin with `%R1Q,`, or one that is read as a reply not with `%R1P,`.
    Signature,
    /// 2: after the signature there is no run of one to five digits with a value of at most 65535.
    Number,
    /// 3: after the number there is a comma, and after it no run of exactly one digit from 0 to 7.
    Id,
    /// 4: after the number, or after the id where there is one, there is no colon.
    Colon,
    /// 5: after a reply's colon there is no run of one to five digits with a value of at most 65535, or after it neither the
    /// end of the line nor a comma.
    Code,
    /// 6: the line to be written would pass 512 bytes, or a client (`gc_client`) was handed a line of more than 512. Neither
    /// [`read_request`](crate::read_request) nor [`read_reply`](crate::read_reply) returns this fault.
    TooLong,
}

impl LineFault {
    /// The fault's number, 1 to 6.
    pub fn number(self) -> u8
        ensures { result ≡ line_fault_number self }
    {
        match self {
            LineFault::Signature => 1,
            LineFault::Number => 2,
            LineFault::Id => 3,
            LineFault::Colon => 4,
            LineFault::Code => 5,
            LineFault::TooLong => 6,
        }
    }
}

impl fmt::Display for LineFault {
    ghost output = { λ fault. Some (line_fault_text fault) };

    fn fmt<W: fmt::Write>(&self, f: &mut fmt::Formatter<W>) -> fmt::Result {
        f.write_str(match self {
            LineFault::Signature => "the line doesn't begin as a request or a reply",
            LineFault::Number => "the number behind the signature is missing or out of range",
            LineFault::Id => "the transaction id isn't one digit from 0 to 7",
            LineFault::Colon => "the colon is missing",
            LineFault::Code => {
                "the return code is missing, out of range, or followed by something else than a comma"
            }
            LineFault::TooLong => "the line would pass 512 bytes",
        })
    }
}

impl Error for LineFault {}
