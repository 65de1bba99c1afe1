//! How answering a source's frames ends: served to the end, or a fault that says what was written.

ghost use Rattle.std.specs.Prelude.{◌≡◌, Some};
ghost use Rattle.gc_lines.specs.Answering.{serve_fault_number, serve_fault_text};

use std::error::Error;
use std::fmt;

/// The fault number of a read that failed, in every text that names the fault. It is this project's own, as are the two below.
pub const READ_FAILED: u8 = 42;

/// The fault number of a write that failed.
pub const WRITE_FAILED: u8 = 43;

/// The fault number of a run that made all the reads that it was allowed ([`ServeFault::TooManyReads`]): none of them was the end.
pub const READS_SPENT: u8 = 44;

/// The input was answered to its end.
#[derive(Clone, Copy, Debug)]
pub struct Served {
    /// How many replies were written whole.
    pub replies: u64,
}

/// Why answering stopped before a read was the end of the input. `replies` is how many replies were written whole.
#[derive(Clone, Copy, Debug, PartialEq, Eq)]
pub enum ServeFault {
    /// The source failed. The replies to all that was read are written.
    Read { replies: u64 },
    /// The sink failed. It took only the first `bytes` bytes of the next reply, its line end counted.
    Write { replies: u64, bytes: usize },
    /// All reads that were allowed were answered, and none was the end. The replies to all that was read are written.
    TooManyReads { replies: u64 },
}

impl ServeFault {
    /// The number of the fault: 42 for `Read`, 43 for `Write`, 44 for `TooManyReads`.
    pub fn number(self) -> u8
        ensures { result ≡ serve_fault_number self }
    {
        match self {
            ServeFault::Read { .. } => READ_FAILED,
            ServeFault::Write { .. } => WRITE_FAILED,
            ServeFault::TooManyReads { .. } => READS_SPENT,
        }
    }
}

impl fmt::Display for ServeFault {
    ghost output = { λ fault. Some (serve_fault_text fault) };

    fn fmt<W: fmt::Write>(&self, f: &mut fmt::Formatter<W>) -> fmt::Result {
        match self {
            ServeFault::Write { replies, bytes } => write!(
                f,
                "fault {WRITE_FAILED} reply {replies} byte {bytes}"
            ),
            _ => write!(f, "fault {}", self.number()),
        }
    }
}

impl Error for ServeFault {}
