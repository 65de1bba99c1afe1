//! Causes: why a connection is closed, or a run ends, and the fault that the program reports then.

ghost use Rattle.std.specs.Prelude.{◌≡◌};
ghost use Rattle.gc_station.specs.Causes.{fault_of_cause};

use gc_texts::RunFault;

/// Why a connection is closed, or a run ends.
#[derive(Clone, Copy)]
pub enum Cause {
    /// No command of any cycle is left to be sent, and none is outstanding.
    Done,
    /// All that is outstanding has timed out, and no reply line came for twice the longest deadline. This time counts from the
    /// latest of: the last reply line; the first request after that line, on this connection, or after a resynchronization between two cycles;
    /// and the end of this connection's draining.
    Dead,
    /// A read failed.
    Read,
    /// The other end closed the connection, or the device is at its end.
    End,
    /// A write failed: only its first `bytes` bytes were sent. `requests` is the number of commands before the cycle's next one
    /// in the station's list, those of the setup included; 0 before the first cycle.
    Write { requests: usize, bytes: usize },
    /// The clock can't be read.
    Clock,
    /// No connection could be made.
    Open,
    /// A command of the setup wasn't answered well.
    SetUp,
    /// All turns are used up.
    Turns,
    /// No answer of a good quality was recorded for as long as the plan allows.
    Stale,
    /// The end of the run was asked for.
    Stopped,
}

impl Cause {
    /// The fault of a run that stopped for this cause; `None` if the run is done, or its end was asked for.
    pub fn fault(self) -> Option<RunFault>
        ensures { result ≡ fault_of_cause self }
    {
        match self {
            Cause::Done => None,
            Cause::Dead => Some(RunFault::Mute),
            Cause::Read => Some(RunFault::Read),
            Cause::End => Some(RunFault::LinkClosed),
            Cause::Write { requests, bytes } => Some(RunFault::Write {
                replies: requests as u64,
                bytes,
            }),
            Cause::Clock => Some(RunFault::Clock),
            Cause::Open => Some(RunFault::Socket),
            Cause::SetUp => Some(RunFault::SetUp),
            Cause::Turns => Some(RunFault::TooManyReads),
            Cause::Stale => Some(RunFault::Stale),
            Cause::Stopped => None,
        }
    }
}
