//! Why a run stopped early: each fault has one number and one printed line.

ghost use Rattle.std.specs.Prelude.{◌≡◌};
ghost use Rattle.gc_lines.specs.Ports.{WritesIfOk};
ghost use Rattle.gc_texts.specs.Faults.{run_fault_number, run_fault_text, fault_line, end_of_serving};

use gc_lines::{READ_FAILED, READS_SPENT, ServeFault, Served, WRITE_FAILED};
use std::io::{self, Write};
use thiserror::Error;

/// Why an engine of the program stopped. `Display` prints what the program prints after its name.
#[derive(Clone, Copy, Debug, PartialEq, Eq, Error)]
#[error("fault {}", self.number())]
pub enum RunFault {
    /// A scene has more than 32 targets, 32 faults, 16 replies or 32 delays.
    SceneFull,
    /// A read of the input, of the link or of a file that the program was told to read failed, or such a file couldn't be opened.
    Read,
    /// A write to the link, or of replies to the output, failed after the first `bytes` bytes of a line. `replies` is the number
    /// of whole lines before that line. In a station's run it is the number of commands that stand before the cycle's next one in
    /// the station's list, those of the setup included; 0 before the first cycle.
    #[error("fault {} reply {replies} byte {bytes}", self.number())]
    Write { replies: u64, bytes: usize },
    /// As many reads were made as are allowed, or, by a station, as many acts.
    TooManyReads,
    /// The other end of the link closed it.
    LinkClosed,
    /// No more replies came, although the link was open.
    Mute,
    /// The clock can't be read, or is before 1970.
    Clock,
    /// No good answer came for as long as `--stale` allows.
    Stale,
    /// Setup commands weren't answered well, and no try is left.
    SetUp,
    /// A station's text has no command of a cycle.
    NoCommand,
    /// This line of the text, counted from 1, is the first faulty one.
    #[error("fault {} line {line}", self.number())]
    Schedule { line: u32 },
    /// Memory was refused.
    Memory,
    /// The text has more than 65,536 bytes.
    InputTooLong,
    /// A bind, connect or accept failed, a connection would have been one to itself, a name wasn't found, or a device isn't there
    /// or can't be used for a reason that is neither `NoTerminal` nor `Held` nor `Forbidden`.
    Socket,
    /// The output failed, or the file of records can't be used for a reason that is neither `RecordsUnopened` nor `RecordsHeld`
    /// nor `RecordsForeign`.
    Output,
    /// Standard input, output or error is closed, or `/dev/null` couldn't be opened in its place.
    StreamClosed,
    /// The log can't be opened for reading and appending, can't be looked at or read, is no regular file or no log, or is held by
    /// another program or by the records of this one; or an incomplete last line couldn't be cut off.
    Log,
    /// The path of the device leads to something that is no terminal, or doesn't answer as one.
    NoTerminal,
    /// Another program, or another opening of this one, holds the device.
    Held,
    /// This program may not read and write the device.
    Forbidden,
    /// The file of records can't be opened for reading and appending, or is no regular file.
    RecordsUnopened,
    /// Another program, or another opening of this one, holds the file of records or its copy, or may just have put another file
    /// in its place.
    RecordsHeld,
    /// The file of records neither begins as this run's records do, nor is a first part of that beginning, as an empty file is.
    RecordsForeign,
}

impl RunFault {
    /// The number of the fault, 41 to 60 and 64 to 66. This project's own.
    pub fn number(self) -> u8
        ensures { result ≡ run_fault_number self }
    {
        match self {
            RunFault::SceneFull => 41,
            RunFault::Read => READ_FAILED,
            RunFault::Write { .. } => WRITE_FAILED,
            RunFault::TooManyReads => READS_SPENT,
            RunFault::LinkClosed => 45,
            RunFault::Mute => 46,
            RunFault::Clock => 47,
            RunFault::Stale => 48,
            RunFault::SetUp => 49,
            RunFault::NoCommand => 50,
            RunFault::Schedule { .. } => 51,
            RunFault::Memory => 52,
            RunFault::InputTooLong => 53,
            RunFault::Socket => 54,
            RunFault::Output => 55,
            RunFault::StreamClosed => 56,
            RunFault::Log => 57,
            RunFault::NoTerminal => 58,
            RunFault::Held => 59,
            RunFault::Forbidden => 60,
            RunFault::RecordsUnopened => 64,
            RunFault::RecordsHeld => 65,
            RunFault::RecordsForeign => 66,
        }
    }

    /// Writes the line of the fault: the program's name, and the text that `Display` prints. It writes that text itself, since the
    /// derive states none that the clause could name; a case for each variant compares the two.
    pub fn tell<E: Write>(self, messages: &mut E) -> io::Result<()>
        ensures { WritesIfOk E.contents messages.old messages.new result (fault_line (run_fault_text self)) }
    {
        match self {
            RunFault::Write { replies, bytes } => writeln!(
                messages,
                "geocom: fault {} reply {replies} byte {bytes}",
                self.number()
            ),
            RunFault::Schedule { line } => writeln!(
                messages,
                "geocom: fault {} line {line}",
                self.number()
            ),
            _ => writeln!(messages, "geocom: fault {}", self.number()),
        }
    }
}

/// How serving ended, as the end of a run: well, or with the fault of serving, which is `Read`, `Write` or `TooManyReads`.
pub fn end_of_serving(end: Result<Served, ServeFault>) -> Result<(), RunFault>
    ensures { result ≡ end_of_serving end }
{
    match end {
        Ok(_) => Ok(()),
        Err(ServeFault::Read { .. }) => Err(RunFault::Read),
        Err(ServeFault::Write { replies, bytes }) => Err(RunFault::Write { replies, bytes }),
        Err(ServeFault::TooManyReads { .. }) => Err(RunFault::TooManyReads),
    }
}
