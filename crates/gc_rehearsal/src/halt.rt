//! Why a rehearsal stopped before its end, and how that is reported: a text or a file was refused, the output failed, memory was
//! refused, or a row is false.

ghost use Rattle.std.specs.Prelude.{◌≡◌};
ghost use Rattle.gc_rehearsal.specs.Claims.{false_row_of};

use crate::claim::Claim;
use crate::reading::Refusal;
use gc_filters::SceneTrouble;
use gc_measuring::Stop;
use gc_texts::{RunFault, Stamp, stamp_text};
use std::io::{self, Write};

/// The number of the fault that a row is false.
pub(crate) const ROW_FALSE: u8 = 70;

/// A row that isn't true: which row it is, counted from 1 over all nights, its moments and place, and its target.
#[derive(Clone, Copy, Drop)]
pub(crate) struct FalseRow {
    pub(crate) row: u64,
    pub(crate) stamp: Stamp,
    pub(crate) target: u32,
}

impl FalseRow {
    /// The row of a claim.
    pub(crate) fn of(claim: &Claim) -> FalseRow
        ensures { result ≡ false_row_of claim.now }
    {
        FalseRow {
            row: claim.row,
            stamp: claim.stamp,
            target: claim.target,
        }
    }
}

/// An option of `rehearse` that names a file.
#[derive(Clone, Copy, Drop)]
pub(crate) enum FileOption {
    Line,
    Scene,
}

impl FileOption {
    // The option as it is written on the command line.
    fn word(self) -> &'static str {
        match self {
            FileOption::Line => "--line",
            FileOption::Scene => "--scene",
        }
    }
}

/// Why a rehearsal stopped before its end.
#[derive(Clone, Copy, Drop)]
pub(crate) enum Halt {
    /// The station's text couldn't be read or was refused, or memory was refused for it.
    Text(Stop),
    /// The text of the file of `--line` was refused.
    Line(Refusal),
    /// The line of the scene's text with this number, counted from 1, is the first faulty one, and this is at fault in it.
    Scene(u32, SceneTrouble),
    /// The file of this option was refused for this fault, which no line of its text has: it can't be read, it is too long, its
    /// scene has more than an instrument can have, or memory was refused.
    File(FileOption, RunFault),
    /// The output failed (`Output`), or memory was refused for something other than the texts of the input and of the files
    /// (`Memory`).
    Fault(RunFault),
    /// This row is false, in the rehearsal with this seed.
    Untrue(u64, FalseRow),
}

impl Halt {
    /// Writes the line of the fault. For a faulty line, a text without a command, a file and a false row a second line follows:
    /// what is at fault in the line, that there is no command, which file it is, or which row. `Err`: the messages couldn't be
    /// written whole.
    pub(crate) fn tell<E: Write>(self, messages: &mut E) -> io::Result<()> {
        match self {
            Halt::Text(stop) => stop.report(messages),
            Halt::Line(refusal) => tell_refusal(refusal, messages),
            Halt::Scene(line, trouble) => trouble.tell_with_fault(line, messages),
            Halt::File(option, fault) => tell_file(option, fault, messages),
            Halt::Fault(fault) => fault.tell(messages),
            Halt::Untrue(seed, row) => tell_untrue(seed, row, messages),
        }
    }
}

// Writes the fault for which the text of the file of `--line` was refused, and which file it is or what is at fault in its first faulty
// line.
fn tell_refusal<E: Write>(refusal: Refusal, messages: &mut E) -> io::Result<()> {
    match refusal {
        Refusal::TooLong => tell_file(FileOption::Line, RunFault::InputTooLong, messages),
        Refusal::Line { line, fault } => {
            RunFault::Schedule { line }.tell(messages)?;
            write!(messages, "geocom: line {line} of the file of --line: ")?;
            fault.tell(messages)
        }
    }
}

// Writes a fault, and that it is one of the file of this option.
fn tell_file<E: Write>(option: FileOption, fault: RunFault, messages: &mut E) -> io::Result<()> {
    fault.tell(messages)?;
    writeln!(messages, "geocom: of the file of {}", option.word())
}

// Writes that a row is false, by the seed and the row's number, and which row that is.
fn tell_untrue<E: Write>(seed: u64, row: FalseRow, messages: &mut E) -> io::Result<()> {
    let number = row.row;
    writeln!(
        messages,
        "geocom: fault {ROW_FALSE} seed {seed} row {number}"
    )?;
    tell_row(row, messages)
}

// Writes which row is false, by its target, its cycle (0: the setup), the step of its command in a cycle or the setup, counted from 0, and
// the time at which the command ended.
fn tell_row<E: Write>(row: FalseRow, messages: &mut E) -> io::Result<()> {
    let target = row.target;
    let cycle = row.stamp.cycle;
    let step = row.stamp.turn.place;
    let time = stamp_text(row.stamp.utc);
    write!(messages, "geocom: the row of target {target}, ")?;
    write!(messages, "cycle {cycle}, step {step}, ")?;
    writeln!(
        messages,
        "time {} is false",
        str::from_utf8(&time).unwrap_or("")
    )
}
