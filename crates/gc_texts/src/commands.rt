//! Commands: what is asked of which target, and their text. A command has no deadline.

ghost use Rattle.std.specs.Prelude.{IfOk, IfErr};
ghost use Rattle.gc_texts.specs.Commands.{IsCommand, IsCommands};
ghost use Rattle.gc_texts.specs.LineForms.{FirstFaulty, IsReadAs, MemoryOnlyIf, NamesFaulty, ReachesASoundLine, RefusesLong, TextFault};

use crate::cuts::cut_at;
use crate::fault::RunFault;
use crate::line_forms::{LineForm, read_items};
use crate::procedure::{read_procedure, target_of};
use gc_catalogue::Call;
use std::alloc::Global;

/// What is to be asked of which target.
#[derive(Clone, Copy)]
pub struct Command {
    /// The target: a number that the caller chooses, and gets back with the settlement.
    pub target: u32,
    /// What is asked of the target.
    pub call: Call,
}

// The form of a command text's lines: each is a command.
struct CommandForm;

impl LineForm for CommandForm {
    type Item = Command;

    ghost form = { IsCommand };

    // A command to write over: `NullProc` of target 0.
    fn blank() -> Command {
        Command {
            target: 0,
            call: Call::NullProc,
        }
    }

    // Reads a line as a command, into `command`, and returns whether the line has the form of one. If it hasn't, `command` is unchanged.
    fn read(line: &[u8], command: &mut Command) -> bool {
        match read_command(line) {
            Some(found) => {
                *command = found;
                true
            }
            None => false,
        }
    }
}

// Reads `T RPC` or `T RPC PARAMS`: a target's number, a procedure's number and its parameters. `None`: the line has no such form, the
// target's number is above 4294967295, or the procedure is refused (`read_procedure`).
pub(crate) fn read_command(line: &[u8]) -> Option<Command>
    ensures { IsReadAs (IsCommand line.now) result }
{
    let (target, procedure) = cut_at(b' ', line);
    let procedure = procedure?;
    let target = target_of(target)?;
    let call = read_procedure(procedure)?;
    Some(Command { target, call })
}

/// Reads a command text, and returns its commands, in order; empty lines and those that begin with `#` are skipped.
///
/// Fails with `InputTooLong` if the text has more than 65,536 bytes, before any line is read; with `Schedule` and the number of the
/// line, counted from 1, at the first line that has the form of no command; and with `Memory` if memory was refused at a line that has
/// the form of a command.
pub fn read_commands(alloc: Global, text: &[u8]) -> Result<Vec<Command>, RunFault>
    ensures found { IfOk result (λ commands. IsCommands text.now commands.items) }
    ensures too_long { RefusesLong text.now result }
    ensures faulty { NamesFaulty (FirstFaulty IsCommand text.now) result }
    ensures memory { MemoryOnlyIf (ReachesASoundLine IsCommand text.now) result }
    ensures faults { IfErr result (λ e. TextFault IsCommand text.now e) }
{
    read_items::<CommandForm>(alloc, text)
}
