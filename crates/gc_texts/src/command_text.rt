//! A command text, read whole from a source, and why its commands weren't read, or not asked to their end.

ghost use Rattle.std.specs.Prelude.{◌≡◌, ◌+◌, ◌≤◌, IfOk, IfErr};
ghost use Rattle.gc_lines.specs.Ports.{WritesIfOk};
ghost use Rattle.gc_texts.specs.CommandStops.{fault_of_command_stop, command_stop_text, command_line_text, IsCommandStopFor};
ghost use Rattle.gc_texts.specs.WholeTexts.{ReadsCommands, ReadsNoCommands, input_of};
ghost use Rattle.gc_texts.specs.declared.text.TheConstants.{TEXT_LIMIT};

use crate::commands::{Command, read_commands};
use crate::fault::RunFault;
use crate::line_forms::line_at;
use crate::text::read_text;
use crate::trouble::{Trouble, command_trouble_of};
use gc_lines::Source;
use std::alloc::Global;
use std::io::{self, Write};

/// Why commands weren't read, or not asked to their end.
#[derive(Clone, Copy)]
pub enum CommandStop {
    /// For this fault, which is no faulty line.
    Fault(RunFault),
    /// The line of the text with this number, counted from 1, is the first faulty one, with this trouble. Nothing was asked.
    Line(u32, Trouble),
}

impl CommandStop {
    /// The fault that is reported for this stop.
    pub fn fault(self) -> RunFault
        ensures { result ≡ fault_of_command_stop self }
    {
        match self {
            CommandStop::Fault(fault) => fault,
            CommandStop::Line(line, _) => RunFault::Schedule { line },
        }
    }

    /// Writes the message of the fault, and for `Line` a second one: which field of the line is at fault.
    pub fn tell<E: Write>(self, messages: &mut E) -> io::Result<()>
        ensures { WritesIfOk E.contents messages.old messages.new result (command_stop_text self) }
    {
        match self {
            CommandStop::Fault(fault) => fault.tell(messages),
            CommandStop::Line(line, trouble) => tell_line(line, trouble, messages),
        }
    }
}

// Writes the message of the fault of a faulty line with this number and this trouble, and then which field is at fault.
fn tell_line<E: Write>(line: u32, trouble: Trouble, messages: &mut E) -> io::Result<()>
    ensures { WritesIfOk E.contents messages.old messages.new result (command_line_text line trouble) }
{
    RunFault::Schedule { line }.tell(messages)?;
    trouble.tell(line, messages)
}

/// Reads the whole command text of a source, and returns its commands in order. The faults are those of `read_text` and of
/// `read_commands`.
pub fn read_command_text<S: Source>(alloc: Global, source: &mut S) -> Result<Vec<Command>, RunFault>
    ensures found { IfOk result (λ commands. ReadsCommands (input_of S.Source source.old) (input_of S.Source source.new) commands.items) }
    ensures refused { IfErr result (λ fault. ReadsNoCommands (input_of S.Source source.old) (input_of S.Source source.new) fault) }
    ensures bounded { S.reads source.new ≤ S.reads source.old + (TEXT_LIMIT + 1) }
{
    match read_text(alloc, source) {
        Ok(text) => read_commands(alloc, text.as_slice()),
        Err(fault) => Err(fault),
    }
}

/// Reads the whole command text of a source as `read_command_text` does. For a faulty line the stop says which of its fields is at
/// fault.
pub fn read_commands_of<S: Source>(
    alloc: Global,
    source: &mut S,
) -> Result<Vec<Command>, CommandStop>
    ensures found { IfOk result (λ commands. ReadsCommands (input_of S.Source source.old) (input_of S.Source source.new) commands.items) }
    ensures refused { IfErr result (λ stop. ReadsNoCommands (input_of S.Source source.old) (input_of S.Source source.new) (fault_of_command_stop stop)) }
    ensures bounded { S.reads source.new ≤ S.reads source.old + (TEXT_LIMIT + 1) }
{
    match read_text(alloc, source) {
        Ok(text) => match read_commands(alloc, text.as_slice()) {
            Ok(commands) => Ok(commands),
            Err(fault) => Err(command_stop_for(text.as_slice(), fault)),
        },
        Err(fault) => Err(CommandStop::Fault(fault)),
    }
}

// The stop for a text of commands with this fault. That for a faulty line has the line's number, and which of its fields is at
// fault.
fn command_stop_for(text: &[u8], fault: RunFault) -> CommandStop
    ensures { IsCommandStopFor text.now fault result }
{
    match fault {
        RunFault::Schedule { line } => {
            CommandStop::Line(line, command_trouble_of(line_at(text, line)))
        }
        _ => CommandStop::Fault(fault),
    }
}
