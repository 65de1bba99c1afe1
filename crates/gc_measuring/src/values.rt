//! What is remarked of commands whose parameters look like values of files, and aren't: those after the word `raw`, which are sent as they are.

use crate::checking::write_target;
use gc_catalogue::Asked;
use gc_texts::{Task, Tasks};
use gc_values::split;
use std::io::{self, Write};

/// Writes a line for each command after the word `raw` with an item that begins with a brace: it is sent as it is. `Err`: a message couldn't be
/// written; those after that one aren't.
pub(crate) fn report_braces<E: Write>(tasks: &Tasks, messages: &mut E) -> io::Result<()> {
    for task in tasks.tasks.as_slice() {
        // A later attempt or sending has the commands of the first.
        if task.turn.attempt == 1 && has_brace(task) {
            report_brace(tasks, task, messages)?;
        }
    }
    Ok(())
}

// Whether a command's request is sent as the text has it, and has an item that begins with a brace.
fn has_brace(task: &Task) -> bool {
    let Asked::Raw(raw) = task.command.call else {
        return false;
    };
    let Ok(items) = split(raw.params()) else {
        return false;
    };
    if task.now {
        return false;
    }
    for k in 0..items.len() {
        if items.get(k).starts_with(b"{") {
            return true;
        }
    }
    false
}

// Writes the line of such a command.
fn report_brace<E: Write>(tasks: &Tasks, task: &Task, messages: &mut E) -> io::Result<()> {
    let (target, rpc) = (task.command.target, task.command.call.number());
    write!(messages, "geocom: ")?;
    write_target(target, tasks.name_of(target), messages)?;
    writeln!(
        messages,
        ": the {{ }} of raw {rpc} are sent as they are; values of files need a line procedure {rpc}, and no raw"
    )
}
