//! What `--check` remarks of return codes: those that a command accepts, though a line says that they are busy.

use crate::checking::write_target;
use gc_texts::{Task, Tasks};
use std::io::{self, Write};

/// Writes a line for each return code that a command accepts and takes for busy: it is accepted, and nothing waits. `Err`: a message couldn't be
/// written; those after that one aren't.
pub(crate) fn report_accepted_busy<E: Write>(tasks: &Tasks, messages: &mut E) -> io::Result<()> {
    for task in tasks.tasks.as_slice() {
        // A later attempt or sending has the commands of the first.
        if task.turn.attempt == 1 {
            report_codes(tasks, task, messages)?;
        }
    }
    Ok(())
}

// Writes the lines of one command.
fn report_codes<E: Write>(tasks: &Tasks, task: &Task, messages: &mut E) -> io::Result<()> {
    let (target, rpc) = (task.command.target, task.command.call.number());
    for code in task.busy.codes {
        // The places after the codes hold 0.
        if code != 0 && task.accepted.codes.contains(&code) {
            write!(messages, "geocom: ")?;
            write_target(target, tasks.name_of(target), messages)?;
            writeln!(messages, ": {rpc} accepts {code}, so that it isn't busy")?;
        }
    }
    Ok(())
}
