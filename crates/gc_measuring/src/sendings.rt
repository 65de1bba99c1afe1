//! The sendings of chains: of which attempt a task is, in whichever sending, and chains that are too long for being sent twice, or have
//! answers that can't be compared.

use crate::checking::write_target;
use gc_station::FIRSTS;
use gc_texts::{Task, Tasks, Twice};
use std::io::{self, Write};

/// How often the chain of a task was sent again before the task's attempt, each time once or twice.
pub(crate) fn repeats_before(task: &Task) -> u64 {
    let before = task.turn.attempt.saturating_sub(1);
    match task.twice {
        Twice::Once => before,
        // The two sendings are numbered by themselves.
        Twice::First | Twice::Second { .. } => before / 2,
    }
}

/// Writes a line for each chain of a cycle that is sent twice and has more commands than a station keeps answers of: those after
/// them always end as `disagree`. `Err`: a message couldn't be written; those after that one aren't.
pub(crate) fn report_long_chains<E: Write>(tasks: &Tasks, messages: &mut E) -> io::Result<()> {
    for task in tasks.tasks.iter().skip(tasks.setup) {
        if is_first_too_many(task) {
            let target = task.command.target;
            write!(messages, "geocom: agree: a chain of ")?;
            write_target(target, tasks.name_of(target), messages)?;
            write!(
                messages,
                " has more than {FIRSTS} commands: only the first "
            )?;
            writeln!(messages, "{FIRSTS} can agree, any other ends as disagree")?;
        }
    }
    Ok(())
}

// Whether a task is the first of a chain's second sending whose answer is compared with none, in the chain's first attempt.
fn is_first_too_many(task: &Task) -> bool {
    match task.twice {
        Twice::Second { nth, .. } => nth == FIRSTS && repeats_before(task) == 0,
        Twice::Once | Twice::First => false,
    }
}

/// Writes a line for each command of a cycle that is sent twice, and whose answers have columns of a description that aren't compared: each
/// of them ends as `disagree`. `Err`: a message couldn't be written; those after that one aren't.
pub(crate) fn report_disagreeing<E: Write>(tasks: &Tasks, messages: &mut E) -> io::Result<()> {
    for task in tasks.tasks.iter().skip(tasks.setup) {
        if never_agrees(task) {
            let (target, rpc) = (task.command.target, task.command.call.number());
            write!(messages, "geocom: agree: ")?;
            write_target(target, tasks.name_of(target), messages)?;
            writeln!(
                messages,
                ": answers to {rpc} have columns that can't be compared, so each ends as disagree"
            )?;
        }
    }
    Ok(())
}

// Whether a task is of a second sending, in the chain's first attempt, and its answers are read by a description and can't be compared.
fn never_agrees(task: &Task) -> bool {
    let is_second = matches!(task.twice, Twice::Second { .. });
    match &task.form {
        Some(form) => is_second && repeats_before(task) == 0 && !form.is_compared(),
        None => false,
    }
}
