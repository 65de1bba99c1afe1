//! Targets of which a text says something that no command needs: where they are, though no command asks for their direction, or for
//! their distance, so that no answer is compared with that; what they are called, though no command is for them; or that they aren't
//! watched, though none is.

use gc_texts::{Near, Tasks};
use std::io::{self, Write};

/// Writes a line for each target of which the text says where it is (`near`), though no command of the setup or of the cycle
/// measures its direction; and for each other of which it says how far away it is, though none measures its distance. `Err`: a message
/// couldn't be written; those after that one aren't.
pub fn report_unasked<E: Write>(tasks: &Tasks, messages: &mut E) -> io::Result<()> {
    for near in tasks.nears.as_slice() {
        let target = near.target;
        let Some(unasked) = unasked_of(tasks, near) else {
            continue;
        };
        writeln!(
            messages,
            "geocom: near {target}: no command measures the {unasked} of target {target}"
        )?;
    }
    Ok(())
}

// What of a target's place no command measures: its direction, or else, if it has one, its distance. `None`: all of it is measured.
// Each command that measures a distance measures a direction, too.
fn unasked_of(tasks: &Tasks, near: &Near) -> Option<&'static str> {
    if !tasks.asks_direction_of(near.target) {
        return Some("direction");
    }
    if near.range.is_some() && !tasks.asks_distance_of(near.target) {
        return Some("distance");
    }
    None
}

/// Writes a line for each target that has a name in the text, and for which the text has no command, neither of the setup nor of
/// the cycle. `Err`: a message couldn't be written; those after that one aren't.
pub fn report_unused_names<E: Write>(tasks: &Tasks, messages: &mut E) -> io::Result<()> {
    for name in tasks.names.as_slice() {
        let target = name.target;
        if !tasks.tasks.iter().any(|task| task.command.target == target) {
            writeln!(
                messages,
                "geocom: name {target}: no command is for target {target}"
            )?;
        }
    }
    Ok(())
}

/// Writes a line for each target that the text leaves unwatched, and for which it has no command of the cycle. `Err`: a message
/// couldn't be written; those after that one aren't.
pub fn report_unwatched<E: Write>(tasks: &Tasks, messages: &mut E) -> io::Result<()> {
    for target in tasks.unwatched.as_slice() {
        let mut cycle = tasks.tasks.iter().skip(tasks.setup);
        if !cycle.any(|task| task.command.target == *target) {
            writeln!(
                messages,
                "geocom: unwatched {target}: no command of a cycle is for target {target}"
            )?;
        }
    }
    Ok(())
}
