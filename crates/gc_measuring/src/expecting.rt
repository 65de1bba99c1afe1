//! What `--check` prints of a command's expectation: of each value, in words, what it has to be; and what it remarks, where no answer can
//! have so many values.

use crate::checking::write_target;
use crate::value_count::ValueCount;
use gc_texts::{Expectation, Task, Tasks};
use std::io::{self, Write};

/// Writes what is expected of an answer's values, with a comma before it and between two: `expects: 1st value = 7, 2nd from 0.5 to 1.5,
/// 3rd any, 4th greater than before`. `Err`: the outline couldn't be written.
pub(crate) fn outline_expectation<W: Write>(
    expectation: &Expectation,
    outline: &mut W,
) -> io::Result<()> {
    write!(outline, ", expects:")?;
    for (place, item) in items_of(expectation).split(',').enumerate() {
        outline_place(place, outline)?;
        outline_item(item, outline)?;
    }
    Ok(())
}

// Writes which value is meant, by its place, counted from 0; with a comma before it, if it isn't the first.
fn outline_place<W: Write>(place: usize, outline: &mut W) -> io::Result<()> {
    match place {
        0 => write!(outline, " 1st value "),
        1 => write!(outline, ", 2nd "),
        2 => write!(outline, ", 3rd "),
        _ => {
            let nth = place.saturating_add(1);
            write!(outline, ", {nth}th ")
        }
    }
}

// Writes what an item says of its value.
fn outline_item<W: Write>(item: &str, outline: &mut W) -> io::Result<()> {
    if item == "*" {
        return write!(outline, "any");
    }
    if item == ">" {
        return write!(outline, "greater than before");
    }
    match item.split_once("..") {
        Some((low, high)) => write!(outline, "from {low} to {high}"),
        // With `=` no item looks like the words above.
        None => write!(outline, "= {item}"),
    }
}

// The items of an expectation, with commas between them.
fn items_of(expectation: &Expectation) -> &str {
    str::from_utf8(expectation.text()).unwrap_or("")
}

/// Writes a line for each command that is expected to have another number of values than its procedure's answers have, so that no answer
/// can be as expected. `Err`: a message couldn't be written; those after that one aren't.
pub(crate) fn report_expected_counts<E: Write>(tasks: &Tasks, messages: &mut E) -> io::Result<()> {
    for task in tasks.tasks.iter() {
        // A later attempt or sending has the commands of the first.
        if task.turn.attempt == 1 {
            report_expected_count(tasks, task, messages)?;
        }
    }
    Ok(())
}

// Writes the line of one command, if `report_expected_counts` has one for it.
fn report_expected_count<E: Write>(tasks: &Tasks, task: &Task, messages: &mut E) -> io::Result<()> {
    let (Some(expectation), Some(count)) = (
        &task.expects,
        ValueCount::of(&task.command.call, tasks.described.as_slice()),
    ) else {
        return Ok(());
    };
    let expected = items_of(expectation).split(',').count();
    if count.suits(expected) {
        return Ok(());
    }
    let target = task.command.target;
    write!(messages, "geocom: ")?;
    write_target(target, tasks.name_of(target), messages)?;
    write_counts(task.command.call.number(), count, expected, messages)
}

// Writes the end of such a line: how many values the procedure's answers have, and how many are expected.
fn write_counts<E: Write>(
    procedure: u16,
    count: ValueCount,
    expected: usize,
    messages: &mut E,
) -> io::Result<()> {
    let ValueCount { least, more } = count;
    let front = if more { "at least " } else { "" };
    let values = if least == 1 { "value" } else { "values" };
    let are = if expected == 1 { "is" } else { "are" };
    writeln!(
        messages,
        ": {procedure} answers {front}{least} {values}, and {expected} {are} expected"
    )
}
