//! What `--check` prints of described procedures: their parameters, the columns of their answers, and what a command asks; and what it
//! remarks of them.

use crate::checking::write_target;
use gc_catalogue::Asked;
use gc_texts::{Description, Field, Fields, Task, Tasks, described_as};
use gc_values::{Kind, split};
use std::io::{self, Write};

/// Writes the procedures that a text describes, if it describes any: a line with their number, a line for each, and the columns that rows get
/// for them beside those of the table's quantities. `Err`: the outline couldn't be written.
pub(crate) fn outline_descriptions<W: Write>(tasks: &Tasks, outline: &mut W) -> io::Result<()> {
    let described = tasks.described.as_slice();
    if described.is_empty() {
        return Ok(());
    }
    let count = described.len();
    writeln!(outline, "described procedures: {count}")?;
    for description in described {
        outline_description(description, outline)?;
    }
    outline_new_columns(tasks, outline)
}

// Writes the columns that rows get beside those of the table's quantities, with `--columns`, if they get any.
fn outline_new_columns<W: Write>(tasks: &Tasks, outline: &mut W) -> io::Result<()> {
    if tasks.columns.is_empty() {
        return Ok(());
    }
    write!(outline, "columns that --columns adds for them:")?;
    for (k, column) in tasks.columns.iter().enumerate() {
        let comma = if k == 0 { "" } else { "," };
        let name = text_of(column.as_slice());
        write!(outline, "{comma} {name}")?;
    }
    writeln!(outline)
}

// Writes the line of a described procedure: its number, its parameters, and the values of its answers, each with its kind.
fn outline_description<W: Write>(description: &Description, outline: &mut W) -> io::Result<()> {
    let rpc = description.rpc;
    write!(outline, "  {rpc}: parameters")?;
    outline_fields(&description.params, outline)?;
    write!(outline, "; values")?;
    outline_fields(&description.values, outline)?;
    if description.more {
        write!(outline, ", maybe more")?;
    }
    writeln!(outline)
}

// Writes fields, with a comma between two: each with its name and its kind; or that there is none.
fn outline_fields<W: Write>(fields: &Fields, outline: &mut W) -> io::Result<()> {
    if fields.is_empty() {
        return write!(outline, " none");
    }
    for (k, field) in fields.iter().enumerate() {
        let comma = if k == 0 { "" } else { "," };
        let (name, kind) = (name_of(field), kind_word(field.kind));
        write!(outline, "{comma} {name} {kind}")?;
    }
    Ok(())
}

/// Writes what a command asks of a described procedure: its parameters in parentheses, as in ` (mode 1, height 0.5)`, each behind its name.
/// Nothing is written of any other command, nor if the procedure has no parameters, or the command another number of them.
pub(crate) fn outline_parameters<W: Write>(
    tasks: &Tasks,
    asked: &Asked,
    outline: &mut W,
) -> io::Result<()> {
    let Asked::Raw(raw) = asked else {
        return Ok(());
    };
    match described_as(raw.number(), tasks.described.as_slice()) {
        Some(description) => outline_items(&description.params, raw.params(), outline),
        None => Ok(()),
    }
}

// Writes the items of a list of parameters in parentheses, each behind the name of its field, if there are as many as fields, and some.
fn outline_items<W: Write>(fields: &Fields, params: &[u8], outline: &mut W) -> io::Result<()> {
    let Ok(items) = split(params) else {
        return Ok(());
    };
    if fields.is_empty() || items.len() != fields.len() {
        return Ok(());
    }
    for (k, field) in fields.iter().enumerate() {
        let front = if k == 0 { " (" } else { ", " };
        let (name, item) = (name_of(field), text_of(items.get(k)));
        write!(outline, "{front}{name} {item}")?;
    }
    write!(outline, ")")
}

// The name of a field.
fn name_of(field: &Field) -> &str {
    text_of(field.name.as_slice())
}

/// These bytes as a text; empty if they aren't UTF-8.
pub(crate) fn text_of(bytes: &[u8]) -> &str {
    str::from_utf8(bytes).unwrap_or("")
}

// The word for a kind.
fn kind_word(kind: Kind) -> &'static str {
    match kind {
        Kind::Double => "Double",
        Kind::Long => "Long",
        Kind::Short => "Short",
        Kind::Byte => "Byte",
        Kind::Bool => "Boolean",
        Kind::Text => "String",
    }
}

/// Writes a line for each command after the word `raw` whose parameters aren't those that its procedure's description says. `Err`: a message
/// couldn't be written; those after that one aren't.
pub(crate) fn report_descriptions<E: Write>(tasks: &Tasks, messages: &mut E) -> io::Result<()> {
    for task in tasks.tasks.as_slice() {
        // A later attempt or sending has the commands of the first.
        if task.turn.attempt == 1 && !is_as_described(tasks, task) {
            report_parameters(tasks, task, messages)?;
        }
    }
    Ok(())
}

// Whether a command's parameters are those that its procedure's description says. `true` if it isn't described, or takes values of files,
// which only a described one does.
fn is_as_described(tasks: &Tasks, task: &Task) -> bool {
    let Asked::Raw(raw) = task.command.call else {
        return true;
    };
    match described_as(raw.number(), tasks.described.as_slice()) {
        Some(description) => task.now || description.takes(raw.params()),
        None => true,
    }
}

// Writes the line of a command whose parameters aren't as described.
fn report_parameters<E: Write>(tasks: &Tasks, task: &Task, messages: &mut E) -> io::Result<()> {
    let (target, rpc) = (task.command.target, task.command.call.number());
    write!(messages, "geocom: ")?;
    write_target(target, tasks.name_of(target), messages)?;
    writeln!(
        messages,
        ": the parameters of raw {rpc} aren't those that the line procedure {rpc} describes"
    )
}
