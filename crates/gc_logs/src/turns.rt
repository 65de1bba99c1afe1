//! Angles outside one turn, in radians: a station reports them at its start, and so does a check of its text, because they look like
//! angles in gon or in degrees.

use gc_catalogue::{Asked, Call};
use gc_texts::{Task, Tasks};
use gc_values::Decimal;
use std::io::{self, Write};

// One turn in radians, 2π, cut after 24 places. No decimal has more places, so exactly those above 2π are above this.
fn one_turn() -> Decimal {
    Decimal::literal(6_283_185_307_179_586_476_925_286, 24)
}

// One turn backwards in radians, -2π, cut after 24 places: exactly the decimals below -2π are below this.
fn one_turn_back() -> Decimal {
    Decimal::literal(-6_283_185_307_179_586_476_925_286, 24)
}

// Whether an angle is outside one turn: above one turn, or below `least`.
fn is_outside(angle: Decimal, least: Decimal) -> bool {
    angle > one_turn() || angle < least
}

/// Writes a line for each angle outside one turn that a positioning of `text` has, with the number of its line, counted from 1.
/// `tasks` are those that were read from this text. `Err`: a message couldn't be written; those after that one aren't.
pub fn report_odd_angles<E: Write>(text: &[u8], tasks: &Tasks, messages: &mut E) -> io::Result<()> {
    let mut setup = tasks.tasks.iter().take(tasks.setup);
    let mut cycle = tasks.tasks.iter().skip(tasks.setup);
    let mut is_setup = false;
    for (at, line) in text.split(|byte| *byte == b'\n').enumerate() {
        is_setup = is_setup_after(line, is_setup);
        // A command's line begins with a digit of its target, and no other line does. So the tasks of a section are those of its
        // lines that begin so, in order; those of a cycle once more for each further attempt.
        if !line.first().is_some_and(|byte| byte.is_ascii_digit()) {
            continue;
        }
        let task = if is_setup {
            setup.next()
        } else {
            cycle.find(|task| task.turn.attempt == 1)
        };
        if let Some(task) = task {
            report_odd_angles_of(at + 1, task, messages)?;
        }
    }
    Ok(())
}

// Whether the commands after this line are those of the setup; `is_setup` says it of those before it. As the text was read as
// tasks, only its lines `at start`, `each cycle` and `every N cycles` begin with these words.
fn is_setup_after(line: &[u8], is_setup: bool) -> bool {
    if is_setup {
        !line.starts_with(b"each cycle") && !line.starts_with(b"every ")
    } else {
        line.starts_with(b"at start")
    }
}

// Writes a line for each angle outside one turn, if the task of the line with this number is a positioning; else nothing. A horizontal
// angle may be one turn backwards, and a vertical one not below 0.
fn report_odd_angles_of<E: Write>(line: usize, task: &Task, messages: &mut E) -> io::Result<()> {
    let Asked::Table(Call::Position { hz, v, .. }) = task.command.call else {
        return Ok(());
    };
    if is_outside(hz, one_turn_back()) {
        report_angle(line, "HZ", hz, messages)?;
    }
    if is_outside(v, Decimal::zero()) {
        report_angle(line, "V", v, messages)?;
    }
    Ok(())
}

// Writes the line of an angle that lies outside one turn. `name`: what the command's line calls it, HZ or V.
fn report_angle<E: Write>(
    line: usize,
    name: &str,
    angle: Decimal,
    messages: &mut E,
) -> io::Result<()> {
    writeln!(
        messages,
        "geocom: line {line}: {name} {angle} lies outside one turn in radians: it looks like gon or degrees"
    )
}
