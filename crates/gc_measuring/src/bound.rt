//! By when a row is written, at the latest, after its cycle was due; and texts whose deadlines don't fit into the time of a cycle.

ghost use Rattle.std.specs.Prelude.{◌≡◌, ◌+◌, ◌-◌, ◌*◌, ◌&&◌, if◌then◌else◌, min, nat_lt, not};
ghost use Rattle.gc_catalogue.specs.Asked.{is_of_table};
ghost use Rattle.gc_station.specs.RealTime.{bound};
ghost use Rattle.gc_measuring.specs.Bounds.{lost_by};
ghost use Rattle.gc_measuring.specs.declared.bound.TheConstants.{CALL};

use crate::checking::write_target;
use crate::sendings::repeats_before;
use gc_station::Plan;
use gc_texts::{Task, Tasks};
use std::io::{self, Write};

// What one call of the link takes at most, in milliseconds: an opening 10 s, and as much the line feed that is written after it.
const CALL: u64 = 20_000;

// A second, in milliseconds.
const SECOND: u64 = 1_000;

// How many milliseconds after its cycle was due a row is written at the latest, not counting readings of the clock and syncs: the
// bound of `gc_station::laws::each_due_cycle_is_recorded_by_its_bound`; `u64::MAX` if that is more.
fn row_bound(plan: &Plan, tasks: &[Task]) -> u64
    ensures { result ≡ min (bound plan.now tasks.now plan.now.deadline CALL 0) 18446744073709551615 }
{
    let time = plan.deadline.saturating_add(CALL).saturating_mul(7);
    bound_without_raws(plan).saturating_add(lost_by(tasks, fronts(plan), time))
}

// The same for a setup without raw commands.
fn bound_without_raws(plan: &Plan) -> u64
    ensures { result ≡ min (2 * plan.now.every + (1 + plan.now.setup) * plan.now.deadline + CALL) 18446744073709551615 }
{
    plan.deadline
        .saturating_mul(plan.setup as u64)
        .saturating_add(plan.deadline)
        .saturating_add(plan.every.saturating_mul(2))
        .saturating_add(CALL)
}

// How many commands the setup has before its last one.
fn fronts(plan: &Plan) -> usize
    ensures { result ≡ plan.now.setup - 1 }
{
    plan.setup.saturating_sub(1)
}

// How many milliseconds null procedures may take that are lost behind raw commands of the setup: `time` for each raw command among the
// first `count` of these tasks; `u64::MAX` if that is more.
fn lost_by(tasks: &[Task], count: usize, time: u64) -> u64
    ensures { result ≡ lost_by 0 count time tasks.now }
{
    let mut lost: u64 = 0;
    let mut left = count;
    for task in tasks {
        lost = lost.saturating_add(lost_behind(task, left, time));
        left = left.saturating_sub(1);
    }
    lost
}

// The same of one task, where `left` tasks from it on count.
fn lost_behind(task: &Task, left: usize, time: u64) -> u64
    ensures { result ≡ (if nat_lt 0 left && not (is_of_table task.entry.now.command.call) then time else 0) }
{
    if left > 0 && !task.command.call.is_of_table() {
        time
    } else {
        0
    }
}

// This time in whole seconds, rounded up.
fn seconds_up(millis: u64) -> u64 {
    millis.saturating_add(SECOND - 1) / SECOND
}

/// Writes a line that says by when a row is written after its cycle was due (`row_bound`), in seconds, rounded up, and what that is the sum of.
/// Nothing is written if cycles have no due moments.
pub(crate) fn outline_bound<W: Write>(
    tasks: &Tasks,
    plan: &Plan,
    outline: &mut W,
) -> io::Result<()> {
    if plan.every == 0 {
        return Ok(());
    }
    let bound = seconds_up(row_bound(plan, &tasks.tasks));
    write!(
        outline,
        "each row is written at most {bound} s after its cycle was due"
    )?;
    write!(outline, ", not counting readings of the clock and syncs")?;
    write!(outline, " (2 periods, the longest deadline")?;
    if plan.setup > 0 {
        write!(outline, ", once more for each command of the setup")?;
    }
    if lost_by(&tasks.tasks, fronts(plan), 1) > 0 {
        write!(
            outline,
            ", 7 times a deadline and a call for each raw or described command before the setup's last one"
        )?;
    }
    writeln!(outline, ", 20 s for a call)")
}

/// Writes a line if the deadlines of a cycle's commands, each in one attempt of its chain, add up to more than two periods, and one for each chain whose
/// deadlines alone do. Nothing is written if cycles have no due moments. `Err`: a message couldn't be written; those after that one
/// aren't.
pub(crate) fn report_tight_deadlines<E: Write>(
    tasks: &Tasks,
    plan: &Plan,
    messages: &mut E,
) -> io::Result<()> {
    if plan.every == 0 {
        return Ok(());
    }
    let time = plan.every.saturating_mul(2);
    let total = deadlines_of_cycle(tasks);
    if total > time {
        let (sum, periods) = (seconds_up(total), time / SECOND);
        writeln!(
            messages,
            "geocom: the deadlines of a cycle's commands add up to {sum} s, more than 2 periods ({periods} s): what isn't sent by then is skipped"
        )?;
    }
    report_tight_chains(tasks, time, messages)
}

// The sum of the deadlines of a cycle's commands, each in one attempt of its chain, in milliseconds; at most `u64::MAX`.
fn deadlines_of_cycle(tasks: &Tasks) -> u64 {
    let mut sum: u64 = 0;
    for task in tasks.tasks.iter().skip(tasks.setup) {
        if repeats_before(task) == 0 {
            sum = sum.saturating_add(task.deadline);
        }
    }
    sum
}

// Writes a line for each chain whose deadlines add up to more than `time` milliseconds, with the target of the command that is
// beyond it. `Err`: as `report_tight_deadlines` says.
fn report_tight_chains<E: Write>(tasks: &Tasks, time: u64, messages: &mut E) -> io::Result<()> {
    let periods = time / SECOND;
    let mut sum: u64 = 0;
    for task in tasks.tasks.iter().skip(tasks.setup) {
        if repeats_before(task) > 0 {
            continue;
        }
        let before = if task.turn.link == 0 { 0 } else { sum };
        sum = before.saturating_add(task.deadline);
        if before <= time && sum > time {
            let target = task.command.target;
            write!(messages, "geocom: the deadlines of a chain of ")?;
            write_target(target, tasks.name_of(target), messages)?;
            writeln!(messages, " add up to more than 2 periods ({periods} s)")?;
        }
    }
    Ok(())
}
