//! A station's text that is only read: what a station would do with it is written on the output, and what looks wrong in it is
//! reported on the messages. Nothing is connected to.

ghost use Rattle.std.specs.Prelude.{◌≡◌, IfOk};
ghost use Rattle.std.specs.Process.{exit_status};
ghost use Rattle.gc_measuring.specs.TaskTexts.{IsCheckable};
ghost use Rattle.gc_logs.specs.Statuses.{IsStatusUpTo};
ghost use Rattle.gc_logs.specs.Transcripts.{hearing_of};

use crate::angles::{write_agree, write_place, write_turned};
use crate::bound::{outline_bound, report_tight_deadlines};
use crate::codes::report_accepted_busy;
use crate::counts::report_end_of_run;
use crate::describing::{outline_descriptions, outline_parameters, report_descriptions, text_of};
use crate::expecting::{outline_expectation, report_expected_counts};
use crate::plan::plan_of;
use crate::sendings::{repeats_before, report_disagreeing, report_long_chains};
use crate::stop::Stop;
use crate::task_text::hear_task_text;
use crate::values::report_braces;
use gc_lines::{Sink, Source, write_whole};
use gc_logs::{
    Heard, Streams, report_blanks, report_odd_angles, report_unasked, report_unused_names,
    report_unwatched,
};
use gc_options::{Choice, Unit};
use gc_station::Plan;
use gc_texts::{Again, Agree, JUDGEMENTS, RunFault, Task, Tasks, Twice};
use std::alloc::Global;
use std::io::{self, Write};
use std::process::ExitCode;

// A second, in milliseconds.
const SECOND: u64 = 1_000;

/// Reads the text of a station, and writes on the output what a station would do with it: the setup, and the chains of a cycle, and of every
/// so many cycles, with the names of their targets, the deadlines of their commands in milliseconds, what is expected of their answers, and
/// how often and after what they may be sent again; the procedures that the text describes, and the columns that rows get for them; and,
/// where cycles have due moments, when these are, if that goes by the clock, and by when a row is written. With a `unit` angles are in that
/// unit, and where positionings turn to and where targets are is written, too. What looks wrong, and is no fault, is reported on the messages, as far as they can be written: angles outside one turn,
/// targets of which the text says where they are, though no command measures their direction, answers of which another number of values is
/// expected than they have, parameters of raw commands that aren't as described or look like values of files, return codes that are accepted and busy, chains that are too
/// long for being sent twice, commands whose answers can't agree, names of targets without a command, unwatched targets without a command of
/// the cycle, spaces or tabs at ends of lines, and deadlines that add up to more than the time that a cycle has.
///
/// Status 0: the text can be measured. Status 1: it can't be read or is refused, memory was refused, or the output failed, each
/// of which is reported as a run reports it. `Err`: this report couldn't be written. The streams are handed back. No clause says
/// what is written.
pub fn check_task_text<S: Source, K: Sink, E: Write>(
    alloc: Global,
    choice: Choice,
    unit: Option<Unit>,
    mut streams: Streams<Heard<S>, K, E>,
) -> (Streams<Heard<S>, K, E>, io::Result<ExitCode>)
    ensures bound { IsStatusUpTo 1 result.1 }

    // Status 0 only if what the input gave, to its end, is a text that a station with this choice measures.
    ensures done { IfOk result.1 (λ status. exit_status status ≡ 0
        → IsCheckable choice (hearing_of S.Source streams.input) (hearing_of S.Source result.0.input)) }
{
    let end = match hear_task_text(alloc, &mut streams.input, &choice) {
        Ok((tasks, text)) => {
            // No run began, and no line depends on when the first cycle is due.
            let plan = plan_of(choice, 0, tasks.setup, tasks.tasks.as_slice());
            let _ = report_doubts(text.as_slice(), &tasks, &plan, &mut streams.messages);
            write_outline(alloc, &tasks, &plan, unit, &mut streams.output)
        }
        Err(stop) => Err(stop),
    };
    let status = match end {
        Ok(()) => Ok(ExitCode::SUCCESS),
        Err(stop) => report_end_of_run(Err(stop), &mut streams.messages),
    };
    (streams, status)
}

// Reports what looks wrong in the text of these tasks, and is no fault, as `check_task_text` says. `Err`: the messages couldn't
// be written, and what comes after that isn't reported.
fn report_doubts<E: Write>(
    text: &[u8],
    tasks: &Tasks,
    plan: &Plan,
    messages: &mut E,
) -> io::Result<()> {
    report_odd_angles(text, tasks, messages)?;
    report_unasked(tasks, messages)?;
    report_expected_counts(tasks, messages)?;
    report_descriptions(tasks, messages)?;
    report_braces(tasks, messages)?;
    report_accepted_busy(tasks, messages)?;
    report_long_chains(tasks, messages)?;
    report_disagreeing(tasks, messages)?;
    report_unused_names(tasks, messages)?;
    report_unwatched(tasks, messages)?;
    report_blanks(text, messages)?;
    report_tight_deadlines(tasks, plan, messages)
}

// Writes the outline of these tasks with this plan on the output. It fails with `Memory` if memory was refused, and with `Output` if
// the output failed.
fn write_outline<K: Sink>(
    alloc: Global,
    tasks: &Tasks,
    plan: &Plan,
    unit: Option<Unit>,
    output: &mut K,
) -> Result<(), Stop> {
    let mut outline = Vec::new(alloc);
    if outline_tasks(tasks, plan, unit, &mut outline).is_err() {
        return Err(Stop::Run(RunFault::Memory));
    }
    match write_whole(output, outline.as_slice()) {
        Ok(()) => Ok(()),
        Err(_) => Err(Stop::Run(RunFault::Output)),
    }
}

// Writes the outline of these tasks: if there is a setup, a line with the number of its commands and a line for each of them; and then the
// chains of the cycle (`outline_chains`); with a unit, where targets are; the procedures that the text describes; and, where cycles have due
// moments, when these are, if that goes by the clock, and by when a row is written.
fn outline_tasks<W: Write>(
    tasks: &Tasks,
    plan: &Plan,
    unit: Option<Unit>,
    outline: &mut W,
) -> io::Result<()> {
    let setup = tasks.setup;
    if setup > 0 {
        writeln!(outline, "at start, commands: {setup}")?;
    }
    for task in tasks.tasks.iter().take(setup) {
        begin_chain(tasks, task.command.target, outline)?;
        outline_command(tasks, task, unit, outline)?;
        writeln!(outline)?;
    }
    outline_chains(tasks, unit, outline)?;
    if unit.is_some() {
        outline_places(tasks, unit, outline)?;
    }
    outline_descriptions(tasks, outline)?;
    outline_clock(plan, outline)?;
    outline_bound(tasks, plan, outline)
}

// Writes when cycles are due, if that goes by the clock.
fn outline_clock<W: Write>(plan: &Plan, outline: &mut W) -> io::Result<()> {
    let Some(at) = plan.at else {
        return Ok(());
    };
    let every = plan.every / SECOND;
    write!(outline, "cycles are due ")?;
    if at == 0 {
        write!(outline, "at")?;
    } else {
        let after = at / SECOND;
        write!(outline, "{after} s after")?;
    }
    writeln!(outline, " whole multiples of {every} s since 1970, UTC")
}

// Writes where targets are, if the text says it of any: a line for each, in this unit.
fn outline_places<W: Write>(tasks: &Tasks, unit: Option<Unit>, outline: &mut W) -> io::Result<()> {
    if !tasks.nears.is_empty() {
        writeln!(outline, "where targets are, in face I:")?;
    }
    for near in tasks.nears.as_slice() {
        write!(outline, "  ")?;
        write_target(near.target, tasks.name_of(near.target), outline)?;
        write!(outline, ": ")?;
        write_place(unit, near, outline)?;
        writeln!(outline)?;
    }
    Ok(())
}

/// What the end of a chain's line says.
#[derive(Clone, Copy)]
struct ChainEnd {
    // How far apart the values of its two sendings may be. `None`: it is sent once.
    agree: Option<Agree>,
    // How often it may be sent again, and after what.
    again: u64,
    rule: Again,
}

// Writes a line for each chain of a cycle: its target, its commands, whether they are sent twice, and how often and after what it may
// be sent again. Before the first of those that have their turn in every so many cycles, one after the other, it writes how many that is, and
// how many commands they have.
fn outline_chains<W: Write>(tasks: &Tasks, unit: Option<Unit>, outline: &mut W) -> io::Result<()> {
    // Of the chain that is being written. `None`: no chain is being written.
    let mut chain: Option<ChainEnd> = None;
    // In every how many cycles the chains before have their turn. 0: there are none.
    let mut every = 0;
    for (place, task) in tasks.tasks.iter().enumerate().skip(tasks.setup) {
        // A later attempt or sending has the commands of the first.
        if task.turn.attempt > 1 {
            chain = chain.map(|end| end_with(end, task));
            continue;
        }
        if task.turn.link == 0 {
            end_chain(chain, unit, outline)?;
            if task.every != every {
                every = task.every;
                head_chains(tasks, place, every, outline)?;
            }
            begin_chain(tasks, task.command.target, outline)?;
            chain = Some(ChainEnd {
                agree: None,
                again: 0,
                rule: task.again,
            });
        }
        outline_command(tasks, task, unit, outline)?;
    }
    end_chain(chain, unit, outline)
}

// Writes in every how many cycles the chains from the task at this place on have their turn, and how many commands those have that follow
// one another.
fn head_chains<W: Write>(
    tasks: &Tasks,
    place: usize,
    every: u64,
    outline: &mut W,
) -> io::Result<()> {
    let commands = tasks
        .tasks
        .iter()
        .skip(place)
        .take_while(|task| task.every == every)
        .filter(|task| task.turn.attempt == 1)
        .count();
    if every == 1 {
        writeln!(outline, "each cycle, commands: {commands}")
    } else {
        writeln!(outline, "every {every} cycles, commands: {commands}")
    }
}

// What the end of a chain's line says with a task of a later attempt or sending.
fn end_with(end: ChainEnd, task: &Task) -> ChainEnd {
    let agree = match task.twice {
        Twice::Second { agree, .. } => Some(agree),
        Twice::Once | Twice::First => end.agree,
    };
    ChainEnd {
        agree,
        again: repeats_before(task),
        rule: end.rule,
    }
}

// Writes the front of the line of a chain, or of a command of the setup: its target, and whether that is left unwatched.
fn begin_chain<W: Write>(tasks: &Tasks, target: u32, outline: &mut W) -> io::Result<()> {
    write!(outline, "  ")?;
    write_target(target, tasks.name_of(target), outline)?;
    if tasks.unwatched.as_slice().contains(&target) {
        write!(outline, ", unwatched")?;
    }
    write!(outline, ":")
}

/// Writes a target, and after it in parentheses its name, as in `target 7 (pier 4)`. A name that is empty or isn't UTF-8 is left
/// out, with its parentheses. `Err`: `out` couldn't be written.
pub fn write_target<W: Write>(target: u32, name: &[u8], out: &mut W) -> io::Result<()> {
    write!(out, "target {target}")?;
    let name = str::from_utf8(name).unwrap_or("");
    if !name.is_empty() {
        write!(out, " ({name})")?;
    }
    Ok(())
}

// Writes a command after its target: the number of its procedure, with a unit where a positioning turns to, of a described procedure its
// parameters, `now` if it sets the clock to the moment at which it is sent, its deadline in milliseconds, and what is expected of its
// answer's values, if anything is.
fn outline_command<W: Write>(
    tasks: &Tasks,
    task: &Task,
    unit: Option<Unit>,
    outline: &mut W,
) -> io::Result<()> {
    let procedure = task.command.call.number();
    let deadline = task.deadline;
    write!(outline, " {procedure}")?;
    write_turned(unit, task.command.call, outline)?;
    outline_parameters(tasks, &task.command.call, outline)?;
    if task.now && task.command.call.is_of_table() {
        write!(outline, " now")?;
    }
    write!(outline, " within {deadline} ms")?;
    if let Some(expectation) = &task.expects {
        outline_expectation(expectation, outline)?;
    }
    write!(outline, ";")
}

// Ends the line of a chain, if one is being written: whether it is sent twice, and how far apart the values may be, angles in this unit,
// or else in radians, and lengths in metres; and how often it may be sent again, and after what, if it may be at all.
fn end_chain<W: Write>(
    chain: Option<ChainEnd>,
    unit: Option<Unit>,
    outline: &mut W,
) -> io::Result<()> {
    let Some(ChainEnd { agree, again, rule }) = chain else {
        return Ok(());
    };
    if let Some(agree) = agree {
        write_agree(unit, agree, outline)?;
    }
    if again > 0 {
        write!(outline, " again at most {again} times, after")?;
        outline_rule(&rule, outline)?;
    }
    writeln!(outline)
}

// Writes after which answers, by their return codes, and after which outcomes a chain is sent again, each after a space. An answer that
// is judged counts by its judgement alone.
fn outline_rule<W: Write>(rule: &Again, outline: &mut W) -> io::Result<()> {
    if rule.codes.codes[0] != 0 {
        write!(outline, " answered")?;
    }
    for code in rule.codes.codes {
        // The places after the codes hold 0.
        if code != 0 {
            write!(outline, " {code}")?;
        }
    }
    outline_outcome("unreadable", rule.unreadable, outline)?;
    for judgement in JUDGEMENTS {
        outline_outcome(
            text_of(judgement.word()),
            rule.judged.has(judgement),
            outline,
        )?;
    }
    outline_outcome("late", rule.late, outline)?;
    outline_outcome("lost", rule.lost, outline)?;
    outline_outcome("skipped", rule.skipped, outline)
}

// Writes this outcome after a space, if it is named.
fn outline_outcome<W: Write>(outcome: &str, named: bool, outline: &mut W) -> io::Result<()> {
    if !named {
        return Ok(());
    }
    write!(outline, " {outcome}")
}
