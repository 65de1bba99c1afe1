//! The report of a rehearsal: the summary of its nights on the messages.

use crate::counts::Counts;
use crate::explained::FalseRows;
use crate::nights::Programme;
use crate::quotient::quotient;
use crate::summary::{Summary, TargetTally};
use gc_measuring::{write_judged_counts, write_main_counts, write_other_counts, write_target};
use gc_station::Tally;
use gc_texts::{Name, name_text};
use std::io::{self, Write};

/// Writes the summary: of all nights, of all commands, of all cycles, of each target, of the line, of altered lines and late replies, if
/// there may be any, and what a lost line cost, if any line was lost. It sorts the spans of `summary` first; if memory for that is
/// refused, the figures that are taken from them may be wrong. `Err`: the messages couldn't be written.
pub(crate) fn tell_summary<E: Write>(
    programme: Programme<'_>,
    summary: &mut Summary,
    names: &[Name],
    counts: Counts,
    messages: &mut E,
) -> io::Result<()> {
    tell_nights(programme, summary, messages)?;
    tell_tally(summary.tally, messages)?;
    // If this fails, the spans stay in their order.
    let _ = summary.spans.sort();
    tell_cycles(programme, summary, messages)?;
    for target in &summary.targets {
        tell_target(*target, name_text(target.target, names), messages)?;
    }
    tell_line(counts, messages)?;
    tell_altered(programme, summary, counts, messages)?;
    tell_cost(summary, counts, messages)
}

// Writes how many nights there were and with which seed, how many runs were killed, gave up (with the fault of the last that did)
// or were cut off, how many rows there were, and how many aren't true and don't say that their values don't count: only on a line that
// alters bytes, or whose instrument sends replies late, there may be rows that aren't true, as any other ends the rehearsal.
fn tell_nights<E: Write>(
    programme: Programme<'_>,
    summary: &Summary,
    messages: &mut E,
) -> io::Result<()> {
    let runs = summary.runs;
    write!(
        messages,
        "nights {} seed {} ",
        programme.nights, programme.seed
    )?;
    write!(messages, "killed {} gave up {}", runs.killed, runs.gave_up)?;
    if let Some(fault) = runs.fault {
        write!(messages, " with fault {}", fault.number())?;
    }
    writeln!(
        messages,
        " cut off {} rows {} false {}",
        runs.cut_off,
        summary.rows,
        falses_of(summary.falses)
    )
}

// How many rows aren't true, but for those that say themselves that their values don't count.
fn falses_of(falses: FalseRows) -> u64 {
    falses
        .by_damaged
        .saturating_add(falses.behind_two)
        .saturating_sub(falses.in_doubt)
}

// Writes how many replies came late, if the instrument sends some so, how many lines were altered, why rows aren't true, and how many of
// these say that their values don't count. Writes nothing for a line that alters no bytes, and whose instrument sends no reply late.
fn tell_altered<E: Write>(
    programme: Programme<'_>,
    summary: &Summary,
    counts: Counts,
    messages: &mut E,
) -> io::Result<()> {
    if !programme.alters {
        return Ok(());
    }
    let FalseRows {
        by_damaged,
        behind_two,
        in_doubt,
    } = summary.falses;
    if programme.is_late {
        write!(messages, "late replies {} ", counts.late)?;
    }
    write!(messages, "altered lines {}: ", counts.altered)?;
    let late = if programme.is_late { "or late " } else { "" };
    write!(
        messages,
        "false rows by damaged {late}replies {by_damaged} "
    )?;
    write!(messages, "behind two of them {behind_two} others 0 ")?;
    writeln!(messages, "unconfirmed {in_doubt}")
}

// Writes how commands ended, and the end of the line.
fn tell_tally<E: Write>(tally: Tally, messages: &mut E) -> io::Result<()> {
    write_main_counts(tally, messages)?;
    write_other_counts(tally, messages)?;
    write_judged_counts(tally, messages)?;
    writeln!(messages)
}

// Writes how many cycles were due, how many are whole, also in percent of those, and the least, the median and the greatest of
// the spans of `summary`, provided that these are sorted; 0 for each if there is no span. Of an even number the median is the
// greater of the two in the middle.
fn tell_cycles<E: Write>(
    programme: Programme<'_>,
    summary: &Summary,
    messages: &mut E,
) -> io::Result<()> {
    let due = programme.cycles.saturating_mul(programme.nights);
    let spans = summary.spans.as_slice();
    let least = number_at(spans, 0);
    let median = number_at(spans, spans.len() / 2);
    let worst = number_at(spans, spans.len().saturating_sub(1));
    write!(messages, "cycles {due} whole {}, ", summary.whole)?;
    tell_percent(summary.whole, due, messages)?;
    write!(messages, "; milliseconds least {least} ")?;
    writeln!(messages, "median {median} worst {worst}")
}

// The number at a place; 0 if there is no such place.
fn number_at(numbers: &[u64], place: usize) -> u64 {
    numbers.get(place).copied().unwrap_or(0)
}

// Writes which share `part` is of `whole`, in percent, with two decimals, cut off; 0 if `whole` is 0.
fn tell_percent<E: Write>(part: u64, whole: u64, messages: &mut E) -> io::Result<()> {
    let share = quotient(part.saturating_mul(10_000), whole);
    tell_hundredths(share, messages)?;
    write!(messages, " %")
}

// Writes a number of hundredths as a decimal with two places.
fn tell_hundredths<E: Write>(number: u64, messages: &mut E) -> io::Result<()> {
    let ones = number / 100;
    let hundredths = number % 100;
    write!(messages, "{ones}.{hundredths:02}")
}

// Writes how the commands of a target with this name ended.
fn tell_target<E: Write>(target: TargetTally, name: &[u8], messages: &mut E) -> io::Result<()> {
    write_target(target.target, name, messages)?;
    write!(messages, ": ")?;
    tell_tally(target.tally, messages)
}

// Writes the counts of what happened on the line: requests, replies, how often a line was lost or repeated, holds, closes,
// refusals of connections, and restarts of the instrument.
fn tell_line<E: Write>(counts: Counts, messages: &mut E) -> io::Result<()> {
    let Counts {
        requests,
        replies,
        lost,
        repeated,
        altered: _,
        holds,
        closes,
        refusals,
        restarts,
        late: _,
    } = counts;
    write!(messages, "line: requests {requests} replies {replies} ")?;
    write!(messages, "lost {lost} repeated {repeated} ")?;
    write!(messages, "holds {holds} closes {closes} ")?;
    writeln!(messages, "refusals {refusals} restarts {restarts}")
}

// Writes what each lost line cost on average: all commands without an answer, and all milliseconds by which cycles took longer
// than the least of the spans of `summary`, provided that these are sorted, both divided by the number of lost lines. Writes
// nothing if no line was lost.
fn tell_cost<E: Write>(summary: &Summary, counts: Counts, messages: &mut E) -> io::Result<()> {
    if counts.lost == 0 {
        return Ok(());
    }
    let unanswered = count_unanswered(summary.tally);
    write!(messages, "for each lost line: commands without an answer ")?;
    tell_hundredths(
        quotient(unanswered.saturating_mul(100), counts.lost),
        messages,
    )?;
    let least = number_at(summary.spans.as_slice(), 0);
    let longer = quotient(time_above(summary.spans.as_slice(), least), counts.lost);
    writeln!(
        messages,
        ", milliseconds of cycles above the least {longer}"
    )
}

// How many commands have no answer: they were late, lost, skipped or missed. A command counts once for each attempt in which it has none.
fn count_unanswered(tally: Tally) -> u64 {
    tally
        .late
        .saturating_add(tally.lost)
        .saturating_add(tally.skipped)
        .saturating_add(tally.missed)
}

// By how many milliseconds these spans are longer than `least`, all together.
fn time_above(spans: &[u64], least: u64) -> u64 {
    let mut longer = 0u64;
    for span in spans {
        longer = longer.saturating_add(span.saturating_sub(least));
    }
    longer
}
