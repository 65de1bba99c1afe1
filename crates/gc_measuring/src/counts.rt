//! How the end of a station's run is reported: by its counts if it is done or its end was asked for, else by the fault for which
//! it stopped.

ghost use Rattle.std.specs.Prelude.{IfOk};
ghost use Rattle.std.specs.Process.{exit_status};
ghost use Rattle.gc_lines.specs.Ports.{WritesIfOk};
ghost use Rattle.gc_measuring.specs.Measuring.{ReportsEndOfRun, main_counts_text, other_counts_text, judged_counts_text, repeats_text, tally_line};
ghost use Rattle.gc_logs.specs.Statuses.{IsStatusUpTo};

use crate::stop::Stop;
use gc_station::Tally;
use gc_texts::JudgementCounts;
use std::io::{self, Write};
use std::process::ExitCode;

/// Reports how a run ended: with status 0 and the line of its counts, or with status 1 and the lines of its fault. `Err`: the
/// messages couldn't be written.
pub(crate) fn report_end_of_run<E: Write>(
    end: Result<Tally, Stop>,
    messages: &mut E,
) -> io::Result<ExitCode>
    ensures told { IfOk result (λ status. ReportsEndOfRun end (exit_status status) (E.contents messages.old) (E.contents messages.new)) }
    ensures bound { IsStatusUpTo 1 result }
{
    match end {
        Ok(tally) => {
            write_counts(tally, messages)?;
            Ok(ExitCode::SUCCESS)
        }
        Err(stop) => {
            stop.report(messages)?;
            Ok(ExitCode::from(1))
        }
    }
}

// Writes the line of the counts: how the commands of each chain's last attempt ended, and how many times a chain was sent again.
fn write_counts<E: Write>(tally: Tally, messages: &mut E) -> io::Result<()>
    ensures { WritesIfOk E.contents messages.old messages.new result (tally_line tally) }
{
    write_main_counts(tally, messages)?;
    write_other_counts(tally, messages)?;
    write_judged_counts(tally, messages)?;
    write_repeats(tally, messages)
}

/// Writes the front of the line of the counts: how many commands were answered, how many of these were refused, how many were late, and a
/// space.
pub fn write_main_counts<E: Write>(tally: Tally, messages: &mut E) -> io::Result<()>
    ensures { WritesIfOk E.contents messages.old messages.new result (main_counts_text tally) }
{
    let Tally {
        answered,
        refused,
        late,
        ..
    } = tally;
    write!(
        messages,
        "answered {answered} (refused {refused}) late {late} "
    )
}

/// Writes what follows in the line of the counts after `write_main_counts`: how many commands were lost, skipped and unreadable, and a
/// space.
pub fn write_other_counts<E: Write>(tally: Tally, messages: &mut E) -> io::Result<()>
    ensures { WritesIfOk E.contents messages.old messages.new result (other_counts_text tally) }
{
    let Tally {
        lost,
        skipped,
        unreadable,
        ..
    } = tally;
    write!(
        messages,
        "lost {lost} skipped {skipped} unreadable {unreadable} "
    )
}

/// Writes what follows in the line of the counts after `write_other_counts`: how many commands were missed, off target, unexpected and in
/// disagreement.
pub fn write_judged_counts<E: Write>(tally: Tally, messages: &mut E) -> io::Result<()>
    ensures { WritesIfOk E.contents messages.old messages.new result (judged_counts_text tally) }
{
    let missed = tally.missed;
    let JudgementCounts {
        off_target,
        unexpected,
        disagree,
    } = tally.judged;
    write!(
        messages,
        "missed {missed} off_target {off_target} unexpected {unexpected} disagree {disagree}"
    )
}

// Writes the end of the line of the counts, after `write_judged_counts`: how many times a chain was sent again.
fn write_repeats<E: Write>(tally: Tally, messages: &mut E) -> io::Result<()>
    ensures { WritesIfOk E.contents messages.old messages.new result (repeats_text tally) }
{
    let retried = tally.retried;
    writeln!(messages, " retried {retried}")
}
