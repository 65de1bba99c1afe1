//! The log of a station: what was on its link, written into a file.

ghost use Rattle.std.specs.Prelude.{◌≡◌, true, Some, None, IfOk, IfErr};
ghost use Rattle.std.specs.Option.{is_some};
ghost use Rattle.std.specs.Process.{exit_status};
ghost use Rattle.gc_texts.specs.declared.fault.RunFault.{RunFault};
ghost use Rattle.gc_measuring.specs.Logging.{ReportsLoss};
ghost use Rattle.gc_measuring.specs.Telling.{ReportsLossAndEnd, ReportsMeasuring, MeasuresAll, stage, views_by};
ghost use Rattle.gc_logs.specs.Logging.{sink_of};
ghost use Rattle.gc_logs.specs.Sinks.{bytes_in, has_ended};
ghost use Rattle.gc_logs.specs.Statuses.{IsStatusUpTo};

use crate::counts::report_end_of_run;
use crate::measure::run_station_text;
use crate::spot::Spot;
use crate::station::note_stop;
use crate::stop::Stop;
use gc_lines::{Durable, PortFailed, Sink, Source};
use gc_links::{Link, millis_of};
use gc_logs::{FilesAt, FilesSeen, LogSeen, Logged, Noticed, Rolling, Rolls, Streams, note_files};
use gc_options::LogPlace;
use gc_station::{Kept, Tally};
use gc_texts::{RunFault, has_date};
use std::alloc::Global;
use std::cell::Cell;
use std::fs::File;
use std::io::{self, Write};
use std::process::ExitCode;
use std::rt::Files;
use std::time::{Clock, Duration, SystemTime, UNIX_EPOCH};

/// Opens the log at `log`, as it is now if its path has a date, and notes in `noticed` how many bytes of a torn line were cut off. No file of
/// the log grows above `log.most` bytes. Returns `None` if no log is asked for, and fails with `Log` if its files can't be had as a log, or
/// its path has a date and the clock can't be read.
pub(crate) fn log_at<'a, R: Clock + Files<File = File>>(
    rt: &'a R,
    alloc: Global,
    noticed: &'a Cell<Noticed>,
    log: Option<LogPlace<'a>>,
) -> Result<Option<LogSink<'a, FilesAt<'a, R>>>, RunFault>
    ensures logged { IfOk result (λ opened. is_some opened ≡ is_some log.entry) }
    ensures fault { IfErr result (λ fault. (is_some log.entry ≡ true) × (fault ≡ RunFault.Log)) }
{
    let Some(log) = log else {
        return Ok(None);
    };
    let Some(utc) = moment_for(rt, log.path) else {
        return Err(RunFault::Log);
    };
    let Ok(files) = FilesAt::open(rt, alloc, log.path, utc, log.most < u64::MAX) else {
        return Err(RunFault::Log);
    };
    note_torn(noticed, files.torn());
    Ok(Some(LogSink {
        sink: Rolling::new(files, log.most),
        noticed,
    }))
}

// The moment for which a path is made, in milliseconds since 1970: now; without a date in the path any. `None`: the clock can't be read.
fn moment_for<R: Clock>(rt: &R, path: &str) -> Option<u64> {
    if !has_date(path) {
        return Some(0);
    }
    let Ok(now) = SystemTime::now(rt) else {
        return None;
    };
    let since_1970 = now.duration_since(UNIX_EPOCH).unwrap_or(Duration::ZERO);
    Some(millis_of(since_1970))
}

/// Files of a log that may have had torn lines.
pub(crate) trait Torn {
    /// How many bytes of torn lines were cut off of the files.
    fn torn_bytes(&self) -> u64;
}

impl<'a, R: Files<File = File>> Torn for FilesAt<'a, R> {
    fn torn_bytes(&self) -> u64 {
        self.torn()
    }
}

/// The sink of a log, in files at a path. If a write fails, it notes that the log can't be written and ends.
#[derive(Drop)]
pub(crate) struct LogSink<'a, K: Rolls> {
    sink: Rolling<K>,
    noticed: &'a Cell<Noticed>,
}

impl<'a, K: Rolls + Torn> Sink for LogSink<'a, K> {
    ghost taken = { λ n. Some (bytes_in n.sink) };

    ghost failed = { λ n. has_ended n.sink };

    // Writes into the files. Notes how many bytes of a torn line were cut off, if lines go on in a file that had one; and if the write fails,
    // that the log was lost.
    fn write(&mut self, bytes: &[u8]) -> Result<usize, PortFailed> {
        match self.sink.write(bytes) {
            Ok(n) => {
                note_torn(self.noticed, self.sink.files().torn_bytes());
                Ok(n)
            }
            Err(failed) => {
                note_loss(self.noticed);
                Err(failed)
            }
        }
    }

    fn has_failed(&self) -> bool {
        self.sink.has_failed()
    }
}

// Notes that the log can't be written any more.
fn note_loss(noticed: &Cell<Noticed>) {
    let files = noticed.get().files;
    note_files(
        noticed,
        FilesSeen {
            log: LogSeen::Lost,
            ..files
        },
    );
}

// Notes how many bytes of torn lines of the log were cut off (`torn`), unless that is noted.
fn note_torn(noticed: &Cell<Noticed>, torn: u64) {
    let files = noticed.get().files;
    if torn != files.log_torn {
        note_files(
            noticed,
            FilesSeen {
                log_torn: torn,
                ..files
            },
        );
    }
}

/// Measures over a link with a log, and reports how the run ended, as `measure_over` does. If the log isn't complete, because it
/// couldn't be written, a line says so before that. Returns the streams and the status of the report, or the
/// error if a line of it couldn't be written. What was seen of link and output at each act is noted in `kept`.
pub(crate) fn measure_logged<L: Link, G: Sink, S: Source, K: Durable, E: Write>(
    alloc: Global,
    logged: &mut Logged<L, G>,
    spot: Spot<'_>,
    streams: Streams<S, K, E>,
    kept: &mut Kept,
) -> (Streams<S, K, E>, io::Result<ExitCode>)
    // As without a log; but before the report of the end the messages say that the log isn't complete exactly if its sink has ended
    // or failed.
    ensures told { IfOk result.1 (λ status. ReportsMeasuring (views_by S.Source K.Sink K.is_durable E.contents) spot.entry.station
        (stage streams None (L.acts logged.old.link) kept.old.turns) (stage result.0 None (L.acts logged.new.link) kept.new.turns)
        (G.failed (sink_of logged.new)) (exit_status status)) }

    // Status 0 only if the source gave a text to its end, and the run over its commands is done, or its end was asked for.
    ensures done { IfOk result.1 (λ status. exit_status status ≡ 0
        → MeasuresAll (views_by S.Source K.Sink K.is_durable E.contents) spot.entry.station
        (stage streams None (L.acts logged.old.link) kept.old.turns) (stage result.0 None (L.acts logged.new.link) kept.new.turns)) }
    ensures bound { IsStatusUpTo 1 result.1 }
{
    let (mut streams, end) = run_station_text(alloc, logged, spot, streams, u64::MAX, kept);
    note_stop(spot, end);
    let is_lost = logged.has_lost_its_log();
    let ended = report_loss_and_end(is_lost, end, &mut streams.messages);
    (streams, ended)
}

// Reports how a run ended, as `report_end_of_run` does, after a line that says so if its log isn't complete (`is_lost`). `Err`: one
// of these lines couldn't be written, and those after it aren't.
fn report_loss_and_end<E: Write>(
    is_lost: bool,
    end: Result<Tally, Stop>,
    messages: &mut E,
) -> io::Result<ExitCode>
    ensures told { IfOk result (λ status. ReportsLossAndEnd is_lost end (exit_status status) (E.contents messages.old) (E.contents messages.new)) }
    ensures bound { IsStatusUpTo 1 result }
{
    report_loss(is_lost, messages)?;
    report_end_of_run(end, messages)
}

// Writes a line if the log isn't complete (`is_lost`), and else nothing. `Err`: the line couldn't be written.
fn report_loss<E: Write>(is_lost: bool, messages: &mut E) -> io::Result<()>
    ensures { IfOk result (λ _. ReportsLoss is_lost (E.contents messages.old) (E.contents messages.new)) }
{
    if is_lost {
        writeln!(messages, "geocom: the log could not be written completely")?;
    }
    Ok(())
}
