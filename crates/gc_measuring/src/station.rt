//! A station at a place: it opens its log and its link, measures, and reports how that ended.

ghost use Rattle.std.specs.Prelude.{◌≡◌, [], None, Some, Ok, false, IfOk, IfErr, IfSome, OnOk, map};
ghost use Rattle.std.specs.Option.{is_some};
ghost use Rattle.std.specs.Process.{exit_status};
ghost use Rattle.gc_links.specs.LinksMeant.{IsMeantAt};
ghost use Rattle.gc_links.specs.Placed.{PlaceSeen, place_seen};
ghost use Rattle.gc_links.specs.Seeing.{SignalsSeen, signals_at};
ghost use Rattle.gc_measuring.specs.Noted.{IsMeantRecord};
ghost use Rattle.gc_measuring.specs.Stops.{fault_without_link, IsFaultWithoutLink};
ghost use Rattle.gc_measuring.specs.Telling.{ReportsMeasuring, MeasuresAll, ReportsAtSite, MeasuresAllAtLink, CannotBegin, acts_noted, acts_of, began_noted, began_of, stage, views_by};
ghost use Rattle.gc_measuring.specs.Texts.{ReadsAndMeasures, ReadsTaskText, RefusesTaskText};
ghost use Rattle.gc_logs.specs.Statuses.{IsStatusUpTo};
ghost use Rattle.gc_logs.specs.Transcripts.{hearing_of};

use crate::counts::report_end_of_run;
use crate::logging::{LogSink, log_at, measure_logged};
use crate::measure::run_station_text;
use crate::spot::Spot;
use crate::stop::Stop;
use crate::task_text::{ReadText, hear_task_text};
use gc_ask::fault_of_unusable;
use gc_lines::{Durable, FromReader, Source};
use gc_links::{Link, LinkRecord, Moment, Unusable, ValueFiles, Watched};
use gc_logs::{FilesAt, Heard, Logged, Noticing, Streams};
use gc_options::Site;
use gc_station::{Kept, Tally};
use gc_texts::RunFault;
use std::alloc::Global;
use std::fs::File;
use std::io::{self, ErrorKind, Write};
use std::net::{Net, TcpListener, TcpStream};
use std::process::ExitCode;
use std::rt::Files;
use std::time::Clock;

// Reads the whole text of a station from the input, with the columns that its descriptions add. `Err`: it was refused, which was reported
// with status 1.
pub(crate) fn text_at<S: Source, K, E: Write>(
    alloc: Global,
    spot: Spot<'_>,
    streams: &mut Streams<Heard<S>, K, E>,
) -> Result<ReadText, io::Result<ExitCode>>
    ensures read { IfOk result (λ read. ReadsTaskText (hearing_of S.Source streams.old.input) (hearing_of S.Source streams.new.input) spot.entry.station.choice read.text.items (map (λ n. n.items) read.columns.items)) }
    ensures untold { OnOk result (streams.new.messages ≡ streams.old.messages) }
    ensures refused { IfErr result (λ ended. IfOk ended (λ status. RefusesTaskText S.Source E.contents streams.old streams.new (exit_status status))) }
    ensures output { streams.new.output ≡ streams.old.output }
    ensures bound { IfErr result (λ ended. IsStatusUpTo 1 ended) }
{
    match hear_task_text(alloc, &mut streams.input, &spot.station.choice) {
        Ok((tasks, text)) => Ok(ReadText::new(text, tasks)),
        Err(stop) => {
            spot.note_fault(stop.fault());
            Err(report_end_of_run(Err(stop), &mut streams.messages))
        }
    }
}

/// As [`measure_at`], but the text is read first, so that the run's clock starts once it was read: if it is refused, that is reported
/// with status 1, and no log is opened or made. A text that can be measured is held until the run ends.
pub fn measure_text_at<
    'a,
    R: Net<Listener = TcpListener, Stream = TcpStream> + Clock + Files<File = File>,
    S: Source,
    K: Durable,
    E: Write,
>(
    rt: &'a R,
    alloc: Global,
    spot: Spot<'a>,
    mut streams: Streams<Heard<S>, K, E>,
    kept: &mut Kept,
) -> (
    Streams<Heard<S>, K, E>,
    io::Result<ExitCode>,
    Option<Watched<'a, R>>,
)
    // Either the text was refused, which is reported with status 1, and there is no link. Or the input gave a text to its end, and
    // the run over exactly this text ended, and is told, as `measure_at` says; with status 0 it is done, or its end was
    // asked for.
    ensures told { IfOk result.1 (λ status. ReadsAndMeasures S.Source
        (views_by ⟦<FromReader<&'a [u8]> as Source>⟧ K.Sink K.is_durable E.contents) (is_some spot.entry.site.log) spot.entry.station
        (stage streams None (Some []) kept.old.turns) (stage result.0 (began_of result.2) (acts_of result.2) kept.new.turns) (exit_status status)) }

    // The acts of the link that is handed back are what the system's calls did, at the site's place.
    ensures place { IfSome result.2 (λ link. ∥ IsMeantAt (place_seen spot.entry.site.place) (signals_at spot.entry.site.signals) link ∥₁) }
    ensures bound { IsStatusUpTo 1 result.1 }
{
    let read = match text_at(alloc, spot, &mut streams) {
        Ok(read) => read,
        Err(ended) => return (streams, ended, None),
    };
    let ReadText {
        text,
        columns: _,
        files,
    } = read;
    let Streams {
        input,
        output,
        messages,
    } = streams;
    let over = Streams {
        input: FromReader::new(text.as_slice()),
        output,
        messages,
    };
    let (left, ended, link) = measure_at(rt, alloc, spot, files, over, kept);
    let Streams {
        input: _,
        output,
        messages,
    } = left;
    let streams = Streams {
        input,
        output,
        messages,
    };
    (streams, ended, link)
}

/// Measures at a site, and reports how the run ended: with status 0 by the counts, or with status 1 by the fault (`Err`: the
/// messages couldn't be written). If the site has a log, its file is opened first, and what was on the link is appended to it. If
/// the site's file `until` is there, the run ends between two chains, or two attempts of one, as a run that is done; each time that its file
/// `now` is changed, a cycle begins. The link's moments have the values of these files. Beside the
/// faults of a run, the fault is `Log` if no log can be had, `Clock` if the clock can't be read, and what is wrong with the
/// device if the place is one and can't be used. That a log isn't complete, because it couldn't be written, is
/// reported before that, and changes no status. The streams are handed back, and the link, if there was one. What was seen of link
/// and output at each act is noted in `kept`.
pub fn measure_at<
    'a,
    R: Net<Listener = TcpListener, Stream = TcpStream> + Clock + Files<File = File>,
    S: Source,
    K: Durable,
    E: Write,
>(
    rt: &'a R,
    alloc: Global,
    spot: Spot<'a>,
    files: ValueFiles,
    mut streams: Streams<S, K, E>,
    kept: &mut Kept,
) -> (
    Streams<S, K, E>,
    io::Result<ExitCode>,
    Option<Watched<'a, R>>,
)
    // The messages report whether the log isn't complete, and then, with the status, how the run ended. Either the text was refused,
    // or the output failed before the records, or the text's commands were measured: the link that is handed back has recorded
    // all acts of the run and no other, the sink its records, with the moment at which this link was made as the run's, and all that
    // was settled lasted before anything was sent, read, opened or closed. Or log, link or clock couldn't be had, and nothing was done.
    ensures told { IfOk result.1 (λ status. ReportsAtSite (views_by S.Source K.Sink K.is_durable E.contents)
        (is_some spot.entry.site.log) spot.entry.station
        (stage streams None (Some []) kept.old.turns) (stage result.0 (began_of result.2) (acts_of result.2) kept.new.turns) (exit_status status)) }

    // Status 0 only if the source gave a text to its end, and the run over its commands is done, or its end was asked for.
    ensures done { IfOk result.1 (λ status. exit_status status ≡ 0
        → MeasuresAllAtLink (views_by S.Source K.Sink K.is_durable E.contents) spot.entry.station
        (stage streams None (Some []) kept.old.turns) (stage result.0 (began_of result.2) (acts_of result.2) kept.new.turns)) }

    // The acts of the link that is handed back are what the system's calls did, at the site's place.
    ensures place { IfSome result.2 (λ link. ∥ IsMeantAt (place_seen spot.entry.site.place) (signals_at spot.entry.site.signals) link ∥₁) }
    ensures bound { IsStatusUpTo 1 result.1 }
{
    let Opened { link, log } = match open_link_and_log(rt, alloc, spot, files) {
        Ok(opened) => opened,
        Err(fault) => {
            let ended = report_end_of_run(Err(Stop::Run(fault)), &mut streams.messages);
            return (streams, ended, None);
        }
    };
    let moment = link.began();
    let station = spot.station.begun(moment);
    let spot = Spot { station, ..spot };
    let mut link = Noticing::new(link, spot.noticed, spot.reason);
    match log {
        None => {
            let (streams, ended) = measure_over(alloc, &mut link, spot, streams, kept);
            let (ended, link) = hand_back(spot.site, moment, ended, link.into_link());
            (streams, ended, link)
        }
        Some(log) => {
            let mut logged = Logged::new(link, log, moment.utc);
            let (streams, ended) = measure_logged(alloc, &mut logged, spot, streams, kept);
            let (ended, link) = hand_back(spot.site, moment, ended, logged.into_link().into_link());
            (streams, ended, link)
        }
    }
}

/// Closes a link, if there is one, and returns what is left of it, which proofs alone can read.
pub fn record_of<'a, R>(link: Option<Watched<'a, R>>) -> Option<LinkRecord>
    ensures acts { acts_noted result ≡ acts_of link.entry }
    ensures began { began_noted result ≡ began_of link.entry }

    // If the link's acts are what the system's calls did at this place, so are these acts, by the calls that are left of it.
    ensures meant { (where_to : PlaceSeen) (signals : SignalsSeen) → IfSome link.entry (λ link. ∥ IsMeantAt where_to signals link ∥₁)
        → IfSome result (λ left. ∥ IsMeantRecord where_to signals left ∥₁) }
{
    match link {
        Some(link) => Some(link.into_record()),
        None => None,
    }
}

// The link after a run, and how the run's end was reported. No call of a link changes where it leads to, or when it was made; but what
// a run does with a link is known by its acts alone, so both are compared. A link to another place, or one that was made at another
// moment than `began`, which there never is, isn't handed back, and counts as a report that couldn't be written.
fn hand_back<'a, R>(
    site: Site<'a>,
    began: Moment,
    ended: io::Result<ExitCode>,
    link: Watched<'a, R>,
) -> (io::Result<ExitCode>, Option<Watched<'a, R>>)
    ensures same { IfOk result.0 (λ status. (ended ≡ Ok status) × (result.1 ≡ Some link.entry) × (link.entry.began.utc ≡ began.utc)) }
    ensures place { IfSome result.1 (λ link. ∥ IsMeantAt (place_seen site.entry.place) (signals_at site.entry.signals) link ∥₁) }
{
    if link.is_for(site.place, site.signals) && link.began().utc == began.utc {
        (ended, Some(link))
    } else {
        (Err(io::Error::from(ErrorKind::Other)), None)
    }
}

// What a run measures over: a link, and its log, if one is asked for.
#[derive(Drop)]
struct Opened<'a, R, G> {
    link: Watched<'a, R>,
    log: Option<G>,
}

// Opens the log, if one is asked for, and then makes the link, whose moments have the values of these files. Fails with `Log` if the log can't be had, else with the fault of
// `link_at`, which is also noted at `spot`.
fn open_link_and_log<
    'a,
    R: Net<Listener = TcpListener, Stream = TcpStream> + Clock + Files<File = File>,
>(
    rt: &'a R,
    alloc: Global,
    spot: Spot<'a>,
    files: ValueFiles,
) -> Result<Opened<'a, R, LogSink<'a, FilesAt<'a, R>>>, RunFault>
    ensures logged { IfOk result (λ opened. is_some opened.log ≡ is_some spot.entry.site.log) }
    ensures fresh { IfOk result (λ opened. opened.link.history.acts ≡ []) }
    ensures fault { IfErr result (λ fault. CannotBegin (is_some spot.entry.site.log) fault) }
{
    let log = log_at(rt, alloc, spot.noticed, spot.site.log)?;
    match link_at(rt, spot.site, files) {
        Ok(link) => Ok(Opened { link, log }),
        Err(fault) => {
            spot.note_fault(fault);
            Err(fault)
        }
    }
}

// The link of a site, whose moments have the values of these files, and whose clock was read; or the fault if there is no link: what is wrong with the device, or that the clock
// can't be read.
fn link_at<'a, R: Net<Listener = TcpListener, Stream = TcpStream> + Clock + Files<File = File>>(
    rt: &'a R,
    site: Site<'a>,
    files: ValueFiles,
) -> Result<Watched<'a, R>, RunFault>
    ensures fresh { IfOk result (λ link. link.history.acts ≡ []) }
    ensures fault { IfErr result (λ fault. IsFaultWithoutLink fault) }
{
    match Watched::new(rt, site.place, site.signals, files) {
        Ok(link) => Ok(link),
        Err(reason) => Err(fault_without_link(reason)),
    }
}

// The fault for which there is no link: what is wrong with the device. `None`: the clock can't be read.
fn fault_without_link(reason: Option<Unusable>) -> RunFault
    ensures { result ≡ fault_without_link reason }
{
    match reason {
        Some(unusable) => fault_of_unusable(unusable),
        None => RunFault::Clock,
    }
}

/// Measures over a link, reports how the run ended, and notes at `spot` the fault, if the run stopped for one. Returns the
/// streams and the status of the report, or the error if it couldn't be written. What was seen of link and output at each act is
/// noted in `kept`.
pub(crate) fn measure_over<L: Link, S: Source, K: Durable, E: Write>(
    alloc: Global,
    link: &mut L,
    spot: Spot<'_>,
    streams: Streams<S, K, E>,
    kept: &mut Kept,
) -> (Streams<S, K, E>, io::Result<ExitCode>)
    // The text was refused, or the output failed before the records, or the text's commands were measured; and the status and the
    // messages report how that ended.
    ensures told { IfOk result.1 (λ status. ReportsMeasuring (views_by S.Source K.Sink K.is_durable E.contents) spot.entry.station
        (stage streams None (L.acts link.old) kept.old.turns) (stage result.0 None (L.acts link.new) kept.new.turns) false (exit_status status)) }

    // Status 0 only if the source gave a text to its end, and the run over its commands is done, or its end was asked for.
    ensures done { IfOk result.1 (λ status. exit_status status ≡ 0
        → MeasuresAll (views_by S.Source K.Sink K.is_durable E.contents) spot.entry.station
        (stage streams None (L.acts link.old) kept.old.turns) (stage result.0 None (L.acts link.new) kept.new.turns)) }
    ensures bound { IsStatusUpTo 1 result.1 }
{
    let (mut streams, end) = run_station_text(alloc, link, spot, streams, u64::MAX, kept);
    note_stop(spot, end);
    let ended = report_end_of_run(end, &mut streams.messages);
    (streams, ended)
}

/// If a run stopped for a fault, notes the fault at its spot.
pub(crate) fn note_stop(spot: Spot<'_>, end: Result<Tally, Stop>) {
    if let Err(stop) = end {
        spot.note_fault(stop.fault());
    }
}
