//! A station that appends its records, as rows, to a file that outlasts the program.

ghost use Rattle.std.specs.Prelude.{◌≡◌, ◌≤◌, true, Some, Ok, IfOk, IfSome, OnErr, length, map};
ghost use Rattle.std.specs.Io.KnownBytes.{Appends};
ghost use Rattle.std.specs.Option.{is_some};
ghost use Rattle.std.specs.Process.{exit_status};
ghost use Rattle.gc_lines.specs.Ports.{WritesIfOk};
ghost use Rattle.gc_links.specs.LinksMeant.{IsMeantAt};
ghost use Rattle.gc_links.specs.Placed.{PlaceSeen, place_seen};
ghost use Rattle.gc_links.specs.Seeing.{SignalsSeen, signals_at};
ghost use Rattle.gc_measuring.specs.Recording.{IsBegunAt, ReportsOpening, fault_of_unfit, opened_lines, rotation_line, unfit_text};
ghost use Rattle.gc_measuring.specs.Appending.{AppendsToFile, appending_run};
ghost use Rattle.gc_measuring.specs.Noted.{IsMeantRecord};
ghost use Rattle.gc_measuring.specs.Telling.{AppendsAll, ReportsAppending, acts_noted, acts_of, began_noted, began_of, views_by};
ghost use Rattle.gc_measuring.specs.Texts.{ReadsAndAppends};
ghost use Rattle.gc_files.specs.Rows.{appended};
ghost use Rattle.gc_files.specs.Sinks.{asks_sync};
ghost use Rattle.gc_logs.specs.Following.{bytes_in, path_of};
ghost use Rattle.gc_logs.specs.Statuses.{IsStatusUpTo};

use crate::counts::report_end_of_run;
use crate::spot::Spot;
use crate::station::{measure_at, record_of, text_at};
use crate::stop::Stop;
use crate::task_text::ReadText;
use gc_files::{Past, RowsOptions, Unfit};
use gc_lines::{Durable, FromReader, Sink, Source};
use gc_links::{LinkRecord, ValueFiles, Watched};
use gc_logs::{Followed, Heard, Streams, report_copied, report_torn};
use gc_options::{Recording, Settings};
use gc_rows::{head, sign};
use gc_station::Kept;
use gc_texts::{FieldName, RunFault};
use std::alloc::Global;
use std::fs::File;
use std::io::{self, ErrorKind, Write};
use std::net::{Net, TcpListener, TcpStream};
use std::process::ExitCode;
use std::rt::Files;
use std::time::Clock;

// The fault that is reported if a path can't be used as a file of records.
fn fault_of_unfit(why: Unfit) -> RunFault
    ensures { result ≡ fault_of_unfit why }
{
    match why {
        Unfit::Unopened => RunFault::RecordsUnopened,
        Unfit::Held => RunFault::RecordsHeld,
        Unfit::Foreign => RunFault::RecordsForeign,
        Unfit::Failed => RunFault::Output,
    }
}

// Writes what the opening of a file did: how many rows it copied, and how many bytes of a torn row it cut off; nothing of what is
// 0.
fn report_opened<E: Write>(copied: u64, torn: u64, messages: &mut E) -> io::Result<()>
    ensures { WritesIfOk E.contents messages.old messages.new result (opened_lines copied torn) }
{
    report_copied(copied, messages)?;
    report_torn(torn, messages)
}

// Writes, for `Foreign` alone, the line on what may have happened to the file and how to rotate it.
fn write_rotation<E: Write>(why: Unfit, messages: &mut E) -> io::Result<()>
    ensures { WritesIfOk E.contents messages.old messages.new result (rotation_line why) }
{
    match why {
        Unfit::Foreign => writeln!(
            messages,
            "geocom: the file does not begin as this station's rows do: it has other columns, or a rotation cut off its header \
             (copytruncate). To rotate it, stop the station, rename the file, and start it"
        ),
        Unfit::Unopened | Unfit::Held | Unfit::Failed => Ok(()),
    }
}

// A copy of these bytes that is held until the program ends: a file goes on in a new one with the same header as long as a run lasts.
// `Failed`: memory was refused.
fn held(alloc: Global, bytes: &[u8]) -> Result<&'static [u8], Unfit>
    ensures { IfOk result (λ held. held.now ≡ bytes.now) }
{
    let mut copy = Vec::new(alloc);
    match copy.extend_from_slice(bytes) {
        Ok(()) => Ok(copy.leak()),
        Err(_) => Err(Unfit::Failed),
    }
}

// Opens the file of the records of the station at `spot`, at `recording.path`, for rows in `form_of_rows` of the station, with these
// columns beside those of the table's quantities, each of which is synced if `recording.sync` is set. Writes how many rows were copied and
// how many bytes of an incomplete row were cut off, if any were. Returns the file, and whether this could be written. `Err`: why the file
// can't be had; then there is no message.
fn open_records<'a, R: Files<File = File> + Clock, E: Write>(
    rt: &'a R,
    alloc: Global,
    spot: Spot<'a>,
    recording: Recording<'a>,
    columns: &[FieldName],
    messages: &mut E,
) -> Result<(Followed<'a, R>, io::Result<()>), Unfit>
    requires { length columns.now ≤ 64 }
    ensures begun { IfOk result (λ opened. IsBegunAt recording.entry spot.entry.station (map (λ n. n.items) columns.now) opened.0) }
    ensures told { IfOk result (λ opened. ReportsOpening opened.0.rows opened.1 (E.contents messages.old) (E.contents messages.new)) }
    ensures untold { OnErr result (E.contents messages.new ≡ E.contents messages.old) }
{
    let form = spot.station.form_of_rows();
    let head = held(alloc, &head(form, columns))?;
    let sign = held(alloc, &sign(form, columns))?;
    let options = RowsOptions {
        head,
        sign,
        sync: recording.sync,
    };
    let (followed, copied) = Followed::open(rt, alloc, recording.path, options, spot.noticed)?;
    let told = report_opened(copied, followed.rows.torn(), messages);
    Ok((followed, told))
}

/// What is left of a run that appended to a file: the file, and the link, if there was one.
#[derive(Drop)]
pub struct Appended<'a, R> {
    pub file: Followed<'a, R>,
    pub link: Option<Watched<'a, R>>,
}

impl<'a, R: Net<Listener = TcpListener, Stream = TcpStream> + Clock + Files<File = File>> Appended<
    'a,
    R,
> {
    /// Closes the link, and then ends the appending, as [`Followed::end`] does: if the file was opened with `sync`, the path
    /// still leads to it, and all that it holds is on the disk, if need be after one more sync, this removes the mark by which
    /// the next start would copy the file. The mark stays if the path can't be followed, the system refuses to remove the mark,
    /// or memory runs out. Returns what is left of the link, if there was one, as [`record_of`] does, and what was done to the
    /// file, which proofs alone can read.
    pub fn end(self) -> (Option<LinkRecord>, Past)
        ensures acts { acts_noted result.0 ≡ acts_of self.entry.link }
        ensures began { began_noted result.0 ≡ began_of self.entry.link }
        ensures meant { (where_to : PlaceSeen) (signals : SignalsSeen) → IfSome self.entry.link (λ link. ∥ IsMeantAt where_to signals link ∥₁)
            → IfSome result.0 (λ left. ∥ IsMeantRecord where_to signals left ∥₁) }
        ensures rows { appended result.1.steps ≡ bytes_in self.entry.file }
    {
        let Appended { file, link } = self;
        let record = record_of(link);
        let past = file.past();
        file.end();
        (record, past)
    }
}

/// Measures at a site, as [`measure_at`] does, and appends the records as rows to a file, which is opened before anything else is done. A
/// table in it has these columns beside those of the table's quantities: those of the text that the streams give; and the link's
/// moments have the values of these files, which that text names. If the file can't be
/// had, nothing is read or sent, and the fault, which is reported with status 1, is `RecordsUnopened`, `RecordsHeld`, `RecordsForeign`,
/// or `Output` if a call of the system failed, a read gave nothing, or memory ran out. If a date is in the path, the file is that of the date,
/// and rows go on in another one when the date changes (`Followed`). For `RecordsForeign` the messages also say how to
/// rotate the file. What was in the file stays, but for half a row at its end, which is cut off. If a mark is beside the file, as after a
/// run that was killed or a sync that failed, the rows are copied to a new file. Cut and copy are reported. If the path no longer leads
/// to the file, rows go on in a new one there, if it can be had.
///
/// The streams are handed back, and, if the file could be had, the file and the link, if there was one; [`Appended::end`] is left
/// to the caller. What was seen of link and file at each act is noted in `kept`.
pub fn append_at<
    'a,
    R: Net<Listener = TcpListener, Stream = TcpStream> + Clock + Files<File = File>,
    S: Source,
    K: Durable,
    E: Write,
>(
    rt: &'a R,
    alloc: Global,
    spot: Spot<'a>,
    recording: Recording<'a>,
    columns: &[FieldName],
    files: ValueFiles,
    mut streams: Streams<S, K, E>,
    kept: &mut Kept,
) -> (
    Streams<S, K, E>,
    io::Result<ExitCode>,
    Option<Appended<'a, R>>,
)
    requires { length columns.now ≤ 64 }

    // Either the file can't be had, which is reported with status 1, and nothing was read. Or the messages report the file's
    // opening and then, with the status, how the run ended; and the file that is handed back has the run's rows: those of the
    // acts that the link recorded. At each act the file had all rows that the acts before it settled; and before anything was
    // sent, read, opened or closed they lasted.
    ensures told { IfOk result.1 (λ status. ReportsAppending
        (views_by S.Source ⟦<Followed<'a, R> as Sink>⟧ ⟦<Followed<'a, R> as Durable>⟧.is_durable E.contents)
        (is_some spot.entry.site.log) spot.entry.station
        (appending_run streams result.0 kept.old.turns kept.new.turns result.2) (exit_status status)) }

    // Status 0 only if the source gave a text to its end, and the run over its commands is done, or its end was asked for.
    ensures done { IfOk result.1 (λ status. exit_status status ≡ 0 → AppendsAll
        (views_by S.Source ⟦<Followed<'a, R> as Sink>⟧ ⟦<Followed<'a, R> as Durable>⟧.is_durable E.contents) spot.entry.station
        (appending_run streams result.0 kept.old.turns kept.new.turns result.2)) }

    // Both, of a run that began on the file at the recording's path, which was just opened for rows in the station's form, to be
    // synced if the recording asks for that.
    ensures begun { IfOk result.1 (λ status. AppendsToFile (IsBegunAt recording.entry spot.entry.station (map (λ n. n.items) columns.now))
        (views_by S.Source ⟦<Followed<'a, R> as Sink>⟧ ⟦<Followed<'a, R> as Durable>⟧.is_durable E.contents)
        (is_some spot.entry.site.log) spot.entry.station
        (appending_run streams result.0 kept.old.turns kept.new.turns result.2) (exit_status status)) }

    // Nothing is written on the output.
    ensures output { result.0.output ≡ streams.output }

    // The acts of the link that is handed back are what the system's calls did, at the site's place.
    ensures place { IfSome result.2 (λ left. IfSome left.link (λ link. ∥ IsMeantAt (place_seen spot.entry.site.place) (signals_at spot.entry.site.signals) link ∥₁)) }

    // The file that is handed back is at the recording's path, and syncs exactly if the recording asks for that.
    ensures path { IfSome result.2 (λ left. path_of left.file ≡ recording.entry.path.now) }
    ensures sync { IfSome result.2 (λ left. asks_sync left.file.rows ≡ recording.entry.sync) }
    ensures bound { IsStatusUpTo 1 result.1 }
{
    match open_records(rt, alloc, spot, recording, columns, &mut streams.messages) {
        // If the messages on the opening can't be written, the station measures all the same.
        Ok((followed, _)) => {
            let (filed, output) = streams.with_output(followed);
            let station = spot.station.for_file();
            let spot = Spot { station, ..spot };
            let (filed, ended, link) = measure_at(rt, alloc, spot, files, filed, kept);
            let (streams, file) = filed.with_output(output);
            let (ended, left) = hand_back(recording, ended, Appended { file, link });
            (streams, ended, left)
        }
        Err(why) => {
            let ended = refuse_file(why, &mut streams.messages);
            (streams, ended, None)
        }
    }
}

// What is left of a run that appended to a file, and how the run's end was reported. Nothing that takes rows changes at which path the
// file is, or whether it syncs; but what a run does with a file is known by its rows alone, so both are compared. A file at another
// path, or one that syncs otherwise than the recording asks for, which there never is, isn't handed back, and counts as a report that
// couldn't be written.
fn hand_back<'a, R: Files<File = File>>(
    recording: Recording<'_>,
    ended: io::Result<ExitCode>,
    left: Appended<'a, R>,
) -> (io::Result<ExitCode>, Option<Appended<'a, R>>)
    ensures same { IfOk result.0 (λ status. (ended ≡ Ok status) × (result.1 ≡ Some left.entry)) }
    ensures given { IfSome result.1 (λ kept. kept ≡ left.entry) }
    ensures path { IfSome result.1 (λ kept. path_of kept.file ≡ recording.entry.path.now) }
    ensures sync { IfSome result.1 (λ kept. asks_sync kept.file.rows ≡ recording.entry.sync) }
{
    if left.file.is_for(recording.path) && syncs_as(&left.file, recording.sync) {
        (ended, Some(left))
    } else {
        (Err(io::Error::from(ErrorKind::Other)), None)
    }
}

// Whether a file syncs exactly if that is asked for.
fn syncs_as<R: Files<File = File>>(file: &Followed<'_, R>, asked: bool) -> bool
    ensures { result ≡ true → asks_sync file.now.rows ≡ asked }
{
    file.rows.options().sync == asked
}

/// As [`append_at`], but the text is read first: if it is refused, that is reported with status 1, and no log and no file is opened or
/// made. A text that can be measured is held until the run ends. If the run ended because the file couldn't be written or synced (55), a
/// second line has its path and the system's reason.
pub fn append_text_at<
    'a,
    R: Net<Listener = TcpListener, Stream = TcpStream> + Clock + Files<File = File>,
    S: Source,
    K: Durable,
    E: Write,
>(
    rt: &'a R,
    alloc: Global,
    spot: Spot<'a>,
    recording: Recording<'a>,
    mut streams: Streams<Heard<S>, K, E>,
    kept: &mut Kept,
) -> (
    Streams<Heard<S>, K, E>,
    io::Result<ExitCode>,
    Option<Appended<'a, R>>,
)
    // Either the text was refused, which is reported with status 1, and there is no file and no link. Or the input gave a text to
    // its end, and the run over exactly this text ended, and is told, as `append_at` says; with status 0 the run is done, or its end
    // was asked for, and the file that is handed back has its rows.
    ensures told { IfOk result.1 (λ status. ReadsAndAppends (IsBegunAt recording.entry spot.entry.station) S.Source ⟦<FromReader<&'a [u8]> as Source>⟧
        (views_by ⟦<FromReader<&'a [u8]> as Source>⟧ ⟦<Followed<'a, R> as Sink>⟧ ⟦<Followed<'a, R> as Durable>⟧.is_durable E.contents)
        (is_some spot.entry.site.log) spot.entry.station
        (appending_run streams result.0 kept.old.turns kept.new.turns result.2) (exit_status status)) }

    // Nothing is written on the output.
    ensures output { result.0.output ≡ streams.output }

    // The acts of the link that is handed back are what the system's calls did, at the site's place.
    ensures place { IfSome result.2 (λ left. IfSome left.link (λ link. ∥ IsMeantAt (place_seen spot.entry.site.place) (signals_at spot.entry.site.signals) link ∥₁)) }

    // The file that is handed back is at the recording's path, and syncs exactly if the recording asks for that.
    ensures path { IfSome result.2 (λ left. path_of left.file ≡ recording.entry.path.now) }
    ensures sync { IfSome result.2 (λ left. asks_sync left.file.rows ≡ recording.entry.sync) }
    ensures bound { IsStatusUpTo 1 result.1 }
{
    let read = match text_at(alloc, spot, &mut streams) {
        Ok(read) => read,
        Err(ended) => return (streams, ended, None),
    };
    let Streams {
        input,
        output,
        messages,
    } = streams;
    let ReadText {
        text,
        columns,
        files,
    } = read;
    let over = Streams {
        input: FromReader::new(text.as_slice()),
        output,
        messages,
    };
    let (left, ended, appended) = append_at(
        rt,
        alloc,
        spot,
        recording,
        columns.as_slice(),
        files,
        over,
        kept,
    );
    let Streams {
        input: _,
        output,
        mut messages,
    } = left;
    if let Some(appended) = &appended {
        // If this line can't be written, the fault's line is written all the same.
        let _ = tell_refusal(appended, &mut messages);
    }
    let streams = Streams {
        input,
        output,
        messages,
    };
    (streams, ended, appended)
}

// If the system refused to write or to sync the file that takes the rows, writes a line with the path that it has, and why. `Err`: that line couldn't
// be written.
fn tell_refusal<R: Files<File = File>, E: Write>(
    appended: &Appended<'_, R>,
    messages: &mut E,
) -> io::Result<()> {
    let path = appended.file.here();
    match appended.file.rows.file().refusal() {
        Some(why) => writeln!(messages, "geocom: {path}: {why}"),
        None => Ok(()),
    }
}

// Reports with status 1 why a file of records can't be had and, for one that doesn't begin as this station's rows do, how to
// rotate it.
fn refuse_file<E: Write>(why: Unfit, messages: &mut E) -> io::Result<ExitCode>
    ensures told { IfOk result (λ status. (exit_status status ≡ 1) × Appends (E.contents messages.old) (E.contents messages.new) (unfit_text why)) }
{
    let stop = Stop::Run(fault_of_unfit(why));
    let status = report_end_of_run(Err(stop), messages)?;
    write_rotation(why, messages)?;
    Ok(status)
}
