//! The subcommands that ask over a connection. None of them begins if a standard stream is closed.

ghost use Rattle.std.specs.Prelude.{◌≡◌, true, false, None, Some, option_map, IfOk, IfSome};
ghost use Rattle.std.specs.Process.{exit_status};
ghost use Rattle.gc_console.specs.Stations.{AppendsInto, DoesJob, HasNoRun, MeasuresOnto, Records, RecordsLossy, ports_seen, rows_noted, seeing_by};
ghost use Rattle.gc_console.specs.Subcommands.{DoesAsk, DoesLoop};
ghost use Rattle.gc_links.specs.LinksMeant.{IsMeantAt};
ghost use Rattle.gc_links.specs.Seeing.{SignalsSeen};
ghost use Rattle.gc_links.specs.Placed.{PlaceSeen};
ghost use Rattle.gc_measuring.specs.Appending.{acts_in, began_in, file_of};
ghost use Rattle.gc_measuring.specs.Noted.{IsMeantRecord};
ghost use Rattle.gc_measuring.specs.Telling.{acts_noted, began_noted};
ghost use Rattle.gc_options.specs.Stations.{with_status_line};
ghost use Rattle.gc_logs.specs.Streams.{are_open, ReportsClosed};
ghost use Rattle.gc_logs.specs.Statuses.{IsStatusUpTo};

use crate::ask::ask_place;
use crate::looped::loop_scene;
use crate::system::System;
use crate::traces::Acted;
use crate::words::ClientJob;
use gc_ask::Shown;
use gc_files::Past;
use gc_lines::{Durable, FromReader, Sink, Source};
use gc_links::{LinkRecord, Place};
use gc_logs::{Followed, Heard, Lossy, Noticed, Noting, Streams, Told};
use gc_measuring::{Appended, Spot, append_text_at, check_task_text, measure_text_at, record_of};
use gc_options::{Recording, Settings, Site};
use gc_station::Kept;
use std::cell::Cell;
use std::fs::File;
use std::io::{self, Write};
use std::net::{Net, TcpListener, TcpStream};
use std::process::ExitCode;
use std::rt::Files;
use std::time::Clock;

impl<'a, R: Net<Listener = TcpListener, Stream = TcpStream> + Clock + Files<File = File>> System<
    'a,
    R,
> {
    /// Runs the subcommand `loop`, `ask` or `station`, as `job` says, and reports how that ended; or only reports that a standard
    /// stream is closed. The streams are handed back, and what was noted of a station's link and file.
    pub(crate) fn run_asking<S: Source, K: Durable + Drop, E: Write>(
        &self,
        job: ClientJob<'_>,
        mut streams: Streams<Heard<S>, Told<K>, E>,
    ) -> (Streams<Heard<S>, Told<K>, E>, io::Result<ExitCode>, Acted)
        // If a stream is closed, that is reported with status 1 (without a line if the messages are closed), and input and output
        // weren't used; there was no run.
        ensures closed { are_open self.entry.now.standard ≡ false → IfOk result.1 (λ status. ReportsClosed self.entry.now.standard (exit_status status) (E.contents streams.messages) (E.contents result.0.messages)) }
        ensures untouched { are_open self.entry.now.standard ≡ false → (result.0.input ≡ streams.input) × (result.0.output ≡ streams.output) }
        ensures idle { are_open self.entry.now.standard ≡ false → HasNoRun result.2 }

        // If all are open, the job was done: the commands of the input were asked at the job's place, or in this program, and the output
        // has their settlements; or a station measured at the job's site, by its settings, into its file (`DoesJob`).
        ensures done { are_open self.entry.now.standard ≡ true → IfOk result.1 (λ status. DoesJob (seeing_by S.Source ⟦<FromReader<&'a [u8]> as Source>⟧ ⟦<Told<K> as Sink>⟧ ⟦<Told<K> as Durable>⟧.is_durable
            ⟦<Followed<'a, Noting<'a, R>> as Sink>⟧ ⟦<Followed<'a, Noting<'a, R>> as Durable>⟧.is_durable ⟦<Lossy<E> as Write>⟧.contents)
            E.contents self.entry.now.standard job.entry streams result.0 result.2 (exit_status status)) }
        ensures bound { IsStatusUpTo 2 result.1 }
    {
        if !self.standard.are_open() {
            let ended = self.standard.report_closed(&mut streams.messages);
            return (streams, ended, Acted::nothing());
        }
        self.run_open(job, streams)
    }

    // Runs the subcommand that `job` says over streams that are open, and reports how that ended. The streams are handed back, and what
    // was noted of a station's link and file.
    fn run_open<S: Source, K: Durable + Drop, E: Write>(
        &self,
        job: ClientJob<'_>,
        streams: Streams<Heard<S>, Told<K>, E>,
    ) -> (Streams<Heard<S>, Told<K>, E>, io::Result<ExitCode>, Acted)
        ensures done { IfOk result.1 (λ status. DoesJob (seeing_by S.Source ⟦<FromReader<&'a [u8]> as Source>⟧ ⟦<Told<K> as Sink>⟧ ⟦<Told<K> as Durable>⟧.is_durable
            ⟦<Followed<'a, Noting<'a, R>> as Sink>⟧ ⟦<Followed<'a, Noting<'a, R>> as Durable>⟧.is_durable ⟦<Lossy<E> as Write>⟧.contents)
            E.contents self.entry.now.standard job.entry streams result.0 result.2 (exit_status status)) }
        ensures bound { IsStatusUpTo 1 result.1 }
    {
        match job {
            ClientJob::Loop { scene } => {
                let (streams, ended) = self.run_loop(scene, streams);
                (streams, ended, Acted::nothing())
            }
            ClientJob::Ask { place } => {
                let (streams, ended) = self.run_ask(place, streams);
                (streams, ended, Acted::nothing())
            }
            ClientJob::Outline { choice, unit } => {
                let (streams, ended) = check_task_text(self.alloc, choice, unit, streams);
                (streams, ended, Acted::nothing())
            }
            ClientJob::Station {
                site,
                station,
                recording,
            } => {
                let station = station.with_status_line(self.standard.terminal);
                self.measure(site, station, recording, streams)
            }
        }
    }

    // Asks the commands of the input of the instrument of a scene in this program, and reports how that ended. Replies are shown
    // escaped if the output is a terminal. The streams are handed back.
    fn run_loop<S: Source, K: Sink, E: Write>(
        &self,
        scene: Option<&str>,
        streams: Streams<Heard<S>, Told<K>, E>,
    ) -> (Streams<Heard<S>, Told<K>, E>, io::Result<ExitCode>)
        ensures did { IfOk result.1 (λ status. DoesLoop self.entry.now.standard.output_terminal scene.entry
            (ports_seen S.Source ⟦<Told<K> as Sink>⟧ E.contents streams result.0 (exit_status status))) }
        ensures bound { IsStatusUpTo 1 result.1 }
    {
        let shown = shown_of(streams, self.standard.output_terminal);
        let (shown, ended) = loop_scene(self.rt, self.alloc, scene, shown);
        (streams_of(shown), ended)
    }

    // As `run_loop`, but asks the commands at a place.
    fn run_ask<S: Source, K: Sink, E: Write>(
        &self,
        place: Place<'_>,
        streams: Streams<Heard<S>, Told<K>, E>,
    ) -> (Streams<Heard<S>, Told<K>, E>, io::Result<ExitCode>)
        ensures did { IfOk result.1 (λ status. DoesAsk self.entry.now.standard.output_terminal place.entry
            (ports_seen S.Source ⟦<Told<K> as Sink>⟧ E.contents streams result.0 (exit_status status))) }
        ensures bound { IsStatusUpTo 1 result.1 }
    {
        let shown = shown_of(streams, self.standard.output_terminal);
        let (shown, ended) = ask_place(self.rt, self.alloc, place, shown);
        (streams_of(shown), ended)
    }

    // Measures at a site, and reports how that ended; after a fault also what the system refused last, and why, if that is noted. The
    // streams are handed back, and what was noted of link and file.
    fn measure<S: Source, K: Durable + Drop, E: Write>(
        &self,
        site: Site<'_>,
        station: Settings,
        recording: Option<Recording<'_>>,
        streams: Streams<Heard<S>, K, E>,
    ) -> (Streams<Heard<S>, K, E>, io::Result<ExitCode>, Acted)
        ensures told { IfOk result.1 (λ status. RecordsLossy (seeing_by S.Source ⟦<FromReader<&'a [u8]> as Source>⟧ K.Sink K.is_durable
            ⟦<Followed<'a, Noting<'a, R>> as Sink>⟧ ⟦<Followed<'a, Noting<'a, R>> as Durable>⟧.is_durable ⟦<Lossy<E> as Write>⟧.contents)
            site.entry recording.entry station streams result.0 result.2 (exit_status status)) }
        ensures bound { IsStatusUpTo 1 result.1 }
    {
        let noting = Noting::new(self.rt);
        let system = System {
            rt: &noting,
            alloc: self.alloc,
            standard: self.standard,
        };
        let (mut streams, ended, acted) = system.measure_site(site, station, recording, streams);
        let ended = noting.report(self.standard, ended, &mut streams.messages);
        (streams, ended, acted)
    }
}

impl<
    'a,
    'b,
    R: Net<Listener = TcpListener, Stream = TcpStream> + Clock + Files<File = File>,
> System<'a, Noting<'b, R>> {
    // Measures at a site, and reports how that ended. A message that can't be written is lost, which doesn't change the status.
    // If the system's last error doesn't explain the fault, `rt` forgets it. The streams are handed back, and what was noted of link
    // and file.
    fn measure_site<S: Source, K: Durable + Drop, E: Write>(
        &self,
        site: Site<'_>,
        station: Settings,
        recording: Option<Recording<'_>>,
        streams: Streams<Heard<S>, K, E>,
    ) -> (Streams<Heard<S>, K, E>, io::Result<ExitCode>, Acted)
        ensures told { IfOk result.1 (λ status. RecordsLossy (seeing_by S.Source ⟦<FromReader<&'a [u8]> as Source>⟧ K.Sink K.is_durable
            ⟦<Followed<'a, Noting<'b, R>> as Sink>⟧ ⟦<Followed<'a, Noting<'b, R>> as Durable>⟧.is_durable ⟦<Lossy<E> as Write>⟧.contents)
            site.entry recording.entry station streams result.0 result.2 (exit_status status)) }
        ensures bound { IsStatusUpTo 1 result.1 }
    {
        let noticed = Cell::new(Noticed::nothing());
        let spot = Spot {
            site,
            station,
            noticed: &noticed,
            reason: self.rt.reason(),
        };
        let lossy = lossy_of(streams);
        let (mut lossy, ended, acted) = self.measure_recorded(spot, recording, lossy);
        let _ = spot.report(&mut lossy.messages);
        if !spot.has_system_reason() {
            self.rt.forget();
        }
        (lossless_of(lossy), ended, acted)
    }

    // Measures at a site, with the records in a file if one is named, and otherwise on the output; and reports how that ended.
    // The streams are handed back, and what was noted of link and file.
    fn measure_recorded<S: Source, K: Durable + Drop, E: Write>(
        &self,
        spot: Spot<'_>,
        recording: Option<Recording<'_>>,
        streams: Streams<Heard<S>, K, E>,
    ) -> (Streams<Heard<S>, K, E>, io::Result<ExitCode>, Acted)
        ensures told { IfOk result.1 (λ status. Records (seeing_by S.Source ⟦<FromReader<&'a [u8]> as Source>⟧ K.Sink K.is_durable
            ⟦<Followed<'a, Noting<'b, R>> as Sink>⟧ ⟦<Followed<'a, Noting<'b, R>> as Durable>⟧.is_durable E.contents)
            spot.entry.site recording.entry spot.entry.station streams result.0 result.2 (exit_status status)) }
        ensures bound { IsStatusUpTo 1 result.1 }
    {
        match recording {
            None => self.measure_onto(spot, streams),
            Some(recording) => self.append_into(spot, recording, streams),
        }
    }

    // Measures at a site, with the records on the output, and reports how that ended. The streams are handed back, and what was noted of
    // the link.
    fn measure_onto<S: Source, K: Durable + Drop, E: Write>(
        &self,
        spot: Spot<'_>,
        streams: Streams<Heard<S>, K, E>,
    ) -> (Streams<Heard<S>, K, E>, io::Result<ExitCode>, Acted)
        ensures told { IfOk result.1 (λ status. MeasuresOnto (seeing_by S.Source ⟦<FromReader<&'a [u8]> as Source>⟧ K.Sink K.is_durable
            ⟦<Followed<'a, Noting<'b, R>> as Sink>⟧ ⟦<Followed<'a, Noting<'b, R>> as Durable>⟧.is_durable E.contents)
            spot.entry.site spot.entry.station streams result.0 result.2 (exit_status status)) }
        ensures bound { IsStatusUpTo 1 result.1 }
    {
        // What is seen at each act, for proofs alone.
        let mut kept = Kept::new();
        let (streams, ended, link) = measure_text_at(self.rt, self.alloc, spot, streams, &mut kept);
        let acted = Acted {
            link: record_of(link),
            kept,
            file: None,
        };
        (streams, ended, acted)
    }

    // Measures at a site, with the records appended to a file, and reports how that ended. The streams are handed back, and what was noted
    // of link and file.
    fn append_into<S: Source, K: Durable + Drop, E: Write>(
        &self,
        spot: Spot<'_>,
        recording: Recording<'_>,
        streams: Streams<Heard<S>, K, E>,
    ) -> (Streams<Heard<S>, K, E>, io::Result<ExitCode>, Acted)
        ensures told { IfOk result.1 (λ status. AppendsInto (seeing_by S.Source ⟦<FromReader<&'a [u8]> as Source>⟧ K.Sink K.is_durable
            ⟦<Followed<'a, Noting<'b, R>> as Sink>⟧ ⟦<Followed<'a, Noting<'b, R>> as Durable>⟧.is_durable E.contents)
            recording.entry spot.entry.site spot.entry.station streams result.0 result.2 (exit_status status)) }
        ensures bound { IsStatusUpTo 1 result.1 }
    {
        // What is seen at each act, for proofs alone.
        let mut kept = Kept::new();
        let (streams, ended, appended) = append_text_at(
            self.rt, self.alloc, spot, recording, streams, &mut kept,
        );
        let (link, file) = end_appending(appended);
        (streams, ended, Acted { link, kept, file })
    }
}

// Ends the appending of a run, if it had a file, and returns what is left of its link, and what was noted of the file.
fn end_appending<
    'a,
    R: Net<Listener = TcpListener, Stream = TcpStream> + Clock + Files<File = File>,
>(appended: Option<Appended<'a, R>>) -> (Option<LinkRecord>, Option<Past>)
    ensures acts { acts_noted result.0 ≡ acts_in appended.entry }
    ensures began { began_noted result.0 ≡ began_in appended.entry }
    ensures meant { (where_to : PlaceSeen) (signals : SignalsSeen) → IfSome appended.entry (λ left. IfSome left.link (λ link. ∥ IsMeantAt where_to signals link ∥₁))
        → IfSome result.0 (λ link. ∥ IsMeantRecord where_to signals link ∥₁) }
    ensures rows { option_map ⟦<Followed<'a, R> as Sink>⟧.taken (file_of appended.entry) ≡ option_map rows_noted result.1 }
{
    match appended {
        Some(appended) => {
            let (link, past) = appended.end();
            (link, Some(past))
        }
        None => (None, None),
    }
}

// These streams, with an output whose bytes are escaped if a terminal shows them.
fn shown_of<S, K, E>(streams: Streams<S, K, E>, at_terminal: bool) -> Streams<S, Shown<K>, E>
    ensures input { result.input ≡ streams.input }
    ensures inside { result.output.output ≡ streams.output }
    ensures at_terminal { result.output.at_terminal ≡ at_terminal }
    ensures messages { result.messages ≡ streams.messages }
{
    let Streams {
        input,
        output,
        messages,
    } = streams;
    Streams {
        input,
        output: Shown {
            output,
            at_terminal,
        },
        messages,
    }
}

// These streams without what `shown_of` added.
fn streams_of<S, K, E>(shown: Streams<S, Shown<K>, E>) -> Streams<S, K, E>
    ensures input { result.input ≡ shown.input }
    ensures output { result.output ≡ shown.output.output }
    ensures messages { result.messages ≡ shown.messages }
{
    let Streams {
        input,
        output,
        messages,
    } = shown;
    Streams {
        input,
        output: output.output,
        messages,
    }
}

// These streams, but a message that can't be written is lost, which is no error.
fn lossy_of<S, K, E>(streams: Streams<S, K, E>) -> Streams<S, K, Lossy<E>>
    ensures input { result.input ≡ streams.input }
    ensures output { result.output ≡ streams.output }
{
    let Streams {
        input,
        output,
        messages,
    } = streams;
    Streams {
        input,
        output,
        messages: Lossy { inner: messages },
    }
}

// These streams without what `lossy_of` added: a message that can't be written is an error again.
fn lossless_of<S, K, E>(lossy: Streams<S, K, Lossy<E>>) -> Streams<S, K, E>
    ensures input { result.input ≡ lossy.input }
    ensures output { result.output ≡ lossy.output }
{
    let Streams {
        input,
        output,
        messages,
    } = lossy;
    Streams {
        input,
        output,
        messages: messages.inner,
    }
}
