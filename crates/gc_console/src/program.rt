//! The command line of `geocom`: which subcommand runs, and the exit status if none does.

ghost use Rattle.std.specs.Prelude.{◌≡◌, [], map, IfErr, IfOk, Some};
ghost use Rattle.clap.specs.Values.{kind_of};
ghost use Rattle.clap.specs.declared.error.ErrorKind.{ErrorKind as Kind};
ghost use Rattle.std.specs.IoError.{error_kind};
ghost use Rattle.std.specs.List.{list_any};
ghost use Rattle.std.specs.Process.{exit_status};
ghost use Rattle.std.specs.String.{string_bytes};
ghost use Rattle.std.specs.Vec.Iter.{into_iter_items};
ghost use Rattle.gc_console.specs.Programs.{AreReadFrom, DoesAsked, DoesProgram, DoesWords, IsAnswered, IsUnread, LacksMemory, RefusesUnread, ShowsText, asks_for_text};
ghost use Rattle.gc_console.specs.Stations.{DoesOver, HasNoRun, seeing_by};
ghost use Rattle.gc_logs.specs.Refusals.{Refuses, refusal_line};
ghost use Rattle.gc_logs.specs.Statuses.{IsStatusUpTo};
ghost use Rattle.gc_options.specs.Limits.{limit_refusal};
ghost use Rattle.gc_lines.specs.Answering.{ports_of};
ghost use Rattle.gc_console.specs.Subcommands.{DoesCheck, DoesDrill, DoesExec, DoesServe, EndsFrom, opening, opening_ports};

use crate::check::check;
use crate::drill::{Drilling, drill_scene};
use crate::exec::exec_scene;
use crate::said::Said;
use crate::serve::{Serving, serve_with_places_filled};
use crate::system::System;
use crate::traces::{Acted, Traces};
use crate::words::{ClientJob, Job, Subcommand, job_of};
use clap::Error;
use clap::error::ErrorKind;
use gc_lines::{Durable, FromReader, ReadAhead, Sink, Source, ToWriter};
use gc_logs::{
    Followed, Heard, Lossy, Noting, Standard, Streams, Told, refuse, refuse_at, refuse_date,
    refuse_numbers, refuse_place, refuse_stale, refuse_unit, report_end,
};
use gc_options::{Limit, Rehearsal};
use gc_rehearsal::rehearse;
use gc_texts::RunFault;
use std::alloc::Global;
use std::env::Args;
use std::fs::File;
use std::io::{self, Read, Write};
use std::net::{Net, TcpListener, TcpStream};
use std::process::ExitCode;
use std::rt::Files;
use std::time::Clock;

/// Runs a command line, whose first word is the program's name, over the net, the clock and the files of `rt`, and over
/// `streams`. The exit status is 0 if it is done, or asked for help or the version; 1 after a fault, of which the messages have a
/// line, and for some faults more, unless they are closed; and 2 for words that don't parse, or that ask for what can't be done.
/// Where `words` is an error, that is reported: with status 1 if memory ran out, and else with status 2. The clause `done` says of
/// each subcommand what it read, what it wrote and when its status is 0.
///
/// `Err`: the lines of a fault, or those on why the words are refused, couldn't be written. Any other message that can't be
/// written is lost without an error, and so are the lines of a fault of a station that measures.
///
/// `standard` says which of the three streams are open. If one isn't, `station`, `ask` and `loop` only report it, and `serve`
/// fills its place.
pub fn run_program<
    'a,
    R: Net<Listener = TcpListener, Stream = TcpStream> + Clock + Files<File = File>,
    I: Read + Drop,
    O: Write + Drop,
    E: Write + Drop,
>(
    rt: &'a R,
    alloc: Global,
    standard: Standard,
    words: io::Result<Args>,
    streams: Streams<I, O, E>,
) -> (io::Result<ExitCode>, Traces)
    // What was done is what the words ask for, and the status tells it. `result.1` has what the output and the messages took, but not the
    // text of the help or the version. Which bytes were read is tied to the input's reads for a station alone.
    // - `exec`, `check`: the output took exactly the replies, or the verdicts, on what was read. Status 0: to the input's end.
    // - `drill`: status 0 only if the input was read to its end, and the output took all that is written of its events.
    // - `loop`, `ask`: the output took exactly the lines of the settlements; of a terminal that isn't known. Status 0: of all commands.
    // - `serve`: each connection that was served had exactly the instrument's replies to its lines, in order; or none was served.
    // - `station`: over exactly the text that the input gave, by exactly the settings that the words give, it ran over the acts that the
    //   traces have, which are what the system's calls did at the place that the words name; and its output, or the file at the path that
    //   they name, which syncs exactly with `--fsync`, took exactly the rows that the traces have. Or the text was refused, or the file
    //   couldn't be had, and nothing was sent. With `--check`: status 0 only if a station measures the text. Of its messages nothing is said.
    // - `rehearse`: the status is at most 1, and nothing more is said here.
    // - `loop`, `ask` and `station` over a closed stream: that is reported, with status 1, and nothing was read or written else.
    // - A place, a limit, a number, a unit, a `--stale`, an `--at` or a file's name that is refused: status 2, and the messages took exactly the line
    //   that says why.
    // - No job: if a word asks for help or version, status 0 and no message, or status 1 and the line of the fault `Output`; status 2, only
    //   for words that the command line doesn't take; or status 1, and the messages took exactly the line that memory ran out.
    // - Words that couldn't be read: status 2 and the line that one is no text; or status 1 and the line that memory ran out.
    // That memory did run out where that is reported, no clause can say.
    // Only of a station do the traces have acts or rows.
    ensures done { IfOk result.0 (λ status. DoesProgram (seeing_by ⟦<FromReader<I> as Source>⟧ ⟦<FromReader<&'a [u8]> as Source>⟧ ⟦<Told<ToWriter<O>> as Sink>⟧ ⟦<Told<ToWriter<O>> as Durable>⟧.is_durable
        ⟦<Followed<'a, Noting<'a, R>> as Sink>⟧ ⟦<Followed<'a, Noting<'a, R>> as Durable>⟧.is_durable ⟦<Lossy<Said<E>> as Write>⟧.contents)
        ⟦<Said<E> as Write>⟧.contents standard (opening (I.remaining streams.input) (Some []))
        (λ args. map string_bytes (into_iter_items args)) error_kind words result.1 (exit_status status)) }
    ensures bound { IsStatusUpTo 2 result.0 }
{
    let system = System {
        rt,
        alloc,
        standard,
    };
    let mut noted = with_noted_messages(streams);
    match all_words(alloc, words) {
        Ok(words) => system.run_words(words, noted),
        Err(error) => {
            let ended = refuse_unreadable(&error, &mut noted.messages);
            (ended, said_of(noted))
        }
    }
}

// These streams, with messages of which it is noted what they take.
fn with_noted_messages<I, O, E>(streams: Streams<I, O, E>) -> Streams<I, O, Said<E>>
    ensures input { result.input ≡ streams.input }
    ensures fresh { result.messages.said.bytes ≡ [] }
{
    let Streams {
        input,
        output,
        messages,
    } = streams;
    Streams {
        input,
        output,
        messages: Said::new(messages),
    }
}

// Lets streams go of which nothing is noted but what the messages took. Returns that.
fn said_of<I: Drop, O: Drop, E: Drop>(streams: Streams<I, O, Said<E>>) -> Traces
    ensures said { result.said ≡ streams.messages.said }
    ensures none { HasNoRun result.acted }
{
    let Streams {
        input: _,
        output: _,
        messages,
    } = streams;
    let Said { inner: _, said } = messages;
    Traces::of_messages(said)
}

impl<'a, R: Net<Listener = TcpListener, Stream = TcpStream> + Clock + Files<File = File>> System<
    'a,
    R,
> {
    // Runs what these words ask for, or answers words that ask for no run of a subcommand. Returns what was noted of a client's run.
    fn run_words<I: Read + Drop, O: Write + Drop, E: Write + Drop>(
        &self,
        words: Vec<String>,
        mut streams: Streams<I, O, Said<E>>,
    ) -> (io::Result<ExitCode>, Traces)
        ensures done { IfOk result.0 (λ status. DoesWords (seeing_by ⟦<FromReader<I> as Source>⟧ ⟦<FromReader<&'a [u8]> as Source>⟧ ⟦<Told<ToWriter<O>> as Sink>⟧ ⟦<Told<ToWriter<O>> as Durable>⟧.is_durable
            ⟦<Followed<'a, Noting<'a, R>> as Sink>⟧ ⟦<Followed<'a, Noting<'a, R>> as Durable>⟧.is_durable ⟦<Lossy<Said<E>> as Write>⟧.contents)
            ⟦<Said<E> as Write>⟧.contents self.entry.now.standard (opening (I.remaining streams.input) (Some streams.messages.said.bytes))
            (map string_bytes words.items) result.1 (exit_status status)) }
        ensures bound { IsStatusUpTo 2 result.0 }
    {
        match job_of(self.alloc, words.as_slice()) {
            Ok(job) => self.run_job(job, streams),
            Err(error) => {
                let ended = answer_words(
                    &error,
                    words.as_slice(),
                    &mut streams.output,
                    &mut streams.messages,
                );
                (ended, said_of(streams))
            }
        }
    }

    // Runs the job over the streams, and reports how that ended; or reports, with status 2, why the words name no job that can be
    // run. Returns what was noted of a client's run.
    fn run_job<I: Read + Drop, O: Write + Drop, E: Write + Drop>(
        &self,
        job: Job<'_>,
        mut streams: Streams<I, O, Said<E>>,
    ) -> (io::Result<ExitCode>, Traces)
        ensures done { IfOk result.0 (λ status. DoesAsked (seeing_by ⟦<FromReader<I> as Source>⟧ ⟦<FromReader<&'a [u8]> as Source>⟧ ⟦<Told<ToWriter<O>> as Sink>⟧ ⟦<Told<ToWriter<O>> as Durable>⟧.is_durable
            ⟦<Followed<'a, Noting<'a, R>> as Sink>⟧ ⟦<Followed<'a, Noting<'a, R>> as Durable>⟧.is_durable ⟦<Lossy<Said<E>> as Write>⟧.contents)
            ⟦<Said<E> as Write>⟧.contents self.entry.now.standard (opening (I.remaining streams.input) (Some streams.messages.said.bytes))
            job.entry result.1 (exit_status status)) }
        ensures bound { IsStatusUpTo 2 result.0 }
    {
        match job {
            Job::Exec { scene } => self.run_exec_job(scene, streams),
            Job::Check { log } => run_check_job(log, streams),
            Job::Drill(drilling) => self.run_drill_job(drilling, streams),
            Job::Serve(serving) => self.run_serve_job(serving, streams),
            Job::Rehearse(rehearsal) => self.run_rehearse_job(rehearsal, streams),
            Job::Client(job) => self.run_client_job(job, streams),
            Job::Nowhere { serves } => {
                let ended = refuse_place(serves, &mut streams.messages);
                (ended, said_of(streams))
            }
            Job::BadLimit(limit) => {
                let ended = refuse_limit(limit, &mut streams.messages);
                (ended, said_of(streams))
            }
            Job::NumberMissing => {
                let ended = refuse_numbers(&mut streams.messages);
                (ended, said_of(streams))
            }
            Job::NoUnit => {
                let ended = refuse_unit(&mut streams.messages);
                (ended, said_of(streams))
            }
            Job::StaleTooSoon => {
                let ended = refuse_stale(&mut streams.messages);
                (ended, said_of(streams))
            }
            Job::AtWithoutMultiple => {
                let ended = refuse_at(&mut streams.messages);
                (ended, said_of(streams))
            }
            Job::NoDate => {
                let ended = refuse_date(&mut streams.messages);
                (ended, said_of(streams))
            }
        }
    }

    // Answers requests as the instrument of the file `scene`, or as the simulator if none is named, and reports how that ended.
    // Returns what was noted of the streams.
    fn run_exec_job<I: Read + Drop, O: Write + Drop, E: Write + Drop>(
        &self,
        scene: Option<&str>,
        streams: Streams<I, O, Said<E>>,
    ) -> (io::Result<ExitCode>, Traces)
        ensures did { IfOk result.0 (λ status. EndsFrom (DoesExec scene.entry) (opening (I.remaining streams.input) (Some streams.messages.said.bytes)) result.1 (exit_status status)) }
        ensures none { HasNoRun result.1.acted }
        ensures bound { IsStatusUpTo 1 result.0 }
    {
        let mut ports = as_noted_ports_ahead(streams);
        let ended = exec_scene(
            self.rt,
            self.alloc,
            scene,
            &mut ports.input,
            &mut ports.output,
            &mut ports.messages,
        );
        (ended, traces_of(ports, Acted::nothing()))
    }

    // Plays the schedule on the input, and reports how that ended. Returns what was noted of the streams.
    fn run_drill_job<I: Read + Drop, O: Write + Drop, E: Write + Drop>(
        &self,
        drilling: Drilling<'_>,
        streams: Streams<I, O, Said<E>>,
    ) -> (io::Result<ExitCode>, Traces)
        ensures did { IfOk result.0 (λ status. EndsFrom (DoesDrill drilling.entry) (opening (I.remaining streams.input) (Some streams.messages.said.bytes)) result.1 (exit_status status)) }
        ensures none { HasNoRun result.1.acted }
        ensures bound { IsStatusUpTo 2 result.0 }
    {
        let mut ports = as_noted_ports(streams);
        let ended = drill_scene(
            self.rt,
            self.alloc,
            drilling,
            &mut ports.input,
            &mut ports.output,
            &mut ports.messages,
        );
        (ended, traces_of(ports, Acted::nothing()))
    }

    // Rehearses the station whose text is on the input, and reports how that ended; after a fault also what the system refused
    // last, and why, if that is noted. Returns what was noted of the streams.
    fn run_rehearse_job<I: Read + Drop, O: Write + Drop, E: Write + Drop>(
        &self,
        rehearsal: Rehearsal<'_>,
        streams: Streams<I, O, Said<E>>,
    ) -> (io::Result<ExitCode>, Traces)
        ensures none { HasNoRun result.1.acted }
        ensures bound { IsStatusUpTo 1 result.0 }
    {
        let noting = Noting::new(self.rt);
        let (mut ports, ended) = rehearse(&noting, self.alloc, rehearsal, as_noted_ports(streams));
        let ended = noting.report(self.standard, ended, &mut ports.messages);
        (ended, traces_of(ports, Acted::nothing()))
    }

    // Serves a simulator, and reports how that ended. Returns what was noted of the messages.
    fn run_serve_job<I: Drop, O: Drop, E: Write + Drop>(
        &self,
        serving: Serving<'_>,
        mut streams: Streams<I, O, Said<E>>,
    ) -> (io::Result<ExitCode>, Traces)
        ensures did { IfOk result.0 (λ status. DoesServe self.entry.now.standard serving.entry (Some streams.messages.said.bytes) (Some result.1.said.bytes) (exit_status status)) }
        ensures none { HasNoRun result.1.acted }
        ensures bound { IsStatusUpTo 2 result.0 }
    {
        let ended = serve_with_places_filled(
            self.rt,
            self.alloc,
            self.standard,
            serving,
            &mut streams.messages,
        );
        (ended, said_of(streams))
    }

    // Runs `loop`, `ask` or `station`, and reports how that ended. Returns what was noted of the streams, and of a station's link and
    // file.
    fn run_client_job<I: Read + Drop, O: Write + Drop, E: Write + Drop>(
        &self,
        job: ClientJob<'_>,
        streams: Streams<I, O, Said<E>>,
    ) -> (io::Result<ExitCode>, Traces)
        ensures done { IfOk result.0 (λ status. DoesOver (seeing_by ⟦<FromReader<I> as Source>⟧ ⟦<FromReader<&'a [u8]> as Source>⟧ ⟦<Told<ToWriter<O>> as Sink>⟧ ⟦<Told<ToWriter<O>> as Durable>⟧.is_durable
            ⟦<Followed<'a, Noting<'a, R>> as Sink>⟧ ⟦<Followed<'a, Noting<'a, R>> as Durable>⟧.is_durable ⟦<Lossy<Said<E>> as Write>⟧.contents)
            ⟦<Said<E> as Write>⟧.contents self.entry.now.standard (opening (I.remaining streams.input) (Some streams.messages.said.bytes))
            job.entry result.1 (exit_status status)) }
        ensures bound { IsStatusUpTo 2 result.0 }
    {
        let (ports, ended, acted) = self.run_asking(job, as_noted_ports(streams));
        (ended, traces_of(ports, acted))
    }
}

// Lets the ports of a run go. Returns what was noted of them, with what was noted of a station.
fn traces_of<I: Drop, O: Drop, E: Drop>(
    ports: Streams<Heard<I>, Told<O>, Said<E>>,
    acted: Acted,
) -> Traces
    ensures heard { result.heard ≡ ports.input.heard }
    ensures told { result.told ≡ ports.output.told }
    ensures said { result.said ≡ ports.messages.said }
    ensures acted { result.acted ≡ acted }
{
    let Streams {
        input,
        output,
        messages,
    } = ports;
    let Heard { source: _, heard } = input;
    let Told { sink: _, told } = output;
    let Said { inner: _, said } = messages;
    Traces {
        heard,
        told,
        said,
        acted,
    }
}

// These streams, with the input as a source and the output as a sink, of which it is noted what they give and take.
fn as_noted_ports<I: Read, O: Write, E>(
    streams: Streams<I, O, E>,
) -> Streams<Heard<FromReader<I>>, Told<ToWriter<O>>, E>
    ensures bytes { ⟦<FromReader<I> as Source>⟧.remaining result.input.source ≡ I.remaining streams.input }
    ensures reads { ⟦<FromReader<I> as Source>⟧.reads result.input.source ≡ 0 }
    ensures unheard { result.input.heard.bytes ≡ [] }
    ensures untold { result.output.told.bytes ≡ [] }
    ensures ports { ports_of ⟦<Heard<FromReader<I>> as Source>⟧ result.input ⟦<Told<ToWriter<O>> as Sink>⟧ result.output
        ≡ opening_ports (I.remaining streams.input) }
    ensures messages { result.messages ≡ streams.messages }
{
    let Streams {
        input,
        output,
        messages,
    } = streams;
    Streams {
        input: Heard::new(FromReader::new(input)),
        output: Told::new(ToWriter::new(output)),
        messages,
    }
}

// As `as_noted_ports`, with an input that is read ahead.
fn as_noted_ports_ahead<I: Read, O: Write, E>(
    streams: Streams<I, O, E>,
) -> Streams<Heard<FromReader<ReadAhead<I>>>, Told<ToWriter<O>>, E>
    ensures ports { ports_of ⟦<Heard<FromReader<ReadAhead<I>>> as Source>⟧ result.input ⟦<Told<ToWriter<O>> as Sink>⟧ result.output
        ≡ opening_ports (I.remaining streams.input) }
    ensures messages { result.messages ≡ streams.messages }
{
    let Streams {
        input,
        output,
        messages,
    } = streams;
    as_noted_ports(Streams {
        input: ReadAhead::new(input),
        output,
        messages,
    })
}

// Checks the log on the input if `log` is set, otherwise the stream on it, and reports how that ended. Returns what was noted of the
// streams.
fn run_check_job<I: Read + Drop, O: Write + Drop, E: Write + Drop>(
    log: bool,
    streams: Streams<I, O, Said<E>>,
) -> (io::Result<ExitCode>, Traces)
    ensures did { IfOk result.0 (λ status. EndsFrom (DoesCheck log) (opening (I.remaining streams.input) (Some streams.messages.said.bytes)) result.1 (exit_status status)) }
    ensures none { HasNoRun result.1.acted }
    ensures bound { IsStatusUpTo 1 result.0 }
{
    let mut ports = as_noted_ports_ahead(streams);
    let ended = check(
        log,
        &mut ports.input,
        &mut ports.output,
        &mut ports.messages,
    );
    (ended, traces_of(ports, Acted::nothing()))
}

// Answers words for which no subcommand runs: reports that memory ran out (status 1) or why they don't parse (status 2), or
// writes the help or the version for which one of them asks (status 0, or 1 if the output fails).
fn answer_words<O: Write, E: Write>(
    error: &Error,
    words: &[String],
    output: &mut O,
    messages: &mut E,
) -> io::Result<ExitCode>
    ensures answered { IfOk result (λ status. IsAnswered (list_any (λ word. asks_for_text (string_bytes word)) words.now)
        (exit_status status) (E.contents messages.old) (E.contents messages.new)) }
    ensures memory { kind_of error.now ≡ Kind.OutOfMemory
        → IfOk result (λ status. LacksMemory (exit_status status) (E.contents messages.old) (E.contents messages.new)) }
    ensures bound { IsStatusUpTo 2 result }
{
    if matches!(error.kind(), ErrorKind::OutOfMemory) {
        return report_out_of_memory(messages);
    }
    if error.use_stderr() || !ask_for_text(words) {
        return refuse_unparsed(error, reads_a_text(words), messages);
    }
    show(error, output, messages)
}

// Whether one of the words asks for the help or the version.
fn ask_for_text(words: &[String]) -> bool
    ensures { result ≡ list_any (λ word. asks_for_text (string_bytes word)) words.now }
{
    words.iter().any(|word| asks_for_text(word.as_str()))
}

// Whether this word asks for the help or the version.
fn asks_for_text(word: &str) -> bool
    ensures { result ≡ asks_for_text word.now }
{
    word == "--help" || word == "-h" || word == "--version" || word == "-V"
}

// Writes the help or the version (`text`) on the output, with status 0. If that fails, the fault `Output` is reported, with
// status 1.
fn show<O: Write, E: Write>(text: &Error, output: &mut O, messages: &mut E) -> io::Result<ExitCode>
    ensures { IfOk result (λ status. ShowsText (exit_status status) (E.contents messages.old) (E.contents messages.new)) }
{
    match write!(output, "{text}") {
        Ok(()) => Ok(ExitCode::SUCCESS),
        Err(_) => report_end(Err(RunFault::Output), messages),
    }
}

// Reports, with status 2, that an option with a limit has neither its word nor a number within its bounds. `Err`: the messages couldn't be
// written.
fn refuse_limit<E: Write>(limit: Limit, messages: &mut E) -> io::Result<ExitCode>
    ensures { IfOk result (λ status. Refuses (refusal_line (limit_refusal limit)) (exit_status status) (E.contents messages.old) (E.contents messages.new)) }
{
    refuse(limit.refusal(), messages)
}

// Whether words name a subcommand that reads a text from standard input. `false` if they name none.
fn reads_a_text(words: &[String]) -> bool {
    let Some(word) = words.get(1) else {
        return false;
    };
    match Subcommand::named(word.as_str()) {
        Some(subcommand) => subcommand.reads_a_text(),
        None => false,
    }
}

// Writes why a command line doesn't parse. If an argument is unknown, and the subcommand reads a text (`reads`), a tip follows:
// the text comes on standard input. The status is 2.
fn refuse_unparsed<E: Write>(error: &Error, reads: bool, messages: &mut E) -> io::Result<ExitCode>
    ensures { IfOk result (λ status. exit_status status ≡ 2) }
{
    write!(messages, "{error}")?;
    if reads && error.kind() == ErrorKind::UnknownArgument {
        writeln!(
            messages,
            "\ntip: the text is read from standard input, as by `geocom station WHERE < FILE`"
        )?;
    }
    Ok(ExitCode::from(2))
}

// The words of the command line in a vector. It fails if one isn't UTF-8, or if memory ran out.
fn all_words(alloc: Global, words: io::Result<Args>) -> io::Result<Vec<String>>
    ensures read { IfOk result (λ all. AreReadFrom into_iter_items words all.items) }
    ensures unread { IfErr result (λ error. IsUnread error_kind words error) }
{
    Ok(words?.collect(alloc)?)
}

// Reports that the words couldn't be read: with status 2 if one isn't UTF-8, and with status 1 if memory ran out.
fn refuse_unreadable<E: Write>(error: &io::Error, messages: &mut E) -> io::Result<ExitCode>
    ensures refused { IfOk result (λ status. RefusesUnread (error_kind error.now) (exit_status status) (E.contents messages.old) (E.contents messages.new)) }
    ensures bound { IsStatusUpTo 2 result }
{
    if matches!(error.kind(), io::ErrorKind::OutOfMemory) {
        return report_out_of_memory(messages);
    }
    writeln!(messages, "error: a word of the command line is no text")?;
    Ok(ExitCode::from(2))
}

// Reports that memory ran out as the command line was read, with status 1, as any fault.
fn report_out_of_memory<E: Write>(messages: &mut E) -> io::Result<ExitCode>
    ensures { IfOk result (λ status. LacksMemory (exit_status status) (E.contents messages.old) (E.contents messages.new)) }
{
    report_end(Err(RunFault::Memory), messages)
}
