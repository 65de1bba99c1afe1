//! `geocom serve`: its words, and an instrument on a port or on a device. The places of standard streams that are closed (file
//! descriptors 0 to 2) are filled first, so that no socket or device takes one.

ghost use Rattle.std.specs.Prelude.{◌≡◌, ◌≤◌, ◌⊎◌, true, None, IfErr, IfOk, IfSome};
ghost use Rattle.std.specs.Process.{exit_status};
ghost use Rattle.gc_ask.specs.Keeping.{KeepsServing};
ghost use Rattle.gc_ask.specs.Places.{IsFaultOfPlace};
ghost use Rattle.gc_console.specs.Asked.{TellsServed};
ghost use Rattle.gc_console.specs.Jobs.{IsIdle, IsServed, IsServing};
ghost use Rattle.gc_console.specs.Served.{KeepsAt, ServesAsAsked, ServesAt, ServesOrRefuses, TellsServe};
ghost use Rattle.gc_scenes.specs.Slow.{HearsSometime, slow_restarted};
ghost use Rattle.gc_logs.specs.Ends.{is_port};
ghost use Rattle.gc_logs.specs.Refusals.{Refuses, range_line};
ghost use Rattle.gc_logs.specs.Statuses.{IsStatusUpTo};
ghost use Rattle.gc_console.specs.Rules.{serve_rules};
ghost use Rattle.gc_options.specs.Tables.{HasArguments};
ghost use Rattle.gc_logs.specs.Streams.{ReportsClosed};
ghost use Rattle.gc_options.specs.Chosen.{GivesPlace};
ghost use Rattle.gc_options.specs.Words.{words_of};

use crate::reads::MOST_READS;
use crate::scene::{Staged, Timed, instrument_of};
use clap::{ArgMatches, Command};
use gc_ask::{
    Address, BusyClock, Keeping, MOST_CONNECTIONS, Simulates, Slow, keep_device, keep_tcp,
    serve_device, serve_tcp,
};
use gc_links::Place;
use gc_logs::{Noting, Standard, refuse_numbers, report_end, report_end_at};
use gc_options::help::CONNECTIONS;
use gc_options::{
    Argument, FLAG, PLACE, SCENE, Takes, command_of, has_flag, named_place, text_in, u32_in, u32_or,
};
use gc_scenes::SlowInstrument;
use gc_texts::RunFault;
use std::alloc::{AllocError, Global};
use std::fs::File;
use std::io::{self, Write};
use std::net::{Net, TcpListener, TcpStream};
use std::process::ExitCode;
use std::rt::Files;
use std::time::Clock;

// The longest time for which a kept connection may be idle, in seconds: a day.
const LONGEST_IDLE: u32 = 86_400;

/// What the words of `serve` ask for: the path of the scene's file, if one is named; the port, address or device; the number of
/// connections, if one is given; and with `--keep` the seconds without bytes after which a connection is idle (`None`: without
/// `--keep`).
#[derive(Clone, Copy)]
pub struct Serving<'a> {
    pub scene: Option<&'a str>,
    pub place: Place<'a>,
    pub connections: Option<u32>,
    pub idle: Option<u32>,
}

// The arguments of `serve`.
const ARGUMENTS: &[Argument<'static>] = &[
    Argument {
        help: "A port of 127.0.0.1, from 1 on, or the path of a device; with --any-address also HOST:PORT",
        ..PLACE
    },
    Argument {
        name: "any-address",
        help: "Listens at HOST:PORT, an address of this machine: who reaches it can use the instrument",
        ..FLAG
    },
    Argument {
        name: "connections",
        takes: Takes::Signed(1, 1000),
        value_name: &["N"],
        help: "Serves N connections, 1 to 1000, one after the other [default: 1; with --keep: no limit]",
        ..FLAG
    },
    Argument {
        name: "keep",
        help: "Goes on serving after a connection that fails, and reports it",
        ..FLAG
    },
    Argument {
        name: "idle",
        takes: Takes::Signed(1, 86_400),
        value_name: &["SECONDS"],
        default: &["60"],
        needs: &["keep"],
        help: "With --keep, on a port: closes a connection on which nothing came for SECONDS, 1 to 86400",
        ..FLAG
    },
    SCENE,
];

/// The subcommand `serve` for clap, with this name: its help and its arguments. `Err`: memory ran out.
pub fn serve_command<'a>(alloc: Global, name: &'a str) -> Result<Command<'a>, AllocError>
    ensures { IfOk result (λ command. HasArguments name.now serve_rules command) }
{
    command_of(
        alloc,
        name,
        "Serves a simulator on a port, or on a device",
        CONNECTIONS,
        ARGUMENTS,
    )
}

/// What the words of `serve` ask for. `None`: they name no place, or an address without `--any-address`.
pub fn serving_of<'a>(words: &ArgMatches<'a>) -> Option<Serving<'a>>
    ensures { IfSome result (λ serving. IsServing (words_of words.now) serving) }
{
    let place = served_place(words)?;
    Some(Serving {
        scene: text_in(words, "scene"),
        place,
        connections: u32_in(words, "connections"),
        idle: idle_of(words),
    })
}

// The place that the words of `serve` name. `None`: they name none, or an address without `--any-address`.
fn served_place<'a>(words: &ArgMatches<'a>) -> Option<Place<'a>>
    ensures named { IfSome result (λ place. GivesPlace (words_of words.now) place) }
    ensures served { IfSome result (λ place. IsServed (words_of words.now) place) }
{
    match named_place(words)? {
        Place::Host(_) if !has_flag(words, "any-address") => None,
        place => Some(place),
    }
}

// After how many seconds a connection is idle, where the place is to be kept; else `None`. clap gives a missing number its
// default: else it would be 0, which `keep_place` refuses.
fn idle_of(words: &ArgMatches) -> Option<u32>
    ensures { IsIdle (words_of words.now) result }
{
    if has_flag(words, "keep") {
        Some(u32_or(words, "idle", 0))
    } else {
        None
    }
}

/// Serves a port, an address or a device, and reports how that ended, with status 0, 1, or 2 for a number out of its range. Where
/// `serving.idle` is set, a connection that fails is reported, and doesn't end it.
///
/// The places of standard streams that are closed are filled first, and stay filled until the end. Where that can't be done,
/// nothing is served, and `StreamClosed` is reported, with status 1 (no line if the messages are closed). Next the scene is read,
/// if one is named, and after that a port is bound or a device opened. `Err`: the line of the fault, that on what is at fault in
/// the scene, or that of a number out of its range couldn't be written.
///
/// Where a scene is refused, further lines say what is at fault in it, in which file, and what the system refused; and after some
/// faults a second line gives the place and the reason, unless the place is a port of 127.0.0.1 (`report_end_at`).
pub fn serve_with_places_filled<
    R: Net<Listener = TcpListener, Stream = TcpStream> + Clock + Files<File = File>,
    E: Write,
>(
    rt: &R,
    alloc: Global,
    standard: Standard,
    serving: Serving<'_>,
    messages: &mut E,
) -> io::Result<ExitCode>
    // On a port, without a scene and without `--keep`, open messages have the line of the fault, if there was one, or that of a number
    // out of its range, and nothing else.
    ensures port { is_port serving.entry.place ≡ true → serving.entry.scene ≡ None → serving.entry.idle ≡ None → standard.messages ≡ true
        → IfOk result (λ status. TellsServed (exit_status status) (E.contents messages.old) (E.contents messages.new)) }

    // Either nothing was served, which is reported, or each connection that was served had the replies of the scene's instrument to its
    // lines, in order.
    ensures served { IfOk result (λ status. TellsServe standard serving.entry (exit_status status) (E.contents messages.old) (E.contents messages.new)) }
    ensures bound { IsStatusUpTo 2 result }
{
    let noting = Noting::new(rt);
    let Ok(places) = standard.fill(&noting) else {
        return report_unfilled(standard, serving.place, &noting, messages);
    };
    let ended = serve_with_scene(&noting, alloc, serving, messages);
    drop(places);
    ended
}

// Reports that the place of a closed stream couldn't be filled, with status 1: by no line if the messages are closed. `Err`: the line of
// the fault couldn't be written.
fn report_unfilled<R, E: Write>(
    standard: Standard,
    place: Place<'_>,
    rt: &Noting<'_, R>,
    messages: &mut E,
) -> io::Result<ExitCode>
    ensures port { is_port place.entry ≡ true
        → IfOk result (λ status. ReportsClosed standard (exit_status status) (E.contents messages.old) (E.contents messages.new)) }
    ensures status { IfOk result (λ status. exit_status status ≡ 1) }
    ensures bound { IsStatusUpTo 1 result }
{
    if standard.messages {
        return report_end_at(place, Err(RunFault::StreamClosed), rt, messages);
    }
    Ok(ExitCode::from(1))
}

// Reads the scene, and serves or keeps a place with its instrument. A scene that is refused is reported with its file, with
// status 1.
fn serve_with_scene<
    R: Net<Listener = TcpListener, Stream = TcpStream> + Clock + Files<File = File>,
    E: Write,
>(rt: &Noting<'_, R>, alloc: Global, serving: Serving<'_>, messages: &mut E) -> io::Result<ExitCode>
    ensures port { is_port serving.entry.place ≡ true → serving.entry.scene ≡ None → serving.entry.idle ≡ None
        → IfOk result (λ status. TellsServed (exit_status status) (E.contents messages.old) (E.contents messages.new)) }
    ensures served { IfOk result (λ status. ServesOrRefuses serving.entry (exit_status status) (E.contents messages.old) (E.contents messages.new)) }
    ensures bound { IsStatusUpTo 2 result }
{
    match instrument_of::<Timed, Noting<'_, R>>(rt, alloc, serving.scene) {
        Ok(Timed::Still(Staged::Plain(instrument))) => {
            serve_or_keep(rt, serving, instrument, messages)
        }
        Ok(Timed::Still(Staged::Ruled(instrument))) => {
            serve_or_keep(rt, serving, instrument, messages)
        }
        Ok(Timed::Slow(slow)) => serve_slow(rt, serving, slow, messages),
        Err(refusal) => refusal.tell_with_file(serving.scene, rt, messages),
    }
}

// Serves or keeps a place with an instrument whose replies may take time. `Clock` comes where the clock can't be read; then no
// place is served.
fn serve_slow<
    R: Net<Listener = TcpListener, Stream = TcpStream> + Clock + Files<File = File>,
    E: Write,
>(
    rt: &Noting<'_, R>,
    serving: Serving<'_>,
    slow: SlowInstrument,
    messages: &mut E,
) -> io::Result<ExitCode>
    ensures port { is_port serving.entry.place ≡ true → serving.entry.idle ≡ None
        → IfOk result (λ status. TellsServed (exit_status status) (E.contents messages.old) (E.contents messages.new)) }
    ensures served { IfOk result (λ status. (exit_status status ≡ 1)
        ⊎ ServesAsAsked HearsSometime slow_restarted serving.entry slow (exit_status status) (E.contents messages.old) (E.contents messages.new)) }
    ensures bound { IsStatusUpTo 2 result }
{
    let Ok(clock) = BusyClock::new(rt, &slow) else {
        return report_end(Err(RunFault::Clock), messages);
    };
    serve_or_keep(rt, serving, Slow::new(&clock, slow), messages)
}

// Serves a place with an instrument, for one connection where no number is given, or keeps it (`keep_place`) where `serving.idle`
// is set.
fn serve_or_keep<
    'c,
    R: Net<Listener = TcpListener, Stream = TcpStream> + Clock + Files<File = File>,
    I: Simulates<'c> + Drop,
    E: Write,
>(
    rt: &'c Noting<'_, R>,
    serving: Serving<'_>,
    mut instrument: I,
    messages: &mut E,
) -> io::Result<ExitCode>
    ensures port { is_port serving.entry.place ≡ true → serving.entry.idle ≡ None
        → IfOk result (λ status. TellsServed (exit_status status) (E.contents messages.old) (E.contents messages.new)) }
    ensures served { IfOk result (λ status.
        ServesAsAsked I.answers I.restarted serving.entry instrument (exit_status status) (E.contents messages.old) (E.contents messages.new)) }
    ensures bound { IsStatusUpTo 2 result }
{
    let Serving {
        scene: _,
        place,
        connections,
        idle,
    } = serving;
    match idle {
        None => serve_place(
            rt,
            place,
            connections.unwrap_or(1),
            &mut instrument,
            messages,
        ),
        Some(idle) => keep_place(rt, place, connections, idle, &mut instrument, messages),
    }
}

// Where an instrument is served: at an address, or on the device with this path.
#[derive(Clone, Copy)]
enum Endpoint<'a> {
    Address(Address<'a>),
    Device(&'a str),
}

// The endpoint that a place names. `None`: it is port 0, which no word of the command line names (`place_of`).
fn endpoint_of(place: Place<'_>) -> Option<Endpoint<'_>> {
    match place {
        Place::Port(0) => None,
        Place::Port(port) => Some(Endpoint::Address(Address::Here(port))),
        Place::Host(host) => Some(Endpoint::Address(Address::Named(host))),
        Place::Device(path) => Some(Endpoint::Device(path)),
    }
}

// Serves a port, an address or a device, and reports how that ended. It refuses with status 2 port 0, and a number of connections
// out of its range, which clap refuses first, though no clause of clap's says so.
fn serve_place<
    'c,
    R: Net<Listener = TcpListener, Stream = TcpStream> + Clock + Files<File = File>,
    I: Simulates<'c>,
    E: Write,
>(
    rt: &Noting<'_, R>,
    place: Place<'_>,
    connections: u32,
    instrument: &mut I,
    messages: &mut E,
) -> io::Result<ExitCode>
    ensures port { is_port place.entry ≡ true
        → IfOk result (λ status. TellsServed (exit_status status) (E.contents messages.old) (E.contents messages.new)) }
    ensures served { IfOk result (λ status. Refuses range_line (exit_status status) (E.contents messages.old) (E.contents messages.new)
        ⊎ ServesAt I.answers I.restarted place.entry connections instrument.old (exit_status status) (E.contents messages.old) (E.contents messages.new)) }
    ensures bound { IsStatusUpTo 2 result }
{
    if !is_in_range(connections) {
        return refuse_numbers(messages);
    }
    match endpoint_of(place) {
        None => refuse_numbers(messages),
        Some(Endpoint::Address(address)) => {
            let end = serve_tcp(rt, address, connections, instrument, MOST_READS);
            report_end_at(place, end, rt, messages)
        }
        Some(Endpoint::Device(path)) => {
            let end = serve_device(rt, path, connections, instrument, MOST_READS);
            report_end_at(place, end, rt, messages)
        }
    }
}

// Keeps a port, an address or a device: goes on after a connection that fails (`--keep`), and reports how that ended. It refuses
// with status 2 port 0, and a number of connections or an `idle` out of its range, the latter also of a device, which doesn't use
// it. The status is 0 also where the line of a connection's fault couldn't be written.
fn keep_place<
    'c,
    R: Net<Listener = TcpListener, Stream = TcpStream> + Clock + Files<File = File>,
    I: Simulates<'c>,
    E: Write,
>(
    rt: &'c Noting<'_, R>,
    place: Place<'_>,
    connections: Option<u32>,
    idle: u32,
    instrument: &mut I,
    messages: &mut E,
) -> io::Result<ExitCode>
    ensures served { IfOk result (λ status. Refuses range_line (exit_status status) (E.contents messages.old) (E.contents messages.new)
        ⊎ KeepsAt I.answers I.restarted place.entry connections instrument.old (exit_status status) (E.contents messages.old) (E.contents messages.new)) }
    ensures bound { IsStatusUpTo 2 result }
{
    if idle == 0 || idle > LONGEST_IDLE || !is_in_range(connections.unwrap_or(1)) {
        return refuse_numbers(messages);
    }
    let Some(endpoint) = endpoint_of(place) else {
        return refuse_numbers(messages);
    };
    let keeping = Keeping {
        connections,
        idle,
        max_reads: MOST_READS,
    };
    match keep_endpoint(rt, endpoint, keeping, instrument, messages) {
        Ok(_) => Ok(ExitCode::SUCCESS),
        Err(fault) => report_end_at(place, Err(fault), rt, messages),
    }
}

// Keeps an address or a device, and returns whether the lines of all faults were written. `Err`: it couldn't be had.
fn keep_endpoint<
    'c,
    R: Net<Listener = TcpListener, Stream = TcpStream> + Clock + Files<File = File>,
    I: Simulates<'c>,
    E: Write,
>(
    rt: &'c Noting<'_, R>,
    endpoint: Endpoint<'_>,
    keeping: Keeping,
    instrument: &mut I,
    messages: &mut E,
) -> Result<bool, RunFault>
    ensures kept { IfOk result (λ all_written. KeepsServing I.answers I.restarted keeping.max_reads keeping.connections instrument.old all_written
        (E.contents messages.old) (E.contents messages.new)) }
    ensures fault { IfErr result (λ fault. (messages.new ≡ messages.old) × IsFaultOfPlace fault) }
{
    match endpoint {
        Endpoint::Address(address) => keep_tcp(rt, address, keeping, instrument, messages),
        Endpoint::Device(path) => keep_device(rt, path, keeping, instrument, messages),
    }
}

// Whether this number of connections is in its range.
fn is_in_range(connections: u32) -> bool
    ensures { result ≡ true → (1 ≤ connections) × (connections ≤ MOST_CONNECTIONS) }
{
    1 <= connections && connections <= MOST_CONNECTIONS
}
