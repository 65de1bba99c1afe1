//! `geocom ask`: its words, and commands that are asked at a place.

ghost use Rattle.std.specs.Prelude.{◌≡◌, true, IfOk};
ghost use Rattle.std.specs.Process.{exit_status};
ghost use Rattle.gc_console.specs.Asked.{TellsAsk, TellsAskAt};
ghost use Rattle.gc_console.specs.Refusing.{end_seen};
ghost use Rattle.gc_lines.specs.Answering.{ports_of};
ghost use Rattle.gc_logs.specs.Ends.{is_port};
ghost use Rattle.gc_logs.specs.Statuses.{IsStatusUpTo};
ghost use Rattle.gc_console.specs.Rules.{ask_rules};
ghost use Rattle.gc_options.specs.Tables.{HasArguments};

use crate::asked::report_asked_at;
use crate::reads::MOST_READS;
use clap::Command;
use gc_ask::ask_at;
use gc_lines::{Sink, Source};
use gc_links::Place;
use gc_logs::{Noting, Streams};
use gc_options::help::COMMANDS;
use gc_options::{Argument, PLACE, command_of};
use std::alloc::{AllocError, Global};
use std::fs::File;
use std::io::{self, Write};
use std::net::{Net, TcpListener, TcpStream};
use std::process::ExitCode;
use std::rt::Files;
use std::time::Clock;

// The arguments of `ask`.
const ARGUMENTS: &[Argument<'static>] = &[PLACE];

/// The subcommand `ask` for clap, with this name: its help and its arguments. `Err`: memory ran out.
pub fn ask_command<'a>(alloc: Global, name: &'a str) -> Result<Command<'a>, AllocError>
    ensures { IfOk result (λ command. HasArguments name.now ask_rules command) }
{
    command_of(
        alloc,
        name,
        "Sends the commands of standard input to an instrument, one at a time",
        COMMANDS,
        ARGUMENTS,
    )
}

/// Asks the commands of the input at a place, writes a line for each settlement on the output, and reports how that ended, with
/// status 0 or 1. `Err`: the line of the fault couldn't be written. The streams are handed back.
///
/// Where a line of the text is faulty, a second line says what is at fault in it. After some other faults a second line gives the
/// place and the reason, unless the place is a port of 127.0.0.1 (`report_end_at`).
pub fn ask_place<
    R: Net<Listener = TcpListener, Stream = TcpStream> + Files<File = File> + Clock,
    S: Source,
    K: Sink,
    E: Write,
>(
    rt: &R,
    alloc: Global,
    place: Place<'_>,
    mut streams: Streams<S, K, E>,
) -> (Streams<S, K, E>, io::Result<ExitCode>)
    // At a port the status and the messages tell how the asking ended: the messages have the line of the fault, if there was one, a
    // second one of a faulty line of the text, and nothing else.
    ensures port { is_port place.entry ≡ true → IfOk result.1 (λ status. TellsAsk (end_seen
        (ports_of S.Source streams.input K.Sink streams.output)
        (ports_of S.Source result.0.input K.Sink result.0.output)
        (exit_status status) (E.contents streams.messages) (E.contents result.0.messages))) }

    // At any place: what was read, asked and written, and the status, which is 0 exactly where all commands were asked and settled.
    ensures told { IfOk result.1 (λ status. TellsAskAt place.entry (end_seen
        (ports_of S.Source streams.input K.Sink streams.output)
        (ports_of S.Source result.0.input K.Sink result.0.output)
        (exit_status status) (E.contents streams.messages) (E.contents result.0.messages))) }
    ensures bound { IsStatusUpTo 1 result.1 }
{
    let noting = Noting::new(rt);
    let end = ask_at(
        &noting,
        alloc,
        place,
        &mut streams.input,
        &mut streams.output,
        MOST_READS,
    );
    let ended = report_asked_at(place, end, &noting, &mut streams.messages);
    (streams, ended)
}
