//! `geocom loop`: its words, and commands that are asked over a connection to a simulator in this program.

ghost use Rattle.std.specs.Prelude.{IfOk};
ghost use Rattle.std.specs.Process.{exit_status};
ghost use Rattle.gc_console.specs.Asked.{TellsLoop, TellsLooped};
ghost use Rattle.gc_console.specs.Refusing.{end_seen};
ghost use Rattle.gc_lines.specs.Answering.{ports_of};
ghost use Rattle.gc_logs.specs.Statuses.{IsStatusUpTo};
ghost use Rattle.gc_console.specs.Rules.{loop_rules};
ghost use Rattle.gc_options.specs.Tables.{HasArguments};

use crate::asked::report_asked;
use crate::reads::MOST_READS;
use crate::scene::{Staged, instrument_of};
use clap::Command;
use gc_ask::loop_tcp_on;
use gc_lines::{Answers, Sink, Source};
use gc_logs::{Noting, Streams};
use gc_options::help::COMMANDS;
use gc_options::{Argument, SCENE, command_of};
use std::alloc::{AllocError, Global};
use std::io::{self, Write};
use std::net::{Net, TcpListener, TcpStream};
use std::process::ExitCode;
use std::rt::Files;

// The arguments of `loop`.
const ARGUMENTS: &[Argument<'static>] = &[SCENE];

/// The subcommand `loop` for clap, with this name: its help and its arguments. `Err`: memory ran out.
pub fn loop_command<'a>(alloc: Global, name: &'a str) -> Result<Command<'a>, AllocError>
    ensures { IfOk result (λ command. HasArguments name.now loop_rules command) }
{
    command_of(
        alloc,
        name,
        "Sends the commands of standard input to a simulator of its own",
        COMMANDS,
        ARGUMENTS,
    )
}

/// Asks the commands of the input over a connection to the instrument of a scene, which is read first, or to the simulator where
/// no scene is named; writes a line for each settlement on the output, and reports how that ended, with status 0 or 1. `Err`: the
/// line of the fault couldn't be written, or the line after it on what is at fault in the scene. The streams are handed back.
///
/// Where a scene is refused, further lines say what is at fault in it, in which file, and what the system refused; where a line of the
/// commands' text is faulty, a second line says what is at fault in that. Any other fault has its line alone. No clause says which
/// instrument a scene sets up.
pub fn loop_scene<
    R: Net<Listener = TcpListener, Stream = TcpStream> + Files,
    S: Source,
    K: Sink,
    E: Write,
>(
    rt: &R,
    alloc: Global,
    scene: Option<&str>,
    mut streams: Streams<S, K, E>,
) -> (Streams<S, K, E>, io::Result<ExitCode>)
    // Either the scene was refused, and input and output weren't used; or the commands were asked, and the status and the messages
    // tell how that ended.
    ensures told { IfOk result.1 (λ status. TellsLoop scene.entry (end_seen
        (ports_of S.Source streams.input K.Sink streams.output)
        (ports_of S.Source result.0.input K.Sink result.0.output)
        (exit_status status) (E.contents streams.messages) (E.contents result.0.messages))) }
    ensures bound { IsStatusUpTo 1 result.1 }
{
    let ended = loop_over_streams(rt, alloc, scene, &mut streams);
    (streams, ended)
}

// Asks the commands of the input as `loop_scene` says, and reports how that ended. `Err`: as `loop_scene` says.
fn loop_over_streams<
    R: Net<Listener = TcpListener, Stream = TcpStream> + Files,
    S: Source,
    K: Sink,
    E: Write,
>(
    rt: &R,
    alloc: Global,
    scene: Option<&str>,
    streams: &mut Streams<S, K, E>,
) -> io::Result<ExitCode>
    ensures told { IfOk result (λ status. TellsLoop scene.entry (end_seen
        (ports_of S.Source streams.old.input K.Sink streams.old.output)
        (ports_of S.Source streams.new.input K.Sink streams.new.output)
        (exit_status status) (E.contents streams.old.messages) (E.contents streams.new.messages))) }
    ensures bound { IsStatusUpTo 1 result }
{
    let noting = Noting::new(rt);
    match instrument_of::<Staged, Noting<'_, R>>(&noting, alloc, scene) {
        Ok(Staged::Plain(instrument)) => loop_on(rt, alloc, instrument, streams),
        Ok(Staged::Ruled(instrument)) => loop_on(rt, alloc, instrument, streams),
        Err(refusal) => refusal.tell_with_file(scene, &noting, &mut streams.messages),
    }
}

// Asks the commands of the input over a connection to an instrument, and reports how that ended, with status 0 or 1. `Err`: the
// lines of the fault couldn't be written.
fn loop_on<
    R: Net<Listener = TcpListener, Stream = TcpStream>,
    T: Answers + Drop,
    S: Source,
    K: Sink,
    E: Write,
>(rt: &R, alloc: Global, instrument: T, streams: &mut Streams<S, K, E>) -> io::Result<ExitCode>
    ensures told { IfOk result (λ status. TellsLooped (end_seen
        (ports_of S.Source streams.old.input K.Sink streams.old.output)
        (ports_of S.Source streams.new.input K.Sink streams.new.output)
        (exit_status status) (E.contents streams.old.messages) (E.contents streams.new.messages))) }
    ensures bound { IsStatusUpTo 1 result }
{
    let end = loop_tcp_on(
        rt,
        alloc,
        instrument,
        &mut streams.input,
        &mut streams.output,
        MOST_READS,
    );
    report_asked(end, &mut streams.messages)
}
