//! `geocom exec`: its words, and an instrument that answers the requests of standard input on standard output.

ghost use Rattle.std.specs.Prelude.{◌≡◌, None, IfOk, false};
ghost use Rattle.std.specs.Process.{exit_status};
ghost use Rattle.gc_console.specs.Serves.{TellsExec, IsDoneAtEnd, FailsByPorts};
ghost use Rattle.gc_console.specs.Refusing.{end_seen};
ghost use Rattle.gc_lines.specs.Answering.{ports_of};
ghost use Rattle.gc_logs.specs.Statuses.{IsStatusUpTo};
ghost use Rattle.gc_console.specs.Rules.{exec_rules};
ghost use Rattle.gc_options.specs.Tables.{HasArguments};

use crate::reads::MOST_READS;
use crate::scene::{Staged, instrument_of};
use clap::Command;
use gc_filters::Answerer;
use gc_lines::{Sink, Source};
use gc_logs::report_served;
use gc_options::help::REQUESTS;
use gc_options::{Argument, SCENE, command_of};
use std::alloc::{AllocError, Global};
use std::fs::Files;
use std::io::{self, Write};
use std::process::ExitCode;

// The arguments of `exec`.
const ARGUMENTS: &[Argument<'static>] = &[SCENE];

/// The subcommand `exec` for clap, with this name: its help and its arguments. `Err`: memory ran out.
pub fn exec_command<'a>(alloc: Global, name: &'a str) -> Result<Command<'a>, AllocError>
    ensures { IfOk result (λ command. HasArguments name.now exec_rules command) }
{
    command_of(
        alloc,
        name,
        "Answers the requests of standard input on standard output",
        REQUESTS,
        ARGUMENTS,
    )
}

/// Reads the scene, if one is named, answers the requests of the source with its instrument, or else with the simulator, and
/// reports how that ended, with status 0 or 1. `Err`: the messages couldn't be written.
pub fn exec_scene<R: Files, S: Source, K: Sink, E: Write>(
    rt: &R,
    alloc: Global,
    scene: Option<&str>,
    source: &mut S,
    sink: &mut K,
    messages: &mut E,
) -> io::Result<ExitCode>
    // Either the scene was refused, which is reported, and source and sink weren't used; or the instrument served, which is the
    // simulator where no scene is named, and how that ended is reported.
    ensures told { IfOk result (λ status. TellsExec scene.entry (end_seen
        (ports_of S.Source source.old K.Sink sink.old)
        (ports_of S.Source source.new K.Sink sink.new)
        (exit_status status) (E.contents messages.old) (E.contents messages.new))) }

    // Status 0 exactly where the last read was the end.
    ensures done { IfOk result (λ status. IsDoneAtEnd
        (ports_of S.Source source.old K.Sink sink.old)
        (ports_of S.Source source.new K.Sink sink.new)
        (exit_status status)) }

    // Without a scene, and over ports that hadn't failed before, status 1 only where one failed, or all reads that a u32 counts
    // were used up.
    ensures fault { scene.entry ≡ None → S.failed source.old ≡ false → K.failed sink.old ≡ false
        → IfOk result (λ status. FailsByPorts
        (ports_of S.Source source.old K.Sink sink.old)
        (ports_of S.Source source.new K.Sink sink.new)
        (exit_status status)) }
    ensures bound { IsStatusUpTo 1 result }
{
    match instrument_of::<Staged, R>(rt, alloc, scene) {
        Ok(Staged::Plain(mut instrument)) => {
            report_served(instrument.answer_all(source, sink, MOST_READS), messages)
        }
        Ok(Staged::Ruled(mut instrument)) => {
            report_served(instrument.answer_all(source, sink, MOST_READS), messages)
        }
        Err(refusal) => refusal.tell(messages),
    }
}
