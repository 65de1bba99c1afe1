//! `geocom check`: its words, and what it says of a stream, or of a log.

ghost use Rattle.std.specs.Prelude.{IfOk};
ghost use Rattle.std.specs.Process.{exit_status};
ghost use Rattle.gc_console.specs.Serves.{ChecksInput, TellsChecking, IsDoneAtEnd};
ghost use Rattle.gc_console.specs.Refusing.{end_seen};
ghost use Rattle.gc_console.specs.declared.reads.TheConstants.{MOST_READS};
ghost use Rattle.gc_lines.specs.Answering.{ports_of, HasEnded};
ghost use Rattle.gc_logs.specs.Statuses.{IsStatusUpTo};
ghost use Rattle.gc_console.specs.Rules.{check_rules};
ghost use Rattle.gc_options.specs.Tables.{HasArguments};

use crate::reads::MOST_READS;
use clap::Command;
use gc_filters::{run_check, run_check_log};
use gc_lines::{ServeFault, Served, Sink, Source};
use gc_logs::report_served;
use gc_options::help::VERDICTS;
use gc_options::{Argument, FLAG, command_of};
use std::alloc::{AllocError, Global};
use std::io::{self, Write};
use std::process::ExitCode;

// The arguments of `check`.
const ARGUMENTS: &[Argument<'static>] = &[Argument {
    name: "log",
    help: "Reads a log that `station --log` wrote",
    ..FLAG
}];

/// The subcommand `check` for clap, with this name: its help and its arguments. `Err`: memory ran out.
pub fn check_command<'a>(alloc: Global, name: &'a str) -> Result<Command<'a>, AllocError>
    ensures { IfOk result (λ command. HasArguments name.now check_rules command) }
{
    command_of(
        alloc,
        name,
        "Says what each frame of standard input is, or what is wrong with it",
        VERDICTS,
        ARGUMENTS,
    )
}

/// Checks the source as a log where `log` is set (`run_check_log`), else as a stream (`run_check`), and reports how that ended,
/// with status 0 or 1. `Err`: the messages couldn't be written.
pub fn check<S: Source, K: Sink, E: Write>(
    log: bool,
    source: &mut S,
    sink: &mut K,
    messages: &mut E,
) -> io::Result<ExitCode>
    // The input was checked, and the status and the messages report how that ended.
    ensures told { IfOk result (λ status. TellsChecking log (end_seen
        (ports_of S.Source source.old K.Sink sink.old)
        (ports_of S.Source source.new K.Sink sink.new)
        (exit_status status) (E.contents messages.old) (E.contents messages.new))) }

    // Status 0 exactly where the last read was the end.
    ensures done { IfOk result (λ status. IsDoneAtEnd
        (ports_of S.Source source.old K.Sink sink.old)
        (ports_of S.Source source.new K.Sink sink.new)
        (exit_status status)) }
    ensures bound { IsStatusUpTo 1 result }
{
    report_served(check_input(log, source, sink), messages)
}

// Checks a log where `log` is set, as `run_check_log` does, else a stream, as `run_check` does.
fn check_input<S: Source, K: Sink>(
    log: bool,
    source: &mut S,
    sink: &mut K,
) -> Result<Served, ServeFault>
    ensures checks { ChecksInput log
        (ports_of S.Source source.old K.Sink sink.old)
        (ports_of S.Source source.new K.Sink sink.new)
        result }
    ensures ended { HasEnded
        (ports_of S.Source source.old K.Sink sink.old)
        (ports_of S.Source source.new K.Sink sink.new)
        MOST_READS result }
{
    match log {
        true => run_check_log(source, sink, MOST_READS),
        false => run_check(source, sink, MOST_READS),
    }
}
