//! `geocom drill`: its words, and a schedule of standard input that is played on an instrument.

ghost use Rattle.std.specs.Prelude.{◌≡◌, ◌≤◌, IfOk};
ghost use Rattle.std.specs.Process.{exit_status};
ghost use Rattle.gc_console.specs.Drills.{TellsDrillWithin, TellsDrill, PlaysScene, ReadsWholeSource};
ghost use Rattle.gc_console.specs.Jobs.{IsDrilling};
ghost use Rattle.gc_console.specs.Refusing.{end_seen};
ghost use Rattle.gc_lines.specs.Answering.{ports_of};
ghost use Rattle.gc_logs.specs.Statuses.{IsStatusUpTo};
ghost use Rattle.gc_console.specs.Rules.{drill_rules};
ghost use Rattle.gc_options.specs.Tables.{HasArguments};
ghost use Rattle.gc_options.specs.Words.{words_of};

use crate::scene::{Staged, instrument_of};
use clap::{ArgMatches, Command};
use gc_client::WINDOW;
use gc_filters::{Playable, run_drill_on};
use gc_lines::{Sink, Source};
use gc_logs::{refuse_numbers, report_end};
use gc_options::help::EVENTS;
use gc_options::{Argument, FLAG, SCENE, Takes, byte_or, command_of, has_flag, text_in};
use std::alloc::{AllocError, Global};
use std::fs::Files;
use std::io::{self, Write};
use std::process::ExitCode;

/// What the words of `drill` ask for: the path of the scene's file, if one is named, whether totals are written, and how many
/// requests may wait, 1 to 7.
#[derive(Clone, Copy)]
pub struct Drilling<'a> {
    pub scene: Option<&'a str>,
    pub totals: bool,
    pub width: u8,
}

// The arguments of `drill`.
const ARGUMENTS: &[Argument<'static>] = &[
    Argument {
        name: "totals",
        help: "Writes a line of totals after the settlements",
        ..FLAG
    },
    Argument {
        name: "width",
        takes: Takes::Signed(1, 7),
        value_name: &["W"],
        default: &["7"],
        help: "Lets W requests be outstanding: a further send is refused",
        ..FLAG
    },
    SCENE,
];

/// The subcommand `drill` for clap, with this name: its help and its arguments. `Err`: memory ran out.
pub fn drill_command<'a>(alloc: Global, name: &'a str) -> Result<Command<'a>, AllocError>
    ensures { IfOk result (λ command. HasArguments name.now drill_rules command) }
{
    command_of(
        alloc,
        name,
        "Plays the schedule of standard input, and writes a line for each settlement",
        EVENTS,
        ARGUMENTS,
    )
}

/// What the words of `drill` ask for. clap gives a missing width its default: else it would be 0, which `drill_scene` refuses.
pub fn drilling_of<'a>(words: &ArgMatches<'a>) -> Drilling<'a>
    ensures { IsDrilling (words_of words.now) result }
{
    Drilling {
        scene: text_in(words, "scene"),
        totals: has_flag(words, "totals"),
        width: byte_or(words, "width", 0),
    }
}

/// Reads the scene, if one is named, plays the schedule of the source on its instrument, or else on the simulator, and reports
/// how that ended: with status 0, 1, or 2 for a width that isn't 1 to 7. If the scene is refused, that alone is reported,
/// whatever the width. `Err`: the messages couldn't be written.
pub fn drill_scene<R: Files, S: Source, K: Sink, E: Write>(
    rt: &R,
    alloc: Global,
    drilling: Drilling<'_>,
    source: &mut S,
    sink: &mut K,
    messages: &mut E,
) -> io::Result<ExitCode>
    // Either the scene or the width was refused, which is reported, and source and sink weren't used; or the schedule was
    // played on the instrument, which is the simulator if no scene is named, and how that ended is reported.
    ensures told { IfOk result (λ status. TellsDrill drilling.entry (end_seen
        (ports_of S.Source source.old K.Sink sink.old)
        (ports_of S.Source source.new K.Sink sink.new)
        (exit_status status) (E.contents messages.old) (E.contents messages.new))) }

    // A width from 1 to 7 isn't refused.
    ensures width { 1 ≤ drilling.entry.width → drilling.entry.width ≤ WINDOW → IsStatusUpTo 1 result }

    // Status 0 only where the sink took the output of the text's events, on the simulator if no scene is named.
    ensures done { IfOk result (λ status. exit_status status ≡ 0 → PlaysScene drilling.entry
        (ports_of S.Source source.old K.Sink sink.old)
        (ports_of S.Source source.new K.Sink sink.new)) }

    // Status 0 only where the last read was the end, and the source has no byte left.
    ensures whole { IfOk result (λ status. exit_status status ≡ 0 → ReadsWholeSource
        (ports_of S.Source source.old K.Sink sink.old)
        (ports_of S.Source source.new K.Sink sink.new)) }
    ensures bound { IsStatusUpTo 2 result }
{
    match instrument_of::<Staged, R>(rt, alloc, drilling.scene) {
        Ok(Staged::Plain(instrument)) => {
            drill_within(alloc, instrument, drilling, source, sink, messages)
        }
        Ok(Staged::Ruled(instrument)) => {
            drill_within(alloc, instrument, drilling, source, sink, messages)
        }
        Err(refusal) => refusal.tell(messages),
    }
}

// Plays the schedule of the source on an instrument, and reports how that ended, with status 0 or 1; with status 2 it refuses a
// width that isn't 1 to 7, before anything of the source is read. clap refuses it first.
fn drill_within<I: Playable, S: Source, K: Sink, E: Write>(
    alloc: Global,
    instrument: I,
    drilling: Drilling<'_>,
    source: &mut S,
    sink: &mut K,
    messages: &mut E,
) -> io::Result<ExitCode>
    ensures told { IfOk result (λ status. TellsDrillWithin (I.text instrument drilling.entry.width) drilling.entry.totals (end_seen
        (ports_of S.Source source.old K.Sink sink.old)
        (ports_of S.Source source.new K.Sink sink.new)
        (exit_status status) (E.contents messages.old) (E.contents messages.new))) }
    ensures width { 1 ≤ drilling.entry.width → drilling.entry.width ≤ WINDOW → IsStatusUpTo 1 result }
    ensures bound { IsStatusUpTo 2 result }
{
    if drilling.width == 0 || usize::from(drilling.width) > WINDOW {
        return refuse_numbers(messages);
    }
    report_end(
        run_drill_on(
            alloc,
            instrument,
            source,
            sink,
            drilling.totals,
            drilling.width,
        ),
        messages,
    )
}
