//! A rehearsal: what the words of `rehearse` say. Its options of a station are those of `station` (`shared.rt`), but for
//! `every` and `cycles`, which have other bounds and defaults.

ghost use Rattle.std.specs.Prelude.{◌≡◌, IfOk, IfSome, IsSome};
ghost use Rattle.gc_options.specs.Chosen.{HasRehearsalNumbers, IsRehearsal, cycles_a_night};
ghost use Rattle.gc_options.specs.Limits.{HasLimits};
ghost use Rattle.gc_options.specs.declared.limit.Limit.TheVariants.{NightCycles};
ghost use Rattle.gc_options.specs.Options.{rehearse_rules};
ghost use Rattle.gc_options.specs.Tables.{HasArguments};
ghost use Rattle.gc_options.specs.Words.{words_of};

use crate::arguments::{Argument, FLAG, SCENE, Takes, command_of};
use crate::choice::station_of;
use crate::given::{text_in, u64_in};
use crate::help::REHEARSAL;
use crate::limit::Limit;
use crate::settings::Settings;
use crate::shared::{COLUMNS, CSV, DEADLINE, JSON, RETRIES, SETTLE, STALE, UNCHAINED, WIDTH};
use clap::{ArgMatches, Command};
use std::alloc::{AllocError, Global};

/// A day, in milliseconds: a night begins so long after the one before.
pub const DAY: u64 = 86_400_000;

// The arguments of `rehearse`: its own, and then those that it shares with `station`.
const ARGUMENTS: &[Argument<'static>] = &[
    Argument {
        name: "nights",
        takes: Takes::Unsigned(1, 36_525),
        value_name: &["N"],
        default: &["1"],
        help: "Rehearses N nights, 1 to 36525: each begins a day after the one before, and the first at 2026-01-01T20:00Z",
        ..FLAG
    },
    Argument {
        name: "every",
        takes: Takes::Unsigned(1, 86_400),
        value_name: &["SECONDS"],
        default: &["300"],
        help: "Begins a cycle SECONDS after the last was due, 1 to 86400",
        ..FLAG
    },
    Argument {
        name: "cycles",
        takes: Takes::Text,
        value_name: &["N"],
        default: &["day"],
        help: "Has N cycles a night, 1 to 86400; `day`: one for each whole period in a day",
        ..FLAG
    },
    SCENE,
    Argument {
        name: "line",
        takes: Takes::Text,
        value_name: &["FILE"],
        help: "What happens to lines: see below; without it the line is good",
        ..FLAG
    },
    Argument {
        name: "seed",
        takes: Takes::Unsigned(0, u64::MAX),
        value_name: &["N"],
        default: &["0"],
        help: "Decides what happens to lines, and when a run is killed; the same seed and texts give the same output",
        ..FLAG
    },
    WIDTH,
    DEADLINE,
    SETTLE,
    RETRIES,
    STALE,
    CSV,
    COLUMNS,
    JSON,
    UNCHAINED,
];

/// The subcommand `rehearse` for clap, with this name: its help and its arguments. `Err`: memory ran out.
pub fn rehearse_command<'a>(alloc: Global, name: &'a str) -> Result<Command<'a>, AllocError>
    ensures { IfOk result (λ command. HasArguments name.now rehearse_rules command) }
{
    command_of(
        alloc,
        name,
        "Rehearses: runs the station of standard input over a bad line to a simulated instrument, in simulated time",
        REHEARSAL,
        ARGUMENTS,
    )
}

/// What is to be rehearsed: the paths of the files of the scene and of the line, where they are named, how many nights, how many
/// cycles each has, with which seed, and the settings of the station.
#[derive(Clone, Copy)]
pub struct Rehearsal<'a> {
    pub scene: Option<&'a str>,
    pub line: Option<&'a str>,
    pub nights: u64,
    pub cycles: u64,
    pub seed: u64,
    pub station: Settings,
}

/// What the words of `rehearse` say. `None`, as of `station_of`: a number or a limit is missing, or isn't within its bounds.
pub fn rehearsal_of<'a>(words: &ArgMatches<'a>) -> Option<Rehearsal<'a>>
    ensures chosen { IfSome result (λ rehearsal. IsRehearsal (words_of words.now) rehearsal) }
    ensures only { HasRehearsalNumbers (words_of words.now) → HasLimits (words_of words.now) NightCycles → IsSome result }
{
    let station = station_of(words, Limit::NightCycles)?;
    Some(Rehearsal {
        scene: text_in(words, "scene"),
        line: text_in(words, "line"),
        nights: u64_in(words, "nights")?,
        cycles: cycles_of(station.choice.cycles, station.choice.every),
        seed: u64_in(words, "seed")?,
        station,
    })
}

// How many cycles a night has: the chosen number, or, for 0, for which the word stands, one for each whole period in a day.
fn cycles_of(chosen: u64, every: u64) -> u64
    ensures { result ≡ cycles_a_night chosen every }
{
    if chosen > 0 {
        return chosen;
    }
    // clap refuses 0 seconds for `--every`.
    if every == 0 {
        return 0;
    }
    DAY / every
}
