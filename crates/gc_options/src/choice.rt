//! The choice: what an operator chooses beside the text, and by which options.

ghost use Rattle.std.specs.Prelude.{◌≡◌, ◌^◌, ◌-◌, ◌||◌, codes, is_some, IfOk, IfSome, IsSome};
ghost use Rattle.gc_options.specs.Chosen.{GivesLimitSeconds, GivesSeconds, HasNumbers, IsChosen, IsPeriod, form_for};
ghost use Rattle.gc_options.specs.Limits.{HasLimit, HasLimits, ReadsLimit};
ghost use Rattle.gc_options.specs.declared.limit.Limit.TheVariants.{Retries, Stale};
ghost use Rattle.gc_options.specs.Stations.{is_at_without_multiple, is_stale_too_soon, watch_shown};
ghost use Rattle.gc_options.specs.Options.{station_rules};
ghost use Rattle.gc_options.specs.Tables.{HasArguments};
ghost use Rattle.gc_options.specs.Words.{words_of, has_flag, text_in, HasNumber};

use crate::arguments::{Argument, FLAG, PLACE, Takes, command_of};
use crate::given::{byte_in, has_flag, text_in, u64_in};
use crate::help::STATION;
use crate::layout::Layout;
use crate::limit::{Limit, limit_in};
use crate::settings::Settings;
use crate::shared::{COLUMNS, CSV, DEADLINE, JSON, RETRIES, SETTLE, STALE, UNCHAINED, WIDTH};
use crate::site::LOG_BYTES;
use crate::unit::UNIT;
use clap::{ArgMatches, Command};
use gc_rows::Form;
use std::alloc::{AllocError, Global};

// A second, in milliseconds: the options `--every`, `--at` and `--stale` are in seconds.
const SECOND: u64 = 1_000;

// The arguments of `station`: the place, and then the options.
const ARGUMENTS: &[Argument<'static>] = &[
    PLACE,
    WIDTH,
    DEADLINE,
    Argument {
        name: "every",
        takes: Takes::Unsigned(1, 86_400),
        value_name: &["SECONDS"],
        help: "Begins a cycle SECONDS after the last was due, 1 to 86400; without it as soon as the last is done",
        ..FLAG
    },
    Argument {
        name: "at",
        takes: Takes::Unsigned(0, 86_399),
        value_name: &["SECONDS"],
        needs: &["every"],
        help: "With --every: begins cycles SECONDS after whole multiples of it, counted in UTC from 1970 (0: on the hour with --every 3600)",
        ..FLAG
    },
    Argument {
        name: "cycles",
        takes: Takes::Text,
        value_name: &["N"],
        default: &["1"],
        help: "Runs N cycles, from 1 on; `unlimited`: without end",
        ..FLAG
    },
    SETTLE,
    RETRIES,
    STALE,
    Argument {
        name: "until",
        takes: Takes::Text,
        value_name: &["FILE"],
        help: "Ends the run with status 0 once this file exists: between two chains, after what was sent is settled; looks at least each second",
        ..FLAG
    },
    Argument {
        name: "now",
        takes: Takes::Text,
        value_name: &["FILE"],
        help: "Begins a cycle between two others whenever this file is changed (`touch FILE`); looks at least each second",
        ..FLAG
    },
    CSV,
    COLUMNS,
    JSON,
    UNCHAINED,
    Argument {
        name: "silent",
        help: "Reports nothing on standard error while it measures",
        ..FLAG
    },
    Argument {
        name: "check",
        help: "Reads the commands, writes what would be done, and connects to nothing",
        ..FLAG
    },
    UNIT,
    Argument {
        name: "append",
        takes: Takes::Text,
        value_name: &["FILE"],
        help: "Appends each record as a row to this file, after its complete rows, and writes none on standard output",
        ..FLAG
    },
    Argument {
        name: "fsync",
        needs: &["append"],
        help: "With --append: has each row on the disk before the next command is sent",
        ..FLAG
    },
    Argument {
        name: "log",
        takes: Takes::Text,
        value_name: &["FILE"],
        help: "Appends each line sent or received to a file, with its time; `check --log` reads it",
        ..FLAG
    },
    LOG_BYTES,
];

/// The subcommand `station` for clap, with this name: its help and its arguments. `Err`: memory ran out.
pub fn station_command<'a>(alloc: Global, name: &'a str) -> Result<Command<'a>, AllocError>
    ensures { IfOk result (λ command. HasArguments name.now station_rules command) }
{
    command_of(
        alloc,
        name,
        "Measures: sends the commands of standard input to an instrument, cycle after cycle, with deadlines",
        STATION,
        ARGUMENTS,
    )
}

/// Who watches a station while it measures, and so which signs of life it prints.
#[derive(Clone, Copy)]
pub enum Watch {
    /// Nobody: it prints none.
    Nobody,
    /// Somebody who reads lines: at most one a minute of each kind.
    Lines,
    /// Somebody at a terminal: the same lines, and below them one that is written over.
    Terminal,
}

impl Watch {
    /// Who watches, if somebody reads the messages at a terminal (`at_terminal`): who reads lines then sits there.
    pub(crate) fn shown(self, at_terminal: bool) -> Watch
        ensures { result ≡ watch_shown at_terminal self }
    {
        match self {
            Watch::Nobody => Watch::Nobody,
            Watch::Lines => {
                if at_terminal {
                    Watch::Terminal
                } else {
                    Watch::Lines
                }
            }
            Watch::Terminal => Watch::Terminal,
        }
    }
}

/// What an operator chooses. Times are in milliseconds.
#[derive(Clone, Copy)]
pub struct Choice {
    /// How many requests may be in flight that haven't timed out: 1 to 7.
    pub width: u8,
    /// How long a request is outstanding before it has timed out, until a line of the text says otherwise.
    pub deadline: u64,
    /// Whether commands are chained, until a line of the text says otherwise.
    pub chained: bool,
    /// How far apart the cycles are due. 0: each begins when the one before it is done.
    pub every: u64,
    /// How many cycles are measured or missed. The greatest `u64`: without end.
    pub cycles: u64,
    /// How long the station pauses before it reconnects within a run, twice as long at each further failure, up to a minute, but
    /// never below this time; and for how long nothing may come over a new connection before a command is sent on it. A
    /// synchronization doesn't wait for that.
    pub quiet: u64,
    /// How many times in a row it reconnects at most. The greatest `u32`: without end.
    pub retries: u32,
    /// For how long the run goes on without an answer of quality `ok` or `warning`. 0: without limit.
    pub stale: u64,
    /// How long after whole multiples of `every`, counted from the beginning of 1970, UTC, the cycles are due. `None`: `every` after the last
    /// was due, and the first at once.
    pub at: Option<u64>,
    /// Whether the station looks for a file that asks for the end of the run (`--until`), or for a cycle (`--now`).
    pub watched: bool,
    /// Who watches, and so which signs of life are printed.
    pub watch: Watch,
}

impl Choice {
    /// Whether the run would end for want of an answer before a second cycle is due: `stale` isn't 0, and is below `every`. How
    /// many cycles the run has doesn't count.
    pub fn is_stale_too_soon(self) -> bool
        ensures { result ≡ is_stale_too_soon self }
    {
        self.stale > 0 && self.stale < self.every
    }

    /// Whether cycles are to be due by the clock, but not before the next whole multiple of `every`: `at` isn't below it.
    pub fn is_at_without_multiple(self) -> bool
        ensures { result ≡ is_at_without_multiple self }
    {
        match self.at {
            Some(at) => self.every <= at,
            None => false,
        }
    }
}

/// The settings of a station that the options ask for, without the paths of files, and for a run that hasn't begun. A flag or a
/// text that the subcommand doesn't have counts as not given. `None`: a number is missing, or doesn't fit its type, which in fact clap
/// doesn't let happen; or a limit is missing, or isn't within its bounds (`missing_limit` says which). The limit for cycles is `cycles`:
/// `Cycles`, or `NightCycles` for a rehearsal.
pub fn station_of(words: &ArgMatches, cycles: Limit) -> Option<Settings>
    ensures chosen { IfSome result (λ station. IsChosen cycles (words_of words.now) station) }
    ensures only { HasNumbers (words_of words.now) → HasLimits (words_of words.now) cycles → IsSome result }
{
    Some(Settings {
        layout: Layout {
            form: form_of(words),
            headed: false,
            run: 0,
        },
        choice: Choice {
            width: byte_in(words, "width")?,
            deadline: u64_in(words, "deadline")?,
            chained: !has_flag(words, "unchained"),
            every: every_in(words),
            cycles: limit_in(words, cycles)?,
            quiet: u64_in(words, "settle")?,
            retries: retries_in(words)?,
            stale: stale_in(words)?,
            at: seconds_in(words, "at"),
            watched: is_watched(words),
            watch: if has_flag(words, "silent") {
                Watch::Nobody
            } else {
                Watch::Lines
            },
        },
    })
}

// Whether a file is named by which somebody asks for the end of the run, or for a cycle.
fn is_watched(words: &ArgMatches) -> bool
    ensures { result ≡ (is_some (text_in (words_of words.now) (codes "until")) || is_some (text_in (words_of words.now) (codes "now"))) }
{
    text_in(words, "until").is_some() || text_in(words, "now").is_some()
}

// The form of records that the options ask for; lines without such an option. `columns` includes what `csv` asks for.
fn form_of(words: &ArgMatches) -> Form
    ensures { result ≡ form_for (has_flag (words_of words.now) (codes "json")) (has_flag (words_of words.now) (codes "columns")) (has_flag (words_of words.now) (codes "csv")) }
{
    if has_flag(words, "json") {
        Form::Json
    } else if has_flag(words, "columns") {
        Form::Columns
    } else if has_flag(words, "csv") {
        Form::Csv
    } else {
        Form::Lines
    }
}

// The period of cycles that the options ask for, in milliseconds; 0: none.
fn every_in(words: &ArgMatches) -> u64
    ensures { IsPeriod (words_of words.now) result }
{
    seconds_in(words, "every").unwrap_or(0)
}

// The time that an option gives in seconds, in milliseconds. `None`: there is none, or it is no number of 64 bits.
fn seconds_in(words: &ArgMatches, name: &str) -> Option<u64>
    ensures found { IfSome result (λ time. GivesSeconds (words_of words.now) name.now time) }
    ensures only { HasNumber (words_of words.now) name.now 64 → IsSome result }
{
    Some(u64_in(words, name)?.saturating_mul(SECOND))
}

// How many times in a row it reconnects; the greatest number of 32 bits: without end.
fn retries_in(words: &ArgMatches) -> Option<u32>
    ensures { ReadsLimit (words_of words.now) Retries result }
{
    u32::try_from(limit_in(words, Limit::Retries)?).ok()
}

// For how many milliseconds the run goes on without an answer; 0: without limit.
fn stale_in(words: &ArgMatches) -> Option<u64>
    ensures found { IfSome result (λ time. GivesLimitSeconds (words_of words.now) Stale time) }
    ensures only { HasLimit (words_of words.now) Stale → IsSome result }
{
    Some(limit_in(words, Limit::Stale)?.saturating_mul(SECOND))
}
