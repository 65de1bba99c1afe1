//! Which subcommand the words of the command line ask for.

ghost use Rattle.std.specs.Prelude.{◌≡◌, true, codes, map, IfErr, IfOk, Some};
ghost use Rattle.std.specs.String.{string_bytes};
ghost use Rattle.clap.specs.Simple.{subcommand_rows_of};
ghost use Rattle.clap.specs.Takes.{takes};
ghost use Rattle.clap.specs.Values.{kind_of};
ghost use Rattle.clap.specs.declared.error.ErrorKind.{ErrorKind};
ghost use Rattle.gc_console.specs.Jobs.{AsksSubcommand, are_dated, IsJobOf, is_log_dated, is_recording_dated, name_of, station_job, subcommand_named, subcommands};
ghost use Rattle.gc_console.specs.Program.{AreSubcommands, IsBareProgram, IsJobOfWords, IsSubcommand, program};
ghost use Rattle.gc_options.specs.Words.{words_of};

use crate::ask::ask_command;
use crate::check::check_command;
use crate::drill::{Drilling, drill_command, drilling_of};
use crate::exec::exec_command;
use crate::looped::loop_command;
use crate::serve::{Serving, serve_command, serving_of};
use clap::{ArgMatches, Command, Error};
use gc_links::Place;
use gc_options::help::SCENES_AND_FAULTS;
use gc_options::{
    Choice, Limit, LogPlace, Recording, Rehearsal, Settings, Site, Unit, VERSION, has_flag, log_of,
    missing_limit, named_place, recording_of, rehearsal_of, rehearse_command, signals_of,
    station_command, station_of, text_in, unit_of,
};
use gc_texts::is_dated_path;
use std::alloc::{AllocError, Global};

/// What a command line asks for, or why that can't be done (`Nowhere`, `BadLimit`, `NumberMissing`, `NoUnit`, `StaleTooSoon`,
/// `AtWithoutMultiple`, `NoDate`). A scene is the name of its file, where one is named.
pub enum Job<'a> {
    /// Answers requests with the instrument of the scene, or with the simulator.
    Exec { scene: Option<&'a str> },
    /// Checks a log where `log` is set, else a stream.
    Check { log: bool },
    /// Plays a schedule.
    Drill(Drilling<'a>),
    /// Serves a simulator on a port, at an address or on a device.
    Serve(Serving<'a>),
    /// Rehearses a station.
    Rehearse(Rehearsal<'a>),
    /// Asks commands over a connection, or says what would be asked.
    Client(ClientJob<'a>),
    /// The word for the place is no place: none to serve a simulator on where `serves` is set, else none of an instrument.
    Nowhere { serves: bool },
    /// The text for an option with a limit is neither its word nor a number within its bounds.
    BadLimit(Limit),
    /// A number is missing that has a default, or is none of its type. clap fills the first in and refuses the second, so this
    /// doesn't come. It would be reported as a number out of its range.
    NumberMissing,
    /// The word for a unit of angles names none.
    NoUnit,
    /// A station's run would end for want of an answer before its second cycle is due.
    StaleTooSoon,
    /// A station's cycles are to be due by the clock, but not before the next whole multiple of their period.
    AtWithoutMultiple,
    /// In the name of a station's file of records, or of its log, a percent sign begins no part of a date.
    NoDate,
}

/// What a client is to do: ask commands, once, of a simulator or at a place; measure as a station; or say what a station would
/// do, which needs no connection.
#[derive(Drop)]
pub enum ClientJob<'a> {
    /// Asks the simulator, or the instrument of a scene's file where one is named.
    Loop {
        scene: Option<&'a str>,
    },
    /// Asks at a place.
    Ask {
        place: Place<'a>,
    },
    /// Reads the text of a station, and writes what would be done, with angles in a unit that people read where one is named.
    Outline {
        choice: Choice,
        unit: Option<Unit>,
    },
    /// Measures as a station, with its records in a file where one is named.
    Station {
        site: Site<'a>,
        station: Settings,
        recording: Option<Recording<'a>>,
    },
}

/// The subcommands.
#[derive(Clone, Copy)]
pub enum Subcommand {
    Exec,
    Check,
    Drill,
    Loop,
    Serve,
    Ask,
    Station,
    Rehearse,
}

// The subcommands, in the order of the help.
const SUBCOMMANDS: [Subcommand; 8] = [
    Subcommand::Exec,
    Subcommand::Check,
    Subcommand::Drill,
    Subcommand::Loop,
    Subcommand::Serve,
    Subcommand::Ask,
    Subcommand::Station,
    Subcommand::Rehearse,
];

impl Subcommand {
    // The name of the subcommand, by which it is asked for.
    fn name<'a>(self) -> &'a str
        ensures { result.now ≡ name_of self }
    {
        match self {
            Subcommand::Exec => "exec",
            Subcommand::Check => "check",
            Subcommand::Drill => "drill",
            Subcommand::Loop => "loop",
            Subcommand::Serve => "serve",
            Subcommand::Ask => "ask",
            Subcommand::Station => "station",
            Subcommand::Rehearse => "rehearse",
        }
    }

    /// The subcommand of this name, if there is one.
    pub fn named(name: &str) -> Option<Subcommand>
        ensures { result ≡ subcommand_named name.now }
    {
        SUBCOMMANDS
            .iter()
            .copied()
            .find(|subcommand| subcommand.name() == name)
    }

    /// Whether the subcommand reads a text from standard input: a schedule, commands, or what a station measures. `exec` reads a
    /// stream, `check` a stream or a log, and `serve` nothing.
    pub fn reads_a_text(self) -> bool {
        match self {
            Subcommand::Drill
            | Subcommand::Loop
            | Subcommand::Ask
            | Subcommand::Station
            | Subcommand::Rehearse => true,
            Subcommand::Exec | Subcommand::Check | Subcommand::Serve => false,
        }
    }

    // The subcommand for clap, with its help and its arguments. `Err`: memory ran out.
    fn command<'a>(self, alloc: Global) -> Result<Command<'a>, AllocError>
        ensures { IfOk result (λ command. IsSubcommand self command) }
    {
        match self {
            Subcommand::Exec => exec_command(alloc, self.name()),
            Subcommand::Check => check_command(alloc, self.name()),
            Subcommand::Drill => drill_command(alloc, self.name()),
            Subcommand::Loop => loop_command(alloc, self.name()),
            Subcommand::Serve => serve_command(alloc, self.name()),
            Subcommand::Ask => ask_command(alloc, self.name()),
            Subcommand::Station => station_command(alloc, self.name()),
            Subcommand::Rehearse => rehearse_command(alloc, self.name()),
        }
    }

    // What the words behind the subcommand's name ask for, or why that can't be done.
    fn job<'a>(self, words: &ArgMatches<'a>) -> Job<'a>
        ensures { IsJobOf (Some (name_of self, words_of words.now)) result }
    {
        match self {
            Subcommand::Exec => Job::Exec {
                scene: text_in(words, "scene"),
            },
            Subcommand::Check => Job::Check {
                log: has_flag(words, "log"),
            },
            Subcommand::Drill => Job::Drill(drilling_of(words)),
            Subcommand::Loop => Job::Client(ClientJob::Loop {
                scene: text_in(words, "scene"),
            }),
            Subcommand::Serve => serve_job(words),
            Subcommand::Ask => ask_job(words),
            Subcommand::Station => station_job(words),
            Subcommand::Rehearse => rehearse_job(words),
        }
    }
}

/// What the words of a command line ask for. The first word is the program's name. `Err`: the words don't parse, as without a
/// subcommand, or ask for the help or the version, or memory ran out.
// A loop makes the subcommands: the proof of a chain of `.subcommand(..)?` grows faster than the chain.
pub fn job_of<'a>(alloc: Global, words: &'a [String]) -> Result<Job<'a>, Error>
    // The job is what the words ask for: each value is the number or text that they give for the argument of its name, or that
    // argument's default.
    ensures job { IfOk result (λ job. IsJobOfWords (map string_bytes words.now) job) }

    // Words that the command line takes are refused only for want of memory.
    ensures taken { IfErr result (λ error. takes program (map string_bytes words.now) ≡ true → kind_of error ≡ ErrorKind.OutOfMemory) }
{
    let subcommands = subcommands_of(alloc)?;
    let program = geocom(alloc).subcommands(subcommands)?;
    match program.try_get_matches_from(words) {
        Ok(matches) => Ok(parsed_job(&matches)),
        Err(error) => Err(error),
    }
}

// The command line of the program for clap, with no subcommand yet.
fn geocom<'a>(alloc: Global) -> Command<'a>
    ensures { IsBareProgram result }
{
    Command::new(alloc, "geocom")
        .version(VERSION)
        .about(
            "A client for GeoCOM's ASCII protocol, for monitoring with total stations, and a simulated instrument",
        )
        .after_help(SCENES_AND_FAULTS)
        .subcommand_required(true)
        .disable_help_subcommand(true)
}

// The subcommands for clap, in the order of the help. `Err`: memory ran out.
fn subcommands_of<'a>(alloc: Global) -> Result<Vec<Command<'a>>, AllocError>
    ensures { IfOk result (λ commands. AreSubcommands subcommands commands.items) }
{
    let mut subcommands = Vec::new(alloc);
    for subcommand in SUBCOMMANDS {
        subcommands.push(subcommand.command(alloc)?)?;
    }
    Ok(subcommands)
}

// What the words that clap has parsed ask for. clap refuses words without a subcommand, so the last line isn't reached.
fn parsed_job<'a>(matches: &ArgMatches<'a>) -> Job<'a>
    ensures { AsksSubcommand (subcommand_rows_of matches.now) → IsJobOf (subcommand_rows_of matches.now) result }
{
    match matches.subcommand() {
        Some((name, words)) => named_job(name, words),
        None => Job::Exec { scene: None },
    }
}

// What the words behind the name of a subcommand ask for. clap refuses an unknown name, so the last line isn't reached.
fn named_job<'a>(name: &str, words: &ArgMatches<'a>) -> Job<'a>
    ensures { (subcommand : Subcommand) → name_of subcommand ≡ name.now → IsJobOf (Some (name.now, words_of words.now)) result }
{
    match Subcommand::named(name) {
        Some(subcommand) => subcommand.job(words),
        None => Job::Exec { scene: None },
    }
}

// A simulator that is served. `Nowhere`: the words name no place for one, or an address without `--any-address`.
fn serve_job<'a>(words: &ArgMatches<'a>) -> Job<'a>
    ensures { IsJobOf (Some (codes "serve", words_of words.now)) result }
{
    match serving_of(words) {
        Some(serving) => Job::Serve(serving),
        None => Job::Nowhere { serves: true },
    }
}

// Commands that are asked at a place. `Nowhere`: the words name none.
fn ask_job<'a>(words: &ArgMatches<'a>) -> Job<'a>
    ensures { IsJobOf (Some (codes "ask", words_of words.now)) result }
{
    match named_place(words) {
        Some(place) => Job::Client(ClientJob::Ask { place }),
        None => Job::Nowhere { serves: false },
    }
}

// A station at a place, with its records and its log in files where the words name them; with `--check` only the outline of what
// it would do. `Nowhere`: the words name no place. `BadLimit`: an option with a limit has neither its word nor a number within its
// bounds. `NumberMissing`: a number is missing or none of its type, which clap doesn't let happen. `NoUnit`: the word for a unit names
// none. `StaleTooSoon`, `AtWithoutMultiple` and `NoDate` are as for `station_job_at`.
fn station_job<'a>(words: &ArgMatches<'a>) -> Job<'a>
    ensures { IsJobOf (Some (codes "station", words_of words.now)) result }
{
    let Some(place) = named_place(words) else {
        return Job::Nowhere { serves: false };
    };
    if let Some(limit) = missing_limit(words, Limit::Cycles) {
        return Job::BadLimit(limit);
    }
    let Some(station) = station_of(words, Limit::Cycles) else {
        return Job::NumberMissing;
    };
    let Some(unit) = unit_of(words) else {
        return Job::NoUnit;
    };
    let site = Site {
        place,
        log: log_of(words),
        signals: signals_of(words),
    };
    let checks = has_flag(words, "check");
    station_job_at(site, station, recording_of(words), checks, unit)
}

// A station at a site, with these settings and records, or with `checks` only the outline of what it would do, in this unit.
// `StaleTooSoon`: the run would end for want of an answer before its second cycle is due; `AtWithoutMultiple`: its cycles are to be due by
// the clock, but not below their period; `NoDate`: in a file's name a percent sign begins no part of a date; each also where the run would
// only be checked.
fn station_job_at<'a>(
    site: Site<'a>,
    station: Settings,
    recording: Option<Recording<'a>>,
    checks: bool,
    unit: Option<Unit>,
) -> Job<'a>
    ensures { result ≡ station_job site.entry station recording.entry checks unit }
{
    if station.choice.is_stale_too_soon() {
        return Job::StaleTooSoon;
    }
    if station.choice.is_at_without_multiple() {
        return Job::AtWithoutMultiple;
    }
    if !are_dated(site.log, recording) {
        return Job::NoDate;
    }
    if checks {
        return Job::Client(ClientJob::Outline {
            choice: station.choice,
            unit,
        });
    }
    Job::Client(ClientJob::Station {
        site,
        station,
        recording,
    })
}

// Whether in the names of these files, where there are such, each percent sign begins a part of a date, or another percent sign.
fn are_dated(log: Option<LogPlace<'_>>, recording: Option<Recording<'_>>) -> bool
    ensures { result ≡ are_dated log.entry recording.entry }
{
    is_log_dated(log) && is_recording_dated(recording)
}

// The same of a log's.
fn is_log_dated(log: Option<LogPlace<'_>>) -> bool
    ensures { result ≡ is_log_dated log.entry }
{
    match log {
        Some(log) => is_dated_path(log.path),
        None => true,
    }
}

// The same of a file of records.
fn is_recording_dated(recording: Option<Recording<'_>>) -> bool
    ensures { result ≡ is_recording_dated recording.entry }
{
    match recording {
        Some(recording) => is_dated_path(recording.path),
        None => true,
    }
}

// A rehearsal. `BadLimit`, `NumberMissing` and `StaleTooSoon` are as for a station.
fn rehearse_job<'a>(words: &ArgMatches<'a>) -> Job<'a>
    ensures { IsJobOf (Some (codes "rehearse", words_of words.now)) result }
{
    if let Some(limit) = missing_limit(words, Limit::NightCycles) {
        return Job::BadLimit(limit);
    }
    let Some(rehearsal) = rehearsal_of(words) else {
        return Job::NumberMissing;
    };
    if rehearsal.station.choice.is_stale_too_soon() {
        return Job::StaleTooSoon;
    }
    Job::Rehearse(rehearsal)
}
