//! Where a station works: the place, and the files of its log and of its records.

ghost use Rattle.std.specs.Prelude.{codes};
ghost use Rattle.gc_options.specs.Chosen.{AreSignals, IsLog, IsLogBound, IsRecording};
ghost use Rattle.gc_options.specs.Words.{words_of};

use crate::arguments::{Argument, FLAG, Takes};
use crate::given::{has_flag, text_in, u64_or};
use clap::ArgMatches;
use gc_links::{Place, Signals};

/// Where a station measures; where it logs what was on the link, if anywhere; and the files by which somebody asks for the run's end, and
/// for a cycle, if any.
#[derive(Clone, Copy)]
pub struct Site<'a> {
    pub place: Place<'a>,
    pub log: Option<LogPlace<'a>>,
    pub signals: Signals<'a>,
}

/// The option that bounds a log.
pub(crate) const LOG_BYTES: Argument<'static> = Argument {
    name: "log-bytes",
    takes: Takes::Unsigned(1000, u64::MAX),
    value_name: &["N"],
    needs: &["log"],
    help: "With --log: keeps the newest lines: a file that would grow above N bytes, 1000 or more, is renamed FILE.1 (an older FILE.1 goes), and a new one begun",
    ..FLAG
};

/// The path of the file in which what was on the link is logged, and the most bytes that the file may have; the greatest `u64`:
/// any number.
#[derive(Clone, Copy)]
pub struct LogPlace<'a> {
    pub path: &'a str,
    pub most: u64,
}

/// The files by which somebody asks for the run's end (`--until`), and for a cycle (`--now`), as the words of `station` name them.
pub fn signals_of<'a>(words: &ArgMatches<'a>) -> Signals<'a>
    ensures { AreSignals (words_of words.now) result }
{
    Signals {
        until: text_in(words, "until"),
        now: text_in(words, "now"),
    }
}

/// The log that the words of `station` ask for. `None`: they ask for none. Without `--log-bytes` it has no bound.
pub fn log_of<'a>(words: &ArgMatches<'a>) -> Option<LogPlace<'a>>
    ensures { IsLog (words_of words.now) result }
{
    let path = text_in(words, "log")?;
    Some(LogPlace {
        path,
        most: log_bound_of(words),
    })
}

// The most bytes of a log; the greatest `u64` without `--log-bytes`.
fn log_bound_of(words: &ArgMatches) -> u64
    ensures { IsLogBound (words_of words.now) result }
{
    u64_or(words, "log-bytes", u64::MAX)
}

/// The path of the file to which records are appended, and whether each is to be on the disk before the next command is sent.
#[derive(Clone, Copy)]
pub struct Recording<'a> {
    pub path: &'a str,
    pub sync: bool,
}

/// The file of records that the words of `station` ask for. `None`: they ask for none.
pub fn recording_of<'a>(words: &ArgMatches<'a>) -> Option<Recording<'a>>
    ensures { IsRecording (words_of words.now) result }
{
    let path = text_in(words, "append")?;
    Some(Recording {
        path,
        sync: has_flag(words, "fsync"),
    })
}
