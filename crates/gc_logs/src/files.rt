//! What becomes of the files that a station writes while it runs, and how that is reported. No record and no request depends on
//! what is noted or reported here. The path of the rows leads astray if it isn't known to lead to the file that takes the rows,
//! and no new file can be had at the path.

ghost use Rattle.gc_lines.specs.Ports.{WritesIfOk};
ghost use Rattle.gc_logs.specs.Repairs.{copied_line, count_line, torn_line};

use crate::rate_limit::RateLimit;
use gc_links::Moment;
use std::io::{self, Write};

/// A minute, in milliseconds: the least time between two lines of a kind that may come again and again while a station measures.
/// Lines on what changed of the station's files are written at once, also if the path of the rows leads astray anew within a
/// minute.
pub const MINUTE: u64 = 60_000;

/// What became of the log.
#[derive(Clone, Copy, PartialEq, Eq)]
pub enum LogSeen {
    /// It hasn't ended, or there is no log.
    Whole,
    /// It couldn't be written, and ends.
    Lost,
}

/// What was seen of the files of a station.
#[derive(Clone, Copy, PartialEq, Eq)]
pub struct FilesSeen {
    /// The log.
    pub log: LogSeen,
    /// How many bytes of incomplete lines of the log were cut off, of all its files together.
    pub log_torn: u64,
    /// How many times the rows went on in a new file, because the path no longer led to the one before.
    pub moves: u64,
    /// How many times the rows went on in the file of another date.
    pub dates: u64,
    /// How many rows of the last of these new files were copied (`open_at`), as after a kill or a failed sync.
    pub copied: u64,
    /// How many bytes of an incomplete row were cut off the last of these new files.
    pub torn: u64,
    /// Whether the path isn't known to lead to the rows' file, and no new one can be had there.
    pub is_astray: bool,
    /// Whether that is so because the date's path is another one than the file's, and no file can be had there.
    pub by_date: bool,
}

impl FilesSeen {
    /// Nothing was seen.
    pub fn none() -> FilesSeen {
        FilesSeen {
            log: LogSeen::Whole,
            log_torn: 0,
            moves: 0,
            dates: 0,
            copied: 0,
            torn: 0,
            is_astray: false,
            by_date: false,
        }
    }
}

/// What was reported of the files of a station.
#[derive(Clone, Copy)]
pub struct FilesTold {
    // What was reported last.
    told: FilesSeen,
    // When it was reported last, since the path led to the file, that it leads astray.
    astray: RateLimit,
}

impl FilesTold {
    /// Nothing was reported yet.
    pub fn new() -> FilesTold {
        FilesTold {
            told: FilesSeen::none(),
            astray: RateLimit::new(),
        }
    }

    /// Returns what is to be reported now, which then counts as reported: what is new since the last call (at the first call,
    /// since nothing was seen); and, while the path of the rows leads astray, that it does: at once, and again whenever a minute
    /// of the clock for deadlines has passed since that was reported last.
    ///
    /// `None`: there is nothing to report. `Some` may have nothing to write, as when the path leads to the file again.
    pub fn take_news(&mut self, seen: FilesSeen, moment: Moment) -> Option<FilesNews> {
        let tells_astray = seen.is_astray && self.astray.claim(moment.elapsed, MINUTE);
        if seen == self.told && !tells_astray {
            return None;
        }
        let news = FilesNews {
            before: self.told,
            now: seen,
            tells_astray,
        };
        self.told = seen;
        if !seen.is_astray {
            self.astray = RateLimit::new();
        }
        Some(news)
    }
}

/// What is to be reported of the files of a station.
#[derive(Clone, Copy)]
pub struct FilesNews {
    // What was reported before, and what was seen now: what differs is news.
    before: FilesSeen,
    now: FilesSeen,
    // Whether it is to be reported, for the first time or again, that the path of the rows leads astray.
    tells_astray: bool,
}

impl FilesNews {
    /// Writes the news, a line for each thing: of the log, of new files for the rows, and of their path. `Err`: a line couldn't be written;
    /// those after it aren't.
    pub fn report<E: Write>(self, messages: &mut E) -> io::Result<()> {
        self.report_log(messages)?;
        self.report_moves(messages)?;
        self.report_astray(messages)
    }

    // Writes, if that is due, that the rows' file was moved or deleted, or that its date has passed, that no new one can be opened at its
    // path, and that rows are still written to the old one.
    fn report_astray<E: Write>(self, messages: &mut E) -> io::Result<()> {
        if !self.tells_astray {
            return Ok(());
        }
        if self.now.by_date {
            return writeln!(
                messages,
                "geocom: no file of records can be opened at the path of the date: rows are still written to the one before"
            );
        }
        writeln!(
            messages,
            "geocom: the file of records was moved or deleted, and no new one can be opened at its path: rows are still written to the old one"
        )
    }

    // Writes how many bytes were cut off the log, and that it has ended, each if that is new.
    fn report_log<E: Write>(self, messages: &mut E) -> io::Result<()> {
        self.report_torn_log(messages)?;
        if self.now.log == self.before.log {
            return Ok(());
        }
        match self.now.log {
            LogSeen::Whole => Ok(()),
            LogSeen::Lost => writeln!(
                messages,
                "geocom: the log can't be written and ends here: measuring continues"
            ),
        }
    }

    // Writes how many bytes of an incomplete line of the log were cut off, if that is new.
    fn report_torn_log<E: Write>(self, messages: &mut E) -> io::Result<()> {
        let torn = self.now.log_torn.saturating_sub(self.before.log_torn);
        if torn == 0 {
            return Ok(());
        }
        writeln!(
            messages,
            "geocom: {torn} bytes of an incomplete line of the log were cut off"
        )
    }

    // Writes that the rows go on in a new file because the one before was moved or deleted, if that is new, and of the last new file, also
    // of one that its date brought, what was copied into it and cut off it.
    fn report_moves<E: Write>(self, messages: &mut E) -> io::Result<()> {
        if self.now.moves == self.before.moves && self.now.dates == self.before.dates {
            return Ok(());
        }
        if self.now.moves != self.before.moves {
            writeln!(
                messages,
                "geocom: the file of records was moved or deleted: rows continue in a new one at its path"
            )?;
        }
        report_copied(self.now.copied, messages)?;
        report_torn(self.now.torn, messages)
    }
}

// Writes a line on a number of things, with these texts before and after the number; nothing if there are none. `Err`: the line
// couldn't be written.
fn report_count<E: Write>(before: &str, count: u64, after: &str, messages: &mut E) -> io::Result<()>
    ensures { WritesIfOk E.contents messages.old messages.new result (count_line before.now count after.now) }
{
    if count == 0 {
        return Ok(());
    }
    writeln!(messages, "geocom: {before}{count}{after}")
}

/// Writes how many rows were copied to a new file (`open_at`), as after a kill or a failed sync; nothing if there were none.
/// `Err`: the line couldn't be written.
pub fn report_copied<E: Write>(copied: u64, messages: &mut E) -> io::Result<()>
    ensures { WritesIfOk E.contents messages.old messages.new result (copied_line copied) }
{
    report_count(
        "the last run was killed, or a sync failed: ",
        copied,
        " rows were copied to a new file and synced",
        messages,
    )
}

/// Writes how many bytes of an incomplete row were cut off; nothing if there were none. `Err`: the line couldn't be written.
pub fn report_torn<E: Write>(torn: u64, messages: &mut E) -> io::Result<()>
    ensures { WritesIfOk E.contents messages.old messages.new result (torn_line torn) }
{
    report_count(
        "",
        torn,
        " bytes of an incomplete row were cut off",
        messages,
    )
}
