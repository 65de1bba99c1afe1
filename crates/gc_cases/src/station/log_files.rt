//! Lines that go into the files of a log, none of which grows above a bound (`Rolling` of gc_logs): over files in memory, what stands in
//! each of them.
//!
//!     most 10             the most bytes of a file
//!     piece 4             the most bytes that a write takes; without such a line all
//!     hour 2026-12-01T04  the path has a date, and this is the hour of the present one; without such a line each line has the same path
//!     had 5               how many bytes a file at another path has already
//!     moved 5             where a new file is to begin, the path leads to another one than the present, which has this many bytes
//!     writes 2            how many writes succeed; likewise `rolls` and `turns`, to a new file and to another path; without such a line all
//!     do write aaa\n -> 4             one write, and how many bytes of it were taken; `ended` if the log takes no more
//!     do line aaa\n -> whole          as many writes as the bytes need; or how many of them were taken, and `ended`
//!     do files -> before [] older 0 [] newest 4 [aaa\n]   what was written into files before the older one, which are replaced or at
//!                                     another path; and of the older one and the present one how many bytes each has, with those that
//!                                     it had already, and what was written into it

ghost use Rattle.std.specs.Prelude.{◌≡◌};
ghost use Rattle.gc_logs.specs.Files.{IsUnwritten, RollsOver};

use crate::station::kept::Kept;
use gc_lines::{PortFailed, Sink, write_whole};
use gc_logs::{Rolling, Rolls};
use gc_probes::{Case, Player, Row, Rows, Told, play_rows};
use std::alloc::{AllocError, Global};
use std::io;

// How many bytes of a line have its date and hour, as `2026-12-01T04`.
const HOUR: usize = 13;

/// The player of `.logs`.
pub struct LogFiles;

impl Player for LogFiles {
    // Plays a case of the files of a log, and appends to `wrong` what came otherwise than the case has it.
    fn play(&self, _rt: &HostRuntime, case: &Case<'_>, wrong: &mut Told) -> io::Result<()> {
        play_rows(case, &mut LogRows::new(case, wrong.alloc), wrong);
        Ok(())
    }
}

// What plays these rows: a log over files in memory.
#[derive(Drop)]
struct LogRows {
    log: Rolling<MemoryFiles>,
}

impl LogRows {
    // The log of a case, into which nothing was written.
    fn new(case: &Case<'_>, alloc: Global) -> LogRows {
        LogRows {
            log: Rolling::new(MemoryFiles::new(case, alloc), case.number("most", 0)),
        }
    }

    // Writes these bytes once, and reports how many were taken, or that there were none to write.
    fn write(&mut self, bytes: &[u8], came: &mut Told) {
        if bytes.is_empty() {
            return came.text("nothing to write");
        }
        if let Ok(n) = self.log.write(bytes) {
            came.display(&n);
        }
        came.text_if(self.log.has_failed(), "ended");
    }

    // Writes these bytes in as many writes as they need, and reports that they were taken, or how many of them.
    fn write_line(&mut self, bytes: &[u8], came: &mut Told) {
        match write_whole(&mut self.log, bytes) {
            Ok(()) => came.text("whole"),
            Err(n) => came.counted(&n, " "),
        }
        came.text_if(self.log.has_failed(), "ended");
    }
}

impl Rows for LogRows {
    // Plays a row: `write` or `line` with the bytes, or `files`.
    fn play(&mut self, row: Row<'_>, came: &mut Told) {
        match row.word {
            "write" => self.write(row.bytes, came),
            "line" => self.write_line(row.bytes, came),
            "files" => self.log.files().kept.tell(came),
            _ => came.text("an unknown word"),
        }
    }
}

// The files of a log in memory, as a case has them.
#[derive(Drop)]
struct MemoryFiles {
    kept: Kept,
    // The most bytes that a write takes.
    piece: usize,
    // The hour of the present path. `None`: the path has no date.
    hour: Option<[u8; HOUR]>,
    // How many bytes a file at another path has already.
    had: u64,
    // How many bytes the file has to which the path leads where a new one is to begin. `None`: that is the present one.
    moved: Option<u64>,
    // How many writes, new files and turns to another path still succeed.
    writes: u64,
    rolls: u64,
    turns: u64,
    has_failed: bool,
}

impl MemoryFiles {
    // The files of a case, into which nothing was written.
    fn new(case: &Case<'_>, alloc: Global) -> MemoryFiles
        ensures { IsUnwritten result.kept }
    {
        MemoryFiles {
            kept: Kept::new(alloc),
            piece: case.number("piece", usize::MAX),
            hour: hour_of(case.value("hour").as_bytes()),
            had: case.number("had", 0),
            moved: case.value("moved").parse::<u64>().ok(),
            writes: case.number("writes", u64::MAX),
            rolls: case.number("rolls", u64::MAX),
            turns: case.number("turns", u64::MAX),
            has_failed: false,
        }
    }

    // The hour of a line that is of another one than the present path. `None`: the path has no date, or it is the line's, or the line
    // is too short to have one.
    fn other_hour(&self, line: &[u8]) -> Option<[u8; HOUR]> {
        let now = self.hour?;
        let hour = hour_of(line)?;
        (hour != now).then_some(hour)
    }

    // Begins a new file, or lets lines go on in the one to which the path leads.
    fn begin_file(&mut self) -> Result<(), AllocError>
        ensures begins { RollsOver self.old.kept self.new.kept result }
        ensures failed { self.new.has_failed ≡ self.old.has_failed }
    {
        match self.moved {
            Some(size) => self.kept.go_on_in(size),
            None => self.kept.roll(),
        }
    }
}

// The date and hour that a line begins with. `None`: it is too short to have one.
fn hour_of(line: &[u8]) -> Option<[u8; HOUR]> {
    if line.len() < HOUR {
        return None;
    }
    let mut hour = [0u8; HOUR];
    hour.copy_from_slice(&line[..HOUR]);
    Some(hour)
}

impl Rolls for MemoryFiles {
    ghost files = { λ f. f.kept };

    ghost failed = { λ f. f.has_failed };

    fn size(&self) -> u64 {
        self.kept.size()
    }

    // Lets a line of another hour go on in a file at another path. `Err`: no more turns succeed, or memory ran out.
    fn turn_to(&mut self, line: &[u8]) -> Result<(), PortFailed> {
        if self.has_failed {
            return Err(PortFailed);
        }
        let Some(hour) = self.other_hour(line) else {
            return Ok(());
        };
        if self.turns == 0 || self.kept.go_on_in(self.had).is_err() {
            self.has_failed = true;
            return Err(PortFailed);
        }
        self.turns -= 1;
        self.hour = Some(hour);
        Ok(())
    }

    // Begins a new file, or lets lines go on in the one to which the path leads. `Err`: no more new files succeed, or memory ran out.
    fn roll(&mut self) -> Result<(), PortFailed> {
        if self.has_failed || self.rolls == 0 || self.begin_file().is_err() {
            self.has_failed = true;
            return Err(PortFailed);
        }
        self.rolls = self.rolls.saturating_sub(1);
        Ok(())
    }

    // Appends as many bytes as a write takes. `Err`: no more writes succeed, or memory ran out.
    fn write(&mut self, bytes: &[u8]) -> Result<usize, PortFailed> {
        let n = self.piece.max(1).min(bytes.len());
        if self.has_failed || self.writes == 0 || self.kept.add(&bytes[..n]).is_err() {
            self.has_failed = true;
            return Err(PortFailed);
        }
        self.writes -= 1;
        Ok(n)
    }

    fn has_failed(&self) -> bool {
        self.has_failed
    }
}
