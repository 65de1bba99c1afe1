//! The files of a log on the disk: the present one is at the log's path, and the older one beside it, with `.1` at the end of its name. The
//! path may have a date in it; then each line goes into the file of its own date.

ghost use Rattle.std.specs.Prelude.{◌≡◌, [], IfOk, IfSome};
ghost use Rattle.gc_files.specs.Sinks.{steps_in};
ghost use Rattle.gc_logs.specs.Files.{IsUnwritten, elsewhere, rolled};
ghost use Rattle.gc_logs.specs.Disk.{files_in};

use crate::hours::{HOUR, hour_of};
use crate::opening::{Beside, OpenedLog, open_log};
use crate::rolling::Rolls;
use gc_files::{Done, Past, RowsFile, SystemFile, Unfit};
use gc_lines::{PortFailed, Sink};
use gc_texts::{has_date, is_dated_path, path_at};
use std::alloc::Global;
use std::fs::{self, File};
use std::rt::Files;

/// The files of a log, at a path. If the path is that of a symbolic link, the older file is beside the file that the link leads to.
#[derive(Drop)]
pub struct FilesAt<'a, R> {
    rt: &'a R,
    alloc: Global,
    // The path as it was asked for, which may have a date in it.
    asked: &'a str,
    // The date and hour of the present path, as a line begins with them; of no line if the path has no date.
    hour: [u8; HOUR],
    // The path of the present file.
    path: String,
    rows: RowsFile<SystemFile>,
    // How many bytes the present file and the older one have.
    size: u64,
    older_size: u64,
    // How many bytes of torn lines were cut off, of all files together.
    torn: u64,
    // What was done to the older file, and to all before it: in proofs alone.
    older: Past,
    earlier: Past,
    has_failed: bool,
}

impl<'a, R: Files<File = File>> FilesAt<'a, R> {
    /// Opens the file of a log at a path, as it is at the moment `utc`, in milliseconds since 1970. `Unopened`: the path has a `%` that
    /// begins no part of a date, or, if the log has a bound, what the first full file would replace is no file of a log. Else as `open_log`
    /// has it; `Failed` also if memory runs out.
    pub fn open(
        rt: &'a R,
        alloc: Global,
        asked: &'a str,
        utc: u64,
        has_bound: bool,
    ) -> Result<FilesAt<'a, R>, Unfit>
        ensures { IfOk result (λ files. IsUnwritten (files_in files)) }
    {
        if !is_dated_path(asked) {
            return Err(Unfit::Unopened);
        }
        let Ok(path) = path_at(alloc, asked, utc) else {
            return Err(Unfit::Failed);
        };
        let OpenedLog { rows, size } = open_log(rt, path.as_str())?;
        if has_bound {
            let _ = Beside::of(rt, alloc, path.as_str())?;
        }
        Ok(FilesAt {
            rt,
            alloc,
            asked,
            hour: [0; HOUR],
            path,
            size,
            older_size: 0,
            torn: rows.torn(),
            rows,
            older: Past::new(),
            earlier: Past::new(),
            has_failed: false,
        })
    }

    /// How many bytes of torn lines were cut off when files were opened, of all of them together.
    pub fn torn(&self) -> u64 {
        self.torn
    }

    // If the path leads to the present file, moves that to the older one's place.
    fn make_way(&self) -> Result<(), Unfit> {
        if !self.rows.file().is_at(self.rt, self.path.as_str()) {
            return Ok(());
        }
        let beside = Beside::of(self.rt, self.alloc, self.path.as_str())?;
        match fs::rename(self.rt, beside.file.as_str(), beside.older.as_str()) {
            Ok(()) => Ok(()),
            Err(_) => Err(Unfit::Failed),
        }
    }

    // Opens the file at the path, after the present one, if it is there, was moved away.
    fn open_new(&self) -> Result<OpenedLog, Unfit>
        ensures { IfOk result (λ opened. steps_in opened.rows ≡ []) }
    {
        self.make_way()?;
        open_log(self.rt, self.path.as_str())
    }

    // Opens the file of a line, if that is another one than the present. `None`: it is the present one.
    fn open_for(&mut self, line: &[u8]) -> Result<Option<OpenedLog>, Unfit>
        ensures same { files_in self.new ≡ files_in self.old }
        ensures fresh { IfOk result (λ found. IfSome found (λ opened. steps_in opened.rows ≡ [])) }
        ensures failed { self.new.has_failed ≡ self.old.has_failed }
    {
        let Some(utc) = hour_of(line) else {
            return Ok(None);
        };
        let Ok(path) = path_at(self.alloc, self.asked, utc) else {
            return Err(Unfit::Failed);
        };
        self.hour = front_of(line);
        if path == self.path {
            return Ok(None);
        }
        let opened = open_log(self.rt, path.as_str())?;
        self.path = path;
        Ok(Some(opened))
    }

    // Lets lines go on in a file that was just opened, and into which nothing was written yet, as the present one.
    fn take(&mut self, opened: OpenedLog)
        requires { steps_in opened.rows ≡ [] }
        ensures files { files_in self.new ≡ record (files_in self.old) { newest = []; size = opened.size } }
        ensures failed { self.new.has_failed ≡ self.old.has_failed }
    {
        let OpenedLog { rows, size } = opened;
        self.torn = self.torn.saturating_add(rows.torn());
        self.rows = rows;
        self.size = size;
    }

    // Lets lines go on in a file that was just opened, which didn't take the place of the present one.
    fn go_on_in(&mut self, opened: OpenedLog)
        requires { steps_in opened.rows ≡ [] }
        ensures files { files_in self.new ≡ elsewhere (files_in self.old) opened.size }
        ensures failed { self.new.has_failed ≡ self.old.has_failed }
    {
        let earlier = self.earlier.then(&Done::All(&self.older));
        self.earlier = earlier.then(&Done::All(self.rows.past()));
        self.older = Past::new();
        self.older_size = 0;
        self.take(opened);
    }

    // Lets lines go on in a file that was just made, in place of the present one, which is the older one from there on.
    fn roll_to(&mut self, opened: OpenedLog)
        requires fresh { steps_in opened.rows ≡ [] }
        requires empty { opened.size ≡ 0 }
        ensures files { files_in self.new ≡ rolled (files_in self.old) }
        ensures failed { self.new.has_failed ≡ self.old.has_failed }
    {
        self.earlier = self.earlier.then(&Done::All(&self.older));
        self.older = Past::new().then(&Done::All(self.rows.past()));
        self.older_size = self.size;
        self.take(opened);
    }
}

// The date and hour that a line begins with; of a shorter one zeros.
fn front_of(line: &[u8]) -> [u8; HOUR] {
    let mut front = [0u8; HOUR];
    if line.len() >= HOUR {
        front.copy_from_slice(&line[..HOUR]);
    }
    front
}

impl<'a, R: Files<File = File>> Rolls for FilesAt<'a, R> {
    ghost files = { λ f. files_in f };

    ghost failed = { λ f. f.has_failed };

    fn size(&self) -> u64 {
        self.size
    }

    // If the path has a date, and the line is of another hour than the line before, looks whether the path of its hour is another one,
    // and opens the file there. `Err`: it can't be had as a log, or memory ran out.
    fn turn_to(&mut self, line: &[u8]) -> Result<(), PortFailed> {
        if self.has_failed {
            return Err(PortFailed);
        }
        if !has_date(self.asked) || line.starts_with(&self.hour) {
            return Ok(());
        }
        match self.open_for(line) {
            Ok(None) => Ok(()),
            Ok(Some(opened)) => {
                self.go_on_in(opened);
                Ok(())
            }
            Err(_) => {
                self.has_failed = true;
                Err(PortFailed)
            }
        }
    }

    // Moves the present file to the older one's place, and opens a new one. If another program has moved or deleted the present one, lines
    // go on in the file that is at the path, which is made if there is none. `Err`: the older file can't be replaced, or no new one can be
    // had.
    fn roll(&mut self) -> Result<(), PortFailed> {
        if self.has_failed {
            return Err(PortFailed);
        }
        match self.open_new() {
            Ok(opened) => {
                if opened.size == 0 {
                    self.roll_to(opened);
                } else {
                    self.go_on_in(opened);
                }
                Ok(())
            }
            Err(_) => {
                self.has_failed = true;
                Err(PortFailed)
            }
        }
    }

    fn write(&mut self, bytes: &[u8]) -> Result<usize, PortFailed> {
        if self.has_failed {
            return Err(PortFailed);
        }
        match self.rows.write(bytes) {
            Ok(n) => {
                self.size += n as u64;
                Ok(n)
            }
            Err(why) => {
                self.has_failed = true;
                Err(why)
            }
        }
    }

    fn has_failed(&self) -> bool {
        self.has_failed
    }
}
