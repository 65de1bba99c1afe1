//! A file of rows that is looked for at its path: if it was moved or deleted, rows go on in a new one at that path. If a date is in the
//! path, rows go on in the file of the date as it changes.

ghost use Rattle.std.specs.Prelude.{◌≡◌, ◌<◌, [], length, true, false, Some, IfOk, OnOk};
ghost use Rattle.std.specs.Io.KnownBytes.{Keeps};
ghost use Rattle.gc_files.specs.Left.{files_in, syncs};
ghost use Rattle.gc_files.specs.Rows.{appended};
ghost use Rattle.gc_files.specs.Sinks.{asks_sync, ends_line, has_failed, is_durable, steps_in};
ghost use Rattle.gc_lines.specs.Ports.{Fails, TakesBytes};

use crate::files::FilesSeen;
use crate::oddity::{Noticed, note_files};
use gc_files::{Done, Earlier, Past, RowsFile, RowsOptions, SystemFile, Unfit, end_at, open_at};
use gc_lines::{Durable, PortFailed, Sink};
use gc_links::millis_of;
use gc_texts::{has_date, path_at};
use std::alloc::Global;
use std::cell::Cell;
use std::fs::File;
use std::mem;
use std::rt::Files;
use std::time::{Clock, Duration, SystemTime, UNIX_EPOCH};

// An hour, in milliseconds: a path with a date is made again only if the hour is another one.
const HOUR: u64 = 3_600_000;

/// A file of rows by its path, in which a date may be (`path_at` of gc_texts). Each `sync` of the file that succeeds where a row has
/// ended is followed by a look.
///
/// If the date's path is another one now, and a file can be had there as at the start (`open_at`), the rows go on in that one, and the
/// one before is ended (`end_at`). If the path doesn't lead to the file any more, or the system doesn't say, the rows go on in a new one
/// there, after what it holds by then. If no file can be had they go on in the old one. What became of the file is noted in `noticed`.
/// What was appended to all of these files since each was opened, in order, counts as taken.
#[derive(Drop)]
pub struct Followed<'a, R> {
    rt: &'a R,
    alloc: Global,
    path: &'a str,
    // Where the file was opened: the path with the date of then.
    here: String,
    // The hour, counted from 1970, for which `here` was found to be the date's path. 0 if no date is in the path.
    hour: u64,
    /// The file that takes the rows.
    pub rows: RowsFile<SystemFile>,
    // The files that took rows before.
    earlier: Earlier,
    noticed: &'a Cell<Noticed>,
    // All of these files were opened with `sync`, or none.
    ghost alike: { asks_sync rows ≡ syncs earlier },
}

// Milliseconds since 1970, UTC. `None`: the clock can't be read.
fn utc_now<R: Clock>(rt: &R) -> Option<u64> {
    match SystemTime::now(rt) {
        Ok(time) => Some(millis_of(time.duration_since(UNIX_EPOCH).unwrap_or(Duration::ZERO))),
        Err(_) => None,
    }
}

// A path as it is now, and the hour now; 0 if no date is in the path, for which the clock isn't read. `None`: the clock can't be read, or
// memory ran out.
fn path_now<R: Clock>(rt: &R, alloc: Global, path: &str) -> Option<(String, u64)> {
    let utc = if has_date(path) { utc_now(rt)? } else { 0 };
    match path_at(alloc, path, utc) {
        Ok(here) => Some((here, utc / HOUR)),
        Err(_) => None,
    }
}

impl<'a, R: Files<File = File> + Clock> Followed<'a, R> {
    ghost use Rattle.gc_logs.specs.Following.{IsOpenedAt};

    /// Opens a file of rows at this path, with the date of now if one is in it, and with these options, as [`open_at`] does. What becomes
    /// of it is noted in `noticed`. Returns also how many rows were copied as it was opened. `Err`: why the path can't be used; `Failed`
    /// also if the clock can't be read.
    pub fn open(
        rt: &'a R,
        alloc: Global,
        path: &'a str,
        options: RowsOptions,
        noticed: &'a Cell<Noticed>,
    ) -> Result<(Followed<'a, R>, u64), Unfit>
        // The file is at this path, was opened with these options, and nothing was appended to it yet.
        ensures opened { IfOk result (λ opened. IsOpenedAt path.now options.head.now options.sign.now options.sync opened.0) }
    {
        let Some((here, hour)) = path_now(rt, alloc, path) else {
            return Err(Unfit::Failed);
        };
        let (rows, copied) = open_at(rt, alloc, here.as_str(), options)?;
        let followed = Followed {
            rt,
            alloc,
            path,
            here,
            hour,
            rows,
            earlier: Earlier::none(options.sync),
            noticed,
        };
        Ok((followed, copied))
    }

    // The path of the date and the hour, if this is another hour than at the last look. `None` also if no date is in the path, the clock
    // can't be read, or memory ran out.
    fn path_of_new_hour(&self) -> Option<(String, u64)> {
        if !has_date(self.path) {
            return None;
        }
        let utc = utc_now(self.rt)?;
        if utc / HOUR == self.hour {
            return None;
        }
        path_now(self.rt, self.alloc, self.path)
    }
}

impl<'a, R: Files<File = File>> Followed<'a, R> {
    ghost use Rattle.gc_logs.specs.Following.{bytes_in, path_of};

    /// Whether the file is at this path.
    pub fn is_for(&self, path: &str) -> bool
        ensures { result ≡ true → path_of self.now ≡ path.now }
    {
        self.path == path
    }

    /// The path at which the file was opened: with its date, if one is in the path.
    pub fn here(&self) -> &str {
        self.here.as_str()
    }

    /// What was done to all of these files since each was opened, one after the other, which proofs alone can read.
    pub fn past(&self) -> Past
        ensures { appended result.steps ≡ bytes_in self.now }
    {
        let before = self.earlier.past();
        let own = self.rows.past();
        before.then(&Done::All(own))
    }

    /// Ends the appending to the file that takes the rows now, as `end_at` does: if its path leads to that file, and all that it
    /// holds is on the disk, if need be after one more sync, this removes the mark by which the next start would copy the file.
    /// The mark stays if the path can't be followed, the system refuses to remove the mark, or memory runs out. A file that was
    /// opened without `sync` is only closed.
    pub fn end(self) {
        let Followed {
            rt,
            alloc,
            path: _,
            here,
            hour: _,
            rows,
            earlier: _,
            noticed: _,
        } = self;
        end_at(rt, alloc, here.as_str(), rows);
    }

    // Notes whether the path leads astray: it isn't known to lead to the file, and no new one can be had there. `by_date`: because the
    // date's path is another one, where no file can be had.
    fn note_astray(&self, is_astray: bool, by_date: bool) {
        let files = self.noticed.get().files;
        note_files(
            self.noticed,
            FilesSeen {
                is_astray,
                by_date,
                ..files
            },
        );
    }

    // Notes that the rows go on in this new file, into which this many rows were copied as it was opened: as one more move, or with
    // `by_date` as one more change of date.
    fn note_new(&self, rows: &RowsFile<SystemFile>, copied: u64, by_date: bool) {
        let files = self.noticed.get().files;
        let (moves, dates) = if by_date { (0, 1) } else { (1, 0) };
        let moved = FilesSeen {
            moves: files.moves.saturating_add(moves),
            dates: files.dates.saturating_add(dates),
            copied,
            torn: rows.torn(),
            is_astray: false,
            by_date: false,
            ..files
        };
        note_files(self.noticed, moved);
    }

    // Lets the rows go on in this fresh file, where a row has ended and is on the disk. Returns the file that took them before.
    fn leave_for(&mut self, rows: RowsFile<SystemFile>) -> RowsFile<SystemFile>
        requires fresh { steps_in rows ≡ [] }
        requires sync { asks_sync rows ≡ asks_sync self.old.rows }
        requires is_durable { is_durable self.old.rows ≡ true }
        requires ends_line { ends_line self.old.rows ≡ true }
        ensures is { self.new.rows ≡ rows }
        ensures same { bytes_in self.new ≡ bytes_in self.old }
        ensures path { path_of self.new ≡ path_of self.old }
    {
        // The past of the old file is read before the new one takes its place.
        self.earlier = self.earlier.then(&self.rows);
        mem::replace(&mut self.rows, rows)
    }

    // Lets the rows go on in a new file at the path, into which this many rows were copied as it was opened, notes that, and
    // syncs the new file. `Err`: that sync failed; the new file takes the rows all the same.
    fn go_on_in(&mut self, rows: RowsFile<SystemFile>, copied: u64) -> Result<(), PortFailed>
        requires fresh { steps_in rows ≡ [] }
        requires sync { asks_sync rows ≡ asks_sync self.old.rows }
        requires is_durable { is_durable self.old.rows ≡ true }
        requires ends_line { ends_line self.old.rows ≡ true }
        ensures is_durable { OnOk result (is_durable self.new.rows ≡ true) }
        ensures same { bytes_in self.new ≡ bytes_in self.old }
        ensures path { path_of self.new ≡ path_of self.old }
        ensures sync { asks_sync self.new.rows ≡ asks_sync self.old.rows }
        ensures fails { Fails (has_failed rows) (has_failed self.new.rows) result }
    {
        self.note_new(&rows, copied, false);
        let _ = self.leave_for(rows);
        self.rows.sync()
    }

    // The same in the file of the date, at this path. The one before is ended.
    fn go_on_at(
        &mut self,
        here: String,
        rows: RowsFile<SystemFile>,
        copied: u64,
    ) -> Result<(), PortFailed>
        requires fresh { steps_in rows ≡ [] }
        requires sync { asks_sync rows ≡ asks_sync self.old.rows }
        requires is_durable { is_durable self.old.rows ≡ true }
        requires ends_line { ends_line self.old.rows ≡ true }
        ensures is_durable { OnOk result (is_durable self.new.rows ≡ true) }
        ensures same { bytes_in self.new ≡ bytes_in self.old }
        ensures path { path_of self.new ≡ path_of self.old }
        ensures sync { asks_sync self.new.rows ≡ asks_sync self.old.rows }
        ensures fails { Fails (has_failed rows) (has_failed self.new.rows) result }
    {
        self.note_new(&rows, copied, true);
        let left = self.leave_for(rows);
        let path = mem::replace(&mut self.here, here);
        end_at(self.rt, self.alloc, path.as_str(), left);
        self.rows.sync()
    }

    // Looks whether the path leads to the file. If not, or if the system doesn't say, the rows go on in a new one there, if it can be had.
    fn look(&mut self) -> Result<(), PortFailed>
        requires is_durable { is_durable self.old.rows ≡ true }
        requires ends_line { ends_line self.old.rows ≡ true }
        requires sound { has_failed self.old.rows ≡ false }
        ensures is_durable { OnOk result (is_durable self.new.rows ≡ true) }
        ensures same { bytes_in self.new ≡ bytes_in self.old }
        ensures path { path_of self.new ≡ path_of self.old }
        ensures sync { asks_sync self.new.rows ≡ asks_sync self.old.rows }
        ensures fails { Fails (has_failed self.old.rows) (has_failed self.new.rows) result }
    {
        if self.rows.file().is_at(self.rt, self.here.as_str()) {
            self.note_astray(false, false);
            return Ok(());
        }
        match open_at(self.rt, self.alloc, self.here.as_str(), self.rows.options()) {
            Ok((rows, copied)) => self.go_on_in(rows, copied),
            Err(_) => {
                self.note_astray(true, false);
                Ok(())
            }
        }
    }

    // Lets the rows go on in the file at this path, which is the date's in this hour, if it can be had.
    fn turn_to(&mut self, here: String, hour: u64) -> Result<(), PortFailed>
        requires is_durable { is_durable self.old.rows ≡ true }
        requires ends_line { ends_line self.old.rows ≡ true }
        requires sound { has_failed self.old.rows ≡ false }
        ensures is_durable { OnOk result (is_durable self.new.rows ≡ true) }
        ensures same { bytes_in self.new ≡ bytes_in self.old }
        ensures path { path_of self.new ≡ path_of self.old }
        ensures sync { asks_sync self.new.rows ≡ asks_sync self.old.rows }
        ensures fails { Fails (has_failed self.old.rows) (has_failed self.new.rows) result }
    {
        match open_at(self.rt, self.alloc, here.as_str(), self.rows.options()) {
            Ok((rows, copied)) => {
                self.hour = hour;
                self.go_on_at(here, rows, copied)
            }
            Err(_) => {
                self.note_astray(true, true);
                Ok(())
            }
        }
    }
}

// No call changes the path, nor whether the file was opened with `sync`.
impl<'a, R: Files<File = File>> Sink for Followed<'a, R> {
    ghost use Rattle.gc_logs.specs.Following.{bytes_in, path_of};

    ghost taken = { λ f. Some (bytes_in f) };

    ghost failed = { λ f. has_failed f.rows };

    // Writes into the file that takes the rows now. `Err`: that file failed, now or before.
    fn write(&mut self, bytes: &[u8]) -> Result<usize, PortFailed>
        requires { 0 < length bytes.now }
        ensures bytes { TakesBytes (Some (bytes_in self.old)) (Some (bytes_in self.new)) result bytes.now }
        ensures fails { Fails (has_failed self.old.rows) (has_failed self.new.rows) result }
        ensures path { path_of self.new ≡ path_of self.old }
        ensures sync { asks_sync self.new.rows ≡ asks_sync self.old.rows }
    {
        self.rows.write(bytes)
    }

    fn has_failed(&self) -> bool {
        self.rows.has_failed()
    }
}

impl<'a, R: Files<File = File> + Clock> Durable for Followed<'a, R> {
    ghost use Rattle.gc_logs.specs.Following.{bytes_in, path_of};

    ghost is_durable = { λ f. is_durable f.rows };

    // Syncs the file, as `RowsFile` does: without effect if it was opened without `sync`. If a row has ended, it then looks whether the
    // date's path is another one now, and else whether the path leads to the file. If the rows go on in another file, that one is synced,
    // too; if none can be had, they go on in the old one, and it is noted that the path leads astray. If the path leads to the file again,
    // that is noted. `Err`: the file failed, now or before, and nothing is looked at; or the new file failed, which takes the rows then.
    fn sync(&mut self) -> Result<(), PortFailed>
        ensures is_durable { OnOk result (is_durable self.new.rows ≡ true) }
        ensures same { Keeps (Some (bytes_in self.old)) (Some (bytes_in self.new)) }
        ensures fails { Fails (has_failed self.old.rows) (has_failed self.new.rows) result }
        ensures path { path_of self.new ≡ path_of self.old }
        ensures sync { asks_sync self.new.rows ≡ asks_sync self.old.rows }
    {
        self.rows.sync()?;
        if !self.rows.ends_line() {
            return Ok(());
        }
        match self.path_of_new_hour() {
            Some((here, hour)) if here.as_str() != self.here.as_str() => self.turn_to(here, hour),
            Some((_, hour)) => {
                self.hour = hour;
                self.look()
            }
            None => self.look(),
        }
    }
}
