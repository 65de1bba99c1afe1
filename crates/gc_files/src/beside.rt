//! What is beside a file of rows: the mark `FILE.open`, from before the first row that is to be synced until a good end, and
//! while an opening cuts or copies the file; and for a moment the copy `FILE.copy`. A start that finds the mark copies the
//! file, because after a failed sync no later sync of it counts.

ghost use Rattle.std.specs.Prelude.{◌≡◌, [], false, IfOk};
ghost use Rattle.gc_files.specs.Sinks.{has_failed, is_in_doubt, steps_in, HasOptions};

use crate::appending::Appending;
use crate::copying::copy_lines;
use crate::opening::{extent_of, open_rows};
use crate::rows_file::{RowsFile, RowsOptions};
use crate::system::{SystemFile, Unfit, open_file, or_failed};
use std::alloc::Global;
use std::fs::{self, File, OpenFile, OpenOptions};
use std::io::ErrorKind;
use std::path::Path;
use std::rt::Files;

// The paths of a file of rows and of what is beside it.
#[derive(Drop)]
struct Beside {
    // The file, with all symbolic links followed.
    file: String,
    // Its mark.
    mark: String,
    // Its copy.
    copy: String,
}

impl Beside {
    // The three paths of the file that `path` leads to. `Failed`: the path can't be followed, or memory ran out.
    fn of<R: Files<File = File>>(rt: &R, alloc: Global, path: &str) -> Result<Beside, Unfit> {
        let file = or_failed(rt.canonicalize(alloc, path))?.into_string();
        let mark = or_failed(format!(in alloc; "{file}.open"))?;
        let copy = or_failed(format!(in alloc; "{file}.copy"))?;
        Ok(Beside { file, mark, copy })
    }

    // Whether the mark is there. `Failed`: the system doesn't say.
    fn is_marked<R: Files<File = File>>(&self, rt: &R) -> Result<bool, Unfit> {
        match fs::metadata(rt, self.mark.as_str()) {
            Ok(_) => Ok(true),
            Err(error) if error.kind() == ErrorKind::NotFound => Ok(false),
            Err(_) => Err(Unfit::Failed),
        }
    }

    // Makes the mark, if it isn't there, and syncs it and its folder, so that the mark and all names in the folder are on the disk.
    // `Failed`: a call of the system failed; a mark may be there then.
    fn make_mark<R: Files<File = File>>(&self, rt: &R) -> Result<(), Unfit> {
        let opened = OpenOptions::new()
            .write(true)
            .create(true)
            .open(rt, self.mark.as_str());
        or_failed(or_failed(opened)?.sync_all())?;
        sync_folder(rt, self.file.as_str())
    }

    // Removes the mark. Where that fails, or a crash brings the mark back, the next start makes a copy that isn't needed.
    fn remove_mark<R: Files<File = File>>(&self, rt: &R) {
        let _ = fs::remove_file(rt, self.mark.as_str());
    }

    // Returns the file that was opened, and puts it in doubt where the mark is there. `Failed`: the system doesn't say
    // whether the mark is there.
    fn doubt_if_marked<R: Files<File = File>>(
        &self,
        rt: &R,
        file: SystemFile,
    ) -> Result<SystemFile, Unfit> {
        if self.is_marked(rt)? {
            return Ok(file.doubt());
        }
        Ok(file)
    }

    // Where the file is in doubt, a copy of it takes its place: returns the copy, whose name may not be on the disk yet, and
    // how many lines were copied. Any other file is returned as it is, with 0 lines. `Err`, as `create_for_copy` and
    // `replace` have it: the file was not touched, and the copy, or a part of it, may be left beside it.
    fn replace_if_doubted<R: Files<File = File>>(
        &self,
        rt: &R,
        file: SystemFile,
    ) -> Result<(SystemFile, u64), Unfit>
        ensures { IfOk result (λ found. is_in_doubt found.0 ≡ false) }
    {
        if !file.is_doubted() {
            return Ok((file, 0));
        }
        // A copy that an earlier start didn't finish.
        let _ = fs::remove_file(rt, self.copy.as_str());
        let fresh = file.create_for_copy(rt, self.copy.as_str())?;
        match self.replace(rt, file, fresh) {
            Ok(renewed) => Ok(renewed),
            Err(why) => {
                let _ = fs::remove_file(rt, self.copy.as_str());
                Err(why)
            }
        }
    }

    // Copies a file into a fresh one, which then takes its place. It returns the fresh one, and how many lines were copied.
    // Both are locked, so that no other program gets in between. `Held`: another program holds the fresh one. `Failed`: the
    // fresh one can't be locked or renamed, the copying failed, the path leads to another file now or to none, or the system
    // doesn't say where it leads. With either error the old file was not touched.
    fn replace<R: Files<File = File>>(
        &self,
        rt: &R,
        old: SystemFile,
        mut fresh: SystemFile,
    ) -> Result<(SystemFile, u64), Unfit>
        ensures { IfOk result (λ found. is_in_doubt found.0 ≡ false) }
    {
        fresh.hold()?;
        let lines = or_failed(copy_lines(&old, &mut fresh))?;
        // Never in practice: a copy that was synced isn't in doubt. No clause of `copy_lines` says so.
        if fresh.is_doubted() {
            return Err(Unfit::Failed);
        }
        // A file that was moved to this path meanwhile isn't replaced.
        if !old.is_at(rt, self.file.as_str()) {
            return Err(Unfit::Failed);
        }
        or_failed(fs::rename(rt, self.copy.as_str(), self.file.as_str()))?;
        Ok((fresh, lines))
    }
}

// Syncs the folder of a path, so that the file's name is on the disk. `Failed`: the folder can't be opened or synced.
fn sync_folder<R: Files<File = File>>(rt: &R, path: &str) -> Result<(), Unfit> {
    let folder = match Path::new(path).parent() {
        Some(parent) if !parent.as_os_str().is_empty() => parent,
        _ => Path::new("."),
    };
    or_failed(or_failed(File::open(rt, folder))?.sync_all())
}

// Syncs the folder that a symbolic link is in, where the path is one; else does nothing. `Failed`: a call of the system failed.
fn sync_link<R: Files<File = File>>(rt: &R, path: &str) -> Result<(), Unfit> {
    if or_failed(fs::symlink_metadata(rt, path))?.is_symlink() {
        return sync_folder(rt, path);
    }
    Ok(())
}

// How many of a file's lines are rows: all but the head's, where the head isn't empty.
fn row_count(lines: u64, head: &[u8]) -> u64 {
    match head {
        [] => lines,
        _ => lines.saturating_sub(1),
    }
}

/// Opens a file of rows by its path, as [`open_rows`] does, and locks it against every other opening of it, by a program of
/// this kind, until it is dropped. Where the path is free, it makes the file.
///
/// With `sync` the file's name is on the disk before anything new is written into the file, also where the file was there
/// already, because whoever made it may not have synced its name. A mark beside the file, `FILE.open`, is made and is on the
/// disk by then, too; [`end_at`] removes it. Without `sync` a mark is made only where this call cuts off a torn row or copies
/// the file, and is removed at the end of the call; it stays where the system refuses to remove it.
///
/// Where a mark is found, an earlier run may have been ended by a kill or a crash, or one of its syncs may have failed. Then what
/// the file holds is copied to a new one, which is synced and takes its place. The second result is how many rows were copied, 0
/// where no copy was made. A copy takes as much room as the file has.
///
/// Why it fails, and what stands then, [`Unfit`] says. With an error a mark that was made stays, and a copy, `FILE.copy`, or
/// a part of one may be left.
pub fn open_at<R: Files<File = File>>(
    rt: &R,
    alloc: Global,
    path: &str,
    options: RowsOptions,
) -> Result<(RowsFile<SystemFile>, u64), Unfit>
    ensures asked { IfOk result (λ opened. HasOptions options opened.0) }
    ensures sound { IfOk result (λ opened. has_failed opened.0 ≡ false) }
    ensures fresh { IfOk result (λ opened. steps_in opened.0 ≡ []) }
{
    let file = open_file(rt, path)?;
    file.hold()?;
    // Whoever held it before may have put a copy in its place.
    if !file.is_at(rt, path) {
        return Err(Unfit::Held);
    }
    let extent = extent_of(&file, options.sign)?;
    let beside = Beside::of(rt, alloc, path)?;
    let file = beside.doubt_if_marked(rt, file)?;
    // Where the last row is torn, the opening cuts it off and syncs that: so this counts as a sync to come.
    let is_torn = extent.end < extent.len;
    let needs_mark = options.sync || is_torn || file.is_doubted();
    let (file, lines) = beside.replace_if_doubted(rt, file)?;
    if needs_mark {
        sync_link(rt, path)?;
        beside.make_mark(rt)?;
    }
    let rows = match open_rows(file, options) {
        Ok(rows) => rows,
        Err((why, _)) => return Err(why.into()),
    };
    if needs_mark && !options.sync {
        beside.remove_mark(rt);
    }
    Ok((rows, row_count(lines, options.head)))
}

/// Ends the appending to a file that [`open_at`] opened at this path. A file opened without `sync` is only closed. One opened
/// with `sync` is synced first if some of what it holds may not be on the disk, unless the file is in doubt. Where all that
/// it holds is on the disk then, the mark beside it is removed. Where the path now leads to another file or to none, or the
/// system doesn't say where it leads, the mark stays, because it may be another program's. The mark stays, too, where the
/// path can't be followed, where the system refuses to remove the mark, and where memory ran out.
pub fn end_at<R: Files<File = File>>(
    rt: &R,
    alloc: Global,
    path: &str,
    rows: RowsFile<SystemFile>,
) {
    if !rows.options().sync {
        return;
    }
    let (file, is_kept) = rows.finish();
    if !is_kept || !file.is_at(rt, path) {
        return;
    }
    if let Ok(beside) = Beside::of(rt, alloc, path) {
        beside.remove_mark(rt);
    }
}
