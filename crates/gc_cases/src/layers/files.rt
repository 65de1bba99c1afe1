//! Rows of a file of rows, in memory: what opening it leaves of the bytes that it held, and what it holds of those that are
//! written.

use gc_files::{MemoryFile, Refused, RowsFile, RowsOptions, copy_lines, open_rows};
use gc_lines::{Durable, PortFailed, Sink};
use gc_probes::{Row, Rows, Told, bytes_of, cut_word};
use std::alloc::AllocError;

// The head: a new file gets it first, and an old one begins with it.
const HEAD: &[u8] = b"run,sent\n";

/// What plays these rows: the file that was opened last.
#[derive(Drop)]
pub struct Files {
    // `None`: no file is open.
    rows: Option<RowsFile<MemoryFile>>,
}

impl Files {
    /// At first no file is open.
    pub fn new() -> Files {
        Files { rows: None }
    }

    // Opens a new file that holds the bytes of the other words and has room for as many more as the first word says (`file_of`),
    // and reports what opening it gave. `is_synced`: a sync of the rows syncs the file; otherwise it leaves the file alone. If
    // memory runs out for the file, `came` notes that it lacks a part.
    fn open(&mut self, is_synced: bool, words: &str, came: &mut Told) {
        match file_of(words, came) {
            Ok(file) => self.open_file(file, is_synced, came),
            Err(_) => came.lack(),
        }
    }

    // Opens a file as `open` does if `is_synced` is true, but one whose syncs fail.
    fn open_failing(&mut self, words: &str, came: &mut Told) {
        match file_of(words, came) {
            Ok(mut file) => {
                file.fail_syncs();
                self.open_file(file, true, came);
            }
            Err(_) => came.lack(),
        }
    }

    // Opens this file, and reports what opening it gave. If the opening is refused, the file that was open before stays.
    fn open_file(&mut self, file: MemoryFile, is_synced: bool, came: &mut Told) {
        let options = RowsOptions {
            head: HEAD,
            sign: HEAD,
            sync: is_synced,
        };
        match open_rows(file, options) {
            Ok(rows) => {
                tell_opened(&rows, came);
                self.rows = Some(rows);
            }
            Err((why, file)) => tell_refused(why, &file, came),
        }
    }

    // Copies the file that is open into a new one with room for 1000 bytes, and opens that one (`copy_into`). If memory runs out
    // for the new one, `came` notes that it lacks a part.
    fn copy(&mut self, came: &mut Told) {
        match MemoryFile::new(came.alloc, b"", 1000) {
            Some(fresh) => self.copy_into(fresh, came),
            None => came.lack(),
        }
    }

    // Copies all that the open file holds into this one, and reports how many lines that were, that copying failed, or that no
    // file is open. Whichever it was, it then opens this one, and reports what that gave.
    fn copy_into(&mut self, mut fresh: MemoryFile, came: &mut Told) {
        match &self.rows {
            Some(rows) => tell_copy(copy_lines(rows.file(), &mut fresh), came),
            None => came.text("no file is open"),
        }
        self.open_file(fresh, true, came);
    }

    // Plays a row on the file that is open, or reports that none is.
    fn play_on_open(&mut self, row: Row<'_>, came: &mut Told) {
        match &mut self.rows {
            Some(rows) => play_on_rows(rows, row, came),
            None => came.text("no file is open"),
        }
    }
}

impl Rows for Files {
    // Plays a row: `open`, `open_synced` or `open_failing` with a room in bytes and what the file holds, `copy`, or a word of
    // `play_on_rows`.
    fn play(&mut self, row: Row<'_>, came: &mut Told) {
        match row.word {
            "open" => self.open(false, row.what, came),
            "open_synced" => self.open(true, row.what, came),
            "open_failing" => self.open_failing(row.what, came),
            "copy" => self.copy(came),
            _ => self.play_on_open(row, came),
        }
    }
}

// A file that holds the bytes of all words but the first, and has room for as many more as the first word says. `Err`: memory
// ran out.
fn file_of(words: &str, came: &mut Told) -> Result<MemoryFile, AllocError> {
    let (room, held) = cut_word(words);
    let room = came.number_in(room);
    let held = bytes_of(came.alloc, held)?;
    MemoryFile::new(came.alloc, held.as_slice(), room).ok_or(AllocError)
}

// Reports how many lines were copied, or that copying failed.
fn tell_copy(copied: Result<u64, PortFailed>, came: &mut Told) {
    match copied {
        Ok(lines) => came.counted(&lines, " lines copied, "),
        Err(_) => came.text("failed, "),
    }
}

// Reports how many bytes opening the file cut off, and what it holds.
fn tell_opened(rows: &RowsFile<MemoryFile>, came: &mut Told) {
    came.counted(&rows.torn(), " cut off, holds ");
    came.bytes(rows.file().bytes());
}

// Reports why a file was refused, and what it holds.
fn tell_refused(why: Refused, file: &MemoryFile, came: &mut Told) {
    came.debug(&why);
    came.text(", holds ");
    came.bytes(file.bytes());
}

// Syncs what was written (`keep`), writes the bytes (`write`), or reports what the file holds (`holds`), as the word says, or
// that the word is unknown.
fn play_on_rows(rows: &mut RowsFile<MemoryFile>, row: Row<'_>, came: &mut Told) {
    match row.word {
        "keep" => sync_rows(rows, came),
        "write" => write_to(rows, row.bytes, came),
        "holds" => came.bytes(rows.file().bytes()),
        _ => came.text("an unknown word"),
    }
}

// Syncs what was written, and reports whether that succeeded.
fn sync_rows(rows: &mut RowsFile<MemoryFile>, came: &mut Told) {
    came.either(rows.sync().is_ok(), "kept", "failed");
}

// Writes these bytes, and reports how many were taken, that writing failed, or that there were no bytes to write.
fn write_to(rows: &mut RowsFile<MemoryFile>, bytes: &[u8], came: &mut Told) {
    if bytes.is_empty() {
        return came.text("nothing to write");
    }
    match rows.write(bytes) {
        Ok(count) => came.counted(&count, " taken"),
        Err(_) => came.text("failed"),
    }
}
