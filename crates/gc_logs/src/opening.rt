//! Opens a file as a log. Only what begins as a log does is taken, and what a crash left of its last line is cut off.

ghost use Rattle.std.specs.Prelude.{◌≡◌, [], IfOk};
ghost use Rattle.gc_files.specs.Sinks.{steps_in};

use gc_files::{Appending, RowsFile, RowsOptions, SystemFile, Unfit, open_file, open_rows};
use std::alloc::Global;
use std::fs::{self, File};
use std::io::ErrorKind;
use std::rt::Files;

// The form of the moment that begins each line of a log, with the space after it. Each 0 stands for any digit.
const MOMENT: &[u8] = b"0000-00-00T00:00:00.000Z ";

// The first bytes of the marks of lines, which follow the moment: what came, what went, and what became of the connection.
const MARKS: &[u8] = b"<>-";

// The length of `MOMENT` and the first byte of a mark.
const FRONT: usize = 26;

// Whether `front`, the first `FRONT` bytes of a file, begins as a log does: with a moment of the form of `MOMENT`, and then one
// of `MARKS`. A shorter file has to agree only as far as it goes; an empty one counts as a log.
fn begins_log(front: &[u8]) -> bool {
    front.iter().enumerate().all(|(at, b)| match MOMENT.get(at) {
        Some(b'0') => b.is_ascii_digit(),
        Some(form) => b == form,
        None => MARKS.contains(b),
    })
}

// Opens a file that begins as a log does, or makes an empty one if the path is free. The file is refused, and stays as it is, if it
// can't be opened or read, is no regular file, doesn't begin as a log does, or is held by another program or by this one. A file that
// can't be locked for another reason is taken unlocked.
fn open_as_log<R: Files<File = File>>(rt: &R, path: &str) -> Result<SystemFile, Unfit> {
    let file = open_file(rt, path)?;
    if file.hold() == Err(Unfit::Held) {
        return Err(Unfit::Held);
    }
    let mut front = [0u8; FRONT];
    let count = file.read_at(0, &mut front).map_err(|_| Unfit::Failed)?;
    if !begins_log(&front[..count]) {
        return Err(Unfit::Foreign);
    }
    Ok(file)
}

/// The file of a log, just opened, and how many bytes it has.
#[derive(Drop)]
pub(crate) struct OpenedLog {
    pub(crate) rows: RowsFile<SystemFile>,
    pub(crate) size: u64,
}

/// Opens the file of a log, which is made if the path is free, and cuts off a torn last line. It is refused as `open_as_log` has it,
/// and also if the cut or its sync fails, or its length can't be read; the cut may be done then.
pub(crate) fn open_log<R: Files<File = File>>(rt: &R, path: &str) -> Result<OpenedLog, Unfit>
    ensures { IfOk result (λ opened. steps_in opened.rows ≡ []) }
{
    let file = open_as_log(rt, path)?;
    let options = RowsOptions {
        head: b"",
        sign: b"",
        sync: false,
    };
    let rows = match open_rows(file, options) {
        Ok(rows) => rows,
        Err((why, _)) => return Err(why.into()),
    };
    match rows.file().len() {
        Ok(size) => Ok(OpenedLog { rows, size }),
        Err(_) => Err(Unfit::Failed),
    }
}

/// The path of a file, with all symbolic links followed, and that of the older file beside it.
#[derive(Drop)]
pub(crate) struct Beside {
    pub(crate) file: String,
    pub(crate) older: String,
}

impl Beside {
    /// Both paths for the file at `path`. The older file's path is free, or leads to a file that begins as a log does and that no program
    /// holds; a new one may take its place. `Unopened`: it leads to something else. `Failed`: the path can't be followed, or memory ran
    /// out. Nothing was touched.
    pub(crate) fn of<R: Files<File = File>>(
        rt: &R,
        alloc: Global,
        path: &str,
    ) -> Result<Beside, Unfit> {
        let Ok(file) = rt.canonicalize(alloc, path) else {
            return Err(Unfit::Failed);
        };
        let file = file.into_string();
        let Ok(older) = format!(in alloc; "{file}.1") else {
            return Err(Unfit::Failed);
        };
        expect_older(rt, older.as_str())?;
        Ok(Beside { file, older })
    }
}

// Refuses a path that isn't free and leads to anything but a file of a log.
fn expect_older<R: Files<File = File>>(rt: &R, path: &str) -> Result<(), Unfit> {
    match fs::symlink_metadata(rt, path) {
        Ok(found) if found.is_file() => {
            let _ = open_as_log(rt, path)?;
            Ok(())
        }
        Err(error) if error.kind() == ErrorKind::NotFound => Ok(()),
        Ok(_) | Err(_) => Err(Unfit::Unopened),
    }
}
