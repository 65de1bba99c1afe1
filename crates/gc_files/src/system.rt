//! The files of the system: opened so that nothing is lost by it, and held against other programs.

ghost use Rattle.std.specs.Prelude.{◌≡◌, None, true, false, IfOk};
ghost use Rattle.gc_files.specs.Sinks.{is_in_doubt};

use crate::appending::Appending;
use crate::opening::Refused;
use gc_lines::PortFailed;
use std::fs::{self, File, OpenFile, OpenOptions, TryLockError};
use std::io::{self, ErrorKind, Write};
use std::os::unix::fs::{FileExt, MetadataExt};
use std::rt::Files;

/// Why a path can't be used as a file of rows. In each case the whole rows of the file stay. Where the path was free, a file may
/// have been left there: an empty one, or one that holds a front of the head.
#[derive(Clone, Copy, PartialEq, Eq)]
pub enum Unfit {
    /// It can't be opened for reading and appending: it is a folder or another thing that is no regular file, its folder
    /// isn't there, or the system refuses to look at it or to open it, for whatever reason. Nothing was touched.
    Unopened,
    /// Another program, or another opening of this one, holds it or its copy; or, once it was locked, the path didn't lead to
    /// it, or the system didn't say so: another program may just have put another file in its place. It was not touched.
    Held,
    /// It holds something else than such rows. It was not touched.
    Foreign,
    /// The file could not be looked at, locked, read, cut, written or synced, or a read gave nothing though bytes had to be
    /// there; its path could not be followed, or led elsewhere once a copy was made; its mark, its copy or its folder could
    /// not be used; or memory ran out. What follows the last whole row may be cut off. Where there was no whole row, a front
    /// of the head may be written. A copy may have taken the file's place.
    Failed,
}

// Why a file can't be used is also why its path can't be.
impl From<Refused> for Unfit {
    fn from(why: Refused) -> Unfit {
        match why {
            Refused::Foreign => Unfit::Foreign,
            Refused::Failed => Unfit::Failed,
        }
    }
}

/// A file of the system, opened for reading and appending. No clause says what it holds.
#[derive(Drop)]
pub struct SystemFile {
    file: File,
    // Whether a sync of it failed, or may have.
    doubted: bool,
    // Why the system last refused to write or to sync it, if it ever did.
    refusal: Option<io::Error>,
}

impl SystemFile {
    /// Locks the file against every other opening of it, by a program of this kind, until it is dropped: `Held` where another one
    /// holds it, and `Failed` where it can't be locked, as on a file system without locks.
    pub fn hold(&self) -> Result<(), Unfit> {
        match self.file.try_lock() {
            Ok(()) => Ok(()),
            Err(TryLockError::WouldBlock) => Err(Unfit::Held),
            Err(TryLockError::Error(_)) => Err(Unfit::Failed),
        }
    }

    // The same file, in doubt.
    pub(crate) fn doubt(self) -> SystemFile
        ensures { is_in_doubt result ≡ true }
    {
        SystemFile {
            file: self.file,
            doubted: true,
            refusal: self.refusal,
        }
    }

    /// Why the system last refused to write or to sync the file. `None`: it never did.
    pub fn refusal(&self) -> Option<io::Error> {
        self.refusal
    }

    // Makes a new file at a path, for a copy of this one: with this one's mode and, where the system allows it, its owner and
    // group. `Failed`: the path isn't free, the new file can't be made, or this one's mode can't be read or given to it; an
    // empty file may be left at the path then.
    pub(crate) fn create_for_copy<R: Files<File = File>>(
        &self,
        rt: &R,
        path: &str,
    ) -> Result<SystemFile, Unfit> {
        let opened = OpenOptions::new()
            .read(true)
            .append(true)
            .create_new(true)
            .open(rt, path);
        let own = or_failed(self.file.metadata())?;
        let file = or_failed(opened)?;
        let _ = rt.chown(path, Some(own.uid()), Some(own.gid()));
        or_failed(file.set_permissions(own.permissions()))?;
        Ok(SystemFile {
            file,
            doubted: false,
            refusal: None,
        })
    }

    /// Whether a path leads to this file now, and not to another one or to none. `false` where the system doesn't say.
    pub fn is_at<R: Files<File = File>>(&self, rt: &R, path: &str) -> bool {
        match (self.file.metadata(), fs::metadata(rt, path)) {
            (Ok(own), Ok(found)) => own.dev() == found.dev() && own.ino() == found.ino(),
            _ => false,
        }
    }
}

/// The result of a call, with an error of any kind as `Failed`.
pub(crate) fn or_failed<T, E: Drop>(answer: Result<T, E>) -> Result<T, Unfit> {
    answer.map_err(|_| Unfit::Failed)
}

// The result of a call of the system, with an error of any kind as `PortFailed`.
fn port_result<T>(answer: io::Result<T>) -> Result<T, PortFailed> {
    answer.map_err(|_| PortFailed)
}

// Each call but `is_doubted` is one of the system. An interruption is a failure, too.
impl Appending for SystemFile {
    ghost life = { λ _. None };

    ghost doubted = { λ f. f.doubted };

    fn is_doubted(&self) -> bool {
        self.doubted
    }

    fn len(&self) -> Result<u64, PortFailed> {
        Ok(port_result(self.file.metadata())?.len())
    }

    fn read_at(&self, at: u64, buf: &mut [u8]) -> Result<usize, PortFailed> {
        self.file.read_at(buf, at).map_err(|_| PortFailed)
    }

    fn cut(&mut self, len: u64) -> Result<(), PortFailed> {
        port_result(self.file.set_len(len))
    }

    // One write of the system. A write that took nothing counts as failed.
    fn append(&mut self, bytes: &[u8]) -> Result<usize, PortFailed> {
        match self.file.write(bytes) {
            Ok(0) => Err(PortFailed),
            Ok(n) => Ok(n),
            Err(why) => {
                self.refusal = Some(why);
                Err(PortFailed)
            }
        }
    }

    // Syncs the file's bytes and length. Where that fails, the file is in doubt from then on.
    fn sync(&mut self) -> Result<(), PortFailed> {
        match self.file.sync_data() {
            Ok(()) => Ok(()),
            Err(why) => {
                self.doubted = true;
                self.refusal = Some(why);
                Err(PortFailed)
            }
        }
    }
}

// Refuses a path that leads to anything but a regular file, or of which the system doesn't say what it leads to; a path that
// leads to nothing passes. It looks before the file is opened, because opening a device can already act on it.
fn expect_file<R: Files<File = File>>(rt: &R, path: &str) -> Result<(), Unfit> {
    match fs::metadata(rt, path) {
        Ok(found) if found.is_file() => Ok(()),
        Err(error) if error.kind() == ErrorKind::NotFound => Ok(()),
        Ok(_) | Err(_) => Err(Unfit::Unopened),
    }
}

/// Opens a regular file by its path for reading and appending, and makes it where the path is free. What is in it stays.
/// `Unopened`: the path leads to something else, the system doesn't say to what, or the file can't be opened or made.
/// `Failed`: the file was opened, and the system doesn't say what it is.
pub fn open_file<R: Files<File = File>>(rt: &R, path: &str) -> Result<SystemFile, Unfit> {
    expect_file(rt, path)?;
    let opened = OpenOptions::new()
        .read(true)
        .append(true)
        .create(true)
        .open(rt, path);
    let Ok(file) = opened else {
        return Err(Unfit::Unopened);
    };
    match file.metadata() {
        Ok(found) if found.is_file() => Ok(SystemFile {
            file,
            doubted: false,
            refusal: None,
        }),
        Ok(_) => Err(Unfit::Unopened),
        Err(_) => Err(Unfit::Failed),
    }
}
