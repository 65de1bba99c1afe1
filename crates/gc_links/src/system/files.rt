//! The system's files, as far as a link looks for one or reads the value of one.

ghost use Rattle.std.specs.Prelude.{◌≡◌, ◌≤◌, [], ◌∷◌, ◌++◌, length};
ghost use Rattle.gc_links.specs.Calls.{Looked};

use super::System;
use crate::calls::CallNote;
use crate::timer::millis_of;
use gc_values::KEPT_BYTES;
use std::fs::{self, File, OpenFile};
use std::io::Read;
use std::rt::Files;
use std::time::UNIX_EPOCH;

// One byte more than a file with a value may have, so that a longer one shows.
const READ_BYTES: usize = KEPT_BYTES + 1;

/// What a small file has.
#[derive(Clone, Copy)]
pub(crate) struct SmallFile {
    /// When it was changed last, in milliseconds since 1970.
    pub changed: u64,
    // Its bytes, and zeros in the places after them.
    bytes: [u8; READ_BYTES],
    // How many bytes it has.
    len: usize,
    pub ghost few: { len ≤ 64 },
    pub ghost long: { length bytes ≡ 65 },
}

impl SmallFile {
    ghost use Rattle.gc_links.specs.Answered.{file_bytes, file_call};
    ghost use Rattle.gc_links.specs.CallNoted.{call_of};

    /// Its bytes.
    pub(crate) fn bytes(&self) -> &[u8]
        ensures { result.now ≡ file_bytes self.now }
    {
        &self.bytes[..self.len]
    }

    // The note of the read of the file at this path.
    fn note_of_read<'n>(path: &'n str, read: &'n Option<SmallFile>) -> CallNote<'n>
        ensures { call_of result ≡ file_call path.now read.now }
    {
        match read {
            Some(file) => CallNote::Kept(path, file.changed, file.bytes()),
            None => CallNote::NotKept(path),
        }
    }
}

// The bytes that are read of an open file, into the front of `bytes`, and how many these are. `None`: a read failed.
fn read_front(file: &mut File, bytes: &mut [u8; READ_BYTES]) -> Option<usize> {
    let mut len = 0;
    for _ in 0..READ_BYTES {
        match file.read(&mut bytes[len..]) {
            Ok(0) => return Some(len),
            Ok(n) => len += n,
            Err(_) => return None,
        }
        if len == READ_BYTES {
            return Some(len);
        }
    }
    Some(len)
}

// The regular file at a path, which has at most 64 bytes. `None`: there is none, or the system doesn't give it, or doesn't say when it was
// changed. It looks before the file is opened, since opening a device can act on it, and opening a pipe can wait.
fn small_file<R: Files<File = File>>(rt: &R, path: &str) -> Option<SmallFile> {
    let found = fs::metadata(rt, path).ok()?;
    if !found.is_file() {
        return None;
    }
    let mut file = File::open(rt, path).ok()?;
    let changed = file.metadata().ok()?.modified().ok()?;
    let since_1970 = changed.duration_since(UNIX_EPOCH).ok()?;
    let mut bytes = [0; READ_BYTES];
    let len = read_front(&mut file, &mut bytes)?;
    if len > KEPT_BYTES {
        return None;
    }
    Some(SmallFile {
        changed: millis_of(since_1970),
        bytes,
        len,
    })
}

impl<'a, R: Files> System<'a, R> {
    /// Whether a file is there; `false` where the system doesn't say.
    pub(crate) fn look_for(&mut self, path: &str) -> bool
        ensures { self.new.calls.made ≡ self.old.calls.made ++ Looked path.now result ∷ [] }
    {
        let here = fs::exists(self.rt, path).unwrap_or(false);
        self.note(&CallNote::Looked(path, here));
        here
    }
}

impl<'a, R: Files<File = File>> System<'a, R> {
    ghost use Rattle.gc_links.specs.Answered.{file_call};

    /// Reads the regular file at a path, which has at most 64 bytes. `None`: there is none, or the system doesn't give it, or doesn't say
    /// when it was changed.
    pub(crate) fn read_file(&mut self, path: &str) -> Option<SmallFile>
        ensures { self.new.calls.made ≡ self.old.calls.made ++ file_call path.now result ∷ [] }
    {
        let read = small_file(self.rt, path);
        let note = SmallFile::note_of_read(path, &read);
        self.note(&note);
        read
    }
}
