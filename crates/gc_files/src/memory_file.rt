//! A file in memory, of which all is known that was done to it. It is for tests, and a witness that a file can be what
//! `Appending` asks for.

ghost use Rattle.std.specs.Prelude.{◌≡◌, ℕ, List, Some};
ghost use Rattle.gc_files.specs.Calls.{HoldsAfter, MakesCall, step_of, life_by};
ghost use Rattle.gc_files.specs.Files.{content, stepped};

use crate::appending::Appending;
use gc_lines::PortFailed;
use std::alloc::Global;

/// A call that changed a file, or synced it.
#[derive(Drop)]
pub enum Call {
    /// These bytes were appended.
    Append(Vec<u8>),
    /// It was cut to this many bytes.
    Cut(u64),
    /// All that it holds was synced.
    Sync,
}

/// A file in memory: what it held at first, each call since, and what it holds. It takes `room` more bytes, and then appends
/// fail, as on a full disk. Where memory is refused, a call that would change or sync it fails. Its syncs can be made to
/// fail.
#[derive(Drop)]
pub struct MemoryFile {
    alloc: Global,
    // What it held at first.
    start: Vec<u8>,
    // The calls since then.
    calls: Vec<Call>,
    // What it holds.
    bytes: Vec<u8>,
    // How many more bytes it takes.
    room: usize,
    // Whether its syncs fail.
    fails: bool,
    // Whether a sync of it has failed, for want of memory too.
    doubted: bool,
    // The calls made `bytes` out of `start`.
    ghost same: { bytes.items ≡ content (life_by start.items calls.items) },
}

impl MemoryFile {
    /// A file that holds these bytes, all of them on the disk, and has room for `room` more. `None` where memory was refused.
    pub fn new(alloc: Global, start: &[u8], room: usize) -> Option<MemoryFile> {
        let (Ok(first), Ok(bytes)) = (start.to_vec(alloc), start.to_vec(alloc)) else {
            return None;
        };
        Some(MemoryFile {
            alloc,
            start: first,
            calls: Vec::new(alloc),
            bytes,
            room,
            fails: false,
            doubted: false,
        })
    }

    /// Makes each sync of the file fail from now on.
    pub fn fail_syncs(&mut self) {
        self.fails = true;
    }

    /// The bytes that the file holds.
    pub fn bytes(&self) -> &[u8] {
        &self.bytes
    }
}

// Makes a call, after which the file holds `next`: adds it to the file's calls, and sets its bytes to `next`. It fails, and changes
// nothing, where memory was refused.
fn make_call(
    calls: &mut Vec<Call>,
    bytes: &mut Vec<u8>,
    call: Call,
    next: Vec<u8>,
) -> Result<(), PortFailed>
    requires { next.items ≡ stepped bytes.old.items (step_of call) }
    ensures same { (start : List ℕ) → HoldsAfter start calls.old.items bytes.old.items → HoldsAfter start calls.new.items bytes.new.items }
    ensures step { (start : List ℕ) → MakesCall start calls.old.items calls.new.items result call }
{
    match calls.push(call) {
        Ok(()) => {
            *bytes = next;
            Ok(())
        }
        Err(_) => Err(PortFailed),
    }
}

impl Appending for MemoryFile {
    ghost life = { λ m. Some (life_by m.start.items m.calls.items) };

    ghost doubted = { λ m. m.doubted };

    fn is_doubted(&self) -> bool {
        self.doubted
    }

    fn len(&self) -> Result<u64, PortFailed> {
        Ok(self.bytes.len() as u64)
    }

    // Copies the bytes from place `at` on, as many as there are and `buf` has room for.
    fn read_at(&self, at: u64, buf: &mut [u8]) -> Result<usize, PortFailed> {
        let from = (at as usize).min(self.bytes.len());
        let n = buf.len().min(self.bytes.len() - from);
        buf[..n].copy_from_slice(&self.bytes[from..from + n]);
        Ok(n)
    }

    // Keeps the first `len` bytes. It fails where memory was refused.
    fn cut(&mut self, len: u64) -> Result<(), PortFailed> {
        let Ok(next) = self.bytes[..(len as usize).min(self.bytes.len())].to_vec(self.alloc) else {
            return Err(PortFailed);
        };
        make_call(&mut self.calls, &mut self.bytes, Call::Cut(len), next)
    }

    // Appends as many of these bytes as there is room for. It fails where there is no room, or memory was refused.
    fn append(&mut self, bytes: &[u8]) -> Result<usize, PortFailed> {
        let n = bytes.len().min(self.room);
        if n == 0 {
            return Err(PortFailed);
        }
        let Ok(piece) = bytes[..n].to_vec(self.alloc) else {
            return Err(PortFailed);
        };
        let Ok(mut next) = self.bytes.to_vec(self.alloc) else {
            return Err(PortFailed);
        };
        let Ok(()) = next.extend_from_slice(&bytes[..n]) else {
            return Err(PortFailed);
        };
        match make_call(&mut self.calls, &mut self.bytes, Call::Append(piece), next) {
            Ok(()) => {
                self.room -= n;
                Ok(n)
            }
            Err(failed) => Err(failed),
        }
    }

    // Makes a sync. It fails, and leaves the file in doubt, where its syncs were made to fail, or memory was refused.
    fn sync(&mut self) -> Result<(), PortFailed> {
        let next = self.bytes.to_vec(self.alloc);
        let (false, Ok(next)) = (self.fails, next) else {
            self.doubted = true;
            return Err(PortFailed);
        };
        match make_call(&mut self.calls, &mut self.bytes, Call::Sync, next) {
            Ok(()) => Ok(()),
            Err(failed) => {
                self.doubted = true;
                Err(failed)
            }
        }
    }
}
