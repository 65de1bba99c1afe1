//! What was written into the files of a log, in memory.

ghost use Rattle.std.specs.Prelude.{◌≡◌, ◌+◌, ◌<◌, ◌^◌, ◌++◌, IfOk, OnErr, OnOk, length};
ghost use Rattle.gc_logs.specs.Files.{IsUnwritten, added, elsewhere, rolled};

use gc_probes::Told;
use std::alloc::{AllocError, Global};
use std::marker::Model;
use std::mem;

/// What was written into all files of a log before the older one, into the older one, and into the present one.
#[derive(Drop)]
pub struct Kept {
    alloc: Global,
    earlier: Vec<u8>,
    older: Vec<u8>,
    newest: Vec<u8>,
    // How many bytes the older file and the present one have, with those that the latter had when lines went on in it.
    older_size: u64,
    size: u64,
}

impl Model for Kept {
    ghost use Rattle.gc_logs.specs.Files.{LogFiles};

    ghost Value = { LogFiles };

    ghost view = { λ k. record {
      earlier = k.earlier.items;
      older = k.older.items;
      newest = k.newest.items;
      older_size = k.older_size;
      size = k.size;
    } };
}

impl Kept {
    /// Files into which nothing was written.
    pub fn new(alloc: Global) -> Kept
        ensures { IsUnwritten result }
    {
        Kept {
            alloc,
            earlier: Vec::new(alloc),
            older: Vec::new(alloc),
            newest: Vec::new(alloc),
            older_size: 0,
            size: 0,
        }
    }

    /// How many bytes the present file has.
    pub fn size(&self) -> u64
        ensures { result ≡ self.now.size }
    {
        self.size
    }

    /// Appends bytes to the present file. `Err`: memory ran out, and all is as it was.
    pub fn add(&mut self, bytes: &[u8]) -> Result<(), AllocError>
        requires { self.old.size + length bytes.now < 2 ^ 64 }
        ensures added { OnOk result (self.new ≡ added self.old bytes.now) }
        ensures same { OnErr result (self.new ≡ self.old) }
    {
        self.newest.extend_from_slice(bytes)?;
        self.size += bytes.len() as u64;
        Ok(())
    }

    /// Begins a new file in place of the present one, which takes the place of the older one. `Err`: memory ran out, and all is as it
    /// was.
    pub fn roll(&mut self) -> Result<(), AllocError>
        ensures rolled { OnOk result (self.new ≡ rolled self.old) }
        ensures same { OnErr result (self.new ≡ self.old) }
    {
        self.earlier.extend_from_slice(self.older.as_slice())?;
        self.older = mem::replace(&mut self.newest, Vec::new(self.alloc));
        self.older_size = self.size;
        self.size = 0;
        Ok(())
    }

    /// Lets lines go on in another file, which has `size` bytes already. `Err`: memory ran out, and all is as it was.
    pub fn go_on_in(&mut self, size: u64) -> Result<(), AllocError>
        ensures elsewhere { OnOk result (self.new ≡ elsewhere self.old size) }
        ensures same { OnErr result (self.new ≡ self.old) }
    {
        self.earlier = self.all()?;
        self.older.clear();
        self.newest.clear();
        self.older_size = 0;
        self.size = size;
        Ok(())
    }

    // All that was written, in order. `Err`: memory ran out.
    fn all(&self) -> Result<Vec<u8>, AllocError>
        ensures { IfOk result (λ all. all.items ≡ self.now.earlier ++ (self.now.older ++ self.now.newest)) }
    {
        let both = joined(self.alloc, self.older.as_slice(), self.newest.as_slice())?;
        joined(self.alloc, self.earlier.as_slice(), both.as_slice())
    }

    /// Appends what was written before the older file, and of both files their sizes and what was written into them.
    pub fn tell(&self, came: &mut Told) {
        came.text("before [");
        came.bytes(self.earlier.as_slice());
        came.titled("] older ", &self.older_size);
        came.text(" [");
        came.bytes(self.older.as_slice());
        came.titled("] newest ", &self.size);
        came.text(" [");
        came.bytes(self.newest.as_slice());
        came.text("]");
    }
}

// These bytes, one after the other. `Err`: memory ran out.
fn joined(alloc: Global, front: &[u8], back: &[u8]) -> Result<Vec<u8>, AllocError>
    ensures { IfOk result (λ all. all.items ≡ front.now ++ back.now) }
{
    let mut all = Vec::new(alloc);
    all.extend_from_slice(front)?;
    all.extend_from_slice(back)?;
    Ok(all)
}
