//! A pipe: what one port writes into it, another reads out of it, in one thread. No contract knows the bytes in it.

ghost use Rattle.std.specs.Prelude.{◌≡◌, ◌≤◌, ◌<◌, None, false, length};

use gc_lines::{PortFailed, Sink, Source};
use std::alloc::Global;
use std::cell::RefCell;
use std::collections::VecDeque;

/// Bytes that were written and not read yet.
#[derive(Drop)]
pub struct Pipe {
    bytes: RefCell<VecDeque<u8>>,
}

impl Pipe {
    /// An empty pipe.
    pub fn new(alloc: Global) -> Pipe {
        Pipe {
            bytes: RefCell::new(VecDeque::new(alloc)),
        }
    }

    /// An end that reads. It answers `answers` reads and fails from the next one on. A read of an empty pipe is the end.
    pub fn source(&self, answers: u64) -> PipeSource<'_>
        ensures { result.failed ≡ false }
    {
        PipeSource {
            pipe: self,
            answers,
            reads: 0,
            ended: false,
            failed: false,
        }
    }

    /// An end that writes. It takes up to `most` bytes for each call, as many of them as memory allows, answers `answers` writes
    /// and fails from the next one on. A write of which no byte can be stored fails, too, and so does each later one.
    pub fn sink(&self, most: usize, answers: u64) -> PipeSink<'_>
        requires { 0 < most }
        ensures { result.failed ≡ false }
    {
        PipeSink {
            pipe: self,
            most,
            answers_left: answers,
            failed: false,
        }
    }

    // Takes bytes out of the pipe into the front of `buf`, as many as the pipe has and `buf` has room for, and returns how many.
    fn give(&self, buf: &mut [u8]) -> usize
        ensures within { result ≤ length buf.old }
        ensures same { length buf.new ≡ length buf.old }
    {
        // Never in practice: no call leaves the bytes borrowed.
        let Ok(mut held) = self.bytes.try_borrow_mut() else {
            return 0;
        };
        let bytes = &mut *held;
        let mut n = 0;
        while n < buf.len() {
            let Some(byte) = bytes.pop_front() else {
                return n;
            };
            buf[n] = byte;
            n += 1;
        }
        n
    }

    // Stores these bytes, from the first on, as far as memory allows, and returns how many it stored.
    fn store(&self, bytes: &[u8]) -> usize
        ensures { result ≤ length bytes.now }
    {
        // Never in practice: no call leaves the bytes borrowed.
        let Ok(mut held) = self.bytes.try_borrow_mut() else {
            return 0;
        };
        let stored = &mut *held;
        for (n, byte) in bytes.iter().enumerate() {
            if stored.push_back(*byte).is_err() {
                return n;
            }
        }
        bytes.len()
    }
}

/// The end of a pipe that reads.
#[derive(Drop)]
pub struct PipeSource<'a> {
    pipe: &'a Pipe,
    // How many reads are answered in all.
    answers: u64,
    // How many reads were answered.
    reads: u64,
    // Whether the last answered read was the end.
    ended: bool,
    // Whether a read has failed.
    failed: bool,
}

impl<'a> Source for PipeSource<'a> {
    ghost remaining = { λ _. None };

    ghost reads = { λ s. s.reads };

    ghost ended = { λ s. s.ended };

    ghost failed = { λ s. s.failed };

    fn read(&mut self, buf: &mut [u8]) -> Result<usize, PortFailed> {
        if self.failed || self.reads >= self.answers {
            self.failed = true;
            return Err(PortFailed);
        }
        let n = self.pipe.give(buf);
        self.reads += 1;
        self.ended = n == 0;
        Ok(n)
    }

    fn has_failed(&self) -> bool {
        self.failed
    }
}

/// The end of a pipe that writes.
#[derive(Drop)]
pub struct PipeSink<'a> {
    pipe: &'a Pipe,
    // How many bytes are taken for each call at most.
    most: usize,
    // How many more writes are answered, unless one fails because memory runs out: after that none is.
    answers_left: u64,
    // Whether a write has failed.
    failed: bool,
}

impl<'a> Sink for PipeSink<'a> {
    ghost taken = { λ _. None };

    ghost failed = { λ s. s.failed };

    fn write(&mut self, bytes: &[u8]) -> Result<usize, PortFailed> {
        if self.failed || self.answers_left == 0 {
            self.failed = true;
            return Err(PortFailed);
        }
        let offered = self.most.min(bytes.len());
        let n = self.pipe.store(&bytes[..offered]);
        if n == 0 {
            self.failed = true;
            return Err(PortFailed);
        }
        self.answers_left -= 1;
        Ok(n)
    }

    fn has_failed(&self) -> bool {
        self.failed
    }
}
