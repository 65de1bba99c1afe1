//! Standard output of a case, with room for a number of bytes.

use std::alloc::Global;
use std::io::{self, Write};

/// What was written, and how many bytes there is room for yet.
#[derive(Drop)]
pub struct Room {
    pub bytes: Vec<u8>,
    left: u64,
}

impl Room {
    /// An output to which nothing was written yet, with room for `left` bytes.
    pub fn new(alloc: Global, left: u64) -> Room {
        Room {
            bytes: Vec::new(alloc),
            left,
        }
    }
}

impl Write for Room {
    // Stores as many of the bytes as there is room for, and returns how many: 0 once there is no room. `Err`: memory ran out.
    fn write(&mut self, buf: &[u8]) -> io::Result<usize> {
        let left = usize::try_from(self.left).unwrap_or(usize::MAX);
        let taken = left.min(buf.len());
        self.bytes.extend_from_slice(&buf[..taken])?;
        self.left = self.left.saturating_sub(taken as u64);
        Ok(taken)
    }

    fn flush(&mut self) -> io::Result<()> {
        Ok(())
    }
}
