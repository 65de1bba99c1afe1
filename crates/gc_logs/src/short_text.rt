//! A text of bounded length: what has no room in it is left out.

use arrayvec::ArrayVec;
use std::io::{self, Write};

/// The first bytes of what was written, N at most.
#[derive(Drop)]
pub struct ShortText<const N: usize> {
    pub bytes: ArrayVec<u8, N>,
}

impl<const N: usize> ShortText<N> {
    /// An empty text.
    pub fn new() -> ShortText<N> {
        ShortText {
            bytes: ArrayVec::new(),
        }
    }
}

impl<const N: usize> Write for ShortText<N> {
    // Takes the bytes that there is room for, and discards the others. It never fails.
    fn write(&mut self, buf: &[u8]) -> io::Result<usize> {
        let _ = self.bytes.write(buf);
        Ok(buf.len())
    }

    fn flush(&mut self) -> io::Result<()> {
        Ok(())
    }
}
