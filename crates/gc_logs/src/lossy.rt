//! Messages that may be lost: where standard error goes to a file on a full disk, a run and its status are as if all were
//! written.

use std::io::{self, ErrorKind, Write};

/// A place for messages that takes all, and loses what the place inside doesn't take. An interrupted write alone fails, so that its
/// caller makes it again.
#[derive(Drop)]
pub struct Lossy<E> {
    pub inner: E,
}

impl<E: Write> Write for Lossy<E> {
    // Writes into the place inside. If that takes nothing, or fails, all bytes are discarded and count as written; only an
    // interruption is handed on.
    fn write(&mut self, buf: &[u8]) -> io::Result<usize> {
        match self.inner.write(buf) {
            Ok(n) if n > 0 => Ok(n),
            Err(error) if error.kind() == ErrorKind::Interrupted => Err(error),
            _ => Ok(buf.len()),
        }
    }

    // Flushes the place inside, and succeeds also if that flush fails.
    fn flush(&mut self) -> io::Result<()> {
        let _ = self.inner.flush();
        Ok(())
    }
}
