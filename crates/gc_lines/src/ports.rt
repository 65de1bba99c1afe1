//! Where bytes come from and where they go. A port that has failed stays failed.

ghost use Rattle.std.specs.Prelude.{◌≡◌, ℕ, List, Option, Some, Bool, true, ◌<◌, length, OnOk};
ghost use Rattle.gc_lines.specs.Faults.{port_text};
ghost use Rattle.std.specs.Io.KnownBytes.{Keeps};
ghost use Rattle.gc_lines.specs.Ports.{GivesBytes, CountsRead, Fails, TakesBytes};

use std::error::Error;
use std::fmt;

/// A call of a port failed, and so will each later one.
#[derive(Clone, Copy, Debug, PartialEq, Eq)]
pub struct PortFailed;

impl fmt::Display for PortFailed {
    ghost output = { λ _. Some port_text };

    fn fmt<W: fmt::Write>(&self, f: &mut fmt::Formatter<W>) -> fmt::Result {
        f.write_str("the port has failed")
    }
}

impl Error for PortFailed {}

/// Where bytes come from.
///
/// An implementor says with `remaining` which bytes reads will still give, or `None` where that is not known, as of a socket.
/// `reads` counts the answered reads, and `ended` says whether the last of them was the end. Where a read fails, both stay as
/// they are. `failed` is true from the first failed read on.
pub trait Source {
    /// The bytes that reads will still give, where they are known.
    ghost remaining: { Self → Option (List ℕ) };

    /// How many reads were answered.
    ghost reads: { Self → ℕ };

    /// Whether the last answered read was the end. Nothing is claimed of it before the first one.
    ghost ended: { Self → Bool };

    /// Whether a read has failed.
    ghost failed: { Self → Bool };

    /// Reads some bytes into the front of `buf`, which is not empty, and returns how many. `Ok(0)` is the end of the input.
    ///
    /// It fails exactly where `has_failed` is true afterwards. A read that fails gives no bytes.
    fn read(&mut self, buf: &mut [u8]) -> Result<usize, PortFailed>
        requires { 0 < length buf.old }
        ensures bytes { GivesBytes (remaining self.old) (remaining self.new) result buf.new }
        ensures counts { CountsRead (reads self.old) (reads self.new) (ended self.old) (ended self.new) result }
        ensures fails { Fails (failed self.old) (failed self.new) result };

    /// Whether a read has failed.
    fn has_failed(&self) -> bool
        ensures { result ≡ failed self.now };
}

/// Where bytes go.
///
/// An implementor says with `taken` which bytes it has taken, or `None` where that is not known, as of a socket. `failed` is
/// true at the latest from the first failed write on, and of a `Durable` sink also from the first failed sync on.
pub trait Sink {
    /// The bytes that were taken, where they are known.
    ghost taken: { Self → Option (List ℕ) };

    /// Whether the sink takes nothing any more: a write has failed, or a sync of a `Durable` sink; or it had no room from the
    /// beginning.
    ghost failed: { Self → Bool };

    /// Takes bytes from the front of `bytes`, which is not empty, and returns how many: at least one.
    ///
    /// It fails exactly where `has_failed` is true afterwards. A write that fails takes no bytes.
    fn write(&mut self, bytes: &[u8]) -> Result<usize, PortFailed>
        requires { 0 < length bytes.now }
        ensures bytes { TakesBytes (taken self.old) (taken self.new) result bytes.now }
        ensures fails { Fails (failed self.old) (failed self.new) result };

    /// Whether the sink takes nothing any more: a write has failed, or a sync of a `Durable` sink; or it had no room from the
    /// beginning.
    fn has_failed(&self) -> bool
        ensures { result ≡ failed self.now };
}

/// A sink whose bytes can be made to last, as those of a file do once the disk has them.
///
/// An implementor says with `is_durable` whether the bytes that were taken outlast what the sink is meant to outlast: a crash, for a
/// file that is synced. The end of a pipe is meant to outlast nothing, so its bytes always do.
pub trait Durable: Sink {
    /// Whether the bytes that were taken outlast what this sink is meant to outlast, such as a crash.
    ghost is_durable: { Self → Bool };

    /// Makes all bytes that were taken outlast what this sink is meant to outlast. It takes no bytes, and fails exactly where
    /// `has_failed` is true afterwards.
    fn sync(&mut self) -> Result<(), PortFailed>
        ensures is_durable { OnOk result (is_durable self.new ≡ true) }
        ensures same { Keeps (Self.taken self.old) (Self.taken self.new) }
        ensures fails { Fails (Self.failed self.old) (Self.failed self.new) result };
}
