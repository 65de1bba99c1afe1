//! A file that is only appended to and cut at its end: what its calls do to it, and what a crash may leave of it.

ghost use Rattle.std.specs.Prelude.{◌≡◌, ◌<◌, ◌≤◌, Bool, true, false, Option, length, take, IfOk, OnOk, OnErr};
ghost use Rattle.gc_files.specs.Files.{Life, Append, Cut, Sync, content, IfKnown, IsKeptFile, Makes, ReadsAt};
ghost use Rattle.gc_files.specs.Rows.{IsLengthOf};

use gc_lines::PortFailed;

/// A file that is only appended to, and cut at its end.
///
/// An implementor says with `life` what it held and what was done to it, or `None` where that isn't known, as of a file of the
/// system. A call that fails has changed nothing.
///
/// But a sync that failed leaves the file in doubt: the system may have dropped bytes that it couldn't write, still return them, and
/// count them as written. No later sync of that file says that they are on the disk.
pub trait Appending {
    /// What the file held when the machine started, and the calls since then.
    ghost life: { Self → Option Life };

    /// Whether the file is in doubt.
    ghost doubted: { Self → Bool };

    /// Whether the file is in doubt: a sync of it failed, or may have.
    fn is_doubted(&self) -> bool
        ensures { result ≡ doubted self.now };

    /// How many bytes the file holds.
    fn len(&self) -> Result<u64, PortFailed>
        ensures { IfOk result (λ n. IsLengthOf (life self.now) n) };

    /// Reads some of the bytes after the first `at` into the front of `buf`, which is not empty, and returns how many: 0
    /// only where there are none.
    fn read_at(&self, at: u64, buf: &mut [u8]) -> Result<usize, PortFailed>
        requires { 0 < length buf.old }
        ensures room { IfOk result (λ n. n ≤ length buf.new) }
        ensures bytes { IfOk result (λ n. IfKnown (life self.now) (λ known. ReadsAt known at n buf.new)) };

    /// Cuts the file to its first `len` bytes; it holds at least that many.
    fn cut(&mut self, len: u64) -> Result<(), PortFailed>
        requires { IfKnown (life self.old) (λ known. len ≤ length (content known)) }
        ensures { Makes (life self.old) (life self.new) result (λ _. Cut len) };

    /// Appends bytes from the front of `bytes`, which is not empty, and returns how many: at least one.
    fn append(&mut self, bytes: &[u8]) -> Result<usize, PortFailed>
        requires { 0 < length bytes.now }
        ensures count { IfOk result (λ n. (0 < n) × (n ≤ length bytes.now)) }
        ensures step { Makes (life self.old) (life self.new) result (λ n. Append (take n bytes.now)) };

    /// Syncs all that the file holds. After `Ok` a crash leaves all of it, unless the file was in doubt. After `Err` the file
    /// is in doubt.
    fn sync(&mut self) -> Result<(), PortFailed>
        ensures durable { OnOk result (doubted self.old ≡ false → IsKeptFile (life self.new)) }
        ensures doubt { OnErr result (doubted self.new ≡ true) }
        ensures step { Makes (life self.old) (life self.new) result (λ _. Sync) };
}
