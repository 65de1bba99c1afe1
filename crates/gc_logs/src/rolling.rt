//! A log in files of a bounded size: lines go into the present file, and before a line that has no room in it a new one begins. The file
//! before it, the older one, stays until the next one begins.

ghost use Rattle.std.specs.Prelude.{◌≡◌, ◌<◌, ◌≤◌, ◌+◌, ◌^◌, ◌||◌, Bool, true, false, length, Some, IfOk, OnOk, OnErr};
ghost use Rattle.gc_lines.specs.Ports.{Fails, TakesBytes};
ghost use Rattle.gc_logs.specs.Files.{IsBegun, LogFiles, IsUnwritten, TurnsTo, RollsOver, Puts, PutsInOne, MakesRoom, StayBelow, EndsLine, EndInLines, bytes_of};

use gc_lines::{PortFailed, Sink};

/// The files of a log.
///
/// An implementor says with `files` what was written into each of them, and how many bytes they have. `failed` is true from the first
/// failed call on.
pub trait Rolls {
    /// What was written into the files, and how many bytes they have.
    ghost files: { Self → LogFiles };

    /// Whether a call has failed.
    ghost failed: { Self → Bool };

    /// How many bytes the present file has.
    fn size(&self) -> u64
        ensures { result ≡ (files self.now).size };

    /// Sees to it that the present file is the one for a line that begins with these bytes: if that is at another path than the lines
    /// before, they go on there.
    fn turn_to(&mut self, line: &[u8]) -> Result<(), PortFailed>
        ensures turns { TurnsTo (files self.old) (files self.new) result }
        ensures fails { Fails (failed self.old) (failed self.new) result };

    /// Begins a new file in place of the present one, which takes the place of the older one. If the path doesn't lead to the present
    /// one any more, lines go on in the file that is there now.
    fn roll(&mut self) -> Result<(), PortFailed>
        ensures rolls { RollsOver (files self.old) (files self.new) result }
        ensures fails { Fails (failed self.old) (failed self.new) result };

    /// Appends bytes from the front of `bytes` to the present file, and returns how many: at least one.
    fn write(&mut self, bytes: &[u8]) -> Result<usize, PortFailed>
        requires some { 0 < length bytes.now }
        requires room { (files self.old).size + length bytes.now < 2 ^ 64 }
        ensures puts { Puts (files self.old) (files self.new) result bytes.now }
        ensures fails { Fails (failed self.old) (failed self.new) result };

    /// Whether a call has failed.
    fn has_failed(&self) -> bool
        ensures { result ≡ failed self.now };
}

/// A sink of lines over the files of a log, none of which grows above a bound. Before a line that has no room in the present file it begins a
/// new one, so that both files together have the newest lines. No line is split over two files, into however many writes it is cut: a new
/// file is begun only after a line feed.
///
/// It fails if a call of the files fails, or if a line has more bytes than a file may have. Once it has failed nothing is written any
/// more.
#[derive(Drop)]
pub struct Rolling<K: Rolls> {
    files: K,
    // The most bytes of a file.
    most: u64,
    // Whether the bytes that were taken last don't end in a line feed, so that the rest of their line is to come.
    in_line: bool,
    // Whether a line had more bytes than a file may have.
    is_ended: bool,
    ghost below: { StayBelow most (K.files files) },
    ghost ends: { EndInLines (K.files files) },
    ghost whole: { in_line ≡ false → EndsLine (K.files files).newest },
}

impl<K: Rolls> Rolling<K> {
    /// A sink over files into which nothing was written yet, and none of which it lets grow above `most` bytes.
    pub fn new(files: K, most: u64) -> Rolling<K>
        requires { IsUnwritten (K.files files) }
        ensures { result.files ≡ files }
    {
        Rolling {
            files,
            most,
            in_line: false,
            is_ended: false,
        }
    }

    /// The files, none of which has grown above the bound, and each but the present one of which ends in a whole line.
    pub fn files(&self) -> &K
        ensures is { result.now ≡ self.now.files }
        ensures below { StayBelow self.now.most (K.files self.now.files) }
        ensures lines { EndInLines (K.files self.now.files) }
    {
        &self.files
    }

    // Whether these bytes have room in the present file.
    fn has_room(&self, bytes: &[u8]) -> bool
        ensures room { result ≡ true → (K.files self.now.files).size + length bytes.now ≤ self.now.most }
        ensures fits { result ≡ true → (K.files self.now.files).size + length bytes.now < 2 ^ 64 }
        ensures full { result ≡ false → self.now.most < (K.files self.now.files).size + length bytes.now }
    {
        let size = self.files.size();
        size <= self.most && bytes.len() as u64 <= self.most - size
    }

    // Begins a new file if one is needed for a line that begins with these bytes: at another path, or in place of the present one. `Err`:
    // the files failed.
    fn begin_line(&mut self, bytes: &[u8]) -> Result<(), PortFailed>
        requires { self.old.in_line ≡ false }
        ensures begun { OnOk result (IsBegun (K.files self.old.files) (K.files self.new.files) bytes.now self.old.most) }
        ensures same { bytes_of (K.files self.new.files) ≡ bytes_of (K.files self.old.files) }
        ensures most { self.new.most ≡ self.old.most }
        ensures ended { self.new.is_ended ≡ self.old.is_ended }
        ensures fails { Fails (K.failed self.old.files) (K.failed self.new.files) result }
    {
        self.files.turn_to(bytes)?;
        if self.has_room(bytes) {
            return Ok(());
        }
        self.files.roll()
    }

    // Makes room for these bytes, which begin a line, or are more of the line that the bytes before them began. `Err`: the files failed, or
    // there is no room for them in the file that has the front of their line, or in an empty one.
    fn make_room(&mut self, bytes: &[u8]) -> Result<(), PortFailed>
        ensures room { OnOk result (MakesRoom (K.files self.old.files) (K.files self.new.files) bytes.now self.old.most) }
        ensures fits { OnOk result ((K.files self.new.files).size + length bytes.now < 2 ^ 64) }
        ensures begun { OnOk result (IsBegun (K.files self.old.files) (K.files self.new.files) bytes.now self.old.most) }
        ensures same { bytes_of (K.files self.new.files) ≡ bytes_of (K.files self.old.files) }
        ensures most { self.new.most ≡ self.old.most }
        ensures ended { OnOk result (self.new.is_ended ≡ self.old.is_ended) }
        ensures stands { OnOk result (K.failed self.old.files ≡ false → K.failed self.new.files ≡ false) }
        ensures fails { OnErr result (self.new.is_ended || K.failed self.new.files ≡ true) }
    {
        if !self.in_line {
            self.begin_line(bytes)?;
        }
        if self.has_room(bytes) {
            return Ok(());
        }
        self.is_ended = true;
        Err(PortFailed)
    }
}

impl<K: Rolls> Sink for Rolling<K> {
    ghost use Rattle.gc_logs.specs.Sinks.{bytes_in, has_ended};

    ghost taken = { λ r. Some (bytes_in r) };

    ghost failed = { λ r. has_ended r };

    // Writes into the present file, after it has begun a new one if the line has no room in that, or belongs at another path. `Err`: the files
    // failed, now or before, or the line has more bytes than a file may have.
    fn write(&mut self, bytes: &[u8]) -> Result<usize, PortFailed>
        requires { 0 < length bytes.now }
        ensures bytes { TakesBytes (Some (bytes_in self.old)) (Some (bytes_in self.new)) result bytes.now }
        ensures fails { Fails (has_ended self.old) (has_ended self.new) result }
        // What is written goes into one file, which has at most as many bytes as a file may have. A new one is begun only if the present
        // one has no room for the line.
        ensures one { IfOk result (λ n. PutsInOne (K.files self.old.files) (K.files self.new.files) n bytes.now self.old.most) }
        ensures below { IfOk result (λ n. (K.files self.new.files).size ≤ self.old.most) }
    {
        if self.has_failed() {
            return Err(PortFailed);
        }
        self.make_room(bytes)?;
        let n = self.files.write(bytes)?;
        self.in_line = bytes[n - 1] != b'\n';
        Ok(n)
    }

    // Whether the files failed, or a line had more bytes than a file may have.
    fn has_failed(&self) -> bool {
        self.is_ended || self.files.has_failed()
    }
}
