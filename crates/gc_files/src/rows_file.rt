//! A sink whose bytes stay in a file: a row is appended as it ends, and synced where that is asked for.

ghost use Rattle.std.specs.Prelude.{◌≡◌, ◌<◌, ◌⊎◌, ◌++◌, ◌∷◌, [], true, false, length, Some, OnOk, IsTrue};
ghost use Rattle.gc_files.specs.Files.{IsKeptFile, Makes};
ghost use Rattle.gc_files.specs.Noted.{MayNoteSync, Notes, append_front};
ghost use Rattle.gc_files.specs.Rows.{cuts_none, appended, whole, Puts};
ghost use Rattle.gc_files.specs.Runs.{synced};
ghost use Rattle.std.specs.Io.KnownBytes.{Keeps};
ghost use Rattle.gc_lines.specs.Ports.{TakesBytes, Fails};

use crate::appending::Appending;
use crate::opening::whole_len;
use crate::past::{Done, Past};
use gc_lines::{Durable, PortFailed, Sink};

/// How a file of rows is opened.
#[derive(Clone, Copy)]
pub struct RowsOptions {
    /// What a new file gets first: the header of a table, or nothing for rows without a header.
    pub head: &'static [u8],
    /// What each such file begins with: the header of a table, or for rows without a header what each of them begins with.
    pub sign: &'static [u8],
    /// Whether a sync of the sink syncs the file, so that what was appended before is on the disk once the sync succeeded.
    pub sync: bool,
}

/// A file that rows are appended to, as a sink. What was appended since its opening counts as taken, also over a file of the
/// system. After a failure it stays failed, so that no row follows half of another.
#[derive(Drop)]
pub struct RowsFile<F: Appending> {
    file: F,
    // How the file was opened.
    options: RowsOptions,
    // How many bytes of a torn last row the opening cut off.
    torn: u64,
    // Whether something that the file holds may not be on the disk.
    unkept: bool,
    // Whether a write or a sync has failed.
    broken: bool,
    // Whether the last byte that was appended since the opening ended a row, or none was.
    ends_line: bool,
    // What was done to the file since it was opened, for proofs alone.
    past: Past,
    // Since its opening the file was only appended to and synced.
    ghost only_appends: { cuts_none past.steps ≡ true },
    // Where `ends_line` is true, what was appended since the opening is whole rows.
    ghost whole_rows: { ends_line ≡ true → whole (appended past.steps) ≡ appended past.steps },
    // Where `unkept` is false, all that was appended since the opening was appended before a sync.
    ghost kept: { unkept ≡ false → synced past.steps ≡ appended past.steps },
    // Where `unkept` is false, all that the file holds is on the disk.
    ghost durable: { unkept ≡ false → IsKeptFile (F.life file) },
}

impl<F: Appending> RowsFile<F> {
    ghost use Rattle.gc_files.specs.Sinks.{life_in, has_failed, torn_in, asks_sync, ends_line, is_durable, steps_in, taken_in, HasOptions};

    // A sink over a file that ends in a whole row, or has none, after its opening cut off `torn` bytes. What the file holds may
    // not be on the disk yet.
    pub(crate) fn new(file: F, options: RowsOptions, torn: u64) -> RowsFile<F>
        ensures life { life_in result ≡ F.life file }
        ensures failed { has_failed result ≡ false }
        ensures torn { torn_in result ≡ torn }
        ensures asked { HasOptions options result }
        ensures fresh { steps_in result ≡ [] }
    {
        RowsFile {
            file,
            options,
            torn,
            unkept: true,
            broken: false,
            ends_line: true,
            past: Past::new(),
        }
    }

    /// How the file was opened.
    pub fn options(&self) -> RowsOptions
        ensures { HasOptions result self.now }
    {
        self.options
    }

    /// How many bytes of a torn last row the opening of the file cut off.
    pub fn torn(&self) -> u64
        ensures { result ≡ torn_in self.now }
    {
        self.torn
    }

    /// Whether the last byte that was appended since the opening ended a row, or none was: whether the rows can go on elsewhere.
    pub fn ends_line(&self) -> bool
        ensures is { result ≡ ends_line self.now }
        ensures whole { result ≡ true → whole (taken_in self.now) ≡ taken_in self.now }
    {
        self.ends_line
    }

    // Ends the sink: returns the file, and whether all that it holds is known to be on the disk. Where some of it may not be, the
    // file is synced first, also after a failed write, unless it is in doubt.
    pub(crate) fn finish(self) -> (F, bool)
        ensures { IsTrue result.1 → IsKeptFile (F.life result.0) }
    {
        let RowsFile {
            mut file,
            options: _,
            torn: _,
            unkept,
            broken: _,
            ends_line: _,
            past: _,
        } = self;
        if !unkept {
            return (file, true);
        }
        if file.is_doubted() {
            return (file, false);
        }
        let is_kept = file.sync().is_ok();
        (file, is_kept)
    }

    /// What was done to the file since it was opened.
    pub fn past(&self) -> &Past
        ensures is { result.now.steps ≡ steps_in self.now }
        ensures puts { Puts (steps_in self.now) (taken_in self.now) }
        ensures is_durable { is_durable self.now ≡ true → asks_sync self.now ≡ true → synced (steps_in self.now) ≡ taken_in self.now }
    {
        &self.past
    }

    /// The file behind the sink. Where the sink is durable and was opened with `sync`, a crash leaves all that was taken.
    pub fn file(&self) -> &F
        ensures is { F.life result.now ≡ life_in self.now }
        ensures is_durable { is_durable self.now ≡ true → asks_sync self.now ≡ true → IsKeptFile (life_in self.now) }
    {
        &self.file
    }
}

impl<F: Appending> Sink for RowsFile<F> {
    ghost use Rattle.gc_files.specs.Sinks.{known_content, life_in, has_failed, asks_sync, steps_in, taken_in};

    ghost taken = { λ r. Some (taken_in r) };

    ghost failed = { λ r. r.broken };

    // Appends bytes to the file, as many as it takes at once, and returns how many. A sink that has failed takes nothing more.
    fn write(&mut self, bytes: &[u8]) -> Result<usize, PortFailed>
        requires { 0 < length bytes.now }
        ensures bytes { TakesBytes (Some (taken_in self.old)) (Some (taken_in self.new)) result bytes.now }
        ensures fails { Fails (has_failed self.old) (has_failed self.new) result }
        // One piece is appended and noted, or none where the call failed.
        ensures content { TakesBytes (known_content (life_in self.old)) (known_content (life_in self.new)) result bytes.now }
        ensures step { Makes (life_in self.old) (life_in self.new) result (append_front bytes.now) }
        ensures noted { Notes (steps_in self.old) (steps_in self.new) result (append_front bytes.now) }
        ensures sync { asks_sync self.new ≡ asks_sync self.old }
    {
        if self.broken {
            return Err(PortFailed);
        }
        self.unkept = true;
        match self.file.append(bytes) {
            Ok(n) => {
                let taken = &bytes[..n];
                self.ends_line = whole_len(taken) == taken.len();
                self.past = self.past.then(&Done::Append(taken));
                Ok(n)
            }
            Err(why) => {
                self.broken = true;
                Err(why)
            }
        }
    }

    fn has_failed(&self) -> bool {
        self.broken
    }
}

impl<F: Appending> Durable for RowsFile<F> {
    ghost use Rattle.gc_files.specs.Sinks.{MayAddSync, known_content, life_in, has_failed, asks_sync, is_durable, steps_in, taken_in};

    ghost is_durable = { λ r. is_durable r };

    /// Syncs the file, where it was opened with `sync`: after `Ok` a crash leaves all that was taken. It does nothing where the
    /// file was opened without `sync`, or where the sink has synced it before, and nothing was appended since.
    ///
    /// It fails where the sink has failed before, or where it would sync the file, and that fails or the file is in doubt. From then on
    /// the sink counts as failed.
    fn sync(&mut self) -> Result<(), PortFailed>
        ensures is_durable { OnOk result (is_durable self.new ≡ true) }
        ensures same { Keeps (Some (taken_in self.old)) (Some (taken_in self.new)) }
        ensures fails { Fails (has_failed self.old) (has_failed self.new) result }
        ensures content { Keeps (known_content (life_in self.old)) (known_content (life_in self.new)) }
        ensures noted { MayNoteSync (steps_in self.old) (steps_in self.new) }
        ensures lasts { OnOk result (asks_sync self.new ≡ true → synced (steps_in self.new) ≡ taken_in self.new) }
        ensures kept { OnOk result (asks_sync self.new ≡ true → IsKeptFile (life_in self.new)) }
        ensures steps { MayAddSync (life_in self.old) (life_in self.new) }
        ensures idle { asks_sync self.old ≡ false → life_in self.new ≡ life_in self.old }
        ensures sync { asks_sync self.new ≡ asks_sync self.old }
    {
        if self.broken {
            return Err(PortFailed);
        }
        if !self.options.sync || !self.unkept {
            return Ok(());
        }
        // No sync of a file in doubt says that its bytes are on the disk.
        if self.file.is_doubted() {
            self.broken = true;
            return Err(PortFailed);
        }
        match self.file.sync() {
            Ok(()) => {
                self.past = self.past.then(&Done::Sync);
                self.unkept = false;
                Ok(())
            }
            Err(failed) => {
                self.broken = true;
                Err(failed)
            }
        }
    }
}
