//! The files that took rows before the rows went on in another one: each was left where a row had ended, after a sync if they were
//! opened with `sync`.

ghost use Rattle.std.specs.Prelude.{◌≡◌, [], ◌∷◌, ◌++◌, true};
ghost use Rattle.gc_files.specs.InTurn.{AreOnlyAppendedTo, AreSynced, HaveWholeRows, all_steps};

use crate::appending::Appending;
use crate::past::{Past, Pasts};
use crate::rows_file::RowsFile;

/// The earlier files of a run, in order. What is known of them is for proofs alone.
#[derive(Drop)]
pub struct Earlier {
    // Whether the files were opened with `sync`.
    sync: bool,
    // What was done to each, since it was opened and until it was left.
    pasts: Pasts,
    // Each was only appended to and synced, and what was appended to it is whole rows.
    ghost only_appends: { AreOnlyAppendedTo pasts.files },
    ghost whole_rows: { HaveWholeRows pasts.files },
    // If they were opened with `sync`, all that was appended to each was appended before its last sync.
    ghost kept: { sync ≡ true → AreSynced pasts.files },
}

impl Earlier {
    ghost use Rattle.gc_files.specs.Left.{files_in, syncs};
    ghost use Rattle.gc_files.specs.Sinks.{asks_sync, ends_line, is_durable, steps_in};

    /// No files. `sync` says whether those that come are opened with `sync`.
    pub fn none(sync: bool) -> Earlier
        ensures files { files_in result ≡ [] }
        ensures syncs { syncs result ≡ sync }
    {
        Earlier {
            sync,
            pasts: Pasts::new(),
        }
    }

    /// These files, and after them this one, which is left now: where a row has ended, and if it was opened with `sync`, once all that it
    /// took is on the disk.
    pub fn then<F: Appending>(&self, left: &RowsFile<F>) -> Earlier
        requires ends_line { ends_line left.now ≡ true }
        requires is_durable { is_durable left.now ≡ true }
        requires alike { asks_sync left.now ≡ syncs self.now }
        ensures files { files_in result ≡ files_in self.now ++ steps_in left.now ∷ [] }
        ensures syncs { syncs result ≡ syncs self.now }
    {
        Earlier {
            sync: self.sync,
            pasts: self.pasts.then(left.past()),
        }
    }

    /// What was done to all of these files, one after the other.
    pub fn past(&self) -> Past
        ensures { result.steps ≡ all_steps (files_in self.now) }
    {
        self.pasts.all()
    }
}
