//! Files of rows that outlast the program. They are only appended to. The next opening cuts off what a crash left of a row. A
//! file of another kind is refused.
//!
//! Proved, over any file that meets [`Appending`]:
//!
//! - [`open_rows`] touches only a file that begins with the sign, or is a front of it. It cuts off a torn last row, and counts
//!   its bytes. It writes the head where there is no whole row, and nowhere else. The sink says with which head and sign it was
//!   opened, also where the file is one of the system.
//! - What `write` acknowledged is in the file, in order. A sink over a file of the system says so, too ([`RowsFile::past`]).
//!   Where the file was opened with `sync`, a crash leaves all that was acknowledged before a good sync of the sink.
//! - Over any runs and crashes ([`laws::tables_last`]) the next opening makes of the file the table that was there before
//!   and, for each run in order, the first rows of its own: at least those that were kept, each once, none in part. Without
//!   `sync` a crash of the machine may take the last rows of a run, and all rows of the runs after it, but never one in
//!   between.
//! - A file that a run has left ([`Earlier`]), after a sync and where a row had ended, has all rows of that run over any crash
//!   ([`laws::left_files_last`]).
//! - Where only programs end, by themselves or by a kill, each row that went out whole is there, synced or not
//!   ([`laws::kills_lose_nothing`]).
//! - An opening, and what is written and synced after it, is such a run ([`laws::calls_are_runs`]).
//! - A file in which a sync failed is in doubt, and no row goes into it any more: what it holds is copied ([`copy_lines`]), and the
//!   copy takes its place. Then the table stays over failed syncs, too ([`laws::tables_outlast_failures`]), and without copies it
//!   doesn't ([`laws::copies_are_needed`]).
//!
//! Trusted, of a file of the system:
//!
//! - A call that fails has changed nothing. A crash leaves a front of what was appended since the last sync. A sync is kept.
//! - What the file held before the first run is on the disk.
//! - A sync that failed leaves no less than the last good one kept, to a read and on the disk, and in place of what is lost no line
//!   feed.
//!
//! Outside of that are: an append that failed and wrote a part, and a cut that failed and was made; and a crash that leaves bytes
//! without those before them, because the system wrote pages back in another order. A sink appends nothing after a failed call,
//! and the next opening cuts off half a row. No clause says when a file can be opened, which path is refused, and whether a path
//! leads to a file; nor that the mark by which [`open_at`] knows a file in doubt is there, and that a copy takes a file's place
//! in one step.
#![tactic(auto)]

mod appending;
mod beside;
mod copying;
mod earlier;
pub mod laws;
mod memory_file;
mod opening;
mod past;
mod rows_file;
mod system;

pub use appending::Appending;
pub use beside::{end_at, open_at};
pub use copying::copy_lines;
pub use earlier::Earlier;
pub use memory_file::{Call, MemoryFile};
pub use opening::{Refused, open_rows};
pub use past::{Done, Past, Pasts};
pub use rows_file::{RowsFile, RowsOptions};
pub use system::{SystemFile, Unfit, open_file};
