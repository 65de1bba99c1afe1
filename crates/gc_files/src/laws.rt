//! What is proved of files of rows over all runs and crashes. The functions have no effect: their contracts are the laws.

ghost use Rattle.gc_files.specs.Failing.{TablesOutlastFailures, CopiesAreNeeded};
ghost use Rattle.gc_files.specs.InTurn.{LeftFilesLast};
ghost use Rattle.gc_files.specs.Runs.{TablesLast, KillsLoseNothing, CallsAreRuns};

/// The table lasts over any runs. Each run opens the file, appends rows, and ends by itself, by a kill or by a crash of the
/// machine. Whatever a read returns after the runs, or a crash leaves, the next opening makes a table of it: the header, if
/// the table has one, the rows that it had before the runs, and then the first rows of each run, in order: at least those
/// before a sync that was reported to the run as done, each once, none in part.
pub fn tables_last()
    ensures { TablesLast }
{}

/// Over any runs that end by themselves or by a kill, while the machine goes on, each row that was written completely is in the
/// table, synced or not.
pub fn kills_lose_nothing()
    ensures { KillsLoseNothing }
{}

/// A file that a run leaves after a sync, as its rows go on in another one, lasts whole: whatever a kill or a crash leaves of it from
/// then on, the next opening makes of it the table that it was, with rows of the runs before, and then each row that this run wrote there.
pub fn left_files_last()
    ensures { LeftFilesLast }
{}

/// What the calls of this crate do to a file is a run as `tables_last` has it: an opening with the writes and syncs after it,
/// or an opening that failed. One more sync, after an opening and its writes, keeps all that they appended.
pub fn calls_are_runs()
    ensures { CallsAreRuns }
{}

/// The table also lasts over syncs that fail, after which the system may have dropped bytes that it still returns and counts
/// as written. The premise is that no run goes on in such a file before the machine crashed, or a synced copy has taken the
/// file's place, with its name on the disk.
pub fn tables_outlast_failures()
    ensures { TablesOutlastFailures }
{}

/// If runs may go on in a file of which a sync failed, without a copy, a table doesn't always last: a row can be lost even
/// though a later sync, made after the row was appended, succeeded.
pub fn copies_are_needed()
    ensures { CopiesAreNeeded }
{}
