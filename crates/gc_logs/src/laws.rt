//! What is proved of a log, and of files of rows that take rows in turn. The functions do nothing: their contracts are the laws.

ghost use Rattle.gc_logs.specs.Logging.{LogKeepsAll};
ghost use Rattle.gc_logs.specs.Files.{LogsKeepTheNewest};
ghost use Rattle.gc_logs.specs.Ways.{MarksTellTheWay};
ghost use Rattle.gc_logs.specs.Following.{EarlierFilesLast};
ghost use Rattle.gc_logs.specs.declared.following.Followed.{Followed};

/// The log has all bytes of each direction, unless its sink fails: those in its lines, followed by the pending bytes, which
/// aren't written yet, are all bytes sent, or all received, in order.
pub fn log_keeps_all()
    ensures { LogKeepsAll }
{}

/// The mark of each line of sent bytes, complete or in part, begins with `>`, and that of each line of received bytes with `<`.
pub fn marks_tell_the_way()
    ensures { MarksTellTheWay }
{}

/// No line of a log is split over two of its files: the older file and the present one together have the newest lines, each whole and in
/// order, and none is missing between them. The lines before them were in files that others have taken the place of, or at other paths.
pub fn logs_keep_the_newest()
    ensures { LogsKeepTheNewest }
{}

/// What was appended to each file that took rows before the present one is whole rows: no row is in two files. If the files sync,
/// then whatever a kill or a crash of the machine leaves of such a file, the next opening makes of it the table that was there before, rows
/// of earlier runs, and each row that was appended to it.
pub fn earlier_files_last<R>()
    ensures { (followed : Followed R) → EarlierFilesLast followed }
{}
