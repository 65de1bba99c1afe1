//! The moments of a record, and the run that it belongs to.

use gc_texts::Stamp;

/// When a command was sent and ended, which command of its run it was, and when that run began.
#[derive(Clone, Copy)]
pub struct When {
    /// When its run began, in milliseconds since 1970-01-01, UTC.
    pub run: u64,
    /// When the command was sent and ended, and which one of its run it was.
    pub stamp: Stamp,
}
