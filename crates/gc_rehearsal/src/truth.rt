//! The truth of a reply: the request on which the instrument made it.

use gc_lines::Line;

/// A reply that a read gave, and the request on which the instrument made it. If the instrument sent a stored reply again, the
/// request is the one on which it first sent that reply. Times are in milliseconds since the line was made.
#[derive(Drop)]
pub struct Truth {
    /// Which request it was: how many the station had put before it since the line was made, null procedures apart. Also those count
    /// that were cut, or that found no connection.
    pub request: u64,
    /// When that request was written.
    pub sent: u64,
    /// When a read gave the reply.
    pub given: u64,
    /// The line of that request, with its id and without CR LF, as it was written.
    pub asked: Line,
    /// The line of the reply, without CR LF, as it came.
    pub reply: Line,
    /// Whether bytes of the reply were altered on the way, or of the request on which it was sent, or of the one that it answers.
    pub is_damaged: bool,
    /// Whether the instrument sent the reply late, after it had said busy.
    pub is_late: bool,
}
