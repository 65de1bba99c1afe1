//! What a client reports of a line that it took.

use crate::settlement::Settlement;
use crate::window::WINDOW;
use arrayvec::ArrayVec;
use gc_lines::LineFault;

/// What a client reports of a line, with the settlements.
#[derive(PartialEq, Eq, Drop)]
pub enum Heard<Q> {
    /// The line is the reply to a request that waits. The list holds the settlement of each request that was sent before
    /// that request, and then its own, in the order of sending.
    Settled(ArrayVec<Settlement<Q>, WINDOW>),
    /// The line is a reply, and no request waits for it: it has no id, or one that nothing waits with.
    Stray,
    /// The line is no reply; the fault names its first faulty field.
    Unread(LineFault),
}

/// What a client reports of a line, without the settlements, which it wrote into a list of the caller's.
#[derive(Clone, Copy, PartialEq, Eq)]
pub enum Hearing {
    /// The line is the reply to a request that waits. The caller's list holds the settlement of each request that was
    /// sent before that request, and then its own, in the order of sending.
    Settled,
    /// The line is a reply, and no request waits for it: it has no id, or one that nothing waits with.
    Stray,
    /// The line is no reply; the fault names its first faulty field. Of a line of more than 512 bytes it is `TooLong`.
    Unread(LineFault),
}
