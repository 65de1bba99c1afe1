//! Pendings: requests that were sent and wait for their reply.

/// A request that was sent and is not settled.
#[derive(Clone, Copy, PartialEq, Eq)]
pub struct Pending<Q> {
    /// Whom it is for: a number of the caller's own, which is returned with the settlement.
    pub target: u32,
    /// What it asks for.
    pub call: Q,
    /// The moment from which on `expire` times it out, on the caller's own clock.
    pub deadline: u64,
    /// Whether it has timed out. It goes on waiting then, and a reply to it settles it as late.
    pub given_up: bool,
}
