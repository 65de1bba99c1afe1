//! Counts of what happened on a line.

/// How often each of these happened since a line was made. A count that has reached the greatest `u64` stays there.
#[derive(Clone, Copy)]
pub struct Counts {
    /// Requests that were written whole.
    pub requests: u64,
    /// Replies that reads gave.
    pub replies: u64,
    /// Fates that lost a line, in either direction, also a reply that the instrument didn't make, and replies for which a reader
    /// had no room. A request that is cut, and lines that are lost otherwise, as by a close or where memory is refused, aren't
    /// counted.
    pub lost: u64,
    /// Fates that let a line arrive twice and don't lose it, in either direction, also of a reply that the instrument didn't
    /// make, and also if memory is refused for the second copy; but not of a request that is cut.
    pub repeated: u64,
    /// Lines of which bytes were altered, in either direction.
    pub altered: u64,
    /// Fates with a hold, in either direction, also of a reply that the instrument didn't make; but not of a request that is cut.
    pub holds: u64,
    /// Fates by which the other end closes the connection, at once or at a later moment, also if it is closed before that. One that comes
    /// without a connection isn't counted.
    pub closes: u64,
    /// How often the line began to refuse connections.
    pub refusals: u64,
    /// Restarts of the instrument.
    pub restarts: u64,
    /// Replies that the instrument sent late, after it had said busy.
    pub late: u64,
}

impl Counts {
    /// All counts 0.
    pub(crate) fn new() -> Counts {
        Counts {
            requests: 0,
            replies: 0,
            lost: 0,
            repeated: 0,
            altered: 0,
            holds: 0,
            closes: 0,
            refusals: 0,
            restarts: 0,
            late: 0,
        }
    }
}
