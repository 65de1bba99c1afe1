//! The two directions of the line.

/// A direction of the line.
#[derive(Clone, Copy, PartialEq, Eq)]
pub enum Direction {
    /// From the client to the instrument: requests.
    Up,
    /// From the instrument to the client: replies.
    Down,
}
