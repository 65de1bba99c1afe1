//! How often a line of one kind is written.

/// Limits how often a line of one kind is written.
#[derive(Clone, Copy)]
pub struct RateLimit {
    // When a line was granted last, also one that couldn't be written, in milliseconds of the clock for deadlines. `None`: none was
    // yet.
    last: Option<u64>,
}

impl RateLimit {
    /// No line of this kind was written yet.
    pub fn new() -> RateLimit {
        RateLimit { last: None }
    }

    /// Claims the writing of a line of this kind at `elapsed`, by the clock for deadlines. It is granted if there was none, or the
    /// last one is at least `apart` milliseconds old, and then a line counts as written now. Returns whether it is granted.
    pub fn claim(&mut self, elapsed: u64, apart: u64) -> bool {
        let is_granted = match self.last {
            Some(last) => elapsed.saturating_sub(last) >= apart,
            None => true,
        };
        if is_granted {
            self.last = Some(elapsed);
        }
        is_granted
    }
}
