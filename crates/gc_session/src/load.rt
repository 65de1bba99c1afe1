//! What counts of a client's requests when something is to be sent.

ghost use Rattle.std.specs.Prelude.{◌≡◌};
ghost use Rattle.gc_session.specs.Choices.{width_within};

/// What is outstanding, and what the client allows. Times are in milliseconds of the caller's clock.
#[derive(Clone, Copy)]
pub struct Load {
    /// How many requests that haven't timed out may be outstanding.
    pub width: u8,
    /// The longest wait of a request for its reply.
    pub patience: u64,
    /// The last moment that the client was told.
    pub now: u64,
    /// All outstanding requests.
    pub all: usize,
    /// Those of `all` that haven't timed out.
    pub current: usize,
}

/// The width that counts for one that was chosen: a number outside of 1 to 7 counts as the nearest of these.
pub fn width_within(width: u8) -> u8
    ensures { result ≡ width_within width }
{
    width.max(1).min(7)
}
