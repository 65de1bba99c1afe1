//! How long the replies to a procedure take.

/// The reply to each request of the procedure `rpc` goes out `ms` milliseconds after the instrument starts on the request.
#[derive(Clone, Copy)]
pub struct Delay {
    pub rpc: u16,
    pub ms: u32,
}

impl Default for Delay {
    /// The value in the unused places of a list: procedure 0, without a delay.
    fn default() -> Delay {
        Delay { rpc: 0, ms: 0 }
    }
}
