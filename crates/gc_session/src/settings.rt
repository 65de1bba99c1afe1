//! What a session's caller chooses, what it wants next, and what a session has it do. Times are in milliseconds of the caller's clock.

/// What the caller chooses for a whole session.
#[derive(Clone, Copy)]
pub struct Settings {
    /// How many requests that haven't timed out may be in flight: 1 to 7. A number outside counts as the nearest of these.
    pub width: u8,
    /// How long a null procedure waits for its reply. After twice this time without a reply line, or twice the longest wait of a request
    /// since nothing was outstanding if that is longer, a line is dead, once all outstanding requests have timed out. 0 counts as 1.
    pub timeout: u64,
    /// How long a session pauses before it connects again, twice as long at each further failure, up to a minute, but never below this
    /// time; and for how long nothing may come on a new connection before a request is sent on it. A synchronization doesn't wait for it.
    pub quiet: u64,
}

/// What the caller wants of a session.
#[derive(Clone, Copy, PartialEq, Eq)]
pub enum Want {
    /// Nothing: what comes is heard, and nothing is sent.
    Nothing,
    /// The ends of the outstanding requests.
    Answers,
    /// To send a request.
    Send,
}

/// What the caller does next for a session.
#[derive(Clone, Copy, PartialEq, Eq)]
pub enum Act {
    /// Make a connection, and then call `opened`, or `closed` if none could be made.
    Open,
    /// Wait without a connection until this moment at most.
    Wait(u64),
    /// Write a lone line feed, and discard half a line that came: begin a new [`Assembler`](gc_lines::Assembler).
    Clear,
    /// Write the line, with CR LF.
    Put,
    /// Send a request, if there is one: `ask` takes it now.
    Ask,
    /// Read until this moment at most.
    Read(u64),
    /// Close the connection, which is dead, and then call `closed`.
    Close,
}
