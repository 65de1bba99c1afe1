//! What a session does next.

/// What is next, as a session decides it.
#[derive(Clone, Copy)]
pub enum Next {
    Open,
    Wait,
    Clear,
    /// The null procedure of the first id of the synchronization that isn't answered.
    Null,
    /// A null procedure of the client.
    Flush,
    /// All that is outstanding is lost, and the first null procedure of a new synchronization is sent.
    Renew,
    Ask,
    Read,
    Close,
}
