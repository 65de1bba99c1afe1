//! What is proved of any calls on a session. Each function does nothing: its contract is the law.

ghost use Rattle.gc_session.specs.Laws.{SessionsAreTheirClients, RequestsAreSentNearTheTable, RequestsAreHeldBack, NothingIsSentInDoubt, OwnRequestsAreNullProcedures, AccountsForAsks, StretchesAreUnbroken, ConnectionsAreDrained, ComingTwiceIsComingOnce, WaitsEndAtTheirMoments};
ghost use Rattle.gc_session.specs.Witness.{ARunIsAnswered};

/// Any calls on a session are one list of events of its client: the null procedures of a synchronization and the lines that arrive
/// during it, and then the client's steps. No step comes before the eighth answer, at first and after each restart. The session is
/// where its client's rule brings it over these events, and settles what that settles.
pub fn sessions_are_their_clients()
    ensures { SessionsAreTheirClients }
{}

/// A request of the caller's is sent only after a call of the table that a reply ended: one of the seven requests before it, since the
/// last restart, is one. So a reply that the instrument retains from before isn't taken for that to a later request with the same id.
pub fn requests_are_sent_near_the_table()
    ensures { RequestsAreSentNearTheTable }
{}

/// Wherever a request is sent, a null procedure of the session's own too, the outstanding requests, and those that the last line ended that
/// ended any since the last restart, are together fewer than seven.
pub fn requests_are_held_back()
    ensures { RequestsAreHeldBack }
{}

/// Nothing is sent after a line that calls for a synchronization, until the client restarts: neither a request of the caller's nor a null
/// procedure of the session's own. Such a line has a sign-on in it, or is a stray that can't repeat the reply that settled last.
pub fn nothing_is_sent_in_doubt()
    ensures { NothingIsSentInDoubt }
{}

/// The requests that a session sends on its own, with the target [`OWN`](crate::OWN), are null procedures.
pub fn own_requests_are_null_procedures()
    ensures { OwnRequestsAreNullProcedures }
{}

/// Of all requests that a session settled, and after them those that are outstanding: those for a caller's target are the requests that the
/// session took from its caller, with their targets and calls, in order, each once. All others are the session's own null procedures.
pub fn settles_the_asks()
    ensures { AccountsForAsks }
{}

/// If a session's `stretch` is the same before and after some calls, none of them reports that a connection ended, and the client didn't
/// restart in them. At the greatest `u64` the stretch grows no more, so nothing is said there.
pub fn stretches_are_unbroken()
    ensures { StretchesAreUnbroken }
{}

/// Over one run, from the start, a session synchronizes, takes a request of its caller's and settles it by its reply: so the other laws aren't
/// those of a session that does nothing.
pub fn a_run_is_answered()
    ensures { ARunIsAnswered }
{}

/// A connection that drains is ready only once nothing came for the quiet time, and that much time has passed since its line feed, if the
/// clock doesn't go back meanwhile.
pub fn connections_are_drained()
    ensures { ConnectionsAreDrained }
{}

/// To report once more that bytes came, by the same moment, changes nothing.
pub fn coming_twice_is_coming_once()
    ensures { ComingTwiceIsComingOnce }
{}

/// The moments until which an exchange waits are those at which its waits end. A pause, or a quiet time, that isn't 0 is over exactly from
/// `past_at` on, where that moment fits in 64 bits. The null procedure of the first id that isn't answered may be sent, once a moment was
/// noted, exactly if `asks_at` is no later.
pub fn waits_end_at_their_moments()
    ensures { WaitsEndAtTheirMoments }
{}
