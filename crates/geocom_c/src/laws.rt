//! What is proved of any calls on a state. Each function does nothing: its contract is the law.

ghost use Rattle.geocom_c.specs.Damage.{HeldBackAnswersAreOwnOrDamaged};
ghost use Rattle.geocom_c.specs.FieldWitness.{SomeCallsAreInField};
ghost use Rattle.gc_theorems.specs.Owned.{FewKilledMayBegin};
ghost use Rattle.geocom_c.specs.Laws.{AnswersAreTheirOwn, CallsAreEvents, CallsAreSafe, SimulatorsAnswersAreTheirOwn, SimulatorsCallsAreSafe};
ghost use Rattle.geocom_c.specs.SessionCalls.{SessionCallsAreCalls};
ghost use Rattle.geocom_c.specs.SessionLaws.{RecordsAreTheirOwn};

/// Any calls on a state are one list of events: the null procedures of a synchronization and the lines that arrive during it,
/// and then the client's steps: a send whose number and parameters are a call's or a raw call's, each line that bytes end, a
/// time, a restart. No step comes before the eighth answer, at first and after each restart. What `follow` reaches is what the
/// client's rule makes of these steps.
pub fn calls_are_events()
    ensures { CallsAreEvents }
{}

/// For any instrument, which may restart and change by itself at any time, and over any number of connections: each answer that
/// the library books was made by the instrument on executing that very request, from the first one on; and the instrument executed
/// each request that is late. The library settles what the client of the field settles, and reaches the same state. When the client was made, anything may have been in flight,
/// except the ids 6 5 4 3 2 1 0 7 in this order. What is sent has to be safe (`calls_are_safe`).
pub fn answers_are_their_own<State>()
    ensures { AnswersAreTheirOwn State }
{}

/// The law of `answers_are_their_own` for the simulator, in any state whose values lie in their types.
pub fn simulators_answers_are_their_own()
    ensures { SimulatorsAnswersAreTheirOwn }
{}

/// What is sent is safe over an instrument that retains its own reply, or none, after every request, and over any instrument if
/// no call sends a raw request. Otherwise the caller has to see to it: a request is safe, too, if one of the seven requests
/// before it is a call of the table that a reply ended, or the eighth null procedure of the synchronization (`IsSafeRun`).
pub fn calls_are_safe<State>()
    ensures { CallsAreSafe State }
{}

/// The half of `calls_are_safe` that holds of the simulator: what is sent is safe if no call sends a raw request. The simulator
/// refuses each raw request, and retains the reply that it retained before.
pub fn simulators_calls_are_safe()
    ensures { SimulatorsCallsAreSafe }
{}

/// Any calls of the nine functions `geocom_session_` on a state, from any bytes on: since the last `geocom_session_init` that returned 0 they
/// are calls on a session of gc_session, those that their arguments ask for; and so are calls on a state that stands for a session, as one
/// that was saved does. A call that is refused for want of room, for another want or width, or for a request that doesn't read is nothing to
/// the session, and no other reason makes it so: a request out of turn, or with the session's own target, is a call by which the session takes
/// nothing. The state stands for the session after those calls; the records that the functions hand out are those of what the session
/// settles, in order, and no others; what they have their caller write is what the session has written; and the requests for which they
/// return 0 are those that the session takes. So what is proved of any calls on a session is proved of any calls of C, and each call tells
/// what its contract says of the session at that point.
pub fn session_calls_are_calls()
    ensures { SessionCallsAreCalls }
{}

/// The records of answers that the functions `geocom_session_` hand out on the state of a new session: for any instrument, the line of each was
/// made by the instrument on executing that very request, unless that is a null procedure of the session's own; and the instrument executed
/// each request that is late. The records are those of the session's settlements, in order. The premises are those of gc_theorems's
/// `sessions_answers_are_their_own`, on the calls that `session_calls_are_calls` is about.
pub fn session_records_are_their_own<State>()
    ensures { RecordsAreTheirOwn State }
{
    gc_theorems::laws::sessions_answers_are_their_own::<State>();
}

/// Over a line that damages, each answer is its own request's, or its line is damaged, if the caller holds back. This is of any
/// instrument, whatever is in flight when the client is made, until the client's restart; and no more requests are settled by lines that
/// came damaged than such lines came. The eighth null procedure is answered by its own reply, and of the lines that settle something
/// after that no two in a row are damaged. The caller holds back if it sends only while the outstanding requests, and those that the last
/// line settled, are together fewer than seven. Each request that it sends is a call of the table, or the instrument keeps after each
/// request its own reply or none.
pub fn held_back_answers_are_own_or_damaged<State>()
    ensures { HeldBackAnswersAreOwnOrDamaged State }
{}

/// Clients follow each other over one line, and each may end at any time. If the first finds nothing in flight, or what a
/// client that had synchronized may leave, the ids 6 5 4 3 2 1 0 7 are never in flight in this order when the next one begins,
/// as long as fewer than six in a row end while they synchronize. A client doesn't count if none of its null procedures was
/// answered.
pub fn few_killed_may_begin<State>()
    ensures { FewKilledMayBegin State }
{}

/// Some calls meet every premise of `answers_are_their_own`, over an instrument that counts what it executes and with a request
/// for any procedure that isn't in the table; and some every premise of `simulators_answers_are_their_own`.
pub fn some_calls_are_in_the_field()
    ensures { SomeCallsAreInField }
{}
