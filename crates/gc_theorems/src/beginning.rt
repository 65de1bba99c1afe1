//! What is proved of a synchronization by null procedures, whose ids alone show what is from before. A synchronization sends
//! eight null procedures, one after the other, with ids 6, 5, 4, 3, 2, 1, 0 and 7 (the word); it has begun once a reply has
//! come for each. Each function does nothing: its contract is the law.

ghost use Rattle.gc_theorems.specs.BeginWitness.{AreSomeRuns, IsBookedFromBefore};
ghost use Rattle.gc_theorems.specs.Beginnings.{RisingIdsLackTheWord, RunsAreTheirOwn, RunsLeaveRisingIds, SimulatorsRunsAreTheirOwn};
ghost use Rattle.gc_theorems.specs.Begun.{AnswersAreTheirOwnOnceBegun, BeginsCleanly, SimulatorsAnswersAreTheirOwnOnceBegun};

/// For any instrument, whatever the line loses or repeats, and whatever is in flight when a synchronization begins, unless the
/// ids in flight then have the word 6 5 4 3 2 1 0 7 as a subsequence: once it is done, no request from before is in flight, nor
/// a reply to one. All that may be in flight is copies of its eighth null procedure, and replies to these. The instrument
/// keeps a reply with that procedure's id, or none. (A request in flight has an id from 0 to 7, by `IsWellFormed`.)
pub fn begins_cleanly<State>()
    ensures { BeginsCleanly State }
{}

/// For any instrument, and a new client after a clean synchronization, however many requests are sent at once: each answer, from
/// the client's first request on, was made on executing its very request, and the instrument executed each request that is late,
/// if that request is safe (`IsSafe`). A request is safe by one of three: all requests are calls of the table; the instrument
/// keeps after each request the reply to that one, or none; or one of the seven requests before it is a call of the table that a
/// reply had ended, or is the synchronization's eighth null procedure. The rest of what `answers_are_their_own` says holds of
/// every request.
pub fn answers_are_their_own_once_begun<State>()
    ensures { AnswersAreTheirOwnOnceBegun State }
{}

/// `answers_are_their_own_once_begun` of the simulator, in any state whose values lie in their types (`IsFittingState`).
pub fn simulators_answers_are_their_own_once_begun()
    ensures { SimulatorsAnswersAreTheirOwnOnceBegun }
{}

/// Ids that rise as `HasRisingIds` says, which a run has in flight once it has synchronized, don't have the word
/// 6 5 4 3 2 1 0 7 as a subsequence. So a synchronization within a run, or after a run that had synchronized, needs no premise
/// on the word.
pub fn rising_ids_lack_the_word<State>()
    ensures { RisingIdsLackTheWord State }
{}

/// After a clean synchronization, `HasRisingIds` holds of what is in flight at any time: in the order of the line, the ids are
/// numbers that never fall, modulo 8, and all of these numbers lie within eight consecutive ones.
pub fn runs_leave_rising_ids<State>()
    ensures { RunsLeaveRisingIds State }
{}

/// For any instrument: one run after the other, each killed at any time. At the start nothing is in flight, or what a run that
/// had synchronized may leave (`HasRisingIds`). As long as fewer than six in a row end while they synchronize, each run that has
/// synchronized has done so cleanly, and all that `answers_are_their_own_once_begun` says holds of it. A run during which no null
/// procedure was answered doesn't count.
pub fn runs_are_their_own<State>()
    ensures { RunsAreTheirOwn State }
{}

/// `runs_are_their_own` of the simulator, in any state whose values lie in their types (`IsFittingState`).
pub fn simulators_runs_are_their_own()
    ensures { SimulatorsRunsAreTheirOwn }
{}

/// The premises of [`simulators_runs_are_their_own`] can be met, here by seven runs: the first six are killed while they
/// synchronize, five of them before any of their null procedures is answered; the last one starts with two of the sixth one's
/// null procedures in flight, and two requests from before, and sends two commands at once, both of which are answered.
pub fn some_runs_are_their_own()
    ensures { AreSomeRuns }
{}

/// Why the ids 6 5 4 3 2 1 0 7 may not be in flight in this order. In some run of the simulator nine replies from before are in
/// flight: eight with these ids, which answer all null procedures of the synchronization, and a ninth, which is booked for the
/// first command, though nothing was executed.
pub fn the_word_in_flight_books_a_wrong_answer()
    ensures { IsBookedFromBefore }
{}
