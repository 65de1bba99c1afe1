//! What is proved of the field: of clients and stations over lines of many connections, with an instrument at the other end. A
//! station begins with null procedures with ids 6, 5, 4, 3, 2, 1, 0 and 7, one after the other; it synchronizes cleanly if no
//! request from before, nor a reply to one, is in flight once the eighth is answered. A stretch of a run reaches from one
//! synchronization to the next. Each function does nothing: its contract is the law.

ghost use Rattle.gc_theorems.specs.Alone.{TwoAtOnceBookAWrongAnswer};
ghost use Rattle.gc_theorems.specs.BeginsAnew.{IsAnsweredAnew};
ghost use Rattle.gc_theorems.specs.Carried.{SimulatorsStationsAnswersAreTheirOwn, StationsAnswersAreTheirOwn};
ghost use Rattle.gc_theorems.specs.ChainWitness.{IsPointedInField};
ghost use Rattle.gc_theorems.specs.Chains.{ChainsAreExecuted};
ghost use Rattle.gc_theorems.specs.CountingChain.{IsCountedInField};
ghost use Rattle.gc_theorems.specs.Fronts.{CutRequestsAreWholeOrNothing, JoinedRequestsHaveTheFrontsId};
ghost use Rattle.gc_theorems.specs.InARow.{SimulatorsStationsInARowAreFaithful, StationsInARowAreFaithful};
ghost use Rattle.gc_theorems.specs.Instrument.{KeepingNothingSuffices};
ghost use Rattle.gc_theorems.specs.LateAnswer.{IsLateInField};
ghost use Rattle.gc_theorems.specs.Laws.{AnswersAreTheirOwn, SimulatorIsAnInstrument, SimulatorsAnswersAreTheirOwn};
ghost use Rattle.gc_theorems.specs.Drifting.{SomeRunIsOverADriftingInstrument};
ghost use Rattle.gc_theorems.specs.LostLineFeed.{IsBookedJoined};
ghost use Rattle.gc_theorems.specs.Needed.{IsAllNeeded};
ghost use Rattle.gc_theorems.specs.Owned.{ClientsAnswersAreTheirOwn, FewKilledMayBegin, SimulatorsClientsAnswersAreTheirOwn};
ghost use Rattle.gc_theorems.specs.Pointing.{ChainsAreMeasuredWhereTheyPointed, SimulatorHasItsEffect};
ghost use Rattle.gc_theorems.specs.Runs.{RunsAreFaithful, SimulatorsRunsAreFaithful};
ghost use Rattle.gc_theorems.specs.SecondExecution.{IsExecutedAgain};
ghost use Rattle.gc_theorems.specs.SessionWitness.{SomeSessionIsInField};
ghost use Rattle.gc_theorems.specs.Sessions.{SessionsAnswersAreTheirOwn, SessionsInARowAreTheirOwn, SimulatorsSessionsAnswersAreTheirOwn, SimulatorsSessionsInARowAreTheirOwn};
ghost use Rattle.gc_theorems.specs.Witness.{SomeRunIsInField};

/// For any instrument, and a client that doesn't synchronize, as that of `geocom ask`, with nothing in flight, over any number
/// of connections: if the client asks only for calls of the table, and sends its first request alone, each answer was made on
/// executing its very request, and the instrument executed each request that is late. The first request is excepted from both:
/// its answer may be an older reply. Also executions are in the order of sending; and if the instrument keeps its reply to each
/// request that it knows, it executes each of these at most once between two of its restarts.
pub fn answers_are_their_own<State>()
    ensures { AnswersAreTheirOwn State }
{}

/// For any instrument, and the acts of a station that has synchronized cleanly: each answer, from the first request on, was made
/// on executing its very request, if all requests are calls of the table, or the instrument keeps after each request its own
/// reply or none, or one of the seven requests before it is a call of the table that a reply ended, or the synchronization's
/// eighth null procedure (`IsSafe`).
pub fn stations_answers_are_their_own<State>()
    ensures { StationsAnswersAreTheirOwn State }
{}

/// For any instrument, which may restart and change by itself at any time, and over any number of connections and synchronizations: what
/// happens to a client is one list of events, those of runs one after the other, from one synchronization to the next. The client settles
/// what the world's client settles, and reaches the same state. Each settlement by a reply is of one request of one run, with its target
/// and its call; and if that request is safe (`IsSafe`), the answer was made by the instrument on executing that very request, and the
/// instrument executed the request if it is late. When the client was made, anything may have been in flight, except the ids
/// 6 5 4 3 2 1 0 7 in this order. The laws of a session and of the library's calls are instances.
pub fn clients_answers_are_their_own<State>()
    ensures { ClientsAnswersAreTheirOwn State }
{}

/// `clients_answers_are_their_own` of the simulator, in any state whose values lie in their types (`IsFittingState`).
pub fn simulators_clients_answers_are_their_own()
    ensures { SimulatorsClientsAnswersAreTheirOwn }
{}

/// For any instrument, any settings and any calls on a session, over any number of connections and synchronizations: each answer that the
/// session settles for its caller was made by the instrument on executing that very request, from the first one on; and the instrument
/// executed each of the caller's requests that is late. The session settles what the world's client settles, and reaches the same state;
/// and each run from one synchronization to the next is faithful. When the session was made, anything may have been in flight, except the
/// ids 6 5 4 3 2 1 0 7 in this order. Whatever the caller asks, also requests that aren't in the table, and whenever it asks: the session
/// sends no request of its caller's that isn't safe. Of the null procedures that it sends by itself (their target is `OWN`) this isn't
/// said.
pub fn sessions_answers_are_their_own<State>()
    ensures { SessionsAnswersAreTheirOwn State }
{}

/// `sessions_answers_are_their_own` of the simulator, in any state whose values lie in their types (`IsFittingState`).
pub fn simulators_sessions_answers_are_their_own()
    ensures { SimulatorsSessionsAnswersAreTheirOwn }
{}

/// For any instrument: sessions follow each other over a line that outlives them, each with its own settings and calls, and each ended at
/// any time. At the start nothing is in flight, or what a run that had synchronized may leave (`HasRisingIds`). As long as fewer than six
/// runs in a row end while they synchronize, all that `sessions_answers_are_their_own` says holds of each session, without the premise on
/// the ids in flight. A synchronization during which no null procedure was answered doesn't count.
pub fn sessions_in_a_row_are_their_own<State>()
    ensures { SessionsInARowAreTheirOwn State }
{}

/// `sessions_in_a_row_are_their_own` of the simulator, in any state whose values lie in their types (`IsFittingState`).
pub fn simulators_sessions_in_a_row_are_their_own()
    ensures { SimulatorsSessionsInARowAreTheirOwn }
{}

/// Runs follow each other over one line, each from one synchronization to the next, and each may end at any time. If the first finds
/// nothing in flight, or what a run that had synchronized may leave, the ids 6 5 4 3 2 1 0 7 are never in flight in this order when the
/// next one begins, as long as fewer than six in a row end while they synchronize. A run doesn't count if none of its null procedures was
/// answered.
pub fn few_killed_may_begin<State>()
    ensures { FewKilledMayBegin State }
{}

/// What holds of every run of a station, for any instrument, which may restart and change by itself at any time, over any number
/// of connections, with whatever the line does, and whatever is in flight at the start, unless the ids in flight then have the
/// word 6 5 4 3 2 1 0 7 as a subsequence. The run sends no command before it has synchronized, at first or again; and where it
/// has, it has done so cleanly. Each answer that it records, from its first command on, also one that is unreadable or off target,
/// was made on executing the very request of that cycle and place. The instrument executed each request that is late. Each of these
/// requests reached it as the request line of the record's id and call. The records and the outstanding commands of cycles are the
/// commands of cycles that had their turn, one for one, but for further attempts that were left out. The bytes that the station
/// sends are the lines of its requests, and line feeds that clear the receiver.
/// Its records of commands that were sent are how these ended on the line; the first reply to a request that isn't settled
/// settles it; and no reply raises a doubt, for which it would resynchronize. And each stretch from one synchronization to the next
/// is faithful: its settlements and what is outstanding are its requests, one for one and in order; requests are executed in the
/// order of sending; and if the instrument keeps its reply to each request that it knows, it executes each of these at most once
/// between two of its restarts.
pub fn runs_are_faithful<State>()
    ensures { RunsAreFaithful State }
{}

/// For any instrument: stations run one after the other over a line that outlives them, each with its own plan and commands, and
/// each killed at any time. At the start nothing is in flight, or what a run that had synchronized may leave (`HasRisingIds`). As
/// long as fewer than six in a row end while they synchronize, all that `runs_are_faithful` says holds of each, without the
/// premise on the word. A synchronization during which no null procedure was answered doesn't count.
pub fn stations_in_a_row_are_faithful<State>()
    ensures { StationsInARowAreFaithful State }
{}

/// `stations_in_a_row_are_faithful` of the simulator, in any state whose values lie in their types (`IsFittingState`).
pub fn simulators_stations_in_a_row_are_faithful()
    ensures { SimulatorsStationsInARowAreFaithful }
{}

/// In every run that `runs_are_faithful` speaks of, for any instrument: a command of a chain that is answered, of a cycle and
/// not of the setup, was executed after each earlier command of the chain, in the same stretch, and the answers of both are the
/// replies to these executions. If the instrument didn't restart between the two executions, each request that it executed
/// between them, and to which it keeps its reply, was sent between them. If it didn't change by itself either, its state at
/// the later execution is what the executions from the earlier one on made of it, apart from what it keeps.
pub fn chains_are_executed<State>()
    ensures { ChainsAreExecuted State }
{}

/// In every run that `simulators_runs_are_faithful` speaks of, of two commands of a chain of a cycle that are answered: if no
/// command between them turns the telescope, and the simulator neither restarted nor changed by itself between their executions,
/// the telescope pointed, when the later one was executed, where the earlier one had left it. If the earlier one was a
/// positioning, this is the direction that it commanded, in the face in which the telescope was before it.
pub fn chains_are_measured_where_they_pointed()
    ensures { ChainsAreMeasuredWhereTheyPointed }
{}

/// The simulator is an instrument, and one that keeps its reply to each call of its table, in any state whose values lie in
/// their types (`IsFittingState`). It refuses other requests with 3081, and these refusals leave the kept reply as it is.
pub fn simulator_is_an_instrument()
    ensures { SimulatorIsAnInstrument }
{}

/// Executing a call of the table makes of the simulator's state what the execution table says, apart from the kept reply; a
/// reply that is sent again changes nothing, and neither does a procedure that isn't in the table.
pub fn simulator_has_its_effect()
    ensures { SimulatorHasItsEffect }
{}

/// `answers_are_their_own` of the simulator, in any state whose values lie in their types (`IsFittingState`).
pub fn simulators_answers_are_their_own()
    ensures { SimulatorsAnswersAreTheirOwn }
{}

/// `stations_answers_are_their_own` of the simulator, in any state whose values lie in their types (`IsFittingState`).
pub fn simulators_stations_answers_are_their_own()
    ensures { SimulatorsStationsAnswersAreTheirOwn }
{}

/// `runs_are_faithful` of the simulator, in any state whose values lie in their types (`IsFittingState`).
pub fn simulators_runs_are_faithful()
    ensures { SimulatorsRunsAreFaithful }
{}

/// An instrument that keeps no reply and executes each request meets all that is asked of an instrument, if the client reads
/// its lines by the grammar of replies, and each of its replies has its request's id.
pub fn keeping_nothing_suffices<State>()
    ensures { KeepingNothingSuffices State }
{}

/// Each clause of what is asked of an instrument is needed, and so are the rule when a client sends and the limits of what may
/// change by itself: where one of these alone fails, there is an instrument and a run in which an answer is booked for a request
/// that was never executed, or, for the clauses of `KeepsItsReply`, in which a request is executed twice.
pub fn what_is_asked_is_needed()
    ensures { IsAllNeeded }
{}

/// A request for a call of the table, with values in range, reaches the instrument complete or not at all if it is cut: a front
/// without the CR gives no line, though a line feed follows it; no line of what is left of it after a front is a request; and the
/// front with the CR, with a line feed after it, is the whole request. (The parameters of a raw request may contain a request.)
pub fn cut_requests_are_whole_or_nothing()
    ensures { CutRequestsAreWholeOrNothing }
{}

/// If the line feed that clears the front of a request for a call of the table is lost, the front and the next request are one
/// line. If that line is a request at all, it has the front's id and procedure.
pub fn joined_requests_have_the_fronts_id()
    ensures { JoinedRequestsHaveTheFrontsId }
{}

/// Why the line feed that clears the front of a request has to arrive: in some run of the simulator it is lost, and the reply to
/// the joined line is booked for the request that was cut, which was not executed.
pub fn a_lost_line_feed_books_a_wrong_answer()
    ensures { IsBookedJoined }
{}

/// Why a client that doesn't synchronize sends its first request alone: if the simulator keeps a reply with the id of the
/// second of two requests that are sent at once, and the first is lost, it answers the second with that reply. The reply is
/// booked for the second, though nothing was executed.
pub fn two_at_once_book_a_wrong_answer()
    ensures { TwoAtOnceBookAWrongAnswer }
{}

/// Some run meets every premise of `simulators_runs_are_faithful`: over a line on which an earlier request and an earlier reply
/// are still in flight, each with the id of the run's command, it synchronizes, and records that command's answer, which was
/// made on executing the command's own request.
pub fn some_run_is_in_the_field()
    ensures { SomeRunIsInField }
{}

/// Some run is over an instrument that keeps no reply and changes by itself: with a synchronization that goes on over a second
/// connection, a lost reply, a request that times out, a restart of the instrument and a third connection. Its second command
/// asks for a procedure that isn't in the table, whichever that is, and the answer to it was made on executing its own request.
pub fn some_run_is_over_a_drifting_instrument()
    ensures { SomeRunIsOverADriftingInstrument }
{}

/// Some run that meets every premise of `simulators_runs_are_faithful` has a late record: its command's reply arrives after the
/// deadline, and was made on executing its request all the same.
pub fn some_late_record_is_in_the_field()
    ensures { IsLateInField }
{}

/// Some run resynchronizes, on the same connection, after six commands have timed out: a request and a reply of these are in
/// flight then, each with an id that is used again, and the command after that has the answer that was made on executing its
/// own request.
pub fn some_run_resynchronizes()
    ensures { IsAnsweredAnew }
{}

/// Some run of a chain meets every premise of `chains_are_measured_where_they_pointed`: it points the telescope, measures, and
/// reads the angles and the distance there.
pub fn some_chain_is_in_the_field()
    ensures { IsPointedInField }
{}

/// Some run of a chain is over an instrument that counts what it executes and keeps its reply, and meets every premise of
/// `chains_are_executed`: the instrument's count at the third command is what the first and the second made of it.
pub fn some_chain_is_over_a_counting_instrument()
    ensures { IsCountedInField }
{}

/// Some request is executed twice, with a restart of the instrument between, and its answer is the second execution's.
pub fn some_answer_is_of_a_second_execution()
    ensures { IsExecutedAgain }
{}

/// Some calls on a session meet every premise of `sessions_answers_are_their_own`, over an instrument that counts what it executes and with
/// a request for any procedure that isn't in the table; and some every premise of `simulators_sessions_answers_are_their_own`.
pub fn some_session_is_in_the_field()
    ensures { SomeSessionIsInField }
{}
