//! Laws of a station's runs, whatever its link does. A run is the list of its acts: an act is one call of the link, with its
//! result. A run is given a number of turns: each act takes one, and once none is left, a connection that is still open is closed
//! by one act more. A run begins with its synchronization, eight null procedures that are sent one after the other; then it sends
//! one null procedure more, alone, as it does after each synchronization; and once a reply has ended it, the commands of its text,
//! cycle by cycle. It resynchronizes where all outstanding requests have timed out and there is no room for another, or
//! commands are outstanding and the cycle is overdue: two periods have passed since its due moment, and all that is outstanding has timed
//! out. There is room if the outstanding requests, and those that the last line ended that ended any, are together fewer than seven,
//! since the synchronization neither a stray came that can't repeat the reply that settled last, nor a sign-on, nor an answer whose values
//! aren't as the text expects them, nor a busy one; and the deadline of the command of the last busy answer has passed. A request is sent
//! where its bytes are written, all of them or some. It is outstanding until it is settled, also once it has timed out at its deadline.
//! A chain is a row of commands for one target, each sent only once the one before it was answered well.

ghost use Rattle.std.specs.Prelude.{◌≡◌, List, ◌∷◌, ◌++◌};
ghost use Rattle.gc_lines.specs.Frames.{rest_of};
ghost use Rattle.gc_texts.specs.declared.tasks.Task.{Task};
ghost use Rattle.gc_station.specs.declared.cause.Cause.{Cause};
ghost use Rattle.gc_station.specs.declared.cause.Cause.TheVariants as cause;
ghost use Rattle.gc_station.specs.declared.progress.Action.TheVariants.{Send, Close, Stop};
ghost use Rattle.gc_station.specs.declared.plan.Plan.{Plan};
ghost use Rattle.gc_links.specs.Acts.{Act, Closed};
ghost use Rattle.gc_station.specs.Answers.{AnswerIsJustified};
ghost use Rattle.gc_station.specs.Behind.{CommandsAreSentNearTheTable, TheTableIsNeverHeldUp};
ghost use Rattle.gc_station.specs.NullFirst.{SynchronizationsEndWithANull};
ghost use Rattle.gc_station.specs.Beginnings.{NoneBeforeTheLastAnswer, SynchronizesInOrder, IsClearedAndQuiet};
ghost use Rattle.gc_station.specs.Closing.{IsReasoned, ClosesForACause, EndsForTurnsOnlyAfterAsManyActs, StopsForACause};
ghost use Rattle.gc_station.specs.Deciding.{dead_after};
ghost use Rattle.gc_station.specs.Expecting.{TheSetUpIsAsExpected, ChainsAreAsExpected, RenewsAfterAnUnexpectedAnswer};
ghost use Rattle.gc_station.specs.FirstActs.{FirstActsAreARun};
ghost use Rattle.gc_station.specs.HoldingBack.{RequestsAreHeldBack};
ghost use Rattle.gc_station.specs.InDoubt.{NothingIsSentInDoubt};
ghost use Rattle.gc_station.specs.Cycles.{CyclesBeginWhenDue, SentOnlyInTime, UnsentForACause};
ghost use Rattle.gc_station.specs.Pauses.{TriesAndPausesAreCounted};
ghost use Rattle.gc_station.specs.Retries.{FurtherAttemptsHaveACause};
ghost use Rattle.gc_station.specs.Room.{RequestsHaveRoom};
ghost use Rattle.gc_station.specs.Chains.{IsChained, IsLinked};
ghost use Rattle.gc_station.specs.EachOnce.{EachOnce, IsFurther};
ghost use Rattle.gc_station.specs.Links.{ChainsStay, MarksGoOn, RecordsStay};
ghost use Rattle.gc_station.specs.Ends.{LateIsJustified, LostIsJustified};
ghost use Rattle.gc_station.specs.Given.{bytes_heard};
ghost use Rattle.gc_station.specs.Quiet.{SendsRequest};
ghost use Rattle.gc_station.specs.Runs.{state_after, OfAnyActs, OfEachRun, WhereNext, OfEachAct, OfEachRecord};
ghost use Rattle.gc_station.specs.Scopes.{Scope, OneReadingForALine, SomeReadings};
ghost use Rattle.gc_station.specs.Setups.{EachSetUpOnce, SetUpsGoOn, NoneBeforeTheSetUp, SetUpInOrder};
ghost use Rattle.gc_station.specs.Silences.{HasAllTimedOut, IsMuteFor};
ghost use Rattle.gc_station.specs.Starts.{SetsUpAnewAfterASignOn};
ghost use Rattle.gc_station.specs.Stopping.{ClosesStale, StopsAtItsClose, EndsOnceStale, GoesOnInItsChain, ClosesBetweenChains};
ghost use Rattle.gc_station.specs.OnceAsked.{EndsSoonOnceAsked, FinishesItsChainOnceAsked, FinishesATableChainOnceAsked, EndsByBoundOnceAsked, EndsATableRunByBoundOnceAsked};
ghost use Rattle.gc_station.specs.RecordedInTime.{RecordsOnceTimedOut, RecordsInTime, ReadsClockBefore, ReadsAwaitSomething, RecordingEnds};
ghost use Rattle.gc_station.specs.BoundRuns.{OutageIsRecorded, CallsAreNeeded, ReadingsAreNeeded, DeadlinesAreNeeded, UnaskedIsNeeded};
ghost use Rattle.gc_station.specs.NoPeriodRun.{DueMomentsAreNeeded};
ghost use Rattle.gc_station.specs.RealTime.{RecordsByBound, LastsByBound, ReadsEndInTime};
ghost use Rattle.gc_station.specs.Model.{action_at};
ghost use Rattle.gc_station.specs.WhileBusy.{NothingIsSentWhileBusy};
ghost use Rattle.gc_station.specs.Tries.{StopsOnlyAfterAllTries};

/// The commands of cycles that had their turn, sent or not, cycle by cycle and in order, are the records of cycles followed by
/// the outstanding commands of cycles, each once, except those of further attempts that were left out, in order. If the run
/// stopped, none is outstanding; and if it is done, records and commands left out are all commands of all cycles. Records and
/// commands of the setup, which have cycle 0, don't count here: `each_command_of_the_set_up_once` is of them. Commands that set the
/// clock are compared without their times, which `each_record_is_of_its_task` gives.
pub fn each_command_once()
    ensures { OfAnyActs EachOnce }
{}

/// No command of a cycle is sent before the setup of its connection was answered well. Each command of the setup was sent among
/// the acts so far, and since then no connection was closed, and the station didn't resynchronize; and its record, which was
/// written since, is of a command that was answered well. When a command of the setup is sent, the same holds of each one before
/// it, if the list has at least as many commands as the plan's `setup`.
pub fn no_command_of_a_cycle_goes_out_before_the_set_up()
    ensures cycles { NoneBeforeTheSetUp }
    ensures itself { SetUpInOrder }
{}

/// Each command of the setup that was sent has one record, in order, or is outstanding after the records; if the run stopped,
/// none is outstanding.
pub fn each_command_of_the_set_up_once()
    ensures { OfAnyActs EachSetUpOnce }
{}

/// The attempts of the setup count over the run, from 1. Each begins with the first command of the setup, and goes on one by
/// one. This holds if the list has at least as many commands as the plan's `setup`; the count stops at 2^64 - 1.
pub fn attempts_of_the_set_up_go_on()
    ensures { SetUpsGoOn }
{}

/// A line has at most one reading for a call, by the form of a described procedure or without one. So all functions that give each
/// reply's reading, of which the theorems speak, agree wherever a line reads.
pub fn each_line_says_one_thing()
    ensures { OneReadingForALine }
{}

/// Some function gives each line's reading for a call, by each form and without one, wherever there is one: the reader of the catalogue, or
/// that of the form, computes it.
pub fn some_function_says_what_each_reply_says()
    ensures { SomeReadings }
{}

/// Each act of a run performs the action that was next, and the conditions of that action held. The clock was read alone only where
/// something was sent, or a connection was closed or couldn't be made, since a moment was read. When a request was sent, the line
/// wasn't dead. When a command was sent, fewer requests were in
/// flight and not timed out than the plan's width (taken as 1 to 7), there was room for it, and the bytes are
/// the line of the next command, of the cycle or of the setup. A command of a cycle was sent only if the setup was done on that
/// connection and since the station synchronized: each of its commands was sent, and the last one was answered well. When a null
/// procedure of a synchronization was sent, nothing was outstanding, the client was new, and the bytes are the line of the null
/// procedure with the first id that wasn't answered. When the station resynchronized, all outstanding requests had timed out, and
/// there was no room for another, or commands were among them and the cycle was overdue. When the link was read, the station awaited
/// something (`a_read_awaits_something`).
pub fn each_act_is_due()
    ensures { OfEachAct (λ plan commands scope earlier act. IsReasoned plan commands (state_after plan commands scope earlier) act) }
{}

/// A connection is closed only for a cause: nothing was left to be done; or the line was dead; or a command of the setup wasn't
/// answered well; or all turns were used up; or the run was stale; or its end was asked for, and
/// it could end there; or the act before it shows that a call failed or that the other end closed.
pub fn closes_for_a_cause()
    ensures { OfEachAct (λ plan commands scope earlier act. act ≡ Closed → ClosesForACause plan commands scope earlier) }
{}

/// If a connection is closed for a dead line, a time was read on it, and since then, for twice the longest deadline by the clock,
/// no line came that reads as a reply. Meanwhile no request was sent, or one was sent at once, so that its reply had all that
/// while; or the clock went back when that time was read.
pub fn closes_a_dead_line_only_after_silence()
    ensures { WhereNext (Close cause.Dead) (λ plan commands scope acts. IsMuteFor (dead_after plan) plan commands scope acts) }
{}

/// If a connection is closed for a dead line, each request that is outstanding has timed out, and while the station synchronizes so
/// has the null procedure that was sent last. So the close loses no reply that could still answer in time.
pub fn closes_a_dead_line_only_after_the_deadlines()
    ensures { WhereNext (Close cause.Dead) (λ plan commands scope acts. HasAllTimedOut (state_after plan commands scope acts)) }
{}

/// After a command of a cycle was sent, whatever acts follow, the next one of a cycle has a later place in the same cycle, or
/// is of a later cycle: no command is sent twice in its cycle.
pub fn each_send_goes_on()
    ensures { (plan : Plan) (commands : List Task) (scope : Scope) (earlier later : List Act) (act : Act)
        → action_at plan (state_after plan commands scope earlier) ≡ Send
        → IsFurther plan commands (state_after plan commands scope earlier) (state_after plan commands scope (earlier ++ act ∷ later)) }
{}

/// A command of a chain that isn't the chain's first is sent only after the answer of the command before it in the same cycle.
/// That command was sent, and no connection was closed since. Its record is the last one written: of a line that arrived in
/// time, with the id of the request of that cycle and place, and gave an answer of a good quality. By `each_send_goes_on` only one
/// request has that cycle and place. `each_command_once` says that each command's end is recorded.
pub fn each_chain_is_kept()
    ensures { WhereNext Send (λ plan commands scope acts. IsChained plan commands (state_after plan commands scope acts).progress → IsLinked plan commands scope acts) }
{}

/// Each record of a reply in time (answered, unreadable or off target) has a line that arrived with the id of the record's own
/// request, the one of the same cycle and place. The line arrived after that request was sent, on its connection or a later one,
/// and before a time at or past the request's deadline was read. The record was written at the act that brought the line. By
/// `each_record_is_of_its_task` the record's target is that of its command.
pub fn answers_come_in_time()
    ensures { OfEachRecord AnswerIsJustified }
{}

/// Each late record is justified: its own request, of the same cycle and place, was sent; then a time at or past its deadline
/// was read, at the latest with the piece that brought the line; then a line with the request's id arrived, by the act at which
/// the record was written.
pub fn late_ones_came_late()
    ensures { OfEachRecord LateIsJustified }
{}

/// Each lost record has a cause: its own request, of the same cycle and place, was sent, and the act at which the record was
/// written is one of three. It brought a line with the id of a later outstanding request; or it read the clock once all outstanding
/// requests had timed out, and there was no room for another or the cycle was overdue, and the station resynchronizes there; or it is
/// the last act of the run, which stops there.
pub fn lost_ones_are_lost_for_a_cause()
    ensures { OfEachRecord LostIsJustified }
{}

/// A run stops without a connection, and only for one of these causes. All turns are used up. Or the last act is a call that
/// failed while there was no connection. Or the last act closed the connection, or could make none, and no further one is made:
/// because nothing was left to be sent and no command waited (`Done`); because it was closed for an unreadable clock, for used up
/// turns, because the run was stale, or because its end was asked for; or because a further attempt would take a try, and none was
/// left. By `each_command_once` and `each_command_of_the_set_up_once` all is settled then.
pub fn stops_for_a_cause()
    ensures { (why : Cause) → WhereNext (Stop why) (λ plan commands scope acts. StopsForACause plan commands scope acts why) }
{}

/// If a run stops at a connection that ended or couldn't be made, its tries are used up, unless the cause is `Done`, `Clock`,
/// `Turns`, `Stale` or `Stopped`. Take the acts after the last read that settled a command once the setup was done, or all acts
/// if none did. Among them more than the plan's `retries` connections ended or couldn't be made. At least `retries` attempts to
/// connect were made among them, and more than `retries` if there was no such read.
pub fn stops_only_after_all_tries()
    ensures { StopsOnlyAfterAllTries }
{}

/// If a connection is closed or a run stops because the run's turns are used up, the run made at least as many acts as it was
/// given turns.
pub fn ends_for_turns_only_after_as_many_acts()
    ensures { EndsForTurnsOnlyAfterAsManyActs }
{}

/// When a request is sent, its connection was cleared: as soon as it was made, a line feed was sent, alone and complete. Unless
/// a synchronization goes on with it, it was quiet, too: before anything else was sent on it, nothing arrived for the quiet
/// time, by the clock, which may have been read alone meanwhile.
pub fn each_connection_is_cleared_and_quiet()
    ensures { OfEachAct (λ plan commands scope earlier act. SendsRequest act → IsClearedAndQuiet plan commands scope earlier) }
{}

/// The bytes that a station stores of a line that hasn't ended are those that arrived on this connection while bytes were
/// heard, after the last line feed, in whatever pieces they arrived.
pub fn rest_is_what_came()
    ensures { OfEachRun (λ plan commands scope acts. (state_after plan commands scope acts).rest ≡ rest_of (bytes_heard plan commands scope acts)) }
{}

/// No command, and no null procedure after the synchronization, is sent before the last answer of a synchronization. From any
/// point of a run to the sending of such a request, replies are heard with the ids of all null procedures of the synchronization
/// that aren't answered at that point, in their order.
pub fn no_command_goes_out_before_the_last_answer()
    ensures { NoneBeforeTheLastAnswer }
{}

/// A run begins with eight null procedures, with ids 6, 5, 4, 3, 2, 1, 0 and 7. While it synchronizes no request of the client
/// is outstanding, and what is sent is the null procedure of the first of these ids that isn't answered. Only a reply with that
/// id answers it, and the next one is sent then, also if the connection was closed in between. A run resynchronizes only when all
/// that is outstanding has timed out, and there is no room for another request, or commands are outstanding and the cycle is overdue.
pub fn each_synchronization_goes_on_by_its_answers()
    ensures { OfEachAct SynchronizesInOrder }
{}

/// Records are never changed or removed: those of a run's first acts stay, in order, before the records of the acts that
/// follow.
pub fn records_stay()
    ensures { RecordsStay }
{}

/// Of two commands that are sent, in the same part of a run or in two (a part reaches from one synchronization to the next),
/// the later one has a later place in the same cycle, or is of a later cycle. Commands of the setup, which have cycle 0, are
/// left out.
pub fn marks_go_on()
    ensures { MarksGoOn }
{}

/// When a command of a chain is sent, each earlier command of that chain was sent in the same part of the run, and was answered
/// well.
pub fn chains_stay()
    ensures { ChainsStay }
{}

/// A further attempt of a chain is sent only once all commands sent are settled, and one of the attempt before ended as its
/// rule names. Further attempts are left out only if none of the attempt before did, or the cycle is missed, or the next command
/// is chained, which in a station's text the first one of an attempt never is, or the cycle is overdue. Besides, a command is left out that
/// rests in its cycle. A command of the setup that is sent between two attempts belongs to neither.
pub fn each_further_attempt_has_a_cause()
    ensures { FurtherAttemptsHaveACause }
{}

/// When a command is sent, or a null procedure that isn't of a synchronization, fewer requests are in flight than the plan's
/// width, not counting those timed out, or none is; and those that are outstanding, and those that the last line ended that ended any,
/// are together fewer than seven.
pub fn each_request_has_room()
    ensures { RequestsHaveRoom }
{}

/// The station holds back: whenever a request is sent, null procedures of its own too, the outstanding requests, and those that the last
/// line ended that ended any since the synchronization, are together fewer than seven. That is what the laws on damaged lines ask of a client
/// (`gc_theorems`).
pub fn requests_are_held_back()
    ensures { RequestsAreHeldBack }
{}

/// Once a stray shows that a line was altered, or a sign-on that the instrument was switched on or off, nothing is sent before the next
/// synchronization. Such a stray can't repeat the reply that settled last: its id is neither that of an outstanding request nor the one
/// before that of the oldest. Null procedures of the station's own wait, too.
pub fn nothing_is_sent_in_doubt()
    ensures { NothingIsSentInDoubt }
{}

/// Once the station heard a sign-on, while it synchronized or later, so that the instrument was switched on or off, no command of a cycle is
/// sent before each command of the setup was sent anew, and answered well.
pub fn the_set_up_is_done_anew_after_a_sign_on()
    ensures { SetsUpAnewAfterASignOn }
{}

/// Where a command of a cycle is sent, each command of the setup was answered on its connection, and after its synchronization, by a line
/// whose values are as the text expects them.
pub fn the_set_up_is_as_expected()
    ensures { TheSetUpIsAsExpected }
{}

/// A command that goes on with a chain is sent only after an answer of the command before it whose values are as the text expects them.
pub fn chains_are_as_expected()
    ensures { ChainsAreAsExpected }
{}

/// Once the values of an answer weren't as the text expects them, be it to a command of a cycle or of the setup:
/// - `set_up`: no command of a cycle is sent before each command of the setup was sent anew, and answered well.
/// - `requests`: nothing is sent before a connection was closed or the next synchronization, nor is a null procedure of the station's own.
pub fn the_set_up_is_done_anew_after_an_unexpected_answer()
    ensures { RenewsAfterAnUnexpectedAnswer }
{}

/// Once a busy answer came, one with a return code that the text lists as busy (the instrument is still at work on the command):
/// - `waits`: no request is sent, nor is a null procedure of a synchronization, before a moment was read at which the command's whole
///   deadline had passed since the moment at which that answer came. Nothing is asked of the clock for this.
/// - `renews`: no command is sent, nor is a null procedure of the client, before the next synchronization, whatever connections are closed and
///   made meanwhile.
/// - `set_up`: no command of a cycle is sent before each command of the setup was sent anew, and answered well.
pub fn nothing_is_sent_while_busy()
    ensures { NothingIsSentWhileBusy }
{}

/// If the plan's `every` is above 0, a cycle begins only if it is due, or somebody asked for it since the last one began (`why`). If the
/// clock doesn't go back either, it begins when it counts as begun, or later (`begins`): that is when it was due; or when it begins, if that
/// is earlier, as of the first cycle, or of one that was asked for. From then on it is known when the next one is due (`next`), and no other
/// act changes that (`stays`): `every` milliseconds after this one counts as begun. If this one was asked for before it was due, the due
/// moment stays. Where cycles begin by the clock (`at`), the next one is due `at` milliseconds after a whole multiple of `every` since
/// 1970, by the clock of time stamps as it is when this one begins: the one that is nearest to a period later.
pub fn cycles_begin_when_due()
    ensures { CyclesBeginWhenDue }
{}

/// If the plan's `every` is above 0 and the clock doesn't go back: when a command of a cycle is sent, its cycle began less than a period
/// after it counts as begun. So nothing of a missed cycle is sent.
pub fn missed_cycles_are_not_sent()
    ensures { SentOnlyInTime }
{}

/// Silence is bounded, with or without a connection. If the plan's `every` is above 0 and the clock doesn't go back:
/// - `once`: whenever a station connects, sends a request or reads, with nothing in flight that hasn't timed out, each command of
///   each cycle that was due two periods before the moment read last has its record, or was left out. The end of the run wasn't
///   asked for; and of a setup, if there is one, all is done, nothing was sent, or commands are outstanding.
/// - `always`: where no deadline is longer than `longest`, the same holds whatever is in flight, of each cycle that was due
///   `2 * every + (1 + setup) * longest` milliseconds before. The end of the run wasn't asked for, and the list has each command of the
///   setup. After each raw command before the setup's last one, seven null procedures may be lost on a bad line before the next command
///   is sent: so seven times the sum of `longest` and `call` is added for each of these, and calls return at most `call` milliseconds
///   after they are to (`CallsReturn`).
///
/// A cycle is due as `cycles_begin_when_due` says: when it counts as begun, or as long as it hasn't begun, at the due moment that is known
/// since the last one began. For each plan and each clock:
/// - `reads`: an action that connects, sends a request or reads comes directly after an act that read a moment, but for the first
///   of the run. So the moment read last is older than now by what one call takes at most, with the line feed or the close that
///   follows it.
/// - `goes`: what is left to be recorded never grows, and each act that begins a cycle, or records commands without sending them,
///   makes it less. So a row of such acts comes to an end.
pub fn each_due_cycle_is_recorded_in_time()
    ensures once { RecordsOnceTimedOut }
    ensures always { RecordsInTime }
    ensures reads { ReadsClockBefore }
    ensures goes { RecordingEnds }
{}

/// The rows of a due cycle are written within a bound of real time. If the plan's `every` is above 0, the list has each command of the
/// setup, the clock doesn't go back, and the end of the run wasn't asked for:
/// - `recorded`: at each moment that is read, each command of each cycle that was due more than the bound before has its record, or was
///   left out with its attempt. The bound is two periods, the longest deadline, once more for each command of the setup, seven times the
///   sum of that deadline and `call` for each raw command before the setup's last one, and `call` and `readings`: the calls that connect,
///   send or read return at most `call` milliseconds after they are to, together with the line feed or the close behind them and the
///   reading of the clock (`CallsReturn`); and from there on a row of readings, with the close that may be among them, takes at most
///   `readings` milliseconds (`ReadingsReturn`).
/// - `lasts`: just before each act of a run but a mere reading of the clock that is so, and all records are durable, as far as the book
///   is meant to make them so.
///
/// With no premise:
/// - `waits`: no read is asked to wait past the moment at which the cycle is out of time, nor past a deadline of what is in flight, but
///   always for a millisecond; nor for more than a minute.
pub fn each_due_cycle_is_recorded_by_its_bound()
    ensures recorded { RecordsByBound }
    ensures lasts { LastsByBound }
    ensures waits { ReadsEndInTime }
{}

/// Some run over a line on which no connection can be made meets all premises of `each_due_cycle_is_recorded_by_its_bound`: at its end
/// both cycles were due more than the bound before, and both are recorded as missed.
pub fn an_outage_is_recorded_by_its_bound()
    ensures { OutageIsRecorded }
{}

/// Five premises of `each_due_cycle_is_recorded_by_its_bound` are needed: for each of them some run meets all others, and its cycles
/// aren't recorded in time. Of the clock and the setup no such run is given.
/// - `calls`: a read returns 800 ms after its time is over.
/// - `readings`: a reading of the clock takes 800 ms.
/// - `deadlines`: a deadline is longer than the longest that the bound counts.
/// - `unasked`: the end of the run was asked for within a chain, which is finished.
/// - `due_moments`: `every` is 0, no connection can be made, and no cycle has begun when more than the bound has passed since the start
///   of the clock.
pub fn what_the_bound_asks_is_needed()
    ensures calls { CallsAreNeeded }
    ensures readings { ReadingsAreNeeded }
    ensures deadlines { DeadlinesAreNeeded }
    ensures unasked { UnaskedIsNeeded }
    ensures due_moments { DueMomentsAreNeeded }
{}

/// A station doesn't wait needlessly:
/// - `awaits`: it reads only in a pause; while it discards input until the line is quiet; while it synchronizes, and a null procedure hasn't
///   timed out or a busy answer has it wait (`hold`, whose length isn't said here); while something is in flight that hasn't timed out, and
///   no command may be sent; or until the next cycle is due, but not in the middle of a setup. One more reason is of a setup that isn't done
///   though the plan has none.
/// - `sends`: where the next command of a cycle may be sent, and neither the cycle is out of time nor the end of the run was asked
///   for, it doesn't read.
/// - `prepares`: without a setup none is to be done. So that one more reason never holds.
pub fn a_read_awaits_something()
    ensures { ReadsAwaitSomething }
{}

/// If the plan's `every` is above 0 and the clock doesn't go back, each record of a command that was missed, skipped or without a value is
/// justified, and has no time of sending. Missed: its cycle began a period after it was due, or later, and the record has the time at which
/// its cycle was due. Skipped: its cycle wasn't missed, and was overdue; or it isn't the first of its chain, and the command before
/// it wasn't answered well, or after that command was sent a connection was closed or the station resynchronized. Without a value: a value that
/// it takes of a file wasn't there at the moment read last.
pub fn unsent_ones_are_so_for_a_cause()
    ensures { UnsentForACause }
{}

/// How consecutive failures are counted. Each takes one try, and one without a try left ends the run. The pause after a failure
/// is the quiet time if the pause before was 0, and otherwise twice that pause, up to a minute and never below the quiet time. A
/// read that settles a command once a command of a cycle had its turn after the setup restores all tries and makes the pause 0;
/// other bytes change neither. A close while no connection is wanted takes no try, and makes a pause of 0 the quiet time. No act
/// but an opening, a read or a close changes the tries or the pause.
pub fn tries_and_pauses_are_counted()
    ensures { TriesAndPausesAreCounted }
{}

/// Whenever a command is sent, one of the seven requests before it since the synchronization is a call of the table that a reply
/// ended, answered or late. So an instrument that retains its reply to the last call of the table, and looks at the id first,
/// retains none with the id of the command.
pub fn each_command_is_sent_near_the_table()
    ensures { CommandsAreSentNearTheTable }
{}

/// A synchronization ends with a null procedure of the client, which is its first request, and no command is sent before a reply has
/// ended a null procedure, answered or late. Until then each null procedure is sent only once all before it have timed out: so it is
/// alone on the line.
pub fn a_synchronization_ends_with_a_null_procedure()
    ensures { SynchronizationsEndWithANull }
{}

/// The rule on raw commands never holds up a text without them: if all commands are calls of the table, no null procedure has to
/// be sent before a command for that rule's sake, once a run has synchronized and a reply has ended the null procedure that it sends
/// then, and until it is over. What comes next where a command may be sent then depends on the room for it and on whether the line
/// is dead; that it is sent isn't said. Until that reply nothing but null procedures was sent: no command is outstanding, no chain
/// goes on, and nothing of the setup was sent.
pub fn the_table_is_never_held_up()
    ensures { TheTableIsNeverHeldUp }
{}

/// A run ends as stale only if of some watched command of a cycle no answer of a good quality, confirmed where its chain is sent twice,
/// was recorded for as long as the plan allows. This time ends at the moment read last. It begins at the moment of the act that recorded such an answer of that command last, in
/// whatever attempt, or at 0 if none did; or if the clock went back since, at the least moment read since. And a run with turns left ends
/// at the first moment read at which this is so of some watched command: after that at most one act is made, a close. Nothing else renews
/// a command: neither an answer to another one, nor one of the setup. So a run ends as stale no later than one that any answer renews,
/// and the law says no less than that one's.
pub fn ends_stale_only_without_a_good_answer()
    ensures closes { ClosesStale }
    ensures stops { StopsAtItsClose cause.Stale }
    ensures ends { EndsOnceStale }
{}

/// Once a moment was read at which the end of the run was asked for, no cycle, no chain and no further attempt of one begins, and
/// no command of the setup is sent. The run ends for that by a close, which is its last act. It does so only where no command of
/// an attempt that has begun is left that may be sent, and where one of these holds: there is no connection; the station
/// synchronizes, so that nothing is outstanding; or nothing is in flight that hasn't timed out, and it is between two chains, or
/// two attempts of one, or a close cut its chain and the new connection isn't quiet yet.
pub fn stops_between_chains()
    ensures goes { GoesOnInItsChain }
    ensures closes { ClosesBetweenChains }
    ensures stops { StopsAtItsClose cause.Stopped }
{}

/// How long a run goes on once a moment was read at which its end was asked for.
/// - `soon`: it makes no connection, and sends no null procedure of a synchronization. It reads only while something is in flight that
///   hasn't timed out. And it sends at most eight requests for each command that was left of the cycle, and seven besides.
/// - `chain`: between two chains it sends none; within one at most eight for each command that was left of it, and seven besides: the
///   rest of the chain, null procedures that raw commands have to await, and null procedures after a command that timed out.
/// - `table`: if all commands are calls of the table, it sends within a chain at most one for each command that was left of it, and
///   seven null procedures, as the chain ends with a command that timed out.
///
/// `a_run_ends_by_its_bound_once_asked` says what time that takes.
pub fn a_run_ends_soon_once_asked()
    ensures soon { EndsSoonOnceAsked }
    ensures chain { FinishesItsChainOnceAsked }
    ensures table { FinishesATableChainOnceAsked }
{}

/// By when a run is at its end once that was asked for: the last moment that it reads comes at most `end_bound requests longest call
/// readings` milliseconds after the moment at which that was noticed. That is the longest deadline, one call and the readings behind it,
/// once for what is in flight, and once for each request that is sent after that. After that moment there may be a close, which reads
/// none and isn't bounded. No deadline is longer than `longest`, the clock doesn't go back, and the calls on the link and the readings of
/// the clock return in their time, as in `each_due_cycle_is_recorded_by_its_bound`. `requests` is 0 between two chains. Else it is
/// - `chain`: eight for each command that is left of the chain, and seven; if the chain is broken, none is left;
/// - `table`: if all commands are calls of the table, one for each command that is left of the chain, and seven.
pub fn a_run_ends_by_its_bound_once_asked()
    ensures chain { EndsByBoundOnceAsked }
    ensures table { EndsATableRunByBoundOnceAsked }
{}

/// What a station has done by any moment is what a run does that is given as many turns as acts were made, and returns. Take the first
/// acts of a run, at most as many as it has turns: of one that goes on, or is killed there, as of one that returned. A run that is given just
/// as many turns makes each of these acts, and then ends, at most with a close. After each of the acts but the last it has the same records;
/// after the last it may have lost what is outstanding besides. So what is true of each run that returns, whatever turns it has, is true of
/// the acts and records of each run so far.
pub fn first_acts_are_a_run()
    ensures { FirstActsAreARun }
{}
