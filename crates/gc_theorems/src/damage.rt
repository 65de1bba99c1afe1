//! What is proved of the field with damage, for any instrument. To what happens in the field two things are added: a damaged line comes to
//! the client, any line at any time; and a request that damage made reaches the instrument, any request with an id from 0 to 7, at any
//! time. An answer is own if its line was made on executing that very request. Each request that the client sends after a synchronization
//! is a call of the table, or the instrument keeps after each request, also a raw one, its own reply or none: in each law on steps this is
//! a premise of its sends. The window counts all outstanding requests, also those that
//! have timed out: a station's is always seven wide, whatever its `--width`, which limits those that haven't. Each function does nothing:
//! its contract is the law.

ghost use Rattle.gc_theorems.specs.Agreed.{AgreedRowsHaveAnOwnAnswer};
ghost use Rattle.gc_theorems.specs.DamagedChains.{ChainsAreExecutedInOrder};
ghost use Rattle.gc_theorems.specs.DamagedRun.{IsDamagedRun, IsDamagedStretch};
ghost use Rattle.gc_theorems.specs.DamagedStation.{IsDamagedStation};
ghost use Rattle.gc_theorems.specs.Harm.{AnswersAreOwnOrDamaged};
ghost use Rattle.gc_theorems.specs.DamagedHoldingBack.{HeldBackDamageIsLocalInField};
ghost use Rattle.gc_theorems.specs.Rarely.{RareDamageIsLocalInField};
ghost use Rattle.gc_theorems.specs.DamagedRuns.{DamageOnceSynchronizedIsApart, RunsWithDamageAreLocal, SimulatorsRunsWithDamageAreLocal};
ghost use Rattle.gc_theorems.specs.DamagedSessions.{SessionsWithDamageAreLocal, SimulatorsSessionsWithDamageAreLocal};
ghost use Rattle.gc_theorems.specs.Stretch.{StretchesAreLocal};
ghost use Rattle.gc_theorems.specs.DamagedSynchronizing.{OwnEighthIsClean};
ghost use Rattle.gc_theorems.specs.UndamagedRuns.{UndamagedRunsAreInstances};
ghost use Rattle.gc_theorems.specs.WithoutDamage.{WithoutDamageAllIsOwn};

/// For any instrument, after a clean synchronization: if each send is fresh, each answer was made on executing its very request, or its
/// line is damaged, and each damaged line makes one such answer at most.
pub fn answers_are_own_or_damaged<State>()
    ensures { AnswersAreOwnOrDamaged State }
{}

/// Without damage each send is fresh, and each answer is own. This is of any instrument, after a clean synchronization, if the client asks
/// only for calls of the table.
pub fn without_damage_all_is_own<State>()
    ensures { WithoutDamageAllIsOwn State }
{}

/// If damage is rare for the window's width, each send is fresh, and each answer is own or damaged. It is rare if at most k damaged lines
/// come while a line of any one request is in flight or kept, and the window is at most 7 / (k + 1) wide.
pub fn rare_damage_is_local_in_field<State>()
    ensures { RareDamageIsLocalInField State }
{}

/// The same holds if the client holds back, and no two lines in a row that settle something are damaged. It holds back if it sends only
/// while the outstanding requests, and those that the last line settled, are together fewer than seven.
pub fn held_back_damage_is_local_in_field<State>()
    ensures { HeldBackDamageIsLocalInField State }
{}

/// If the eighth null procedure is answered by its own reply, the synchronization is clean, whatever was damaged, but for what the
/// instrument keeps. Whatever is in flight at its start, be it the word, nothing of it is in flight at its end; and what the instrument
/// keeps has the id 7, or is its reply to a request that damage made.
pub fn own_eighth_is_clean<State>()
    ensures { OwnEighthIsClean State }
{}

/// After such a synchronization each answer is own or damaged, if each send is fresh.
pub fn stretches_are_local<State>()
    ensures { StretchesAreLocal State }
{}

/// A computed run over the simulator meets the premises of the laws on steps. Two of its answers are by damaged lines.
pub fn some_run_is_damaged()
    ensures { IsDamagedRun }
{}

/// A computed synchronization over the simulator, and steps after it, meet the premises of the laws on synchronizations. Seven of its null
/// procedures are answered by damaged lines.
pub fn some_stretch_is_damaged()
    ensures { IsDamagedStretch }
{}

/// Over a line that damages, the line of each answer that a station records, and of each late reply, was made on executing the request of
/// that very cycle and place, or is a damaged one. This is of any instrument, whatever is lost, repeated or damaged in both directions, and
/// whatever is in flight at the start, be it the word, if the station asks only for calls of the table, unless the instrument keeps after
/// each request its own reply or none. It is so in each stretch in which damage is apart: its eighth null procedure is answered by its own
/// reply, or nothing is damaged while it synchronizes and the word isn't in flight at its start; and of the lines that settle something
/// after that, no two in a row are damaged. And in no run more requests are settled by lines that came damaged than such lines came. The
/// station does its part by `requests_are_held_back` of gc_station.
pub fn runs_with_damage_are_local<State>()
    ensures { RunsWithDamageAreLocal State }
{}

/// In such a run the answer of a second sending is by the instrument's own line, or agrees with one that is, unless both lines are damaged.
/// A line is the instrument's own if it was made on executing the very request of its record. This is of each record of a second sending
/// that is answered and not refused, and of the record of the first sending before it (`agreed_rows_agree` of gc_station), if damage is
/// apart in the stretches of the two requests. If both lines are damaged, they came at two steps. So to agree with no answer that the
/// instrument gave to one of the two requests, such an answer takes two damaged lines.
pub fn agreed_rows_have_an_own_answer<State>()
    ensures { AgreedRowsHaveAnOwnAnswer State }
{}

/// In such a run the commands of a chain whose answers are the instrument's own lines were executed in the order of the chain. If a command
/// of a chain was answered, each command before it in the chain has a record that is an answer of a good quality, and the requests of both
/// are in one stretch. If each of the two lines was made on executing the very request of its record, the request of the earlier command
/// was executed at an earlier step. If one of the two lines is damaged, nothing follows.
pub fn chains_are_executed_in_order<State>()
    ensures { ChainsAreExecutedInOrder State }
{}

/// In such a run damage is apart in each stretch if the word isn't in flight at the start, nothing is damaged while the station
/// synchronizes, and no two lines in a row that settle something after that are damaged.
pub fn damage_once_synchronized_is_apart<State>()
    ensures { DamageOnceSynchronizedIsApart State }
{}

/// Each run of `runs_are_faithful` is such a run, and damage is apart in each of its stretches. This is so if the station asks only for
/// calls of the table, or the instrument keeps after each request its own reply or none.
pub fn undamaged_runs_are_instances<State>()
    ensures { UndamagedRunsAreInstances State }
{}

/// `runs_with_damage_are_local` of the simulator, in any state whose values lie in their types (`IsFittingState`).
pub fn simulators_runs_with_damage_are_local()
    ensures { SimulatorsRunsWithDamageAreLocal }
{}

/// Some run meets every premise of `simulators_runs_with_damage_are_local`. Its first command's answer is a damaged line, and its second
/// command's was made on executing the command's own request.
pub fn some_station_is_damaged()
    ensures { IsDamagedStation }
{}

/// Over a line that damages, the line of each answer that a session settles, and of each late reply, was made on executing that very request,
/// or is a damaged one. This is of any instrument, any settings and any calls, whatever is lost, repeated or damaged in both directions, and
/// whatever is in flight at the start, be it the word, if the caller asks only for calls of the table, unless the instrument keeps after each
/// request its own reply or none. It is so in each stretch in which damage is apart, as `runs_with_damage_are_local` says of a station's. And
/// in no run more requests are settled by lines that came damaged than such lines came. The session does its part by
/// `requests_are_held_back` of gc_session.
pub fn sessions_with_damage_are_local<State>()
    ensures { SessionsWithDamageAreLocal State }
{}

/// `sessions_with_damage_are_local` of the simulator, in any state whose values lie in their types (`IsFittingState`).
pub fn simulators_sessions_with_damage_are_local()
    ensures { SimulatorsSessionsWithDamageAreLocal }
{}
