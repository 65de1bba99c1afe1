//! What is proved of damage at a client and its line. A damaged line that comes is any but one that the instrument made on executing an
//! undamaged request, and that arrived as it was made. A line answers a request in time or late; the requests before that one, which it
//! settles as lost, aren't counted as answered by it. The window counts all outstanding requests, also those that have timed out: a
//! station's is always seven wide, whatever its `--width`, which limits those that haven't. Each function does nothing: its contract is the
//! law.

ghost use Rattle.gc_theorems.specs.Damage.{DamageIsLocalWhileFresh, FreshnessIsNeeded};
ghost use Rattle.gc_theorems.specs.ClientHoldingBack.{HeldBackDamageIsLocal};
ghost use Rattle.gc_theorems.specs.PremisesMet.{PremisesAreMet};
ghost use Rattle.gc_theorems.specs.Slack.{DamageIsLocalWithSlack, RareDamageIsLocal, WithoutDamageEachAnswerIsOwn};
ghost use Rattle.gc_theorems.specs.Spreading.{HoldingBackMayStop, OneDamagedLineSpreads, RareBoundIsSharp, TwoInARowSpread};
ghost use Rattle.gc_theorems.specs.Strays.{StraysAreOfTheLast};
ghost use Rattle.gc_theorems.specs.ClientSynchronizing.{FiveAreBorne, IsDamagedSynchronization, SixAreTooMany};
ghost use Rattle.gc_theorems.specs.TwoQueues.{DamageIsLocalOverTheLine};

/// Damage is local if each undamaged line comes before the ninth request is sent, counted from its own: a request that an undamaged line
/// answered was answered by a line made for it, and each damaged line answers one request at most.
pub fn damage_is_local_while_fresh<Q>()
    ensures { DamageIsLocalWhileFresh Q }
{}

/// An undamaged line that comes while the request eight after its own is outstanding answers that one.
pub fn freshness_is_needed<Q>()
    ensures { FreshnessIsNeeded Q }
{}

/// Damage is local if at each send each line in flight has slack. A line has slack if damaged lines have settled at most 7 less the
/// window's width requests since its own was sent, as answered or as lost.
pub fn damage_is_local_with_slack<Q>()
    ensures { DamageIsLocalWithSlack Q }
{}

/// Damage is local if at most k damaged lines come while a line of any one request is in flight, and the window is at most 7 / (k + 1)
/// wide.
pub fn rare_damage_is_local<Q>()
    ensures { RareDamageIsLocal Q }
{}

/// That bound is sharp for each window, by computed runs. With one damaged line more than it allows, an undamaged line answers a request
/// that it wasn't made for.
pub fn rare_bound_is_sharp()
    ensures { RareBoundIsSharp }
{}

/// Without damage each request that a line answered was answered by a line made for it. Nothing else is asked.
pub fn without_damage_each_answer_is_own<Q>()
    ensures { WithoutDamageEachAnswerIsOwn Q }
{}

/// Without damage a stray has the id before that of the oldest outstanding request, or before the next id if none is outstanding. It is of
/// the request that was settled last. So a stray with any other id shows that it, or a line before it, was damaged.
pub fn strays_are_of_the_last<Q>()
    ensures { StraysAreOfTheLast Q }
{}

/// With a window of seven one damaged line spreads, in a computed run. The undamaged lines after it answer requests that they weren't made
/// for.
pub fn one_damaged_line_spreads()
    ensures { OneDamagedLineSpreads }
{}

/// If the client holds back, damage is local as long as no two lines in a row that settle something are damaged. It holds back if it sends
/// only while the outstanding requests, and those that the last line settled that settled any, are together fewer than seven. With a window
/// of at most six there is room for a send whenever nothing is outstanding. If what was sent after a line that settled six is lost, only a
/// resynchronization helps.
pub fn held_back_damage_is_local<Q>()
    ensures { HeldBackDamageIsLocal Q }
{}

/// Two such lines in a row spread also if the client holds back, in a computed run.
pub fn two_in_a_row_spread()
    ensures { TwoInARowSpread }
{}

/// Without damage a client that holds back may have to resynchronize, in a computed run. The request that it sent after a line that settled
/// six is lost: nothing is in flight, and there is no room for a send.
pub fn holding_back_may_stop()
    ensures { HoldingBackMayStop }
{}

/// Damage is local over requests and replies in flight, if at each send each whole line that is in flight or kept has slack. The instrument
/// keeps its reply to the request that it executed last, or nothing. One that executes a raw request and goes on keeping an older reply
/// can't be expressed here.
pub fn damage_is_local_over_the_line<Q>()
    ensures { DamageIsLocalOverTheLine Q }
{}

/// Computed runs meet the premises of the laws above. In those on local damage two damaged lines answer requests.
pub fn premises_are_met()
    ensures { PremisesAreMet }
{}

/// After a synchronization with at most five damaged answers no line from before is in flight or kept, in a model of the line as one list.
/// In flight and kept at its start is what a run leaves that had synchronized, whose sends were fresh, and whose requests were calls of the
/// table. Nothing is said of replies to the null procedures: if a damaged line answers the eighth, one with the first command's id may be in
/// flight, or an instrument may keep it and send it for that command. `own_eighth_is_clean` of gc_theorems excludes that.
pub fn five_are_borne()
    ensures { FiveAreBorne }
{}

/// A computed synchronization with five damaged answers meets the premises of that law.
pub fn some_synchronization_is_damaged()
    ensures { IsDamagedSynchronization }
{}

/// Six damaged answers are too many, in a computed run: a line from before is left that has the first command's id.
pub fn six_are_too_many()
    ensures { SixAreTooMany }
{}
