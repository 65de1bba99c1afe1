//! What is proved of every run on the instrument of a scene, whatever its rules say. Each function does nothing: its contract is the
//! law.
//!
//! A request's number is its place among the requests sent, counted from 0. In the run by ids the client knows requests by ids of one
//! digit; in the run by numbers it is told each reply's number. The client's window is at most seven wide.

ghost use Rattle.gc_world.specs.SceneLaws.{BooksExecutions, BooksOwnLines, ExecutesEachTime};
ghost use Rattle.gc_world.specs.SceneRuns.{scene_ends};
ghost use Rattle.gc_world.specs.FirstReply.{BooksFirstReply, FirstReplyIsLate, IsInTimeOrTooLate, IsNeverInTimeAndTooLate, NoSecondReply};
ghost use Rattle.gc_world.specs.Laws.{KeepsOrder, RunsAgree, SettlesInOrder};

/// Settlement m has the target and the call of request m, and there are no more settlements than requests sent.
pub fn settlements_are_one_for_one()
    ensures { SettlesInOrder scene_ends }
{}

/// The client that knows ids alone does what an oracle client would do that knew each reply's request.
pub fn runs_agree()
    ensures { RunsAgree scene_ends }
{}

/// Where a settlement is an answer, its line is one that the instrument sent when it was given the very request that is settled:
/// a reply made then, or a stored reply that it sent again. Which of the two [`answers_are_made_on_executing`] says.
pub fn answers_are_booked()
    ensures { BooksOwnLines }
{}

/// Where a scene's instrument stores its last reply, as it does unless the scene has `repeats no`: each answer that is booked was
/// made on executing that very request, each line that the instrument sent is the reply of an execution, and it executes each
/// request at most once, in order. Where it stores none, each line that it sent was made on executing its request, each time that
/// the request came.
pub fn answers_are_made_on_executing()
    ensures stores { BooksExecutions }
    ensures stores_none { ExecutesEachTime }
{}

/// When the last byte of a reply to an unsettled request is delivered, the unsettled requests before that request are settled as
/// lost. The request itself is settled as answered with that very line if the client was given no time at or past the request's
/// deadline since its send, and else as late. A further reply settles nothing.
pub fn first_reply_is_booked()
    ensures in_time { BooksFirstReply scene_ends }
    ensures late { FirstReplyIsLate scene_ends }
    ensures one_or_other { IsInTimeOrTooLate scene_ends }
    ensures never_both { IsNeverInTimeAndTooLate scene_ends }
    ensures first_alone { NoSecondReply scene_ends }
{}

/// In each queue the numbers never fall from front to back, and no reply in flight has a higher number than a request in flight.
/// Every number in flight is below the count of requests sent, and at least the count of settlements less one. At most as many
/// requests are unsettled as the window is wide.
pub fn line_keeps_order()
    ensures { KeepsOrder scene_ends }
{}
