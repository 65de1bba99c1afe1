//! What is proved of the runs themselves. Each function does nothing: its contract is the law.
//!
//! A request's number is its place among the requests sent, counted from 0. A reply in flight has the number of its request.
//! In the run by ids the client knows requests by ids of one digit; in the run by numbers it is given each reply's number.
//! Where a law needs that the client's window is at most seven wide, its contract says so, and its comment leaves it out. The
//! last law shows what happens at eight.

ghost use Rattle.gc_world.specs.Clients.{ends};
ghost use Rattle.gc_world.specs.FirstReply.{BooksFirstReply, FirstReplyIsLate, IsNeverInTimeAndTooLate, IsInTimeOrTooLate, NoSecondReply};
ghost use Rattle.gc_world.specs.Laws.{KeepsOrder, KeepsRecent, RunsAgree, SettlesInOrder, BooksItsOwn, RepliesAreFine, ExecutionsAreRecorded};
ghost use Rattle.gc_world.specs.declared.direction.Direction.{Direction};
ghost use Rattle.gc_world.specs.Pieces.{BytesAdd, BytesEnd};
ghost use Rattle.gc_world.specs.Width.{EightDiffers, EightSettlesNine, NumbersSettleOne};

/// In each queue the numbers never fall from front to back, and no reply in flight has a higher number than a request in
/// flight. Every number in flight is below the count of requests sent, and at least the count of settlements less one. At most
/// as many requests are unsettled as the window is wide.
pub fn line_keeps_order()
    ensures { KeepsOrder ends }
{}

/// While the instrument keeps a reply, every request in flight is the one executed last, or one of the w requests sent next after that
/// one, where w is the width of the window. So a request in flight with the kept reply's id is the one executed last, repeated.
pub fn kept_reply_is_recent()
    ensures { KeepsRecent }
{}

/// The client that knows ids alone does what an oracle client would do that knew each reply's request.
pub fn runs_agree()
    ensures { RunsAgree ends }
{}

/// Settlement m has the target and the call of request m, and there are no more settlements than requests sent.
pub fn settlements_are_one_for_one()
    ensures { SettlesInOrder ends }
{}

/// If the restarted opening state is fitting (`IsFittingState`), each answer that is booked was made for the very request that it
/// settles, and, if the numbers of its call are in the ranges of their types, reads as a value or a refusal.
pub fn answers_are_booked()
    ensures own { BooksItsOwn }
    ensures fine { RepliesAreFine }
{}

/// Each reply that the instrument made answers a request that it executed, each request that it executed has its reply among
/// those made, and it executes each request at most once, in order.
pub fn executions_are_recorded()
    ensures { ExecutionsAreRecorded }
{}

/// When the last byte of a reply to an unsettled request is delivered, the unsettled requests before that request are settled as
/// lost. The request itself is settled as answered with that very line if the client was given no time at or past the request's
/// deadline since its send, and else as late. A further reply settles nothing. If the bytes of one event complete several
/// replies, each is delivered in turn, by [`bytes_go_over_in_turn`].
pub fn first_reply_is_booked()
    ensures in_time { BooksFirstReply ends }
    ensures late { FirstReplyIsLate ends }
    ensures one_or_other { IsInTimeOrTooLate ends }
    ensures never_both { IsNeverInTimeAndTooLate ends }
    ensures first_alone { NoSecondReply ends }
{}

/// Whether bytes that are in flight are delivered in one event or in two, of one byte at least, and so in any number of events, they
/// lead to the same streams: each line that they complete is delivered with its own last byte. If an event is to deliver more
/// bytes than are in flight, those in flight are delivered.
pub fn bytes_go_over_in_turn()
    ensures adds { (direction : Direction) → BytesAdd direction }
    ensures ends { (direction : Direction) → BytesEnd direction }
{}

/// With a window of eight, the client that knows ids alone no longer does what the oracle client would do: a repeat of the
/// first reply settles the ninth request.
pub fn window_of_eight_differs()
    ensures differs { EightDiffers }
    ensures by_ids { EightSettlesNine }
    ensures by_numbers { NumbersSettleOne }
{}
