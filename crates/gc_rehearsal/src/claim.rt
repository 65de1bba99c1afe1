//! Claims: what rows say of replies, and the comparison with the truth.

ghost use Rattle.std.specs.Prelude.{◌≡◌, ◌↔◌, ◌+◌, ◌<◌, IsTrue, IfNone, IfSome, OnSome};
ghost use Rattle.gc_rehearsal.specs.Claims.{IsRequestFor, SpeaksOf, MatchesNext, AreTrue, IsAmong};

use crate::truth::Truth;
use gc_catalogue::{Asked, encode_asked};
use gc_lines::Line;
use gc_texts::Stamp;

/// What a row says of a reply: that the request of its command was answered by it, or that the reply came late. `sent` and `at` are in
/// milliseconds since the line was made.
#[derive(Drop)]
pub struct Claim {
    /// The last moment that the clock gave before the request was sent.
    pub sent: u64,
    /// The last moment that the clock had given when the command ended.
    pub at: u64,
    /// How long after `sent` a reply is in time, in milliseconds.
    pub deadline: u64,
    /// Which request it was: how many were sent before it since the line was made, null procedures apart, by the rows.
    pub request: u64,
    /// What was asked.
    pub call: Asked,
    /// The reply's line that the row has. `None`: the row has none, because the reply came late.
    pub line: Option<Line>,
    /// The row's moments, in milliseconds since 1970, the id of its request, and its cycle, place and turn.
    pub stamp: Stamp,
    /// Whether the row's values don't count, by what it says itself: it is unconfirmed, unexpected, or disagrees.
    pub is_in_doubt: bool,
    /// The row's target.
    pub target: u32,
    /// Which row it is, counted from 1 over all nights.
    pub row: u64,
}

// Whether `asked` is the request line of this call with this id, which is from 0 to 7.
fn is_request_for(id: u8, call: &Asked, asked: &[u8]) -> bool
    ensures { IsTrue result ↔ IsRequestFor id call.now asked.now }
{
    if id >= 8 {
        return false;
    }
    let line = encode_asked(Some(id), call);
    asked == line.as_slice()
}

// Whether a row has no line, or has the line of this reply.
pub(crate) fn has_no_other_line(claim: &Claim, reply: &Line) -> bool
    ensures { IsTrue result ↔ IfSome claim.now.line (λ l. l.items ≡ reply.now.items) }
{
    match &claim.line {
        Some(line) => line.as_slice() == reply.as_slice(),
        None => true,
    }
}

// Whether the claim's reply came before its deadline. A reply before `sent`, as a clock that was set back gives it, counts as one
// in time, also if `deadline` is 0.
fn is_in_time(claim: &Claim) -> bool
    ensures { IsTrue result ↔ claim.now.at < claim.now.sent + claim.now.deadline }
{
    claim.at < claim.sent || claim.at - claim.sent < claim.deadline
}

// Whether a reply (`truth`) is the one that a claim speaks of: it came at the claim's moment, in time exactly if the claim has a line,
// which then is the reply's; and its request is the claim's, asked for the claim's call with the id that the row says, and was sent
// when the claim says.
pub(crate) fn speaks_of(claim: &Claim, truth: &Truth) -> bool
    ensures { IsTrue result ↔ SpeaksOf claim.now truth.now }
{
    claim.at == truth.given
        && claim.request == truth.request
        && claim.sent == truth.sent
        && is_in_time(claim) == claim.line.is_some()
        && has_no_other_line(claim, &truth.reply)
        && is_request_for(claim.stamp.id, &claim.call, truth.asked.as_slice())
}

// How many claims, from the first on, are matched with replies once this reply came, if `matched` were before it: one more if the
// claim after them speaks of this reply.
fn matched_with(claims: &[Claim], matched: usize, truth: &Truth) -> usize
    ensures { MatchesNext claims.now matched truth.now result }
{
    match claims.get(matched) {
        Some(claim) if speaks_of(claim, truth) => matched + 1,
        _ => matched,
    }
}

/// The first claim that isn't true: the claims before it speak of replies that came, in their order, and it speaks of none that
/// came after those. `None`: all claims are true. Which of the claims it is the contract doesn't say.
pub fn first_false<'a>(claims: &'a [Claim], truths: &[Truth]) -> Option<&'a Claim>
    ensures all_true { IfNone result (AreTrue claims.now truths.now) }
    ensures not_all { OnSome result (AreTrue claims.now truths.now → ⊥) }
    ensures among { IfSome result (λ claim. IsAmong claims.now claim.now) }
{
    let mut matched = 0;
    for truth in truths {
        matched = matched_with(claims, matched, truth);
    }
    claims.get(matched)
}
