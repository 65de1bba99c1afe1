//! Rows on a line that alters bytes, or whose instrument sends replies late: which are true, and why the others aren't.

ghost use Rattle.std.specs.Prelude.{◌≡◌, ◌↔◌, ◌+◌, ◌<◌, ◌≤◌, ◌^◌, IsTrue, IfSome, drop, length, true};
ghost use Rattle.gc_rehearsal.specs.Explained.{AreExplained, ExplainsRow, IsBookedBy, IsByDamaged, IsBehindTwo, IsDamagedAt, IsTrueByAt, IsVerdict, doubt_of, misleads};

use crate::claim::{Claim, has_no_other_line, speaks_of};
use crate::truth::Truth;

/// How many rows of replies aren't true on such a line, and why.
#[derive(Clone, Copy, Drop)]
pub(crate) struct FalseRows {
    /// How many are by a damaged reply: its bytes were altered, or those of its request, or it came late.
    pub(crate) by_damaged: u64,
    /// How many are behind two damaged replies that came since the last true row.
    pub(crate) behind_two: u64,
    /// How many of these say themselves that their values don't count: they are unconfirmed, unexpected, or disagree.
    pub(crate) in_doubt: u64,
}

/// What a row is.
#[derive(Clone, Copy)]
enum Verdict {
    // True, by the reply at this place.
    True(usize),
    // By a damaged reply.
    ByDamaged,
    // Behind two damaged replies.
    BehindTwo,
    // False, and nothing explains it.
    Unexplained,
}

/// The rows that are explained, from the first on.
#[derive(Clone, Copy)]
pub(crate) struct Explained {
    /// How many they are.
    pub(crate) rows: usize,
    /// Which of them aren't true.
    pub(crate) falses: FalseRows,
}

// Whether a reply is the one that a row booked: it came at the row's moment, and is the row's line, if it has one.
fn is_booked_by(claim: &Claim, truth: &Truth) -> bool
    ensures { IsTrue result ↔ IsBookedBy claim.now truth.now }
{
    claim.at == truth.given && has_no_other_line(claim, &truth.reply)
}

// The place of the first reply by which a row is true: no bytes were altered of it, and the row speaks of it. Replies that came after the
// row's moment aren't looked at.
fn place_of_true(claim: &Claim, left: &[Truth]) -> Option<usize>
    ensures { IfSome result (λ place. IsTrueByAt claim.now left.now place) }
{
    let mut place = 0;
    while let Some(truth) = left.get(place) {
        if truth.given > claim.at {
            return None;
        }
        if !truth.is_damaged && speaks_of(claim, truth) {
            return Some(place);
        }
        place += 1;
    }
    None
}

// Whether a reply may have been booked for a request that isn't its own: it is damaged, or came late.
fn misleads(truth: &Truth) -> bool
    ensures { result ≡ misleads truth.now }
{
    truth.is_damaged || truth.is_late
}

// Whether a row is by a damaged reply.
fn is_by_damaged(claim: &Claim, left: &[Truth]) -> bool
    ensures { result ≡ true → IsByDamaged claim.now left.now }
{
    let mut place = 0;
    while let Some(truth) = left.get(place) {
        if truth.given > claim.at {
            return false;
        }
        if misleads(truth) && is_booked_by(claim, truth) {
            return true;
        }
        place += 1;
    }
    false
}

// The place of the first damaged reply from the place `from` on that came by the moment `at`.
fn place_of_damaged(at: u64, left: &[Truth], from: usize) -> Option<usize>
    ensures { IfSome result (λ place. (from ≤ place) × IsDamagedAt at left.now place) }
{
    let mut place = from;
    while let Some(truth) = left.get(place) {
        if truth.given > at {
            return None;
        }
        if truth.is_damaged {
            return Some(place);
        }
        place += 1;
    }
    None
}

// Whether a row is behind two damaged replies.
fn is_behind_two(claim: &Claim, left: &[Truth]) -> bool
    ensures { result ≡ true → IsBehindTwo claim.now left.now }
{
    let Some(first) = place_of_damaged(claim.at, left, 0) else {
        return false;
    };
    place_of_damaged(claim.at, left, first + 1).is_some()
}

// What a row is, by the replies that came since the last true row.
fn verdict_of(claim: &Claim, left: &[Truth]) -> Verdict
    ensures { IsVerdict claim.now left.now result }
{
    if let Some(place) = place_of_true(claim, left) {
        return Verdict::True(place);
    }
    if is_by_damaged(claim, left) {
        return Verdict::ByDamaged;
    }
    if is_behind_two(claim, left) {
        return Verdict::BehindTwo;
    }
    Verdict::Unexplained
}

// The replies after the one at this place, which there is.
fn after_place(truths: &[Truth], place: usize) -> &[Truth]
    requires { place < length truths.now }
    ensures { result.now ≡ drop (place + 1) truths.now }
{
    &truths[place + 1..]
}

// How many rows in doubt this one is: 1, if it says itself that its values don't count.
fn doubt_of(claim: &Claim) -> u64
    ensures is { result ≡ doubt_of claim.now }
    ensures once { result ≤ 1 }
{
    if claim.is_in_doubt { 1 } else { 0 }
}

// Explains the next row, where the replies `left` came since the last true row, and so many rows before weren't true: returns the replies
// since the last true row once this row is one of those before, and how many aren't true then. `None`: nothing explains the row.
fn explain_row<'a>(
    claim: &Claim,
    left: &'a [Truth],
    falses: FalseRows,
) -> Option<(&'a [Truth], FalseRows)>
    requires few { falses.by_damaged + falses.behind_two + 1 < 2 ^ 64 }
    requires doubts { falses.in_doubt + 1 < 2 ^ 64 }
    ensures { IfSome result (λ next. ExplainsRow claim.now left.now falses next.0.now next.1) }
{
    let FalseRows {
        by_damaged,
        behind_two,
        in_doubt,
    } = falses;
    match verdict_of(claim, left) {
        Verdict::True(place) => Some((after_place(left, place), falses)),
        Verdict::ByDamaged => Some((
            left,
            FalseRows {
                by_damaged: by_damaged + 1,
                behind_two,
                in_doubt: in_doubt + doubt_of(claim),
            },
        )),
        Verdict::BehindTwo => Some((
            left,
            FalseRows {
                by_damaged,
                behind_two: behind_two + 1,
                in_doubt: in_doubt + doubt_of(claim),
            },
        )),
        Verdict::Unexplained => None,
    }
}

/// Explains the rows of replies, in their order, up to the first that nothing explains: it isn't true, no damaged reply is the one that
/// it booked, and fewer than two damaged ones came since the last true row.
pub(crate) fn explain(claims: &[Claim], truths: &[Truth]) -> Explained
    ensures { length claims.now ≤ result.rows → AreExplained claims.now truths.now result.falses.by_damaged result.falses.behind_two result.falses.in_doubt }
{
    let mut rows = 0;
    let mut falses = FalseRows {
        by_damaged: 0,
        behind_two: 0,
        in_doubt: 0,
    };
    let mut left = truths;
    while let Some(claim) = claims.get(rows) {
        let Some((since, more)) = explain_row(claim, left, falses) else {
            return Explained { rows, falses };
        };
        left = since;
        falses = more;
        rows += 1;
    }
    Explained { rows, falses }
}
