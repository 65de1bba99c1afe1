//! How requests end: settlements are written in place into a list of the caller's, and no line is copied twice. The compiler zeroes a
//! large value at the entry of the function that holds it. So each large value that is seldom needed is made in a function of its own.

ghost use Rattle.std.specs.Prelude.{◌≡◌, ◌+◌, ◌<◌, ◌≤◌, length, drop, Ok};
ghost use Rattle.arrayvec.specs.ArrayVec.{array_vec_len};
ghost use Rattle.gc_lines.specs.Replies.{reply_seen};
ghost use Rattle.gc_lines.specs.Readers.{reply_at};
ghost use Rattle.gc_client.specs.Rule.{lost, settled_by_line};
ghost use Rattle.gc_client.specs.Hearing.{AreFirstLost};
ghost use Rattle.gc_client.specs.Settlements.{IsAnsweredBy, IsSettledBy};
ghost use Rattle.gc_client.specs.declared.settlement.Outcome.TheVariants.{Late};

use crate::pending::Pending;
use crate::settlement::{Outcome, Settlement};
use crate::window::{WINDOW, Window};
use arrayvec::ArrayVec;
use gc_catalogue::{Asking, Reading};
use gc_lines::{Line, Reply, append, line_from};

/// Cuts or fills a list to `count` settlements, at most 7. Each is to be written over: those that are kept stay as they were, and
/// new ones stand for no request.
#[inline(always)]
pub(crate) fn make_places<Q: Asking>(settled: &mut ArrayVec<Settlement<Q>, WINDOW>, count: usize)
    requires { count ≤ WINDOW }
    ensures { array_vec_len settled.new ≡ count }
{
    settled.truncate(count);
    for _ in settled.len()..count {
        push_place(settled);
    }
}

// Appends a settlement that stands for no request and is to be written over. Its outcome is `Answered`, so that an answer can be
// written into its parts. The function has a frame of its own, because a settlement is large.
#[inline(never)]
fn push_place<Q: Asking>(settled: &mut ArrayVec<Settlement<Q>, WINDOW>)
    requires { array_vec_len settled.old < WINDOW }
    ensures { array_vec_len settled.new ≡ array_vec_len settled.old + 1 }
{
    settled.push(Settlement {
        target: 0,
        call: Q::blank(),
        outcome: Outcome::Answered(Reading::Refused(0), Line::new()),
    });
}

/// Takes the first `count` requests out of a window, and writes their settlements as lost into the first `count` places of a list,
/// which has at least that many. The list keeps its length.
#[inline]
pub(crate) fn lose<W: Window>(
    window: &mut W,
    count: usize,
    settled: &mut ArrayVec<Settlement<W::Asked>, WINDOW>,
)
    requires count { count ≤ length (W.pendings window.old) }
    requires within { length (W.pendings window.old) ≤ WINDOW }
    requires places { count ≤ array_vec_len settled.old }
    ensures settled { AreFirstLost W.Asked.says count (W.pendings window.old) settled.new.items }
    ensures places { array_vec_len settled.new ≡ array_vec_len settled.old }
    ensures left { W.pendings window.new ≡ drop count (W.pendings window.old) }
{
    for k in 0..count {
        let p = window.take_first();
        if let Some(settlement) = settled.get_mut(k) {
            set_lost(&p, settlement);
        }
    }
}

// Writes the settlement of a request that is lost. The function has a frame of its own, because an outcome is large.
#[inline(never)]
fn set_lost<Q: Asking>(p: &Pending<Q>, settlement: &mut Settlement<Q>)
    ensures { IsSettledBy Q.says settlement.new (lost p.now) }
{
    settlement.target = p.target;
    settlement.call = p.call;
    settlement.outcome = Outcome::Lost;
}

/// Writes the settlement of a request whose reply came: late where the request had timed out, else answered.
#[inline(never)]
pub(crate) fn set_replied<Q: Asking>(
    p: &Pending<Q>,
    reply: &Reply<'_>,
    line: &[u8],
    settlement: &mut Settlement<Q>,
)
    requires reads { reply_at line.now ≡ Ok (reply_seen reply.now) }
    requires short { length line.now ≤ 512 }
    ensures { IsSettledBy Q.says settlement.new (settled_by_line p.now line.now) }
{
    settlement.target = p.target;
    settlement.call = p.call;
    if p.given_up {
        set_late(&mut settlement.outcome);
    } else {
        set_answered(&p.call, reply, line, &mut settlement.outcome);
    }
}

// Writes that a reply came late. The function has a frame of its own, because an outcome is large.
#[inline(never)]
fn set_late(outcome: &mut Outcome)
    ensures { outcome.new ≡ Late }
{
    *outcome = Outcome::Late;
}

// Writes the answer that a reply in time gives. Where `outcome` is an answer already, the new one is written over its parts.
#[inline]
fn set_answered<Q: Asking>(call: &Q, reply: &Reply<'_>, line: &[u8], outcome: &mut Outcome)
    requires { length line.now ≤ 512 }
    ensures { IsAnsweredBy Q.says call.now (reply_seen reply.now) line.now outcome.new }
{
    match outcome {
        Outcome::Answered(reading, copy) => {
            call.read_into(reply, reading);
            copy.clear();
            append(copy, line);
        },
        other => set_answered_anew(call, reply, line, other),
    }
}

// Writes the answer that a reply in time gives, whatever `outcome` is. The function has a frame of its own, because an outcome
// is large.
#[inline(never)]
fn set_answered_anew<Q: Asking>(call: &Q, reply: &Reply<'_>, line: &[u8], outcome: &mut Outcome)
    requires { length line.now ≤ 512 }
    ensures { IsAnsweredBy Q.says call.now (reply_seen reply.now) line.now outcome.new }
{
    let mut reading = Reading::Refused(0);
    call.read_into(reply, &mut reading);
    *outcome = Outcome::Answered(reading, line_from(line));
}
