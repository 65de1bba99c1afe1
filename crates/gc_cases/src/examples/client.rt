//! The client's parts, once: a window on the heap, and a client that takes no memory.

use crate::examples::outcome::OnceOutcome;
use arrayvec::ArrayVec;
use gc_catalogue::Call;
use gc_client::{Client, Heard, Hearing, Outcome, Ring, Settlement, Slots, Window};
use gc_lines::{Line, LineFault, append};
use std::alloc::Global;

/// Makes a ring: `Exact` if it is an empty window, `NoMemory` if memory ran out for it, and else `Other`.
pub fn make_ring(alloc: Global) -> OnceOutcome {
    match Ring::new(alloc) {
        Ok(ring) => OnceOutcome::of_answer(ring.len() == 0),
        Err(_) => OnceOutcome::NoMemory,
    }
}

/// Has a client with `Slots`, which takes no memory, send two requests, of which the first times out and gets its reply late, and
/// the second is lost with a restart. Returns `Exact` if each call gave what it should, and else `Other`.
pub fn call_client() -> OnceOutcome {
    let mut client = Client::new(Slots::new());
    OnceOutcome::of_answer(
        send_two(&mut client) && hear_lines(&mut client) && restart_client(&mut client),
    )
}

// Sends two requests, of which the first times out at the moment 10, its deadline. Returns whether each call gave what it should.
fn send_two(client: &mut Client<Slots>) -> bool {
    let mut second = Line::new();
    let Ok(first) = client.send(1, Call::NullProc, 10) else {
        return false;
    };
    let Ok(()) = client.send_into(2, &Call::InstrumentNo, 20, &mut second) else {
        return false;
    };
    first.as_slice() == b"%R1Q,0,0:".as_slice()
        && second.as_slice() == b"%R1Q,5003,1:".as_slice()
        && client.next_deadline() == Some(10)
        && client.expire(10).as_slice() == [1].as_slice()
}

// Hears the first request's reply, which is late, its repeat, which is a stray, and a line that is no reply. Returns whether each
// call gave what it should.
fn hear_lines(client: &mut Client<Slots>) -> bool {
    let mut reply = Line::new();
    append(&mut reply, b"%R1P,0,0:0");
    let Heard::Settled(late) = client.on_line(&reply) else {
        return false;
    };
    let mut settled = ArrayVec::new();
    is_only_settlement(late.as_slice(), 1, Call::NullProc, Outcome::Late)
        && client.hear(reply.as_slice(), &mut settled) == Hearing::Stray
        && client.hear(b"hello", &mut settled) == Hearing::Unread(LineFault::Signature)
}

// Restarts the client, which loses the second request. Returns whether each call gave what it should.
fn restart_client(client: &mut Client<Slots>) -> bool {
    let waiting = (client.waiting(), client.next_id());
    let lost = client.restart();
    waiting == (1, 2)
        && is_only_settlement(lost.as_slice(), 2, Call::InstrumentNo, Outcome::Lost)
        && (client.waiting(), client.next_id()) == (0, 0)
}

// Whether `settled` is exactly one settlement, with this target, call and outcome.
fn is_only_settlement(
    settled: &[Settlement<Call>],
    target: u32,
    call: Call,
    outcome: Outcome,
) -> bool {
    let wanted = Settlement {
        target,
        call,
        outcome,
    };
    settled == [wanted].as_slice()
}
