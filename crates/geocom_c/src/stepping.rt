//! What a session's caller does next: the session says it, and counts it as done.

ghost use Rattle.std.specs.Prelude.{◌≡◌, ◌≢◌, ◌≤◌, ℕ, List, [], nat_eq, if◌then◌else◌, IfSome, Some, length, IsTrue, ◌↔◌};
ghost use Rattle.gc_session.specs.declared.settings.Want.{Want};
ghost use Rattle.geocom_c.specs.Rest.{IsRest};
ghost use Rattle.geocom_c.specs.Rooms.{WritesFirst, WritesWithin, settling_effect};
ghost use Rattle.geocom_c.specs.SessionState.{StandsForSession};
ghost use Rattle.geocom_c.specs.Stepping.{HasRoomToStep, HasStepped, IsStep, StandInFront, act_number, bytes_of, until_of, want_number};
ghost use Rattle.geocom_c.specs.declared.header.TheConstants.{LINE_ROOM};

use crate::answers::{GeocomStep, unmoved};
use crate::header::{
    CLOSE, LINE_ROOM, NO_CLIENT, NO_ROOM, NO_WANT, OPEN, READ, SEND, WAIT, WANT_ANSWERS,
    WANT_NOTHING, WANT_SEND, WRITE,
};
use crate::rest::{GeocomRest, put_line, put_text};
use crate::session_state::{GeocomSession, load_session, phase_byte, store_session};
use crate::settled::{GeocomSettlement, put_lost};
use arrayvec::ArrayVec;
use gc_client::WINDOW;
use gc_lines::Line;
use gc_session::{Act, Session, Want};

// Whether there is room for what a step can write.
fn has_room_to_step(settlements: &[GeocomSettlement], line: &[u8]) -> bool
    ensures { IsTrue result ↔ HasRoomToStep settlements.now line.now }
{
    settlements.len() >= WINDOW && line.len() >= LINE_ROOM
}

// The want of a number. `None`: it is none of the three.
fn want_of(number: u32) -> Option<Want>
    ensures found { IfSome result (λ want. number ≡ want_number want) }
    ensures only { (want : Want) → number ≡ want_number want → result ≡ Some want }
{
    match number {
        WANT_NOTHING => Some(Want::Nothing),
        WANT_ANSWERS => Some(Want::Answers),
        WANT_SEND => Some(Want::Send),
        _ => None,
    }
}

// The number of an act.
fn act_number(act: Act) -> u32
    ensures { result ≡ act_number act }
{
    match act {
        Act::Open => OPEN,
        Act::Wait(_) => WAIT,
        Act::Clear | Act::Put => WRITE,
        Act::Ask => SEND,
        Act::Read(_) => READ,
        Act::Close => CLOSE,
    }
}

// Until when an act lasts at most; 0 for one that doesn't wait.
fn until_of(act: Act) -> u64
    ensures { result ≡ until_of act }
{
    match act {
        Act::Wait(until) | Act::Read(until) => until,
        _ => 0,
    }
}

// Writes what an act has the caller write to the front of `room`, and returns how many bytes these are. `line` is the line of an act
// that writes one.
fn put_act(room: &mut [u8], act: Act, line: &Line) -> u32
    requires { LINE_ROOM ≤ length room.old }
    ensures front { StandInFront (bytes_of act line.now.items) result room.new }
    ensures written { WritesWithin result room.old room.new }
{
    match act {
        Act::Clear => {
            put_text(room, 0, b"\n");
            1
        }
        Act::Put => put_line(room, line),
        _ => 0,
    }
}

// Discards the bytes of a line that hasn't ended if the phase changes from `before` to `after`.
fn keep_within_phase(rest: &mut GeocomRest, before: u8, after: u8)
    ensures { (bytes : List ℕ) → IsRest rest.old bytes → IsRest rest.new (if nat_eq after before then bytes else []) }
{
    if after != before {
        *rest = GeocomRest::new();
    }
}

// Does what is next in `session`, which is that of `state`, and returns what the caller does for it. If that changes the phase, the bytes
// of a line that hasn't ended are discarded: a line feed is sent on the connection, or it was quiet for long enough.
fn step(
    state: &mut GeocomSession,
    mut session: Session,
    want: Want,
    now: u64,
    settlements: &mut [GeocomSettlement],
    line: &mut [u8],
) -> GeocomStep
    requires room { HasRoomToStep settlements.old line.old }
    requires session { (rest : List ℕ) × StandsForSession state.old session rest }
    ensures stepped { (rest : List ℕ) → StandsForSession state.old session rest
        → HasStepped want now session rest state.new result settlements.new line.new }
    ensures fault { result.fault ≡ 0 }
    ensures written { WritesFirst result.count settlements.old settlements.new }
    ensures lined { WritesWithin result.bytes line.old line.new }
{
    let mut settled = ArrayVec::new();
    let mut text = Line::new();
    let before = state.phase;
    let act = session.step(want, now, &mut settled, &mut text);
    let after = phase_byte(session.standing().phase);
    keep_within_phase(&mut state.client.rest, before, after);
    store_session(state, session);
    put_lost(settlements, settled.as_slice());
    let bytes = put_act(line, act, &text);
    GeocomStep {
        until: until_of(act),
        fault: 0,
        act: act_number(act),
        bytes,
        count: settled.len() as u32,
    }
}

/// Says what the caller does next at the moment `now`, if this is wanted: `act`, until the moment `until` at most. A line that is to be
/// written is at the front of `line`, `bytes` bytes, and counts as sent from now on. If the session resynchronizes, all that was
/// outstanding is lost: `count` records are written to the front of `settlements`, in the order of sending.
///
/// Faults: 62, `settlements` has fewer than seven places or `line` fewer than 514 bytes; 63, the state is no session's; 72, `want` is
/// none of the three. After a fault nothing has changed.
#[unsafe(no_mangle)]
pub extern "C" fn geocom_session_next(
    state: &mut GeocomSession,
    want: u32,
    now: u64,
    settlements: &mut [GeocomSettlement],
    line: &mut [u8],
) -> GeocomStep
    ensures { IsStep want now (settling_effect state.old state.new settlements.old settlements.new line.old line.new result) }
{
    if !has_room_to_step(settlements, line) {
        return unmoved(NO_ROOM);
    }
    let Some(session) = load_session(state) else {
        return unmoved(NO_CLIENT);
    };
    match want_of(want) {
        Some(want) => step(state, session, want, now, settlements, line),
        None => unmoved(NO_WANT),
    }
}
