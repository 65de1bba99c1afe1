//! Sessions: a new one, its connections, what is outstanding of it, and how far it is.

ghost use Rattle.gc_session.specs.Sessions.{opened, closed};
ghost use Rattle.geocom_c.specs.Sessions.{IsInit, IsRestart, IsStatus, IsTold};
ghost use Rattle.geocom_c.specs.Rooms.{effect};

use crate::answers::{GeocomCount, GeocomStatus, as_number, counted, refused};
use crate::header::{NO_CLIENT, NO_ROOM, NO_WIDTH};
use crate::session_state::{GeocomSession, load_session, new_session, store_cut};
use crate::settled::{GeocomSettlement, put_lost};
use gc_client::WINDOW;

/// Makes a session without a connection, of which nothing has happened. At most `width` requests that haven't timed out may be in flight,
/// 1 to 7. A null procedure waits `timeout` milliseconds for its reply; `quiet` is how long a pause before a new connection lasts at
/// first, and for how long nothing may come on that before a request is sent. Returns 0.
///
/// Fault 61: another width; the state is as it was.
#[unsafe(no_mangle)]
pub extern "C" fn geocom_session_init(
    state: &mut GeocomSession,
    width: u8,
    timeout: u64,
    quiet: u64,
) -> u32
    ensures { IsInit width timeout quiet state.old state.new result }
{
    if width < 1 || width > WINDOW as u8 {
        return NO_WIDTH;
    }
    *state = new_session(width, timeout, quiet);
    0
}

/// Notes that a connection was made at the moment `now`. The bytes of a line that hasn't ended are discarded. Returns 0.
///
/// Fault 63: the state is no session's, and has not changed.
#[unsafe(no_mangle)]
pub extern "C" fn geocom_session_opened(state: &mut GeocomSession, now: u64) -> u32
    ensures { IsTold (opened now) state.old state.new result }
{
    let Some(mut session) = load_session(state) else {
        return NO_CLIENT;
    };
    session.opened(now);
    store_cut(state, session);
    0
}

/// Notes that the connection ended, failed or was closed at the moment `now`, or that none could be made. What is outstanding stays so.
/// The bytes of a line that hasn't ended are discarded. Returns 0.
///
/// Fault 63: the state is no session's, and has not changed.
#[unsafe(no_mangle)]
pub extern "C" fn geocom_session_closed(state: &mut GeocomSession, now: u64) -> u32
    ensures { IsTold (closed now) state.old state.new result }
{
    let Some(mut session) = load_session(state) else {
        return NO_CLIENT;
    };
    session.closed(now);
    store_cut(state, session);
    0
}

/// Begins anew: settles all outstanding requests as lost, in the order of sending, and writes a record for each: `count` of them, and
/// nothing after these. If there is a connection, a line feed comes first on it. A session that had synchronized synchronizes again; one
/// that hadn't continues with the null procedure that it was at. The bytes of a line that hasn't ended are discarded.
///
/// Faults: 62, `settlements` has fewer than seven places; 63, the state is no session's. After a fault nothing has changed.
#[unsafe(no_mangle)]
pub extern "C" fn geocom_session_restart(
    state: &mut GeocomSession,
    settlements: &mut [GeocomSettlement],
) -> GeocomCount
    ensures { IsRestart (effect state.old state.new settlements.old settlements.new result) }
{
    if settlements.len() < WINDOW {
        return refused(NO_ROOM);
    }
    let Some(mut session) = load_session(state) else {
        return refused(NO_CLIENT);
    };
    let settled = session.restart();
    store_cut(state, session);
    put_lost(settlements, settled.as_slice());
    counted(settled.len() as u32)
}

// What is said of a state that is no session's.
const NO_STATUS: GeocomStatus = GeocomStatus {
    interruptions: 0,
    sign_ons: 0,
    fault: NO_CLIENT,
    is_up: 0,
    is_ready: 0,
    outstanding: 0,
    current: 0,
};

/// How far a session is.
///
/// Fault 63: the state is no session's. All else is 0 then.
#[unsafe(no_mangle)]
pub extern "C" fn geocom_session_status(state: &GeocomSession) -> GeocomStatus
    ensures { IsStatus state.now result }
{
    let Some(session) = load_session(state) else {
        return NO_STATUS;
    };
    let standing = session.standing();
    GeocomStatus {
        interruptions: standing.stretch,
        sign_ons: standing.sign_ons,
        fault: 0,
        is_up: as_number(standing.phase.is_up()),
        is_ready: as_number(session.is_ready()),
        outstanding: session.waiting() as u32,
        current: session.current() as u32,
    }
}
