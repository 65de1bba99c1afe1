//! Requests of a session: a request is taken when it is its turn, and counts as sent then.

ghost use Rattle.std.specs.Prelude.{◌≡◌, ◌≢◌, ◌≤◌, ℕ, List, length, Some, Err, if◌then◌else◌};
ghost use Rattle.gc_lines.specs.Lines.{with_end};
ghost use Rattle.gc_lines.specs.Requests.{request_text};
ghost use Rattle.gc_session.specs.declared.session.NotTaken.TheVariants.{NotNow, OwnTarget};
ghost use Rattle.gc_session.specs.declared.session.NotTaken.{NotTaken};
ghost use Rattle.geocom_c.specs.Asking.{HasAsked, IsAsk, IsOfAsked};
ghost use Rattle.geocom_c.specs.Rooms.{FaultLeavesAll, WritesText, WritesWithin, effect};
ghost use Rattle.geocom_c.specs.Sending.{raw_rule, read_rule, table_rule};
ghost use Rattle.geocom_c.specs.SessionState.{StandsForSession};
ghost use Rattle.geocom_c.specs.declared.header.TheConstants.{LINE_ROOM, NOT_NOW, OWN_TARGET};

use crate::answers::{GeocomCount, counted, refused};
use crate::header::{LINE_ROOM, NO_CLIENT, NO_ROOM, NOT_NOW, OWN_TARGET};
use crate::raws::read_raw;
use crate::rest::put_line;
use crate::sends::read_call;
use crate::session_state::{GeocomSession, load_session, store_session};
use gc_catalogue::Asked;
use gc_lines::Line;
use gc_session::{NotTaken, Session};

// The fault of a request that isn't taken.
fn not_taken_number(why: NotTaken) -> u32
    ensures not_now { why ≡ NotNow → result ≡ NOT_NOW }
    ensures own { why ≡ OwnTarget → result ≡ OWN_TARGET }
{
    match why {
        NotTaken::NotNow => NOT_NOW,
        NotTaken::OwnTarget => OWN_TARGET,
    }
}

// Asks a request of the session of `state`. If it is taken, its line with CR LF is written to the front of `line`; otherwise nothing
// has changed.
fn ask_asked(
    state: &mut GeocomSession,
    mut session: Session,
    target: u32,
    timeout: u64,
    asked: &Asked,
    line: &mut [u8],
) -> GeocomCount
    requires room { LINE_ROOM ≤ length line.old }
    requires session { (rest : List ℕ) × StandsForSession state.old session rest }
    ensures asked { (rest : List ℕ) → StandsForSession state.old session rest
        → HasAsked session rest asked.now target timeout (effect state.old state.new line.old line.new result) }
    ensures refused { FaultLeavesAll result state.old state.new line.old line.new }
    ensures written { WritesWithin result.count line.old line.new }
{
    let mut text = Line::new();
    match session.ask(target, asked, timeout, &mut text) {
        Ok(()) => {
            store_session(state, session);
            counted(put_line(line, &text))
        }
        Err(why) => refused(not_taken_number(why)),
    }
}

// Asks a request of the session of `state`, as `ask_asked` does. `read` is what the caller's number and parameters ask for, or the
// number of the fault with which they are refused.
fn ask_read(
    state: &mut GeocomSession,
    target: u32,
    timeout: u64,
    read: Result<Asked, u32>,
    line: &mut [u8],
) -> GeocomCount
    requires { (fault : ℕ) → read ≡ Err fault → IsOfAsked fault }
    ensures { IsAsk (read_rule read) target timeout (effect state.old state.new line.old line.new result) }
{
    if line.len() < LINE_ROOM {
        return refused(NO_ROOM);
    }
    let Some(session) = load_session(state) else {
        return refused(NO_CLIENT);
    };
    match read {
        Ok(asked) => ask_asked(state, session, target, timeout, &asked, line),
        Err(fault) => refused(fault),
    }
}

/// Sends a request, which is to be answered within `timeout` milliseconds from the last moment that the session was told. It is
/// outstanding from now on, and its line is written into `line`, with CR LF, for the caller to write to the connection. These are `count`
/// bytes; nothing is written after them.
///
/// `target` is any number of the caller's but 4294967295, that of the session's own null procedures; the settlement has it. `params` is
/// the text of the parameters, with commas between them, as `5000,1`; it is empty if the procedure has none.
///
/// Faults: 62, `line` has fewer than 514 bytes; 63, the state is no session's; 21, no procedure has the number; 11 to 15, the parameters
/// don't read; 74, the target is 4294967295; 73, it isn't a request's turn. After a fault nothing has changed.
#[unsafe(no_mangle)]
pub extern "C" fn geocom_session_ask(
    state: &mut GeocomSession,
    target: u32,
    timeout: u64,
    procedure: u16,
    params: &[u8],
    line: &mut [u8],
) -> GeocomCount
    ensures { IsAsk (table_rule procedure params.now) target timeout (effect state.old state.new line.old line.new result) }
{
    ask_read(state, target, timeout, read_call(procedure, params), line)
}

/// Sends a request for a procedure that isn't in the table, as `geocom_session_ask` sends one for a procedure of the table. `params` is
/// put into the line exactly as it is given.
///
/// Faults: 62, `line` has fewer than 514 bytes; 63, the state is no session's; 68, the number is that of a procedure of the table; 11, a
/// CR or LF is among the parameters; 6, the line would have more than 512 bytes with an id; 13, the number of double quotes is odd; 14,
/// there are more than 16 parameters; 74, the target is 4294967295; 73, it isn't a request's turn. After a fault nothing has changed.
#[unsafe(no_mangle)]
pub extern "C" fn geocom_session_ask_raw(
    state: &mut GeocomSession,
    target: u32,
    timeout: u64,
    procedure: u16,
    params: &[u8],
    line: &mut [u8],
) -> GeocomCount
    ensures asks { IsAsk (raw_rule procedure params.now) target timeout (effect state.old state.new line.old line.new result) }
    ensures given { WritesText result line.new
        (with_end (request_text (record { rpc = procedure; id = Some state.old.client.next; params = params.now }))) }
{
    ask_read(state, target, timeout, read_raw(procedure, params), line)
}
