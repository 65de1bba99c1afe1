//! Sending: a call's number and parameters become its request line, or are refused.

ghost use Rattle.std.specs.Prelude.{◌≡◌, ◌≢◌, ◌<◌, ◌≤◌, ℕ, length, Some, Ok, Err};
ghost use Rattle.gc_lines.specs.Lines.{with_end};
ghost use Rattle.gc_catalogue.specs.declared.asked.Asked.{Asked};
ghost use Rattle.gc_catalogue.specs.Asked.{asked_line};
ghost use Rattle.geocom_c.specs.State.{KeepsAnswered};
ghost use Rattle.geocom_c.specs.Rooms.{FaultLeavesAll, WritesText, WritesWithin, effect};
ghost use Rattle.geocom_c.specs.Sending.{IsOfRequest, AsksOrRefuses, IsSend, SendsAsked, read_rule, table_rule};
ghost use Rattle.geocom_c.specs.declared.header.TheConstants.{LINE_ROOM, WINDOW_FULL};

use crate::answers::{GeocomCount, counted, refused};
use crate::header::{LINE_ROOM, NO_CLIENT, NO_ROOM, NOT_BEGUN};
use crate::rest::put_line;
use crate::state::{GeocomClient, NULLS, load, store};
use gc_catalogue::{Asked, decode_call};
use gc_client::{Client, SlotsOf};
use gc_lines::Request;

// Sends a request of `client` for what `asked` says. Stores the client in `state`, writes the request's line with CR LF to the
// front of `line`, and returns how many bytes these are. If as many requests are outstanding as the client's width allows, the
// fault is `WINDOW_FULL`, and neither `state` nor `line` has changed.
fn send_asked(
    state: &mut GeocomClient,
    mut client: Client<SlotsOf<Asked>>,
    target: u32,
    deadline: u64,
    asked: Asked,
    line: &mut [u8],
) -> GeocomCount
    requires { LINE_ROOM ≤ length line.old }
    ensures sent { SendsAsked client asked target deadline (effect state.old state.new line.old line.new result) }
    ensures given { WritesText result line.new (with_end (asked_line (Some client.ids.next) asked)) }
    ensures written { WritesWithin result.count line.old line.new }
    ensures answered { KeepsAnswered state.old state.new }
    ensures full { result.fault ≡ WINDOW_FULL → length client.ids.waiting ≡ client.width }
    ensures done { result.fault ≡ 0 → length client.ids.waiting < client.width }
    ensures either { (result.fault ≢ 0) → result.fault ≡ WINDOW_FULL }
    ensures refused { FaultLeavesAll result state.old state.new line.old line.new }
{
    match client.send(target, asked, deadline) {
        Ok(text) => {
            store(state, client);
            counted(put_line(line, &text))
        }
        Err(full) => refused(u32::from(full.number())),
    }
}

// Sends a request of the client of `state`, as `send_asked` does. `read` is what the caller's number and parameters ask for, or
// the number of the fault with which they are refused. The faults come as `geocom_client_send` says.
pub(crate) fn send_read(
    state: &mut GeocomClient,
    target: u32,
    deadline: u64,
    read: Result<Asked, u32>,
    line: &mut [u8],
) -> GeocomCount
    requires { (fault : ℕ) → read ≡ Err fault → IsOfRequest fault }
    ensures sends { IsSend (read_rule read) target deadline (effect state.old state.new line.old line.new result) }
    ensures given { (asked : Asked) → read ≡ Ok asked
        → WritesText result line.new (with_end (asked_line (Some state.old.next) asked)) }
{
    if line.len() < LINE_ROOM {
        return refused(NO_ROOM);
    }
    let Some(client) = load(state) else {
        return refused(NO_CLIENT);
    };
    let has_begun = state.answered >= NULLS;
    if !has_begun {
        return refused(NOT_BEGUN);
    }
    match read {
        Ok(asked) => send_asked(state, client, target, deadline, asked, line),
        Err(fault) => refused(fault),
    }
}

// What a number and parameters ask for of the table. `Err`: the number of the fault with which they are refused.
pub(crate) fn read_call(procedure: u16, params: &[u8]) -> Result<Asked, u32>
    ensures { AsksOrRefuses (table_rule procedure params.now) result }
{
    let request = Request {
        rpc: procedure,
        id: None,
        params,
    };
    match decode_call(&request) {
        Ok(call) => Ok(Asked::Table(call)),
        Err(fault) => Err(u32::from(fault.refusal_number())),
    }
}

/// Sends a request of a client that has synchronized: it is outstanding from now on, and its line is written into `line`, with CR
/// LF, for the caller to write to the connection. These are `count` bytes; nothing is written after them.
///
/// `target` is any number of the caller's, which the settlement has. `deadline` is a moment by the caller's clock, in the unit in
/// which `geocom_client_expire` gets moments. `params` is the text of the parameters, with commas between them, as `5000,1`; it
/// is empty if the procedure has none.
///
/// Faults: 62, `line` has fewer than 514 bytes; 63, the state is no client's; 67, the client hasn't synchronized; 21, no
/// procedure has the number; 11 to 15, the parameters don't read; 31, as many requests wait as the width allows. After a fault
/// nothing has changed.
#[unsafe(no_mangle)]
pub extern "C" fn geocom_client_send(
    state: &mut GeocomClient,
    target: u32,
    deadline: u64,
    procedure: u16,
    params: &[u8],
    line: &mut [u8],
) -> GeocomCount
    ensures sends { IsSend (table_rule procedure params.now) target deadline
        (effect state.old state.new line.old line.new result) }
{
    send_read(state, target, deadline, read_call(procedure, params), line)
}
