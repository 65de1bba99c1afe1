//! Sending what isn't in the table: a number and parameters are sent exactly as they are, or are refused.

ghost use Rattle.std.specs.Prelude.{◌≡◌, Some};
ghost use Rattle.gc_lines.specs.Lines.{with_end};
ghost use Rattle.gc_lines.specs.Requests.{request_text};
ghost use Rattle.geocom_c.specs.Rooms.{WritesText, effect};
ghost use Rattle.geocom_c.specs.Sending.{AsksOrRefuses, IsSend, raw_number, raw_rule};

use crate::answers::GeocomCount;
use crate::header::IN_TABLE;
use crate::sends::send_read;
use crate::state::GeocomClient;
use gc_catalogue::{Asked, RawFault, raw_call};
use gc_lines::LineFault;
use gc_values::ValueFault;

// The fault number of a raw request that is refused.
fn raw_number(fault: RawFault) -> u32
    ensures { result ≡ raw_number fault }
{
    match fault {
        RawFault::InTable => IN_TABLE,
        RawFault::NotPlain => u32::from(ValueFault::Spelling.number()),
        RawFault::TooLong => u32::from(LineFault::TooLong.number()),
        RawFault::OpenQuote => u32::from(ValueFault::OpenQuote.number()),
        RawFault::TooMany => u32::from(ValueFault::TooMany.number()),
    }
}

// What a number and parameters ask for exactly as they are. `Err`: the number of the fault with which they are refused.
pub(crate) fn read_raw(procedure: u16, params: &[u8]) -> Result<Asked, u32>
    ensures { AsksOrRefuses (raw_rule procedure params.now) result }
{
    match raw_call(procedure, params) {
        Ok(raw) => Ok(Asked::Raw(raw)),
        Err(fault) => Err(raw_number(fault)),
    }
}

/// Sends a request for a procedure that isn't in the table, as `geocom_client_send` sends one for a procedure of the table:
/// `target`, `deadline`, `line` and `count` are as there. `params` is put into the line exactly as it is given.
///
/// An instrument that doesn't know a procedure may refuse it and still retain its reply to an earlier request. Ids repeat after
/// eight requests, so that old reply could answer a later request. With such an instrument let one of the seven requests before
/// each request be a call of the table that was answered: after six raw requests in a row send a null procedure, and continue
/// once it, or another one after it, is answered.
///
/// Faults: 62, `line` has fewer than 514 bytes; 63, the state is no client's; 67, the client hasn't synchronized; 68, the
/// number is that of a procedure of the table; 11, a CR or LF is among the parameters; 6, the line would have more than 512
/// bytes with an id; 13, the number of double quotes is odd; 14, there are more than 16 parameters; 31, as many requests wait
/// as the width allows. After a fault nothing has changed.
#[unsafe(no_mangle)]
pub extern "C" fn geocom_client_send_raw(
    state: &mut GeocomClient,
    target: u32,
    deadline: u64,
    procedure: u16,
    params: &[u8],
    line: &mut [u8],
) -> GeocomCount
    ensures sends { IsSend (raw_rule procedure params.now) target deadline
        (effect state.old state.new line.old line.new result) }
    ensures given { WritesText result line.new
        (with_end (request_text (record { rpc = procedure; id = Some state.old.next; params = params.now }))) }
{
    send_read(state, target, deadline, read_raw(procedure, params), line)
}
