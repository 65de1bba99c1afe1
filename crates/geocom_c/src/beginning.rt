//! The synchronization: a client sends nothing before eight null procedures were answered, so that no old reply is taken for an
//! answer.

ghost use Rattle.std.specs.Prelude.{◌≡◌, ◌≤◌, ℕ, List, [], length, drop};
ghost use Rattle.gc_lines.specs.Frames.{frame_of};
ghost use Rattle.gc_lines.specs.Taking.{IsUsedOf};
ghost use Rattle.gc_client.specs.Beginning.{asks, the_word};
ghost use Rattle.geocom_c.specs.Beginning.{came_in_vain, given_unless, left_past, BeginFaultLeavesAll, GivesLine, HearsBytes, IsGiven, ReportsBegun, SynchronizesBy};
ghost use Rattle.geocom_c.specs.Rest.{IsValid, IsRest, UsesFirstLine, UsesUnended};
ghost use Rattle.geocom_c.specs.Rooms.{ReportsNoClient, ReportsNoRoom, WritesWithin};
ghost use Rattle.geocom_c.specs.State.{IsOfClient};
ghost use Rattle.geocom_c.specs.declared.header.TheConstants.{LINE_ROOM};

use crate::answers::{GeocomBeginning, synchronizing, unbegun};
use crate::header::{LINE_ROOM, NO_CLIENT, NO_ROOM};
use crate::rest::{GeocomRest, put_line};
use crate::state::{GeocomClient, load};
use gc_client::Beginning;
use gc_lines::{Frame, bytes_from};

// Hands the synchronization the line that a frame is, if it is one.
fn hear_frame(beginning: &mut Beginning, frame: &Frame)
    ensures { beginning.new ≡ left_past beginning.old frame.now }
{
    match frame {
        Frame::Line(line) => {
            let _ = beginning.hear(line);
        }
        Frame::Cleared | Frame::Overlong | Frame::More => {}
    }
}

// Takes bytes through the first line feed, and hands the line that it ends, if it ends one, to the synchronization. Without a
// line feed all bytes are used, and `rest` keeps of them what the frame of the next line feed depends on. Returns how many were
// used.
fn hear_line(rest: &mut GeocomRest, beginning: &mut Beginning, bytes: &[u8]) -> usize
    requires { IsValid rest.old }
    ensures used { IsUsedOf bytes.now result }
    ensures more { UsesUnended rest.old bytes.now result (λ line. IsRest rest.new line × (beginning.new ≡ beginning.old)) }
    ensures frame { UsesFirstLine rest.old bytes.now result
        (λ line. IsRest rest.new [] × (beginning.new ≡ left_past beginning.old (frame_of line))) }
{
    let (used, frame) = rest.take(bytes);
    hear_frame(beginning, &frame);
    used
}

// Uses all bytes: hands each line that they end to the synchronization, which discards those after the eighth answer.
fn hear_all(rest: &mut GeocomRest, beginning: &mut Beginning, bytes: &[u8])
    requires { IsValid rest.old }
    ensures { SynchronizesBy bytes.now rest.old rest.new beginning.old beginning.new }
{
    let mut left = bytes;
    while !left.is_empty() {
        let used = hear_line(rest, beginning, left);
        left = bytes_from(left, used);
    }
}

// Writes the line of the null procedure that is asked for, with CR LF, and returns how many bytes these are. Once the client has
// synchronized, it writes nothing and returns 0.
fn ask(beginning: &Beginning, line: &mut [u8]) -> u32
    requires { LINE_ROOM ≤ length line.old }
    ensures asked { IsGiven (asks beginning.now) result line.new }
    ensures written { WritesWithin result line.old line.new }
{
    match beginning.ask() {
        Some(text) => put_line(line, &text),
        None => 0,
    }
}

// Writes the line of the null procedure that is asked for, as `ask` does, unless its reply is still waited for: then it writes
// nothing and returns 0.
fn ask_unless(is_waiting: bool, beginning: &Beginning, line: &mut [u8]) -> u32
    requires { LINE_ROOM ≤ length line.old }
    ensures asked { IsGiven (given_unless is_waiting beginning.now) result line.new }
    ensures written { WritesWithin result line.old line.new }
{
    if is_waiting {
        return 0;
    }
    ask(beginning, line)
}

// Whether bytes came, and answered no null procedure: no line is to be sent then. `before` and `after` are how many were answered
// before and after these bytes.
fn came_in_vain(bytes: &[u8], before: u8, after: u8) -> bool
    requires before { before ≤ 8 }
    requires after { after ≤ 8 }
    ensures { result ≡ came_in_vain bytes.now (drop before the_word) (drop after the_word) }
{
    !bytes.is_empty() && before == after
}

/// Synchronizes: takes bytes that came, and writes the line of the null procedure that is to be sent next into `line`, with CR
/// LF. These are `count` bytes; nothing is written after them. Eight null procedures are asked, one after the other, with ids 6,
/// 5, 4, 3, 2, 1, 0 and 7. A reply with the id of the one that is asked answers it, whatever its codes and parameters. All else
/// that comes is discarded, so no old reply is taken for the answer to a later request. Once the eighth is answered, `has_begun`
/// is 1, and requests can be sent.
///
/// Call it without bytes for the first line, and again if nothing came in time: it writes the same line again. If bytes came that
/// answered nothing, `count` is 0: read on. All bytes are used; the bytes of a line that hasn't ended are kept, and a line that
/// ends after the eighth answer is discarded, too. Once the client has synchronized, the call writes no line, and discards each
/// line that ends: then bytes go to `geocom_client_feed`.
///
/// Faults: 62, `line` has fewer than 514 bytes; 63, the state is no client's. After a fault nothing has changed.
#[unsafe(no_mangle)]
pub extern "C" fn geocom_client_synchronize(
    state: &mut GeocomClient,
    bytes: &[u8],
    line: &mut [u8],
) -> GeocomBeginning
    ensures heard { LINE_ROOM ≤ length line.old → HearsBytes bytes.now state.old state.new result.fault }
    ensures given { GivesLine bytes.now state.old state.new result line.new }
    ensures begun { ReportsBegun result state.new }
    ensures answered { result.fault ≡ 0 → result.answered ≡ state.new.answered }
    ensures room { ReportsNoRoom line.old LINE_ROOM result.fault }
    ensures astray { ReportsNoClient line.old LINE_ROOM state.old result.fault }
    ensures done { result.fault ≡ 0 → IsOfClient state.old }
    ensures refused { BeginFaultLeavesAll result state.old state.new line.old line.new }
    ensures written { WritesWithin result.count line.old line.new }
{
    if line.len() < LINE_ROOM {
        return unbegun(NO_ROOM);
    }
    let Some(_client) = load(state) else {
        return unbegun(NO_CLIENT);
    };
    let before = state.answered;
    let mut beginning = Beginning::resume(usize::from(before));
    hear_all(&mut state.rest, &mut beginning, bytes);
    state.answered = beginning.answered() as u8;
    let is_waiting = came_in_vain(bytes, before, state.answered);
    let count = ask_unless(is_waiting, &beginning, line);
    synchronizing(count, state.answered)
}
