//! What comes to a session: bytes in any pieces, and the line that a line feed ends settles requests.

ghost use Rattle.std.specs.Prelude.{◌≡◌, ℕ, List, false};
ghost use Rattle.gc_lines.specs.Readers.{reply_at};
ghost use Rattle.gc_lines.specs.Taking.{IsUsedOf};
ghost use Rattle.gc_lines.specs.declared.frame.Frame.{Frame};
ghost use Rattle.gc_session.specs.Sessions.{Session};
ghost use Rattle.geocom_c.specs.Feeding.{HasRoomToSettle, WritesSettled, fault_number_in, feed_effect, line_kind};
ghost use Rattle.geocom_c.specs.Hearing.{FeedsSessionLine, FeedsSessionUnended, IsFedTo, IsFeed, at_feed, session_past};
ghost use Rattle.geocom_c.specs.SessionState.{StandsForSession};
ghost use Rattle.geocom_c.specs.Rooms.{settling_effect};

use crate::answers::{GeocomHeard, heard, unheard, using};
use crate::feeding::has_room_to_settle;
use crate::header::{CLEARED, MORE, NO_CLIENT, NO_ROOM, OVERLONG, SETTLED, STRAY, UNREAD};
use crate::listed::list_line;
use crate::rest::put_text;
use crate::session_state::{GeocomSession, load_session, store_session};
use crate::settled::{GeocomSettlement, put_records};
use arrayvec::ArrayVec;
use gc_lines::{Frame, Line, read_reply};
use gc_session::Session;

// What came of a line that settled nothing, with 0 as `used`.
fn unsettled(line: &Line) -> GeocomHeard
    ensures { result ≡ record { used = 0; fault = 0; count = 0; kind = line_kind (reply_at line.now.items) false; line_fault = fault_number_in (reply_at line.now.items) } }
{
    match read_reply(line) {
        Ok(_) => heard(STRAY),
        Err(fault) => GeocomHeard {
            line_fault: u32::from(fault.number()),
            ..heard(UNREAD)
        },
    }
}

// Hands a line to the session, and returns what came of it, with 0 as `used`. If the line settled requests, its text is written, and a
// record for each of them; otherwise nothing is.
fn hear_line(
    session: &mut Session,
    line: &Line,
    settlements: &mut [GeocomSettlement],
    text: &mut [u8],
) -> GeocomHeard
    requires { HasRoomToSettle settlements.old text.old }
    ensures fed { IsFedTo session.old (Frame.Line line.now) (feed_effect result settlements.new text.new) }
    ensures session { session.new ≡ session_past session.old (Frame.Line line.now) }
    ensures written { WritesSettled result.count settlements.old settlements.new text.old text.new }
{
    let mut settled = ArrayVec::new();
    session.hear(line, &mut settled);
    let count = settled.len();
    if count == 0 {
        return unsettled(line);
    }
    let answer = list_line(line);
    put_text(text, 0, answer.text.as_slice());
    put_records(settlements, settled.as_slice(), &answer);
    GeocomHeard {
        count: count as u32,
        ..heard(SETTLED)
    }
}

// Hands the line that a frame is, if it is one, to the session, as `hear_line` does. Any other frame changes nothing.
fn hear_frame(
    session: &mut Session,
    frame: &Frame,
    settlements: &mut [GeocomSettlement],
    text: &mut [u8],
) -> GeocomHeard
    requires { HasRoomToSettle settlements.old text.old }
    ensures fed { IsFedTo session.old frame.now (feed_effect result settlements.new text.new) }
    ensures session { session.new ≡ session_past session.old frame.now }
    ensures written { WritesSettled result.count settlements.old settlements.new text.old text.new }
{
    match frame {
        Frame::Line(line) => hear_line(session, line, settlements, text),
        Frame::Cleared => heard(CLEARED),
        Frame::Overlong => heard(OVERLONG),
        Frame::More => heard(MORE),
    }
}

// Tells the session that these bytes came by the moment `now`; nothing, if there are none.
fn come(session: &mut Session, now: u64, bytes: &[u8])
    ensures { session.new ≡ at_feed now bytes.now session.old }
{
    if !bytes.is_empty() {
        session.came(now);
    }
}

// Takes bytes through the first line feed at the moment `now`, hands the session of `state` the frame that it ends, and returns what
// came of it. Without a line feed all bytes are used, and the state keeps of them what the frame of the next line feed depends on.
fn feed(
    state: &mut GeocomSession,
    mut session: Session,
    now: u64,
    bytes: &[u8],
    settlements: &mut [GeocomSettlement],
    text: &mut [u8],
) -> GeocomHeard
    requires room { HasRoomToSettle settlements.old text.old }
    requires session { (rest : List ℕ) × StandsForSession state.old session rest }
    ensures more { FeedsSessionUnended session now bytes.now state.old state.new result }
    ensures frame { FeedsSessionLine session now bytes.now state.old state.new (feed_effect result settlements.new text.new) }
    ensures fault { result.fault ≡ 0 }
    ensures used { IsUsedOf bytes.now result.used }
    ensures written { WritesSettled result.count settlements.old settlements.new text.old text.new }
{
    come(&mut session, now, bytes);
    let (used, frame) = state.client.rest.take(bytes);
    let told = hear_frame(&mut session, &frame, settlements, text);
    store_session(state, session);
    using(used, told)
}

/// Takes bytes that came by the moment `now`, through the first line feed, and writes a record for each request that the line settles.
///
/// `used`, `kind`, `line_fault`, the records and the text are as those of `geocom_client_feed`. Requests whose deadline has come have
/// timed out before. While the session synchronizes, and as long as its connection isn't quiet, no line settles anything, nor does one
/// with a sign-on in it. Without bytes nothing happens.
///
/// Faults: 62, `settlements` has fewer than seven places or `text` fewer than 1024 bytes; 63, the state is no session's. After a fault
/// nothing has changed, and nothing was used.
#[unsafe(no_mangle)]
pub extern "C" fn geocom_session_feed(
    state: &mut GeocomSession,
    now: u64,
    bytes: &[u8],
    settlements: &mut [GeocomSettlement],
    text: &mut [u8],
) -> GeocomHeard
    ensures { IsFeed now bytes.now (settling_effect state.old state.new settlements.old settlements.new text.old text.new result) }
{
    if !has_room_to_settle(settlements, text) {
        return unheard(NO_ROOM);
    }
    match load_session(state) {
        Some(session) => feed(state, session, now, bytes, settlements, text),
        None => unheard(NO_CLIENT),
    }
}
