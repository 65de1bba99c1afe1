//! Feeding: bytes come in any pieces, and the line that a line feed ends settles requests; so does a restart.

ghost use Rattle.std.specs.Prelude.{◌≡◌, ◌↔◌, ◌<◌, ◌≤◌, ℕ, List, length, drop, IsTrue};
ghost use Rattle.gc_lines.specs.Taking.{IsUsedOf};
ghost use Rattle.gc_catalogue.specs.declared.asked.Asked.{Asked};
ghost use Rattle.gc_client.specs.Rule.{Windowed};
ghost use Rattle.gc_client.specs.Beginning.{the_word};
ghost use Rattle.gc_client.specs.declared.window.TheConstants.{WINDOW};
ghost use Rattle.geocom_c.specs.Beginning.{left_by_restart};
ghost use Rattle.geocom_c.specs.Rest.{IsValid};
ghost use Rattle.geocom_c.specs.State.{IsOfNoClient, IsOfClient, KeepsAnswered, StandsForClient, left_of};
ghost use Rattle.geocom_c.specs.Rooms.{FaultLeavesAll, ReportsNoClient, ReportsNoRoom, WritesFirst};
ghost use Rattle.geocom_c.specs.Feeding.{FeedFaultLeavesState, FeedsFirstLine, FeedsUnended, HasRoomToSettle, IsFed, RestartsClient, WritesSettled, client_past, feed_effect};
ghost use Rattle.geocom_c.specs.declared.header.TheConstants.{NO_ROOM, NO_CLIENT};

use crate::answers::{GeocomCount, GeocomHeard, counted, heard, refused, unheard, using};
use crate::header::{
    CLEARED, MORE, NO_CLIENT, NO_ROOM, OVERLONG, SETTLED, STRAY, TEXT_ROOM, UNREAD,
};
use crate::listed::list_line;
use crate::rest::{GeocomRest, put_text};
use crate::settled::{GeocomSettlement, put_lost, put_records};
use crate::state::{GeocomClient, NULLS, load, store};
use gc_catalogue::Asked;
use gc_client::{Client, Heard, SlotsOf, WINDOW};
use gc_lines::{Frame, Line};

// Whether there is room for what a line can settle.
pub(crate) fn has_room_to_settle(settlements: &[GeocomSettlement], text: &[u8]) -> bool
    ensures { IsTrue result ↔ HasRoomToSettle settlements.now text.now }
{
    settlements.len() >= WINDOW && text.len() >= TEXT_ROOM
}

// Hands a line to the client, and returns what came of it, with 0 as `used`. If the line settled requests, its text is written,
// and a record for each of them; otherwise nothing is.
fn hear(
    client: &mut Client<SlotsOf<Asked>>,
    line: &Line,
    settlements: &mut [GeocomSettlement],
    text: &mut [u8],
) -> GeocomHeard
    requires { HasRoomToSettle settlements.old text.old }
    ensures fed { IsFed client.old (Frame.Line line.now) (feed_effect result settlements.new text.new) }
    ensures client { client.new ≡ client_past client.old (Frame.Line line.now) }
    ensures written { WritesSettled result.count settlements.old settlements.new text.old text.new }
{
    match client.on_line(line) {
        Heard::Settled(settled) => {
            let answer = list_line(line);
            put_text(text, 0, answer.text.as_slice());
            put_records(settlements, settled.as_slice(), &answer);
            GeocomHeard {
                count: settled.len() as u32,
                ..heard(SETTLED)
            }
        }
        Heard::Stray => heard(STRAY),
        Heard::Unread(fault) => GeocomHeard {
            line_fault: u32::from(fault.number()),
            ..heard(UNREAD)
        },
    }
}

// Hands the line that a frame is, if it is one, to `client`, which is the client of `state`, as `hear` does, stores the client in
// `state`, and returns what came of the frame, with 0 as `used`. Any other frame changes nothing.
fn feed_frame(
    state: &mut GeocomClient,
    mut client: Client<SlotsOf<Asked>>,
    frame: &Frame,
    settlements: &mut [GeocomSettlement],
    text: &mut [u8],
) -> GeocomHeard
    requires { HasRoomToSettle settlements.old text.old }
    ensures fed { IsFed client frame.now (feed_effect result settlements.new text.new) }
    ensures state { (rest : List ℕ) → StandsForClient state.old client rest → StandsForClient state.new (client_past client frame.now) rest }
    ensures answered { KeepsAnswered state.old state.new }
    ensures written { WritesSettled result.count settlements.old settlements.new text.old text.new }
{
    match frame {
        Frame::Line(line) => {
            let told = hear(&mut client, line, settlements, text);
            store(state, client);
            told
        }
        Frame::Cleared => heard(CLEARED),
        Frame::Overlong => heard(OVERLONG),
        Frame::More => heard(MORE),
    }
}

// Takes bytes through the first line feed, hands the client the frame that it ends, and returns what came of it. Without a line
// feed all bytes are used, and `state.rest` keeps of them what the frame of the next line feed depends on.
fn feed(
    state: &mut GeocomClient,
    client: Client<SlotsOf<Asked>>,
    bytes: &[u8],
    settlements: &mut [GeocomSettlement],
    text: &mut [u8],
) -> GeocomHeard
    requires room { HasRoomToSettle settlements.old text.old }
    requires cut { IsValid state.old.rest }
    ensures more { FeedsUnended client bytes.now state.old state.new result }
    ensures frame { FeedsFirstLine client bytes.now state.old state.new (feed_effect result settlements.new text.new) }
    ensures fault { result.fault ≡ 0 }
    ensures answered { KeepsAnswered state.old state.new }
    ensures used { IsUsedOf bytes.now result.used }
    ensures written { WritesSettled result.count settlements.old settlements.new text.old text.new }
{
    let (used, frame) = state.rest.take(bytes);
    using(used, feed_frame(state, client, &frame, settlements, text))
}

/// Takes bytes as they come, through the first line feed, and writes a record for each request that the line settles.
///
/// `used` says how many bytes were used: those through the first line feed, or all if there is none. If some are left, call again
/// with these. `kind` says what the bytes ended. A line settles at most seven requests; their records are in the order in which
/// the requests were sent. If it settles any, it is written to the front of `text`, with the items of its parameters after it;
/// otherwise nothing is written. After the `count` records nothing is written.
///
/// While the client synchronizes, no request is outstanding, and bytes belong to `geocom_client_synchronize`: here no reply settles
/// anything.
///
/// Faults: 62, `settlements` has fewer than seven places or `text` fewer than 1024 bytes; 63, the state is no client's.
/// After a fault nothing has changed, and nothing was used.
#[unsafe(no_mangle)]
pub extern "C" fn geocom_client_feed(
    state: &mut GeocomClient,
    bytes: &[u8],
    settlements: &mut [GeocomSettlement],
    text: &mut [u8],
) -> GeocomHeard
    ensures more { HasRoomToSettle settlements.old text.old → (c : Windowed Asked) → FeedsUnended c bytes.now state.old state.new result }
    ensures frame { HasRoomToSettle settlements.old text.old → (c : Windowed Asked)
        → FeedsFirstLine c bytes.now state.old state.new (feed_effect result settlements.new text.new) }
    ensures used { (result.used ≤ length bytes.now) × (result.fault ≡ 0 → 0 < length bytes.now → 0 < result.used) }
    ensures room { (result.fault ≡ NO_ROOM) ↔ (HasRoomToSettle settlements.old text.old → ⊥) }
    ensures astray { (result.fault ≡ NO_CLIENT) ↔ (HasRoomToSettle settlements.old text.old × IsOfNoClient state.old) }
    ensures done { result.fault ≡ 0 → IsOfClient state.old }
    ensures refused { FeedFaultLeavesState result state.old state.new }
    ensures answered { KeepsAnswered state.old state.new }
    ensures written { WritesSettled result.count settlements.old settlements.new text.old text.new }
{
    if !has_room_to_settle(settlements, text) {
        return unheard(NO_ROOM);
    }
    match load(state) {
        Some(client) => feed(state, client, bytes, settlements, text),
        None => unheard(NO_CLIENT),
    }
}

// How many null procedures count as answered after a restart: none if the client had synchronized, else those that were.
fn answered_after_restart(answered: u8) -> u8
    ensures left { drop result the_word ≡ left_by_restart (drop answered the_word) }
    ensures within { result ≤ 8 }
{
    let has_begun = answered >= NULLS;
    if has_begun {
        return 0;
    }
    answered
}

/// Settles all outstanding requests as lost, in the order of sending, and writes a record for each: `count` of them, and nothing
/// after these. The next id is 0, the bytes of a line that hasn't ended are discarded, and the width stays. A client that had
/// synchronized has to synchronize again (`geocom_client_synchronize`). One that hadn't continues with the null procedure that it was
/// at, so it may be restarted any number of times. For another instrument or line make a new client.
///
/// Faults: 62, `settlements` has fewer than seven places; 63, the state is no client's. After a fault nothing has changed.
#[unsafe(no_mangle)]
pub extern "C" fn geocom_client_restart(
    state: &mut GeocomClient,
    settlements: &mut [GeocomSettlement],
) -> GeocomCount
    ensures restarted { WINDOW ≤ length settlements.old → RestartsClient state.old state.new result settlements.new }
    ensures begins { result.fault ≡ 0 → left_of state.new ≡ left_by_restart (left_of state.old) }
    ensures room { ReportsNoRoom settlements.old WINDOW result.fault }
    ensures astray { ReportsNoClient settlements.old WINDOW state.old result.fault }
    ensures done { result.fault ≡ 0 → IsOfClient state.old }
    ensures refused { FaultLeavesAll result state.old state.new settlements.old settlements.new }
    ensures written { WritesFirst result.count settlements.old settlements.new }
{
    if settlements.len() < WINDOW {
        return refused(NO_ROOM);
    }
    let Some(mut client) = load(state) else {
        return refused(NO_CLIENT);
    };
    let settled = client.restart();
    state.rest = GeocomRest::new();
    state.answered = answered_after_restart(state.answered);
    store(state, client);
    put_lost(settlements, settled.as_slice());
    counted(settled.len() as u32)
}
