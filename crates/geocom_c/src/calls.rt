//! The calls that need no text: a new client, a moment, the earliest deadline, and how many are outstanding.

ghost use Rattle.std.specs.Prelude.{◌≡◌, ◌≢◌, ◌↔◌, ◌≤◌, [], length, take};
ghost use Rattle.gc_client.specs.Rule.{IsWidth};
ghost use Rattle.gc_client.specs.Rule;
ghost use Rattle.gc_client.specs.Beginning.{the_word};
ghost use Rattle.geocom_c.specs.State.{StandsForClient, IsOfNoClient, IsOfClient, KeepsAnswered, left_of};
ghost use Rattle.geocom_c.specs.Rooms.{FaultLeavesAll, ReportsNoClient, ReportsNoRoom, WritesFirst, WritesWithin};
ghost use Rattle.geocom_c.specs.Deadlines.{Expires, IsBlankIfUnset, ReportsEarliest, ReportsWaiting};
ghost use Rattle.geocom_c.specs.declared.header.TheConstants.{VERSION, NO_WIDTH, NO_CLIENT};
ghost use Rattle.gc_client.specs.declared.window.TheConstants.{WINDOW};

use crate::answers::{GeocomCount, GeocomDeadline, counted, refused};
use crate::header::{NO_CLIENT, NO_ROOM, NO_WIDTH, VERSION};
use crate::state::{GeocomClient, fresh, load, store};
use gc_client::WINDOW;

// The result if no request is outstanding, or each outstanding one has timed out.
const UNSET: GeocomDeadline = GeocomDeadline {
    deadline: 0,
    fault: 0,
    is_set: 0,
};

/// The version of these calls and of the structs that they take.
#[unsafe(no_mangle)]
pub extern "C" fn geocom_version() -> u32
    ensures { result ≡ VERSION }
{
    VERSION
}

/// Makes a client that hasn't synchronized, and has sent nothing. At most `width` requests may be outstanding, 1 to 7. Returns 0.
///
/// Fault 61: another width; the state is as it was.
#[unsafe(no_mangle)]
pub extern "C" fn geocom_client_init(state: &mut GeocomClient, width: u8) -> u32
    ensures made { IsWidth width → (result ≡ 0) × StandsForClient state.new (record { width = width; ids = Rule.fresh }) [] }
    ensures begins { IsWidth width → left_of state.new ≡ the_word }
    ensures refused { (IsWidth width → ⊥) → (result ≡ NO_WIDTH) × (state.new ≡ state.old) }
{
    if width < 1 || width > WINDOW as u8 {
        return NO_WIDTH;
    }
    *state = fresh(width);
    0
}

// Writes the targets `due` to the front of `targets`.
fn put_targets(targets: &mut [u32], due: &[u32])
    requires { length due.now ≤ length targets.old }
    ensures targets { take (length due.now) targets.new ≡ due.now }
    ensures written { WritesWithin (length due.now) targets.old targets.new }
{
    targets[..due.len()].copy_from_slice(due);
}

/// Times out each request whose deadline is at most `now`, a moment by the caller's clock. The targets of those that hadn't timed
/// out before are written to the front of `targets`, oldest request first: `count` of them, and nothing after these. A request
/// that has timed out stays outstanding: its reply settles it as late.
///
/// Faults: 62, `targets` has fewer than seven places; 63, the state is no client's. After a fault nothing has changed.
#[unsafe(no_mangle)]
pub extern "C" fn geocom_client_expire(
    state: &mut GeocomClient,
    now: u64,
    targets: &mut [u32],
) -> GeocomCount
    ensures expired { WINDOW ≤ length targets.old → Expires now state.old state.new result targets.new }
    ensures room { ReportsNoRoom targets.old WINDOW result.fault }
    ensures astray { ReportsNoClient targets.old WINDOW state.old result.fault }
    ensures done { result.fault ≡ 0 → IsOfClient state.old }
    ensures refused { FaultLeavesAll result state.old state.new targets.old targets.new }
    ensures answered { KeepsAnswered state.old state.new }
    ensures written { WritesFirst result.count targets.old targets.new }
{
    if targets.len() < WINDOW {
        return refused(NO_ROOM);
    }
    let Some(mut client) = load(state) else {
        return refused(NO_CLIENT);
    };
    let due = client.expire(now);
    store(state, client);
    put_targets(targets, due.as_slice());
    counted(due.len() as u32)
}

/// The earliest deadline of the outstanding requests that haven't timed out, a moment by the caller's clock. If there is none, and
/// after a fault, `is_set` and `deadline` are 0.
///
/// Fault 63: the state is no client's.
#[unsafe(no_mangle)]
pub extern "C" fn geocom_client_next_deadline(state: &GeocomClient) -> GeocomDeadline
    ensures earliest { ReportsEarliest state.now result }
    ensures astray { (result.fault ≡ NO_CLIENT) ↔ IsOfNoClient state.now }
    ensures done { result.fault ≡ 0 → IsOfClient state.now }
    ensures refused { result.fault ≢ 0 → result.is_set ≡ 0 }
    ensures unset { IsBlankIfUnset result }
{
    let Some(client) = load(state) else {
        return GeocomDeadline {
            fault: NO_CLIENT,
            ..UNSET
        };
    };
    match client.next_deadline() {
        Some(deadline) => GeocomDeadline {
            deadline,
            fault: 0,
            is_set: 1,
        },
        None => UNSET,
    }
}

/// How many requests are outstanding, those that timed out included.
///
/// Fault 63: the state is no client's. The count is 0 then.
#[unsafe(no_mangle)]
pub extern "C" fn geocom_client_outstanding(state: &GeocomClient) -> GeocomCount
    ensures waiting { ReportsWaiting state.now result }
    ensures astray { (result.fault ≡ NO_CLIENT) ↔ IsOfNoClient state.now }
    ensures done { result.fault ≡ 0 → IsOfClient state.now }
    ensures refused { result.fault ≢ 0 → result.count ≡ 0 }
{
    match load(state) {
        Some(client) => counted(client.waiting() as u32),
        None => refused(NO_CLIENT),
    }
}
