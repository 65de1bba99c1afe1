//! Any sequence of calls: from `geocom_client_init` on, a state stands for what the client's rule makes of the calls.

ghost use Rattle.std.specs.Prelude.{◌≡◌, ◌<◌, ℕ, List, ◌∷◌, length, drop, slice_get, Some};
ghost use Rattle.gc_lines.specs.Taking.{IsUsedOf};
ghost use Rattle.gc_client.specs.Rule.{IsWidth};
ghost use Rattle.gc_client.specs.OneForOne.{AccountsForSends};
ghost use Rattle.geocom_c.specs.State.{KeepsAnswered};
ghost use Rattle.geocom_c.specs.Following.{FeedsBut, FeedsBytes, CallsReach, IsAtStage, MadeBut, CallStage, first_stage};

use crate::beginning::geocom_client_synchronize;
use crate::calls::{geocom_client_expire, geocom_client_init};
use crate::feeding::{geocom_client_feed, geocom_client_restart};
use crate::header::{LINE_ROOM, NONE, TEXT_ROOM};
use crate::listed::NOWHERE;
use crate::raws::geocom_client_send_raw;
use crate::sends::geocom_client_send;
use crate::settled::GeocomSettlement;
use crate::state::GeocomClient;
use gc_client::WINDOW;
use gc_lines::bytes_from;
use gc_values::MOST_ITEMS;

/// A call on a state: each variant is the `geocom_client_` function of its name, with the arguments but the state and the rooms
/// for what it writes.
#[derive(Clone, Copy)]
pub enum StateCall<'a> {
    Send {
        target: u32,
        deadline: u64,
        procedure: u16,
        params: &'a [u8],
    },
    SendRaw {
        target: u32,
        deadline: u64,
        procedure: u16,
        params: &'a [u8],
    },
    /// Bytes of a connection, or none, handed to `geocom_client_synchronize`.
    Begin(&'a [u8]),
    /// Bytes of a connection, fed until all are used.
    Feed(&'a [u8]),
    Expire(u64),
    Restart,
}

// What is in a place that no settlement was written to.
const VACANT: GeocomSettlement = GeocomSettlement {
    target: 0,
    procedure: 0,
    code: 0,
    line_length: 0,
    items: 0,
    places: [NOWHERE; MOST_ITEMS],
    outcome: 0,
    reading: NONE,
};

// Feeds bytes through the first line feed, or all if there is none, and returns how many these are. If the feed has a fault, none
// is fed, and all count as used.
fn feed_line(state: &mut GeocomClient, bytes: &[u8]) -> usize
    ensures used { IsUsedOf bytes.now result }
    ensures fed { FeedsBut bytes.now (drop result bytes.now) state.old state.new }
    ensures answered { KeepsAnswered state.old state.new }
{
    let mut settlements = [VACANT; WINDOW];
    let mut text = [0; TEXT_ROOM];
    let heard = geocom_client_feed(state, bytes, &mut settlements, &mut text);
    if heard.fault != 0 {
        return bytes.len();
    }
    heard.used
}

// Feeds bytes until all are used. If the state is no client's, nothing changes.
fn feed_all(state: &mut GeocomClient, bytes: &[u8])
    ensures fed { FeedsBytes bytes.now state.old state.new }
    ensures answered { KeepsAnswered state.old state.new }
{
    let mut left = bytes;
    while !left.is_empty() {
        let used = feed_line(state, left);
        left = bytes_from(left, used);
    }
}

// Makes this call, with ample room. What it returns and writes is dropped; a fault leaves the state as it is.
fn make_call(state: &mut GeocomClient, call: &StateCall<'_>)
    ensures { (width : ℕ) (s : CallStage) (calls : List StateCall) → IsAtStage width s state.old
        → MadeBut width s (call.now ∷ calls) state.new calls }
{
    match call {
        StateCall::Send {
            target,
            deadline,
            procedure,
            params,
        } => {
            let mut line = [0; LINE_ROOM];
            let _ = geocom_client_send(state, *target, *deadline, *procedure, params, &mut line);
        }
        StateCall::SendRaw {
            target,
            deadline,
            procedure,
            params,
        } => {
            let mut line = [0; LINE_ROOM];
            let _ = geocom_client_send_raw(
                state, *target, *deadline, *procedure, params, &mut line,
            );
        }
        StateCall::Begin(bytes) => {
            let mut line = [0; LINE_ROOM];
            let _ = geocom_client_synchronize(state, bytes, &mut line);
        }
        StateCall::Feed(bytes) => feed_all(state, bytes),
        StateCall::Expire(now) => {
            let mut targets = [0; WINDOW];
            let _ = geocom_client_expire(state, *now, &mut targets);
        }
        StateCall::Restart => {
            let mut settlements = [VACANT; WINDOW];
            let _ = geocom_client_restart(state, &mut settlements);
        }
    }
}

// The call at place `k`, counted from 0.
fn call_at<'a>(calls: &[StateCall<'a>], k: usize) -> StateCall<'a>
    requires { k < length calls.now }
    ensures { slice_get calls.now k ≡ Some result }
{
    calls[k]
}

/// Makes a client of this width, 1 to 7, and then these calls, each with ample room. Whatever the calls are, the state stands for
/// the client that the rule makes of them, for the bytes that came since the last line feed, and for how far its synchronization
/// came. What was settled, and after it the outstanding requests, are the sends that weren't refused, in order, each once. With
/// another width no client is made: the calls are made on the state as it was, and nothing is said of what comes of it.
pub fn follow(state: &mut GeocomClient, width: u8, calls: &[StateCall<'_>])
    ensures { IsWidth width → (t : CallStage) × CallsReach width first_stage calls.now t × IsAtStage width t state.new
        × AccountsForSends t.reached }
{
    let _ = geocom_client_init(state, width);
    for k in 0..calls.len() {
        make_call(state, &call_at(calls, k));
    }
}
