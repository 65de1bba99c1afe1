//! A client in plain bytes: a state is read whole or not at all, and what a client leaves is written back.

ghost use Rattle.std.specs.Prelude.{◌≡◌, ◌≤◌, ◌↔◌, IsTrue, ℕ, Bool, List, [], length, take, None, Some, IfSome, if◌then◌else◌};
ghost use Rattle.gc_catalogue.specs.declared.asked.Asked.{Asked};
ghost use Rattle.gc_catalogue.specs.Asked.{IsAsked};
ghost use Rattle.gc_client.specs.Beginning.{the_word};
ghost use Rattle.gc_client.specs.declared.pending.Pending.{Pending};
ghost use Rattle.gc_client.specs.Rule.{IsWidth, Windowed};
ghost use Rattle.gc_client.specs.Rule;
ghost use Rattle.geocom_c.specs.Rest.{kept_bytes};
ghost use Rattle.geocom_c.specs.State.{StoresClient, HasClientNumbers, HoldRequests, IsOfNoClient, IsLineOf, IsOnlyReading, HoldsRequest, KeepsAnswered, StandsForClient, left_of};
ghost use Rattle.geocom_c.specs.Rooms.{KeepsLength};

use crate::rest::GeocomRest;
use gc_catalogue::{Asked, decode_asked, encode_asked};
use gc_client::{Client, IDS, Pending, SlotsOf, WINDOW, Window};
use gc_lines::{Request, read_request};
use gc_values::filled_up;

/// An outstanding request.
#[repr(C)]
#[derive(Clone, Copy)]
pub struct GeocomWaiting {
    /// The moment at which it times out, by the caller's clock and in the caller's unit.
    pub deadline: u64,
    /// Whom it is for, as it was handed to `geocom_client_send` or `geocom_client_send_raw`.
    pub target: u32,
    /// How many bytes of `line` are used, at most 512.
    pub length: u16,
    /// 1 if it has timed out; otherwise 0.
    pub given_up: u8,
    /// Its request line without an id and without CR LF.
    pub line: [u8; 512],
}

/// A client.
#[repr(C)]
#[derive(Clone, Copy)]
pub struct GeocomClient {
    /// The outstanding requests, oldest first, in the first `waiting` places.
    pub places: [GeocomWaiting; WINDOW],
    /// The bytes of an incomplete line.
    pub rest: GeocomRest,
    /// How many requests may be outstanding, 1 to 7.
    pub width: u8,
    /// The id of the next request, 0 to 7.
    pub next: u8,
    /// How many requests are outstanding.
    pub waiting: u8,
    /// How many null procedures of the synchronization are answered: 8 once the client has synchronized.
    pub answered: u8,
}

// What is in a place that nothing has used yet.
const VACANT: GeocomWaiting = GeocomWaiting {
    deadline: 0,
    target: 0,
    length: 0,
    given_up: 0,
    line: [0; 512],
};

/// How many null procedures a synchronization has.
pub(crate) const NULLS: u8 = 8;

// A new client of this width, which hasn't synchronized, with no bytes of an incomplete line.
pub(crate) fn fresh(width: u8) -> GeocomClient
    requires { IsWidth width }
    ensures client { StandsForClient result (record { width = width; ids = Rule.fresh }) [] }
    ensures begins { left_of result ≡ the_word }
{
    GeocomClient {
        places: [VACANT; WINDOW],
        rest: GeocomRest::new(),
        width,
        next: 0,
        waiting: 0,
        answered: 0,
    }
}

// What a request without an id asks for: a call of the table, or a raw call. `None`: it has an id, or its number and parameters
// are neither.
fn asked_of(request: &Request<'_>) -> Option<Asked>
    ensures found { IfSome result (λ asked. (request.now.id ≡ None) × IsAsked request.now.rpc request.now.params.now asked) }
    ensures only { (asked : Asked) → request.now.id ≡ None → IsAsked request.now.rpc request.now.params.now asked
        → result ≡ Some asked }
{
    if request.id.is_some() {
        return None;
    }
    decode_asked(request)
}

// What a request line without an id asks for. `None`: the line is no such line, or it asks for neither a call of the table nor a
// raw call.
fn asked_in(line: &[u8]) -> Option<Asked>
    ensures found { IfSome result (λ asked. IsLineOf line.now asked) }
    ensures only { (asked : Asked) → IsLineOf line.now asked → result ≡ Some asked }
{
    match read_request(line) {
        Ok(request) => asked_of(&request),
        Err(_) => None,
    }
}

// What a place's line asks for. `None`: the length is above 512, or the line is no request line without an id that asks for
// something.
fn asked_at(place: &GeocomWaiting) -> Option<Asked>
    ensures within { IfSome result (λ _. place.now.length ≤ 512) }
    ensures found { IfSome result (λ asked. IsLineOf (take place.now.length place.now.line) asked) }
    ensures only { (asked : Asked) → place.now.length ≤ 512 → IsLineOf (take place.now.length place.now.line) asked
        → result ≡ Some asked }
{
    let length = usize::from(place.length);
    if length > 512 {
        return None;
    }
    asked_in(&place.line[..length])
}

// The flag that a byte stands for: 0 is `false` and 1 is `true`. `None`: any other byte.
pub(crate) fn flag_of(byte: u8) -> Option<bool>
    ensures found { IfSome result (λ flag. byte ≡ (if flag then 1 else 0)) }
    ensures only { (flag : Bool) → byte ≡ (if flag then 1 else 0) → result ≡ Some flag }
{
    match byte {
        0 => Some(false),
        1 => Some(true),
        _ => None,
    }
}

// The request that a place's bytes stand for. `None`: they stand for no request.
fn read_place(place: &GeocomWaiting) -> Option<Pending<Asked>>
    ensures found { IfSome result (λ p. HoldsRequest place.now p) }
    ensures only { (p : Pending Asked) → HoldsRequest place.now p → result ≡ Some p }
{
    let call = asked_at(place)?;
    let given_up = flag_of(place.given_up)?;
    Some(Pending {
        target: place.target,
        call,
        deadline: place.deadline,
        given_up,
    })
}

// The place that holds a request's bytes.
fn write_place(p: &Pending<Asked>) -> GeocomWaiting
    ensures { HoldsRequest result p.now }
{
    let text = encode_asked(None, &p.call);
    GeocomWaiting {
        deadline: p.deadline,
        target: p.target,
        length: text.len() as u16,
        given_up: u8::from(p.given_up),
        line: filled_up(text.as_slice()),
    }
}

// Reads the requests of the first `count` places. `None`: one of these places holds no request.
fn read_places(places: &[GeocomWaiting], count: usize) -> Option<SlotsOf<Asked>>
    requires few { count ≤ WINDOW }
    requires there { count ≤ length places.now }
    ensures count { IfSome result (λ ps. length ps ≡ count) }
    ensures found { IfSome result (λ ps. HoldRequests places.now ps) }
    ensures only { IsOnlyReading places.now count result }
{
    let mut window = SlotsOf::new();
    for k in 0..count {
        let p = read_place(&places[k])?;
        window.push(p);
    }
    Some(window)
}

// Writes the bytes of these requests into the first places.
fn write_places(places: &mut [GeocomWaiting], window: &SlotsOf<Asked>)
    requires { length window.now ≤ length places.old }
    ensures places { HoldRequests places.new window.now }
    ensures length { KeepsLength places.old places.new }
{
    for k in 0..window.len() {
        places[k] = write_place(&window.get(k));
    }
}

// Whether the numbers of a state can be a client's: its width, its next id, how many requests are outstanding, and how many null
// procedures are answered.
fn has_client_numbers(state: &GeocomClient) -> bool
    ensures { IsTrue result ↔ HasClientNumbers state.now }
{
    1 <= state.width
        && state.width <= WINDOW as u8
        && state.next < IDS
        && state.waiting <= state.width
        && state.answered <= NULLS
}

// The client that a state's bytes stand for. `None`: they stand for no client.
pub(crate) fn load(state: &GeocomClient) -> Option<Client<SlotsOf<Asked>>>
    ensures found { IfSome result (λ c. StandsForClient state.now c (kept_bytes state.now.rest)) }
    ensures only { (c : Windowed Asked) (rest : List ℕ) → StandsForClient state.now c rest → result ≡ Some c }
    ensures none { result ≡ None → IsOfNoClient state.now }
{
    if !has_client_numbers(state) || !state.rest.is_valid() {
        return None;
    }
    let window = read_places(&state.places, usize::from(state.waiting))?;
    Some(Client::resume(window, state.width, state.next))
}

// Stores a client in a state. The bytes of an incomplete line and the number of null procedures that are answered stay as they
// are.
pub(crate) fn store(state: &mut GeocomClient, client: Client<SlotsOf<Asked>>)
    ensures client { StoresClient state.old state.new client }
    ensures rest { state.new.rest ≡ state.old.rest }
    ensures answered { KeepsAnswered state.old state.new }
{
    let (window, width, next) = client.into_parts();
    state.width = width;
    state.next = next;
    state.waiting = window.len() as u8;
    write_places(&mut state.places, &window);
}
