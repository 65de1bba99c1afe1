//! A window in an array of eight places, as many as there are ids.

ghost use Rattle.std.specs.Prelude.{◌≡◌, ◌<◌, [], ◌∷◌, ◌++◌, length};
ghost use Rattle.gc_client.specs.declared.window.TheConstants.{WINDOW};

use crate::pending::Pending;
use crate::window::{IDS, Window};
use gc_catalogue::{Asking, Call};
use std::marker::Model;

// As many places as there are ids.
const PLACES: usize = IDS as usize;

/// A window in an array of eight places, which never allocates. Requests take the places in turn, going round. `clear` begins again at
/// place 0. A new client clears its window and its ids begin at 0, so the request with id i is at place i, until a restart.
#[derive(Drop)]
pub struct SlotsOf<Q: Asking> {
    places: [Pending<Q>; PLACES],
    // The place of the oldest request; if none waits, that of the next one.
    oldest: usize,
    // How many requests wait: the oldest, and those at the places after it, going round.
    len: usize,
}

/// A window of requests for calls, in an array of eight places.
pub type Slots = SlotsOf<Call>;

impl<Q: Asking> Model for SlotsOf<Q> {
    ghost use Rattle.std.specs.Prelude.{◌≡◌, ◌<◌, ◌≤◌, List, length};
    ghost use Rattle.gc_client.specs.declared.window.TheConstants.{WINDOW};
    ghost use Rattle.gc_client.specs.declared.pending.Pending.{Pending};
    ghost use Rattle.gc_client.specs.declared.slots.TheConstants.{PLACES};
    ghost use Rattle.gc_client.specs.Places.{waiting_in};

    ghost Value = { List (Pending Q) };

    ghost view = { λ s. waiting_in s.oldest s.len s.places };

    ghost invariant = { λ s. (s.oldest < PLACES) × (s.len ≤ WINDOW) × (length s.places ≡ PLACES) };
}

// The value of a place in which no request has been put yet.
#[inline(always)]
fn vacant<Q: Asking>() -> Pending<Q> {
    Pending {
        target: 0,
        call: Q::blank(),
        deadline: 0,
        given_up: false,
    }
}

impl<Q: Asking> SlotsOf<Q> {
    /// Makes an empty window, without allocating.
    pub fn new() -> SlotsOf<Q>
        ensures { result ≡ [] }
    {
        SlotsOf {
            places: [vacant(); PLACES],
            oldest: 0,
            len: 0,
        }
    }
}

// The default is an empty window.
impl<Q: Asking> Default for SlotsOf<Q> {
    ghost is_default = { λ slots. slots ≡ [] };

    fn default() -> SlotsOf<Q> {
        SlotsOf::new()
    }
}

impl<Q: Asking> Window for SlotsOf<Q> {
    type Asked = Q;

    ghost pendings = { λ slots. slots };

    fn len(&self) -> usize {
        self.len
    }

    // Request k is k places after the oldest, going round.
    fn get(&self, k: usize) -> Pending<Q> {
        self.places[(self.oldest + k) % PLACES]
    }

    // The request goes to the place after the youngest, going round; if none waits, to the place `oldest`. The clauses are the trait's,
    // which `rattle check` can't give this method yet.
    fn push(&mut self, p: Pending<Q>)
        requires { length self.old < WINDOW }
        ensures { self.new ≡ self.old ++ p ∷ [] }
    {
        self.places[(self.oldest + self.len) % PLACES] = p;
        self.len += 1;
    }

    fn take_first(&mut self) -> Pending<Q> {
        let first = self.places[self.oldest];
        self.oldest = (self.oldest + 1) % PLACES;
        self.len -= 1;
        first
    }

    fn give_up(&mut self, k: usize) {
        let place = (self.oldest + k) % PLACES;
        self.places[place].given_up = true;
    }

    fn clear(&mut self) {
        self.oldest = 0;
        self.len = 0;
    }
}
