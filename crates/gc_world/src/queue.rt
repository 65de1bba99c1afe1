//! A queue of lines in flight in one direction.

ghost use Rattle.std.specs.Prelude.{◌≡◌, ℕ, List, ◌≤◌, ◌↔◌, [], ◌∷◌, ◌++◌, length, nat_lt, OnOk, IfOk, IsOk, IsTrue, MatchOption};
ghost use Rattle.gc_world.specs.Worlds.{without, doubled};

use std::alloc::{AllocError, Global};
use std::collections::VecDeque;
use std::marker::Model;

/// The lines in flight in one direction, the one that was written first in front. Of each line the queue holds its place in
/// a list of the report, where its bytes are. Upward that list is `sent`, and the place is the request's number; downward it
/// is `made`.
#[derive(Drop)]
pub struct Queue {
    places: VecDeque<usize>,
}

impl Model for Queue {
    ghost use Rattle.std.specs.Prelude.{ℕ, List};

    ghost Value = { List ℕ };

    ghost view = { λ q. q.places.items };
}

impl Queue {
    /// An empty queue.
    pub fn new(alloc: Global) -> Queue
        ensures { result ≡ [] }
    {
        Queue {
            places: VecDeque::new(alloc),
        }
    }

    /// Whether no line is in flight.
    pub fn is_empty(&self) -> bool
        ensures { IsTrue result ↔ (self.now ≡ []) }
    {
        self.places.is_empty()
    }

    /// The place of the line in front. `None`: no line is in flight.
    pub fn front(&self) -> Option<usize>
        ensures { MatchOption result (self.now ≡ []) (λ front. (rest : List ℕ) × (self.now ≡ front ∷ rest)) }
    {
        self.places.front().copied()
    }

    /// Puts the line of this place at the back: it was written last. `Err`: memory for it was refused, and the queue is as
    /// before.
    #[inline(always)]
    pub fn push(&mut self, place: usize) -> Result<(), AllocError>
        ensures { OnOk result (self.new ≡ self.old ++ place ∷ []) }
    {
        self.places.push_back(place)?;
        Ok(())
    }

    /// Takes the line in front out, and returns its place. `None`: no line is in flight.
    pub fn take_front(&mut self) -> Option<usize>
        ensures { MatchOption result ((self.old ≡ []) × (self.new ≡ [])) (λ front. self.old ≡ front ∷ self.new) }
    {
        self.places.pop_front()
    }

    /// Takes line k out: it is lost. Returns whether there was a line k; if not, nothing changes. Lines are counted from 0, at
    /// the front.
    pub fn lose(&mut self, k: usize) -> bool
        ensures found { result ≡ nat_lt k (length self.old) }
        ensures left { self.new ≡ without k self.old }
    {
        self.places.remove(k).is_some()
    }

    /// Puts line k in once more, directly after itself. Returns whether there is a line k; if not, nothing changes. Lines are
    /// counted from 0, at the front. `Err`: memory for it was refused, and the queue is as before.
    pub fn repeat(&mut self, k: usize) -> Result<bool, AllocError>
        ensures spare { length self.old ≤ k → IsOk result }
        ensures found { IfOk result (λ found. found ≡ nat_lt k (length self.old)) }
        ensures left { OnOk result (self.new ≡ doubled k self.old) }
    {
        let Some(place) = self.places.get(k) else {
            return Ok(false);
        };
        let copy = *place;
        self.places.insert(k, copy)?;
        Ok(true)
    }
}
