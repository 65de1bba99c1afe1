//! A window in a ring buffer on the heap.

ghost use Rattle.std.specs.Prelude.{◌≡◌, ◌<◌, [], ◌∷◌, ◌++◌, length, IfOk};

use crate::pending::Pending;
use crate::window::{WINDOW, Window};
use circular_buffer::HeapCircularBuffer;
use gc_catalogue::{Asking, Call};
use std::alloc::{AllocError, Global};
use std::marker::Model;

/// A window in a ring buffer on the heap. `new` allocates the room for seven requests; no other call allocates.
#[derive(Drop)]
pub struct RingOf<Q: Asking> {
    buffer: HeapCircularBuffer<Pending<Q>, Global>,
}

/// A window of requests for calls, in a ring buffer on the heap.
pub type Ring = RingOf<Call>;

impl<Q: Asking> Model for RingOf<Q> {
    ghost use Rattle.std.specs.Prelude.{◌≡◌, List};
    ghost use Rattle.gc_client.specs.declared.window.TheConstants.{WINDOW};
    ghost use Rattle.gc_client.specs.declared.pending.Pending.{Pending};

    ghost Value = { List (Pending Q) };

    ghost view = { λ r. r.buffer.items };

    ghost invariant = { λ r. r.buffer.capacity ≡ WINDOW };
}

impl<Q: Asking> RingOf<Q> {
    /// Makes an empty window with room for seven requests. It fails only if the allocation of that room fails.
    pub fn new(alloc: Global) -> Result<RingOf<Q>, AllocError>
        ensures { IfOk result (λ ring. ring ≡ []) }
    {
        let buffer = HeapCircularBuffer::with_capacity(alloc, WINDOW)?;
        Ok(RingOf { buffer })
    }
}

impl<Q: Asking> Window for RingOf<Q> {
    type Asked = Q;

    ghost pendings = { λ ring. ring };

    fn len(&self) -> usize {
        self.buffer.len()
    }

    fn get(&self, k: usize) -> Pending<Q> {
        *self.buffer.get(k).unwrap()
    }

    // The clauses are the trait's, which `rattle check` can't give this method yet.
    fn push(&mut self, p: Pending<Q>)
        requires { length self.old < WINDOW }
        ensures { self.new ≡ self.old ++ p ∷ [] }
    {
        self.buffer.push_back(p);
    }

    fn take_first(&mut self) -> Pending<Q> {
        self.buffer.pop_front().unwrap()
    }

    fn give_up(&mut self, k: usize) {
        if let Some(p) = self.buffer.get_mut(k) {
            p.given_up = true;
        }
    }

    fn clear(&mut self) {
        self.buffer.clear();
    }
}
