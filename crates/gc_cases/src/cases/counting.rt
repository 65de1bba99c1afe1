//! A window that notes what is pushed into it.

ghost use Rattle.std.specs.Prelude.{◌≡◌, ◌<◌, ◌∷◌, ◌++◌, [], length};
ghost use Rattle.gc_client.specs.declared.window.TheConstants.{WINDOW};

use gc_catalogue::Call;
use gc_client::{Pending, Slots, Window};
use gc_probes::Told;
use std::cell::RefCell;

/// A window in fixed places that notes each push. Its notes are outside, so that they stay whatever becomes of the window.
#[derive(Drop)]
pub struct Counting<'a> {
    window: Slots,
    // For each push, in order, a space and how many requests waited before it.
    notes: &'a RefCell<Told>,
}

impl<'a> Counting<'a> {
    /// An empty window, which appends to `notes`, at each push, a space and how many requests wait before it.
    pub fn new(notes: &'a RefCell<Told>) -> Counting<'a> {
        Counting {
            window: Slots::new(),
            notes,
        }
    }
}

// Appends a space and how many requests wait, unless the notes are in use.
fn note(notes: &RefCell<Told>, waiting: usize) {
    if let Ok(mut notes) = notes.try_borrow_mut() {
        notes.titled(" ", &waiting);
    }
}

impl Window for Counting<'_> {
    type Asked = Call;

    ghost pendings = { λ counting. counting.window };

    fn len(&self) -> usize {
        self.window.len()
    }

    fn get(&self, k: usize) -> Pending<Call> {
        self.window.get(k)
    }

    // The clauses are the trait's, which `rattle check` can't give this method yet.
    fn push(&mut self, p: Pending<Call>)
        requires { length self.old.window < WINDOW }
        ensures { self.new.window ≡ self.old.window ++ p ∷ [] }
    {
        note(self.notes, self.window.len());
        self.window.push(p);
    }

    fn take_first(&mut self) -> Pending<Call> {
        self.window.take_first()
    }

    fn give_up(&mut self, k: usize) {
        self.window.give_up(k);
    }

    fn clear(&mut self) {
        self.window.clear();
    }
}
