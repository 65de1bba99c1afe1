//! What is seen of a link and a book before each act of a run: a ghost value, which no code reads and which takes no memory. Each
//! act is a turn of the run, and what is seen before it is the snapshot of that turn.

ghost use Rattle.std.specs.Prelude.{◌≡◌, [], ◌∷◌, ◌++◌, List};
ghost use base.Fml.{ftrue};
ghost use Rattle.gc_station.specs.Keeping.{Snapshot, snapshots_code};

use crate::book::Book;
use gc_links::Link;
use std::marker::Model;

/// What was seen so far, in order: at each moment what a link had recorded, what a book had taken, and whether that lasted.
#[derive(Drop)]
pub struct Kept {
    // One snapshot for each turn so far.
    pub ghost turns: { List Snapshot } by { snapshots_code },
}

impl Model for Kept {
    ghost also_owns = { λ _. ftrue };
}

impl Kept {
    /// The value before the first act of a run: nothing was seen yet.
    pub fn new() -> Kept
        ensures { result.turns ≡ [] }
    {
        Kept {}
    }

    // What was seen so far, with `turn` added at the end. The turns are ghost, so there is nothing to copy. No code reads `_link`
    // and `_book`: the value of `turn`, which is ghost, is made from them.
    fn with_turn<L, B>(&self, _link: &L, _book: &B) -> Kept
        ghost turn: { Snapshot }
        ensures { result.turns ≡ self.now.turns ++ turn ∷ [] }
    {
        Kept {}
    }

    // What was seen so far, with what is seen now added at the end: what the link has recorded, what the book has taken, and
    // whether the book is durable.
    pub(crate) fn with_snapshot<L: Link, B: Book>(&self, link: &L, book: &B) -> Kept
        ensures { result.turns ≡ self.now.turns ++ record { acts = L.acts link.now; taken = B.taken book.now; lasts = B.is_durable book.now } ∷ [] }
    {
        self.with_turn(link, book)
    }
}
