//! Entries: a list on the heap that contracts see as a list.

ghost use Rattle.std.specs.Prelude.{◌≡◌, ◌<◌, ◌↔◌, [], ◌∷◌, ◌++◌, length, slice_get, Some, OnOk, IsTrue, if◌then◌else◌};
ghost use Rattle.gc_catalogue.specs.declared.answer.Reading.{Reading};
ghost use Rattle.gc_client.specs.declared.settlement.Outcome.TheVariants.{Answered, Late, Lost};

use crate::report::{Made, Sent};
use gc_catalogue::{Call, Reading};
use gc_client::{Outcome, Settlement};
use gc_lines::{Line, append};
use std::alloc::{AllocError, Global};
use std::marker::Model;

/// Entries in the order in which they came, in a `Vec`.
#[derive(Drop)]
pub struct Entries<T> {
    entries: Vec<T>,
}

impl<T> Model for Entries<T> {
    ghost use Rattle.std.specs.Prelude.{List};

    ghost Value = { List T };

    ghost view = { λ e. e.entries.items };
}

impl<T> Entries<T> {
    /// An empty list, with room for `count` entries. Where memory for that room is refused, the list has no room yet, and
    /// each append asks for what it needs.
    pub(crate) fn with_room(alloc: Global, count: usize) -> Entries<T>
        ensures { result ≡ [] }
    {
        match Vec::with_capacity(alloc, count) {
            Ok(entries) => Entries { entries },
            Err(_) => Entries {
                entries: Vec::new(alloc),
            },
        }
    }

    /// The elements of this vector as entries, in the same order. No memory is allocated.
    pub fn new(entries: Vec<T>) -> Entries<T>
        ensures { result ≡ entries.items }
    {
        Self { entries }
    }

    /// The entries, in order.
    pub fn as_slice(&self) -> &[T]
        ensures { result.now ≡ self.now }
    {
        self.entries.as_slice()
    }

    /// How many entries there are.
    pub fn len(&self) -> usize
        ensures { result ≡ length self.now }
    {
        self.entries.len()
    }

    /// Whether there is no entry.
    pub fn is_empty(&self) -> bool
        ensures { IsTrue result ↔ (self.now ≡ []) }
    {
        self.entries.is_empty()
    }

    /// The entry at this place, counted from 0.
    pub(crate) fn at(&self, place: usize) -> &T
        requires { place < length self.now }
        ensures { slice_get self.now place ≡ Some result.now }
    {
        &self.entries[place]
    }
}

impl<T: Drop> Entries<T> {
    /// Appends an entry. `Err`: memory for it was refused, and the list is as before.
    pub(crate) fn push(&mut self, entry: T) -> Result<(), AllocError>
        ensures { OnOk result (self.new ≡ self.old ++ entry ∷ []) }
    {
        // Memory is asked for first: a `push` that is refused returns its entry, and entries are large.
        self.entries.reserve(1)?;
        self.entries.push_reserved(entry);
        Ok(())
    }
}

// An entry that holds a line is made in its place in the list, with a line of no bytes, and gets the bytes there: so a line costs
// as many copied bytes as it has, and not the 512 that it has room for.

impl Entries<Sent> {
    /// Appends a request that was sent. `Err`: memory for it was refused, and the list is as before.
    pub(crate) fn push_sent(
        &mut self,
        target: u32,
        call: &Call,
        line: &Line,
    ) -> Result<(), AllocError>
        ensures { OnOk result (self.new ≡ self.old ++ record { target = target; call = call.now; line = line.now } ∷ []) }
    {
        let place = self.entries.len();
        self.entries.reserve(1)?;
        self.entries.push_reserved(Sent {
            target,
            call: *call,
            line: Line::new(),
        });
        append(&mut self.entries[place].line, line);
        Ok(())
    }
}

impl Entries<Made> {
    /// Appends a reply that was made, with the number of its request. `Err`: memory for it was refused, and the list is as before.
    #[inline(always)]
    pub(crate) fn push_made(&mut self, number: usize, line: &Line) -> Result<(), AllocError>
        ensures { OnOk result (self.new ≡ self.old ++ record { number = number; line = line.now } ∷ []) }
    {
        let place = self.entries.len();
        self.entries.reserve(1)?;
        self.entries.push_reserved(Made {
            number,
            line: Line::new(),
        });
        append(&mut self.entries[place].line, line);
        Ok(())
    }
}

impl Entries<Settlement<Call>> {
    /// Appends these settlements, in order. `Err`: memory was refused for one of them; those before it were appended.
    #[inline(always)]
    pub(crate) fn append_all(&mut self, settlements: &[Settlement<Call>]) -> Result<(), AllocError>
        ensures { OnOk result (self.new ≡ self.old ++ settlements.now) }
    {
        for settlement in settlements {
            self.push_settled(settlement)?;
        }
        Ok(())
    }

    // Appends a settlement, whatever its outcome. `Err`: memory for it was refused, and the list is as before.
    fn push_settled(&mut self, settlement: &Settlement<Call>) -> Result<(), AllocError>
        ensures { OnOk result (self.new ≡ self.old ++ settlement.now ∷ []) }
    {
        match &settlement.outcome {
            Outcome::Answered(reading, line) => {
                self.push_answered(settlement.target, &settlement.call, reading, line)
            }
            Outcome::Late => self.push_unanswered(settlement.target, &settlement.call, true),
            Outcome::Lost => self.push_unanswered(settlement.target, &settlement.call, false),
        }
    }

    // Appends the settlement of a request that was answered with this line. `Err`: memory for it was refused, and the list is as before.
    fn push_answered(
        &mut self,
        target: u32,
        call: &Call,
        reading: &Reading,
        line: &Line,
    ) -> Result<(), AllocError>
        ensures { OnOk result (self.new ≡ self.old ++ record { target = target; call = call.now; outcome = Answered reading.now line.now } ∷ []) }
    {
        let place = self.entries.len();
        self.entries.reserve(1)?;
        self.entries.push_reserved(Settlement {
            target,
            call: *call,
            outcome: Outcome::Answered(*reading, Line::new()),
        });
        put_answer_line(&mut self.entries[place].outcome, line);
        Ok(())
    }

    // Appends the settlement of a request that wasn't answered: as late (`is_late`), or else as lost. `Err`: memory for it was refused,
    // and the list is as before. The function has a frame of its own, because a settlement is large.
    #[inline(never)]
    fn push_unanswered(&mut self, target: u32, call: &Call, is_late: bool) -> Result<(), AllocError>
        ensures { OnOk result (self.new ≡ self.old ++ record { target = target; call = call.now; outcome = if is_late then Late else Lost } ∷ []) }
    {
        let outcome = if is_late {
            Outcome::Late
        } else {
            Outcome::Lost
        };
        self.push(Settlement {
            target,
            call: *call,
            outcome,
        })
    }
}

// Copies a line into an outcome that is an answer with an empty line.
#[inline]
fn put_answer_line(outcome: &mut Outcome, line: &Line)
    requires { (reading : Reading) × (outcome.old ≡ Answered reading (record { items = [] })) }
    ensures { (reading : Reading) → outcome.old ≡ Answered reading (record { items = [] }) → outcome.new ≡ Answered reading line.now }
{
    if let Outcome::Answered(_, empty) = outcome {
        append(empty, line);
    }
}
