//! A book is where a station writes how its commands ended.

ghost use Rattle.std.specs.Prelude.{◌≡◌, true, OnOk};
ghost use Rattle.std.specs.Io.KnownBytes.{Keeps};
ghost use Rattle.gc_station.specs.Records.{record_seen, Writes};
ghost use Rattle.gc_lines.specs.Ports.{FailsWith};

use crate::watching::Watch;
use gc_lines::PortFailed;
use gc_links::Moment;
use gc_texts::{Ending, Stamp, Wish};

/// The health of the link before an act, for whoever watches the station. Where two of these fit, it is the one listed later.
#[derive(Clone, Copy)]
pub enum LinkHealth {
    /// None of the others: no request was sent since the last reply line, since the connection was made, or since the station
    /// resynchronized between two cycles.
    Fine,
    /// The station has synchronized, no command of the cycle is left, and each one that was sent is settled; or there is no
    /// connection, and none is wanted until the next cycle is due.
    Idle,
    /// There is no connection, though one is wanted.
    Unconnected,
    /// A connection was made, and is being cleared, or drained until it is quiet: no request was sent over it yet.
    Unquiet,
    /// A request was sent on this connection, and since then no reply line came, and the station didn't resynchronize between two
    /// cycles.
    Unheard,
}

/// Where records go. A book writes all its records in one form.
pub trait Book {
    ghost use Rattle.std.specs.Prelude.{ℕ, List, [], ◌∷◌, Option, None, Bool};
    ghost use Rattle.std.specs.Io.KnownBytes.{Appends};
    ghost use Rattle.gc_station.specs.Records.{Record};

    /// The bytes of a record, as this book writes them.
    ghost text: { Self → Record → List ℕ };

    /// All bytes that the book has taken, if they are known.
    ghost taken: { Self → Option (List ℕ) };

    /// Whether a write or a sync of the book has failed.
    ghost failed: { Self → Bool };

    /// Whether the records that were written outlast what this book is meant to outlast.
    ghost is_durable: { Self → Bool };

    /// The cycles that were reported to the book as overrun, if they are known.
    ghost overruns: { Self → Option (List ℕ) } = { λ _. None };

    /// Writes a record. `Err`: the book took a first part of the record's bytes, not all of them, and has failed.
    fn write(&mut self, stamp: Stamp, command: &Wish, ending: Ending<'_>) -> Result<(), PortFailed>
        ensures writes { Writes (taken self.old) (taken self.new) (text self.old (record_seen stamp command.now ending.entry)) result }
        ensures fails { FailsWith result (failed self.old) (failed self.new) }
        ensures same_overruns { overruns self.new ≡ overruns self.old }
        ensures form { text self.new ≡ text self.old };

    /// Makes all records so far durable: they outlast a crash, if the book is meant to outlast one. It is called before anything
    /// is sent, read, opened or closed, but for the close after the book failed, and at the end; not before an act that only
    /// reads the clock. `Err`: the book has failed.
    fn sync(&mut self) -> Result<(), PortFailed>
        ensures is_durable { OnOk result (is_durable self.new ≡ true) }
        ensures same { Keeps (taken self.old) (taken self.new) }
        ensures fails { FailsWith result (failed self.old) (failed self.new) }
        ensures same_overruns { overruns self.new ≡ overruns self.old }
        ensures form { text self.new ≡ text self.old };

    /// Takes note of the health of the link and of the last moment read on the link, whose times are 0 if none was read yet. It
    /// is called before each act, but for the close after the book failed.
    fn sees(&mut self, health: LinkHealth, moment: Moment)
        ensures same_overruns { overruns self.new ≡ overruns self.old }
        ensures same { taken self.new ≡ taken self.old }
        ensures works { failed self.new ≡ failed self.old }
        ensures is_durable { is_durable self.new ≡ is_durable self.old }
        ensures form { text self.new ≡ text self.old };

    /// Takes note of the watched command that was answered well the longest ago. It is called before a run ends as stale, and not else.
    fn unanswered(&mut self, watch: Watch)
        ensures same_overruns { overruns self.new ≡ overruns self.old }
        ensures same { taken self.new ≡ taken self.old }
        ensures works { failed self.new ≡ failed self.old }
        ensures is_durable { is_durable self.new ≡ is_durable self.old }
        ensures form { text self.new ≡ text self.old };

    /// Takes note that a stray came that can't repeat the reply that settled last: a reply with an id that no outstanding request has. So
    /// it was altered, or the line that settled last was, which ended `ended` requests, null procedures too; 1 if no line ended any since
    /// the station synchronized. It is called before the next record is written, and as often as such a stray comes.
    fn doubts(&mut self, ended: usize)
        ensures same_overruns { overruns self.new ≡ overruns self.old }
        ensures same { taken self.new ≡ taken self.old }
        ensures works { failed self.new ≡ failed self.old }
        ensures is_durable { is_durable self.new ≡ is_durable self.old }
        ensures form { text self.new ≡ text self.old };

    /// Takes note that this cycle, counted from 1, was not done when the next was due. It is called at most once for a cycle, and
    /// for none that was missed.
    fn overran(&mut self, cycle: u64)
        ensures reports { Appends (overruns self.old) (overruns self.new) (cycle ∷ []) }
        ensures same { taken self.new ≡ taken self.old }
        ensures works { failed self.new ≡ failed self.old }
        ensures is_durable { is_durable self.new ≡ is_durable self.old }
        ensures form { text self.new ≡ text self.old };
}
