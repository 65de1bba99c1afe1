//! The report of a list of events: what was sent, executed, made and settled.

ghost use Rattle.std.specs.Prelude.{◌≡◌, ℕ, List, Some};
ghost use Rattle.gc_world.specs.Sides.{text_at};

use crate::direction::Direction;
use crate::entries::Entries;
use gc_catalogue::Call;
use gc_client::Settlement;
use gc_lines::{Assembler, Line};

/// A request that was sent. Its number is its place among these, counted from 0.
#[derive(Debug, PartialEq, Eq, Drop)]
pub struct Sent {
    /// The target that it was for, as the client was given it.
    pub target: u32,
    /// What it asks for.
    pub call: Call,
    /// Its line, as the client wrote it.
    pub line: Line,
}

/// A reply that the instrument made.
#[derive(Debug, PartialEq, Eq, Drop)]
pub struct Made {
    /// The number of the request that it replies to.
    pub number: usize,
    /// Its line.
    pub line: Line,
}

/// What a list of events led to.
#[derive(Drop)]
pub struct Report<I> {
    /// The requests that were sent, refused ones not among them.
    pub sent: Entries<Sent>,
    /// The numbers of the requests that the instrument executed, in the order of execution.
    pub executed: Entries<usize>,
    /// The replies that the instrument made, in order. Where a request came again, the kept reply is here once more.
    pub made: Entries<Made>,
    /// The settlements, in order.
    pub settled: Entries<Settlement<Call>>,
    /// For each event that restarted the instrument, alone or with the client, how many requests it had executed until then.
    pub starts: Entries<usize>,
    /// The instrument, as the last event left it.
    pub instrument: I,
    /// The assembler before the instrument, as the last event left it.
    pub up: Assembler,
    /// The assembler before the client, as the last event left it.
    pub down: Assembler,
    /// How many sends were refused.
    pub refused_sends: usize,
    /// How many events were not possible.
    pub idle_events: usize,
}

impl<I> Report<I> {
    /// The line at this place of a direction's list, which is `sent` upward and `made` downward.
    #[inline(always)]
    pub(crate) fn line(&self, direction: Direction, place: usize) -> &Line
        requires { (text : List ℕ) × (text_at direction self.now place ≡ Some text) }
        ensures { text_at direction self.now place ≡ Some result.now.items }
    {
        match direction {
            Direction::Up => &self.sent.at(place).line,
            Direction::Down => &self.made.at(place).line,
        }
    }
}
