//! The numbers of a text's counters: of each line with an item `>` the one in the answer that was recorded last. The next answer to that
//! line is to have a greater one there.

ghost use Rattle.std.specs.Prelude.{◌≡◌, option_map};
ghost use Rattle.gc_station.specs.Counters.{no_counts, count_at, with_count, count_found, count_noted};
ghost use Rattle.gc_texts.specs.Endings.{ending_seen};

use gc_lines::Line;
use gc_texts::{COUNTERS, Ending, Expectation, Expected, count_in};
use gc_values::Decimal;
use std::marker::Model;

/// The number of each counter, at the counter's place. `None`: no answer had one.
#[derive(Drop)]
pub(crate) struct Counters {
    counts: [Option<Decimal>; COUNTERS],
}

impl Model for Counters {
    ghost use Rattle.std.specs.Prelude.{◌≡◌, List, Option, length};
    ghost use Rattle.gc_texts.specs.declared.expectation.TheConstants.{COUNTERS};
    ghost use Rattle.gc_values.specs.declared.decimal.Decimal.{Decimal};

    ghost Value = { List (Option Decimal) };

    ghost view = { λ c. c.counts };

    ghost invariant = { λ c. length c.counts ≡ COUNTERS };
}

// The number under the item `>` in the line of a reply, if a reply came in time.
fn count_found(expects: &Option<Expectation>, line: Option<&Line>) -> Option<Decimal>
    ensures { result ≡ count_found expects.now (option_map (λ line. line.now.items) line.entry) }
{
    match line {
        Some(line) => count_in(expects, line),
        None => None,
    }
}

impl Counters {
    // No answer was recorded yet.
    pub(crate) fn new() -> Counters
        ensures { result ≡ no_counts }
    {
        Counters {
            counts: [None; COUNTERS],
        }
    }

    // The number that is kept of a counter. `None`: there is no counter, or no answer had a number.
    pub(crate) fn at(&self, counter: Option<usize>) -> Option<Decimal>
        ensures { result ≡ count_at self.now counter }
    {
        self.counts.get(counter?).copied().flatten()
    }

    // Keeps the number that an answer has, in the place of its counter, if it has one and there is a counter.
    fn put(&mut self, found: Option<Decimal>, counter: Option<usize>)
        ensures { self.new ≡ with_count found counter self.old }
    {
        if let (Some(number), Some(k)) = (found, counter)
            && k < COUNTERS
        {
            self.counts[k] = Some(number);
        }
    }

    // Notes that a command of which this is expected was recorded with this ending: the number that its line has under the item `>`, whether
    // the answer is as expected or not.
    pub(crate) fn note(&mut self, expected: &Expected, ending: Ending<'_>)
        ensures { self.new ≡ count_noted expected.now (ending_seen ending.entry) self.old }
    {
        let found = count_found(&expected.expects, ending.line());
        self.put(found, expected.counter);
    }
}
