//! A station over any link, whose acts are recorded.

ghost use Rattle.std.specs.Prelude.{Some};
ghost use Rattle.gc_station.specs.Runs.{RanBy, run_seen};
ghost use Rattle.gc_station.specs.Scopes.{ForEachAndSomeReadings};
ghost use Rattle.gc_station.specs.Watching.{places_of};

use gc_links::{Link, Telling};
use gc_station::{Book, Kept, Plan, Tally, Watches, run_station};
use gc_texts::{RunFault, Task};

/// Runs a station with these commands by `run_station`, over a link that records its acts, for at most `max_turns` turns. The
/// clause `ran` of `run_station` holds here of the acts recorded. `Err`: the fault with which the run ended.
pub fn run_telling<L: Link, B: Book>(
    link: &mut Telling<L>,
    book: &mut B,
    commands: &[Task],
    plan: &Plan,
    watches: Watches,
    max_turns: u64,
) -> Result<Tally, RunFault>
    ensures { ForEachAndSomeReadings (RanBy plan.now commands.now max_turns (places_of watches)
        (run_seen (Some link.old.history.acts) B.Book book.old) (run_seen (Some link.new.history.acts) B.Book book.new) result) }
{
    run_station(
        link,
        book,
        commands,
        plan,
        watches,
        max_turns,
        &mut Kept::new(),
    )
}
