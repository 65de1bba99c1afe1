//! What a run makes of the tasks of a text: the plan, by an operator's choice, with the time to its first cycle, and the number of a
//! cycle's commands.

ghost use Rattle.std.specs.Prelude.{◌≡◌};
ghost use Rattle.gc_measuring.specs.Choices.{first_of, longest_deadline, plan_of, time_to_multiple};

use gc_options::Choice;
use gc_station::Plan;
use gc_texts::{Task, Tasks};

/// The plan of a choice for a run that began at the moment `run`, in milliseconds since 1970, with these tasks, of which the first `setup`
/// are the setup. Its deadline is the longest in use: the greatest of the choice's own and those of the tasks.
pub fn plan_of(choice: Choice, run: u64, setup: usize, tasks: &[Task]) -> Plan
    ensures { result ≡ plan_of choice run setup tasks.now }
{
    Plan {
        width: choice.width,
        deadline: longest_deadline(choice.deadline, tasks),
        every: choice.every,
        cycles: choice.cycles,
        quiet: choice.quiet,
        retries: choice.retries,
        setup,
        stale: choice.stale,
        watched: choice.watched,
        first: first_of(choice.every, run, choice.at),
        at: choice.at,
    }
}

// How long after the moment `run`, in milliseconds since 1970, the first cycle is due: `every`, or, where cycles are due by the clock, the
// time to a moment that is `at` after a whole multiple of `every`.
fn first_of(every: u64, run: u64, at: Option<u64>) -> u64
    ensures { result ≡ first_of every run at }
{
    match at {
        Some(at) => time_to_multiple(every, at, run),
        None => every,
    }
}

// How long after the moment `run` the first one comes that is `at` after a whole multiple of `every`: none if `run` is one, or there are no
// multiples.
fn time_to_multiple(every: u64, at: u64, run: u64) -> u64
    ensures { result ≡ time_to_multiple every at run }
{
    if every == 0 {
        return 0;
    }
    let wanted = at % every;
    let past = run % every;
    if past <= wanted {
        wanted - past
    } else {
        every - past + wanted
    }
}

// The longest deadline in use, in milliseconds: the greatest of this one and those of the tasks.
fn longest_deadline(deadline: u64, tasks: &[Task]) -> u64
    ensures { result ≡ longest_deadline deadline tasks.now }
{
    let mut longest = deadline;
    for task in tasks {
        longest = longest.max(task.deadline);
    }
    longest
}

/// How many commands a cycle of these tasks has in which all have their turn, as the first: each counted once, however often its chain may
/// be sent again.
pub fn commands_per_cycle(tasks: &Tasks) -> usize {
    let cycle = tasks.tasks.iter().skip(tasks.setup);
    cycle.filter(|task| task.turn.attempt == 1).count()
}
