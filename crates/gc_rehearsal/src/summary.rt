//! The summary of a rehearsal: how commands ended, for each target too, and how long cycles took.

use crate::explained::FalseRows;
use gc_station::{Tally, is_turn, is_well};
use gc_texts::{Ending, RunFault, Stamp, Task, Wish};
use std::alloc::{AllocError, Global};

/// How the commands of a target ended, in all its rows.
#[derive(Clone, Copy, Drop)]
pub(crate) struct TargetTally {
    pub(crate) target: u32,
    pub(crate) tally: Tally,
}

/// How many runs ended before they were done, and how.
#[derive(Clone, Copy, Drop)]
pub(crate) struct RunCounts {
    /// How many were killed.
    pub(crate) killed: u64,
    /// How many gave up, and the fault of the last that did.
    pub(crate) gave_up: u64,
    pub(crate) fault: Option<RunFault>,
    /// How many were cut off at the end of their night.
    pub(crate) cut_off: u64,
}

impl RunCounts {
    // No run has ended yet.
    fn none() -> RunCounts {
        RunCounts {
            killed: 0,
            gave_up: 0,
            fault: None,
            cut_off: 0,
        }
    }

    /// Counts a run that was killed.
    pub(crate) fn count_killed(&mut self) {
        self.killed = self.killed.saturating_add(1);
    }

    /// Counts a run that gave up for this fault.
    pub(crate) fn count_given_up(&mut self, fault: RunFault) {
        self.gave_up = self.gave_up.saturating_add(1);
        self.fault = Some(fault);
    }

    /// Counts a run that was cut off at the end of its night.
    pub(crate) fn count_cut_off(&mut self) {
        self.cut_off = self.cut_off.saturating_add(1);
    }
}

// A cycle that is going on.
#[derive(Clone, Copy)]
struct Cycle {
    // Its number in its run, from 1.
    number: u64,
    // When its first request went out. `None`: nothing was sent yet.
    first: Option<u64>,
    // When the last of its commands ended that were sent; 0 as long as nothing was sent.
    last: u64,
}

impl Cycle {
    // The cycle with this number, before its first row.
    fn new(number: u64) -> Cycle {
        Cycle {
            number,
            first: None,
            last: 0,
        }
    }

    // The cycle with one more row, whose moments are those of the stamp.
    fn with_row(self, stamp: Stamp) -> Cycle {
        let Some(sent) = stamp.sent else {
            return self;
        };
        Cycle {
            number: self.number,
            first: Some(self.first.unwrap_or(sent)),
            last: stamp.utc,
        }
    }
}

/// What is counted over all nights. Times are in milliseconds.
#[derive(Drop)]
pub(crate) struct Summary {
    // How runs ended that weren't done.
    pub(crate) runs: RunCounts,
    // How many rows there are.
    pub(crate) rows: u64,
    // Which rows aren't true, on a line that alters bytes.
    pub(crate) falses: FalseRows,
    // How the commands of all rows ended, those of the setup and of each attempt of a chain, too; and those of each target.
    pub(crate) tally: Tally,
    pub(crate) targets: Vec<TargetTally>,
    // How long each cycle took that was counted (`finish`): from its first request until the last command that was sent ended. A
    // cycle in which nothing was sent has no span.
    pub(crate) spans: Vec<u64>,
    // How many of the cycles that were counted (`finish`) have a good answer (`is_well`) in the last row of each command that has its turn
    // in them.
    pub(crate) whole: u64,
    // The cycle of the last row that isn't one of the setup. `None`: none is going on.
    cycle: Option<Cycle>,
    // The commands of a cycle, by their places.
    commands: Vec<Counted>,
    // How many times a run came to the first row of a cycle, over all nights.
    count: u64,
}

// A command of a cycle, as its rows are counted.
#[derive(Clone, Copy)]
struct Counted {
    // In every how many cycles it has its turn.
    every: u64,
    // The number of the cycle of its last row, counted over all nights, if it was answered well there, and else 0.
    good: u64,
}

// The commands of a cycle of these tasks, of which the first `setup` are the setup, before the first row. It fails if memory is refused.
fn commands_of(alloc: Global, tasks: &[Task], setup: usize) -> Result<Vec<Counted>, AllocError> {
    let mut commands = Vec::new(alloc);
    for task in tasks.iter().skip(setup) {
        // A later attempt or sending has the command of the first.
        if task.turn.attempt == 1 {
            commands.push(Counted {
                every: task.every,
                good: 0,
            })?;
        }
    }
    Ok(commands)
}

// The place of a target among these; how many they are, if it isn't one of them.
fn place_of_target(targets: &[TargetTally], target: u32) -> usize {
    targets
        .iter()
        .position(|tally| tally.target == target)
        .unwrap_or(targets.len())
}

impl Summary {
    /// A summary in which nothing was counted yet, of cycles with these tasks, of which the first `setup` are the setup. It fails if memory
    /// is refused, as `note` and `finish` do.
    pub(crate) fn new(alloc: Global, tasks: &[Task], setup: usize) -> Result<Summary, AllocError> {
        Ok(Summary {
            runs: RunCounts::none(),
            rows: 0,
            falses: FalseRows {
                by_damaged: 0,
                behind_two: 0,
                in_doubt: 0,
            },
            tally: Tally::new(),
            targets: Vec::new(alloc),
            spans: Vec::new(alloc),
            whole: 0,
            cycle: None,
            commands: commands_of(alloc, tasks, setup)?,
            count: 0,
        })
    }

    /// Counts rows of a run that aren't true.
    pub(crate) fn count_falses(&mut self, falses: FalseRows) {
        self.falses.by_damaged = self.falses.by_damaged.saturating_add(falses.by_damaged);
        self.falses.behind_two = self.falses.behind_two.saturating_add(falses.behind_two);
        self.falses.in_doubt = self.falses.in_doubt.saturating_add(falses.in_doubt);
    }

    /// Counts a row. At the first row of a cycle the one before it in the run is counted, too (`finish`). A row of the setup,
    /// whose cycle is 0, is of no cycle. It fails if memory is refused: then the row or the cycle may be counted in part.
    pub(crate) fn note(
        &mut self,
        stamp: Stamp,
        command: &Wish,
        ending: Ending<'_>,
    ) -> Result<(), AllocError> {
        self.rows = self.rows.saturating_add(1);
        self.tally.count(ending);
        self.count_target(command.target, ending)?;
        if stamp.cycle == 0 {
            return Ok(());
        }
        let cycle = self.cycle_of(stamp)?;
        self.cycle = Some(cycle.with_row(stamp));
        let count = if is_well(ending) { self.count } else { 0 };
        if let Some(command) = self.commands.get_mut(stamp.turn.place) {
            command.good = count;
        }
        Ok(())
    }

    // The cycle of a row with this stamp, as it was before the row: the one that is going on; or else a new one, before which that
    // one is ended and counted (`finish`). It fails as `finish` does.
    fn cycle_of(&mut self, stamp: Stamp) -> Result<Cycle, AllocError> {
        match self.cycle {
            Some(cycle) if cycle.number == stamp.cycle => Ok(cycle),
            _ => {
                self.finish()?;
                self.count = self.count.saturating_add(1);
                Ok(Cycle::new(stamp.cycle))
            }
        }
    }

    // Counts a row of a target, which gets a tally at its first row. It fails, and doesn't count the row, if memory is refused
    // for that tally.
    fn count_target(&mut self, target: u32, ending: Ending<'_>) -> Result<(), AllocError> {
        let place = place_of_target(self.targets.as_slice(), target);
        if let Some(target) = self.targets.get_mut(place) {
            target.tally.count(ending);
            return Ok(());
        }
        let mut tally = Tally::new();
        tally.count(ending);
        self.targets.push(TargetTally { target, tally })?;
        Ok(())
    }

    /// Ends the cycle that is going on, if there is one, and counts it: how long it took, unless nothing was sent, and whether it
    /// is whole. It is called once the cycle has a row for each command that has its turn in it. It fails, and doesn't count the cycle, if memory is
    /// refused for its span.
    pub(crate) fn finish(&mut self) -> Result<(), AllocError> {
        let Some(cycle) = self.cycle else {
            return Ok(());
        };
        self.cycle = None;
        if let Some(first) = cycle.first {
            self.spans.push(cycle.last.saturating_sub(first))?;
        }
        let count = self.count;
        if self.commands.iter().all(|command| command.good == count
            || !is_turn(cycle.number, command.every))
        {
            self.whole = self.whole.saturating_add(1);
        }
        Ok(())
    }

    /// Ends the cycle that is going on, and doesn't count it, also if it has a row for each command: the run ended before it was
    /// done.
    pub(crate) fn leave(&mut self) {
        self.cycle = None;
    }
}
