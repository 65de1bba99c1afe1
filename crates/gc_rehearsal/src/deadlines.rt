//! The deadlines of a station's commands, by their places.

use gc_texts::{Stamp, Task};
use std::alloc::{AllocError, Global};

/// The deadlines of the commands of the setup and of a cycle, by their places, in milliseconds.
#[derive(Drop)]
pub(crate) struct Deadlines {
    setup: Vec<u64>,
    cycle: Vec<u64>,
}

impl Deadlines {
    /// The deadlines of these tasks, of which the first `setup` are the setup. It fails if memory is refused.
    pub(crate) fn new(
        alloc: Global,
        tasks: &[Task],
        setup: usize,
    ) -> Result<Deadlines, AllocError> {
        let mut deadlines = Deadlines {
            setup: Vec::new(alloc),
            cycle: Vec::new(alloc),
        };
        for task in tasks.iter().take(setup) {
            deadlines.setup.push(task.deadline)?;
        }
        for task in tasks.iter().skip(setup) {
            deadlines.add(task)?;
        }
        Ok(deadlines)
    }

    // Adds the deadline of a task of a cycle, but nothing for a task of a further attempt of a chain: its command has the same
    // place and deadline in each attempt. It fails if memory is refused.
    fn add(&mut self, task: &Task) -> Result<(), AllocError> {
        if task.turn.attempt == 1 {
            self.cycle.push(task.deadline)?;
        }
        Ok(())
    }

    /// The deadline of the command of the row with this stamp, in milliseconds; 0 if there is no such command.
    pub(crate) fn of(&self, stamp: Stamp) -> u64 {
        let deadline = if stamp.cycle == 0 {
            self.setup.get(stamp.turn.place)
        } else {
            self.cycle.get(stamp.turn.place)
        };
        deadline.copied().unwrap_or(0)
    }
}
