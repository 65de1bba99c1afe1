//! What is reported of a run that ended because it is stale: by which command, and since when that had no good answer.

use crate::checking::write_target;
use gc_station::Watch;
use gc_texts::{Name, Task, name_text, stamp_text};
use std::io::{self, Write};

/// A command of a cycle that had no answer of a good quality for as long as the run allows.
#[derive(Clone, Copy)]
pub(crate) struct Unanswered {
    target: u32,
    procedure: u16,
    // When it was recorded last with such an answer, or when the run began if it never was, in milliseconds since 1970.
    since: u64,
}

impl Unanswered {
    /// What `watch` stands for among these tasks, of which the first `setup` are the setup, in a run that began at this moment, in
    /// milliseconds since 1970. `None`, which never happens: none of the tasks has its place.
    pub(crate) fn of(watch: Watch, began: u64, setup: usize, tasks: &[Task]) -> Option<Unanswered> {
        let mut cycle = tasks.iter().skip(setup);
        let task = cycle.find(|task| task.turn.place == watch.place)?;
        Some(Unanswered {
            target: task.command.target,
            procedure: task.command.call.number(),
            since: watch.utc.unwrap_or(began),
        })
    }

    /// Writes it as a line, with the name that its target has among `names`. `Err`: the messages couldn't be written.
    pub(crate) fn tell<E: Write>(self, names: &[Name], messages: &mut E) -> io::Result<()> {
        let procedure = self.procedure;
        let since = stamp_text(self.since);
        let since = str::from_utf8(&since).unwrap_or("");
        write!(messages, "geocom: ")?;
        write_target(self.target, name_text(self.target, names), messages)?;
        writeln!(
            messages,
            ", {procedure}: no answer with quality ok or warning since {since}"
        )
    }
}
