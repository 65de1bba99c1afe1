//! Marks: which command of which cycle an outstanding request is of.

ghost use Rattle.std.specs.Prelude.{◌≡◌};
ghost use Rattle.gc_station.specs.Marks.{commands_in};

use gc_texts::Expected;

/// Which command of which cycle was sent, when, and what is expected of its answer.
#[derive(Clone, Copy)]
pub(crate) struct Mark {
    /// The cycle, counted from 1; 0 for a command of the setup.
    pub cycle: u64,
    /// The command's place in the station's list, counted from 0: the setup is at the front.
    pub place: usize,
    /// The last moment read on the link before the command was sent, in milliseconds since 1970-01-01, UTC.
    pub sent: u64,
    /// The id of its request, 0 to 7; 0 as long as it isn't sent.
    pub id: u8,
    /// What the text says of the answer: where the target is, which return codes are accepted, which say that the instrument is busy,
    /// which values are expected, and which endings send the chain again; and which command of the text was sent, in which attempt.
    pub expected: Expected,
}

// How many of these marks are of commands; a null procedure has no mark.
pub(crate) fn commands_in(marks: &[Option<Mark>]) -> usize
    ensures { result ≡ commands_in marks.now }
{
    let mut commands = 0;
    for mark in marks {
        if mark.is_some() {
            commands += 1;
        }
    }
    commands
}
