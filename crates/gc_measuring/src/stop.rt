//! The stop: why a station that measures the commands of a text stopped before its end, and how that is reported.

ghost use Rattle.std.specs.Prelude.{◌≡◌};
ghost use Rattle.gc_lines.specs.Ports.{WritesIfOk};
ghost use Rattle.gc_measuring.specs.Stops.{fault_of_stop, stop_detail, stop_text};

use gc_texts::{RunFault, Trouble};
use std::io::{self, Write};

/// Why a station stopped before its end.
#[derive(Clone, Copy)]
pub enum Stop {
    /// The text couldn't be read or was refused, or memory was refused, for this fault, before anything was done.
    Text(RunFault),
    /// The text has no command of a cycle. Nothing was done.
    Empty,
    /// The line of the text with this number, counted from 1, is the first faulty one, with this trouble. Nothing was done.
    Line(u32, Trouble),
    /// The run over the text's commands ended for this fault or couldn't begin, or what comes before the records couldn't be
    /// written; or, of a text that is only checked, the outline couldn't be made or written.
    Run(RunFault),
}

impl Stop {
    /// The fault that is reported for this stop.
    pub fn fault(self) -> RunFault
        ensures { result ≡ fault_of_stop self }
    {
        match self {
            Stop::Text(fault) => fault,
            Stop::Empty => RunFault::NoCommand,
            Stop::Line(line, _) => RunFault::Schedule { line },
            Stop::Run(fault) => fault,
        }
    }

    /// Writes the message of the fault. In two cases a second message follows: for `Empty`, that the text has no command of a cycle; for
    /// `Line`, which field of the text's faulty line is at fault.
    pub fn report<E: Write>(self, messages: &mut E) -> io::Result<()>
        ensures { WritesIfOk E.contents messages.old messages.new result (stop_text self) }
    {
        self.fault().tell(messages)?;
        self.report_detail(messages)
    }

    // Writes the second message, if there is one.
    fn report_detail<E: Write>(self, messages: &mut E) -> io::Result<()>
        ensures { WritesIfOk E.contents messages.old messages.new result (stop_detail self) }
    {
        match self {
            Stop::Empty => writeln!(messages, "geocom: the text has no command of a cycle"),
            Stop::Line(line, trouble) => trouble.tell(line, messages),
            Stop::Text(_) | Stop::Run(_) => Ok(()),
        }
    }
}
