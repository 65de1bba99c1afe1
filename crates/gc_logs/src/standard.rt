//! The three standard streams: which of them are open, and what takes the places of those that aren't. A socket that is opened
//! while a stream is closed may take that stream's place, and gets then what is written to the stream.

ghost use Rattle.std.specs.Prelude.{◌≡◌, true, IfOk, IsOk};
ghost use Rattle.std.specs.Process.{exit_status};
ghost use Rattle.gc_logs.specs.Streams.{are_open, ReportsClosed};
ghost use Rattle.gc_logs.specs.Statuses.{IsStatusUpTo};

use gc_texts::RunFault;
use std::fs::{Files, OpenOptions};
use std::io::{self, IsTerminal, Write};
use std::os::fd::AsFd;
use std::process::ExitCode;

/// Which of the standard streams are open, whether a terminal shows the messages alone, and whether one shows the output.
#[derive(Clone, Copy)]
pub struct Standard {
    pub input: bool,
    pub output: bool,
    pub messages: bool,
    /// Whether the messages go to a terminal, and the output to none.
    pub terminal: bool,
    /// Whether the output goes to a terminal.
    pub output_terminal: bool,
}

impl Standard {
    /// Looks which of these are open, and which of output and messages go to a terminal. It changes no stream, and
    /// opens nothing that stays open. If the system refuses a second handle of an open stream, as when the process may open
    /// nothing more, that stream counts as closed, too.
    pub fn look<I: AsFd, O: AsFd, E: AsFd>(input: &I, output: &O, messages: &E) -> Standard {
        let output_terminal = output.as_fd().is_terminal();
        Standard {
            input: is_open(input),
            output: is_open(output),
            messages: is_open(messages),
            terminal: messages.as_fd().is_terminal() && !output_terminal,
            output_terminal,
        }
    }

    /// Whether all three streams are open.
    pub fn are_open(self) -> bool
        ensures { result ≡ are_open self }
    {
        self.input && self.output && self.messages
    }

    /// Opens `/dev/null` for each stream that is closed. It takes that stream's place, because the system gives a file the lowest
    /// place that is free, and holds it until the result is dropped. `Err`: `/dev/null` couldn't be opened for one of the closed
    /// streams, and no place stays taken.
    pub fn fill<R: Files>(self, rt: &R) -> io::Result<Places<R::File>>
        // If all three streams are open, there is nothing to fill.
        ensures filled { are_open self ≡ true → IsOk result }
    {
        Ok(Places {
            input: null_for(rt, self.input)?,
            output: null_for(rt, self.output)?,
            messages: null_for(rt, self.messages)?,
        })
    }

    /// Reports, with status 1, that a standard stream is closed: the line of `StreamClosed` if the messages are open, else no line.
    /// `Err`: that line couldn't be written.
    pub fn report_closed<E: Write>(self, messages: &mut E) -> io::Result<ExitCode>
        ensures told { IfOk result (λ status. ReportsClosed self (exit_status status) (E.contents messages.old) (E.contents messages.new)) }
        ensures bound { IsStatusUpTo 1 result }
    {
        if self.messages {
            RunFault::StreamClosed.tell(messages)?;
        }
        Ok(ExitCode::from(1))
    }
}

/// What holds the places of the streams that are closed.
#[derive(Drop)]
pub struct Places<F> {
    input: Option<F>,
    output: Option<F>,
    messages: Option<F>,
}

// Whether a stream is open: then a second handle of the stream can be had, which is given back at once. That handle's number is
// above those of the three streams, so it takes no stream's place. If the system refuses the handle though the stream is open, as
// when the process may open nothing more, the stream counts as closed, too.
fn is_open<F: AsFd>(stream: &F) -> bool {
    stream.as_fd().try_clone_to_owned().is_ok()
}

// `/dev/null`, which takes all and gives nothing, for a stream that is closed, and `None` for one that is open. `Err`: it couldn't be
// opened.
fn null_for<R: Files>(rt: &R, is_open: bool) -> io::Result<Option<R::File>>
    ensures { is_open ≡ true → IsOk result }
{
    if is_open {
        return Ok(None);
    }
    let null = OpenOptions::new()
        .read(true)
        .write(true)
        .open(rt, "/dev/null")?;
    Ok(Some(null))
}
