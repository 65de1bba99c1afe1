//! What became of an example that was played once, perhaps with too little memory.

use gc_probes::PieceSink;
use gc_texts::RunFault;
use std::fmt;

/// What an example gave.
#[derive(Clone, Copy, PartialEq, Eq)]
pub enum OnceOutcome {
    /// Exactly its answer.
    Exact,
    /// Memory ran out, and nothing was sent or written.
    NoMemory,
    /// A port of the tests ran out of memory for what it was given.
    PortLacksMemory,
    /// Anything else.
    Other,
}

impl fmt::Display for OnceOutcome {
    // Writes the outcome in words.
    fn fmt<W: fmt::Write>(&self, f: &mut fmt::Formatter<W>) -> fmt::Result {
        f.write_str(match self {
            OnceOutcome::Exact => "its answer",
            OnceOutcome::NoMemory => "no memory",
            OnceOutcome::PortLacksMemory => "a port could not store",
            OnceOutcome::Other => "another answer",
        })
    }
}

impl OnceOutcome {
    /// The outcome of a run that should have written `expected`, by how it ended and what the sink took: `Exact` if it ended well
    /// with `expected`; `NoMemory` if memory ran out for the run and the sink took nothing; `PortLacksMemory` if memory ran out
    /// for the sink, which took a first part of `expected`, or nothing; and else `Other`.
    pub fn of(end: Result<(), RunFault>, sink: &PieceSink, expected: &[u8]) -> OnceOutcome {
        match end {
            Ok(()) if sink.taken() == expected => OnceOutcome::Exact,
            Err(RunFault::Memory) if sink.taken().is_empty() => OnceOutcome::NoMemory,
            Err(RunFault::Output) if sink.lacks_memory() && expected.starts_with(sink.taken()) => {
                OnceOutcome::PortLacksMemory
            }
            _ => OnceOutcome::Other,
        }
    }

    /// The outcome of an example whose scene or schedule was refused with this fault: `NoMemory` if memory ran out for it, and
    /// else `Other`.
    pub fn of_unread(fault: RunFault) -> OnceOutcome {
        match fault {
            RunFault::Memory => OnceOutcome::NoMemory,
            _ => OnceOutcome::Other,
        }
    }

    /// The outcome of a call that gave an answer: `Exact` if it is right, and otherwise `Other`.
    pub fn of_answer(is_right: bool) -> OnceOutcome {
        if is_right {
            OnceOutcome::Exact
        } else {
            OnceOutcome::Other
        }
    }
}
