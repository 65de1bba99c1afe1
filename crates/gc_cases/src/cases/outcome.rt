//! How a run of an engine ended, and what it wrote.

use crate::cases::sink::Taking;
use gc_lines::{ServeFault, Served};
use gc_probes::{Case, Told};
use gc_texts::RunFault;
use std::alloc::Global;

/// How a run ended.
#[derive(Drop)]
pub struct End {
    /// `done`, or the fault as it is printed, but for the bytes of a failed write; and then, of an engine that counts the lines
    /// that it writes, their number. Without an engine `no such engine`. Empty before the end is stored.
    pub text: Told,
    /// With the fault `Write`: how many bytes of the next line went out, which the text leaves out. `None` for any other end,
    /// also for `Output`.
    pub bytes: Option<usize>,
    /// Whether the run went well; `false` before its end is stored.
    pub is_done: bool,
}

/// What a run returned.
#[derive(Clone, Copy)]
pub enum Returned {
    /// That of an engine that counts the lines that it writes.
    Served(Result<Served, ServeFault>),
    /// That of an engine that doesn't count them, or the fault of its scene.
    Run(Result<(), RunFault>),
    /// The case names no engine.
    NoEngine,
}

/// A way of giving a run its input in other pieces.
#[derive(Clone, Copy)]
pub enum Recut {
    SingleBytes,
    CutInTwo,
}

/// What came of a run.
#[derive(Drop)]
pub struct RunOutcome {
    pub end: End,
    pub output: Taking,
    /// What went out over the link of `ask`; nothing for any other engine.
    pub link: Taking,
}

impl Recut {
    /// What is appended to how a run ended that comes to something else in this way.
    pub fn words(self) -> &'static str {
        match self {
            Recut::SingleBytes => ", and otherwise in single bytes",
            Recut::CutInTwo => ", and otherwise cut in two",
        }
    }
}

impl RunOutcome {
    /// A run that hasn't begun, with one sink for its output and one for what it sends over the link.
    pub fn new(alloc: Global, output: Taking, link: Taking) -> RunOutcome {
        RunOutcome {
            end: End::new(alloc),
            output,
            link,
        }
    }

    /// Whether another run ended in the same way, and wrote and sent the same bytes, in however many writes. `false`, too, if
    /// memory ran out for the text of how this one ended.
    pub fn is_same_as(&self, other: &RunOutcome) -> bool {
        self.end.is_same_as(&other.end)
            && self.output.taken() == other.output.taken()
            && self.link.taken() == other.link.taken()
    }

    /// Whether the run ended well and wrote exactly `output`.
    pub fn wrote(&self, output: &[u8]) -> bool {
        self.end.is_done && self.output.taken() == output
    }

    /// Whether `front` is the first `count` bytes of what was written.
    pub fn begins_with(&self, front: &[u8], count: u64) -> bool {
        front.len() as u64 == count && self.output.taken().starts_with(front)
    }

    /// Compares how the run ended, what it wrote and what it sent with what the case has under `end`, `output` and `sent`, and,
    /// if the case has a value under `writes`, the sizes of its writes with this one. `differs` is the way of cutting the input
    /// in which it came to something else; its words are appended to how it ended.
    pub fn compare(&self, case: &Case<'_>, differs: Option<Recut>, wrong: &mut Told) {
        self.end.compare(case, differs, wrong);
        case.compare("output", self.output.taken(), wrong);
        case.compare("sent", self.link.taken(), wrong);
        if case.has("writes") {
            compare_writes(case, self.output.sizes.as_slice(), wrong);
        }
    }
}

// Compares how many bytes each write of the output had, with a space between, with the case's `writes`.
fn compare_writes(case: &Case<'_>, sizes: &[usize], wrong: &mut Told) {
    let mut text = Told::new(wrong.alloc);
    let mut between = "";
    for size in sizes {
        text.titled(between, size);
        between = " ";
    }
    case.compare_told("writes", &text, wrong);
}

impl End {
    // No end yet.
    fn new(alloc: Global) -> End {
        End {
            text: Told::new(alloc),
            bytes: None,
            is_done: false,
        }
    }

    // Whether both runs ended in the same way; `false` if memory ran out for the text of `self`.
    fn is_same_as(&self, other: &End) -> bool {
        !self.text.is_lacking()
            && self.text.as_bytes() == other.text.as_bytes()
            && self.bytes == other.bytes
    }

    // Compares the text, with ` byte ` and `bytes` after it unless they are `None`, and the words of `differs` at the end, with
    // the case's `end`.
    fn compare(&self, case: &Case<'_>, differs: Option<Recut>, wrong: &mut Told) {
        let mut told = Told::new(wrong.alloc);
        told.append(&self.text);
        if let Some(bytes) = self.bytes {
            told.titled(" byte ", &bytes);
        }
        if let Some(way) = differs {
            told.text(way.words());
        }
        case.compare_told("end", &told, wrong);
    }

    // Stores the end of a run with the fault `Write`: `replies` lines were written whole, and `bytes` bytes of the next.
    fn set_write_failed(&mut self, replies: u64, bytes: usize) {
        self.text.titled("fault 43 reply ", &replies);
        self.bytes = Some(bytes);
    }

    /// Stores how a run ended that returned this. To be called once.
    pub fn set(&mut self, returned: Returned) {
        match returned {
            Returned::Served(end) => self.set_served(end),
            Returned::Run(end) => self.set_run(end),
            Returned::NoEngine => self.text.text("no such engine"),
        }
    }

    // Stores the end of a run of an engine that counts the lines that it writes, with the count.
    fn set_served(&mut self, end: Result<Served, ServeFault>) {
        match end {
            Err(ServeFault::Write { replies, bytes }) => self.set_write_failed(replies, bytes),
            Ok(Served { replies }) => {
                self.is_done = true;
                self.text.titled("done ", &replies)
            }
            Err(ServeFault::Read { replies }) => self.text.titled("fault 42 behind ", &replies),
            Err(ServeFault::TooManyReads { replies }) => {
                self.text.titled("fault 44 behind ", &replies)
            }
        }
    }

    // Stores the end of a run of an engine that doesn't count the lines that it writes, or whose scene doesn't read.
    fn set_run(&mut self, end: Result<(), RunFault>) {
        match end {
            Ok(()) => {
                self.is_done = true;
                self.text.text("done")
            }
            Err(RunFault::Write { replies, bytes }) => self.set_write_failed(replies, bytes),
            Err(fault) => self.text.display(&fault),
        }
    }
}
