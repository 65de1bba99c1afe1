//! What is reported of commands of cycles that weren't answered well, and of cycles that were missed, while a station measures.

use crate::checking::write_target;
use crate::describing::text_of;
use gc_catalogue::Asked;
use gc_lines::{Line, read_reply};
use gc_texts::{Ending, Judgement, Name, Quality, Stamp, Wish, name_text};
use gc_values::split;
use std::io::{self, Write};

/// A second, in milliseconds: the status line of a terminal is rewritten once a second at most, and gives ages in seconds; and missed
/// cycles are over once none was missed for a second.
pub(crate) const SECOND: u64 = 1_000;

/// How a command that has a reply wasn't answered well, or why one of which a value isn't there wasn't sent.
#[derive(Clone, Copy)]
enum Why {
    /// The communication code of its reply isn't 0.
    Communication(u16),
    /// The return code of its reply is this one, which is neither 0 nor accepted.
    Code(u16),
    /// Its values don't read.
    Unreadable,
    /// A rule of the text set it aside.
    Judged(Judgement),
    /// A value that it takes of a file wasn't there, so it wasn't sent.
    NoValue,
}

impl Why {
    // Why a command with this ending wasn't answered well. `None`: it was, or no reply came in time, or it wasn't sent for another reason than
    // a value.
    fn of(ending: Ending<'_>) -> Option<Why> {
        match ending {
            Ending::Answered(Quality::Refused, _, line) => Some(Why::of_refusal(line)),
            Ending::Unreadable(..) => Some(Why::Unreadable),
            Ending::Judged(judgement, _) => Some(Why::Judged(judgement)),
            Ending::NoValue => Some(Why::NoValue),
            Ending::Answered(..) => None,
            Ending::Late | Ending::Lost | Ending::Skipped | Ending::Missed => None,
        }
    }

    // By which of its codes this reply line is a refusal.
    fn of_refusal(line: &Line) -> Why {
        match read_reply(line.as_slice()) {
            Ok(reply) if reply.rc_com == 0 => Why::Code(reply.rc),
            Ok(reply) => Why::Communication(reply.rc_com),
            // Never in practice: the line of an answer reads as a reply.
            Err(_) => Why::Unreadable,
        }
    }

    // Writes it as the end of a line on a command that asks this.
    fn tell<E: Write>(self, asked: &Asked, messages: &mut E) -> io::Result<()> {
        match self {
            Why::Communication(code) => writeln!(messages, "refused, rc_com {code}"),
            Why::Code(code) => writeln!(messages, "refused {code}"),
            Why::Unreadable => writeln!(messages, "unreadable"),
            Why::Judged(judgement) => writeln!(messages, "{}", text_of(judgement.word())),
            Why::NoValue => {
                write!(messages, "no value of ")?;
                write_files(asked, messages)?;
                writeln!(messages)
            }
        }
    }
}

// Writes the items of a command's parameters that stand for values of files, as they are in its text, with a comma between two.
fn write_files<E: Write>(asked: &Asked, messages: &mut E) -> io::Result<()> {
    let Asked::Raw(raw) = asked else {
        return Ok(());
    };
    let Ok(items) = split(raw.params()) else {
        return Ok(());
    };
    let mut comma = "";
    for k in 0..items.len() {
        let item = text_of(items.get(k));
        if item.starts_with('{') {
            write!(messages, "{comma}{item}")?;
            comma = ",";
        }
    }
    Ok(())
}

/// Commands of cycles that have a reply and weren't answered well, or weren't sent for want of a value, and that no line has reported yet.
#[derive(Clone, Copy)]
pub(crate) struct Unwell {
    // How many there are.
    count: u64,
    /// When the first of them ended, in milliseconds since 1970.
    pub(crate) since: u64,
    // The last one, and why it wasn't answered well.
    last: Wish,
    why: Why,
}

impl Unwell {
    /// Takes in a command with this ending: it is added to `unwell` if it is of a cycle, and has a reply and wasn't
    /// answered well, or wasn't sent for want of a value.
    pub(crate) fn note(
        unwell: &mut Option<Unwell>,
        stamp: Stamp,
        command: &Wish,
        ending: Ending<'_>,
    ) {
        let Some(why) = Why::of(ending) else {
            return;
        };
        if stamp.cycle == 0 {
            return;
        }
        let (count, since) = match *unwell {
            Some(before) => (before.count.saturating_add(1), before.since),
            None => (1, stamp.utc),
        };
        *unwell = Some(Unwell {
            count,
            since,
            last: *command,
            why,
        });
    }

    /// Writes the end of the line on them: how many there are, and the last one, whose target has its name among `names`; and of which
    /// files it takes values, if one of them wasn't there.
    pub(crate) fn tell<E: Write>(self, names: &[Name], messages: &mut E) -> io::Result<()> {
        let count = self.count;
        let Wish { target, call } = self.last;
        let procedure = call.number();
        write!(messages, ": {count}; the last: ")?;
        write_target(target, name_text(target, names), messages)?;
        write!(messages, ", {procedure}: ")?;
        self.why.tell(&call, messages)
    }
}

/// Commands that were missed with their cycles, and that no line has reported yet.
#[derive(Clone, Copy)]
pub(crate) struct Missed {
    // How many there are, and of how many cycles; the first and the last of these. All are 0 if there is none.
    rows: u64,
    cycles: u64,
    first: u64,
    last: u64,
    // When the last of them came, in milliseconds of the clock for deadlines, and whether a command ended otherwise since the first.
    moment: u64,
    is_over: bool,
}

impl Missed {
    /// There is none.
    pub(crate) fn none() -> Missed {
        Missed {
            rows: 0,
            cycles: 0,
            first: 0,
            last: 0,
            moment: 0,
            is_over: false,
        }
    }

    /// Whether there is none.
    pub(crate) fn is_none(&self) -> bool {
        self.rows == 0
    }

    /// Whether the station goes on at `elapsed`, by the clock for deadlines, so that all commands of an outage are there: a command
    /// ended otherwise, or none was missed for a second.
    pub(crate) fn is_over(&self, elapsed: u64) -> bool {
        self.is_over || elapsed.saturating_sub(self.moment) >= SECOND
    }

    /// Takes in a command of this cycle with this ending at `elapsed`, by the clock for deadlines: it counts if it was missed.
    pub(crate) fn note(&mut self, cycle: u64, ending: Ending<'_>, elapsed: u64) {
        if !matches!(ending, Ending::Missed) {
            self.is_over = self.rows != 0;
            return;
        }
        self.moment = elapsed;
        if self.rows == 0 {
            self.first = cycle;
        }
        if self.last != cycle {
            self.cycles = self.cycles.saturating_add(1);
        }
        self.last = cycle;
        self.rows = self.rows.saturating_add(1);
    }

    /// Writes the line on them.
    pub(crate) fn tell<E: Write>(self, messages: &mut E) -> io::Result<()> {
        let Missed {
            rows,
            cycles,
            first,
            last,
            moment: _,
            is_over: _,
        } = self;
        if cycles == 1 {
            write!(messages, "geocom: cycle {first} missed: ")?;
        } else {
            write!(
                messages,
                "geocom: {cycles} cycles missed, from {first} to {last}: "
            )?;
        }
        let word = if rows == 1 { "row" } else { "rows" };
        writeln!(messages, "{rows} {word} written")
    }
}
