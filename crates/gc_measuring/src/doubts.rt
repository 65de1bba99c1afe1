//! Doubts: a reply came that no request waits for, and that can't repeat the one before, so that a line was altered. Which rows are to be
//! checked then, and what is reported of it.

use gc_links::Moment;
use gc_logs::{MINUTE, RateLimit};
use gc_texts::{Stamp, stamp_text};
use std::io::{self, Write};

// How many rows are kept: a line ends seven requests at most.
const KEPT: usize = 7;

// Where a row is in its run.
#[derive(Clone, Copy)]
struct RowAt {
    // The cycle, counted from 1; 0 for a row of the setup.
    cycle: u64,
    // Which command of the text it is of, as the row has it.
    step: usize,
}

// The rows that are to be checked, from the first on to the last.
#[derive(Clone, Copy)]
struct Range {
    first: RowAt,
    last: RowAt,
}

/// The doubts of a run, with what was reported of them.
#[derive(Clone, Copy)]
pub(crate) struct Doubts {
    // When the run began, in milliseconds since 1970, as its rows have it.
    run: u64,
    // The last rows of commands that were sent, the latest last. `None`: there were fewer.
    rows: [Option<RowAt>; KEPT],
    // How many such replies came that no line has reported yet, when the first of them was noticed, in milliseconds since 1970
    // (`None`: that is still to be noted), and the rows that are to be checked for them, if there are any.
    count: u64,
    since: Option<u64>,
    range: Option<Range>,
    limit: RateLimit,
}

impl Doubts {
    /// The doubts of a run that began at this moment, in milliseconds since 1970: none.
    pub(crate) fn new(run: u64) -> Doubts {
        Doubts {
            run,
            rows: [None; KEPT],
            count: 0,
            since: None,
            range: None,
            limit: RateLimit::new(),
        }
    }

    /// Notes the row of a command, if that was sent.
    pub(crate) fn note_row(&mut self, stamp: Stamp) {
        if stamp.sent.is_none() {
            return;
        }
        for k in 1..KEPT {
            self.rows[k - 1] = self.rows[k];
        }
        self.rows[KEPT - 1] = Some(RowAt {
            cycle: stamp.cycle,
            step: stamp.turn.place,
        });
    }

    /// Notes that such a reply came. The line that settled last had ended `ended` requests: so many of the last rows are to be checked,
    /// and those since the first row of a doubt that no line has reported yet.
    pub(crate) fn doubt(&mut self, ended: usize) {
        self.count = self.count.saturating_add(1);
        let kept = KEPT.saturating_sub(ended);
        let Some(last) = self.rows[KEPT - 1] else {
            return;
        };
        let first = match self.range {
            Some(range) => range.first,
            None => self.first_from(kept, last),
        };
        self.range = Some(Range { first, last });
    }

    // The first row that there is from this place in `rows` on; `last` if there is none.
    fn first_from(&self, from: usize, last: RowAt) -> RowAt {
        for k in from..KEPT {
            if let Some(row) = self.rows[k] {
                return row;
            }
        }
        last
    }

    /// Takes what no line has reported yet, if there is any, and unless a line of this kind was taken in the last minute: it then counts
    /// as reported. `moment` is that of a look at the station.
    pub(crate) fn take_news(&mut self, moment: Moment) -> Option<DoubtNews> {
        if self.count == 0 {
            return None;
        }
        if self.since.is_none() {
            self.since = Some(moment.utc);
        }
        if !self.limit.claim(moment.elapsed, MINUTE) {
            return None;
        }
        self.take_rest()
    }

    /// Takes what no line has reported yet, if there is any, at the end of a run. What came since the last look counts as noticed when
    /// the run began.
    pub(crate) fn take_rest(&mut self) -> Option<DoubtNews> {
        if self.count == 0 {
            return None;
        }
        let news = DoubtNews {
            run: self.run,
            count: self.count,
            since: self.since.unwrap_or(self.run),
            range: self.range,
        };
        self.count = 0;
        self.since = None;
        self.range = None;
        Some(news)
    }
}

/// What a line reports of doubts.
#[derive(Clone, Copy)]
pub(crate) struct DoubtNews {
    run: u64,
    count: u64,
    since: u64,
    range: Option<Range>,
}

impl DoubtNews {
    /// Writes it as a line: since when how many such replies came, and which rows are to be checked. `Err`: the messages couldn't be
    /// written.
    pub(crate) fn tell<E: Write>(self, messages: &mut E) -> io::Result<()> {
        let since = stamp_text(self.since);
        let since = str::from_utf8(&since).unwrap_or("");
        let count = self.count;
        write!(
            messages,
            "geocom: replies that fit no request since {since}: {count}: a line was altered"
        )?;
        let Some(range) = self.range else {
            return writeln!(messages);
        };
        let run = stamp_text(self.run);
        let run = str::from_utf8(&run).unwrap_or("");
        write!(messages, ": check run {run}")?;
        range.tell(messages)
    }
}

impl Range {
    // Writes the end of the line: the first of these rows, and the last, if it is another one.
    fn tell<E: Write>(self, messages: &mut E) -> io::Result<()> {
        let RowAt { cycle, step } = self.first;
        write!(messages, ", cycle {cycle}, step {step}")?;
        let last = self.last;
        if last.cycle != cycle || last.step != step {
            let RowAt { cycle, step } = last;
            write!(messages, " to cycle {cycle}, step {step}")?;
        }
        writeln!(messages)
    }
}
