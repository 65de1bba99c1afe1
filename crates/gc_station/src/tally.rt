//! A tally: how many commands ended how, and how many chains were sent again.

ghost use Rattle.std.specs.Prelude.{◌≡◌};
ghost use Rattle.gc_station.specs.Tallies.{empty_tally, counted, counted_answered, sum, empty_counts, started, turned_to, counted_in, total};
ghost use Rattle.gc_texts.specs.Endings.{ending_seen};

use gc_texts::{Ending, JudgementCounts, Quality, Turn};

/// How many commands ended how, of the last attempt of each chain. A count stops at 2^64 - 1.
#[derive(Clone, Copy)]
pub struct Tally {
    /// A reply came in time, and it is neither `unreadable` nor one of `judged`. In a chain that is sent twice the commands of
    /// both sendings are counted.
    pub answered: u64,
    /// How many of `answered` were refused: the reply's communication code isn't 0, or its return code is neither 0 nor an accepted
    /// one.
    pub refused: u64,
    /// A reply came after the request timed out.
    pub late: u64,
    /// No reply came, or none will be taken.
    pub lost: u64,
    /// The command wasn't sent: the one before it in its chain wasn't answered well, or since that was sent a connection was
    /// closed or the station resynchronized.
    pub skipped: u64,
    /// A reply came in time, with both codes 0, whose values don't read.
    pub unreadable: u64,
    /// The command wasn't sent: its cycle couldn't begin before the next was due.
    pub missed: u64,
    /// A reply came in time, with both codes 0 or an accepted return code, and a rule of the text set it aside.
    pub judged: JudgementCounts,
    /// How many times a chain was sent again.
    pub retried: u64,
}

impl Tally {
    /// No command ended yet.
    pub fn new() -> Tally
        ensures { result ≡ empty_tally }
    {
        Tally {
            answered: 0,
            refused: 0,
            late: 0,
            lost: 0,
            skipped: 0,
            unreadable: 0,
            missed: 0,
            judged: JudgementCounts::none(),
            retried: 0,
        }
    }

    /// Counts a command by its ending: the count of this ending grows by one, unless it is the greatest `u64`. `retried` stays.
    pub fn count(&mut self, ending: Ending<'_>)
        ensures { self.new ≡ counted (ending_seen ending.entry) self.old }
    {
        match ending {
            Ending::Answered(quality, ..) => self.count_answered(quality),
            Ending::Unreadable(_, _) => self.unreadable = self.unreadable.saturating_add(1),
            Ending::Judged(judgement, _) => self.judged = self.judged.one_more(judgement),
            Ending::Late => self.late = self.late.saturating_add(1),
            Ending::Lost => self.lost = self.lost.saturating_add(1),
            Ending::Skipped | Ending::NoValue => self.skipped = self.skipped.saturating_add(1),
            Ending::Missed => self.missed = self.missed.saturating_add(1),
        }
    }

    // Counts an answered command whose answer has this quality.
    fn count_answered(&mut self, quality: Quality)
        ensures { self.new ≡ counted_answered quality self.old }
    {
        self.answered = self.answered.saturating_add(1);
        self.refused = if quality.is_good() {
            self.refused
        } else {
            self.refused.saturating_add(1)
        };
    }

    // The sum of both tallies, count by count, each up to 2^64 - 1.
    fn sum(&self, other: &Tally) -> Tally
        ensures { result ≡ sum self.now other.now }
    {
        Tally {
            answered: self.answered.saturating_add(other.answered),
            refused: self.refused.saturating_add(other.refused),
            late: self.late.saturating_add(other.late),
            lost: self.lost.saturating_add(other.lost),
            skipped: self.skipped.saturating_add(other.skipped),
            unreadable: self.unreadable.saturating_add(other.unreadable),
            missed: self.missed.saturating_add(other.missed),
            judged: self.judged.sum(other.judged),
            retried: self.retried.saturating_add(other.retried),
        }
    }
}

/// The tallies of a run: of the chains that are over, and of the current attempt, which a further one may replace.
#[derive(Clone, Copy)]
pub(crate) struct Counts {
    /// Of the last attempts of the chains that are over; but `retried` also has how many times the current chain was sent again.
    pub settled: Tally,
    /// Of the current attempt.
    pub attempt: Tally,
}

impl Counts {
    // No command ended yet.
    pub(crate) fn new() -> Counts
        ensures { result ≡ empty_counts }
    {
        Counts {
            settled: Tally::new(),
            attempt: Tally::new(),
        }
    }

    // Begins an attempt of a chain. A further one discards the counts of the attempt before, and the chain counts as sent
    // again; a first one adds them to those of the chains that are over.
    fn start(&mut self, turn: Turn)
        ensures { self.new ≡ started turn self.old }
    {
        if turn.attempt > 1 {
            self.settled.retried = self.settled.retried.saturating_add(1);
        } else {
            self.settled = self.settled.sum(&self.attempt);
        }
        self.attempt = Tally::new();
    }

    // Begins an attempt if this is the turn of an attempt's first command.
    fn turn_to(&mut self, turn: Turn)
        ensures { self.new ≡ turned_to turn self.old }
    {
        if turn.link == 0 {
            self.start(turn);
        }
    }

    // Counts a command of this cycle and turn by its ending. One of the setup, whose cycle is 0, isn't counted.
    pub(crate) fn count(&mut self, cycle: u64, turn: Turn, ending: Ending<'_>)
        ensures { self.new ≡ counted_in cycle turn (ending_seen ending.entry) self.old }
    {
        if cycle == 0 {
            return;
        }
        self.turn_to(turn);
        self.attempt.count(ending);
    }

    // The tally of all commands counted so far, of the last attempt of each chain.
    pub(crate) fn total(&self) -> Tally
        ensures { result ≡ total self.now }
    {
        self.settled.sum(&self.attempt)
    }
}
