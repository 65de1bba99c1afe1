//! What a station keeps of the records that it wrote.

ghost use Rattle.std.specs.Prelude.{◌≡◌, false, map, []};
ghost use Rattle.gc_station.specs.Counters.{no_counts};
ghost use Rattle.gc_station.specs.Tallies.{empty_counts};
ghost use Rattle.gc_station.specs.Watching.{unanswered, places_of};
ghost use Rattle.gc_station.specs.Writing.{noted};
ghost use Rattle.gc_texts.specs.Endings.{ending_seen};

use crate::busy::busy_after;
use crate::counters::Counters;
use crate::firsts::Firsts;
use crate::mark::Mark;
use crate::tally::Counts;
use crate::watching::Watches;
use crate::writing::{is_listed_after, is_unexpected_after, is_well};
use gc_links::Moment;
use gc_texts::Ending;

/// What a station keeps of the records that it wrote so far.
#[derive(Drop)]
pub(crate) struct Recorded {
    // How the commands of cycles that were recorded ended.
    pub(crate) tally: Counts,
    // Whether the command that was recorded last, of a cycle or of the setup, was answered well, as `is_well` says; `false`
    // before the first.
    pub(crate) well: bool,
    // Whether a recorded command of the current attempt ended in a way after which the text sends its chain again; `false`
    // before the first record. A command of the setup leaves it as it is.
    pub(crate) listed: bool,
    // Of each watched command, when it was recorded last as answered well.
    pub(crate) fresh: Watches,
    // The answers of the chain that was sent the first time last.
    pub(crate) firsts: Firsts,
    // Of each counter of the text, the number in the answer that was recorded last.
    pub(crate) counts: Counters,
    // Whether a command was recorded that ended as unexpected, since `Station::doubt` made it `false` before the last line.
    pub(crate) unexpected: bool,
    // The longest wait that the busy answers call for that were recorded since `Station::doubt` made it 0 before the last line; 0 if none was.
    pub(crate) busy: u64,
}

impl Recorded {
    // Nothing was recorded yet, of these watched commands either.
    pub(crate) fn new(mut watches: Watches) -> Recorded
        ensures { result ≡ record { tally = empty_counts; well = false; listed = false; fresh = map unanswered (places_of watches); firsts = []; counts = no_counts; unexpected = false; busy = 0 } }
    {
        watches.begin();
        Recorded {
            tally: Counts::new(),
            well: false,
            listed: false,
            fresh: watches,
            firsts: Firsts::new(),
            counts: Counters::new(),
            unexpected: false,
            busy: 0,
        }
    }

    // Notes that the command with this mark was recorded at the moment `now`, with this ending.
    // `code` is the return code other than 0 of the reply that ended it, if there is one, as `code_of` returns it.
    pub(crate) fn note(&mut self, mark: &Mark, now: Moment, code: Option<u16>, ending: Ending<'_>)
        ensures { self.new ≡ noted mark.now now code (ending_seen ending.entry) self.old }
    {
        self.tally.count(mark.cycle, mark.expected.turn, ending);
        self.well = is_well(ending);
        self.listed = is_listed_after(self.listed, &mark.expected, code, ending);
        self.fresh.note(mark, now, ending);
        self.firsts.note(mark, ending);
        self.counts.note(&mark.expected, ending);
        self.unexpected = is_unexpected_after(self.unexpected, ending);
        self.busy = busy_after(self.busy, &mark.expected, code);
    }
}
