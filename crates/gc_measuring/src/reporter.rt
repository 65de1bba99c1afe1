//! The messages that a station writes while it runs. An error of writing them is ignored, because neither its requests nor its
//! records depend on them.

ghost use Rattle.std.specs.Prelude.{◌≡◌};
ghost use Rattle.gc_lines.specs.Ports.{WritesIfOk};
ghost use Rattle.gc_measuring.specs.Measuring.{overrun_line};
ghost use Rattle.gc_station.specs.Tallies.{counted};
ghost use Rattle.gc_texts.specs.Endings.{ending_seen};

use crate::doubts::{DoubtNews, Doubts};
use crate::signs::Signs;
use crate::starts::{Starts, tell_starts};
use crate::unanswered::Unanswered;
use gc_links::{Moment, Place};
use gc_logs::{FilesSeen, FilesTold, Noticed};
use gc_options::Watch;
use gc_station::LinkHealth;
use gc_texts::{Ending, Name, Stamp, Wish};
use std::io::{self, Write};

/// The messages of a station, with what was seen of the station and reported so far.
pub(crate) struct Reporter<E> {
    signs: Signs,
    // What was reported of the instrument's sign-ons.
    starts: Starts,
    // What was reported of the station's files.
    files: FilesTold,
    doubts: Doubts,
    messages: E,
}

impl<E: Write> Reporter<E> {
    /// A reporter that has reported nothing yet. `watch`: who watches the station. `run`: when its run began, in milliseconds since
    /// 1970, as its rows have it.
    pub(crate) fn new(watch: Watch, run: u64, messages: E) -> Reporter<E> {
        Reporter {
            signs: Signs::new(watch),
            starts: Starts::new(),
            files: FilesTold::new(),
            doubts: Doubts::new(run),
            messages,
        }
    }

    /// Writes at the start how many commands a cycle has (`count`), and to which place they go; nothing if nobody watches.
    pub(crate) fn begin(&mut self, place: Place<'_>, count: usize) {
        if self.signs.is_watched() {
            let _ = report_start(place, count, &mut self.messages);
        }
    }

    /// Counts the record of a command for the signs of life, also one that can't be written, and keeps its row for a doubt.
    pub(crate) fn count(&mut self, stamp: Stamp, command: &Wish, ending: Ending<'_>)
        ensures { self.new.signs.counts ≡ counted (ending_seen ending.entry) self.old.signs.counts }
    {
        self.doubts.note_row(stamp);
        self.signs.count(stamp, command, ending);
    }

    /// Notes that a stray came that can't repeat the reply that settled last, whose line had ended `ended` requests.
    pub(crate) fn doubt(&mut self, ended: usize) {
        self.doubts.doubt(ended);
    }

    /// Writes before an act what is new of the link and the line, unless nobody watches, and in any case what is new of the
    /// files and of doubts. Targets have their names among `names`.
    pub(crate) fn report(
        &mut self,
        noticed: Noticed,
        health: LinkHealth,
        moment: Moment,
        names: &[Name],
    ) {
        let _ = self
            .signs
            .see(health, noticed, moment, names, &mut self.messages);
        let _ = self.signs.report_odd(noticed.odd, &mut self.messages);
        self.report_starts(noticed.starts, moment);
        self.report_files(noticed.files, moment);
        let news = self.doubts.take_news(moment);
        self.report_doubts(news);
    }

    // Writes that the instrument signed on (`count` times so far), if it did since that was written last and `Starts::claim` grants it, unless
    // nobody watches.
    fn report_starts(&mut self, count: u64, moment: Moment) {
        if self.signs.is_watched() && self.starts.claim(count, moment.elapsed) {
            let _ = self.signs.clear(&mut self.messages);
            let _ = tell_starts(count, &mut self.messages);
        }
    }

    // Writes what is new of doubts, if there is any, also if no signs of life are written.
    fn report_doubts(&mut self, news: Option<DoubtNews>) {
        if let Some(news) = news {
            let _ = self.signs.clear(&mut self.messages);
            let _ = news.tell(&mut self.messages);
        }
    }

    // Writes what is new of the files, also if no signs of life are written.
    fn report_files(&mut self, files: FilesSeen, moment: Moment) {
        if let Some(news) = self.files.take_news(files, moment) {
            let _ = self.signs.clear(&mut self.messages);
            let _ = news.report(&mut self.messages);
        }
    }

    /// Writes that this cycle was not done when the next was due, unless nobody watches or a line of this kind was written in the
    /// last minute.
    pub(crate) fn report_overrun(&mut self, cycle: u64) {
        if self.signs.claim_overrun() {
            let _ = self.signs.clear(&mut self.messages);
            let _ = tell_overrun(cycle, &mut self.messages);
        }
    }

    /// Writes at the end what no line reported yet, of doubts too, as `Signs::end` does, clears the status line of a terminal, and hands the
    /// messages back. What became of the files since the last `report` isn't written. `stale`: the run ended because it is stale
    /// by this command, which is written, too, also if nobody watches.
    pub(crate) fn end(mut self, names: &[Name], stale: Option<Unanswered>) -> E {
        let rest = self.doubts.take_rest();
        self.report_doubts(rest);
        let Reporter {
            mut signs,
            starts: _,
            files: _,
            doubts: _,
            mut messages,
        } = self;
        let _ = signs.end(names, &mut messages);
        if let Some(unanswered) = stale {
            let _ = signs.clear(&mut messages);
            let _ = unanswered.tell(names, &mut messages);
        }
        messages
    }
}

// Writes the line of a station's start: how many commands a cycle has (`count`), to which place they go, and what the station
// waits for first.
fn report_start<E: Write>(place: Place<'_>, count: usize, messages: &mut E) -> io::Result<()> {
    let commands = if count == 1 { "command" } else { "commands" };
    writeln!(
        messages,
        "geocom: {count} {commands} for {place}: waits until eight null procedures are answered, one after the other"
    )
}

// Writes the line of a cycle that was not done when the next was due.
fn tell_overrun<E: Write>(cycle: u64, messages: &mut E) -> io::Result<()>
    ensures { WritesIfOk E.contents messages.old messages.new result (overrun_line cycle) }
{
    writeln!(
        messages,
        "geocom: cycle {cycle} was not done when the next was due"
    )
}
