//! The book of a rehearsed station: it writes the rows, keeps what they claim, and ends a run where the station is killed or the night
//! is over.

ghost use Rattle.std.specs.Prelude.{◌≡◌, ◌+◌, ◌<◌, ◌^◌, true};
ghost use Rattle.gc_measuring.specs.Labels.{labels_seen};
ghost use Rattle.gc_measuring.specs.Measuring.{text_in};
ghost use Rattle.gc_rehearsal.specs.Claims.{is_in_doubt, requests_after, speaks_of_reply};
ghost use Rattle.gc_texts.specs.Endings.{ending_seen};

use crate::claim::Claim;
use crate::deadlines::Deadlines;
use crate::summary::Summary;
use gc_lines::{PortFailed, Sink, line_from};
use gc_links::Moment;
use gc_measuring::{Labels, write_station_row};
use gc_options::Layout;
use gc_station::{Book, LinkHealth, Watch};
use gc_texts::{Ending, Quality, Stamp, Wish};
use std::alloc::Global;

// The number of the null procedure.
const NULL_PROCEDURE: u16 = 0;

/// What was seen of the rows: what those of the present run claim, and the counts of all runs.
#[derive(Drop)]
pub(crate) struct Seen {
    // When the line was made, in milliseconds since 1970.
    start: u64,
    deadlines: Deadlines,
    // How many requests were sent before that of the next row of a command that was sent, null procedures apart.
    requests: u64,
    pub(crate) claims: Vec<Claim>,
    pub(crate) summary: Summary,
    // Whether memory was refused, so that the claims or the counts aren't complete.
    pub(crate) lacks_memory: bool,
}

impl Seen {
    /// What was seen before the first row, with a summary that is empty. The line was made `start` milliseconds after 1970.
    pub(crate) fn new(alloc: Global, start: u64, deadlines: Deadlines, summary: Summary) -> Seen {
        Seen {
            start,
            deadlines,
            requests: 0,
            claims: Vec::new(alloc),
            summary,
            lacks_memory: false,
        }
    }

    // Counts a row and, if the row says that its request was sent and that a reply came, notes what the row claims. If memory is
    // refused, a count or the claim is missing, or both, and `lacks_memory` is set.
    fn see(&mut self, stamp: Stamp, command: &Wish, ending: Ending<'_>) {
        if self.summary.note(stamp, command, ending).is_err() {
            self.lacks_memory = true;
        }
        let Some(sent) = stamp.sent else {
            return;
        };
        let request = self.requests;
        self.requests = requests_after(request, command);
        if !speaks_of_reply(ending) {
            return;
        }
        let claim = Claim {
            sent: sent.saturating_sub(self.start),
            at: stamp.utc.saturating_sub(self.start),
            deadline: self.deadlines.of(stamp),
            request,
            call: command.call,
            line: ending.line().map(|line| line_from(line.as_slice())),
            stamp,
            is_in_doubt: is_in_doubt(ending),
            target: command.target,
            row: self.summary.rows,
        };
        if self.claims.push(claim).is_err() {
            self.lacks_memory = true;
        }
    }
}

// How many requests were sent once this command was, which was sent next after so many: a null procedure isn't counted.
fn requests_after(requests: u64, command: &Wish) -> u64
    ensures { requests + 1 < 2 ^ 64 → result ≡ requests_after requests command.now }
{
    if command.call.number() == NULL_PROCEDURE {
        return requests;
    }
    requests.saturating_add(1)
}

// Whether a row with this ending says that a reply came, in time or late.
fn speaks_of_reply(ending: Ending<'_>) -> bool
    ensures { result ≡ speaks_of_reply (ending_seen ending.entry) }
{
    match ending {
        Ending::Answered(..) | Ending::Unreadable(..) => true,
        Ending::Judged(..) => true,
        Ending::Late => true,
        Ending::Lost | Ending::Skipped | Ending::NoValue | Ending::Missed => false,
    }
}

// Whether the values of a row with this ending don't count, by what the row says itself: it is unconfirmed, or judged in a
// way that leaves doubt of them.
fn is_in_doubt(ending: Ending<'_>) -> bool
    ensures { result ≡ is_in_doubt (ending_seen ending.entry) }
{
    match ending {
        Ending::Answered(Quality::Unconfirmed, ..) => true,
        Ending::Judged(judgement, _) => judgement.leaves_doubt(),
        _ => false,
    }
}

/// How far a run of the station may come.
#[derive(Clone, Copy)]
pub(crate) struct RunLimits {
    /// How many cycles it has.
    pub(crate) cycles: u64,
    /// After how many acts it is killed.
    pub(crate) acts: u64,
    /// When its night is over, in milliseconds since 1970.
    pub(crate) until: u64,
}

/// Why a book ended a run.
#[derive(Clone, Copy)]
pub(crate) enum Interruption {
    /// The station was killed.
    Killed,
    /// The night was over.
    NightOver,
}

/// A book that writes rows into a sink, until the station is killed or the night is over.
#[derive(Drop)]
pub(crate) struct RunBook<K> {
    sink: K,
    layout: Layout,
    // What the rows show of the text.
    labels: Labels,
    pub(crate) seen: Seen,
    // How many acts the station may yet make in the run, before it is killed.
    left: u64,
    // When the night ends, in milliseconds since 1970, and whether the station has read that moment, or a later one.
    until: u64,
    is_over: bool,
    // Why `sync` ended the run, if it did.
    interruption: Option<Interruption>,
    // Whether a row of the run couldn't be written, or the run was ended by `sync`.
    has_failed: bool,
}

impl<K> RunBook<K> {
    /// A book to which nothing was written. `begin` has to be called before each run.
    pub(crate) fn new(sink: K, layout: Layout, labels: Labels, seen: Seen) -> RunBook<K> {
        RunBook {
            sink,
            layout,
            labels,
            seen,
            left: 0,
            until: 0,
            is_over: false,
            interruption: None,
            has_failed: false,
        }
    }

    /// Begins a run of the station at the moment `run`, in milliseconds since 1970, before which `requests` requests were put on the
    /// line, null procedures apart. The run is killed after as many acts as the limits
    /// say, and cut off once the station has read the moment at which its night is over, or a later one. The claims of the run before
    /// are dropped.
    pub(crate) fn begin(&mut self, run: u64, requests: u64, limits: RunLimits) {
        self.layout.run = run;
        self.left = limits.acts;
        self.until = limits.until;
        self.is_over = false;
        self.interruption = None;
        self.has_failed = false;
        self.seen.requests = requests;
        self.seen.claims.clear();
    }

    /// Why the book ended the present run. `None`: it didn't.
    pub(crate) fn interruption(&self) -> Option<Interruption> {
        self.interruption
    }

    /// Ends the book, and hands back the sink, what was seen of the rows, and their labels.
    pub(crate) fn end(self) -> (K, Seen, Labels) {
        let RunBook {
            sink,
            layout: _,
            labels,
            seen,
            left: _,
            until: _,
            is_over: _,
            interruption: _,
            has_failed: _,
        } = self;
        (sink, seen, labels)
    }
}

impl<K: Sink> Book for RunBook<K> {
    ghost text = { λ book. text_in book.layout (labels_seen book.labels) };

    ghost taken = { λ book. K.taken book.sink };

    ghost failed = { λ book. book.has_failed };

    ghost is_durable = { λ _. true };

    // Counts a row, notes what it claims (`see`), and then writes it. `Err`: it couldn't be written whole; it is counted all the
    // same.
    fn write(
        &mut self,
        stamp: Stamp,
        command: &Wish,
        ending: Ending<'_>,
    ) -> Result<(), PortFailed> {
        self.seen.see(stamp, command, ending);
        let written = write_station_row(
            &mut self.sink,
            self.layout,
            &self.labels,
            stamp,
            command,
            ending,
        );
        match written {
            Ok(()) => Ok(()),
            Err(_) => {
                self.has_failed = true;
                Err(PortFailed)
            }
        }
    }

    // Counts the act that comes next, or the end of the run. `Err`: the night is over, and the run is cut off; or it isn't, but
    // no act is left, and the station is killed.
    fn sync(&mut self) -> Result<(), PortFailed> {
        if self.is_over {
            self.interruption = Some(Interruption::NightOver);
            self.has_failed = true;
            return Err(PortFailed);
        }
        if self.left == 0 {
            self.interruption = Some(Interruption::Killed);
            self.has_failed = true;
            return Err(PortFailed);
        }
        self.left -= 1;
        Ok(())
    }

    // Notes if the night is over at this moment.
    fn sees(&mut self, _health: LinkHealth, moment: Moment) {
        if moment.utc >= self.until {
            self.is_over = true;
        }
    }

    // Does nothing: a run that ended as stale is counted by its fault.
    fn unanswered(&mut self, _watch: Watch) {}

    // Does nothing: the summary compares each row with the truth.
    fn doubts(&mut self, _ended: usize) {}

    // Does nothing: the summary doesn't count overruns.
    fn overran(&mut self, _cycle: u64) {}
}
