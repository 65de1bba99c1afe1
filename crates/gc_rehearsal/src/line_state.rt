//! The state of a rehearsed line beside the lines in flight: its clock, its connection, when lines arrive, its counts, and the truths.

use crate::chance::Fate;
use crate::counts::Counts;
use crate::flight::Flight;
use crate::truth::Truth;
use gc_links::Moment;
use gc_values::{FILE_VALUES, filled_up};
use std::alloc::Global;

// The front of each request with an id.
const REQUEST: &[u8] = b"%R1Q,";

// The front of each null procedure with an id.
const NULL_PROCEDURE: &[u8] = b"%R1Q,0,";

/// The next event on a line.
#[derive(Clone, Copy)]
pub(crate) enum Next {
    /// A request reaches the instrument at this moment.
    Request(u64),
    /// The instrument sends a late reply at this moment.
    Late(u64),
    /// A reply arrives at this moment.
    Reply(u64),
    /// The other end closes the connection at this moment.
    End(u64),
    /// Nothing happens until the limit.
    Nothing,
}

/// The clock of a line, its connection, its counts and the truths. Moments are in milliseconds since the line was made.
#[derive(Drop)]
pub(crate) struct LineState {
    // The present moment.
    pub now: u64,
    // Milliseconds between 1970 and the moment 0.
    start: u64,
    // When the present run began: the `elapsed` of its moments counts from there.
    began: u64,
    // Whether the station has a connection, also one that the other end has closed.
    is_open: bool,
    // When the other end closes the connection, if it does.
    ends: Option<u64>,
    // Until when no connection can be made.
    refused: u64,
    // Until when no line arrives that is sent now.
    held: u64,
    // For when the last request was scheduled that was written whole and that its fate didn't lose; 0 before the first.
    last_request: u64,
    // For when the last reply was scheduled that its fate didn't lose, also if the instrument made none; 0 before the first.
    last_reply: u64,
    // How many requests were put, null procedures apart: also those that were cut, or that found no connection.
    pub requests: u64,
    // How often each event happened.
    pub counts: Counts,
    // The truths of the replies that reads gave in the present run, but for those that are missing.
    pub truths: Vec<Truth>,
    // How many truths are missing since the moment 0, because memory was refused for them.
    pub missing_truths: u64,
}

impl LineState {
    /// The state at the moment 0, which is `utc` milliseconds after 1970, without a connection.
    pub fn new(alloc: Global, utc: u64) -> LineState {
        LineState {
            now: 0,
            start: utc,
            began: 0,
            is_open: false,
            ends: None,
            refused: 0,
            held: 0,
            last_request: 0,
            last_reply: 0,
            requests: 0,
            counts: Counts::new(),
            truths: Vec::new(alloc),
            missing_truths: 0,
        }
    }

    /// Begins a run: the `elapsed` of its moments (`moment`) counts from now, and the truths so far are dropped. The count of
    /// missing ones stays.
    pub fn begin(&mut self) {
        self.began = self.now;
        self.truths.clear();
    }

    /// The present moment, since the beginning of the run and since 1970. Nobody asks for the end of the run, and each file has the value 1.0:
    /// a rehearsal reads none.
    pub fn moment(&self) -> Moment {
        Moment {
            elapsed: self.now.saturating_sub(self.began),
            utc: self.start.saturating_add(self.now),
            stops: false,
            touched: 0,
            values: [filled_up(b"1.0"); FILE_VALUES],
        }
    }

    /// The moment `millis` milliseconds from now.
    pub fn from_now(&self, millis: u64) -> u64 {
        self.now.saturating_add(millis)
    }

    /// Sets the clock forward to this moment. If that is past, the clock stays.
    pub fn come_to(&mut self, moment: u64) {
        self.now = self.now.max(moment);
    }

    /// Whether there is a connection that the other end hasn't closed yet.
    pub fn is_up(&self) -> bool {
        match self.ends {
            Some(end) => self.is_open && self.now < end,
            None => self.is_open,
        }
    }

    /// The next event up to the moment `limit`, that moment included, if the next request and the next reply arrive at these
    /// moments, and the instrument sends the next late reply at this one (`None`: there is none). Of events at the same moment a request is
    /// first, then a late reply, then the end, and then a reply that arrives. Replies and the end come only on a connection that the
    /// station hasn't closed.
    pub fn next(
        &self,
        request: Option<u64>,
        late: Option<u64>,
        reply: Option<u64>,
        limit: u64,
    ) -> Next {
        let (reply, end) = if self.is_open {
            (reply, self.ends)
        } else {
            (None, None)
        };
        let reply = up_to(limit, reply);
        let end = up_to(reply.unwrap_or(limit), end);
        let late = up_to(end.or(reply).unwrap_or(limit), late);
        let request = up_to(late.or(end).or(reply).unwrap_or(limit), request);
        match (request, late, end, reply) {
            (Some(moment), _, _, _) => Next::Request(moment),
            (None, Some(moment), _, _) => Next::Late(moment),
            (None, None, Some(moment), _) => Next::End(moment),
            (None, None, None, Some(moment)) => Next::Reply(moment),
            (None, None, None, None) => Next::Nothing,
        }
    }

    /// Numbers what is put: returns how many requests were put before it, null procedures apart. It counts from now on if it is a
    /// request, and no null procedure.
    pub fn number(&mut self, bytes: &[u8]) -> u64 {
        let number = self.requests;
        if bytes.starts_with(REQUEST) && !bytes.starts_with(NULL_PROCEDURE) {
            self.requests = number.saturating_add(1);
        }
        number
    }

    // Schedules a line that is sent now with this fate: returns the moment at which it arrives, unless it is lost. The moment
    // isn't before `last`, for which the line before was scheduled, nor before a hold ends. Counts the hold of the fate, if it
    // has one, and either the loss or, if the line isn't lost, the repetition.
    fn schedule(&mut self, fate: Fate, last: u64) -> u64 {
        if fate.hold > 0 {
            self.counts.holds = self.counts.holds.saturating_add(1);
            self.held = self.held.max(self.from_now(fate.hold));
        }
        if fate.lost {
            self.counts.lost = self.counts.lost.saturating_add(1);
        } else if fate.repeated {
            self.counts.repeated = self.counts.repeated.saturating_add(1);
        }
        self.from_now(fate.delay).max(last).max(self.held)
    }

    /// Schedules a request that is sent now with this fate, and counts the request as written whole, and its fate. Returns the moment at
    /// which it arrives; `None`: it is lost.
    pub fn schedule_request(&mut self, fate: Fate) -> Option<u64> {
        let arrives = self.schedule(fate, self.last_request);
        self.counts.requests = self.counts.requests.saturating_add(1);
        if fate.lost {
            return None;
        }
        self.last_request = arrives;
        Some(arrives)
    }

    /// Schedules a reply that is sent now with this fate, and counts its fate. Returns the moment at which it arrives; `None`: it is
    /// lost. If the fate closes the connection, the other end closes it when the reply arrives or, if it is lost, would have arrived,
    /// unless it is to close it earlier or there is no connection. It is called for each request that reaches the instrument, also if
    /// the instrument makes no reply.
    pub fn schedule_reply(&mut self, fate: Fate) -> Option<u64> {
        let arrives = self.schedule(fate, self.last_reply);
        if fate.closes {
            self.end_at(arrives);
        }
        if fate.lost {
            return None;
        }
        self.last_reply = arrives;
        Some(arrives)
    }

    /// Lets the other end close the connection now, in the middle of a request, and counts the close. Without a connection
    /// nothing happens.
    pub fn cut(&mut self) {
        self.end_at(self.now);
    }

    // Lets the other end close the connection at this moment, unless it is to close it earlier; counts the close in either case.
    // Without a connection nothing happens.
    fn end_at(&mut self, moment: u64) {
        if !self.is_open {
            return;
        }
        self.counts.closes = self.counts.closes.saturating_add(1);
        self.ends = match self.ends {
            Some(end) => Some(end.min(moment)),
            None => Some(moment),
        };
    }

    /// Makes a connection, which the other end doesn't close until a fate says so.
    pub fn open(&mut self) {
        self.is_open = true;
        self.ends = None;
    }

    /// Ends the connection. A close by the other end that was still to come is dropped.
    pub fn close(&mut self) {
        self.is_open = false;
        self.ends = None;
    }

    /// Whether no connection can be made now.
    pub fn is_refused(&self) -> bool {
        self.now < self.refused
    }

    /// Refuses connections for this many milliseconds from now on, in place of an earlier refusal, and counts that as one
    /// refusal.
    pub fn refuse(&mut self, millis: u64) {
        self.refused = self.from_now(millis);
        self.counts.refusals = self.counts.refusals.saturating_add(1);
    }

    /// Counts a restart of the instrument.
    pub fn count_restart(&mut self) {
        self.counts.restarts = self.counts.restarts.saturating_add(1);
    }

    /// Counts a line of which bytes were altered.
    pub fn count_altered(&mut self) {
        self.counts.altered = self.counts.altered.saturating_add(1);
    }

    /// Counts a reply that the instrument sends late.
    pub fn count_late(&mut self) {
        self.counts.late = self.counts.late.saturating_add(1);
    }

    /// Counts a reply that is lost because the reader has no room for it.
    pub fn count_lost(&mut self) {
        self.counts.lost = self.counts.lost.saturating_add(1);
    }

    /// Counts a reply that a read gives now, and stores its truth. If memory is refused for the truth, it counts as missing.
    pub fn keep_truth(&mut self, flight: Flight) {
        self.counts.replies = self.counts.replies.saturating_add(1);
        let Flight {
            line,
            arrives: _,
            origin,
            is_damaged,
            is_late,
        } = flight;
        let truth = Truth {
            request: origin.request,
            sent: origin.sent,
            given: self.now,
            asked: origin.asked,
            reply: line,
            is_damaged,
            is_late,
        };
        if self.truths.push(truth).is_err() {
            self.missing_truths = self.missing_truths.saturating_add(1);
        }
    }
}

/// The next event at the instrument up to the moment `limit`, that moment included, if the next request reaches it at this moment, and it
/// sends the next late reply at this one (`None`: there is none). Of both at the same moment the request is first.
pub(crate) fn next_at_instrument(request: Option<u64>, late: Option<u64>, limit: u64) -> Next {
    let late = up_to(limit, late);
    let request = up_to(late.unwrap_or(limit), request);
    match (request, late) {
        (Some(moment), _) => Next::Request(moment),
        (None, Some(moment)) => Next::Late(moment),
        (None, None) => Next::Nothing,
    }
}

// This moment, unless it comes after the moment `limit`.
fn up_to(limit: u64, moment: Option<u64>) -> Option<u64> {
    moment.filter(|moment| *moment <= limit)
}
