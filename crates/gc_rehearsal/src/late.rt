//! Replies that come late: an instrument that says busy at once, and sends the reply itself once the procedure has taken its time.

use crate::flight::{Flight, add, due};
use arrayvec::ArrayVec;
use gc_lines::{Line, push_reply, read_reply, read_request};
use gc_scenes::Delay;
use std::alloc::Global;
use std::collections::VecDeque;

// The return code that says that the instrument is busy (`GRC_SYSBUSY`).
const BUSY: u16 = 13;

/// How long the replies to some procedures take, and those that the instrument hasn't sent yet, the one that goes out first in front.
#[derive(Drop)]
pub(crate) struct LateReplies {
    delays: ArrayVec<Delay, 32>,
    // They go out at `arrives`.
    waiting: VecDeque<Flight>,
}

impl LateReplies {
    /// None so far. Those of the procedures of `delays` come late, by the last delay of each. Without a delay none comes late.
    pub fn new(alloc: Global, delays: ArrayVec<Delay, 32>) -> LateReplies {
        LateReplies {
            delays,
            waiting: VecDeque::new(alloc),
        }
    }

    /// Whether replies to some procedures come late.
    pub fn has_delays(&self) -> bool {
        !self.delays.is_empty()
    }

    /// When the next one goes out. `None`: there is none.
    pub fn due(&self) -> Option<u64> {
        due(&self.waiting)
    }

    /// Takes the next one, to be sent.
    pub fn take(&mut self) -> Option<Flight> {
        self.waiting.pop_front()
    }

    /// Drops all that weren't sent, as a restart does.
    pub fn clear(&mut self) {
        self.waiting.clear();
    }

    /// What the instrument sends at the moment `now`, where it has just made this reply: the reply itself if its procedure has no delay, or
    /// its communication code isn't 0. Else the same id with the return code `BUSY`; and the reply goes out after the procedure's delay,
    /// and after those that were put off before. If memory is refused for the reply, it is lost.
    pub fn put_off(&mut self, reply: Flight, now: u64) -> Flight {
        let Some(ms) = delay_of(reply.origin.asked.as_slice(), self.delays.as_slice()) else {
            return reply;
        };
        let Some(line) = busy_reply(reply.line.as_slice()) else {
            return reply;
        };
        let busy = Flight {
            line,
            arrives: reply.arrives,
            origin: reply.origin.copy(),
            is_damaged: reply.is_damaged,
            is_late: false,
        };
        self.wait(reply, now.saturating_add(u64::from(ms)));
        busy
    }

    // Puts a reply at the back of those that wait, to go out at this moment, or with the one before it, if that goes out later.
    fn wait(&mut self, reply: Flight, moment: u64) {
        let last = match self.waiting.back() {
            Some(before) => before.arrives,
            None => 0,
        };
        let late = Flight {
            line: reply.line,
            arrives: moment.max(last),
            origin: reply.origin,
            is_damaged: reply.is_damaged,
            is_late: true,
        };
        add(&mut self.waiting, late);
    }
}

// After how many milliseconds the reply to this request goes out, by the last of these delays for its procedure. `None`: the procedure has
// none, or the line is no request.
fn delay_of(request: &[u8], delays: &[Delay]) -> Option<u32> {
    let Ok(request) = read_request(request) else {
        return None;
    };
    let mut ms = None;
    for delay in delays {
        if delay.rpc == request.rpc {
            ms = Some(delay.ms);
        }
    }
    ms
}

// The line that says busy in place of this reply, with the reply's id. `None`: the line is no reply with an id and communication code 0.
fn busy_reply(line: &[u8]) -> Option<Line> {
    let Ok(reply) = read_reply(line) else {
        return None;
    };
    let id = reply.id?;
    if reply.rc_com != 0 || id >= 8 {
        return None;
    }
    let mut busy = Line::new();
    push_reply(&mut busy, 0, id, BUSY);
    Some(busy)
}
