//! What decides on the line of a rehearsal: the rules of its text, and a seed.

use crate::altering::alter;
use crate::chance::{Altered, Chance, Fate};
use crate::draw::Draws;
use crate::fate::{LineFate, fate_of, restarts_at};
use crate::rules::Rules;

// Of a request that a close cuts, fewer bytes than this are sent.
const CUT_MAX: u64 = 512;

// Which draw of a request gives the number of its bytes that are sent before such a close.
const CUT_DRAW: u64 = 10;

// Which draw of the request that set out last decides at a close about all lines in flight: odd, they are lost; even, they
// arrive. Before the first request no line is in flight.
const LOSS_DRAW: u64 = 14;

/// What the rules of a text and a seed decide, line by line.
#[derive(Clone, Copy, Drop)]
pub(crate) struct Seeded {
    rules: Rules,
    // The draws of requests, and those of replies.
    up: Draws,
    down: Draws,
    // How many requests set out, and how many replies: one for each request that reached the instrument, and late ones.
    ups: u64,
    downs: u64,
    // Whether a request reached the instrument, so that the next line to set out is its reply.
    is_reply_next: bool,
    // Whether the line that set out last is a reply.
    is_reply_last: bool,
    // For how many milliseconds no connection is made once the next is wanted; 0 if it is made at once.
    refused: u64,
}

impl Seeded {
    /// What these rules and this seed decide, from the first line on.
    pub(crate) fn new(rules: Rules, seed: u64) -> Seeded {
        Seeded {
            rules,
            up: Draws::of_ups(seed),
            down: Draws::of_downs(seed),
            ups: 0,
            downs: 0,
            is_reply_next: false,
            is_reply_last: false,
            refused: 0,
        }
    }

    // Counts the line that sets out next, the reply to the request that reached the instrument or else a request, and returns what happens
    // to it.
    fn next_fate(&mut self) -> LineFate {
        self.is_reply_last = self.is_reply_next;
        if self.is_reply_next {
            self.is_reply_next = false;
            self.downs = self.downs.saturating_add(1);
            return fate_of(&self.rules, self.down, self.downs);
        }
        self.ups = self.ups.saturating_add(1);
        fate_of(&self.rules, self.up, self.ups)
    }
}

impl Chance for Seeded {
    // What happens to the line that sets out next. If its fate closes the connection, this also notes for how long no connection
    // is made once the next is wanted, in place of what was noted before.
    fn fate(&mut self) -> Fate {
        let fate = self.next_fate();
        if fate.closes {
            self.refused = fate.refuse;
        }
        Fate {
            lost: fate.is_lost,
            repeated: fate.is_repeated,
            delay: fate.wait,
            hold: fate.hold,
            closes: fate.closes,
        }
    }

    // What happens to a late reply: it is the next line to set out, and counts among the replies.
    fn late_fate(&mut self) -> Fate {
        self.is_reply_next = true;
        self.fate()
    }

    // What becomes of the bytes of the line that set out last, by the rules and its draws.
    fn alter(&mut self, bytes: &[u8]) -> Altered {
        if self.is_reply_last {
            alter(&self.rules, self.down, self.downs, bytes)
        } else {
            alter(&self.rules, self.up, self.ups, bytes)
        }
    }

    // How many bytes are sent of the last request, at which the connection closes: drawn for that request, and below `CUT_MAX`.
    fn cut_place(&mut self) -> usize {
        (self.up.draw(self.ups, CUT_DRAW) % CUT_MAX) as usize
    }

    // Whether the lines in flight at a close, in either direction, arrive all the same. They do if draw `LOSS_DRAW` of the
    // request that set out last is even.
    fn keeps(&mut self) -> bool {
        self.up.draw(self.ups, LOSS_DRAW) % 2 == 0
    }

    // For how many milliseconds from now on no connection is made, by the last fate that closed the connection. 0 if no such fate
    // was drawn since the last call of this.
    fn refusal(&mut self) -> u64 {
        let millis = self.refused;
        self.refused = 0;
        millis
    }

    // Whether the instrument restarts before it executes a request that reached it, by a draw of the reply to that request. The next
    // line to set out is that reply.
    fn restarts(&mut self) -> bool {
        self.is_reply_next = true;
        restarts_at(&self.rules, self.down, self.downs.saturating_add(1))
    }
}
