//! How far an exchange with an instrument is, over its connections: all rules on when a request may be sent, when the line is dead, and
//! what a line that comes changes of that. Times are in milliseconds of the caller's clock.

ghost use Rattle.std.specs.Prelude.{◌≡◌, ◌≤◌, length, map};
ghost use Rattle.gc_client.specs.Settlements.{settlement_seen};
ghost use Rattle.gc_session.specs.Choices.{is_line_dead};
ghost use Rattle.gc_session.specs.Exchange.{new_exchange, has_begun, is_past, past_at, may_ask, asks_at, has_room, is_near, hold_left, moment_read, moment_passed, request_noted, null_noted, line_noted, heard_noted, doubt_noted, hold_noted, line_synchronizing, cleared, renewed, drained, pause_doubled, later};

use crate::lines::{ends_with_table, is_reply};
use crate::load::Load;
use gc_catalogue::Asked;
use gc_client::{Beginning, Settlement, WINDOW};

/// How far an exchange is. A moment is 0 as long as there is none.
#[derive(Drop)]
pub struct Exchange {
    /// Which null procedures of the synchronization are answered. Once all are, the client has synchronized.
    pub word: Beginning,
    /// The deadline of the null procedure of the first id that isn't answered, if that was sent on this connection: then it is sent
    /// again. Else 0.
    pub again: u64,
    /// The moment until which nothing is asked, because the instrument said that it is busy. 0: there is none, or it was reached.
    pub hold: u64,
    /// From when a pause and the quiet time count.
    pub since: u64,
    /// From when a dead line counts.
    pub alive: u64,
    /// Whether a request was sent on this connection, and since then no reply line came.
    pub asked: bool,
    /// The length of the current pause, or of the last one. 0: the next one is as long as the quiet time.
    pub pause: u64,
    /// How many requests were sent after the last call of the table that a reply ended, answered or late, at most seven. Seven if a
    /// reply ended none since the synchronization: so the first request after it is a null procedure.
    pub behind: usize,
    /// How many requests the last line ended that ended any, since the synchronization; 1 if none did.
    pub last_ended: usize,
    /// Whether since the synchronization something came that calls for another one: nothing is sent before that.
    pub doubtful: bool,
}

/// The moment `wait` milliseconds after `moment`, or the greatest `u64` if there is none.
pub fn later(moment: u64, wait: u64) -> u64
    ensures { result ≡ later moment wait }
{
    moment.saturating_add(wait)
}

/// What is left of a hold at a moment: none once that is reached.
pub fn hold_left(hold: u64, now: u64) -> u64
    ensures { result ≡ hold_left hold now }
{
    if now < hold { hold } else { 0 }
}

impl Exchange {
    /// An exchange in which nothing has happened: no null procedure of its synchronization is answered.
    pub fn new() -> Exchange
        ensures { result ≡ new_exchange }
    {
        Exchange {
            word: Beginning::new(),
            again: 0,
            hold: 0,
            since: 0,
            alive: 0,
            asked: false,
            pause: 0,
            behind: WINDOW,
            last_ended: 1,
            doubtful: false,
        }
    }

    // Getters.

    /// Whether each null procedure of the synchronization is answered.
    pub fn has_begun(&self) -> bool
        ensures { result ≡ has_begun self.now }
    {
        self.word.has_begun()
    }

    /// Whether at least `wait` milliseconds lie between `since` and the moment `now`.
    pub fn is_past(&self, wait: u64, now: u64) -> bool
        ensures { result ≡ is_past wait now self.now }
    {
        wait <= now.saturating_sub(self.since)
    }

    /// The moment `wait` milliseconds after `since`, or the greatest `u64` if that is more. Where it isn't more, and `wait` isn't 0, `is_past`
    /// is true exactly from then on.
    pub fn past_at(&self, wait: u64) -> u64
        ensures { result ≡ past_at wait self.now }
    {
        later(self.since, wait)
    }

    /// Whether the line is dead: a request was sent on this connection, and since then no reply line came; a request is outstanding, or a
    /// null procedure of the synchronization was sent on this connection; each outstanding request has timed out; and twice the client's
    /// patience has passed since `alive`. A request that was just sent still has its deadline, so that a close loses no reply in time.
    pub fn is_dead(&self, load: Load) -> bool
        ensures { result ≡ is_line_dead load self.now }
    {
        load.current == 0
            && self.asked
            && (load.all > 0 || self.again > 0)
            && later(load.patience, load.patience) <= load.now.saturating_sub(self.alive)
    }

    /// Whether the null procedure of the first id that isn't answered may be sent: no hold is left, and the deadline of the one that
    /// was sent last has come.
    pub fn may_ask(&self, now: u64) -> bool
        ensures { result ≡ may_ask now self.now }
    {
        self.hold == 0 && self.again <= now
    }

    /// The later one of that deadline and of the hold. Once a moment was noted (`pass_moment`), which ends a hold that it reaches, `may_ask` is
    /// true of it exactly if `asks_at` is no later.
    pub fn asks_at(&self) -> u64
        ensures { result ≡ asks_at self.now }
    {
        self.again.max(self.hold)
    }

    /// Whether there is room for another request: fewer than the client's width haven't timed out; all that are outstanding, and those that
    /// the last line ended that ended any, are together fewer than the window has places; nothing called for a synchronization; and no hold
    /// is left. So the client holds back: a damaged line that ended several requests has it send none whose id a reply that is still in
    /// flight might have.
    pub fn has_room(&self, load: Load) -> bool
        ensures { result ≡ has_room load.width load.all load.current self.now }
    {
        load.current < usize::from(load.width)
            && load.all.saturating_add(self.last_ended) < WINDOW
            && !self.doubtful
            && self.hold == 0
    }

    /// Whether one of the seven requests before the next one is a call of the table that a reply ended. Else a null procedure has to be
    /// sent first, since an instrument that retains the reply to its last call of the table may still send that reply for the next id.
    pub fn is_near(&self) -> bool
        ensures { result ≡ is_near self.now }
    {
        self.behind < WINDOW
    }

    // Mutators.

    /// Notes a moment that was read: a pause and the quiet time count from now. Where the clock went back, the line is taken to have been
    /// alive now at the latest. A hold that is reached is over.
    pub fn read_moment(&mut self, now: u64)
        ensures { self.new ≡ moment_read now self.old }
    {
        self.since = now;
        self.alive = self.alive.min(now);
        self.hold = hold_left(self.hold, now);
    }

    /// Notes a moment as `read_moment` does, but a pause and the quiet time go on. They count from when they did, or from this moment if the
    /// clock went back.
    pub fn pass_moment(&mut self, now: u64)
        ensures { self.new ≡ moment_passed now self.old }
    {
        let since = self.since.min(now);
        self.read_moment(now);
        self.since = since;
    }

    /// Notes that a request was sent at the moment `now`. The time after which the line is dead begins with the first request after a reply
    /// line, or on a connection.
    pub fn note_request(&mut self, now: u64)
        ensures { self.new ≡ request_noted now self.old }
    {
        if !self.asked {
            self.alive = now;
        }
        self.asked = true;
        if self.behind < WINDOW {
            self.behind += 1;
        }
    }

    /// Notes that the null procedure of the first id that isn't answered was sent at the moment `now`: it is sent again `wait` milliseconds
    /// later.
    pub fn note_null(&mut self, now: u64, wait: u64)
        ensures { self.new ≡ null_noted now wait self.old }
    {
        self.note_request(now);
        self.again = later(now, wait);
    }

    // Notes that a line was heard. If it is a reply, it shows that the other end is alive; any other line changes nothing.
    fn note_line(&mut self, now: u64, is_reply: bool)
        ensures { self.new ≡ line_noted now is_reply self.old }
    {
        if is_reply {
            self.alive = now;
            self.asked = false;
        }
    }

    /// Notes that a line was heard at the moment `now` that settled these requests, and after which `waiting` are outstanding. If the last one
    /// that it settled, to which it is the reply, is a call of the table, the outstanding ones are those sent after that call.
    pub fn note_heard(
        &mut self,
        now: u64,
        is_reply: bool,
        settled: &[Settlement<Asked>],
        waiting: usize,
    )
        ensures { self.new ≡ heard_noted now is_reply (map settlement_seen settled.now) waiting self.old }
    {
        if ends_with_table(settled) {
            self.behind = waiting;
        }
        if !settled.is_empty() {
            self.last_ended = settled.len();
        }
        self.note_line(now, is_reply);
    }

    /// Notes whether something came that calls for a synchronization, which stays noted until the next one.
    pub fn note_doubt(&mut self, raised: bool)
        ensures { self.new ≡ doubt_noted raised self.old }
    {
        self.doubtful = self.doubtful || raised;
    }

    /// Notes the longest wait that busy answers in a line call for, from the moment `now` on; 0 if none does. They call for a synchronization,
    /// too.
    pub fn note_busy(&mut self, now: u64, wait: u64)
        ensures { self.new ≡ hold_noted now wait self.old }
    {
        if wait > 0 {
            self.doubtful = true;
            self.hold = self.hold.max(later(now, wait));
        }
    }

    /// Hears a line, of 512 bytes at most, at the moment `now`, while the client synchronizes. If the line answers the first null procedure
    /// that is left, the next one, if there is one, is sent at once.
    pub fn hear_synchronizing(&mut self, now: u64, line: &[u8])
        requires { length line.now ≤ 512 }
        ensures { self.new ≡ line_synchronizing now self.old line.now }
    {
        if self.word.hear(line) {
            self.again = 0;
        }
        self.note_line(now, is_reply(line));
    }

    /// Notes that the line feed of a new connection was sent: no request was sent on it yet.
    pub fn note_cleared(&mut self)
        ensures { self.new ≡ cleared self.old }
    {
        self.again = 0;
        self.asked = false;
    }

    /// Notes that the client synchronizes anew: no null procedure is answered. `asked`: whether the time after which the line is dead goes
    /// on; else it begins with the first null procedure.
    pub fn renew(&mut self, asked: bool)
        ensures { self.new ≡ renewed asked self.old }
    {
        self.word = Beginning::new();
        self.again = 0;
        self.asked = asked;
        self.behind = WINDOW;
        self.last_ended = 1;
        self.doubtful = false;
    }

    /// Ends the draining of a connection that was quiet for long enough: requests may be sent.
    pub fn end_drain(&mut self, now: u64)
        ensures { self.new ≡ drained now self.old }
    {
        self.alive = now;
        self.asked = false;
    }

    /// Makes the next pause twice as long as the last one, up to a minute, but never shorter than the quiet time.
    pub fn double_pause(&mut self, quiet: u64)
        ensures { self.new ≡ pause_doubled quiet self.old }
    {
        self.pause = later(self.pause, self.pause).min(60_000).max(quiet);
    }
}
