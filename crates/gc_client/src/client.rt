//! The client. What each call does to the next id and to the requests that wait is the client's rule (`specs/Rule.antt`), this
//! project's own.

ghost use Rattle.std.specs.Prelude.{◌≡◌, ℕ, ◌+◌, ◌<◌, ◌≤◌, ◌↔◌, List, [], ◌∷◌, ◌++◌, length, Option, Some, None, Err, IfSome, IfOk, IfErr, OnOk, IsOk, IsErr, MatchResult};
ghost use Rattle.gc_lines.specs.Lines.{IsPlain};
ghost use Rattle.gc_lines.specs.Replies.{reply_seen};
ghost use Rattle.gc_client.specs.Rule.{fresh, IsAcceptedSend, IsFull, IsRefusedSend, IsWidth, deadlines, IsEarliest, expires, expiring, restarts};
ghost use Rattle.gc_client.specs.Places.{place_heard};
ghost use Rattle.gc_client.specs.Settlements.{AreSettledBy};
ghost use Rattle.gc_client.specs.Hearing.{AreSettledAt, AreSettledByLine, ChangesNothing, FitsAt, HearsAs, HearsInto, IsAfterLine, IsAfterSettling, ReportsTooLong, settlements_in};
ghost use Rattle.gc_client.specs.declared.heard.Hearing.TheVariants.{Unread};
ghost use Rattle.gc_lines.specs.declared.fault.LineFault.TheVariants.{TooLong};

use crate::ending::{lose, make_places, set_replied};
use crate::heard::{Heard, Hearing};
use crate::pending::Pending;
use crate::settlement::Settlement;
use crate::window::{IDS, WINDOW, Window};
use arrayvec::ArrayVec;
use gc_catalogue::Asking;
use gc_lines::{Line, LineFault, Reply, read_reply};
use std::error::Error;
use std::fmt;
use std::marker::Model;

/// As many requests wait as the client's window is wide, so no further one was sent.
#[derive(Clone, Copy, Debug)]
pub struct WindowFull;

impl WindowFull {
    /// The fault's number, 31.
    pub fn number(self) -> u8
        ensures { result ≡ 31 }
    {
        31
    }
}

impl fmt::Display for WindowFull {
    ghost use Rattle.std.specs.Prelude.{Some, codes};

    ghost output = { λ full. Some (codes "as many requests wait as the window is wide") };

    fn fmt<W: fmt::Write>(&self, f: &mut fmt::Formatter<W>) -> fmt::Result {
        f.write_str("as many requests wait as the window is wide")
    }
}

impl Error for WindowFull {}

/// A client over any window. It settles requests in the order of sending, and none of them twice. The connection has to keep its
/// lines in order; it may lose, delay or repeat any of them in place.
///
/// Its width is how many requests it lets wait, from one to seven. It is chosen once, and no call changes it.
///
/// No call allocates, unless the window does. The caller has a clock, and a connection over which a
/// [`Beginning`](crate::Beginning) has begun:
///
/// 1. `send` each request, and write its line, with CR LF, on the connection, while fewer wait than the width, and fewer are
///    `current` than the instrument can take.
/// 2. Read, waiting until [`next_deadline`](Client::next_deadline) at most.
/// 3. Hand the moment after the read to `expire`, on the clock of the deadlines. Then hand each line that came, without
///    its CR LF, to `on_line`. So a reply that came at its request's deadline, or after it, is late, unless the clock went back.
///    Go on at 1.
/// 4. Where the connection fails, close it, keep the client, and go on over a new connection: ids go on. Only where as many
///    wait as the width, and all have timed out, finish a new `Beginning` and then `restart`: ids begin at 0 again
///    (`docs/LIBRARY.md`). By calling `restart` the caller vouches that no line is in flight.
///
/// What to do at each outcome:
///
/// - `Answered`: take the reading, which may be a refusal or a fault.
/// - `Late`: the instrument has dealt with the request. Nothing may rest on what its reply said.
/// - `Lost`: it isn't known whether the instrument acted. Look at it before you send a call again that moves it. A call
///   that only asks may be sent again at once.
#[derive(Drop)]
pub struct Client<W: Window> {
    window: W,
    width: u8,
    // The id of the next request.
    next: u8,
}

impl<W: Window> Model for Client<W> {
    ghost use Rattle.std.specs.Prelude.{◌<◌, ◌≤◌, length};
    ghost use Rattle.gc_client.specs.declared.window.TheConstants.{IDS};
    ghost use Rattle.gc_client.specs.Rule.{Windowed, IsWidth};

    ghost Value = { Windowed W.Asked };

    ghost view = { λ c. record { width = c.width; ids = record { next = c.next; waiting = W.pendings c.window } } };

    ghost invariant = { λ c. (c.next < IDS) × (length (W.pendings c.window) ≤ c.width) × IsWidth c.width };
}

impl<W: Window> Client<W> {
    /// Makes a client that has sent nothing, over this window, which it clears. The first id is 0, and seven requests can
    /// wait.
    pub fn new(window: W) -> Client<W>
        ensures { result ≡ record { width = WINDOW; ids = fresh } }
    {
        Client::with_width(window, WINDOW as u8)
    }

    /// Makes a client as `new` does, but one that lets `width` requests wait, from 1 to 7. A narrower client is as safe, but a
    /// single lost reply fills one of width 1. With an instrument that takes fewer requests at once than the width, send while
    /// fewer are `current` than it takes.
    pub fn with_width(mut window: W, width: u8) -> Client<W>
        requires { IsWidth width }
        ensures { result ≡ record { width = width; ids = fresh } }
    {
        window.clear();
        Client::resume(window, width, 0)
    }

    /// Makes a client again from the parts of another one: the window with the requests that wait, the width, 1 to 7, and the next id,
    /// 0 to 7. At most as many requests may wait in the window as the width says.
    pub fn resume(window: W, width: u8, next: u8) -> Client<W>
        requires width { IsWidth width }
        requires digit { next < IDS }
        requires room { length (W.pendings window) ≤ width }
        ensures { result ≡ record { width = width; ids = record { next = next; waiting = W.pendings window } } }
    {
        Client {
            window,
            width,
            next,
        }
    }

    /// Takes the client apart: the window with the requests that wait, the width, and the next id. `resume` makes the client
    /// again of these.
    pub fn into_parts(self) -> (W, u8, u8)
        ensures waiting { W.pendings result.0 ≡ self.ids.waiting }
        ensures width { result.1 ≡ self.width }
        ensures next { result.2 ≡ self.ids.next }
        ensures allowed { IsWidth result.1 }
        ensures digit { result.2 < IDS }
        ensures room { length (W.pendings result.0) ≤ result.1 }
    {
        (self.window, self.width, self.next)
    }

    // Getters.

    /// How many requests the client lets wait, 1 to 7.
    pub fn width(&self) -> u8
        ensures width { result ≡ self.now.width }
        ensures allowed { IsWidth result }
    {
        self.width
    }

    /// How many requests are outstanding, timed-out ones included.
    pub fn waiting(&self) -> usize
        ensures waiting { result ≡ length self.now.ids.waiting }
        ensures within { result ≤ self.now.width }
        ensures most { result ≤ WINDOW }
    {
        self.window.len()
    }

    /// How many outstanding requests haven't timed out.
    pub fn current(&self) -> usize
        ensures current { result ≡ length (deadlines self.now.ids.waiting) }
        ensures within { result ≤ length self.now.ids.waiting }
    {
        let mut current = 0;
        for k in 0..self.window.len() {
            if !self.window.get(k).given_up {
                current += 1;
            }
        }
        current
    }

    /// The id that the next request gets, 0 to 7, unless `restart` comes before it.
    pub fn next_id(&self) -> u8
        ensures next { result ≡ self.now.ids.next }
        ensures digit { result < IDS }
    {
        self.next
    }

    /// The earliest deadline of the outstanding requests that haven't timed out: until then the caller may wait for a line.
    /// `None`: all have timed out, or none is outstanding.
    pub fn next_deadline(&self) -> Option<u64>
        ensures { IsEarliest (deadlines self.now.ids.waiting) result }
    {
        let mut earliest = None;
        for k in 0..self.window.len() {
            let pending = self.window.get(k);
            if !pending.given_up {
                earliest = Some(earlier(earliest, pending.deadline));
            }
        }
        earliest
    }

    // Handlers.

    /// Takes a line that came, without its CR LF.
    ///
    /// A reply settles the request that waits with its id, and those that wait and were sent before it. The earlier ones are lost.
    /// The request itself is late if it had timed out, and else answered. A reply that no request waits for is a stray,
    /// and so is a reply without an id. A line that is no reply is unread. Strays and unread lines leave the client unchanged.
    pub fn on_line(&mut self, line: &Line) -> Heard<W::Asked>
        ensures heard { HearsAs self.old.ids line.now.items result self.new.ids }
        ensures settled { AreSettledByLine W.Asked.says self.old.ids line.now.items (settlements_in result) }
        ensures client { IsAfterLine self.old line.now.items self.new }
    {
        let mut settled = ArrayVec::new();
        match self.hear(line.as_slice(), &mut settled) {
            Hearing::Settled => Heard::Settled(settled),
            Hearing::Stray => Heard::Stray,
            Hearing::Unread(fault) => Heard::Unread(fault),
        }
    }

    /// Takes a line as `on_line` does, given as bytes, and writes the settlements into the list `settled`.
    ///
    /// Afterwards the list holds this line's settlements alone: none after a stray or an unread line. Its places are
    /// written over, so it is fastest to use one list for all lines. A line of more than 512 bytes is unread, with
    /// the fault `LineFault::TooLong`.
    pub fn hear(
        &mut self,
        line: &[u8],
        settled: &mut ArrayVec<Settlement<W::Asked>, WINDOW>,
    ) -> Hearing
        ensures heard { length line.now ≤ 512 → HearsInto self.old.ids line.now result settled.new.items self.new.ids }
        ensures settled { length line.now ≤ 512 → AreSettledByLine W.Asked.says self.old.ids line.now settled.new.items }
        ensures client { length line.now ≤ 512 → IsAfterLine self.old line.now self.new }
        ensures overlong { 512 < length line.now → ReportsTooLong result settled.new.items self.old self.new }
    {
        match self.find_request(line) {
            Ok((k, reply)) => {
                self.settle(k, &reply, line, settled);
                Hearing::Settled
            }
            Err(hearing) => {
                settled.clear();
                hearing
            }
        }
    }

    /// Times out each outstanding request whose deadline is at most `now`, a moment on the clock of the deadlines. It returns the
    /// targets of those that hadn't timed out before, in the order of sending.
    ///
    /// A request that has timed out stays outstanding, and a reply that arrives for it settles it as late. If `now` lies
    /// before that of an earlier call, no time-out is undone.
    pub fn expire(&mut self, now: u64) -> ArrayVec<u32, WINDOW>
        ensures targets { result.items ≡ expiring now self.old.ids.waiting }
        ensures client { self.new ≡ record self.old { ids = expires self.old.ids now } }
        ensures waiting { length self.new.ids.waiting ≡ length self.old.ids.waiting }
    {
        let mut targets = ArrayVec::new();
        for k in 0..self.window.len() {
            let p = self.window.get(k);
            if p.deadline <= now && !p.given_up {
                self.window.give_up(k);
                targets.push(p.target);
            }
        }
        targets
    }

    // Mutators.

    /// Registers a request that has to be answered before the deadline, a moment on the caller's own clock, and returns its line, without
    /// CR LF. The target is returned with the settlement.
    ///
    /// The send is refused exactly if as many requests wait as the window is wide, timed-out ones included. A refusal changes
    /// nothing.
    pub fn send(&mut self, target: u32, call: W::Asked, deadline: u64) -> Result<Line, WindowFull>
        ensures rule { MatchResult result (λ line. IsAcceptedSend W.Asked.line self.old target call deadline self.new line.items)
            (λ _. IsRefusedSend self.old target call deadline × (self.new ≡ self.old)) }
        ensures full { IsErr result ↔ IsFull self.old }
        ensures first { self.old.ids.waiting ≡ [] → IsOk result }
        ensures width { self.new.width ≡ self.old.width }
        ensures plain { IfOk result (λ line. IsPlain line.items) }
        ensures fitting { OnOk result (W.Asked.is_fitting call) }
    {
        let mut line = Line::new();
        self.send_into(target, &call, deadline, &mut line)?;
        Ok(line)
    }

    /// Sends a request as `send` does, and writes its line, without CR LF, into `line`.
    ///
    /// `line` is overwritten, so one can be used for all sends. A refusal leaves it unchanged.
    pub fn send_into(
        &mut self,
        target: u32,
        call: &W::Asked,
        deadline: u64,
        line: &mut Line,
    ) -> Result<(), WindowFull>
        ensures rule { MatchResult result (λ _. IsAcceptedSend W.Asked.line self.old target call.now deadline self.new line.new.items)
            (λ _. IsRefusedSend self.old target call.now deadline × (self.new ≡ self.old) × (line.new.items ≡ line.old.items)) }
        ensures full { IsErr result ↔ IsFull self.old }
        ensures first { self.old.ids.waiting ≡ [] → IsOk result }
        ensures width { self.new.width ≡ self.old.width }
        ensures plain { OnOk result (IsPlain line.new.items) }
        ensures fitting { OnOk result (W.Asked.is_fitting call.now) }
    {
        if self.window.len() == usize::from(self.width) {
            return Err(WindowFull);
        }
        line.clear();
        call.write_onto(line, Some(self.next));
        self.window.push(Pending {
            target,
            call: *call,
            deadline,
            given_up: false,
        });
        self.next = (self.next + 1) % IDS;
        Ok(())
    }

    /// Settles all outstanding requests as lost, and starts again at id 0, with the same width. It returns the settlements, in the
    /// order of sending.
    ///
    /// The caller has to make sure that no line is in flight in either direction. An instrument that still retains the reply
    /// to its last request would take a new request with the same id for a repeat, and not execute it. So either the instrument
    /// restarts too, or a new [`Beginning`](crate::Beginning) is finished before this call (`docs/LIBRARY.md`).
    pub fn restart(&mut self) -> ArrayVec<Settlement<W::Asked>, WINDOW>
        ensures settled { AreSettledBy W.Asked.says result.items (restarts self.old.ids).settlements }
        ensures client { self.new ≡ record self.old { ids = (restarts self.old.ids).client } }
    {
        let mut settled = ArrayVec::new();
        let count = self.window.len();
        self.next = 0;
        make_places(&mut settled, count);
        lose(&mut self.window, count, &mut settled);
        settled
    }

    // The place of the request that a line replies to, and the reply; the oldest request is at place 0. `Err`: the line settles
    // nothing, and the error is what is to be reported of it, `Stray` or `Unread`.
    #[inline]
    fn find_request<'a>(&self, line: &'a [u8]) -> Result<(usize, Reply<'a>), Hearing>
        ensures found { IfOk result (λ found. FitsAt self.now.ids found.0 (reply_seen found.1) line.now) }
        ensures none { IfErr result (λ hearing. length line.now ≤ 512 → ChangesNothing self.now.ids line.now hearing) }
        ensures overlong { 512 < length line.now → result ≡ Err (Unread TooLong) }
    {
        if line.len() > 512 {
            return Err(Hearing::Unread(LineFault::TooLong));
        }
        let reply = match read_reply(line) {
            Ok(reply) => reply,
            Err(fault) => return Err(Hearing::Unread(fault)),
        };
        match place_of(self.next, self.window.len(), reply.id) {
            Some(k) => Ok((k, reply)),
            None => Err(Hearing::Stray),
        }
    }

    // Settles the request at place k by `reply`, which was read from `line`, and those before it as lost. `settled` then has these
    // k + 1 settlements alone, in the order of sending.
    #[inline]
    fn settle(
        &mut self,
        k: usize,
        reply: &Reply<'_>,
        line: &[u8],
        settled: &mut ArrayVec<Settlement<W::Asked>, WINDOW>,
    )
        requires { FitsAt self.old.ids k (reply_seen reply.now) line.now }
        ensures settled { AreSettledAt W.Asked.says self.old.ids line.now k settled.new.items }
        ensures client { IsAfterSettling self.old line.now k self.new }
    {
        make_places(settled, k + 1);
        lose(&mut self.window, k, settled);
        let p = self.window.take_first();
        if let Some(settlement) = settled.get_mut(k) {
            set_replied(&p, reply, line, settlement);
        }
    }
}

// The place of the request that waits with this id; the oldest request is at place 0. `None`: no request waits with this id, or
// `id` is `None`.
#[inline]
fn place_of(next: u8, waiting: usize, id: Option<u8>) -> Option<usize>
    requires next { next < IDS }
    requires waiting { waiting ≤ WINDOW }
    ensures place { result ≡ place_heard next waiting id }
    ensures within { IfSome result (λ k. k < waiting) }
{
    let ids = usize::from(IDS);
    // The id of the request at place 0, or the next id, if none waits. Ids go up by one, modulo 8, from place to place.
    let oldest = (usize::from(next) + ids - waiting) % ids;
    let k = (usize::from(id?) + ids - oldest) % ids;
    if k < waiting { Some(k) } else { None }
}

// The earlier of `deadline` and `earliest`; `deadline` if `earliest` is `None`.
#[inline]
fn earlier(earliest: Option<u64>, deadline: u64) -> u64
    ensures { (ds : List ℕ) → IsEarliest ds earliest → IsEarliest (ds ++ deadline ∷ []) (Some result) }
{
    match earliest {
        Some(moment) if moment <= deadline => moment,
        _ => deadline,
    }
}
