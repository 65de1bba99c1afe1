//! The line of a rehearsal as a link: which decisions each call takes from the chance, and what it returns.

ghost use Rattle.std.specs.Prelude.{◌≡◌, ℕ, ◌<◌, ◌∷◌, [], List, length, IfSome};
ghost use Rattle.gc_links.specs.Acts.{AddsActs, Cut, IsPartIfErr, Put, put_act};
ghost use Rattle.gc_rehearsal.specs.Carrying.{IsOfLine};
ghost use Rattle.gc_rehearsal.specs.Inside.{told};
ghost use Rattle.gc_rehearsal.specs.Reading.{AddsRead, MayRead};

use crate::carried::Carried;
use crate::chance::{Chance, Fate};
use crate::counts::Counts;
use crate::flight::{Flight, Origin, Written, len_with_end, line_of};
use crate::late::LateReplies;
use crate::line_state::{LineState, Next, next_at_instrument};
use crate::receivers::Sent;
use crate::truth::Truth;
use arrayvec::ArrayVec;
use gc_lines::{PortFailed, line_from, with_end};
use gc_links::{Came, Link, Moment, Note};
use gc_scenes::{Delay, SceneInstrument};
use std::alloc::Global;

/// A link in memory, in simulated time, at whose other end the instrument of a scene is. Its chance decides what happens to
/// each line. It has no clock of the system and no socket: time goes by in reads alone, and in [`Rehearsed::wait`].
///
/// A read gives one line with its CR LF. A line that the reader's buffer has no room for is lost whole, and so is one of more
/// than 512 bytes without its CR LF, one for which memory is refused, and a reply that has a CR or an LF in it.
///
/// A link that alters bytes also asks its chance for the bytes of each line as they arrive. The instrument reads of them what its
/// receiver does, and so does the station: a line whose CR LF is altered comes with the next one, or with a line feed in it only in
/// part. What hasn't ended is lost at a close. Contracts see no acts of such a link (`carried` is `None`).
///
/// Only over such a link an instrument may send replies late. A request of a procedure with a delay is then answered at once, with its id
/// and return code 13, busy. The reply itself is sent when the delay has passed, behind the replies to requests that came meanwhile, but not
/// before late ones of earlier requests. Requests are executed when they come. A restart drops late replies that weren't sent.
#[derive(Drop)]
pub struct Rehearsed<C> {
    /// Decides what happens to each line.
    pub chance: C,
    carried: Carried,
    late: LateReplies,
    state: LineState,
}

impl<C> Rehearsed<C> {
    /// A link without a connection, with nothing in flight, and with the instrument restarted. Its start, the moment 0, is `utc`
    /// milliseconds after 1970. Only if `alters` is true, it may alter bytes, and the instrument sends the replies to the procedures of
    /// `delays` late, each by the last delay of its procedure.
    pub fn new(
        alloc: Global,
        chance: C,
        instrument: SceneInstrument,
        delays: ArrayVec<Delay, 32>,
        utc: u64,
        alters: bool,
    ) -> Rehearsed<C>
        ensures { result.carried ≡ told alters [] }
    {
        Rehearsed {
            chance,
            carried: Carried::new(alloc, instrument, alters),
            late: LateReplies::new(alloc, if alters { delays } else { ArrayVec::new() }),
            state: LineState::new(alloc, utc),
        }
    }

    /// The results of its calls are those of a line that keeps order and loses lines whole (`IsOfLine`), whatever its chance decided,
    /// unless the link alters bytes. A theorem, without effect.
    pub fn acts_are_of_line(&self)
        ensures { IfSome self.now.carried IsOfLine }
    {
        self.carried.acts_are_of_line();
    }

    /// Milliseconds since the start.
    pub fn elapsed(&self) -> u64 {
        self.state.now
    }

    /// How often each event happened since the start.
    pub fn counts(&self) -> Counts {
        self.state.counts
    }

    /// How many requests were put since the start, null procedures apart: also those that were cut, or that found no connection.
    pub fn requests(&self) -> u64 {
        self.state.requests
    }

    /// The truth of each reply that reads gave since the present run began, in their order, but for those that are missing.
    pub fn truths(&self) -> &[Truth]
        ensures { result.now ≡ self.now.state.truths.items }
    {
        self.state.truths.as_slice()
    }

    /// Begins a run: the `elapsed` of its moments counts from now, and the truths so far are dropped.
    pub fn begin(&mut self)
        ensures { self.new.carried ≡ self.old.carried }
    {
        self.state.begin();
    }

    /// How many truths are missing since the start, because memory was refused for them.
    pub fn missing_truths(&self) -> u64
        ensures { result ≡ self.now.state.missing_truths }
    {
        self.state.missing_truths
    }

    // The next event up to the moment `limit`.
    fn next(&self, limit: u64) -> Next {
        let request = self.carried.request_due();
        let late = self.late.due();
        let reply = self.carried.reply_due();
        self.state.next(request, late, reply, limit)
    }

    // A read during which nothing comes until the moment `limit`: sets the clock to it, and returns silence.
    fn be_silent(&mut self, limit: u64) -> Came
        ensures { (buf : List ℕ) → AddsRead self.old.carried self.new.carried result buf }
    {
        self.state.come_to(limit);
        let moment = self.state.moment();
        self.carried.note(&Note::Silent(moment));
        Came::Silence(moment)
    }

    // A read during which, or before which, the other end closes the connection at this moment: sets the clock forward to it,
    // unless it is past, and returns the end.
    fn end(&mut self, moment: u64) -> Came
        ensures { (buf : List ℕ) → AddsRead self.old.carried self.new.carried result buf }
    {
        self.state.come_to(moment);
        self.carried.note(&Note::Ended);
        Came::End
    }

    // Gives the next reply, which is in flight and arrives at this moment, and sets the clock forward to the moment, unless it is
    // past. `None`: `buf` has no room for the reply, which is lost, and is counted as lost.
    fn give(&mut self, moment: u64, buf: &mut [u8]) -> Option<Came>
        ensures { MayRead self.old.carried self.new.carried result buf.new }
    {
        self.state.come_to(moment);
        let moment = self.state.moment();
        let Some(flight) = self.carried.give(buf, moment) else {
            self.state.count_lost();
            return None;
        };
        let n = len_with_end(&flight.line);
        self.state.keep_truth(flight);
        Some(Came::Bytes(n, moment))
    }
}

impl<C: Chance> Rehearsed<C> {
    /// Lets this many milliseconds go by, as while no station runs. Requests in flight reach the instrument meanwhile, it sends late
    /// replies, and nothing is read.
    pub fn wait(&mut self, millis: u64)
        ensures { self.new.carried ≡ self.old.carried }
    {
        let limit = self.state.from_now(millis);
        // The bound is there so that the loop ends whatever the queue does.
        for _ in 0..u64::MAX {
            match next_at_instrument(self.carried.request_due(), self.late.due(), limit) {
                Next::Request(moment) => self.reach(moment),
                Next::Late(moment) => self.send_late(moment),
                _ => break,
            }
        }
        self.state.come_to(limit);
    }

    // Restarts the instrument, and counts that, if the chance says so.
    fn restart_by_chance(&mut self)
        ensures { self.new.carried ≡ self.old.carried }
    {
        if self.chance.restarts() {
            self.state.count_restart();
            self.carried.restart();
            self.late.clear();
        }
    }

    // Hands the next request to the instrument at this moment, or now if that is later, and sends its reply with a fate of the
    // chance, which is taken and counted also if the instrument makes none. The instrument is restarted before the request
    // reaches it, if the chance says so. If the reply is to arrive twice, but can't be sent (`Carried::hand_over`), the last reply
    // that is in flight arrives twice instead, if there is one: any line may repeat that one.
    fn reach(&mut self, moment: u64)
        ensures { self.new.carried ≡ self.old.carried }
    {
        self.state.come_to(moment);
        self.restart_by_chance();
        self.carried.pass(self.state.now);
        let fate = self.chance.fate();
        let arrives = self.state.schedule_reply(fate);
        if self.late.has_delays() {
            self.answer_or_put_off(arrives, fate);
            return;
        }
        let answered = self.carried.hand_over(arrives);
        if answered && !fate.lost {
            self.send_reply(fate);
        }
    }

    // Hands the next request to an instrument that sends some replies late, and sends what it says at once: its reply, or that it is busy.
    // That arrives at the moment `arrives`, or is lost (`None`), by this fate.
    fn answer_or_put_off(&mut self, arrives: Option<u64>, fate: Fate)
        ensures { self.new.carried ≡ self.old.carried }
    {
        let now = self.state.now;
        if !self.carried.hand_over(Some(arrives.unwrap_or(now))) {
            return;
        }
        let Some(reply) = self.carried.take_back() else {
            return;
        };
        let says = self.late.put_off(reply, now);
        if arrives.is_some() {
            self.alter_reply(&says, fate);
        }
    }

    // Sends the next late reply at this moment, or now if that is later, with a fate of the chance, and counts it.
    fn send_late(&mut self, moment: u64)
        ensures { self.new.carried ≡ self.old.carried }
    {
        self.state.come_to(moment);
        let Some(mut reply) = self.late.take() else {
            return;
        };
        self.state.count_late();
        let fate = self.chance.late_fate();
        if let Some(arrives) = self.state.schedule_reply(fate) {
            reply.arrives = arrives;
            self.alter_reply(&reply, fate);
        }
    }

    // What the line does with a reply that was sent, and isn't lost: it may arrive twice, and with other bytes.
    fn send_reply(&mut self, fate: Fate)
        ensures { self.new.carried ≡ self.old.carried }
    {
        if let Some(reply) = self.carried.take_back() {
            self.alter_reply(&reply, fate);
        } else if fate.repeated {
            self.carried.repeat_reply();
        }
    }

    // Lets a reply arrive with its bytes as the chance alters them, twice if the fate repeats it.
    fn alter_reply(&mut self, reply: &Flight, fate: Fate)
        ensures { self.new.carried ≡ self.old.carried }
    {
        let bytes = with_end(&reply.line);
        let altered = self.chance.alter(bytes.as_slice());
        let is_altered = altered.as_slice() != bytes.as_slice();
        let sent = Sent {
            bytes: altered.as_slice(),
            arrives: reply.arrives,
            origin: &reply.origin,
            is_damaged: is_altered || reply.is_damaged,
            is_late: reply.is_late,
        };
        if is_altered {
            self.state.count_altered();
        }
        self.carried.arrive_down(&sent);
        if fate.repeated {
            self.carried.arrive_down(&sent);
        }
    }

    // Carries out the next event of a read up to the moment `limit`, and returns its result. `None`: the read goes on.
    fn step(&mut self, limit: u64, buf: &mut [u8]) -> Option<Came>
        ensures { MayRead self.old.carried self.new.carried result buf.new }
    {
        match self.next(limit) {
            Next::Request(moment) => {
                self.reach(moment);
                None
            }
            Next::Late(moment) => {
                self.send_late(moment);
                None
            }
            Next::Reply(moment) => self.give(moment, buf),
            Next::End(moment) => Some(self.end(moment)),
            Next::Nothing => Some(self.be_silent(limit)),
        }
    }

    // Sends a whole request with this fate, before which `request` ones were put (`LineState::number`), and counts it. If the fate
    // loses it, nothing arrives. Otherwise it arrives once, and if the fate repeats it, a second time directly after that, unless
    // memory is refused for the second one. Bytes that aren't a line with its CR LF don't arrive, nor does a line of more than 512
    // bytes without that, or one for which memory is refused; the fate then repeats the last request that is in flight, if there is
    // one. A link that alters bytes sends it by `alter_request`.
    fn send(&mut self, bytes: &[u8], request: u64, fate: Fate)
        ensures { AddsActs self.old.carried self.new.carried (Put bytes.now ∷ []) }
    {
        let Some(arrives) = self.state.schedule_request(fate) else {
            self.carried.put_nothing(bytes);
            return;
        };
        let written = Written {
            request,
            sent: self.state.now,
            arrives,
        };
        if self.carried.alters() {
            self.alter_request(bytes, written, fate);
            self.carried.put_nothing(bytes);
            return;
        }
        self.carried.put(bytes, written);
        if fate.repeated {
            self.carried.repeat_request();
        }
    }

    // Lets a request arrive with its bytes as the chance alters them, twice if the fate repeats it. Bytes that aren't a line with its
    // CR LF don't arrive, nor does a line of more than 512 bytes without that.
    fn alter_request(&mut self, bytes: &[u8], written: Written, fate: Fate)
        ensures { self.new.carried ≡ self.old.carried }
    {
        let Some(line) = line_of(bytes) else {
            return;
        };
        let line = line_from(line);
        let bytes = with_end(&line);
        let altered = self.chance.alter(bytes.as_slice());
        let is_damaged = altered.as_slice() != bytes.as_slice();
        let origin = Origin {
            request: written.request,
            sent: written.sent,
            asked: line,
        };
        let sent = Sent {
            bytes: altered.as_slice(),
            arrives: written.arrives,
            origin: &origin,
            is_damaged,
            is_late: false,
        };
        if is_damaged {
            self.state.count_altered();
        }
        self.carried.arrive_up(&sent);
        if fate.repeated {
            self.carried.arrive_up(&sent);
        }
    }

    // Cuts a request, because the other end closes the connection now. Returns how many of its bytes were sent, which aren't all.
    fn cut(&mut self, bytes: &[u8]) -> usize
        requires { 0 < length bytes.now }
        ensures tells { AddsActs self.old.carried self.new.carried (Cut bytes.now result ∷ []) }
        ensures part { result < length bytes.now }
    {
        let n = self.chance.cut_place().min(bytes.len() - 1);
        self.state.cut();
        self.carried.note(&Note::Cut(bytes, n));
        n
    }

    // Sends a request with a fate of the chance, before which `request` ones were put (`LineState::number`). `Err(n)`: the other end
    // closed the connection, and of the request only the first n bytes were sent, which aren't all.
    fn put_request(&mut self, bytes: &[u8], request: u64) -> Result<(), usize>
        requires { 0 < length bytes.now }
        ensures tells { AddsActs self.old.carried self.new.carried (put_act result bytes.now ∷ []) }
        ensures part { IsPartIfErr result bytes.now }
    {
        let fate = self.chance.fate();
        if fate.closes {
            return Err(self.cut(bytes));
        }
        self.send(bytes, request, fate);
        Ok(())
    }

    // Decides and returns whether a connection is refused now: because an earlier refusal still lasts, or because the chance
    // decides on a new one, which is counted.
    fn decide_refusal(&mut self) -> bool
        ensures { self.new.carried ≡ self.old.carried }
    {
        if self.state.is_refused() {
            return true;
        }
        let millis = self.chance.refusal();
        if millis == 0 {
            return false;
        }
        self.state.refuse(millis);
        true
    }

    // Drops the requests in flight unless the chance keeps them, and then the replies in flight unless it keeps those.
    fn lose_by_chance(&mut self)
        ensures { self.new.carried ≡ self.old.carried }
    {
        if !self.chance.keeps() {
            self.carried.lose_requests();
        }
        if !self.chance.keeps() {
            self.carried.lose_replies();
        }
    }
}

impl<C: Chance> Link for Rehearsed<C> {
    ghost acts = { λ r. r.carried };

    // The present moment of the line.
    fn now(&mut self) -> Result<Moment, PortFailed> {
        let moment = self.state.moment();
        self.carried.note(&Note::Told(moment));
        Ok(moment)
    }

    // Returns the next reply, whole, or the end of the connection, or silence once `millis` milliseconds, but at least one, have
    // gone by. Without a connection there is only silence. Requests in flight reach the instrument meanwhile.
    fn read(&mut self, buf: &mut [u8], millis: u64) -> Came {
        let limit = self.state.from_now(millis.max(1));
        for _ in 0..u64::MAX {
            if let Some(came) = self.step(limit, buf) {
                return came;
            }
        }
        // Never in practice: 2^64 lines.
        self.be_silent(limit)
    }

    // Sends a request, which a close may cut. Nothing is sent without a connection, or once the other end has closed it. A line
    // feed alone clears the instrument's receiver, and is no request.
    fn put(&mut self, bytes: &[u8]) -> Result<(), usize> {
        let request = self.state.number(bytes);
        if !self.state.is_up() {
            self.carried.note(&Note::Cut(bytes, 0));
            return Err(0);
        }
        if bytes == b"\n".as_slice() {
            self.carried.put_nothing(bytes);
            return Ok(());
        }
        self.put_request(bytes, request)
    }

    // Closes the connection. The lines in flight are lost, or arrive later, as the chance decides for each direction.
    fn close(&mut self) {
        self.state.close();
        self.carried.drop_parts();
        self.lose_by_chance();
        self.carried.note(&Note::Closed);
    }

    // Makes a connection, unless it is refused.
    fn open(&mut self) -> Result<(), PortFailed> {
        if self.decide_refusal() {
            self.carried.note(&Note::Unopened);
            return Err(PortFailed);
        }
        self.state.open();
        self.carried.note(&Note::Opened);
        Ok(())
    }
}
