//! The stage: what the events so far leave, and what the next one does.

ghost use Rattle.std.specs.Prelude.{◌≡◌, ◌↔◌, ◌+◌, ◌<◌, ◌≤◌, ◌^◌, ◌∷◌, ◌++◌, [], OnOk, IsOk, IsTrue, length, if◌then◌else◌};
ghost use Rattle.gc_client.specs.Rule.{IsWidth};
ghost use Rattle.gc_world.specs.declared.event.Event.{Event};
ghost use Rattle.gc_world.specs.Behaviours.{ends_with};
ghost use Rattle.gc_world.specs.Directions.{bytes, delivery};
ghost use Rattle.gc_world.specs.Memory.{NoneInFlight, SomeInFlight};
ghost use Rattle.gc_world.specs.Stages.{Shows, staging, IsOkWithoutMemory};
ghost use Rattle.gc_world.specs.Staging.{streams_at_start, ShowsSome, Follows, FollowsBytes, HasLeft, HasMoreThan};

use crate::direction::Direction;
use crate::entries::Entries;
use crate::event::Event;
use crate::executing::Executes;
use crate::feeding::Piece;
use crate::parts::completes;
use crate::report::Report;
use crate::side::Side;
use arrayvec::ArrayVec;
use gc_catalogue::Call;
use gc_client::{Client, Hearing, Settlement, WINDOW, Window};
use gc_lines::{Assembler, Line};
use std::alloc::{AllocError, Global};

/// The state of a run after the events so far: the report, both directions of the line, and the client. The instrument is in
/// the report.
#[derive(Drop)]
pub struct Stage<W: Window<Asked = Call>, I> {
    /// The report so far. Its assemblers are those of the two sides only once all is played.
    pub report: Report<I>,
    /// The requests in flight.
    pub up: Side,
    /// The replies in flight.
    pub down: Side,
    pub client: Client<W>,

    // Three buffers that are made once, because they are large. No event needs what an earlier one left in them.
    /// For a request's line that the client writes, and for a line that an assembler puts together when its last byte comes.
    pub cut: Line,
    /// For a line that is handed over, with its CR LF.
    pub piece: Piece,
    /// For what a reply settles.
    pub settled: ArrayVec<Settlement<Call>, WINDOW>,
}

impl<W: Window<Asked = Call>, I: Executes> Stage<W, I> {
    /// The stage before the first event: the instrument is restarted, and the client is new. The report has room for this many
    /// requests, and as many replies and settlements, where memory for it is granted.
    pub fn new(
        alloc: Global,
        mut instrument: I,
        window: W,
        width: u8,
        requests: usize,
    ) -> Stage<W, I>
        requires { IsWidth width }
        ensures { Shows width result (streams_at_start (ends_with I.acts) instrument) }
    {
        instrument.restart();
        Stage {
            report: Report {
                sent: Entries::with_room(alloc, requests),
                executed: Entries::new(Vec::new(alloc)),
                made: Entries::with_room(alloc, requests),
                settled: Entries::with_room(alloc, requests),
                starts: Entries::new(Vec::new(alloc)),
                instrument,
                up: Assembler::new(),
                down: Assembler::new(),
                refused_sends: 0,
                idle_events: 0,
            },
            up: Side::new(alloc),
            down: Side::new(alloc),
            client: Client::with_width(window, width),
            cut: Line::new(),
            piece: Piece::new(),
            settled: ArrayVec::new(),
        }
    }

    /// Plays one event: what it does to the line, the two ends and the report. An event that isn't possible is only counted.
    /// `Err`: memory for a longer list or queue was refused, and the event may have happened in part.
    pub fn happen(&mut self, event: &Event) -> Result<(), AllocError>
        requires refused { self.old.report.refused_sends + 1 < 2 ^ 64 }
        requires idle { self.old.report.idle_events + 1 < 2 ^ 64 }
        requires shown { ShowsSome (staging I.acts) self.old }
        ensures follows { OnOk result (Follows (staging I.acts) self.old event.now self.new) }
        ensures spare { IsOkWithoutMemory self.old event.now result }
    {
        match *event {
            Event::Send(target, ref call, deadline) => self.send(target, call, deadline)?,
            Event::UpDeliver => self.up_deliver()?,
            Event::UpBytes(n) => self.deliver_bytes(Direction::Up, n)?,
            Event::UpLose(k) => self.up.lose(k, &mut self.report.idle_events),
            Event::UpRepeat(k) => self.up.repeat(k, &mut self.report.idle_events)?,
            Event::DownDeliver => self.down_deliver()?,
            Event::DownBytes(n) => self.deliver_bytes(Direction::Down, n)?,
            Event::DownLose(k) => self.down.lose(k, &mut self.report.idle_events),
            Event::DownRepeat(k) => self.down.repeat(k, &mut self.report.idle_events)?,
            Event::Expire(now) => self.expire(now),
            Event::RestartClient => self.restart_client()?,
            Event::RestartInstrument => self.restart_instrument()?,
        }
        Ok(())
    }

    /// Takes the stage apart when all events are played: returns the report, with the assemblers of the two sides, and the client.
    #[inline(always)]
    pub fn ended(self) -> (Report<I>, Client<W>)
        ensures report { result.0 ≡ record self.report { up = self.up.assembler; down = self.down.assembler } }
        ensures client { result.1 ≡ self.client }
    {
        let Stage {
            mut report,
            up,
            down,
            client,
            cut: _,
            piece: _,
            settled: _,
        } = self;
        report.up = up.assembler;
        report.down = down.assembler;
        (report, client)
    }

    // Sends a request: its line goes to the back of the upward queue. A send that the client refuses is only counted. `Err`: memory
    // was refused.
    fn send(&mut self, target: u32, call: &Call, deadline: u64) -> Result<(), AllocError>
        requires { self.old.report.refused_sends + 1 < 2 ^ 64 }
        ensures follows { OnOk result (Follows (staging I.acts) self.old (Event.Send target call.now deadline) self.new) }
        ensures spare { length self.old.client.ids.waiting ≡ self.old.client.width → IsOk result }
    {
        let Ok(()) = self.client.send_into(target, call, deadline, &mut self.cut) else {
            self.report.refused_sends += 1;
            return Ok(());
        };
        self.up.queue.push(self.report.sent.len())?;
        self.report.sent.push_sent(target, call, &self.cut)
    }

    // Hands the front request to the instrument, and puts the reply at the back of the downward queue. The report gets the reply,
    // and the request's number if it was executed. If no request is in flight, the event is only counted. `Err`: memory was refused.
    #[inline(always)]
    fn up_deliver(&mut self) -> Result<(), AllocError>
        requires idle { self.old.report.idle_events + 1 < 2 ^ 64 }
        requires shown { ShowsSome (staging I.acts) self.old }
        ensures follows { OnOk result (Follows (staging I.acts) self.old Event.UpDeliver self.new) }
        ensures spare { self.old.up.queue ≡ [] → IsOk result }
    {
        let Some(number) = self.up.queue.take_front() else {
            self.report.idle_events += 1;
            return Ok(());
        };
        let mut reply = Line::new();
        let line = self.report.sent.at(number).line.as_slice();
        let request = self.up.finish(line, &mut self.piece, &mut self.cut);
        let is_executed = self.report.instrument.execute(request, &mut reply);
        note_execution(&mut self.report.executed, number, is_executed)?;
        self.down.queue.push(self.report.made.len())?;
        self.report.made.push_made(number, &reply)
    }

    // Hands the front reply to the client, and appends what it settles to the report. If no reply is in flight, the event is only
    // counted. `Err`: memory was refused.
    #[inline(always)]
    fn down_deliver(&mut self) -> Result<(), AllocError>
        requires idle { self.old.report.idle_events + 1 < 2 ^ 64 }
        requires shown { ShowsSome (staging I.acts) self.old }
        ensures follows { OnOk result (Follows (staging I.acts) self.old Event.DownDeliver self.new) }
        ensures spare { IsOkWithoutMemory self.old Event.DownDeliver result }
    {
        let Some(place) = self.down.queue.take_front() else {
            self.report.idle_events += 1;
            return Ok(());
        };
        let line = self.report.made.at(place).line.as_slice();
        let reply = self.down.finish(line, &mut self.piece, &mut self.cut);
        if let Hearing::Settled = self.client.hear(reply, &mut self.settled) {
            self.report.settled.append_all(self.settled.as_slice())?;
        }
        Ok(())
    }

    // Hands over the next `n` bytes of a direction, or all that are in flight if those are fewer: each line that they complete is
    // delivered. Where `n` is 0 or no byte is in flight, the event is only counted. `Err`: memory was refused.
    #[inline(never)]
    fn deliver_bytes(&mut self, direction: Direction, n: usize) -> Result<(), AllocError>
        requires idle { self.old.report.idle_events + 1 < 2 ^ 64 }
        requires shown { ShowsSome (staging I.acts) self.old }
        ensures follows { OnOk result (Follows (staging I.acts) self.old (bytes direction n) self.new) }
        ensures spare { IsOkWithoutMemory self.old (bytes direction n) result }
    {
        let mut left = n;
        let mut remaining = self.remaining(direction);
        if n == 0 || remaining == 0 {
            self.report.idle_events += 1;
            return Ok(());
        }
        while completes(remaining, left) {
            left -= remaining;
            self.deliver(direction)?;
            remaining = self.remaining(direction);
        }
        if left < remaining {
            self.go_on(direction, left);
        }
        Ok(())
    }

    // Hands over what remains of the front line of a direction. Where no line is in flight, the event is only counted. `Err`: memory
    // was refused.
    #[inline(always)]
    fn deliver(&mut self, direction: Direction) -> Result<(), AllocError>
        requires idle { self.old.report.idle_events + 1 < 2 ^ 64 }
        requires shown { ShowsSome (staging I.acts) self.old }
        ensures follows { OnOk result (Follows (staging I.acts) self.old (delivery direction) self.new) }
        ensures spare { IsOkWithoutMemory self.old (delivery direction) result }
    {
        match direction {
            Direction::Up => self.up_deliver(),
            Direction::Down => self.down_deliver(),
        }
    }

    // How many bytes of the front line of a direction are still to go, CR LF included: 0 where no line is in flight.
    fn remaining(&self, direction: Direction) -> usize
        requires { ShowsSome (staging I.acts) self.now }
        ensures { HasLeft (staging I.acts) self.now direction result }
    {
        match direction {
            Direction::Up => self.up.remaining(Direction::Up, &self.report),
            Direction::Down => self.down.remaining(Direction::Down, &self.report),
        }
    }

    // Hands over the next `n` bytes of the front line of a direction, after those that have gone already. They don't
    // complete the line.
    fn go_on(&mut self, direction: Direction, n: usize)
        requires shown { ShowsSome (staging I.acts) self.old }
        requires some { HasMoreThan (staging I.acts) self.old direction n }
        ensures { FollowsBytes (staging I.acts) self.old direction n self.new }
    {
        match direction {
            Direction::Up => self.up.go_on(Direction::Up, &self.report, n, &mut self.cut),
            Direction::Down => self
                .down
                .go_on(Direction::Down, &self.report, n, &mut self.cut),
        }
    }

    // The ends.

    // Hands this moment to the client, which times out each outstanding request whose deadline is at most `now`. Nothing is
    // settled.
    fn expire(&mut self, now: u64)
        ensures { Follows (staging I.acts) self.old (Event.Expire now) self.new }
    {
        self.client.expire(now);
    }

    // Restarts the client, which settles all requests that wait as lost, and restarts the instrument, too, since it may keep a
    // reply whose id the restarted client uses again. Where a line is in flight, the event is only counted. `Err`: memory was
    // refused.
    fn restart_client(&mut self) -> Result<(), AllocError>
        requires { self.old.report.idle_events + 1 < 2 ^ 64 }
        ensures follows { OnOk result (Follows (staging I.acts) self.old Event.RestartClient self.new) }
        ensures spare { SomeInFlight self.old.up.queue self.old.down.queue → IsOk result }
    {
        if !self.is_quiet() {
            self.report.idle_events += 1;
            return Ok(());
        }
        self.report
            .settled
            .append_all(self.client.restart().as_slice())?;
        self.report.starts.push(self.report.executed.len())?;
        self.report.instrument.restart();
        Ok(())
    }

    // Restarts the instrument, and leaves the client as it is. Where a line is in flight, the event is only counted. `Err`: memory was
    // refused.
    fn restart_instrument(&mut self) -> Result<(), AllocError>
        requires { self.old.report.idle_events + 1 < 2 ^ 64 }
        ensures follows { OnOk result (Follows (staging I.acts) self.old Event.RestartInstrument self.new) }
        ensures spare { SomeInFlight self.old.up.queue self.old.down.queue → IsOk result }
    {
        if self.is_quiet() {
            self.report.starts.push(self.report.executed.len())?;
            self.report.instrument.restart();
        } else {
            self.report.idle_events += 1;
        }
        Ok(())
    }

    // Whether no line is in flight.
    fn is_quiet(&self) -> bool
        ensures { IsTrue result ↔ NoneInFlight self.now.up.queue self.now.down.queue }
    {
        self.up.queue.is_empty() && self.down.queue.is_empty()
    }
}

// Appends the request's number to those executed, if it was executed. `Err`: memory was refused, and `executed` is as before.
#[inline(always)]
fn note_execution(
    executed: &mut Entries<usize>,
    number: usize,
    is_executed: bool,
) -> Result<(), AllocError>
    ensures { OnOk result (executed.new ≡ (if is_executed then executed.old ++ number ∷ [] else executed.old)) }
{
    if is_executed {
        executed.push(number)?;
    }
    Ok(())
}
