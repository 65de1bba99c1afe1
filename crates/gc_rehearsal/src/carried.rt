//! What the line of a rehearsal carries: the lines in flight, and the instrument at its end. Each method is one event on the line.

ghost use Rattle.std.specs.Prelude.{◌≡◌, ◌≤◌, ◌+◌, [], ◌∷◌, length, take, IfSome, MatchOption};
ghost use Rattle.gc_links.specs.Acts.{AddsActs, Put, Gave};
ghost use Rattle.gc_links.specs.Noted.{act_of};
ghost use Rattle.gc_rehearsal.specs.Carrying.{IsOfLine, CarriesNothing};
ghost use Rattle.gc_rehearsal.specs.Inside.{told};
ghost use Rattle.gc_rehearsal.specs.Queues.{MaySend};

use crate::flight::{
    Flight, Origin, Written, add, add_request, due, len_with_end, repeat_last, write_into,
};
use crate::receivers::{Receivers, Sent, receive};
use gc_lines::{Line, is_plain, line_from, read_request};
use gc_links::{History, Moment, Note};
use gc_scenes::SceneInstrument;
use std::alloc::Global;
use std::collections::VecDeque;
use std::marker::Model;

/// The last reply that an instrument stored, and the request on which it made that reply.
#[derive(Drop)]
pub(crate) struct Stored {
    // The reply's line. Empty if the instrument has stored none since its restart: then `origin` says nothing.
    pub line: Line,
    pub origin: Origin,
    // Whether bytes of that request were altered.
    pub is_damaged: bool,
}

impl Stored {
    // Stores a reply that the instrument made on this request.
    fn store(&mut self, reply: &Line, request: &Origin, is_damaged: bool) {
        self.line = line_from(reply.as_slice());
        self.origin = request.copy();
        self.is_damaged = is_damaged;
    }

    // The request that `reply` answers, which the instrument has just sent on `request`. If the instrument had stored a reply with the
    // id of `request` before (`was_stored`), and `reply` is that one, it was sent again, and answers the request that it was made on.
    // Otherwise `reply` answers `request`. Also returns whether bytes of `request` were altered (`is_damaged`), or of the one that the
    // reply answers.
    fn answered_by(
        &self,
        reply: &Line,
        request: Origin,
        is_damaged: bool,
        was_stored: bool,
    ) -> (Origin, bool) {
        if was_stored && self.line.as_slice() == reply.as_slice() {
            (self.origin.copy(), is_damaged || self.is_damaged)
        } else {
            (request, is_damaged)
        }
    }
}

/// The requests (`up`) and the replies (`down`) in flight, the one that was sent first in front, and the instrument between them.
#[derive(Drop)]
pub(crate) struct Traffic {
    instrument: SceneInstrument,
    up: VecDeque<Flight>,
    down: VecDeque<Flight>,
    stored: Stored,
}

impl Traffic {
    ghost use Rattle.gc_rehearsal.specs.Queues.{MayHandOver};

    // Takes the first request in flight, and hands it to the instrument. Its reply, if it makes one, is put at the back of those in
    // flight or is lost, as `send` does it. Returns whether the instrument made a reply, also one that is lost; `false` if no
    // request is in flight.
    fn hand_over(&mut self, arrives: Option<u64>) -> bool
        ensures { MayHandOver self.old self.new }
    {
        let Some(request) = self.up.pop_front() else {
            return false;
        };
        let id = id_of(request.line.as_slice());
        let was_stored = has_stored(&self.instrument, id);
        let mut reply = Line::new();
        if !self
            .instrument
            .reply_onto(request.line.as_slice(), &mut reply)
        {
            return false;
        }
        if !was_stored && has_stored(&self.instrument, id) {
            self.stored
                .store(&reply, &request.origin, request.is_damaged);
        }
        let (answered, is_damaged) = self
            .stored
            .answered_by(&reply, request.origin, request.is_damaged, was_stored);
        send(&mut self.down, reply, arrives, answered, is_damaged);
        true
    }
}

/// What is in flight, and the instrument. Contracts see this value as the acts of the link so far: the results of its calls, in order;
/// or as `None` if the link alters bytes, since nothing is claimed of such a link.
#[derive(Drop)]
pub(crate) struct Carried {
    traffic: Traffic,
    history: History,
    // Whether the link alters bytes, and what its receivers read if it does.
    alters: bool,
    receivers: Receivers,
}

impl Model for Carried {
    ghost use Rattle.std.specs.Prelude.{List, Option};
    ghost use Rattle.std.specs.Coded.{coded_option};
    ghost use Rattle.gc_links.specs.Acts.{Act};
    ghost use Rattle.gc_links.specs.Coding.{acts_code};

    ghost Value = { Option (List Act) };

    ghost coded = { coded_option acts_code };

    ghost use Rattle.gc_rehearsal.specs.Inside.{acts_in, KeepsToLine};

    ghost view = { acts_in };

    ghost invariant = { KeepsToLine };
}

impl Carried {
    /// A line with nothing in flight and no acts, at whose end this instrument is, restarted. It may alter bytes only if `alters` is
    /// true.
    pub fn new(alloc: Global, mut instrument: SceneInstrument, alters: bool) -> Carried
        ensures { result ≡ told alters [] }
    {
        instrument.restart();
        Carried {
            traffic: Traffic {
                instrument,
                up: VecDeque::new(alloc),
                down: VecDeque::new(alloc),
                stored: Stored {
                    line: Line::new(),
                    origin: Origin {
                        request: 0,
                        sent: 0,
                        asked: Line::new(),
                    },
                    is_damaged: false,
                },
            },
            history: History::new(),
            alters,
            receivers: Receivers::new(),
        }
    }

    /// The acts so far are those of a line that keeps order and loses lines whole (`IsOfLine`), unless the link alters bytes. A
    /// theorem, without effect.
    pub fn acts_are_of_line(&self)
        ensures { IfSome self.now IsOfLine }
    {
        // The invariant of `Carried` is known once one of its fields is read.
        let _ = &self.history;
    }

    /// When the next request arrives. `None`: no request is in flight.
    pub fn request_due(&self) -> Option<u64> {
        due(&self.traffic.up)
    }

    /// When the next reply arrives. `None`: no reply is in flight.
    pub fn reply_due(&self) -> Option<u64> {
        due(&self.traffic.down)
    }

    /// Adds an act that changes nothing on the line: the result of a call that neither wrote a whole request nor read a reply.
    pub fn note(&mut self, note: &Note<'_>)
        requires { CarriesNothing (act_of note.now) }
        ensures { AddsActs self.old self.new (act_of note.now ∷ []) }
    {
        self.history = self.history.then(note);
    }

    /// Adds the act of a write of these bytes, of which nothing arrives: they are lost, or aren't a line.
    pub fn put_nothing(&mut self, bytes: &[u8])
        ensures { AddsActs self.old self.new (Put bytes.now ∷ []) }
    {
        self.history = self.history.then(&Note::Put(bytes));
    }

    /// Adds the act of a write of these bytes. If they are a line with its CR LF, and it has at most 512 bytes without that, it is the
    /// request that `written` describes, and is in flight then, unless memory is refused for it.
    pub fn put(&mut self, bytes: &[u8], written: Written)
        ensures { AddsActs self.old self.new (Put bytes.now ∷ []) }
    {
        add_request(&mut self.traffic.up, bytes, written);
        self.history = self.history.then(&Note::Put(bytes));
    }

    /// Lets the request in flight that was sent last arrive twice, the second time directly after the first. Nothing happens if none is in
    /// flight, or if memory is refused.
    pub fn repeat_request(&mut self)
        ensures { self.new ≡ self.old }
    {
        repeat_last(&mut self.traffic.up);
    }

    /// Lets the reply in flight that was sent last arrive twice, the second time directly after the first. Nothing happens if none is in
    /// flight, or if memory is refused.
    pub fn repeat_reply(&mut self)
        ensures { self.new ≡ self.old }
    {
        repeat_last(&mut self.traffic.down);
    }

    /// Drops all requests in flight.
    pub fn lose_requests(&mut self)
        ensures { self.new ≡ self.old }
    {
        self.traffic.up.clear();
    }

    /// Drops all replies in flight.
    pub fn lose_replies(&mut self)
        ensures { self.new ≡ self.old }
    {
        self.traffic.down.clear();
    }

    /// Restarts the instrument, which has stored no reply then. The lines in flight stay.
    pub fn restart(&mut self)
        ensures { self.new ≡ self.old }
    {
        self.traffic.instrument.restart();
        self.traffic.stored.line = Line::new();
    }

    /// Lets time pass at the instrument: sets its clock to this moment, in milliseconds since the line was made.
    pub fn pass(&mut self, moment: u64)
        ensures { self.new ≡ self.old }
    {
        self.traffic.instrument.set_moment(moment);
    }

    /// Hands the next request to the instrument. Its reply, if it makes one, is sent, and arrives at the moment `arrives`, in
    /// milliseconds since the line was made. The reply is lost for `None`, if there is a CR or an LF in it, or if memory is
    /// refused for it. Returns whether the instrument made a reply, also one that is lost; `false` if no request is in flight.
    pub fn hand_over(&mut self, arrives: Option<u64>) -> bool
        ensures { self.new ≡ self.old }
    {
        self.traffic.hand_over(arrives)
    }

    /// Whether the link alters bytes.
    pub fn alters(&self) -> bool {
        self.alters
    }

    /// Lets a request arrive with other bytes than were written. Nothing happens if the link alters no bytes.
    pub fn arrive_up(&mut self, sent: &Sent<'_>)
        ensures { self.new ≡ self.old }
    {
        if self.alters {
            receive(&mut self.traffic.up, &mut self.receivers.up, sent);
        }
    }

    /// Lets a reply arrive with other bytes than the instrument sent. Nothing happens if the link alters no bytes.
    pub fn arrive_down(&mut self, sent: &Sent<'_>)
        ensures { self.new ≡ self.old }
    {
        if self.alters {
            receive(&mut self.traffic.down, &mut self.receivers.down, sent);
        }
    }

    /// Takes back the reply in flight that was sent last, so that it may arrive with other bytes, or late. `None`: none is in flight, or the
    /// link alters no bytes.
    pub fn take_back(&mut self) -> Option<Flight>
        ensures { self.new ≡ self.old }
    {
        if self.alters {
            self.traffic.down.pop_back()
        } else {
            None
        }
    }

    /// Drops what of lines that were altered hasn't ended yet, as a close does.
    pub fn drop_parts(&mut self)
        ensures { self.new ≡ self.old }
    {
        self.receivers = Receivers::new();
    }

    /// Reads the next reply, whole and with its CR LF, into the front of `buf`, at this moment, and returns it. `None`: no reply
    /// is in flight; or `buf` has no room for the next one, which is lost then.
    pub fn give(&mut self, buf: &mut [u8], moment: Moment) -> Option<Flight>
        ensures gave { MatchOption result (self.new ≡ self.old)
            (λ flight. AddsActs self.old self.new (Gave (take (length flight.line.items + 2) buf.new) moment ∷ [])) }
        ensures within { IfSome result (λ flight. length flight.line.items + 2 ≤ length buf.new) }
    {
        let flight = self.traffic.down.pop_front()?;
        let n = len_with_end(&flight.line);
        if buf.len() < n {
            return None;
        }
        write_into(&flight.line, buf);
        self.history = self.history.then(&Note::Gave(&buf[..n], moment));
        Some(flight)
    }
}

// The id of a request's line. `None`: it has no id, or is no request.
fn id_of(line: &[u8]) -> Option<u8> {
    match read_request(line) {
        Ok(request) => request.id,
        Err(_) => None,
    }
}

// Whether the instrument has stored a reply with this id. It hasn't for `None`.
fn has_stored(instrument: &SceneInstrument, id: Option<u8>) -> bool {
    id.is_some() && instrument.kept_id() == id
}

// Puts a reply to the request `origin`, which arrives at the moment `arrives`, at the back of the queue `down`. The reply is lost
// for `None`, if it is no line because there is a CR or an LF in it, or if memory is refused for it. `is_damaged`: whether bytes of its
// request were altered.
fn send(
    down: &mut VecDeque<Flight>,
    reply: Line,
    arrives: Option<u64>,
    origin: Origin,
    is_damaged: bool,
)
    ensures { MaySend down.old.items reply.items down.new.items }
{
    let Some(arrives) = arrives else {
        return;
    };
    if !is_plain(reply.as_slice()) {
        return;
    }
    add(
        down,
        Flight {
            line: reply,
            arrives,
            origin,
            is_damaged,
            is_late: false,
        },
    );
}
