//! A station of one's own over a session: it does what the session says, over any link, and has no rule of its own.

ghost use Rattle.std.specs.Prelude.{◌<◌, length};

use arrayvec::ArrayVec;
use gc_catalogue::Asked;
use gc_client::{Outcome, Settlement, WINDOW};
use gc_lines::{Assembler, Lent, Line, bytes_from, with_end};
use gc_links::{Came, Link};
use gc_session::{Act, Session, Settings, Want};

/// A session with the connection's half lines, and the moment read last.
#[derive(Drop)]
pub struct OwnStation {
    session: Session,
    assembler: Assembler,
    now: u64,
}

impl OwnStation {
    /// A station without a connection.
    pub fn new(settings: Settings) -> OwnStation {
        OwnStation {
            session: Session::new(settings),
            assembler: Assembler::new(),
            now: 0,
        }
    }

    /// Sends a request as soon as the session lets it, and returns how it ended: lost, if it wasn't by its deadline, `wait` milliseconds
    /// later. `None`: it couldn't be sent within `wait` milliseconds.
    pub fn ask<L: Link>(
        &mut self,
        link: &mut L,
        target: u32,
        call: &Asked,
        wait: u64,
    ) -> Option<Outcome> {
        let (mut settled, mut line) = (ArrayVec::new(), Line::new());
        let (mut want, mut end) = (Want::Send, self.now.saturating_add(wait));
        let (mut is_sent, mut outcome) = (false, None);
        for _ in 0..u64::MAX {
            if self.now >= end {
                break;
            }
            match self.session.step(want, self.now, &mut settled, &mut line) {
                Act::Open => self.connect(link),
                Act::Wait(until) | Act::Read(until) => {
                    outcome = self.read(link, until.min(end), target, &mut settled);
                    if outcome.is_some() {
                        break;
                    }
                }
                Act::Clear => self.put(link, b"\n"),
                Act::Put => self.put(link, &with_end(&line)),
                Act::Ask => {
                    if self.session.ask(target, call, wait, &mut line).is_ok() {
                        (want, end) = (Want::Answers, self.now.saturating_add(wait));
                        is_sent = true;
                        self.put(link, &with_end(&line));
                    }
                }
                Act::Close => self.close(link),
            }
        }
        // Until the next call nothing is wanted: that time counts for no dead line.
        let _ = self
            .session
            .step(Want::Nothing, self.now, &mut settled, &mut line);
        if is_sent {
            outcome.or(Some(Outcome::Lost))
        } else {
            None
        }
    }

    // Reads the clock; if it can't be read, the moment read last counts.
    fn look<L: Link>(&mut self, link: &mut L) {
        if let Ok(moment) = link.now() {
            self.now = moment.elapsed;
        }
    }

    // Makes a connection.
    fn connect<L: Link>(&mut self, link: &mut L) {
        let made = link.open();
        self.look(link);
        match made {
            Ok(()) => self.session.opened(self.now),
            Err(_) => self.session.closed(self.now),
        }
    }

    // Closes the connection: half a line is discarded with it.
    fn close<L: Link>(&mut self, link: &mut L) {
        link.close();
        self.look(link);
        self.assembler = Assembler::new();
        self.session.closed(self.now);
    }

    // Writes these bytes.
    fn put<L: Link>(&mut self, link: &mut L, bytes: &[u8])
        requires { 0 < length bytes.now }
    {
        match link.put(bytes) {
            Ok(()) => self.look(link),
            Err(_) => self.close(link),
        }
    }

    // Reads until this moment at most. Returns how the request for this target ended, if what came ended it.
    fn read<L: Link>(
        &mut self,
        link: &mut L,
        until: u64,
        target: u32,
        settled: &mut ArrayVec<Settlement<Asked>, WINDOW>,
    ) -> Option<Outcome> {
        let mut buf = [0; 256];
        match link.read(&mut buf, until.saturating_sub(self.now)) {
            Came::Bytes(n, moment) => {
                self.now = moment.elapsed;
                self.session.came(self.now);
                self.hear(&buf[..n], target, settled)
            }
            Came::Silence(moment) => {
                self.now = moment.elapsed;
                None
            }
            _ => {
                self.close(link);
                None
            }
        }
    }

    // Hears the lines of a piece. Returns how the request for this target ended, if one of them ended it.
    fn hear(
        &mut self,
        piece: &[u8],
        target: u32,
        settled: &mut ArrayVec<Settlement<Asked>, WINDOW>,
    ) -> Option<Outcome> {
        let mut cut = Line::new();
        let (mut left, mut outcome) = (piece, None);
        for _ in 0..piece.len() {
            let (used, frame) = self.assembler.next(left, &mut cut);
            left = bytes_from(left, used);
            if let Lent::Line(line) = frame {
                self.session.hear(line, settled);
                // The request was sent last, so it is settled last.
                if let Some(settlement) = settled.pop() {
                    if settlement.target == target {
                        outcome = Some(settlement.outcome);
                    }
                }
            }
        }
        outcome
    }
}
