//! How far a session is with its connections: its phase, its moments and its counts, beside the exchange.

ghost use Rattle.std.specs.Prelude.{◌≡◌, true, if◌then◌else◌, nat_eq};
ghost use Rattle.gc_session.specs.Sessions.{new_standing, is_up, timed, attended, quieted, phase_cleared, restarted, unconnected, connected, met, sign_on_noted, requested, phase_anew, met_in};
ghost use Rattle.gc_session.specs.Exchange.{later};

use crate::exchange::{Exchange, later};
use crate::settings::{Settings, Want};

/// Whether a session has a connection, and what it may do with that.
#[derive(Clone, Copy, PartialEq, Eq)]
pub enum Phase {
    /// Without a connection, and one may be made.
    Down,
    /// Without a connection, in the pause before the next one.
    Pausing,
    /// A connection was made; a line feed is to be sent on it, which ends a request that was cut off before.
    Clearing,
    /// What comes is discarded until the line is quiet.
    Draining,
    /// Requests are sent, and their replies are heard.
    Ready,
}

/// How far a session is.
#[derive(Drop)]
pub struct Standing {
    pub phase: Phase,
    /// The last moment that the session was told.
    pub moment: u64,
    /// The longest wait of a request since nothing was outstanding, at least the timeout of the settings.
    pub patience: u64,
    /// How many times a connection was lost, none could be made, or the session resynchronized. What was sent at one number, and is sent at
    /// the same one, is sent over one connection after one synchronization.
    pub stretch: u64,
    /// How many sign-ons came since the first request was asked.
    pub sign_ons: u64,
    /// Whether a request was asked.
    pub has_asked: bool,
    /// Since when nothing is wanted; `None`: something is. This time counts for no dead line.
    pub rests: Option<u64>,
    /// Whether the caller was to read since what came last on this connection: only then is the line known to be quiet.
    pub listened: bool,
    pub exchange: Exchange,
}

impl Phase {
    /// Whether there is a connection.
    pub fn is_up(self) -> bool
        ensures { result ≡ is_up self }
    {
        match self {
            Phase::Down => false,
            Phase::Pausing => false,
            Phase::Clearing => true,
            Phase::Draining => true,
            Phase::Ready => true,
        }
    }
}

impl Standing {
    /// A session's start: without a connection, and nothing has happened.
    pub fn new(settings: &Settings) -> Standing
        ensures { result ≡ new_standing settings.now }
    {
        Standing {
            phase: Phase::Down,
            moment: 0,
            patience: settings.timeout,
            stretch: 0,
            sign_ons: 0,
            has_asked: false,
            rests: None,
            listened: false,
            exchange: Exchange::new(),
        }
    }

    // Notes what is wanted at the moment `now`: the time in which nothing is counts for no dead line.
    pub(crate) fn attend(&mut self, want: Want, now: u64)
        ensures { self.new ≡ attended want now self.old }
    {
        match want {
            Want::Nothing => {
                if self.rests.is_none() {
                    self.rests = Some(now);
                }
            }
            _ => {
                if let Some(since) = self.rests {
                    let rested = now.saturating_sub(since);
                    self.exchange.alive = later(self.exchange.alive, rested);
                    self.listened = false;
                }
                self.rests = None;
            }
        }
    }

    // Notes a moment: a pause and the quiet time go on.
    pub(crate) fn pass(&mut self, now: u64)
        ensures { self.new ≡ timed now self.old }
    {
        self.moment = now;
        self.exchange.pass_moment(now);
    }

    // Ends a pause that was long enough, or a draining in which nothing came for the quiet time.
    pub(crate) fn end_quiet_phase(&mut self, settings: &Settings)
        ensures { self.new ≡ quieted settings.now self.old }
    {
        match self.phase {
            Phase::Pausing => {
                if self.exchange.is_past(self.exchange.pause, self.moment) {
                    self.phase = Phase::Down;
                }
            }
            Phase::Draining => {
                if self.listened && self.exchange.is_past(settings.quiet, self.moment) {
                    self.phase = Phase::Ready;
                    self.exchange.end_drain(self.moment);
                }
            }
            _ => {}
        }
    }

    // Notes that the line feed of a new connection is sent: the connection is drained next, unless a synchronization goes on with it, and the
    // quiet time counts from now.
    pub(crate) fn note_cleared(&mut self)
        ensures { self.new ≡ phase_cleared self.old }
    {
        self.phase = if self.exchange.has_begun() {
            Phase::Draining
        } else {
            Phase::Ready
        };
        self.listened = false;
        self.exchange.note_cleared();
        self.exchange.since = self.moment;
    }

    // Notes that a request is sent, which waits for `wait` milliseconds.
    pub(crate) fn note_request(&mut self, wait: u64)
        ensures { self.new ≡ requested wait self.old }
    {
        self.exchange.note_request(self.moment);
        self.patience = self.patience.max(wait);
        self.has_asked = true;
    }

    // Has a line feed come first, if there is a connection.
    pub(crate) fn clear_anew(&mut self)
        ensures { self.new ≡ record self.old { phase = phase_anew self.old.phase } }
    {
        if self.phase.is_up() {
            self.phase = Phase::Clearing;
        }
    }

    // Has the null procedure that was asked last sent again at once.
    pub(crate) fn ask_again(&mut self)
        ensures { self.new ≡ record self.old { stretch = later self.old.stretch 1; exchange = record self.old.exchange { again = 0 } } }
    {
        self.stretch = later(self.stretch, 1);
        self.exchange.again = 0;
    }

    // Notes that something came at the moment `now`, or that a connection ended: the quiet time, or a pause, counts from now.
    fn meet(&mut self, now: u64)
        ensures { self.new ≡ met now self.old }
    {
        self.moment = now;
        self.listened = false;
        self.exchange.read_moment(now);
    }

    // Notes that bytes came at the moment `now`: without a connection they count for nothing.
    pub(crate) fn take(&mut self, now: u64)
        ensures { self.new ≡ met_in (is_up self.old.phase) now self.old }
    {
        if self.phase.is_up() {
            self.meet(now);
        } else {
            self.pass(now);
        }
    }

    // Notes whether nothing is outstanding any more: the longest wait so far counts no more then.
    pub(crate) fn note_waiting(&mut self, waiting: usize, settings: &Settings)
        ensures { self.new ≡ record self.old { patience = if nat_eq waiting 0 then settings.now.timeout else self.old.patience } }
    {
        if waiting == 0 {
            self.patience = settings.timeout;
        }
    }

    // Notes that a connection was made: its line feed comes next.
    pub(crate) fn connect(&mut self, now: u64)
        ensures { self.new ≡ connected now self.old }
    {
        self.pass(now);
        self.phase = Phase::Clearing;
    }

    // Notes that a connection ended, or couldn't be made: the session pauses.
    pub(crate) fn disconnect(&mut self, settings: &Settings, now: u64)
        ensures { self.new ≡ unconnected settings.now now self.old }
    {
        self.meet(now);
        self.exchange.double_pause(settings.quiet.max(1));
        self.phase = Phase::Pausing;
        self.stretch = later(self.stretch, 1);
    }

    // Notes that the session synchronizes anew.
    pub(crate) fn renew(&mut self, settings: &Settings)
        ensures { self.new ≡ restarted settings.now self.old }
    {
        self.patience = settings.timeout;
        let asked = self.exchange.asked;
        self.exchange.renew(asked);
        self.stretch = later(self.stretch, 1);
    }

    // Notes whether a line had a sign-on in it: it calls for a synchronization, unless one goes on.
    pub(crate) fn note_sign_on(&mut self, is_sign_on: bool)
        ensures { self.new ≡ sign_on_noted is_sign_on self.old }
    {
        let begun = self.exchange.has_begun();
        self.exchange.note_doubt(is_sign_on && begun);
        if is_sign_on && self.has_asked {
            self.sign_ons = later(self.sign_ons, 1);
        }
    }
}
