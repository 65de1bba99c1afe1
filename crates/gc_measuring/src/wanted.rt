//! Since when a station has wanted an answer that doesn't come. This time goes on while connections are closed and made again,
//! because neither is an answer.

ghost use Rattle.std.specs.Prelude.{◌≡◌};
ghost use Rattle.gc_measuring.specs.Wanted.{after_answer, after_want, after_look, after_cycle, after_unsent, after_loss, lasting, has_lasted};

use gc_links::Moment;
use gc_station::LinkHealth;

/// Since when an answer is wanted.
#[derive(Clone, Copy)]
pub(crate) struct Wanted {
    // The moment from which on an answer has been wanted. `None`: no answer is wanted.
    pub since: Option<Moment>,
    // Whether an answer came since the last cycle ended, or since the start if none has ended.
    pub heard: bool,
    // Whether an answer has been wanted for so long that a message on that is due, or was written.
    pub overdue: bool,
    // Whether a request of a command had no answer in time since an answer has been wanted.
    pub lost: bool,
}

impl Wanted {
    /// No answer is wanted yet.
    pub(crate) fn new() -> Wanted {
        Wanted {
            since: None,
            heard: false,
            overdue: false,
            lost: false,
        }
    }

    /// Notes that a command was answered: no answer is wanted.
    pub(crate) fn hear(&mut self)
        ensures { self.new ≡ after_answer }
    {
        self.since = None;
        self.heard = true;
        self.overdue = false;
        self.lost = false;
    }

    /// Notes that a command was sent, and had no answer in time.
    pub(crate) fn lose(&mut self)
        ensures { self.new ≡ after_loss self.old }
    {
        self.lost = true;
    }

    /// Notes that a command wasn't sent for want of a value of a file. The station doesn't wait for the instrument then: unless a
    /// command before was sent and had no answer, no answer is wanted.
    pub(crate) fn note_unsent(&mut self)
        ensures { self.new ≡ after_unsent self.old }
    {
        if !self.lost {
            self.since = None;
            self.overdue = false;
        }
    }

    /// Notes by the health of the link at this moment whether an answer is wanted. If there is no connection, if a new connection
    /// isn't quiet yet, or if a request has no reply, an answer is wanted from this moment on, unless one was wanted already.
    /// `Idle` ends the cycle, and `Fine` changes nothing.
    pub(crate) fn look(&mut self, health: LinkHealth, moment: Moment)
        ensures { self.new ≡ after_look health moment self.old }
    {
        match health {
            LinkHealth::Fine => {}
            LinkHealth::Idle => self.end_cycle(),
            LinkHealth::Unconnected => self.want(moment),
            LinkHealth::Unquiet => self.want(moment),
            LinkHealth::Unheard => self.want(moment),
        }
    }

    // Notes that a cycle has ended: nothing of it is left to be asked. If it had an answer, none is wanted until the next cycle
    // asks; but a want that is overdue stays until an answer comes.
    fn end_cycle(&mut self)
        ensures { self.new ≡ after_cycle self.old }
    {
        if self.heard && !self.overdue {
            self.since = None;
            self.lost = false;
        }
        self.heard = false;
    }

    // Notes that an answer is wanted from this moment on, unless one was wanted already.
    fn want(&mut self, moment: Moment)
        ensures { self.new ≡ after_want moment self.old }
    {
        self.since = self.since.or(Some(moment));
    }

    /// Since when an answer is wanted, if at `elapsed`, in milliseconds of the clock for deadlines, that is at least `least`
    /// milliseconds ago. `None`: it isn't, or no answer is wanted.
    pub(crate) fn lasting(&self, elapsed: u64, least: u64) -> Option<Moment>
        ensures { result ≡ lasting elapsed least self.now.since }
    {
        match self.since {
            Some(since) if has_lasted(since.elapsed, elapsed, least) => Some(since),
            _ => None,
        }
    }
}

/// Whether at least `least` milliseconds passed from `from` to `elapsed`, both in milliseconds of the clock for deadlines. If
/// that clock went back, none passed.
pub(crate) fn has_lasted(from: u64, elapsed: u64, least: u64) -> bool
    ensures { result ≡ has_lasted from elapsed least }
{
    elapsed.saturating_sub(from) >= least
}
