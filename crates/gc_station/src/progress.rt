//! Progress: how far a station is. What it does next is decided in `deciding.rt`, by looking at nothing else.

ghost use Rattle.std.specs.Prelude.{◌≡◌};
ghost use Rattle.gc_station.specs.Deciding.{is_up, is_unquiet, may_abandon, is_quiet, has_begun};
ghost use Rattle.gc_station.specs.Keeping.{reads_clock_alone};
ghost use Rattle.gc_station.specs.Progressing.{at_start};
ghost use Rattle.gc_station.specs.Model.{is_heard};

use crate::cause::Cause;
use crate::plan::Plan;
use gc_links::Moment;
use gc_session::Exchange;
use gc_texts::Needs;
use gc_values::no_values;

/// The phase of a station: whether it has a connection, and what it may do with that.
#[derive(Clone, Copy)]
pub(crate) enum Phase {
    /// Without a connection, and one is to be made.
    Down,
    /// Without a connection, and one is to be made after a pause.
    Pausing,
    /// A connection was made; a line feed is to be sent on it, which ends a request that was cut off before.
    Clearing,
    /// What comes is discarded until the line is quiet.
    Draining,
    /// Requests are sent, and their replies are heard.
    Ready,
    /// The connection is to be closed.
    Closing(Cause),
    /// Without a connection, and none will be made.
    Over(Cause),
}

/// What a station does next. Each but `Stop` is one call of its link.
#[derive(Clone, Copy)]
pub(crate) enum Action {
    /// To read the clock.
    ReadClock,
    /// To read the clock, and to resynchronize: all outstanding requests are lost.
    Renew,
    /// To read the clock, and to begin a cycle.
    Begin,
    /// To make a connection.
    Open,
    /// To send a lone line feed.
    Clear,
    /// To send the null procedure of the first id of the synchronization that isn't answered, for the first time or again.
    Ask,
    /// To send the next command of the setup.
    Prepare,
    /// To send the next command of the cycle.
    Send,
    /// To read the clock, and to write the next command down without sending it: it may not be sent, or a value that it takes of a file
    /// isn't there.
    Skip,
    /// To read the clock, and to leave out the further attempt that the next command begins, and those of its chain after it; or the next
    /// command alone, if it rests in this cycle.
    Pass,
    /// To send a null procedure after requests that have all timed out: its reply settles them. Or to send one before a command,
    /// if none of the seven requests before the command is a call of the table that a reply ended: so after a synchronization.
    Flush,
    /// To read.
    Read(Until),
    /// To close the connection. For `Stale` and `Stopped` also if there is none: then only the run ends.
    Close(Cause),
    /// To do nothing any more.
    Stop(Cause),
}

/// When a read that brings nothing ends. It ends earlier if the run becomes stale, or the longest time-out of a read is over.
#[derive(Clone, Copy)]
pub(crate) enum Until {
    /// Until something may have to be done: a deadline is reached, a pause or a drain is over, the null procedure of a
    /// synchronization times out, or the wait after a busy answer is over (`hold`).
    Limit,
    /// Until the next cycle is due, or a null procedure times out: no command of this cycle is left, and none is outstanding.
    Due,
}

/// How many requests are outstanding, and what a station keeps of the records that it wrote, but for their tally: `well` and
/// `listed` are those of its `Recorded`, and `fresh` is when the watched command was recorded last as answered well of which that is the
/// longest ago; the moment read last if nothing is watched.
#[derive(Clone, Copy)]
pub(crate) struct Waiting {
    /// All outstanding requests.
    pub all: usize,
    /// Those of `all` that haven't timed out.
    pub current: usize,
    /// Those of `all` that are commands, of a cycle or of the setup. The others are null procedures.
    pub commands: usize,
    pub well: bool,
    pub listed: bool,
    pub fresh: u64,
}

/// What a station notes of the next command of its cycle: whether it waits for those before it.
#[derive(Clone, Copy)]
pub(crate) struct Upcoming {
    /// Whether it is sent only once the command before it was answered well, or rests in its cycle, so that it isn't sent. In a missed
    /// cycle, in which none is sent, always `true`.
    pub is_chained: bool,
    /// If it begins a further attempt of its chain: how many commands this attempt and those after it have. 1 if it rests in its cycle.
    /// Else 0, also if there is no such command.
    pub others: usize,
    /// Which values of files its request takes; none if there is no such command.
    pub needs: Needs,
}

/// How far a station is: its phase, its exchange with the instrument, the last moment read, and where it is in its setup, its cycles and
/// its tries. Moments are by the clock for deadlines, and times in milliseconds, unless a field says otherwise. A moment is 0 as long as
/// there is none yet.
#[derive(Drop)]
pub(crate) struct Progress {
    pub phase: Phase,
    /// How far its exchange with the instrument is: the synchronization, and when a request may be sent. What it notes of a connection is of
    /// the last one until a new one is cleared. A resynchronization between two cycles counts as if no request had been sent since the last
    /// reply line; and its pause counts as 0 once all tries were given back (`note_bytes`).
    pub exchange: Exchange,
    /// Whether the clock is to be read next: something was sent, or a connection was closed or couldn't be made, since `moment`
    /// was read.
    pub clock_due: bool,
    /// The last moment read on the link.
    pub moment: Moment,
    /// The moment that counts as the beginning of the cycle: its due moment, or the one at which it began if it has none, or the
    /// first began before it was due; an earlier one if the clock went back past it since. 0 before the first cycle.
    pub began: u64,
    /// How long after `began` the next cycle is due. Before the first cycle, where `began` is the start of the clock, it is when that is due.
    pub period: u64,
    /// When the file by which somebody asks for a cycle had been changed, as that counted when the cycle began: in milliseconds since
    /// 1970, 0 if there was none. If it was changed at another time by the moment read last, a cycle is asked for.
    pub touched: u64,
    /// Whether the cycle was done before the next was due.
    pub early: bool,
    /// When the cycle was due, in milliseconds since 1970-01-01, UTC.
    pub due: u64,
    /// Whether the cycle is missed: none of its commands is sent.
    pub missed: bool,
    /// How many cycles haven't begun.
    pub left: u64,
    /// How many commands of the cycle are left: neither sent, nor recorded without being sent, nor left out.
    pub unsent: usize,
    /// Whether the next of them is sent only once the command before it was answered well, or rests: it isn't of this cycle. In a missed
    /// cycle, in which none is sent, always `true`.
    pub next_is_chained: bool,
    /// If it begins a further attempt of its chain: how many commands this attempt and those after it have. 1 if it rests. Else 0.
    pub next_others: usize,
    /// Which values of files its request takes.
    pub next_needs: Needs,
    /// Whether the command before the next one was sent, and since then no connection was closed and the station didn't
    /// resynchronize; `false` at the beginning of a cycle.
    pub chain_unbroken: bool,
    /// How many tries to reconnect are left.
    pub tries: u32,
    /// How many turns are left: each act takes one.
    pub turns: u64,
    /// Whether there is a setup, and since the connection was made and the station synchronized no command of a cycle was sent, and, once
    /// something of the setup was sent, no cycle began, and no command of one was recorded without being sent, or left out.
    pub preparing: bool,
    /// How many commands of the setup were sent in this attempt.
    pub prepared: usize,
    /// Which attempt of the setup this is, or the next one if nothing of it was sent: counted from 1, over the whole run.
    pub attempt: u64,
    /// Whether the end of the run was asked for by a moment that was read.
    pub stops: bool,
}

impl Action {
    // Whether it only reads the clock: it sends nothing, reads nothing from the instrument, and opens and closes no connection.
    pub(crate) fn reads_clock_alone(self) -> bool
        ensures { result ≡ reads_clock_alone self }
    {
        match self {
            Action::ReadClock => true,
            Action::Renew => true,
            Action::Begin => true,
            Action::Skip => true,
            Action::Pass => true,
            _ => false,
        }
    }
}

impl Phase {
    // Whether there is a connection; in `Closing` it is still there.
    pub(crate) fn is_up(self) -> bool
        ensures { result ≡ is_up self }
    {
        match self {
            Phase::Down => false,
            Phase::Pausing => false,
            Phase::Clearing => true,
            Phase::Draining => true,
            Phase::Ready => true,
            Phase::Closing(_) => true,
            Phase::Over(_) => false,
        }
    }

    // Whether a connection was made that isn't quiet yet: it is being cleared, or drained.
    pub(crate) fn is_unquiet(self) -> bool
        ensures { result ≡ is_unquiet self }
    {
        match self {
            Phase::Down => false,
            Phase::Pausing => false,
            Phase::Clearing => true,
            Phase::Draining => true,
            Phase::Ready => false,
            Phase::Closing(_) => false,
            Phase::Over(_) => false,
        }
    }

    // Whether a cycle may be abandoned in this phase: the run isn't over, the connection isn't to be closed, and none was just made,
    // on which the line feed comes first.
    pub(crate) fn may_abandon(self) -> bool
        ensures { result ≡ may_abandon self }
    {
        match self {
            Phase::Down => true,
            Phase::Pausing => true,
            Phase::Clearing => false,
            Phase::Draining => true,
            Phase::Ready => true,
            Phase::Closing(_) => false,
            Phase::Over(_) => false,
        }
    }

    // Whether bytes that come are heard in this phase; in the others they are discarded.
    pub(crate) fn is_heard(self) -> bool
        ensures { result ≡ is_heard self }
    {
        match self {
            Phase::Down => false,
            Phase::Pausing => false,
            Phase::Clearing => false,
            Phase::Draining => false,
            Phase::Ready => true,
            Phase::Closing(_) => false,
            Phase::Over(_) => false,
        }
    }
}

impl Progress {
    // The progress of a station that has done nothing.
    pub(crate) fn at_start(plan: &Plan, max_turns: u64) -> Progress
        ensures { result ≡ at_start plan.now max_turns }
    {
        Progress {
            phase: Phase::Down,
            exchange: Exchange::new(),
            clock_due: false,
            moment: Moment {
                elapsed: 0,
                utc: 0,
                stops: false,
                touched: 0,
                values: no_values(),
            },
            began: 0,
            period: plan.first.min(plan.every),
            touched: 0,
            early: false,
            due: 0,
            missed: false,
            left: plan.cycles,
            unsent: 0,
            next_is_chained: false,
            next_others: 0,
            next_needs: Needs::none(),
            chain_unbroken: false,
            tries: plan.retries,
            turns: max_turns,
            preparing: plan.setup > 0,
            prepared: 0,
            attempt: 1,
            stops: false,
        }
    }

    // Whether the line was quiet for at least the plan's quiet time by the last moment that was read.
    pub(crate) fn is_quiet(&self, plan: &Plan) -> bool
        ensures { result ≡ is_quiet plan.now self.now }
    {
        self.exchange.is_past(plan.quiet, self.moment.elapsed)
    }

    // Whether the station has synchronized: each null procedure of its synchronization is answered.
    pub(crate) fn has_begun(&self) -> bool
        ensures { result ≡ has_begun self.now }
    {
        self.exchange.has_begun()
    }
}
