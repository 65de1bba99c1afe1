//! What each act does to how far a station is. Moments are by the clock for deadlines, and times in milliseconds, unless said otherwise.

ghost use Rattle.std.specs.Prelude.{◌≡◌, ◌≤◌, length};
ghost use Rattle.gc_station.specs.Progressing.{still_prepares, turned, moment_set, moment_noted, moment_noted_meanwhile, cycle_start, lateness, is_missed_at, due_of, cycle_begun, advanced, unsent_at, failing, opened, is_finished, is_idle, is_spared, phase_again, pause_lengthened, after_failure, cleared, request_noted, null_sent, resynchronized, line_synchronizing, sent, early_after, bytes_noted, pause_ended, drained, quieted, time_passed, silent, early_noted, ended_for, closed, is_over, loses_all, next_attempt, setup_restarted, setup_sent, gives_back};

use crate::cause::Cause;
use crate::plan::Plan;
use crate::progress::{Phase, Progress, Until, Upcoming, Waiting};
use gc_links::Moment;
use gc_session::later;

// Whether the cycle counts as done early after a read. A read `Until::Due` shows that the cycle was done early, because only
// after a done cycle is there such a read, or before the first one is due. After any other read the cycle counts as it did before
// (`early`).
fn early_after(until: Until, early: bool) -> bool
    ensures { result ≡ early_after until early }
{
    match until {
        Until::Due => true,
        Until::Limit => early,
    }
}

impl Progress {
    // Takes one of the turns that are left. The close for used-up turns, which is made when none is left, takes none.
    pub(crate) fn take_turn(&mut self)
        ensures { self.new ≡ turned self.old }
    {
        self.turns = self.turns.saturating_sub(1);
    }

    // Sets the moment read last, leaving out what that changes of the exchange. Where the clock went back, the cycle is taken to have begun
    // now at the latest, so that the next one isn't put off. If the moment asks for the end of the run, that stays asked for.
    fn set_moment(&mut self, moment: Moment)
        ensures { self.new ≡ moment_set moment self.old }
    {
        self.moment = moment;
        self.began = self.began.min(moment.elapsed);
        self.clock_due = false;
        self.stops = self.stops || moment.stops;
    }

    // Notes a moment read on the link: a pause and the quiet time count from now. (After a read that gave nothing they go on, as
    // `pass_time` notes.)
    pub(crate) fn note_moment(&mut self, moment: Moment)
        ensures { self.new ≡ moment_noted moment self.old }
    {
        self.set_moment(moment);
        self.exchange.read_moment(moment.elapsed);
    }

    // Notes a moment that was read to begin a cycle, to record commands or leave them out, or to resynchronize: as `note_moment` does,
    // but a pause and the quiet time go on, as an overdue cycle is abandoned meanwhile.
    pub(crate) fn note_moment_meanwhile(&mut self, moment: Moment)
        ensures { self.new ≡ moment_noted_meanwhile moment self.old }
    {
        self.set_moment(moment);
        self.exchange.pass_moment(moment.elapsed);
    }

    // The moment that counts as the beginning of a cycle that is begun at `moment`: that moment where cycles have no due moment;
    // otherwise the moment at which the cycle was due, or `moment` if that is earlier.
    fn cycle_start(&self, plan: &Plan, moment: Moment) -> u64
        ensures { result ≡ cycle_start plan.now moment self.now }
    {
        if plan.every == 0 {
            moment.elapsed
        } else {
            self.due_at().min(moment.elapsed)
        }
    }

    // How late a cycle begins that is begun at `moment`: how long before that it counts as begun (`cycle_start`).
    fn lateness(&self, plan: &Plan, moment: Moment) -> u64
        ensures { result ≡ lateness plan.now moment self.now }
    {
        moment
            .elapsed
            .saturating_sub(self.cycle_start(plan, moment))
    }

    // Whether a cycle that would begin at this moment is missed: the cycle after it is due by then. If cycles have no due moments
    // (`every` is 0), none is missed.
    fn is_missed_at(&self, plan: &Plan, moment: Moment) -> bool
        ensures { result ≡ is_missed_at plan.now moment self.now }
    {
        let late = self.lateness(plan, moment);
        plan.every > 0 && plan.every <= late
    }

    // When a cycle that begins at this moment was due, in milliseconds since 1970-01-01, UTC: as much before `moment` as by the clock
    // for deadlines, at the earliest 0. (`due_at` is the due moment of the next cycle, by the clock for deadlines.)
    pub(crate) fn due_of(&self, plan: &Plan, moment: Moment) -> u64
        ensures { result ≡ due_of plan.now moment self.now }
    {
        moment.utc.saturating_sub(self.lateness(plan, moment))
    }

    // Begins a cycle of `count` commands at this moment; `next` is of the first of them. If the cycle is missed, none of them is sent. The
    // file by which somebody asks for a cycle counts from now on as it is at this moment.
    pub(crate) fn begin_cycle(&mut self, plan: &Plan, count: usize, next: Upcoming, moment: Moment)
        ensures { self.new ≡ cycle_begun plan.now count next moment self.old }
    {
        let began = self.cycle_start(plan, moment);
        let missed = self.is_missed_at(plan, moment);
        let due = self.due_of(plan, moment);
        let period = self.next_period(plan, moment);
        self.note_moment_meanwhile(moment);
        self.began = began;
        self.period = period;
        self.touched = moment.touched;
        self.due = due;
        self.missed = missed;
        self.early = false;
        self.left = self.left.saturating_sub(1);
        self.unsent = count;
        self.next_is_chained = missed || next.is_chained;
        self.next_others = next.others;
        self.next_needs = next.needs;
        self.chain_unbroken = false;
        self.preparing = self.still_prepares(false);
    }

    // Whether the setup is still to be done once a cycle began or went on: it is if it was (`preparing`) and nothing of it was sent,
    // but no longer once a command of a cycle was sent (`were_sent`).
    fn still_prepares(&self, were_sent: bool) -> bool
        ensures { result ≡ still_prepares were_sent self.now }
    {
        (!were_sent && self.preparing) && self.prepared == 0
    }

    // The moment in the record of a command that isn't sent, in milliseconds since 1970-01-01, UTC: where its cycle is missed, the
    // moment at which the cycle was due; otherwise `moment`.
    pub(crate) fn unsent_at(&self, moment: Moment) -> u64
        ensures { result ≡ unsent_at moment self.now }
    {
        if self.missed { self.due } else { moment.utc }
    }

    // Notes that the next `count` commands of the cycle had their turn; `next` is of the command after them. `were_sent`: whether
    // they were sent; otherwise they were recorded without being sent, or left out.
    pub(crate) fn advance(&mut self, count: usize, next: Upcoming, were_sent: bool)
        ensures { self.new ≡ advanced count next were_sent self.old }
    {
        self.unsent = self.unsent.saturating_sub(count);
        self.next_is_chained = next.is_chained;
        self.next_others = next.others;
        self.next_needs = next.needs;
        self.chain_unbroken = were_sent;
        self.preparing = self.still_prepares(were_sent);
    }

    // Notes the cause of a failure: a connection is to be closed for it next, and without a connection the run is over for it.
    pub(crate) fn fail(&mut self, cause: Cause)
        ensures { self.new ≡ failing cause self.old }
    {
        self.phase = if self.phase.is_up() {
            Phase::Closing(cause)
        } else {
            Phase::Over(cause)
        };
    }

    // Notes that a connection was made: the line feed that clears it is sent next.
    pub(crate) fn note_open(&mut self)
        ensures { self.new ≡ opened self.old }
    {
        self.phase = Phase::Clearing;
    }

    // Whether no connection is wanted: the cycle was done early, and the next one isn't wanted yet.
    pub(crate) fn is_idle(&self, plan: &Plan) -> bool
        ensures { result ≡ is_idle plan.now self.now }
    {
        self.early && !self.is_wanted(plan)
    }

    // Whether the next attempt to connect takes no try: a connection was closed while none is wanted. An attempt that failed
    // always takes one.
    fn is_spared(&self, plan: &Plan, cause: Cause) -> bool
        ensures { result ≡ is_spared plan.now cause self.now }
    {
        match cause {
            Cause::Open => false,
            _ => self.is_idle(plan),
        }
    }

    // The phase after the loss of a connection, or after an attempt that failed, while `count` commands are outstanding: the
    // run is done; or it tries again, if a try is left or none is needed (`is_spared`); or it is over for this cause.
    fn phase_again(&self, plan: &Plan, count: usize, cause: Cause) -> Phase
        ensures { result ≡ phase_again plan.now count cause self.now }
    {
        if self.is_finished(count) {
            Phase::Over(Cause::Done)
        } else if self.is_spared(plan, cause) || self.tries > 0 {
            Phase::Pausing
        } else {
            Phase::Over(cause)
        }
    }

    // Sets the length of the next pause: twice the last one's, up to a minute, or the last pause itself where no try is taken
    // (`is_spared`); but never below the quiet time.
    fn lengthen_pause(&mut self, plan: &Plan, cause: Cause)
        ensures { self.new ≡ pause_lengthened plan.now cause self.old }
    {
        if self.is_spared(plan, cause) {
            self.exchange.pause = self.exchange.pause.max(plan.quiet);
        } else {
            self.exchange.double_pause(plan.quiet);
        }
    }

    // The number of the next attempt of the setup: one more than the last one's, if something of that was sent; else the same.
    fn next_attempt(&self) -> u64
        ensures { result ≡ next_attempt self.now }
    {
        if self.prepared == 0 {
            self.attempt
        } else {
            later(self.attempt, 1)
        }
    }

    // Notes that the setup, if there is one, is to be sent again from its first command on.
    fn restart_setup(&mut self, plan: &Plan)
        ensures { self.new ≡ setup_restarted plan.now self.old }
    {
        self.attempt = self.next_attempt();
        self.preparing = plan.setup > 0;
        self.prepared = 0;
    }

    // Notes that a connection was closed, or couldn't be made, with `count` commands outstanding: the phase is `phase_again`, the
    // pause that of `lengthen_pause`, and a try is taken unless the next attempt is spared. The setup, if there is one, is sent again on the
    // next connection.
    pub(crate) fn note_unconnected(&mut self, plan: &Plan, count: usize, cause: Cause)
        ensures { self.new ≡ after_failure plan.now count cause self.old }
    {
        let spared = self.is_spared(plan, cause);
        self.lengthen_pause(plan, cause);
        self.phase = self.phase_again(plan, count, cause);
        self.clock_due = true;
        self.chain_unbroken = false;
        if !spared {
            self.tries = self.tries.saturating_sub(1);
        }
        self.restart_setup(plan);
    }

    // Notes that the line feed was sent: the connection is drained next, unless a synchronization goes on with it.
    pub(crate) fn note_cleared(&mut self)
        ensures { self.new ≡ cleared self.old }
    {
        self.phase = if self.has_begun() {
            Phase::Draining
        } else {
            Phase::Ready
        };
        self.exchange.note_cleared();
        self.clock_due = true;
    }

    // Notes that a request was sent.
    pub(crate) fn note_request(&mut self)
        ensures { self.new ≡ request_noted self.old }
    {
        self.exchange.note_request(self.moment.elapsed);
        self.clock_due = true;
    }

    // Notes that the null procedure of the first id that isn't answered was sent: it is sent again at its deadline.
    pub(crate) fn note_null(&mut self, plan: &Plan)
        ensures { self.new ≡ null_sent plan.now self.old }
    {
        self.exchange.note_null(self.moment.elapsed, plan.deadline);
        self.clock_due = true;
    }

    // Notes that the station resynchronizes at this moment: no chain goes on, and the setup is sent again. If nothing is sent before the
    // next cycle is due, the time after which the line is dead begins with the first null procedure.
    pub(crate) fn resynchronize(&mut self, plan: &Plan, moment: Moment)
        ensures { self.new ≡ resynchronized plan.now moment self.old }
    {
        self.note_moment_meanwhile(moment);
        let asked = self.exchange.asked && self.goes_on(plan);
        self.exchange.renew(asked);
        self.chain_unbroken = false;
        self.restart_setup(plan);
    }

    // Hears a line, of 512 bytes at most, while the station synchronizes.
    pub(crate) fn hear_synchronizing(&mut self, line: &[u8])
        requires { length line.now ≤ 512 }
        ensures { self.new ≡ line_synchronizing self.old line.now }
    {
        self.exchange.hear_synchronizing(self.moment.elapsed, line);
    }

    // Notes that the cycle's next command was sent; `next` is of the command after it.
    pub(crate) fn note_sent(&mut self, next: Upcoming)
        ensures { self.new ≡ sent next self.old }
    {
        self.note_request();
        self.advance(1, next, true);
    }

    // Notes that the next command of the setup was sent.
    pub(crate) fn note_setup(&mut self, plan: &Plan)
        ensures { self.new ≡ setup_sent plan.now self.old }
    {
        self.note_request();
        self.prepared = self.prepared.saturating_add(1).min(plan.setup);
        self.chain_unbroken = false;
    }

    // Notes that a read gave bytes: `before` commands were outstanding before it, and `after` counts what is outstanding now.
    // If a command was settled, and the setup, if there is one, is over (`preparing` is false), all tries are available again, and
    // the next pause is the quiet time. `until` is what the read waited for: after `Until::Due` the cycle counts as done early.
    pub(crate) fn note_bytes(&mut self, plan: &Plan, until: Until, before: usize, after: Waiting)
        ensures { self.new ≡ bytes_noted plan.now until before after self.old }
    {
        if after.commands < before && !self.preparing {
            self.tries = plan.retries;
            self.exchange.pause = 0;
        }
        self.early = early_after(until, self.early);
    }

    // Ends a pause that was long enough, if a connection is wanted: the next action connects.
    fn end_pause(&mut self, plan: &Plan)
        ensures { self.new ≡ pause_ended plan.now self.old }
    {
        let pause = self.exchange.pause;
        if self.exchange.is_past(pause, self.moment.elapsed) && !self.is_idle(plan) {
            self.phase = Phase::Down;
        }
    }

    // Ends the draining of a connection that was quiet for long enough: requests may be sent.
    fn end_drain(&mut self)
        ensures { self.new ≡ drained self.old }
    {
        self.phase = Phase::Ready;
        self.exchange.end_drain(self.moment.elapsed);
    }

    // Ends a pause that was long enough, if a connection is wanted, or a draining in which nothing came for the quiet time. In any
    // other phase nothing changes.
    fn end_quiet_phase(&mut self, plan: &Plan)
        ensures { self.new ≡ quieted plan.now self.old.phase self.old }
    {
        match self.phase {
            Phase::Pausing => self.end_pause(plan),
            Phase::Draining => {
                if self.is_quiet(plan) {
                    self.end_drain();
                }
            }
            _ => {}
        }
    }

    // Notes the moment after a read that gave nothing: a pause and the quiet time go on. `until` is what the read waited for: after
    // `Until::Due` the cycle counts as done early (`early_after`).
    fn pass_time(&mut self, until: Until, moment: Moment)
        ensures { self.new ≡ time_passed until moment self.old }
    {
        self.note_moment_meanwhile(moment);
        self.early = early_after(until, self.early);
    }

    // Notes that a read gave nothing until this moment, which may end a pause or a draining.
    pub(crate) fn note_silence(&mut self, plan: &Plan, until: Until, moment: Moment)
        ensures { self.new ≡ silent plan.now until moment self.old }
    {
        self.pass_time(until, moment);
        self.end_quiet_phase(plan);
    }

    // Notes whether the cycle was done early: a cycle has begun, none of its commands is left, no command is outstanding (`count` is
    // how many are), and the next cycle isn't due yet. A cycle that was noted as done early stays so until the next one begins.
    pub(crate) fn note_early(&mut self, plan: &Plan, count: usize)
        ensures { self.new ≡ early_noted plan.now count self.old }
    {
        self.early = self.early
            || (count == 0 && self.unsent == 0 && !self.is_due(plan) && self.left < plan.cycles);
    }

    // Notes that the connection, if there was one, was closed: for `Done`, `Clock`, `Turns`, `Stale` and `Stopped` the run is
    // over; for any other cause it goes on, or is over, as `note_unconnected` says.
    pub(crate) fn close(&mut self, plan: &Plan, waiting: Waiting, cause: Cause)
        ensures { self.new ≡ closed plan.now waiting cause self.old }
    {
        match cause {
            Cause::Done | Cause::Clock | Cause::Turns | Cause::Stale | Cause::Stopped => {
                self.end(cause);
            }
            _ => self.note_unconnected(plan, waiting.commands, cause),
        }
    }

    // Ends the run for this cause: no other connection is made.
    fn end(&mut self, cause: Cause)
        ensures { self.new ≡ ended_for cause self.old }
    {
        self.phase = Phase::Over(cause);
        self.chain_unbroken = false;
    }

    // Whether no act follows: the run is over, or there is no connection and no turn is left.
    fn is_over(&self) -> bool
        ensures { result ≡ is_over self.now }
    {
        match self.phase {
            Phase::Over(_) => true,
            _ => !self.phase.is_up() && self.turns == 0,
        }
    }

    // Whether all outstanding requests, if any, are lost: the station synchronizes, or no act follows.
    pub(crate) fn loses_all(&self) -> bool
        ensures { result ≡ loses_all self.now }
    {
        !self.has_begun() || self.is_over()
    }
}
