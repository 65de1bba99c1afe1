//! Pace: how long a read waits, what health of the link is reported, and which cycle is reported as overrun, because it wasn't
//! done in time. No record, and nothing that is sent, rests on these; records have the number of their cycle (`cycle`). Moments
//! are by the clock for deadlines, in milliseconds.

ghost use Rattle.std.specs.Prelude.{◌≡◌, ℕ, Option, unwrap_or};
ghost use Rattle.std.specs.Option.{option_to_list};
ghost use Rattle.std.specs.Io.KnownBytes.{Appends};
ghost use Rattle.gc_client.specs.Rule.{IsEarliest, deadlines};
ghost use Rattle.gc_station.specs.Marks.{commands_in};
ghost use Rattle.gc_station.specs.NextCommand.{cycles_begun, cycle_next};
ghost use Rattle.gc_station.specs.Pace.{out_of_time_at, retry_at, stale_at, longest_timeout, read_end_in, read_end_without_deadline, read_end, read_timeout, is_cycle_done, health_in, overrun};
ghost use Rattle.gc_station.specs.Progressing.{due_at};
ghost use Rattle.gc_station.specs.Watching.{fresh_of};

use crate::book::{Book, LinkHealth};
use crate::cause::Cause;
use crate::plan::Plan;
use crate::progress::{Action, Phase, Progress, Until};
use crate::station::Station;
use gc_session::later;

// The moment from which on the run is stale, if no answer of a good quality is recorded until then of the watched command that had none
// the longest; `u64::MAX` if it never is. `fresh` is when that command was recorded last as answered well.
fn stale_at(plan: &Plan, fresh: u64) -> u64
    ensures { result ≡ stale_at plan.now fresh }
{
    if plan.stale > 0 {
        later(fresh, plan.stale)
    } else {
        u64::MAX
    }
}

// How many milliseconds a read waits at most: a second if somebody may ask for the end of the run or for a cycle, else a minute.
fn longest_timeout(plan: &Plan) -> u64
    ensures { result ≡ longest_timeout plan.now }
{
    if plan.watched { 1_000 } else { 60_000 }
}

impl Progress {
    // The moment at which the next cycle is due. The first may begin at once, unless cycles begin by the clock; if it can't, it is due
    // here.
    pub(crate) fn due_at(&self) -> u64
        ensures { result ≡ due_at self.now }
    {
        later(self.began, self.period)
    }

    // The moment of the next attempt to connect: the end of the pause, or the moment at which a connection is wanted again
    // if that is later.
    fn retry_at(&self, plan: &Plan) -> u64
        ensures { result ≡ retry_at plan.now self.now }
    {
        let retry = self.exchange.past_at(self.exchange.pause);
        if self.is_idle(plan) {
            retry.max(self.due_at())
        } else {
            retry
        }
    }

    // The moment at which a read in this phase ends if nothing comes, leaving out the deadlines of the outstanding requests: at the
    // next attempt to connect (`retry_at`), at the end of a drain, or, while the station synchronizes, at the deadline of its null
    // procedure, or the end of the wait after a busy answer if that is later; otherwise `u64::MAX`, since only the deadlines of
    // requests matter.
    fn read_end_in_phase(&self, plan: &Plan) -> u64
        ensures { result ≡ read_end_in self.now.phase plan.now self.now }
    {
        match self.phase {
            Phase::Pausing => self.retry_at(plan),
            Phase::Draining => self.exchange.past_at(plan.quiet),
            _ => {
                if self.has_begun() {
                    u64::MAX
                } else {
                    self.exchange.asks_at()
                }
            }
        }
    }

    // As `read_end_in_phase`, except that a read that only waits for the next cycle (`Until::Due`) ends when that cycle is due.
    fn read_end_without_deadline(&self, plan: &Plan, until: Until) -> u64
        ensures { result ≡ read_end_without_deadline plan.now self.now until }
    {
        match until {
            Until::Due => self.due_at(),
            Until::Limit => self.read_end_in_phase(plan),
        }
    }

    // The moment at which a read ends if nothing comes: `read_end_without_deadline`, or the next deadline of a request if that is
    // earlier.
    fn read_end(&self, plan: &Plan, until: Until, deadline: Option<u64>) -> u64
        ensures { result ≡ read_end plan.now self.now until deadline }
    {
        let end = self.read_end_without_deadline(plan, until);
        match deadline {
            Some(deadline) => deadline.min(end),
            None => end,
        }
    }

    // The moment at which the cycle that began last is out of time, if cycles have due moments and it isn't yet; else `u64::MAX`.
    fn out_of_time_at(&self, plan: &Plan) -> u64
        ensures { result ≡ out_of_time_at plan.now self.now }
    {
        if plan.every > 0 && !self.is_out_of_time(plan) {
            later(later(self.began, plan.every), plan.every)
        } else {
            u64::MAX
        }
    }

    // The number of the cycle that began last, counted from 1; 0 before the first.
    pub(crate) fn cycle(&self, plan: &Plan) -> u64
        ensures { result ≡ cycles_begun plan.now self.now }
    {
        plan.cycles.saturating_sub(self.left)
    }

    // The number of the cycle that begins next.
    pub(crate) fn cycle_next(&self, plan: &Plan) -> u64
        ensures { result ≡ cycle_next plan.now self.now }
    {
        plan.cycles.saturating_sub(self.left.saturating_sub(1))
    }

    // The number of the cycle that began last, if it has overrun and that wasn't reported yet: it isn't missed, and it wasn't
    // done when the next one was due. `None` otherwise, and always before the first cycle, for the last cycle of all, and if
    // cycles have no due moments (`every` is 0). `reported` is the last cycle that was reported as overrun, 0 if none was.
    fn overrun(&self, plan: &Plan, reported: u64) -> Option<u64>
        ensures { result ≡ overrun plan.now self.now reported }
    {
        let has_overrun = !self.early
            && !self.missed
            && self.is_due(plan)
            && self.left > 0
            && plan.every > 0;
        if has_overrun && reported < self.cycle(plan) {
            Some(self.cycle(plan))
        } else {
            None
        }
    }
}

impl Station {
    // How many milliseconds the next read waits for bytes: until `read_end`, or until the run is stale or the cycle out of time if
    // that is earlier, but at least 1 and at most `longest_timeout`.
    pub(crate) fn read_timeout(&self, plan: &Plan, until: Until) -> u64
        ensures { (deadline : Option ℕ) × IsEarliest (deadlines self.now.client.ids.waiting) deadline
            × (result ≡ read_timeout plan.now self.now.progress (fresh_of self.now.progress.moment.elapsed self.now.recorded.fresh) until deadline) }
    {
        let deadline = self.client.next_deadline();
        self.progress
            .read_end(plan, until, deadline)
            .min(stale_at(plan, self.fresh()))
            .min(self.progress.out_of_time_at(plan))
            .saturating_sub(self.progress.moment.elapsed)
            .max(1)
            .min(longest_timeout(plan))
    }

    // The health of the link before the next act, as `LinkHealth` explains it. In the phase `Closing` it is `Unheard` if
    // `asked` says so, and else `Fine`.
    fn health(&self, plan: &Plan) -> LinkHealth
        ensures { result ≡ health_in self.now.progress.phase plan.now self.now.progress (commands_in self.now.marks.items) }
    {
        match self.progress.phase {
            Phase::Down | Phase::Pausing if self.progress.is_idle(plan) => LinkHealth::Idle,
            Phase::Down | Phase::Pausing => LinkHealth::Unconnected,
            Phase::Clearing | Phase::Draining => LinkHealth::Unquiet,
            _ if self.progress.exchange.asked => LinkHealth::Unheard,
            Phase::Ready if self.progress.has_begun() && self.is_done() => LinkHealth::Idle,
            _ => LinkHealth::Fine,
        }
    }

    // Whether no command of the cycle is left, as before the first cycle, and no command is outstanding, of a cycle or of the
    // setup.
    fn is_done(&self) -> bool
        ensures { result ≡ is_cycle_done self.now.progress (commands_in self.now.marks.items) }
    {
        self.progress.unsent == 0 && self.commands_waiting() == 0
    }

    // Reports to a book, if this action closes a stale run, which watched command was answered well the longest ago.
    fn report_unanswered<B: Book>(&self, book: &mut B, action: Action)
        ensures overruns { B.overruns book.new ≡ B.overruns book.old }
        ensures taken { B.taken book.new ≡ B.taken book.old }
        ensures failed { B.failed book.new ≡ B.failed book.old }
        ensures is_durable { B.is_durable book.new ≡ B.is_durable book.old }
        ensures form { B.text book.new ≡ B.text book.old }
    {
        if let Action::Close(Cause::Stale) = action {
            if let Some(watch) = self.recorded.fresh.oldest() {
                book.unanswered(watch);
            }
        }
    }

    // Reports to a book the health of the link before the next act, which performs `action`; at most once for a cycle, that it wasn't
    // done when the next was due; and, if the run ends as stale, by which command. `reported` is the last cycle that was reported as
    // not done, 0 if none was; the result is the last one after the call.
    pub(crate) fn report_to<B: Book>(
        &self,
        book: &mut B,
        plan: &Plan,
        action: Action,
        reported: u64,
    ) -> u64
        ensures reported { result ≡ unwrap_or (overrun plan.now self.now.progress reported) reported }
        ensures reports { Appends (B.overruns book.old) (B.overruns book.new) (option_to_list (overrun plan.now self.now.progress reported)) }
        ensures taken { B.taken book.new ≡ B.taken book.old }
        ensures failed { B.failed book.new ≡ B.failed book.old }
        ensures is_durable { B.is_durable book.new ≡ B.is_durable book.old }
        ensures form { B.text book.new ≡ B.text book.old }
    {
        self.report_unanswered(book, action);
        book.sees(self.health(plan), self.progress.moment);
        match self.progress.overrun(plan, reported) {
            Some(cycle) => {
                book.overran(cycle);
                cycle
            }
            None => reported,
        }
    }
}
