//! When the next cycle is wanted, how far apart due moments are, and which commands have their turn in a cycle. Times are in
//! milliseconds.

ghost use Rattle.std.specs.Prelude.{◌≡◌, ◌<◌, Option, Some};
ghost use Rattle.gc_station.specs.Deciding.{is_due, is_asked_for, is_wanted};
ghost use Rattle.gc_station.specs.NextCommand.{is_turn};
ghost use Rattle.gc_station.specs.Periods.{past_multiple, period_by_clock, period_from};
ghost use Rattle.gc_station.specs.Progressing.{next_period, regular_period};

use crate::plan::Plan;
use crate::progress::Progress;
use gc_links::Moment;
use gc_session::later;

/// Whether a command that has its turn in one of every `every` cycles, from cycle 1 on, has it in this cycle.
pub fn is_turn(cycle: u64, every: u64) -> bool
    ensures { result ≡ is_turn cycle every }
{
    every <= 1 || cycle.saturating_sub(1) % every == 0
}

// How long the moment `utc` is after the last one that is `at` after a whole multiple of `every`, counted from 1970-01-01, UTC.
fn past_multiple(every: u64, at: u64, utc: u64) -> u64
    requires { 0 < every }
    ensures { result ≡ past_multiple every at utc }
{
    later(utc % every, every.saturating_sub(at % every)) % every
}

// How long after `utc`, at which a cycle was due, the next one is: it is due at the moment `at` after a whole multiple of `every` that is
// nearest to a period later.
fn period_by_clock(every: u64, at: u64, utc: u64) -> u64
    requires { 0 < every }
    ensures { result ≡ period_by_clock every at utc }
{
    let rest = every.saturating_sub(past_multiple(every, at, utc));
    if past_multiple(every, at, utc) <= rest {
        rest
    } else {
        later(every, rest)
    }
}

// How long after `utc`, at which a cycle was due, the next one is: a period, or as the clock says if cycles begin by it.
fn period_from(at: Option<u64>, every: u64, utc: u64) -> u64
    ensures { result ≡ period_from at every utc }
{
    match at {
        None => every,
        Some(at) => {
            if every == 0 {
                0
            } else {
                period_by_clock(every, at, utc)
            }
        }
    }
}

impl Progress {
    // Whether the next cycle is due: the first at once, unless cycles begin by the clock, and each other one `period` milliseconds after
    // `began`, the moment that counts as the beginning of the one before it. After the last cycle, too: whether there is a next one makes
    // no difference.
    pub(crate) fn is_due(&self, plan: &Plan) -> bool
        ensures { result ≡ is_due plan.now self.now }
    {
        if self.left == plan.cycles && !plan.at.is_some() {
            return true;
        }
        self.period <= self.moment.elapsed.saturating_sub(self.began)
    }

    // Whether somebody asked for a cycle since the last one began, of which there was one: the file by which that is asked is there, and
    // was changed at another time than the one that counted then.
    fn is_asked_for(&self, plan: &Plan) -> bool
        ensures { result ≡ is_asked_for plan.now self.now }
    {
        self.left < plan.cycles && self.moment.touched > 0 && self.moment.touched != self.touched
    }

    // Whether the next cycle is wanted: it is due, or was asked for.
    pub(crate) fn is_wanted(&self, plan: &Plan) -> bool
        ensures { result ≡ is_wanted plan.now self.now }
    {
        self.is_due(plan) || self.is_asked_for(plan)
    }

    // How long after the beginning of a cycle that begins at this moment the next one is due, if that isn't one that was asked for: a
    // period, or as the clock says by which cycles begin.
    fn regular_period(&self, plan: &Plan, moment: Moment) -> u64
        ensures { result ≡ regular_period plan.now moment self.now }
    {
        period_from(plan.at, plan.every, self.due_of(plan, moment))
    }

    // How long after the beginning of a cycle that begins at this moment the next one is due. If the cycle isn't due, because somebody
    // asked for it, the next due moment stays.
    pub(crate) fn next_period(&self, plan: &Plan, moment: Moment) -> u64
        ensures { result ≡ next_period plan.now moment self.now }
    {
        if !self.is_due(plan) && moment.elapsed < self.due_at() {
            self.period
                .min(self.due_at().saturating_sub(moment.elapsed))
        } else {
            self.regular_period(plan, moment)
        }
    }
}
