//! A cycle that is overdue. A cycle has until the cycle after the next is due, two periods after its own due moment: then it is out of
//! time, and nothing more of it is sent. Once nothing is in flight that hasn't timed out it is overdue, and is abandoned by actions that
//! only read the clock. The head of `deciding.rt` says where this comes among all decisions.

ghost use Rattle.std.specs.Prelude.{◌≡◌};
ghost use Rattle.gc_station.specs.Deciding.{is_out_of_time, waits_out, has_no_time_left, is_overdue, action_overdue, setup_permits};

use crate::plan::Plan;
use crate::progress::{Action, Progress, Waiting};

impl Progress {
    // Whether the cycle that began last is out of time: cycles have due moments, and two periods have passed since this one's.
    pub(crate) fn is_out_of_time(&self, plan: &Plan) -> bool
        ensures { result ≡ is_out_of_time plan.now self.now }
    {
        let since = self.moment.elapsed.saturating_sub(self.began);
        plan.every > 0 && plan.every <= since.saturating_sub(plan.every)
    }

    // Whether the cycle is out of time, but something is in flight that hasn't timed out: then nothing more is sent, until that is
    // settled or has timed out. A setup of which something was sent goes on all the same.
    pub(crate) fn waits_out(&self, plan: &Plan, waiting: Waiting) -> bool
        ensures { result ≡ waits_out plan.now self.now waiting }
    {
        (self.is_out_of_time(plan) && waiting.current > 0)
            && (!self.is_preparing(plan, waiting) || self.prepared == 0)
    }

    // Whether the setup doesn't keep a cycle from being abandoned: it is done, or nothing of it was sent since the connection was made
    // and the station synchronized, or commands are outstanding, with which it begins anew.
    fn setup_permits(&self, plan: &Plan, waiting: Waiting) -> bool
        ensures { result ≡ setup_permits plan.now self.now waiting }
    {
        !self.is_preparing(plan, waiting) || (self.prepared == 0 || waiting.commands > 0)
    }

    // Whether no time is left for the cycle: it is missed, and some of its commands are left; or it is out of time,
    // and the end of the run wasn't asked for.
    fn has_no_time_left(&self, plan: &Plan) -> bool
        ensures { result ≡ has_no_time_left plan.now self.now }
    {
        (self.missed && self.unsent > 0) || (self.is_out_of_time(plan) && !self.stops)
    }

    // Whether the cycle is overdue, so that it is abandoned: no time is left for it, nothing is in flight that hasn't
    // timed out, the phase and the setup let the cycle be abandoned, and the run isn't done.
    pub(crate) fn is_overdue(&self, plan: &Plan, waiting: Waiting) -> bool
        ensures { result ≡ is_overdue plan.now self.now waiting }
    {
        self.has_no_time_left(plan)
            && ((waiting.current == 0 && self.phase.may_abandon())
                && (self.setup_permits(plan, waiting)
                    && ((self.has_begun() || waiting.commands == 0)
                        && !self.is_finished(waiting.commands))))
    }

    // The next action if the cycle is overdue, with or without a connection: commands that are outstanding are lost, as the station
    // resynchronizes; the cycle's other commands are recorded without being sent, or left out; and the next cycle begins, which is
    // missed.
    pub(crate) fn action_overdue(&self, waiting: Waiting) -> Action
        ensures { result ≡ action_overdue self.now waiting }
    {
        if waiting.commands > 0 {
            Action::Renew
        } else if self.unsent == 0 {
            Action::Begin
        } else if self.next_others > 0 {
            Action::Pass
        } else {
            Action::Skip
        }
    }
}
