//! What a station does next, by how far it is and what is outstanding. All decisions are made here, by looking at nothing else; those
//! on a cycle that is overdue are in `overdue.rt`.
//!
//! A cycle has until the cycle after the next is due, two periods after its own due moment. Then it is out of time: no command of it is
//! sent any more, but a setup that was begun goes on; and once nothing is in flight that hasn't timed out, the cycle is overdue and is
//! abandoned, whether there is a connection or not. What isn't settled by then is lost, what wasn't sent is skipped, and the next
//! cycle, which has no time left, begins at once and is missed.
//!
//! In all phases but `Closing` and `Over` five cases come first, in this order:
//! 1. No turn is left: `Close(Turns)`, or without a connection `Stop(Turns)`.
//! 2. No answer of a good quality was recorded for as long as the plan allows: `Close(Stale)`, with or without a connection.
//! 3. The end of the run was asked for, and the run may end here (`is_resting`): `Close(Stopped)`, with or without a connection.
//! 4. Something was sent, or a connection was closed or couldn't be made, since a moment was read (`clock_due`): `ReadClock`,
//!    which times out the requests whose deadline has come, and changes no phase.
//! 5. The cycle is overdue (`is_overdue`; never in `Clearing`): `Renew` if commands are outstanding; else `Begin` if no command is
//!    unsent; else `Pass` if the next command begins a further attempt; else `Skip`. These only read the clock. They change no phase,
//!    and a pause and the quiet time go on meanwhile.
//!
//! A cycle is wanted if it is due, or somebody asked for it. A command that isn't of this cycle rests: it counts as chained, and as a
//! further attempt of its own, so that it alone is left out.
//!
//! In any other case the table lists the actions that may be next in each phase, of which the first that fits is taken, and the
//! phase after each. The last rows of `Ready` for a station that synchronizes, and those of the next command that may be sent and of a
//! station that waits, are rules of an exchange: gc_session has them (`Choices`).
//!
//! | Phase | Where | Action | What the action does | Next phase |
//! |---|---|---|---|---|
//! | `Down` | | `Open` | makes a connection | `Clearing`; if none could be made, as after `Close(Open)` |
//! | `Pausing` | | `Read(Limit)` | waits | `Down`, once the pause is over and a connection is wanted |
//! | `Clearing` | | `Clear` | sends a lone line feed | `Draining`; `Ready` if the station synchronizes |
//! | `Draining` | no command is unsent, none is outstanding, and no cycle is left | `Close(Done)` | closes the connection | `Over(Done)` |
//! | | else | `Read(Limit)` | discards what comes | `Ready`, once nothing came for the quiet time |
//! | `Ready`: the station synchronizes | no command is unsent, and no cycle is left | `Close(Done)` | closes the connection | `Over(Done)` |
//! | | the cycle is done, and the next isn't wanted | `Read(Due)` | hears what comes | `Ready` |
//! | | a busy answer has the station wait (`hold`) | `Read(Limit)` | hears what comes | `Ready` |
//! | | the null procedure that was sent last hasn't timed out | `Read(Limit)` | hears what comes | `Ready`; the station has synchronized once the eighth is answered |
//! | | the line is dead | `Close(Dead)` | closes the connection | as below |
//! | | else | `Ask` | sends the null procedure of the first id that isn't answered, for the first time or again at its deadline | `Ready` |
//! | `Ready`: the station has synchronized | the end of the run was asked for, the station is between two chains, and something hasn't timed out | as if the station waits | | |
//! | | the cycle is out of time, something hasn't timed out, and the setup is done or nothing of it was sent | as if the station waits | | |
//! | | the setup isn't done, no command is unsent, none is outstanding, and no cycle is left | `Close(Done)` | closes the connection | `Over(Done)` |
//! | | nothing of the setup was sent, the cycle is done, and the next isn't wanted | `Read(Due)` | hears what comes | `Ready` |
//! | | nothing of the setup was sent | as if the next command may be sent, with `Prepare` for `Send` | | |
//! | | the setup isn't done, commands are outstanding, and all outstanding requests have timed out | with room, unless the line is dead, `Flush`, else as if the station waits | sends a null procedure after them | `Ready` |
//! | | the setup isn't done, commands are outstanding, and something hasn't timed out | as if the station waits | | |
//! | | the setup isn't done, no command is outstanding, and the last one was answered well | as if the next command may be sent, with `Prepare` for `Send` | | |
//! | | the setup isn't done, no command is outstanding, and the last one wasn't answered well | `Close(SetUp)` | closes the connection | as below |
//! | | the setup is done, a command is unsent, and the next one isn't chained, begins no further attempt, and has the values of files that it takes | as if the next command may be sent | | |
//! | | commands are outstanding, and all outstanding requests have timed out | with room, unless the line is dead, `Flush`, else as if the station waits | sends a null procedure after them | `Ready` |
//! | | commands are outstanding, and something hasn't timed out | as if the station waits | | |
//! | | no command is outstanding, the next one begins a further attempt of its chain, and a command of the attempt before ended as its rule names | as if the next command may be sent, or if a value of a file isn't there that it takes, `Skip` | | |
//! | | no command is outstanding, and the next one begins a further attempt otherwise, or in a missed cycle | `Pass` | reads the clock, and leaves out this attempt and those after it | `Ready` |
//! | | no command is outstanding, one is unsent, and may be sent | as if the next command may be sent | | |
//! | | no command is outstanding, one is unsent, and may not be sent | `Skip` | reads the clock, and records the command as skipped | `Ready` |
//! | | no command is outstanding or unsent, and no cycle is left | `Close(Done)` | closes the connection | `Over(Done)` |
//! | | no command is outstanding or unsent, and the next cycle is wanted | `Begin` | reads the clock, and begins the cycle | `Ready` |
//! | | no command is outstanding or unsent, and the next cycle isn't wanted | `Read(Due)` | hears what comes | `Ready` |
//! | the next command may be sent | one of the seven requests before it is a call of the table that a reply ended | with room, unless the line is dead, `Send`, else as if the station waits | sends the next command | `Ready` |
//! | | else, as after each synchronization, if all outstanding requests have timed out, or nothing is outstanding | with room, unless the line is dead, `Flush`, else as if the station waits | sends a null procedure before it | `Ready` |
//! | | else | as if the station waits | | |
//! | the station waits | the line is dead | `Close(Dead)` | closes the connection | as below |
//! | | all outstanding requests have timed out | `Renew` | reads the clock, and resynchronizes: all outstanding requests are lost | the same |
//! | | else | `Read(Limit)` | hears what comes | the same |
//! | `Closing` | | `Close` for its cause | closes the connection | as below |
//! | `Over` | | `Stop` for its cause | does nothing: the run is over | |
//!
//! The phase after `Close`: for `Done`, `Clock`, `Turns`, `Stale` and `Stopped` it is `Over` for that cause. For any other
//! cause it is `Over(Done)` if nothing is left to be sent and no command is outstanding; `Pausing` if a try is left or none is
//! needed; and else `Over` for that cause.
//!
//! If a call of the link other than `open` fails, a write is cut, or the other end closes the connection, `Closing` for that cause
//! follows, and without a connection `Over`.

ghost use Rattle.std.specs.Prelude.{◌≡◌};
ghost use Rattle.gc_station.specs.Deciding.{load_of, goes_on, is_finished, lacks_value, may_go, waits_for_all, action_again, action_of, action_on, action_ready, action_begun, action_beginning, action_to_send, action_flush, action_held, action_settled, action_done, action_waiting, is_stale, is_between_chains, is_cut, is_resting, is_stopping, is_held_back, action_cycle, action_to_prepare, action_preparing, action_in_setup, is_preparing, action_draining};

use crate::cause::Cause;
use crate::plan::Plan;
use crate::progress::{Action, Phase, Progress, Until, Waiting};
use gc_session::{Choices, Load, width_within};

// What the rules of an exchange choose between, as actions.
const CHOICES: Choices<Action> = Choices {
    close: Action::Close(Cause::Dead),
    renew: Action::Renew,
    read: Action::Read(Until::Limit),
    flush: Action::Flush,
    null: Action::Ask,
};

impl Progress {
    // What counts of the station's requests.
    fn load(&self, plan: &Plan, waiting: Waiting) -> Load
        ensures { result ≡ load_of plan.now self.now waiting }
    {
        Load {
            width: width_within(plan.width),
            patience: plan.deadline,
            now: self.moment.elapsed,
            all: waiting.all,
            current: waiting.current,
        }
    }

    // Whether no answer of a good quality was recorded for as long as the plan allows; `false` if it sets no limit (`stale` is 0).
    fn is_stale(&self, plan: &Plan, waiting: Waiting) -> bool
        ensures { result ≡ is_stale plan.now self.now waiting }
    {
        plan.stale > 0 && plan.stale <= self.moment.elapsed.saturating_sub(waiting.fresh)
    }

    // Whether the station is between two chains: no command of the cycle is left, or the next one begins a chain or a further attempt of
    // one; or there is a setup, and since the connection was made and the station synchronized no command of a cycle was sent
    // (`preparing`), so that no chain goes on. In a missed cycle each command, the first one too, counts as going on with a chain.
    fn is_between_chains(&self) -> bool
        ensures { result ≡ is_between_chains self.now }
    {
        self.unsent == 0 || !self.next_is_chained || self.preparing
    }

    // Whether a close cut the chain, in a cycle that isn't missed, and the new connection isn't quiet yet.
    fn is_cut(&self) -> bool
        ensures { result ≡ is_cut self.now }
    {
        self.phase.is_unquiet() && !self.chain_unbroken && !self.missed
    }

    // Whether the run may end here if that is asked for: there is no connection, or the station synchronizes, or nothing is in
    // flight that hasn't timed out, and it is between two chains, or a close cut its chain: then it needn't wait for the new
    // connection to be quiet.
    fn is_resting(&self, waiting: Waiting) -> bool
        ensures { result ≡ is_resting self.now waiting }
    {
        !self.phase.is_up()
            || !self.has_begun()
            || (waiting.current == 0 && (self.is_between_chains() || self.is_cut()))
    }

    // Whether the run ends now because its end was asked for: it was asked for, and the run may end here.
    fn is_stopping(&self, waiting: Waiting) -> bool
        ensures { result ≡ is_stopping self.now waiting }
    {
        self.stops && self.is_resting(waiting)
    }

    // Whether the end of the run was asked for, and the station is between two chains, but something is in flight that hasn't
    // timed out: then nothing more is sent, until that is settled or has timed out.
    fn is_held_back(&self, waiting: Waiting) -> bool
        ensures { result ≡ is_held_back self.now waiting }
    {
        self.stops && self.is_between_chains() && waiting.current > 0
    }

    // Whether the station goes on without waiting for a due moment: some commands of this cycle are left, or the next cycle is wanted
    // (`is_wanted`, which doesn't look whether there is one).
    pub(crate) fn goes_on(&self, plan: &Plan) -> bool
        ensures { result ≡ goes_on plan.now self.now }
    {
        self.unsent > 0 || self.is_wanted(plan)
    }

    // The next action: to stop if the run is over, to close the connection if that is to be closed, and else that of
    // `action_on`. `waiting` says what is outstanding, and how the last commands ended.
    pub(crate) fn action(&self, plan: &Plan, waiting: Waiting) -> Action
        ensures { result ≡ action_of plan.now self.now waiting }
    {
        match self.phase {
            Phase::Over(cause) => Action::Stop(cause),
            Phase::Closing(cause) => Action::Close(cause),
            _ => self.action_on(plan, waiting),
        }
    }

    // The next action if the run isn't over and the connection isn't to be closed for a cause already: that of the first of the
    // five cases listed at the head of this file that applies, and if none does, that of the phase.
    fn action_on(&self, plan: &Plan, waiting: Waiting) -> Action
        ensures { result ≡ action_on plan.now self.now waiting }
    {
        if self.turns == 0 {
            return if self.phase.is_up() {
                Action::Close(Cause::Turns)
            } else {
                Action::Stop(Cause::Turns)
            };
        }
        if self.is_stale(plan, waiting) {
            return Action::Close(Cause::Stale);
        }
        if self.is_stopping(waiting) {
            return Action::Close(Cause::Stopped);
        }
        if self.clock_due {
            return Action::ReadClock;
        }
        if self.is_overdue(plan, waiting) {
            return self.action_overdue(waiting);
        }
        match self.phase {
            Phase::Down => Action::Open,
            Phase::Pausing => Action::Read(Until::Limit),
            Phase::Clearing => Action::Clear,
            Phase::Draining => self.action_draining(waiting),
            Phase::Ready => self.action_ready(plan, waiting),
            Phase::Closing(cause) => Action::Close(cause),
            Phase::Over(cause) => Action::Stop(cause),
        }
    }

    // The next action until a connection is quiet: to read, and to close it once all is done, as cycles may be abandoned meanwhile.
    fn action_draining(&self, waiting: Waiting) -> Action
        ensures { result ≡ action_draining self.now waiting }
    {
        if !self.is_finished(waiting.commands) {
            Action::Read(Until::Limit)
        } else {
            Action::Close(Cause::Done)
        }
    }

    // The next action of the phase `Ready`: the synchronization's until its eighth null procedure is answered, then the
    // commands'.
    fn action_ready(&self, plan: &Plan, waiting: Waiting) -> Action
        ensures { result ≡ action_ready plan.now self.now waiting }
    {
        if self.has_begun() {
            self.action_begun(plan, waiting)
        } else {
            self.action_beginning(plan, waiting)
        }
    }

    // Whether no command of any cycle is left to be sent, and none is outstanding: `count` is how many are outstanding.
    pub(crate) fn is_finished(&self, count: usize) -> bool
        ensures { result ≡ is_finished count self.now }
    {
        self.left == 0 && self.unsent == 0 && count == 0
    }

    // The next action while the station synchronizes: to send the null procedure of the first id that isn't answered, for the first
    // time or again at its deadline, and to read until then, and until the wait after a busy answer is over. Nothing is sent if no
    // command is left to be sent and none is outstanding (the connection is closed: the run is done), nor between cycles (it reads
    // until the next is due), nor over a dead line (the connection is closed, but not before the deadline of the null procedure that
    // was sent last).
    fn action_beginning(&self, plan: &Plan, waiting: Waiting) -> Action
        ensures { result ≡ action_beginning plan.now self.now waiting }
    {
        if self.is_finished(waiting.commands) {
            Action::Close(Cause::Done)
        } else if self.is_idle(plan) {
            Action::Read(Until::Due)
        } else {
            CHOICES.synchronizing(self.load(plan, waiting), &self.exchange)
        }
    }

    // The next action when the next command may be sent, of a cycle (`action` is `Send`) or of the setup (`Prepare`): to send it, or
    // first a null procedure.
    fn action_to_send(&self, plan: &Plan, waiting: Waiting, action: Action) -> Action
        ensures { result ≡ action_to_send plan.now self.now waiting action }
    {
        CHOICES.to_send(self.load(plan, waiting), &self.exchange, action)
    }

    // The next action once the station has synchronized: that of a station that waits, if it only waits for what is in flight
    // before the run ends (`is_held_back`), or before the cycle is abandoned (`waits_out`); that of the setup until it is done; and
    // then that of the cycle.
    fn action_begun(&self, plan: &Plan, waiting: Waiting) -> Action
        ensures { result ≡ action_begun plan.now self.now waiting }
    {
        if self.is_held_back(waiting) {
            self.action_waiting(plan, waiting)
        } else if self.waits_out(plan, waiting) {
            self.action_waiting(plan, waiting)
        } else if self.is_preparing(plan, waiting) {
            self.action_preparing(plan, waiting)
        } else {
            self.action_cycle(plan, waiting)
        }
    }

    // Whether the setup is still to be done: there is one, and since the connection was made and the station synchronized no command of
    // a cycle was sent, and none began or went on once something of the setup was sent (`preparing`); unless all its commands were
    // sent, no command is outstanding, and the one recorded last was answered well.
    pub(crate) fn is_preparing(&self, plan: &Plan, waiting: Waiting) -> bool
        ensures { result ≡ is_preparing plan.now self.now waiting }
    {
        self.preparing && !(plan.setup <= self.prepared && waiting.commands == 0 && waiting.well)
    }

    // The next action when the next command of the setup may be sent: that of `action_to_send`. There always is such a command,
    // since the setup is done once its last one was answered well; without one the action would be to read.
    fn action_to_prepare(&self, plan: &Plan, waiting: Waiting) -> Action
        ensures { result ≡ action_to_prepare plan.now self.now waiting }
    {
        if self.prepared < plan.setup {
            self.action_to_send(plan, waiting, Action::Prepare)
        } else {
            Action::Read(Until::Limit)
        }
    }

    // The next action while the setup isn't done: its first command may be sent at once (`action_to_send`), but not if no command is
    // left to be sent after it and none is outstanding, nor between cycles. A setup that was begun goes on also between cycles.
    fn action_preparing(&self, plan: &Plan, waiting: Waiting) -> Action
        ensures { result ≡ action_preparing plan.now self.now waiting }
    {
        if self.prepared > 0 {
            self.action_in_setup(plan, waiting)
        } else if self.is_finished(waiting.commands) {
            Action::Close(Cause::Done)
        } else if self.is_idle(plan) {
            Action::Read(Until::Due)
        } else {
            self.action_to_prepare(plan, waiting)
        }
    }

    // The next action while the setup isn't done, once something of it was sent: each command is sent once the one before it was
    // answered well. If it wasn't, the connection is closed: the setup begins with its first command on the next one. Where commands
    // are outstanding, it is that of `action_flush`.
    fn action_in_setup(&self, plan: &Plan, waiting: Waiting) -> Action
        ensures { result ≡ action_in_setup plan.now self.now waiting }
    {
        let commands = waiting.commands;
        if self.is_finished(commands) {
            Action::Close(Cause::Done)
        } else if commands == 0 {
            if waiting.well {
                self.action_to_prepare(plan, waiting)
            } else {
                Action::Close(Cause::SetUp)
            }
        } else {
            self.action_flush(plan, waiting)
        }
    }

    // The next action once the station has synchronized and its setup is done: that of `action_to_send`, if there is a command
    // that needn't wait for those before it (`waits_for_all`); otherwise that of `action_held`.
    fn action_cycle(&self, plan: &Plan, waiting: Waiting) -> Action
        ensures { result ≡ action_cycle plan.now self.now waiting }
    {
        if self.unsent > 0 && !self.waits_for_all() {
            self.action_to_send(plan, waiting, Action::Send)
        } else {
            self.action_held(plan, waiting)
        }
    }

    // The next action if no command may be sent before those that are outstanding are settled: all of the cycle had their turn,
    // or the next one waits for all (`waits_for_all`). Where no command is outstanding, it is that of `action_settled`;
    // otherwise that of `action_flush`.
    fn action_held(&self, plan: &Plan, waiting: Waiting) -> Action
        ensures { result ≡ action_held plan.now self.now waiting }
    {
        if waiting.commands == 0 {
            self.action_settled(plan, waiting)
        } else {
            self.action_flush(plan, waiting)
        }
    }

    // The next action if each command that was sent is settled: that of a done cycle if no command is left; that of a further
    // attempt if the next command begins one; that of `action_to_send` if the next command may be sent; and else to skip it.
    fn action_settled(&self, plan: &Plan, waiting: Waiting) -> Action
        ensures { result ≡ action_settled plan.now self.now waiting }
    {
        if self.unsent == 0 {
            self.action_done(plan)
        } else if self.next_others > 0 {
            self.action_again(plan, waiting)
        } else if self.may_go(waiting) {
            self.action_to_send(plan, waiting, Action::Send)
        } else {
            Action::Skip
        }
    }

    // Whether a value that the next command takes of a file wasn't there at the moment read last.
    pub(crate) fn lacks_value(&self) -> bool
        ensures { result ≡ lacks_value self.now }
    {
        self.next_needs.lack(&self.moment.values)
    }

    // Whether the next command is sent, or recorded without being sent, only once all that were sent are settled: it is chained, or begins a
    // further attempt, or a value that it takes of a file isn't there.
    fn waits_for_all(&self) -> bool
        ensures { result ≡ waits_for_all self.now }
    {
        self.next_is_chained || self.next_others > 0 || self.lacks_value()
    }

    // The next action if the next command begins a further attempt of its chain, and all that were sent are settled: it is sent
    // if a command of the attempt before ended as its rule names, and skipped then if a value that it takes of a file isn't there. Else, and
    // in a missed cycle, in which each command counts as chained, this attempt and those after it are left out.
    fn action_again(&self, plan: &Plan, waiting: Waiting) -> Action
        ensures { result ≡ action_again plan.now self.now waiting }
    {
        if !waiting.listed || self.next_is_chained {
            Action::Pass
        } else if self.lacks_value() {
            Action::Skip
        } else {
            self.action_to_send(plan, waiting, Action::Send)
        }
    }

    // Whether the next command of a chain may be sent: the one before it was answered well, since that was sent no connection was closed,
    // and the station didn't resynchronize; and the values that it takes of files are there.
    fn may_go(&self, waiting: Waiting) -> bool
        ensures { result ≡ may_go self.now waiting }
    {
        waiting.well && self.chain_unbroken && !self.lacks_value()
    }

    // The next action if nothing but a null procedure may be sent, which settles the outstanding requests once all have timed out.
    fn action_flush(&self, plan: &Plan, waiting: Waiting) -> Action
        ensures { result ≡ action_flush plan.now self.now waiting }
    {
        CHOICES.flush(self.load(plan, waiting), &self.exchange)
    }

    // The next action if each command of the cycle is settled: to close the connection if no cycle is left, to begin the next
    // cycle if it is wanted, and else to read until it is due.
    fn action_done(&self, plan: &Plan) -> Action
        ensures { result ≡ action_done plan.now self.now }
    {
        if self.left == 0 {
            Action::Close(Cause::Done)
        } else if self.is_wanted(plan) {
            Action::Begin
        } else {
            Action::Read(Until::Due)
        }
    }

    // The next action of a station that waits: nothing may be sent.
    fn action_waiting(&self, plan: &Plan, waiting: Waiting) -> Action
        ensures { result ≡ action_waiting plan.now self.now waiting }
    {
        CHOICES.waiting(self.load(plan, waiting), &self.exchange)
    }
}
