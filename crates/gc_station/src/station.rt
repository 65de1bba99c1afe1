//! A station's steps: each makes the one call of the link that is next, and lets the client handle what came of it.

ghost use Rattle.std.specs.Prelude.{◌≡◌, List, length, drop, Option, OnOk, true, false};
ghost use Rattle.gc_catalogue.specs.Asked.{IsAskedReading};
ghost use Rattle.gc_client.specs.Settlements.{AreReadBy};
ghost use Rattle.gc_station.specs.Deciding.{action_of};
ghost use Rattle.gc_station.specs.Counters.{with_before};
ghost use Rattle.gc_station.specs.Firsts.{with_first};
ghost use Rattle.gc_station.specs.Keeping.{reads_clock_alone};
ghost use Rattle.gc_station.specs.Marks.{commands_in, with_id, with_values};
ghost use Rattle.gc_station.specs.Scopes.{AreReadings, scoped, Reads};
ghost use Rattle.gc_station.specs.Records.{WritesNews};
ghost use Rattle.gc_station.specs.Model.{Model, opening, action_at, with_losses};
ghost use Rattle.gc_station.specs.NextCommand.{place_next, expected_first, mark_next, commands_before, is_chained_in, left_out_in, needs_first, is_chained_after, others_after, upcoming_after, first_upcoming, rests, mark_setup};
ghost use Rattle.gc_station.specs.Stations.{waiting_of_station, CanPerform, Refines, MakesMoveAlone, Moves, Steps, as_seen, OnCall, KeepsToModel, DropsMarks, SuitsAction, ReadsMoment, station_expiring};
ghost use Rattle.gc_station.specs.Watching.{fresh_of, places_of};
ghost use Rattle.gc_station.specs.Writing.{KeepsBook, news_settled, NotesSettled};
ghost use Rattle.gc_station.specs.declared.progress.Action.TheVariants.{ReadClock, Renew, Begin, Open, Close};
ghost use Rattle.gc_texts.specs.declared.tasks.Task.{Task};

mod hearing;
mod sending;
mod unsent;

use crate::book::Book;
use crate::cause::Cause;
use crate::due::is_turn;
use crate::mark::{Mark, commands_in};
use crate::plan::Plan;
use crate::progress::{Action, Progress, Upcoming, Waiting};
use crate::recorded::Recorded;
use crate::watching::Watches;
use crate::writing::write_settlements;
use arrayvec::ArrayVec;
use gc_catalogue::Asked;
use gc_client::{Client, Settlement, SlotsOf, WINDOW};
use gc_lines::{Assembler, PortFailed};
use gc_links::{Link, Moment};
use gc_texts::{Again, Codes, Expected, Needs, Task, Turn, Twice};
use gc_values::no_values;

// Whether the command at this place rests in this cycle: it doesn't have its turn in it; `false` if there is no such command.
fn rests_at(commands: &[Task], place: usize, cycle: u64) -> bool
    ensures { result ≡ rests cycle (drop place commands.now) }
{
    match commands.get(place) {
        Some(task) => !is_turn(cycle, task.every),
        None => false,
    }
}

// Whether a command at this place is sent only once the one before it was answered well, or rests in this cycle; `false` if there is no
// such command.
fn is_chained_at(commands: &[Task], place: usize, cycle: u64) -> bool
    ensures { result ≡ is_chained_in cycle (drop place commands.now) }
{
    match commands.get(place) {
        Some(task) => !is_turn(cycle, task.every) || task.chained,
        None => false,
    }
}

// What is expected of the answer of the command at this place. If there is none, nothing is: no place of a target, no accepted codes, none
// that says busy, no values, no endings that send it again; its turn is place 0, attempt 1 and link 0; and its chain is sent once. With which
// answer of a first sending its own is compared, which number its counter had, and which values files had, is known once it is sent
// (`mark_sent`).
fn expected_at(commands: &[Task], place: usize) -> Expected
    ensures { result ≡ expected_first (drop place commands.now) }
{
    match commands.get(place) {
        Some(task) => Expected {
            near: task.near,
            form: task.form,
            accepted: task.accepted,
            busy: task.busy,
            wait: task.deadline,
            expects: task.expects,
            counter: task.counter,
            before: None,
            again: task.again,
            turn: task.turn,
            twice: task.twice,
            first: None,
            values: no_values(),
        },
        None => Expected {
            near: None,
            form: None,
            accepted: Codes::none(),
            busy: Codes::none(),
            wait: 0,
            expects: None,
            counter: None,
            before: None,
            again: Again::none(),
            turn: Turn {
                place: 0,
                attempt: 1,
                link: 0,
            },
            twice: Twice::Once,
            first: None,
            values: no_values(),
        },
    }
}

// Which values of files the request of the command at this place takes; none if there is no such command.
fn needs_at(commands: &[Task], place: usize) -> Needs
    ensures { result ≡ needs_first (drop place commands.now) }
{
    match commands.get(place) {
        Some(task) => task.needs,
        None => Needs::none(),
    }
}

// If the command at this place begins a further attempt of its chain: how many commands this and the chain's later attempts have
// together; 1 if it rests in this cycle. Else 0, also if there is no such command.
fn others_at(commands: &[Task], place: usize, cycle: u64) -> usize
    ensures { result ≡ left_out_in cycle (drop place commands.now) }
{
    match commands.get(place) {
        Some(task) => {
            if !is_turn(cycle, task.every) {
                1
            } else {
                task.others
            }
        }
        None => 0,
    }
}

/// What a station keeps from one act to the next.
#[derive(Drop)]
pub(crate) struct Station {
    // The outstanding requests, and the next id.
    pub(crate) client: Client<SlotsOf<Asked>>,
    // One for each outstanding request, in order: which command it is, or none for a null procedure.
    pub(crate) marks: ArrayVec<Option<Mark>, WINDOW>,
    // The first part of a line that came on this connection and hasn't ended.
    pub(crate) assembler: Assembler,
    pub(crate) progress: Progress,
    // What is kept of the records written so far.
    pub(crate) recorded: Recorded,
    // What the last line or restart of the client settled, which `write` records.
    pub(crate) settled: ArrayVec<Settlement<Asked>, WINDOW>,
}

impl Station {
    // A station that has done nothing, and watches these commands.
    pub(crate) fn new(plan: &Plan, max_turns: u64, watches: Watches) -> Station
        ensures { (reads : Reads) → AreReadings reads → Refines result (opening plan.now (scoped max_turns (places_of watches) reads)) }
    {
        Station {
            client: Client::new(SlotsOf::new()),
            marks: ArrayVec::new(),
            assembler: Assembler::new(),
            progress: Progress::at_start(plan, max_turns),
            recorded: Recorded::new(watches),
            settled: ArrayVec::new(),
        }
    }

    // What a decision looks at besides the progress: how many requests are outstanding, and what `recorded` has but for the tally.
    fn waiting(&self) -> Waiting
        ensures { result ≡ waiting_of_station self.now }
    {
        Waiting {
            all: self.client.waiting(),
            current: self.client.current(),
            commands: self.commands_waiting(),
            well: self.recorded.well,
            listed: self.recorded.listed,
            fresh: self.fresh(),
        }
    }

    // When the watched command was recorded last as answered well of which that is the longest ago; the moment read last if nothing is
    // watched.
    pub(crate) fn fresh(&self) -> u64
        ensures { result ≡ fresh_of self.now.progress.moment.elapsed self.now.recorded.fresh }
    {
        match self.recorded.fresh.oldest() {
            Some(watch) => watch.fresh,
            None => self.progress.moment.elapsed,
        }
    }

    // How many of the outstanding requests are commands.
    pub(crate) fn commands_waiting(&self) -> usize
        ensures { result ≡ commands_in self.now.marks.items }
    {
        commands_in(self.marks.as_slice())
    }

    // The next action, as `deciding.rt` decides it.
    pub(crate) fn action(&self, plan: &Plan) -> Action
        ensures action { (s : Model) → Refines self.now s → AreReadings s.reads → result ≡ action_at plan.now s }
        ensures room { SuitsAction self.now.progress (length self.now.client.ids.waiting) result }
        ensures is { result ≡ action_of plan.now self.now.progress (waiting_of_station self.now) }
    {
        self.progress.action(plan, self.waiting())
    }

    // The place of the cycle's next command in the station's list, counted from 0: the setup is before it, and so are the commands
    // of the cycle that had their turn. If no command is left, as before the first cycle, it is the length of the list.
    fn place(&self, commands: &[Task]) -> usize
        ensures { result ≡ place_next commands.now self.now.progress }
    {
        commands.len().saturating_sub(self.progress.unsent)
    }

    // The mark of the cycle's next command: its cycle, its place, the moment read last, and what is expected of its answer.
    fn mark(&self, plan: &Plan, commands: &[Task]) -> Mark
        ensures { result ≡ mark_next plan.now commands.now self.now.progress }
    {
        Mark {
            cycle: self.progress.cycle(plan),
            place: self.place(commands),
            sent: self.progress.moment.utc,
            id: 0,
            expected: expected_at(commands, self.place(commands)),
        }
    }

    // The mark with which the cycle's next command is sent: that of `mark`, with the client's next id, with the answer of the first
    // sending with which its own is compared, with the number that is kept of its counter, and with the values of files by the moment read
    // last.
    fn mark_sent(&self, plan: &Plan, commands: &[Task]) -> Mark
        ensures { result ≡ with_values self.now.progress.moment.values (with_id self.now.client.ids.next (with_before self.now.recorded.counts
            (with_first self.now.recorded.firsts (mark_next plan.now commands.now self.now.progress)))) }
    {
        let mut mark = self.mark(plan, commands);
        mark.id = self.client.next_id();
        mark.expected.first = self.recorded.firsts.answer_for(mark.cycle, &mark.expected);
        mark.expected.before = self.recorded.counts.at(mark.expected.counter);
        mark.expected.values = self.progress.moment.values;
        mark
    }

    // The mark of the next command of the setup: it has cycle 0, and the attempt of the setup. No ending sends the command again,
    // and no attempt of a chain begins with it, so its link is 1.
    fn mark_setup(&self, commands: &[Task]) -> Mark
        ensures { result ≡ mark_setup commands.now self.now.progress }
    {
        let mut expected = expected_at(commands, self.progress.prepared);
        expected.again = Again::none();
        expected.turn.attempt = self.progress.attempt;
        expected.turn.link = 1;
        Mark {
            cycle: 0,
            place: self.progress.prepared,
            sent: self.progress.moment.utc,
            id: 0,
            expected,
        }
    }

    // Whether the command `count` places after the next one is sent only once the one before it was answered well, or rests; `false` if
    // there is no such command. In a missed cycle the result is always `true`, because none is sent.
    fn is_chained_after(&self, plan: &Plan, count: usize, commands: &[Task]) -> bool
        ensures { result ≡ is_chained_after plan.now count commands.now self.now.progress }
    {
        let place = self.place(commands).saturating_add(count);
        self.progress.missed || is_chained_at(commands, place, self.progress.cycle(plan))
    }

    // If the command `count` places after the next one begins a further attempt of its chain: how many commands this attempt
    // and those after it have; 1 if it rests. Else 0, also if there is no such command.
    fn others_after(&self, plan: &Plan, count: usize, commands: &[Task]) -> usize
        ensures { result ≡ others_after plan.now count commands.now self.now.progress }
    {
        let place = self.place(commands).saturating_add(count);
        others_at(commands, place, self.progress.cycle(plan))
    }

    // What is noted of the next command once the cycle has gone on by `count` commands.
    fn upcoming_after(&self, plan: &Plan, count: usize, commands: &[Task]) -> Upcoming
        ensures { result ≡ upcoming_after plan.now count commands.now self.now.progress }
    {
        Upcoming {
            is_chained: self.is_chained_after(plan, count, commands),
            others: self.others_after(plan, count, commands),
            needs: needs_at(commands, self.place(commands).saturating_add(count)),
        }
    }

    // What is noted of the first command of the cycle that begins next, which begins a chain: it counts as chained, and is left out, only
    // if it rests.
    fn first_upcoming(&self, plan: &Plan, commands: &[Task]) -> Upcoming
        ensures { result ≡ first_upcoming plan.now commands.now self.now.progress }
    {
        let rests = rests_at(commands, plan.setup, self.progress.cycle_next(plan));
        Upcoming {
            is_chained: rests,
            others: if rests { 1 } else { 0 },
            needs: needs_at(commands, plan.setup),
        }
    }

    // How many commands are before the cycle's next one in the list, those of the setup included; 0 before the first cycle. The
    // fault of a cut write has this number.
    fn commands_before(&self, plan: &Plan, commands: &[Task]) -> usize
        ensures { result ≡ commands_before plan.now commands.now self.now.progress }
    {
        if self.progress.left == plan.cycles {
            return 0;
        }
        self.place(commands)
    }

    // Times out the requests whose deadline has come at the moment `now`. What was recorded of the watched
    // commands later than `now`, because the clock went back, counts as recorded at `now`.
    fn expire(&mut self, now: u64)
        ensures { self.new ≡ station_expiring now self.old }
    {
        self.client.expire(now);
        self.recorded.fresh.cut(now);
    }

    // Reads the clock, and times out the requests whose deadline has come (`expire`). `None`: the clock couldn't be read, which is
    // noted (`fail`): the connection is to be closed for it, and without a connection the run is over for it.
    fn read_moment<L: Link>(&mut self, link: &mut L) -> Option<Moment>
        ensures { ReadsMoment (L.acts link.old) (L.acts link.new) self.old self.new result }
    {
        match link.now() {
            Ok(moment) => {
                self.expire(moment.elapsed);
                Some(moment)
            }
            Err(_) => {
                self.progress.fail(Cause::Clock);
                None
            }
        }
    }

    // Reads the clock (`read_moment`), and notes the moment, and whether the cycle was done early.
    fn read_clock<L: Link>(&mut self, link: &mut L, plan: &Plan)
        ensures { (commands : List Task) → MakesMoveAlone plan.now commands ReadClock (L.acts link.old) (L.acts link.new) self.old self.new }
    {
        if let Some(moment) = self.read_moment(link) {
            let commands = self.commands_waiting();
            self.progress.note_moment(moment);
            self.progress.note_early(plan, commands);
        }
    }

    // Reads the clock (`read_moment`), and resynchronizes: `record_lost` then records what is outstanding as lost. So no command
    // counts as outstanding where it notes whether the cycle was done early. If the clock can't be read, the station doesn't
    // resynchronize.
    fn renew<L: Link>(&mut self, link: &mut L, plan: &Plan)
        ensures { (commands : List Task) → MakesMoveAlone plan.now commands Renew (L.acts link.old) (L.acts link.new) self.old self.new }
    {
        if let Some(moment) = self.read_moment(link) {
            self.progress.resynchronize(plan, moment);
            self.progress.note_early(plan, 0);
        }
    }

    // Reads the clock (`read_moment`), and begins a cycle of the commands after the setup. If the clock can't be read, no cycle
    // begins.
    fn begin<L: Link>(&mut self, link: &mut L, plan: &Plan, commands: &[Task])
        ensures { MakesMoveAlone plan.now commands.now Begin (L.acts link.old) (L.acts link.new) self.old self.new }
    {
        if let Some(moment) = self.read_moment(link) {
            let count = commands.len().saturating_sub(plan.setup);
            let next = self.first_upcoming(plan, commands);
            self.progress.begin_cycle(plan, count, next, moment);
        }
    }

    // Makes a connection, or notes that none could be made: then the station pauses, or the run is over, as `note_unconnected` says.
    fn open<L: Link>(&mut self, link: &mut L, plan: &Plan)
        ensures { (commands : List Task) → MakesMoveAlone plan.now commands Open (L.acts link.old) (L.acts link.new) self.old self.new }
    {
        let commands = self.commands_waiting();
        match link.open() {
            Ok(()) => self.progress.note_open(),
            Err(_) => self.progress.note_unconnected(plan, commands, Cause::Open),
        }
    }

    // Writes the records of `settled`, the oldest request's first, notes them in `recorded`, and removes the marks of the requests
    // that were settled. `Err`: the book failed at a record.
    fn write<B: Book>(&mut self, book: &mut B) -> Result<(), PortFailed>
        requires { AreReadBy IsAskedReading self.old.settled.items }
        ensures wrote { WritesNews (B.text book.old) (B.taken book.old) (B.taken book.new) (news_settled self.old) result }
        ensures after { OnOk result (DropsMarks self.old self.new (length self.old.settled.items)) }
        ensures notes { NotesSettled self.old self.new result }
        ensures kept { KeepsBook B.Book book.old book.new result }
    {
        let now = self.progress.moment;
        write_settlements(
            book,
            &mut self.recorded,
            &mut self.marks,
            now,
            self.settled.as_slice(),
        )
    }

    // Closes the connection, if there is one, and discards half a line that came on it. Outstanding requests stay outstanding on the
    // next connection; if the run is over, `record_lost` then records them as lost.
    fn close<L: Link>(&mut self, link: &mut L, plan: &Plan, cause: Cause)
        ensures { (commands : List Task) → MakesMoveAlone plan.now commands (Close cause) (L.acts link.old) (L.acts link.new) self.old self.new }
    {
        link.close();
        let waiting = self.waiting();
        self.assembler = Assembler::new();
        self.progress.close(plan, waiting, cause);
    }

    // Makes the one call on the link that an action stands for, and handles its result; `Stop` does nothing. `Err`: the book
    // failed at a record.
    fn perform<L: Link, B: Book>(
        &mut self,
        link: &mut L,
        book: &mut B,
        plan: &Plan,
        commands: &[Task],
        action: Action,
    ) -> Result<(), PortFailed>
        requires { CanPerform commands.now action self.old }
        ensures does { OnCall action (Moves plan.now commands.now action
            (as_seen (L.acts link.old) (B.text book.old) (B.taken book.old) self.old)
            (as_seen (L.acts link.new) (B.text book.old) (B.taken book.new) self.new) result) }
        ensures kept { KeepsBook B.Book book.old book.new result }
    {
        match action {
            Action::ReadClock => Ok(self.read_clock(link, plan)),
            Action::Renew => Ok(self.renew(link, plan)),
            Action::Begin => Ok(self.begin(link, plan, commands)),
            Action::Open => Ok(self.open(link, plan)),
            Action::Clear => Ok(self.clear(link, plan, commands)),
            Action::Ask => Ok(self.ask_null(link, plan, commands)),
            Action::Prepare => Ok(self.prepare(link, plan, commands)),
            Action::Send => Ok(self.send(link, plan, commands)),
            Action::Skip => self.skip(link, book, plan, commands),
            Action::Pass => Ok(self.leave_out(link, plan, commands)),
            Action::Flush => Ok(self.flush(link, plan, commands)),
            Action::Read(until) => self.read(link, book, plan, until),
            Action::Close(cause) => Ok(self.close(link, plan, cause)),
            Action::Stop(_) => Ok(()),
        }
    }

    // Records all outstanding commands as lost, and restarts the client, if the station synchronizes or no act follows
    // (`loses_all`); otherwise does nothing. `Err`: the book failed at a record.
    fn record_lost<B: Book>(&mut self, book: &mut B) -> Result<(), PortFailed>
        ensures ends { KeepsToModel with_losses (B.text book.old) (B.taken book.old) (B.taken book.new) self.old self.new result }
        ensures kept { KeepsBook B.Book book.old book.new result }
    {
        if !self.progress.loses_all() {
            return Ok(());
        }
        self.settled = self.client.restart();
        self.write(book)
    }

    // Takes a turn: performs an action, and then records what is lost (`record_lost`). When it is called, all records so far must be
    // durable, unless the action only reads the clock. `Err`: the book failed at a record.
    pub(crate) fn step<L: Link, B: Book>(
        &mut self,
        link: &mut L,
        book: &mut B,
        plan: &Plan,
        commands: &[Task],
        action: Action,
    ) -> Result<(), PortFailed>
        requires is_durable { reads_clock_alone action ≡ false → B.is_durable book.old ≡ true }
        requires able { CanPerform commands.now action self.old }
        ensures does { OnCall action (Steps plan.now commands.now action
            (as_seen (L.acts link.old) (B.text book.old) (B.taken book.old) self.old)
            (as_seen (L.acts link.new) (B.text book.old) (B.taken book.new) self.new) result) }
        ensures kept { KeepsBook B.Book book.old book.new result }
    {
        self.progress.take_turn();
        if let Err(failed) = self.perform(link, book, plan, commands, action) {
            return Err(failed);
        }
        self.record_lost(book)
    }
}
