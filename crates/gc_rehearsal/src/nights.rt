//! Nights: the runs of a station over the line of a rehearsal. A station that was killed, or gave up, begins again.

ghost use Rattle.std.specs.Prelude.{[], ◌≡◌, false};
ghost use Rattle.gc_rehearsal.specs.Claims.{Compares, IsIncomplete};
ghost use Rattle.gc_rehearsal.specs.Explained.{Explains};
ghost use Rattle.gc_rehearsal.specs.Runs.{AddRuns, AreRunsUnlessAltered};
ghost use Rattle.gc_rehearsal.specs.Inside.{told};

use crate::askable::commands_are_askable;
use crate::book::{Interruption, RunBook, RunLimits};
use crate::claim::first_false;
use crate::draw::{Draws, among};
use crate::explained::{FalseRows, explain};
use crate::halt::{FalseRow, Halt};
use crate::quotient::quotient;
use crate::rehearsed::Rehearsed;
use crate::seeded::Seeded;
use gc_lines::Sink;
use gc_measuring::plan_of;
use gc_options::{Choice, DAY};
use gc_station::{Kept, Plan, Watches, run_station};
use gc_texts::{RunFault, Task};
use std::alloc::Global;

// After how many milliseconds a station that gave up begins again.
const RESTART_DELAY: u64 = 60_000;

// With how many acts a command is reckoned: its request is put, and its reply read.
const ACTS_OF_COMMAND: u64 = 2;

// How many acts a run makes at least before it is killed.
const ACTS_BEFORE_KILL: u64 = 100;

/// What is rehearsed.
#[derive(Clone, Copy)]
pub(crate) struct Programme<'a> {
    /// Where the memory of a run's watched commands comes from.
    pub(crate) alloc: Global,
    pub(crate) tasks: &'a [Task],
    /// How many of the tasks in front are the setup.
    pub(crate) setup: usize,
    /// How many commands a cycle has in which all have their turn.
    pub(crate) commands: usize,
    /// What the operator chose. Its number of cycles isn't used: each run has as many as are left of its night.
    pub(crate) choice: Choice,
    /// How many nights there are.
    pub(crate) nights: u64,
    /// How many cycles a night has.
    pub(crate) cycles: u64,
    /// How often the station is killed a night, unless the night is done before.
    pub(crate) kills: u64,
    /// Whether the line alters bytes, or its instrument sends replies late: nothing is claimed of such a line.
    pub(crate) alters: bool,
    /// Whether the instrument sends replies late, after it has said busy.
    pub(crate) is_late: bool,
    /// The seed of all draws.
    pub(crate) seed: u64,
    /// When the first night begins, in milliseconds since 1970.
    pub(crate) start: u64,
}

// How a run ended.
enum RunEnd {
    // All its cycles are done.
    Done,
    // The station was killed.
    Killed,
    // Its night was over.
    CutOff,
    // It stopped for a fault.
    GaveUp,
}

/// The link over which the runs of a rehearsal go, and the book of their rows.
#[derive(Drop)]
pub(crate) struct Rehearsing<K> {
    pub(crate) link: Rehearsed<Seeded>,
    pub(crate) book: RunBook<K>,
}

impl<K: Sink> Rehearsing<K> {
    /// Rehearses all nights over a link that is new. However they end, the acts that the link recorded are those of a station, run after
    /// run, and of a line that keeps order, whatever it lost, repeated, held or closed. So each answer that these runs recorded was made
    /// on executing its own request (`gc_program_theorems::laws::nights_are_faithful`). Nothing of this is said of a line that alters bytes, or
    /// whose instrument sends replies late. Runs that end before they are done are counted in the book's summary, but not a run at which
    /// the rehearsal fails.
    ///
    /// It fails with `Untrue` after the first run with a false row, with the fault `Memory` if memory was refused for a claim, a
    /// count or a truth, and with the fault `Output` if a row couldn't be written. The nights that are left aren't rehearsed then. A
    /// line for which memory is refused is lost, and that is no failure.
    pub(crate) fn run_nights(&mut self, programme: Programme<'_>) -> Result<(), Halt>
        requires { self.old.link.carried ≡ told programme.alters [] }
        ensures { AreRunsUnlessAltered programme.entry.alters programme.entry.tasks.now self.new.link.carried }
    {
        let end = self.run_each_night(programme);
        self.link.acts_are_of_line();
        end
    }

    // Rehearses the nights in turn: each begins a day after the one before was due, or once that one is over, if that is later. It fails as
    // `run_nights` does.
    fn run_each_night(&mut self, programme: Programme<'_>) -> Result<(), Halt>
        ensures { AddRuns programme.entry.tasks.now self.old.link.carried self.new.link.carried }
    {
        for night in 0..programme.nights {
            wait_until(&mut self.link, night.saturating_mul(DAY));
            self.run_night(programme, night)?;
        }
        Ok(())
    }

    // Rehearses the night with this number, counted from 0, run after run, until its cycles are done or its time is over. A station
    // that was killed begins again at once, and one that gave up after `RESTART_DELAY`. It fails as `run_nights` does.
    fn run_night(&mut self, programme: Programme<'_>, night: u64) -> Result<(), Halt>
        ensures { AddRuns programme.entry.tasks.now self.old.link.carried self.new.link.carried }
    {
        let begins = night.saturating_mul(DAY);
        let mut kills = programme.kills;
        // No night has so many runs: kills are few, and a station that gave up waits. No clause says that the line's clock goes on, so
        // the bound is what ends the loop. It costs an addition and a comparison for each run of the station.
        for _ in 0..u64::MAX {
            let cycles = cycles_left(programme, begins, self.link.elapsed());
            if cycles == 0 {
                return Ok(());
            }
            let limits = RunLimits {
                cycles,
                acts: acts_until_kill(programme, night, kills),
                until: end_of_night(programme, begins),
            };
            match self.run_once(programme, limits)? {
                RunEnd::Done | RunEnd::CutOff => return Ok(()),
                RunEnd::Killed => kills = kills.saturating_sub(1),
                RunEnd::GaveUp => self.link.wait(RESTART_DELAY),
            }
        }
        Ok(())
    }

    // Runs the station over the line by this plan, and watches these commands. The result is the fault for which it stopped; `None`: all
    // its cycles are done.
    fn run_by_plan(
        &mut self,
        programme: Programme<'_>,
        plan: &Plan,
        watches: Watches,
    ) -> Option<RunFault>
        ensures { AddRuns programme.entry.tasks.now self.old.link.carried self.new.link.carried }
    {
        commands_are_askable(programme.tasks);
        // What is seen at each act, for proofs alone.
        let mut kept = Kept::new();
        run_station(
            &mut self.link,
            &mut self.book,
            programme.tasks,
            plan,
            watches,
            u64::MAX,
            &mut kept,
        )
        .err()
    }

    // Runs the station over the line within these limits. It fails if memory is refused. Then the rows of the run are compared with the
    // truth (`check_run`), and if that succeeds, the end of the run is judged (`judge_end`). It fails as these two do.
    fn run_once(&mut self, programme: Programme<'_>, limits: RunLimits) -> Result<RunEnd, Halt>
        ensures { AddRuns programme.entry.tasks.now self.old.link.carried self.new.link.carried }
    {
        let choice = Choice {
            cycles: limits.cycles,
            ..programme.choice
        };
        let begins = programme.start.saturating_add(self.link.elapsed());
        let plan = plan_of(choice, begins, programme.setup, programme.tasks);
        let Ok(watches) = Watches::of(programme.alloc, programme.setup, programme.tasks) else {
            return Err(Halt::Fault(RunFault::Memory));
        };
        self.link.begin();
        self.book.begin(begins, self.link.requests(), limits);
        let fault = self.run_by_plan(programme, &plan, watches);
        check_run(&self.link, &mut self.book, programme)?;
        judge_end(&mut self.book, fault)
    }
}

// Lets the time go by until this moment, in milliseconds since the link was made; no time, if it is past.
fn wait_until(link: &mut Rehearsed<Seeded>, moment: u64)
    ensures { link.new.carried ≡ link.old.carried }
{
    link.wait(moment.saturating_sub(link.elapsed()));
}

// When a night is over that was due `begins` milliseconds after the line was made, in milliseconds since 1970: a day after it was due or,
// if that is longer, after the time of all its cycles and of one more.
fn end_of_night(programme: Programme<'_>, begins: u64) -> u64 {
    let every = programme.choice.every;
    let cycles = every.saturating_mul(programme.cycles).saturating_add(every);
    programme
        .start
        .saturating_add(begins)
        .saturating_add(cycles.max(DAY))
}

// How many cycles are left at `now` of a night that was due at `begins`, both in milliseconds since the line was made: all but those whose
// next one is due by then. All of them are left if the choice has no interval of cycles (0).
fn cycles_left(programme: Programme<'_>, begins: u64, now: u64) -> u64 {
    let gone = quotient(now.saturating_sub(begins), programme.choice.every);
    programme.cycles.saturating_sub(gone)
}

// How many acts are drawn at most until a kill, beyond `ACTS_BEFORE_KILL`: twice the acts with which the commands of a night's
// cycles are reckoned (`ACTS_OF_COMMAND`), divided by one more than its kills, so that these are spread over the night; at most
// the greatest `u32`.
fn most_acts_drawn(programme: Programme<'_>) -> u32 {
    let acts = (programme.commands as u64)
        .saturating_mul(programme.cycles)
        .saturating_mul(ACTS_OF_COMMAND);
    let share = quotient(acts.saturating_mul(2), programme.kills.saturating_add(1));
    u32::try_from(share).unwrap_or(u32::MAX)
}

// The number of the next kill of a night among those planned for all nights, counted from 1. `left`: how many kills are left of
// the night, that one included.
fn number_of_kill(programme: Programme<'_>, night: u64, left: u64) -> u64 {
    night
        .saturating_mul(programme.kills)
        .saturating_add(programme.kills.saturating_sub(left))
        .saturating_add(1)
}

// After how many acts of its run the next kill of a night comes, if `left` kills are left of the night; the greatest `u64` if
// none is. It is the sum of `ACTS_BEFORE_KILL` and of a number that is drawn uniformly from 0 to `most_acts_drawn`. Each planned
// kill has a draw of its own (`number_of_kill`), whether it comes or not.
fn acts_until_kill(programme: Programme<'_>, night: u64, left: u64) -> u64 {
    if left == 0 {
        return u64::MAX;
    }
    let draw = Draws::of_kills(programme.seed).draw(number_of_kill(programme, night, left), 1);
    among(draw, 0, most_acts_drawn(programme)).saturating_add(ACTS_BEFORE_KILL)
}

// How a run ended that stopped for this fault; `None`: it is done. The summary counts the last cycle of a run that is done, and
// leaves out the last one of any other, also if it has a row for each command; but it counts how the run ended. A run that was
// killed, or cut off at the end of its night, ended for that, whatever its fault. It fails with `Output` for any other run with
// that fault, and with `Memory` if memory was refused for the last cycle.
fn judge_end<K>(book: &mut RunBook<K>, fault: Option<RunFault>) -> Result<RunEnd, Halt> {
    let Some(fault) = fault else {
        if book.seen.summary.finish().is_err() {
            return Err(Halt::Fault(RunFault::Memory));
        }
        return Ok(RunEnd::Done);
    };
    book.seen.summary.leave();
    match (book.interruption(), fault) {
        (Some(Interruption::Killed), _) => {
            book.seen.summary.runs.count_killed();
            Ok(RunEnd::Killed)
        }
        (Some(Interruption::NightOver), _) => {
            book.seen.summary.runs.count_cut_off();
            Ok(RunEnd::CutOff)
        }
        (None, RunFault::Output) => Err(Halt::Fault(RunFault::Output)),
        (None, fault) => {
            book.seen.summary.runs.count_given_up(fault);
            Ok(RunEnd::GaveUp)
        }
    }
}

// Compares the rows of a run with the truth: by `check_rows`, or on a line that alters bytes by `explain_rows`, and counts then which
// aren't true. It fails as these two do.
fn check_run<K>(
    link: &Rehearsed<Seeded>,
    book: &mut RunBook<K>,
    programme: Programme<'_>,
) -> Result<(), Halt>
    ensures { programme.entry.alters ≡ false →
        Compares (IsIncomplete book.old.seen link.now.state.missing_truths) book.old.seen.claims.items link.now.state.truths.items programme.entry.seed result }
{
    if !programme.alters {
        return check_rows(link, book, programme.seed);
    }
    let falses = explain_rows(link, book, programme.seed)?;
    book.seen.summary.count_falses(falses);
    Ok(())
}

// Explains each row of a run that says that a reply came, and fails with `Untrue` at the first that nothing explains (`explain`). If
// memory was refused in this run or an earlier one, so that claims, counts or truths are missing, it explains none, and fails with
// the fault `Memory`.
fn explain_rows<K>(
    link: &Rehearsed<Seeded>,
    book: &RunBook<K>,
    seed: u64,
) -> Result<FalseRows, Halt>
    ensures { Explains (IsIncomplete book.now.seen link.now.state.missing_truths) book.now.seen.claims.items link.now.state.truths.items seed result }
{
    if book.seen.lacks_memory || link.missing_truths() > 0 {
        return Err(Halt::Fault(RunFault::Memory));
    }
    let claims = book.seen.claims.as_slice();
    let explained = explain(claims, link.truths());
    match claims.get(explained.rows) {
        Some(claim) => Err(Halt::Untrue(seed, FalseRow::of(claim))),
        None => Ok(explained.falses),
    }
}

// Compares each row of a run that says that a reply came with the truth, and fails with `Untrue` at the first false one. If
// memory was refused in this run or an earlier one, so that claims, counts or truths are missing, it compares none, and fails
// with the fault `Memory`.
fn check_rows<K>(link: &Rehearsed<Seeded>, book: &RunBook<K>, seed: u64) -> Result<(), Halt>
    ensures { Compares (IsIncomplete book.now.seen link.now.state.missing_truths) book.now.seen.claims.items link.now.state.truths.items seed result }
{
    if book.seen.lacks_memory || link.missing_truths() > 0 {
        return Err(Halt::Fault(RunFault::Memory));
    }
    let claims = book.seen.claims.as_slice();
    match first_false(claims, link.truths()) {
        Some(claim) => Err(Halt::Untrue(seed, FalseRow::of(claim))),
        None => Ok(()),
    }
}
