//! Watching: which commands of a run are watched, and when each was answered well last. A run is stale by the one of which that is the
//! longest ago; commands of the setup aren't watched, nor those whose target the text leaves unwatched.

ghost use Rattle.std.specs.Prelude.{◌≡◌, ◌==◌, ◌&&◌, ◌++◌, drop, map, nat_lt, IfOk, OnOk};
ghost use Rattle.gc_texts.specs.Endings.{ending_seen};
ghost use Rattle.gc_station.specs.Marks.{ended_confirmed};
ghost use Rattle.gc_station.specs.Watching.{is_watched, watched_at, watched_in, watched_of, places_of, unanswered, renewed_if, renewed, cut_to, older, oldest};

use crate::mark::Mark;
use crate::writing::is_confirmed;
use gc_links::Moment;
use gc_texts::{Ending, Task};
use std::alloc::{AllocError, Global};
use std::marker::Model;

/// A watched command of a text's cycle. All of its attempts, in each cycle, count as this one command.
#[derive(Clone, Copy)]
pub struct Watch {
    /// Its place among the commands of the text's cycle, counted from 0, as the `turn` of its tasks has it.
    pub place: usize,
    /// When it was recorded last as answered well, by the clock for deadlines; 0 if it never was; an earlier moment if the clock went
    /// back past it since.
    pub fresh: u64,
    /// The same in milliseconds since 1970-01-01, UTC. `None`: it never was.
    pub utc: Option<u64>,
}

/// The watched commands of a run, in the text's order. A run takes no memory for them.
#[derive(Drop)]
pub struct Watches {
    watches: Vec<Watch>,
    // The one that was answered well the longest ago.
    oldest: Option<Watch>,
    // A moment after which none was answered well.
    newest: u64,
}

impl Model for Watches {
    ghost use Rattle.std.specs.Prelude.{List};
    ghost use Rattle.gc_station.specs.Watching.{AreWatched};
    ghost use Rattle.gc_station.specs.declared.watching.Watch.{Watch};

    ghost Value = { List Watch };

    ghost view = { λ w. w.watches.items };

    ghost invariant = { λ w. AreWatched w.watches.items w.oldest w.newest };
}

// A watched command before its first answer.
fn unanswered(place: usize) -> Watch
    ensures { result ≡ unanswered place }
{
    Watch {
        place,
        fresh: 0,
        utc: None,
    }
}

// Whether a task stands for a command that is watched: its target is, and the task is in the first attempt of its chain.
fn is_watched(task: &Task) -> bool
    ensures { result ≡ is_watched task.entry.now }
{
    task.watched && task.turn.attempt == 1
}

// The commands after the first `setup`.
fn after_setup(setup: usize, commands: &[Task]) -> &[Task]
    ensures { result.now ≡ drop setup commands.now }
{
    match commands.get(setup..) {
        Some(cycle) => cycle,
        None => &[],
    }
}

// Appends the task as a watched command before its first answer, if it stands for one. `Err`: memory was refused.
fn push_watched(watches: &mut Vec<Watch>, task: &Task) -> Result<(), AllocError>
    ensures { OnOk result (watches.new.items ≡ watches.old.items ++ map unanswered (watched_at task.entry.now)) }
{
    if is_watched(task) {
        watches.push(unanswered(task.turn.place))?;
    }
    Ok(())
}

// The watched ones of these tasks, before their first answer. `Err`: memory was refused.
fn watches_in(alloc: Global, tasks: &[Task]) -> Result<Vec<Watch>, AllocError>
    ensures { IfOk result (λ watches. watches.items ≡ map unanswered (watched_in tasks.now)) }
{
    let mut watches = Vec::new(alloc);
    for task in tasks {
        push_watched(&mut watches, task)?;
    }
    Ok(watches)
}

// The one of two watched commands that was answered well longer ago; the first if both were at one moment or there is no other.
fn older(found: Option<Watch>, watch: &Watch) -> Watch
    ensures { result ≡ older found watch.now }
{
    let Some(found) = found else { return *watch };
    if watch.fresh < found.fresh {
        *watch
    } else {
        found
    }
}

// The watched command that was answered well the longest ago. `None`: nothing is watched.
fn oldest_of(watches: &[Watch]) -> Option<Watch>
    ensures { result ≡ oldest watches.now }
{
    let mut found = None;
    for watch in watches {
        found = Some(older(found, watch));
    }
    found
}

// Sets each watched command to how it was before its first answer.
fn begin_each(watches: &mut Vec<Watch>)
    ensures { watches.new.items ≡ map (λ watch. unanswered watch.place) watches.old.items }
{
    for watch in watches.iter_mut() {
        *watch = unanswered(watch.place);
    }
}

// Whether the record of a command with this cycle and ending renews the watched command that it is of: it is of a cycle, and was answered
// well, without having to be confirmed by a second sending. A command of the setup has cycle 0.
fn renews(cycle: u64, ending: Ending<'_>) -> bool
    ensures { result ≡ (ended_confirmed (ending_seen ending.entry) && nat_lt 0 cycle) }
{
    is_confirmed(ending) && cycle > 0
}

// Renews each watched command with this place, which was answered well and recorded at the moment `now`.
fn renew_each(watches: &mut Vec<Watch>, place: usize, now: Moment)
    ensures { watches.new.items ≡ map (λ watch. renewed_if (watch.place == place) now.elapsed now.utc watch) watches.old.items }
{
    for watch in watches.iter_mut() {
        *watch = renewed_if(watch.place == place, now, *watch);
    }
}

// A watched command, if it `is` renewed at the moment `now`; otherwise as it was.
fn renewed_if(is: bool, now: Moment, watch: Watch) -> Watch
    ensures { result ≡ renewed_if is now.elapsed now.utc watch }
{
    if is {
        Watch {
            place: watch.place,
            fresh: now.elapsed,
            utc: Some(now.utc),
        }
    } else {
        watch
    }
}

// Cuts each watched command to the moment `now`.
fn cut_each(watches: &mut Vec<Watch>, now: u64)
    ensures { watches.new.items ≡ map (cut_to now) watches.old.items }
{
    for watch in watches.iter_mut() {
        *watch = cut_to(now, *watch);
    }
}

// A watched command at the moment `now`: it was answered well last by then, also if the clock went back past that.
fn cut_to(now: u64, watch: Watch) -> Watch
    ensures { result ≡ cut_to now watch }
{
    Watch {
        fresh: watch.fresh.min(now),
        ..watch
    }
}

impl Watches {
    /// What is watched of a text's commands, of which the first `setup` are the setup: each command of the cycle whose target isn't
    /// left unwatched. `Err`: memory was refused.
    pub fn of(alloc: Global, setup: usize, commands: &[Task]) -> Result<Watches, AllocError>
        ensures { IfOk result (λ watches. places_of watches ≡ watched_of setup commands.now) }
    {
        let watches = watches_in(alloc, after_setup(setup, commands))?;
        let oldest = oldest_of(watches.as_slice());
        Ok(Watches {
            watches,
            oldest,
            newest: 0,
        })
    }

    // Begins a run: no watched command was answered yet.
    pub(crate) fn begin(&mut self)
        ensures { self.new ≡ map unanswered (places_of self.old) }
    {
        begin_each(&mut self.watches);
        self.oldest = oldest_of(self.watches.as_slice());
        self.newest = 0;
    }

    // The watched command that was answered well the longest ago. `None`: nothing is watched.
    pub(crate) fn oldest(&self) -> Option<Watch>
        ensures { result ≡ oldest self.now }
    {
        self.oldest
    }

    // Notes that the command with this mark was recorded at the moment `now`, with this ending.
    pub(crate) fn note(&mut self, mark: &Mark, now: Moment, ending: Ending<'_>)
        ensures { self.new ≡ map (renewed now.elapsed now.utc mark.now.cycle mark.now.expected.turn.place (ending_seen ending.entry)) self.old }
    {
        if renews(mark.cycle, ending) {
            self.renew(mark.expected.turn.place, now);
        }
    }

    // Renews each watched command with this place, which was answered well and recorded at the moment `now`.
    fn renew(&mut self, place: usize, now: Moment)
        ensures { self.new ≡ map (λ watch. renewed_if (watch.place == place) now.elapsed now.utc watch) self.old }
    {
        renew_each(&mut self.watches, place, now);
        self.oldest = oldest_of(self.watches.as_slice());
        self.newest = self.newest.max(now.elapsed);
    }

    // Cuts each watched command to the moment `now`, which is earlier than it only if the clock went back.
    pub(crate) fn cut(&mut self, now: u64)
        ensures { self.new ≡ map (cut_to now) self.old }
    {
        if now < self.newest {
            cut_each(&mut self.watches, now);
            self.oldest = oldest_of(self.watches.as_slice());
            self.newest = now;
        }
    }
}
