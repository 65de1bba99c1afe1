//! The attempts of the chains of a station's text: which tasks a chain gives, one attempt after the other.

ghost use Rattle.std.specs.Prelude.{◌≡◌, ◌<◌, ◌≤◌, ◌-◌, ◌++◌, length, map, take, drop, OnOk, OnErr};
ghost use Rattle.gc_texts.specs.Attempts.{attempt_number, in_attempt, tasks_planned, attempts, laid_out};
ghost use Rattle.gc_texts.specs.Sendings.{sent_from, sendings};

use crate::again::Again;
use crate::agree::{Agree, Twice};
use crate::retry::Retry;
use crate::sending::{Sending, sent_as};
use crate::tasks::Task;
use crate::turn::Turn;
use std::alloc::AllocError;

// A command of the cycle: its task in the first attempt, how often its chain is repeated, and whether an attempt sends it twice.
#[derive(Clone, Copy)]
pub(crate) struct Planned {
    pub(crate) task: Task,
    pub(crate) retry: Retry,
    pub(crate) agree: Option<Agree>,
}

// An attempt of a chain.
#[derive(Clone, Copy)]
struct Attempt {
    // Which one it is, counted from 1.
    number: u64,
    // After which endings of its commands the chain is repeated.
    again: Again,
    // How many commands this attempt and those after it have together.
    commands: usize,
}

// The number of an attempt as its tasks have it, by their sending: two sendings are counted as two attempts.
fn attempt_number(attempt: u64, twice: Twice) -> u64
    requires some { 0 < attempt }
    requires few { attempt < 4294967296 }
    ensures { result ≡ attempt_number attempt twice }
{
    match twice {
        Twice::Once => attempt,
        Twice::First => 2 * attempt - 1,
        Twice::Second { .. } => 2 * attempt,
    }
}

// A command in this attempt of its chain. Only the first command of an attempt other than the first records how many commands are left.
fn in_attempt(attempt: Attempt, task: Task) -> Task
    requires some { 0 < attempt.number }
    requires few { attempt.number < 4294967296 }
    ensures { result ≡ in_attempt attempt.number attempt.again attempt.commands task }
{
    let others = if attempt.number > 1 && task.turn.link == 0 {
        attempt.commands
    } else {
        0
    };
    Task {
        again: attempt.again,
        turn: Turn {
            attempt: attempt_number(attempt.number, task.twice),
            ..task.turn
        },
        others,
        ..task
    }
}

// Appends the tasks of one sending of a chain in this attempt. Fails if memory was refused: then some of them may have been appended.
fn push_sending(
    tasks: &mut Vec<Task>,
    chain: &[Planned],
    attempt: Attempt,
    sending: Sending,
) -> Result<(), AllocError>
    requires short { length chain.now < 4294967296 }
    requires some { 0 < attempt.number }
    requires few { attempt.number < 4294967296 }
    ensures appends { OnOk result (tasks.new.items ≡ tasks.old.items
        ++ map (in_attempt attempt.number attempt.again attempt.commands) (sent_from sending (length chain.now) 0 (tasks_planned chain.now))) }
    ensures wants { OnErr result (0 < length chain.now) }
{
    for (nth, planned) in chain.iter().enumerate() {
        tasks.reserve(1)?;
        tasks.push_reserved(in_attempt(attempt, sent_as(sending, chain.len(), nth, planned.task)));
    }
    Ok(())
}

// Appends the tasks of this attempt of a chain: of its one sending, or of both. Fails if memory was refused: then some of them may have
// been appended.
fn push_attempt(
    tasks: &mut Vec<Task>,
    chain: &[Planned],
    attempt: Attempt,
    agree: Option<Agree>,
) -> Result<(), AllocError>
    requires short { length chain.now < 4294967296 }
    requires some { 0 < attempt.number }
    requires few { attempt.number < 4294967296 }
    ensures appends { OnOk result (tasks.new.items ≡ tasks.old.items
        ++ map (in_attempt attempt.number attempt.again attempt.commands) (sendings agree (tasks_planned chain.now))) }
    ensures wants { OnErr result (0 < length chain.now) }
{
    match agree {
        None => push_sending(tasks, chain, attempt, Sending::Once),
        Some(agree) => {
            push_sending(tasks, chain, attempt, Sending::First)?;
            push_sending(tasks, chain, attempt, Sending::Second(agree))
        }
    }
}

// How many commands an attempt of a chain has: twice as many as the chain if it is sent twice.
fn commands_in_attempt(chain: &[Planned], agree: Option<Agree>) -> usize
    requires { length chain.now < 4294967296 }
    ensures is { result ≡ length (sendings agree (tasks_planned chain.now)) }
    ensures few { result < 8589934592 }
{
    match agree {
        None => chain.len(),
        Some(_) => chain.len() + chain.len(),
    }
}

// Appends the tasks of all attempts of a chain: of the first, and of as many more as `retry` allows; a chain without commands has no
// tasks. Fails if memory was refused: then some of them may have been appended.
fn push_attempts(
    tasks: &mut Vec<Task>,
    chain: &[Planned],
    retry: Retry,
    agree: Option<Agree>,
) -> Result<(), AllocError>
    requires { length chain.now < 4294967296 }
    ensures appends { OnOk result (tasks.new.items ≡ tasks.old.items ++ attempts retry agree chain.now) }
    ensures wants { OnErr result (0 < length chain.now) }
{
    let commands = commands_in_attempt(chain, agree);
    let mut number = 1u64;
    let mut left = retry.times;
    while left > 0 {
        let attempt = Attempt {
            number,
            again: retry.again,
            commands: commands * (left as usize + 1),
        };
        push_attempt(tasks, chain, attempt, agree)?;
        number += 1;
        left -= 1;
    }
    let last = Attempt {
        number,
        again: Again::none(),
        commands,
    };
    push_attempt(tasks, chain, last, agree)
}

// The commands of `cycle` at place `from` and after it, but before place `to`.
fn part(cycle: &[Planned], from: usize, to: usize) -> &[Planned]
    requires up { from ≤ to }
    requires within { to ≤ length cycle.now }
    ensures { result.now ≡ take (to - from) (drop from cycle.now) }
{
    &cycle[from..to]
}

// Appends the tasks of all attempts of the chains that these commands form, chain by chain; each command that isn't chained
// begins a chain, which is repeated as the `retry` of this command says, and sent once or twice in an attempt as its `agree` says. A first
// command that is chained, which no text gives, would begin a chain that isn't repeated. Fails if memory was refused: then some of the
// tasks may have been appended.
pub(crate) fn lay_out(tasks: &mut Vec<Task>, cycle: &[Planned]) -> Result<(), AllocError>
    requires { length cycle.now < 4294967296 }
    ensures appends { OnOk result (tasks.new.items ≡ tasks.old.items ++ laid_out cycle.now) }
    ensures wants { OnErr result (0 < length cycle.now) }
{
    let mut retry = Retry::none();
    let mut agree = None;
    let mut from = 0;
    let mut place = 0;
    while place < cycle.len() {
        let planned = cycle[place];
        if planned.task.chained {
            place += 1;
            continue;
        }
        push_attempts(tasks, part(cycle, from, place), retry, agree)?;
        from = place;
        retry = planned.retry;
        agree = planned.agree;
        place += 1;
    }
    push_attempts(tasks, part(cycle, from, place), retry, agree)
}
