//! The mode at a line of a station's text: the settings for the next command, and the counts of the commands so far.
//!
//! A group is a run of commands for one target, with no line `chained`, `unchained`, `retry`, `agree`, `at start`,
//! `each cycle` or `every N cycles` between them. Where commands are chained, each command of a group but the first is chained to the one
//! before it. All commands of the setup are one chain.

ghost use Rattle.std.specs.Prelude.{◌≡◌, ◌≤◌};
ghost use Rattle.gc_texts.specs.Tasks.{CountsAtMost, first_mode, mode_after, mode_after_command, continues_group, chained_at, counter_at, counters_with, needs_from, place_in_chain, standing_in, task_at};
ghost use Rattle.gc_texts.specs.ValueItems.{values_asked};

use crate::again::Again;
use crate::agree::{Agree, Twice};
use crate::codes::Codes;
use crate::expectation::{Expectation, counts};
use crate::retry::Retry;
use crate::task_line::TaskLine;
use crate::tasks::Task;
use crate::turn::Turn;
use crate::value_item::{Needs, count_values};
use crate::wish::Wish;
use crate::wording::Wording;
use gc_catalogue::Asked;

// The settings for the next command that the lines before it make, and how many commands these lines have.
#[derive(Clone, Copy)]
pub(crate) struct Mode {
    // The deadline, in milliseconds.
    pub(crate) deadline: u64,
    // Whether commands are chained: `chained` or `unchained`, whichever line came last.
    pub(crate) chained: bool,
    // The target of the group that the next command may continue. `None`: the next command begins a group.
    pub(crate) group: Option<u32>,
    // The return codes that are accepted of commands, beside 0.
    pub(crate) accepted: Codes,
    // The return codes of commands by which the instrument says that it is busy.
    pub(crate) busy: Codes,
    // How often a chain is repeated, and after what.
    pub(crate) retry: Retry,
    // How far apart the answers of a chain may be, which is sent twice then. `None`: a chain is sent once.
    pub(crate) agree: Option<Agree>,
    // Whether the next command is one of the setup; if not, it is one of the cycle.
    pub(crate) setup: bool,
    // In every how many cycles the next command has its turn, if it is one of the cycle.
    pub(crate) every: u64,
    // How many commands of the setup are before the line.
    pub(crate) begun: usize,
    // How many commands of the cycle are before the line.
    pub(crate) place: usize,
    // How many commands before the line are in the last chain.
    pub(crate) link: usize,
    // How many commands before the line have an item `>`.
    pub(crate) counters: usize,
    // How many values of files the commands before the line take.
    pub(crate) values: usize,
}

// What decides, of the lines before a command, whether it may have an item `>`, and take values of files.
#[derive(Clone, Copy)]
pub(crate) struct Standing {
    // How many commands before it have an item `>`.
    pub(crate) counters: usize,
    // How many values of files the commands before it take.
    pub(crate) values: usize,
    // Whether it is one of the setup.
    pub(crate) setup: bool,
}

impl Mode {
    // What decides whether the next command may have an item `>`, and take values of files.
    pub(crate) fn standing(self) -> Standing
        ensures { result ≡ standing_in self }
    {
        Standing {
            counters: self.counters,
            values: self.values,
            setup: self.setup,
        }
    }
}

// The mode before the first line of a text: the caller's deadline, and whether the caller has commands chained.
pub(crate) fn first_mode(deadline: u64, chained: bool) -> Mode
    ensures { result ≡ first_mode deadline chained }
{
    Mode {
        deadline,
        chained,
        group: None,
        accepted: Codes::none(),
        busy: Codes::none(),
        retry: Retry::none(),
        agree: None,
        setup: false,
        every: 1,
        begun: 0,
        place: 0,
        link: 0,
        counters: 0,
        values: 0,
    }
}

// The place of a command in its chain, from 0; `mode` is the mode before the command. One of the setup, which is one chain, follows all
// of the setup's commands before it. In the cycle a chained command follows the one before it, and any other is the first.
fn place_in_chain(mode: Mode, chained: bool) -> usize
    ensures { result ≡ place_in_chain mode chained }
{
    if mode.setup {
        mode.begun
    } else if chained {
        mode.link
    } else {
        0
    }
}

// Whether a command for this target is chained; `mode` is the mode before the command. In the setup each command but the first is; in the
// cycle a command is if the mode chains commands and the command continues the group.
fn chained_at(mode: Mode, target: u32) -> bool
    ensures { result ≡ chained_at mode target }
{
    if mode.setup {
        mode.begun > 0
    } else {
        mode.chained && continues_group(mode.group, target)
    }
}

// How many commands have an item `>` with one more of which this is expected, where `counters` have one before it.
fn counters_with(counters: usize, expects: &Option<Expectation>) -> usize
    requires { counters ≤ 4294967295 }
    ensures { result ≡ counters_with counters expects.now }
{
    if counts(expects) {
        counters + 1
    } else {
        counters
    }
}

// The values of files that a command takes which takes so many of them, `first` of the text's being before it.
fn needs_from(first: usize, count: usize) -> Needs
    ensures { result ≡ needs_from first count }
{
    if count == 0 {
        Needs::none()
    } else {
        Needs { first, count }
    }
}

// Which of the text's items `>` is in what is expected of a command; `mode` is the mode before it. `None`: none is.
fn counter_at(mode: Mode, expects: &Option<Expectation>) -> Option<usize>
    ensures { result ≡ counter_at mode expects.now }
{
    if counts(expects) {
        Some(mode.counters)
    } else {
        None
    }
}

// How many values of files a command in this wording takes: only one of a described procedure takes any.
pub(crate) fn values_asked(wording: Wording, asked: &Asked) -> usize
    ensures is { result ≡ values_asked wording asked.now }
    ensures few { result ≤ 504 }
{
    match (wording, asked) {
        (Wording::Described, Asked::Raw(raw)) => count_values(raw.params()),
        _ => 0,
    }
}

// The mode after a command for this target that takes so many values of files, and of whose answer this is expected: the command is counted,
// and its target is that of the group.
fn mode_after_command(mode: Mode, target: u32, taken: usize, expects: &Option<Expectation>) -> Mode
    requires counts { CountsAtMost mode 4294967295 }
    requires taken { taken ≤ 504 }
    ensures { result ≡ mode_after_command mode target taken expects.now }
{
    let values = mode.values + taken;
    let link = place_in_chain(mode, chained_at(mode, target)) + 1;
    let counters = counters_with(mode.counters, expects);
    if mode.setup {
        Mode {
            group: Some(target),
            begun: mode.begun + 1,
            link,
            counters,
            values,
            ..mode
        }
    } else {
        Mode {
            group: Some(target),
            place: mode.place + 1,
            link,
            counters,
            values,
            ..mode
        }
    }
}

// The mode after a line, if `mode` holds before it. After a command the group is of its target, and the command is counted. A line
// `deadline` sets the deadline, `accept` the return codes that are accepted, and `busy` those that say that the instrument is busy.
// `chained` and `unchained` set whether commands are chained, `retry` how often chains are repeated, `agree` whether they are sent twice,
// `at start`, `each cycle` and `every N cycles` the section, the last of which also says in every how many cycles commands have their
// turn; these lines also end the group. A name, a place, a target that isn't watched or a description of a procedure changes nothing.
pub(crate) fn mode_after(mode: Mode, said: &TaskLine) -> Mode
    requires { CountsAtMost mode 4294967295 }
    ensures { result ≡ mode_after mode said.now }
{
    match said {
        TaskLine::Command(command, wording, expects) => {
            let taken = values_asked(*wording, &command.call);
            mode_after_command(mode, command.target, taken, expects)
        }
        TaskLine::Deadline(deadline) => Mode {
            deadline: *deadline,
            ..mode
        },
        TaskLine::Chained => Mode {
            chained: true,
            group: None,
            ..mode
        },
        TaskLine::Unchained => Mode {
            chained: false,
            group: None,
            ..mode
        },
        TaskLine::Naming(_)
        | TaskLine::Locating(_)
        | TaskLine::Unwatching(_)
        | TaskLine::Describing(_) => mode,
        TaskLine::Accepting(accepted) => Mode {
            accepted: *accepted,
            ..mode
        },
        TaskLine::Busy(busy) => Mode {
            busy: *busy,
            ..mode
        },
        TaskLine::Retrying(retry) => Mode {
            retry: *retry,
            group: None,
            ..mode
        },
        TaskLine::Agreeing(agree) => Mode {
            agree: *agree,
            group: None,
            ..mode
        },
        TaskLine::AtStart => Mode {
            setup: true,
            every: 1,
            group: None,
            ..mode
        },
        TaskLine::EachCycle => Mode {
            setup: false,
            every: 1,
            group: None,
            ..mode
        },
        TaskLine::Every(every) => Mode {
            setup: false,
            every: *every,
            group: None,
            ..mode
        },
    }
}

// Whether a command for this target continues the group: `group` is the target of that group's commands. `None`: there is no group to
// continue.
fn continues_group(group: Option<u32>, target: u32) -> bool
    ensures { result ≡ continues_group group target }
{
    match group {
        Some(before) => before == target,
        None => false,
    }
}

// The task of a command in the first attempt of its chain; `wording` says how its line says what to ask for, and `expects` what is expected
// of its answer. One of the setup has no cycles to wait for. The task has no place of its target yet, is watched, and its answers have no
// form (`place_tasks` sets these), and it has no rule of its chain nor is sent twice (`lay_out` sets both in the cycle).
pub(crate) fn task_at(
    mode: Mode,
    command: Wish,
    wording: Wording,
    expects: Option<Expectation>,
) -> Task
    ensures { result ≡ task_at mode command wording expects }
{
    let chained = chained_at(mode, command.target);
    let count = values_asked(wording, &command.call);
    Task {
        command,
        deadline: mode.deadline,
        chained,
        near: None,
        watched: true,
        form: None,
        accepted: mode.accepted,
        busy: mode.busy,
        expects,
        counter: counter_at(mode, &expects),
        again: Again::none(),
        turn: Turn {
            place: if mode.setup { mode.begun } else { mode.place },
            attempt: 1,
            link: place_in_chain(mode, chained),
        },
        others: 0,
        every: if mode.setup { 1 } else { mode.every },
        now: wording.sets_clock() || count > 0,
        needs: needs_from(mode.values, count),
        twice: Twice::Once,
    }
}
