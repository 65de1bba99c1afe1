//! The sendings of a chain in one attempt: one, or, where a line `agree` holds for it, two, of which the second is chained to the first.

ghost use Rattle.std.specs.Prelude.{◌≡◌, ◌<◌};
ghost use Rattle.gc_texts.specs.Sendings.{sent_as};

use crate::agree::{Agree, Twice};
use crate::tasks::Task;
use crate::turn::Turn;

// One of the sendings of a chain in an attempt.
#[derive(Clone, Copy)]
pub(crate) enum Sending {
    // The only one.
    Once,
    // The first of two.
    First,
    // The second of two, and how far apart its values may be from those of the first.
    Second(Agree),
}

// A command of a chain as it is in this sending; `nth` is its place in the chain, counted from 0, and `count` how many commands the
// chain has. In two sendings the places of the commands are counted through both, and all commands of the second are chained.
pub(crate) fn sent_as(sending: Sending, count: usize, nth: usize, task: Task) -> Task
    requires few { count < 4294967296 }
    requires within { nth < count }
    ensures { result ≡ sent_as sending count nth task }
{
    match sending {
        Sending::Once => task,
        Sending::First => Task {
            turn: Turn {
                link: nth,
                ..task.turn
            },
            twice: Twice::First,
            ..task
        },
        Sending::Second(agree) => Task {
            chained: true,
            turn: Turn {
                link: count + nth,
                ..task.turn
            },
            twice: Twice::Second { agree, nth },
            ..task
        },
    }
}
