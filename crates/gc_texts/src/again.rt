//! After which endings of its commands a chain is repeated.

ghost use Rattle.std.specs.Prelude.{◌≡◌};
ghost use Rattle.gc_texts.specs.Again.{has_code, repeats_after, no_again};
ghost use Rattle.gc_texts.specs.Endings.{ending_seen};

use crate::codes::Codes;
use crate::ending::Ending;
use crate::judgement::JudgementSet;

/// The return codes and outcomes after which a chain is repeated.
#[derive(Clone, Copy)]
pub struct Again {
    /// The return codes of an answered command after which the chain is repeated.
    pub codes: Codes,
    /// Whether the chain is repeated after a reply whose codes are 0, and whose values don't read.
    pub unreadable: bool,
    /// After which judgements of an answer the chain is repeated.
    pub judged: JudgementSet,
    /// Whether the chain is repeated after a late reply.
    pub late: bool,
    /// Whether the chain is repeated after a command that was sent and got no reply.
    pub lost: bool,
    /// Whether the chain is repeated after a command that was skipped, or for which a value of a file wasn't there.
    pub skipped: bool,
}

impl Again {
    /// No code and no outcome: a chain with this isn't repeated.
    pub fn none() -> Again
        ensures { result ≡ no_again }
    {
        Again {
            codes: Codes::none(),
            unreadable: false,
            judged: JudgementSet::none(),
            late: false,
            lost: false,
            skipped: false,
        }
    }

    // Whether `code`, the return code of a reply, is one of `codes`. `None` never is: it stands for a return code of 0, or a
    // communication code other than 0.
    fn has_code(&self, code: Option<u16>) -> bool
        ensures { result ≡ has_code self.now.codes code }
    {
        match code {
            Some(code) => self.codes.has(code),
            None => false,
        }
    }

    /// Whether a chain with this rule is repeated after this ending of one of its commands. After an ending `Answered` only
    /// `code` decides: the return code of the reply, or `None` if it is 0 or the communication code isn't 0. After any other
    /// ending its outcome alone decides; after a missed cycle the chain is never repeated.
    pub fn repeats_after(&self, code: Option<u16>, ending: Ending<'_>) -> bool
        ensures { result ≡ repeats_after self.now code (ending_seen ending.entry) }
    {
        match ending {
            Ending::Answered(..) => self.has_code(code),
            Ending::Unreadable(..) => self.unreadable,
            Ending::Judged(judgement, _) => self.judged.has(judgement),
            Ending::Late => self.late,
            Ending::Lost => self.lost,
            Ending::Skipped | Ending::NoValue => self.skipped,
            Ending::Missed => false,
        }
    }
}
