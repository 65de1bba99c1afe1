//! Judgements: the outcomes of replies that came in time, and that a rule of the station's text sets aside. All that is said of one of
//! these outcomes alone, whatever rule it is of, is said here.

ghost use Rattle.std.specs.Prelude.{◌≡◌, ◌≤◌, length};
ghost use Rattle.gc_texts.specs.Judgements.{IsJudgement, judgement_word, leaves_doubt, no_judgement, has_judgement, with_judgement, none_judged, judged_count, judged_one_more, judged_sum};
ghost use Rattle.gc_texts.specs.LineForms.{IsReadAs};

use crate::cuts::is_word;

/// How a reply that came in time was set aside, though neither its codes nor its values are at fault.
#[derive(Clone, Copy)]
pub enum Judgement {
    /// Its values read, with both codes 0 or an accepted return code taken for 0, and were measured away from where its target is.
    OffTarget,
    /// Its values aren't those that the command's line `expect` expects.
    Unexpected,
    /// It came in the second sending of its chain, and doesn't agree with the answer of the same command in the first.
    Disagree,
}

/// All judgements, in the order of their counts.
pub const JUDGEMENTS: [Judgement; 3] = [
    Judgement::OffTarget,
    Judgement::Unexpected,
    Judgement::Disagree,
];

impl Judgement {
    /// The word of this outcome in records, and in a line `retry`.
    pub fn word(self) -> &'static [u8]
        ensures is { result.now ≡ judgement_word self }
        ensures short { length result.now ≤ 16 }
    {
        match self {
            Judgement::OffTarget => b"off_target",
            Judgement::Unexpected => b"unexpected",
            Judgement::Disagree => b"disagree",
        }
    }

    /// Whether it says by itself that the values may be wrong ones. Those that are off target may well be right.
    pub fn leaves_doubt(self) -> bool
        ensures { result ≡ leaves_doubt self }
    {
        match self {
            Judgement::OffTarget => false,
            Judgement::Unexpected | Judgement::Disagree => true,
        }
    }

    /// The judgement with this word. `None`: there is none.
    pub fn named(word: &[u8]) -> Option<Judgement>
        ensures { IsReadAs (IsJudgement word.now) result }
    {
        if is_word(b"off_target", word) {
            return Some(Judgement::OffTarget);
        }
        if is_word(b"unexpected", word) {
            return Some(Judgement::Unexpected);
        }
        if is_word(b"disagree", word) {
            return Some(Judgement::Disagree);
        }
        None
    }
}

/// A set of judgements.
#[derive(Clone, Copy)]
pub struct JudgementSet {
    /// Whether `OffTarget` is in it.
    pub off_target: bool,
    /// Whether `Unexpected` is in it.
    pub unexpected: bool,
    /// Whether `Disagree` is in it.
    pub disagree: bool,
}

impl JudgementSet {
    /// The empty set.
    pub fn none() -> JudgementSet
        ensures { result ≡ no_judgement }
    {
        JudgementSet {
            off_target: false,
            unexpected: false,
            disagree: false,
        }
    }

    /// Whether the set has this judgement.
    pub fn has(self, judgement: Judgement) -> bool
        ensures { result ≡ has_judgement self judgement }
    {
        match judgement {
            Judgement::OffTarget => self.off_target,
            Judgement::Unexpected => self.unexpected,
            Judgement::Disagree => self.disagree,
        }
    }

    /// The set with this judgement added.
    pub fn with(self, judgement: Judgement) -> JudgementSet
        ensures { result ≡ with_judgement self judgement }
    {
        match judgement {
            Judgement::OffTarget => JudgementSet {
                off_target: true,
                ..self
            },
            Judgement::Unexpected => JudgementSet {
                unexpected: true,
                ..self
            },
            Judgement::Disagree => JudgementSet {
                disagree: true,
                ..self
            },
        }
    }
}

/// How many commands each judgement ended. A count stops at 2^64 - 1.
#[derive(Clone, Copy)]
pub struct JudgementCounts {
    /// How many `OffTarget` ended.
    pub off_target: u64,
    /// How many `Unexpected` ended.
    pub unexpected: u64,
    /// How many `Disagree` ended.
    pub disagree: u64,
}

impl JudgementCounts {
    /// None ended a command.
    pub fn none() -> JudgementCounts
        ensures { result ≡ none_judged }
    {
        JudgementCounts {
            off_target: 0,
            unexpected: 0,
            disagree: 0,
        }
    }

    /// How many commands this judgement ended.
    pub fn of(self, judgement: Judgement) -> u64
        ensures { result ≡ judged_count judgement self }
    {
        match judgement {
            Judgement::OffTarget => self.off_target,
            Judgement::Unexpected => self.unexpected,
            Judgement::Disagree => self.disagree,
        }
    }

    /// The counts after one more command that this judgement ended.
    pub fn one_more(self, judgement: Judgement) -> JudgementCounts
        ensures { result ≡ judged_one_more judgement self }
    {
        match judgement {
            Judgement::OffTarget => JudgementCounts {
                off_target: self.off_target.saturating_add(1),
                ..self
            },
            Judgement::Unexpected => JudgementCounts {
                unexpected: self.unexpected.saturating_add(1),
                ..self
            },
            Judgement::Disagree => JudgementCounts {
                disagree: self.disagree.saturating_add(1),
                ..self
            },
        }
    }

    /// The sum of both, count by count.
    pub fn sum(self, other: JudgementCounts) -> JudgementCounts
        ensures { result ≡ judged_sum self other }
    {
        JudgementCounts {
            off_target: self.off_target.saturating_add(other.off_target),
            unexpected: self.unexpected.saturating_add(other.unexpected),
            disagree: self.disagree.saturating_add(other.disagree),
        }
    }
}
