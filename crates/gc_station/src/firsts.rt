//! The answers of a chain's first sending, with which those of its second are compared. A chain that is sent once has none.

ghost use Rattle.std.specs.Prelude.{◌≡◌, [], None, slice_get, unwrap_or};
ghost use Rattle.gc_station.specs.Firsts.{answer_of, answer_first, compares, first_for, put, first_noted};
ghost use Rattle.gc_texts.specs.Endings.{ending_seen};

use crate::mark::Mark;
use arrayvec::ArrayVec;
use gc_catalogue::Answer;
use gc_texts::{Ending, Expected, Form, Quality, Turn, Twice};
use std::marker::Model;

/// How many answers of a first sending are kept. A command of a second sending that is further behind in its chain ends as
/// `Disagree`, whatever its answer is.
pub const FIRSTS: usize = 32;

/// The answer of a command in the first sending of its chain.
#[derive(Clone, Copy)]
pub(crate) struct FirstAnswer {
    /// The cycle, counted from 1; 0 for a command of the setup.
    pub cycle: u64,
    /// Which command of the text was answered, in which attempt.
    pub turn: Turn,
    /// Its answer. `None`: with an accepted return code, and values that don't read.
    pub answer: Option<Answer>,
}

// Whether the answers of a command are compared in all that they have in columns, by the form by which they are read, if there is one.
fn compares(form: &Option<Form>) -> bool
    ensures { result ≡ compares form.now }
{
    match form {
        Some(form) => form.is_compared(),
        None => true,
    }
}

impl FirstAnswer {
    // The answer, if it's that of the same command of the text as this turn is of, in the same cycle and in the attempt before.
    fn of(&self, cycle: u64, turn: Turn) -> Option<Option<Answer>>
        ensures { result ≡ answer_of self.now cycle turn }
    {
        if self.cycle == cycle
            && self.turn.place == turn.place
            && turn.attempt.saturating_sub(self.turn.attempt) == 1
        {
            Some(self.answer)
        } else {
            None
        }
    }
}

/// The answers of the chain that was sent the first time last, in order.
#[derive(Drop)]
pub(crate) struct Firsts {
    answers: ArrayVec<Option<FirstAnswer>, FIRSTS>,
}

impl Model for Firsts {
    ghost use Rattle.std.specs.Prelude.{List, Option};
    ghost use Rattle.gc_station.specs.declared.firsts.FirstAnswer.{FirstAnswer};

    ghost Value = { List (Option FirstAnswer) };

    ghost view = { λ f. f.answers.items };
}

impl Firsts {
    // No command of a first sending was answered yet.
    pub(crate) fn new() -> Firsts
        ensures { result ≡ [] }
    {
        Firsts {
            answers: ArrayVec::new(),
        }
    }

    // Puts an answer into the place of its command in the chain, and discards those from there on. One that comes after 32
    // commands isn't kept.
    fn put(&mut self, answer: FirstAnswer)
        ensures { self.new ≡ put answer self.old }
    {
        if answer.turn.link < FIRSTS {
            self.answers.truncate(answer.turn.link);
            self.answers.push(Some(answer));
        }
    }

    // Notes that the command with this mark was recorded with this ending: its answer, if that is unconfirmed.
    pub(crate) fn note(&mut self, mark: &Mark, ending: Ending<'_>)
        ensures { self.new ≡ first_noted mark.now.cycle mark.now.expected.turn (ending_seen ending.entry) self.old }
    {
        if let Ending::Answered(Quality::Unconfirmed, answer, _) = ending {
            self.put(FirstAnswer {
                cycle: mark.cycle,
                turn: mark.expected.turn,
                answer: answer.copied(),
            });
        }
    }

    // The answer of the first sending with which that of a command in this cycle, of which this is expected, is compared. `None`: none
    // is kept, or the command isn't of a second sending, or its answers aren't compared in all that they have in columns.
    pub(crate) fn answer_for(&self, cycle: u64, expected: &Expected) -> Option<Option<Answer>>
        ensures { result ≡ first_for self.now cycle expected.now }
    {
        if compares(&expected.form) {
            self.answer_first(cycle, expected)
        } else {
            None
        }
    }

    // The answer of the first sending, as `answer_for`, of a command whose answers are compared in all that they have in columns.
    fn answer_first(&self, cycle: u64, expected: &Expected) -> Option<Option<Answer>>
        ensures { result ≡ answer_first self.now cycle expected.now.turn expected.now.twice }
    {
        match expected.twice {
            Twice::Second { nth, .. } => self.at(nth)?.of(cycle, expected.turn),
            Twice::Once | Twice::First => None,
        }
    }

    // The answer at this place of the chain, if it is kept.
    fn at(&self, nth: usize) -> Option<FirstAnswer>
        ensures { result ≡ unwrap_or (slice_get self.now nth) None }
    {
        self.answers.get(nth).copied().flatten()
    }
}
