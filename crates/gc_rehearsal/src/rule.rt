//! Rules: what one line of the text says. The words of the text, and what follows each, are defined here alone.

ghost use Rattle.std.specs.Prelude.{◌≡◌, ◌<◌, IsTrue, ◌↔◌, IfOk, IfErr};
ghost use Rattle.gc_texts.specs.LineForms.{IsReadAs};
ghost use Rattle.gc_rehearsal.specs.RuleForms.{name_of, shape_of, place_of, IsPercentage, IsLasting, IsSpan, AreTimes, IsFrequency, IsRule, IsNoRule};

use crate::frequency::Frequency;
use crate::share::{WHOLE, read_share};
use crate::spaced::{front_word, is_blank, other_words};
use gc_texts::u32_of;

// The longest time that a rule may name, in milliseconds: a day.
const MILLIS_MAX: u32 = 86_400_000;

// The greatest number of kills a night.
const TIMES_MAX: u32 = 1000;

// How many words there are.
pub(crate) const WORDS: usize = 9;

/// A word of the text: what a rule is about.
#[derive(Clone, Copy)]
pub enum Word {
    /// Each line is delayed for a time.
    Delay,
    /// A line is lost.
    Lose,
    /// A second copy of a line directly follows it.
    Repeat,
    /// For a time neither a line nor any that sets out later arrives.
    Hold,
    /// In place of a line the connection ends.
    Close,
    /// After a close connections are refused for a time.
    Refuse,
    /// At a line the instrument restarts.
    Restart,
    /// A byte of a line is altered: a percentage of bytes, where that of the other words is one of lines.
    Alter,
    /// The station is killed a number of times a night.
    Kill,
}

// The form of what follows a word.
#[derive(Clone, Copy)]
enum Shape {
    // `P`: a percentage.
    Share,
    // `P MS`: a percentage and a time in milliseconds.
    Lasting,
    // `FROM TO`: two times in milliseconds, and the word applies to each line.
    Span,
    // `N`: how many times.
    Times,
}

impl Word {
    // The word as the text has it.
    fn name(self) -> &'static [u8]
        ensures { result.now ≡ name_of self }
    {
        match self {
            Word::Delay => b"delay",
            Word::Lose => b"lose",
            Word::Repeat => b"repeat",
            Word::Hold => b"hold",
            Word::Close => b"close",
            Word::Refuse => b"refuse",
            Word::Restart => b"restart",
            Word::Alter => b"alter",
            Word::Kill => b"kill",
        }
    }

    // The form of what follows the word.
    fn shape(self) -> Shape
        ensures { result ≡ shape_of self }
    {
        match self {
            Word::Delay => Shape::Span,
            Word::Lose | Word::Repeat | Word::Close => Shape::Share,
            Word::Restart | Word::Alter => Shape::Share,
            Word::Hold | Word::Refuse => Shape::Lasting,
            Word::Kill => Shape::Times,
        }
    }

    // The place of the word among all words, counted from 0.
    pub(crate) fn place(self) -> usize
        ensures is { result ≡ place_of self }
        ensures below { result < 9 }
    {
        match self {
            Word::Delay => 0,
            Word::Lose => 1,
            Word::Repeat => 2,
            Word::Hold => 3,
            Word::Close => 4,
            Word::Refuse => 5,
            Word::Restart => 6,
            Word::Alter => 7,
            Word::Kill => 8,
        }
    }

    // Whether a text is this word.
    fn is_named(self, text: &[u8]) -> bool
        ensures { IsTrue result ↔ (name_of self ≡ text.now) }
    {
        self.name() == text
    }

    // The word that is written as this text. `None`: no word is.
    fn read(text: &[u8]) -> Option<Word>
        ensures { IsReadAs (λ word. name_of word ≡ text.now) result }
    {
        // Word by word: where all are refused, each refusal is a part of the proof that the text is no word.
        if Word::Delay.is_named(text) {
            return Some(Word::Delay);
        }
        if Word::Lose.is_named(text) {
            return Some(Word::Lose);
        }
        if Word::Repeat.is_named(text) {
            return Some(Word::Repeat);
        }
        if Word::Hold.is_named(text) {
            return Some(Word::Hold);
        }
        if Word::Close.is_named(text) {
            return Some(Word::Close);
        }
        if Word::Refuse.is_named(text) {
            return Some(Word::Refuse);
        }
        if Word::Restart.is_named(text) {
            return Some(Word::Restart);
        }
        if Word::Alter.is_named(text) {
            return Some(Word::Alter);
        }
        if Word::Kill.is_named(text) {
            return Some(Word::Kill);
        }
        None
    }
}

// What a line says: a word, how often it applies, and from which range it draws a number.
#[derive(Clone, Copy)]
pub(crate) struct Rule {
    pub(crate) word: Word,
    pub(crate) frequency: Frequency,
}

/// What is wrong with a line of the text.
#[derive(Clone, Copy)]
pub enum RuleFault {
    /// Its first word is no word of the text.
    NoWord,
    /// What follows this word hasn't the form or the range that it takes.
    Form(Word),
    /// An earlier line has this word.
    Again(Word),
}

// Reads `P`: a percentage, with no number to draw. `None`: the text has another form, or P is above 100.
fn read_percentage(text: &[u8]) -> Option<Frequency>
    ensures { IsReadAs (IsPercentage text.now) result }
{
    let share = read_share(front_word(text))?;
    if !is_blank(other_words(text)) {
        return None;
    }
    Some(Frequency {
        share,
        least: 0,
        most: 0,
    })
}

// Reads `P MS`: a percentage and a time in milliseconds, which is the only number to draw. `None`: the text has another form, P
// is above 100, or MS above `MILLIS_MAX`.
fn read_lasting(text: &[u8]) -> Option<Frequency>
    ensures { IsReadAs (IsLasting text.now) result }
{
    let share = read_share(front_word(text))?;
    let others = other_words(text);
    let millis = u32_of(front_word(others), MILLIS_MAX)?;
    if !is_blank(other_words(others)) {
        return None;
    }
    Some(Frequency {
        share,
        least: millis,
        most: millis,
    })
}

// Reads `FROM TO`: the range of times, in milliseconds, to draw from for each line. `None`: the text has another form, FROM is
// above TO, or one of them above `MILLIS_MAX`.
fn read_span(text: &[u8]) -> Option<Frequency>
    ensures { IsReadAs (IsSpan text.now) result }
{
    let least = u32_of(front_word(text), MILLIS_MAX)?;
    let others = other_words(text);
    let most = u32_of(front_word(others), MILLIS_MAX)?;
    if least > most {
        return None;
    }
    if !is_blank(other_words(others)) {
        return None;
    }
    Some(Frequency {
        share: WHOLE as u32,
        least,
        most,
    })
}

// Reads `N`: how many times, which is the only number to draw. `None`: the text has another form, or N is above `TIMES_MAX`.
fn read_times(text: &[u8]) -> Option<Frequency>
    ensures { IsReadAs (AreTimes text.now) result }
{
    let times = u32_of(front_word(text), TIMES_MAX)?;
    if !is_blank(other_words(text)) {
        return None;
    }
    Some(Frequency {
        share: WHOLE as u32,
        least: times,
        most: times,
    })
}

// Reads what follows a word of this shape. `None`: the text has another form, or a number lies outside its range.
fn read_frequency(shape: Shape, text: &[u8]) -> Option<Frequency>
    ensures { IsReadAs (IsFrequency shape text.now) result }
{
    match shape {
        Shape::Share => read_percentage(text),
        Shape::Lasting => read_lasting(text),
        Shape::Span => read_span(text),
        Shape::Times => read_times(text),
    }
}

// Reads the rule of a line that isn't blank, without its comment. `Err`: what is wrong with it: `NoWord` or `Form`, never `Again`.
pub(crate) fn read_rule(text: &[u8]) -> Result<Rule, RuleFault>
    ensures found { IfOk result (λ rule. IsRule text.now rule) }
    ensures fault { IfErr result (λ fault. IsNoRule text.now fault) }
{
    let Some(word) = Word::read(front_word(text)) else {
        return Err(RuleFault::NoWord);
    };
    match read_frequency(word.shape(), other_words(text)) {
        Some(frequency) => Ok(Rule { word, frequency }),
        None => Err(RuleFault::Form(word)),
    }
}
