//! The rules of a text together: at most one for each word.

ghost use Rattle.std.specs.Prelude.{◌≡◌, ◌<◌, get_or, Option, None};
ghost use Rattle.gc_rehearsal.specs.Rules.{no_rules, frequency_of, with_rule};

use crate::frequency::Frequency;
use crate::rule::{Rule, WORDS, Word};

/// The rules of a text: for each word that the text has, how often it applies and from which range it draws a number.
#[derive(Clone, Copy)]
pub struct Rules {
    // The frequency of each word, at the word's place. `None`: the text doesn't have the word.
    pub(crate) frequencies: [Option<Frequency>; WORDS],
}

impl Rules {
    /// Rules without a word: nothing happens to any line.
    pub fn none() -> Rules
        ensures { result ≡ no_rules }
    {
        Rules {
            frequencies: [None; WORDS],
        }
    }

    /// The frequency of a word. `None`: the text doesn't have the word.
    pub fn frequency(&self, word: Word) -> Option<Frequency>
        ensures { result ≡ frequency_of self.now word }
    {
        self.frequencies[word.place()]
    }

    // These rules, with one more rule, which replaces that of its word.
    pub(crate) fn with(&self, rule: Rule) -> Rules
        ensures { result ≡ with_rule self.now rule }
    {
        let mut frequencies = self.frequencies;
        frequencies[rule.word.place()] = Some(rule.frequency);
        Rules { frequencies }
    }
}
