//! The words of a text, one after the other: its pieces at spaces, or at another mark.

ghost use Rattle.std.specs.Prelude.{◌≡◌, []};
ghost use Rattle.std.specs.Option.{option_copied};
ghost use Rattle.gc_texts.specs.WordLists.{TakesWord, pieces_of, words_of};

use crate::cuts::cut_at;
use std::marker::Model;

/// Takes the words of a text, or its pieces at another mark than a space. Contracts see this as the list of those that are left.
#[derive(Drop)]
pub(crate) struct Words<'a> {
    // The byte that separates two words.
    mark: u8,
    // What is left of the text: what follows the last word that was taken, and the mark behind it. `None`: no word is left.
    left: Option<&'a [u8]>,
}

impl<'a> Model for Words<'a> {
    ghost use Rattle.std.specs.Prelude.{List, ℕ};
    ghost use Rattle.std.specs.Option.{option_copied};
    ghost use Rattle.gc_texts.specs.WordLists.{pieces_left};

    ghost Value = { List (List ℕ) };

    ghost view = { λ w. pieces_left w.mark (option_copied w.left) };
}

impl<'a> Words<'a> {
    /// The words of a text, none of them taken.
    pub(crate) fn new(text: &'a [u8]) -> Words<'a>
        ensures { result ≡ words_of text.now }
    {
        Words::at(b' ', text)
    }

    /// The pieces of a text at this mark, none of them taken.
    pub(crate) fn at(mark: u8, text: &'a [u8]) -> Words<'a>
        ensures { result ≡ pieces_of mark text.now }
    {
        Words {
            mark,
            left: Some(text),
        }
    }

    /// No word.
    pub(crate) fn none() -> Words<'a>
        ensures { result ≡ [] }
    {
        Words {
            mark: b' ',
            left: None,
        }
    }

    /// Takes the next word. `None`: no word is left.
    pub(crate) fn next(&mut self) -> Option<&'a [u8]>
        ensures { TakesWord self.old self.new (option_copied result) }
    {
        let text = self.left?;
        let (word, rest) = cut_at(self.mark, text);
        self.left = rest;
        Some(word)
    }
}
