//! What is printed about a faulty line.

use crate::rule::{RuleFault, Word};
use std::io::{self, Write};

impl RuleFault {
    /// Writes what is wrong with a line, and a line feed: the list of the words, what has to follow the line's word, or that an earlier
    /// line has that word. `Err`: it couldn't be written whole.
    pub fn tell<E: Write>(self, messages: &mut E) -> io::Result<()> {
        match self {
            RuleFault::NoWord => writeln!(
                messages,
                "a word is delay, lose, repeat, hold, close, refuse, restart, alter or kill"
            ),
            RuleFault::Again(_) => writeln!(messages, "an earlier line has this word"),
            RuleFault::Form(word) => tell_form(word, messages),
        }
    }
}

// Writes what has to follow a word, and a line feed.
fn tell_form<E: Write>(word: Word, messages: &mut E) -> io::Result<()> {
    match word {
        Word::Delay => writeln!(
            messages,
            "delay FROM TO, in milliseconds, 0 to 86400000, FROM at most TO"
        ),
        Word::Lose | Word::Repeat | Word::Close | Word::Restart | Word::Alter => writeln!(
            messages,
            "after this word P, 0 to 100, with at most three decimals"
        ),
        Word::Hold | Word::Refuse => writeln!(
            messages,
            "after this word P MS, P 0 to 100, with at most three decimals, MS 0 to 86400000"
        ),
        Word::Kill => writeln!(messages, "kill N, 0 to 1000"),
    }
}
