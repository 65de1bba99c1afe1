//! Texts cut at a mark, which is a byte: lines at an LF, words at a space; and texts that are a word, begin with a prefix, or have a part.

ghost use Rattle.std.specs.Prelude.{◌≡◌, ◌≤◌, ◌↔◌, ◌++◌, ℕ, List, length, IsTrue, MatchOption};
ghost use Rattle.std.specs.Option.{option_copied};
ghost use Rattle.gc_texts.specs.Cuts.{Cuts, before, behind, has_part};

use memchr::memchr;

/// Cuts a text at the first mark: returns what is before the mark, and what is after it. Without a mark: all of the text, and `None`.
pub fn cut_at(mark: u8, text: &[u8]) -> (&[u8], Option<&[u8]>)
    ensures { Cuts mark text.now result.0.now (option_copied result.1) }
{
    match memchr(mark, text) {
        Some(i) => (&text[..i], Some(&text[i + 1..])),
        None => (text, None),
    }
}

/// What is before the first mark, or all of the text if there is none.
pub fn before(mark: u8, text: &[u8]) -> &[u8]
    ensures is { result.now ≡ before mark text.now }
    ensures short { length result.now ≤ length text.now }
{
    cut_at(mark, text).0
}

/// What is after the first mark; empty if there is none.
pub fn behind(mark: u8, text: &[u8]) -> &[u8]
    ensures is { result.now ≡ behind mark text.now }
    ensures short { length result.now ≤ length text.now }
{
    match cut_at(mark, text).1 {
        Some(rest) => rest,
        None => b"",
    }
}

/// What follows this prefix of a line. `None`: the line doesn't begin with it.
pub fn after_prefix<'a>(prefix: &[u8], line: &'a [u8]) -> Option<&'a [u8]>
    ensures { MatchOption result ((rest : List ℕ) → line.now ≡ prefix.now ++ rest → ⊥) (λ rest. line.now ≡ prefix.now ++ rest.now) }
{
    line.strip_prefix(prefix)
}

/// Whether the text is this word.
pub fn is_word(word: &[u8], text: &[u8]) -> bool
    ensures { IsTrue result ↔ (text.now ≡ word.now) }
{
    text == word
}

/// Whether `part`, which isn't empty, is somewhere in the text.
pub fn has_part(part: &[u8], text: &[u8]) -> bool
    ensures { result ≡ has_part part.now text.now }
{
    let mut left = text;
    while let Some((_, rest)) = left.split_first() {
        if left.starts_with(part) {
            return true;
        }
        left = rest;
    }
    false
}
