//! Words of a line, before each of which any number of spaces may be. A space is byte 32.

ghost use Rattle.std.specs.Prelude.{◌≡◌, [], length, ◌≤◌, IsTrue, ◌↔◌};
ghost use Rattle.gc_rehearsal.specs.Spaced.{front_word, other_words, IsBlank};
ghost use Rattle.gc_values.specs.Pieces.{without_front_spaces};

use gc_texts::{before, behind};

// The text without the spaces at its beginning.
fn without_front_spaces(text: &[u8]) -> &[u8]
    ensures { result.now ≡ without_front_spaces text.now }
{
    let mut left = text;
    while let Some(rest) = left.strip_prefix(b" ") {
        left = rest;
    }
    left
}

// The first word of a text; empty if it has none.
pub(crate) fn front_word(text: &[u8]) -> &[u8]
    ensures { result.now ≡ front_word text.now }
{
    before(b' ', without_front_spaces(text))
}

// What comes after the first word of a text and one space; empty if nothing does.
pub(crate) fn other_words(text: &[u8]) -> &[u8]
    ensures { result.now ≡ other_words text.now }
{
    behind(b' ', without_front_spaces(text))
}

// Whether a text has nothing but spaces.
pub(crate) fn is_blank(text: &[u8]) -> bool
    ensures { IsTrue result ↔ IsBlank text.now }
{
    without_front_spaces(text).is_empty()
}
