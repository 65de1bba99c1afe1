//! Which of the numbers of a faulty line `agree` is at fault.

ghost use Rattle.std.specs.Prelude.{IsFalse};
ghost use Rattle.gc_texts.specs.Troubles.{IsAgreeTrouble, IsNoThreeWords};

use crate::cuts::{before, behind};
use crate::near_numbers::{is_length_text, is_tolerance_text};
use crate::trouble::Trouble;

// Whether a text is three words with one space between two. The contract says what holds if it isn't.
fn are_three_words(text: &[u8]) -> bool
    ensures { IsFalse result → IsNoThreeWords text.now }
{
    let third = behind(b' ', behind(b' ', text));
    !third.is_empty() && behind(b' ', third).is_empty()
}

// Which number is at fault of the three that follow a line's word `agree`. `Agree`: these aren't three words, or none of them is at fault.
pub(crate) fn agree_trouble(numbers: &[u8]) -> Trouble
    ensures { IsAgreeTrouble numbers.now result }
{
    if !are_three_words(numbers) {
        return Trouble::Agree;
    }
    let others = behind(b' ', numbers);
    if !is_tolerance_text(before(b' ', numbers)) {
        return Trouble::AgreeHz;
    }
    if !is_tolerance_text(before(b' ', others)) {
        return Trouble::AgreeV;
    }
    if !is_length_text(behind(b' ', others)) {
        return Trouble::AgreeDistance;
    }
    Trouble::Agree
}
