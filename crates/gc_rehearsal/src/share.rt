//! Percentages: 0 to 100 with at most three decimals, as whole numbers of thousandths of a percent.

ghost use Rattle.gc_texts.specs.LineForms.{IsReadAs};
ghost use Rattle.gc_rehearsal.specs.Shares.{IsShare, IsPlaces};

use gc_texts::{cut_at, number_of};

// 100 percent, in thousandths of a percent.
pub(crate) const WHOLE: u64 = 100_000;

// Reads the one to three digits after a decimal point as thousandths: `5` is 500. `None`: there are fewer or more, or other bytes.
fn read_places(digits: &[u8]) -> Option<u64>
    ensures { IsReadAs (IsPlaces digits.now) result }
{
    let number = number_of(digits, 999)?;
    match digits.len() {
        1 => Some(number * 100),
        2 => Some(number * 10),
        3 => Some(number),
        _ => None,
    }
}

// Reads a percentage, in thousandths of a percent. `None`: the word is no percentage, or is above 100.
pub(crate) fn read_share(word: &[u8]) -> Option<u32>
    ensures { IsReadAs (IsShare word.now) result }
{
    let (whole, places) = cut_at(b'.', word);
    let whole = number_of(whole, 100)?;
    let Some(places) = places else {
        return Some((whole * 1000) as u32);
    };
    let thousandths = read_places(places)?;
    let share = whole * 1000 + thousandths;
    if share > WHOLE {
        return None;
    }
    Some(share as u32)
}
