//! Parameter lists. All cutting at commas, counting of quotes and trimming of spaces is here.
//! Commas between parameters and strings in double quotes are the GeoCOM manual's; the spaces round
//! an item and the limit are this project's own.

ghost use Rattle.std.specs.Prelude.{◌≡◌, ◌↔◌, ◌<◌, ◌≤◌, [], List, ℕ, length, slice_index_or, IsTrue, IfOk, IfErr};
ghost use Rattle.std.specs.Option.{option_copied};
ghost use Rattle.gc_values.specs.Params.{AreTooMany, HasOpenQuote, IsParams};
ghost use Rattle.gc_values.specs.Pieces.{CutsPiece, IsTrimmed, TrimsFront, TrimsBack};
ghost use Rattle.gc_values.specs.ValueFault.{IsEither};

use crate::fault::ValueFault;
use arrayvec::ArrayVec;
use std::marker::Model;

/// The greatest number of parameters of a list.
pub const MOST_ITEMS: usize = 16;

/// The items of a parameter list: at most 16 slices of the list, without the spaces round them.
#[derive(Drop)]
pub struct Items<'a> {
    slices: ArrayVec<&'a [u8], MOST_ITEMS>,
}

impl<'a> Model for Items<'a> {
    ghost use Rattle.std.specs.Prelude.{List, ℕ, map};

    ghost Value = { List (List ℕ) };

    ghost view = { λ s. map (λ r. r.now) s.slices.items };
}

impl<'a> Items<'a> {
    /// The number of items, at most 16.
    pub fn len(&self) -> usize
        ensures value { result ≡ length self.now }
        ensures few { result ≤ 16 }
    {
        self.slices.len()
    }

    /// The item at place `k`, counted from 0.
    pub fn get(&self, k: usize) -> &'a [u8]
        requires { k < length self.now }
        ensures { result.now ≡ slice_index_or self.now k [] }
    {
        self.slices[k]
    }
}

/// Whether the number of double quotes is odd, so that one of them has no partner.
fn has_open_quote(text: &[u8]) -> bool
    ensures { IsTrue result ↔ HasOpenQuote text.now }
{
    text.iter().filter(|byte| **byte == b'"').count() % 2 == 1
}

/// The bytes before the first comma outside quotes, and those after this comma. Without a comma outside quotes: all bytes, and
/// `None`.
fn cut_piece(text: &[u8]) -> (&[u8], Option<&[u8]>)
    ensures { CutsPiece text.now result.0.now (option_copied result.1) }
{
    let mut quoted = false;
    for (i, byte) in text.iter().enumerate() {
        if *byte == b',' && !quoted {
            let (piece, rest) = text.split_at(i);
            return (piece, Some(&rest[1..]));
        }
        if *byte == b'"' {
            quoted = !quoted;
        }
    }
    (text, None)
}

/// Returns the text without the spaces at its front.
fn trim_front(text: &[u8]) -> &[u8]
    ensures { TrimsFront text.now result.now }
{
    for (i, byte) in text.iter().enumerate() {
        if *byte != b' ' {
            return &text[i..];
        }
    }
    &text[text.len()..]
}

/// Returns the text without the spaces at its end.
fn trim_back(text: &[u8]) -> &[u8]
    ensures { TrimsBack text.now result.now }
{
    let mut end = text.len();
    while end > 0 && text[end - 1] == b' ' {
        end -= 1;
    }
    &text[..end]
}

/// Returns the text without the spaces at its ends.
fn trim(text: &[u8]) -> &[u8]
    ensures { IsTrimmed text.now result.now }
{
    trim_back(trim_front(text))
}

/// Splits a parameter list at each comma that has an even number of double quotes before it, and
/// takes the spaces off both ends of each item. A text of spaces alone, or an empty one, has no
/// items. Each item, also an empty one, is a slice of the list.
///
/// An odd number of double quotes is refused as `OpenQuote`, and else more than 16 items as
/// `TooMany`.
pub fn split(params: &[u8]) -> Result<Items<'_>, ValueFault>
    ensures found { IfOk result (λ items. IsParams params.now items × (length items ≤ 16)) }
    ensures only { (items : List (List ℕ)) → IsParams params.now items → length items ≤ 16 → result ≡ Ok items }
    ensures open_quote { (result ≡ Err ValueFault.OpenQuote) ↔ HasOpenQuote params.now }
    ensures too_many { (result ≡ Err ValueFault.TooMany) ↔ AreTooMany params.now }
    ensures faults { IfErr result (λ e. IsEither ValueFault.OpenQuote ValueFault.TooMany e) }
{
    if has_open_quote(params) {
        return Err(ValueFault::OpenQuote);
    }
    let mut slices = ArrayVec::new();
    if trim_front(params).is_empty() {
        return Ok(Items { slices });
    }
    let mut rest = params;
    for _ in 0..MOST_ITEMS {
        let (piece, next) = cut_piece(rest);
        slices.push(trim(piece));
        match next {
            Some(next) => rest = next,
            None => return Ok(Items { slices }),
        }
    }
    Err(ValueFault::TooMany)
}
