//! The lines of a text: which are skipped, the item of each of the others, and which is the first faulty one.

ghost use Rattle.std.specs.Prelude.{◌≡◌, ◌≤◌, length, IfOk, IfErr};
ghost use Rattle.std.specs.Option.{option_copied};
ghost use Rattle.gc_texts.specs.LineForms.{CutsLine, IsTextOf, RefusesLong, TextFault, without_cr, line_at, is_skipped};
ghost use Rattle.gc_texts.specs.declared.text.TheConstants.{TEXT_LIMIT};

use crate::cuts::cut_at;
use crate::fault::RunFault;
use crate::text::TEXT_LIMIT;
use std::alloc::Global;

/// The form of a text's lines: which of them stand for an item, and for which.
pub trait LineForm {
    ghost use Rattle.std.specs.Prelude.{ℕ, List, IsTrue, IsFalse};

    /// What a line is read as.
    type Item: Copy;

    /// Which lines have the form of an item.
    ghost form: { List ℕ → Self.Item → Type 0 };

    /// An item for `read` to write over: which one doesn't matter.
    fn blank() -> Self::Item;

    /// Reads a line as an item, into `item`, and returns whether the line has the form of one. If it hasn't, `item` is any item.
    fn read(line: &[u8], item: &mut Self::Item) -> bool
        ensures found { IsTrue result → form line.now item.new }
        ensures none { IsFalse result → (other : Self.Item) → form line.now other → ⊥ };
}

// The line without one CR at its end, if it has one.
fn without_cr(line: &[u8]) -> &[u8]
    ensures { result.now ≡ without_cr line.now }
{
    match line.strip_suffix(b"\r") {
        Some(front) => front,
        None => line,
    }
}

/// Cuts off the first line of a text: returns it, without one CR at its end, if it has one, and what follows its LF. Without an LF:
/// all of the text as the line, and `None`.
pub fn cut_line(text: &[u8]) -> (&[u8], Option<&[u8]>)
    ensures { CutsLine text.now result.0.now (option_copied result.1) }
{
    let (piece, rest) = cut_at(b'\n', text);
    (without_cr(piece), rest)
}

/// Line `number` of a text, without one CR at its end, if it has one. Lines are counted from 1, as in the faults of a text; 0
/// gives the first line, too. Where the text has fewer lines, the result is empty.
pub fn line_at(text: &[u8], number: u32) -> &[u8]
    ensures { result.now ≡ line_at text.now number }
{
    let mut left = Some(text);
    let mut wanted = number;
    while let Some(text) = left {
        let (line, rest) = cut_line(text);
        if wanted <= 1 {
            return line;
        }
        wanted -= 1;
        left = rest;
    }
    b""
}

// Whether the line is empty or begins with `#`.
pub(crate) fn is_skipped(line: &[u8]) -> bool
    ensures { result ≡ is_skipped line.now }
{
    matches!(line, [] | [b'#', ..])
}

/// Reads a text, and returns the items of its lines, in order; empty lines and those that begin with `#` are skipped. Lines are separated
/// by LF, and one CR at the end of a line is left out.
///
/// Fails with `InputTooLong` if the text has more than 65,536 bytes, before any line is read; with `Schedule` and the number of the
/// line, counted from 1, at the first line that has the form of no item; and with `Memory` if memory was refused at a line that has the
/// form of an item.
pub fn read_items<F: LineForm>(alloc: Global, text: &[u8]) -> Result<Vec<F::Item>, RunFault>
    ensures found { IfOk result (λ items. IsTextOf F.form text.now items.items) }
    ensures too_long { RefusesLong text.now result }
    ensures fault { IfErr result (λ e. TextFault F.form text.now e) }
{
    if text.len() > TEXT_LIMIT {
        return Err(RunFault::InputTooLong);
    }
    read_lines::<F>(alloc, text)
}

// For how many further items a list reserves memory, if it holds `count` items; `left` is the text from the next item's line on.
// An empty list reserves for one item in each eight bytes, because a line rarely has fewer, and for one more: so it rarely grows again.
// Any other list reserves for one item.
fn room_for(count: usize, left: &[u8]) -> usize
    ensures { 1 ≤ result }
{
    if count == 0 {
        (left.len() / 8).saturating_add(1)
    } else {
        1
    }
}

// Reads the lines of a text that isn't too long, and returns their items, in order. Fails with `Schedule` and `Memory`, as `read_items`.
fn read_lines<F: LineForm>(alloc: Global, text: &[u8]) -> Result<Vec<F::Item>, RunFault>
    requires { length text.now ≤ TEXT_LIMIT }
    ensures found { IfOk result (λ items. IsTextOf F.form text.now items.items) }
    ensures fault { IfErr result (λ e. TextFault F.form text.now e) }
{
    let mut items = Vec::new(alloc);
    let mut item = F::blank();
    let mut left = Some(text);
    let mut number = 0u32;
    while let Some(text) = left {
        let (line, rest) = cut_line(text);
        left = rest;
        number += 1;
        if is_skipped(line) {
            continue;
        }
        if !F::read(line, &mut item) {
            return Err(RunFault::Schedule { line: number });
        }
        if items.reserve(room_for(items.len(), text)).is_err() {
            return Err(RunFault::Memory);
        }
        items.push_reserved(item);
    }
    Ok(items)
}
