//! Wishes: what a station is to ask of which target, and the lines that say it.

ghost use Rattle.std.specs.Prelude.{◌≡◌, ◌∷◌, ◌++◌};
ghost use Rattle.gc_texts.specs.Cuts.{Lacks};
ghost use Rattle.gc_texts.specs.LineForms.{IsReadAs};
ghost use Rattle.gc_texts.specs.Wishes.{IsDescribedWish, IsOutsideRequest, IsRawRequest, IsRequest, IsWish, IsWorded, wish_of};
ghost use Rattle.gc_texts.specs.declared.wish.Wish.{Wish};
ghost use Rattle.gc_texts.specs.declared.wording.Wording.{Wording};

use crate::commands::Command;
use crate::cuts::{before, behind, cut_at, is_word};
use crate::procedure::{read_procedure, target_of, u16_of};
use crate::wording::Wording;
use gc_catalogue::{Asked, RawCall, raw_call};

/// What a station is to ask of a target: a call of the table, or a procedure that isn't in the table.
#[derive(Clone, Copy)]
pub struct Wish {
    /// The target: a number that the caller chooses, and gets back with the settlement.
    pub target: u32,
    /// What is asked of the target.
    pub call: Asked,
}

impl Wish {
    /// The wish that asks what a command asks, of the same target.
    pub fn of(command: &Command) -> Wish
        ensures { result ≡ wish_of command.now }
    {
        Wish {
            target: command.target,
            call: Asked::Table(command.call),
        }
    }
}

// Reads `RPC` or `RPC PARAMS` of a procedure that isn't in the table, with its parameters as they are. `None`: the text has no such
// form, the number lies outside its range, or the request is refused (`raw_call`): its procedure is in the table, for example.
fn read_outside(words: &[u8]) -> Option<RawCall>
    ensures { IsReadAs (IsOutsideRequest words.now) result }
{
    let number = before(b' ', words);
    let params = behind(b' ', words);
    // A space behind the number has parameters behind it.
    if params.is_empty() && number.len() < words.len() {
        return None;
    }
    let rpc = u16_of(number)?;
    raw_call(rpc, params).ok()
}

// Reads `raw RPC` or `raw RPC PARAMS`: what is read of what follows the word `raw` (`read_outside`).
fn read_raw(text: &[u8]) -> Option<RawCall>
    ensures { IsReadAs (IsRawRequest text.now) result }
{
    if !is_word(b"raw", before(b' ', text)) {
        return None;
    }
    read_outside(behind(b' ', text))
}

// Reads what follows a target: a procedure of the table with its parameters (`read_procedure`), or one that isn't in the table, after the
// word `raw`. `None`: it has neither form, or the procedure is refused.
fn read_asked(text: &[u8]) -> Option<Asked>
    ensures { IsReadAs (IsRequest text.now) result }
{
    if let Some(raw) = read_raw(text) {
        return Some(Asked::Raw(raw));
    }
    let call = read_procedure(text)?;
    Some(Asked::Table(call))
}

// Reads a wish of a target's text, which has no space, and what follows it. `None`: the first is no target's number, or the second asks for
// nothing (`read_asked`).
fn read_request(target: &[u8], rest: &[u8]) -> Option<Wish>
    requires { Lacks 32 target.now }
    ensures { IsReadAs (IsWish (target.now ++ 32 ∷ rest.now)) result }
{
    let target = target_of(target)?;
    let call = read_asked(rest)?;
    Some(Wish { target, call })
}

// Reads a wish of a target's text, which has no space, and the number and parameters of a procedure that has to be described, which
// follow it. `None`: the first is no target's number, or the second asks for no such procedure (`read_outside`).
fn read_described(target: &[u8], rest: &[u8]) -> Option<Wish>
    requires { Lacks 32 target.now }
    ensures { IsReadAs (IsDescribedWish (target.now ++ 32 ∷ rest.now)) result }
{
    let target = target_of(target)?;
    let raw = read_outside(rest)?;
    Some(Wish {
        target,
        call: Asked::Raw(raw),
    })
}

// Reads a wish of a target's text, which has no space, and what follows it, and how the two say it. `None`: the first is no target's
// number, or the second asks for nothing.
pub(crate) fn read_worded(target: &[u8], rest: &[u8]) -> Option<(Wish, Wording)>
    requires { Lacks 32 target.now }
    ensures { IsReadAs (λ (r : Wish × Wording). IsWorded r.1 (target.now ++ 32 ∷ rest.now) r.0) result }
{
    if let Some(wish) = read_request(target, rest) {
        return Some((wish, Wording::Plain));
    }
    let wish = read_described(target, rest)?;
    Some((wish, Wording::Described))
}

// Reads a wish and how its line says it: a line that has the form of a command, or asks for a procedure that isn't in the table. `None`:
// it has neither form.
pub(crate) fn read_wish(line: &[u8]) -> Option<(Wish, Wording)>
    ensures { IsReadAs (λ (r : Wish × Wording). IsWorded r.1 line.now r.0) result }
{
    let (target, rest) = cut_at(b' ', line);
    read_worded(target, rest?)
}
