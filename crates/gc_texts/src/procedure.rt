//! Reads a number of a text, and a procedure's number with its parameters: what the texts of commands, stations and schedules share.

ghost use Rattle.std.specs.Prelude.{IsTrue, IsFalse};
ghost use Rattle.gc_texts.specs.LineForms.{IsReadAs};
ghost use Rattle.gc_texts.specs.Procedures.{IsNumber, IsProcedureText, IsTarget};
ghost use Rattle.gc_catalogue.specs.Calls.{IsCall};
ghost use Rattle.gc_catalogue.specs.declared.call.Call.{Call};

use crate::cuts::cut_at;
use gc_catalogue::{Call, decode_call_into};
use gc_lines::Request;
use gc_values::read_whole;

/// The number that a text of digits writes, without a sign. `None`: the text is no such number, or the number is above `max`.
pub fn number_of(digits: &[u8], max: u64) -> Option<u64>
    ensures { IsReadAs (λ n. IsNumber digits.now n max) result }
{
    read_whole(digits, max).ok()
}

/// As [`number_of`], of a number of 32 bits.
pub fn u32_of(digits: &[u8], max: u32) -> Option<u32>
    ensures { IsReadAs (λ n. IsNumber digits.now n max) result }
{
    let number = number_of(digits, u64::from(max))?;
    Some(number as u32)
}

/// As [`number_of`], of any number of 16 bits: that of a procedure, in the table or not, or a return code. `None`: the text is no
/// number, or the number is above 65535.
pub fn u16_of(digits: &[u8]) -> Option<u16>
    ensures { IsReadAs (λ n. IsNumber digits.now n 65535) result }
{
    let number = number_of(digits, u64::from(u16::MAX))?;
    Some(number as u16)
}

/// The target whose number a text of digits writes. `None`: the text is no number, or the number is above 4294967295.
pub fn target_of(digits: &[u8]) -> Option<u32>
    ensures { IsReadAs (IsTarget digits.now) result }
{
    u32_of(digits, u32::MAX)
}

/// Reads the call of a procedure's number and its parameters: `RPC`, or `RPC PARAMS` with one byte of parameters at least.
/// `None`: the text has no such form, no procedure has the number, or the parameters don't read as its own.
pub fn read_procedure(text: &[u8]) -> Option<Call>
    ensures { IsReadAs (IsProcedureText text.now) result }
{
    let mut call = Call::NullProc;
    if read_procedure_into(text, &mut call) {
        Some(call)
    } else {
        None
    }
}

/// As [`read_procedure`], but the call is written into `call`, which may be any call where the text isn't a procedure's. Returns
/// whether the text is a procedure's.
#[inline(always)]
pub fn read_procedure_into(text: &[u8], call: &mut Call) -> bool
    ensures found { IsTrue result → IsProcedureText text.now call.new }
    ensures none { IsFalse result → (other : Call) → IsProcedureText text.now other → ⊥ }
{
    let (digits, params) = cut_at(b' ', text);
    let Some(rpc) = u16_of(digits) else {
        return false
    };
    let Some(params) = params else {
        return read_call(rpc, &[], call);
    };
    if params.is_empty() {
        return false;
    }
    read_call(rpc, params, call)
}

// Reads the call of a procedure's number and parameters, into `call`, and returns whether there is one: a procedure has the number,
// and the parameters read as its own. If not, `call` may be any call.
fn read_call(rpc: u16, params: &[u8], call: &mut Call) -> bool
    ensures found { IsTrue result → IsCall rpc params.now call.new }
    ensures none { IsFalse result → (other : Call) → IsCall rpc params.now other → ⊥ }
{
    let request = Request {
        rpc,
        id: None,
        params,
    };
    decode_call_into(&request, call).is_ok()
}
