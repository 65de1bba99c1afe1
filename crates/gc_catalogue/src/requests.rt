//! Calls and their request lines.

ghost use Rattle.std.specs.Prelude.{◌≡◌, ◌+◌, ◌≤◌, ◌++◌, IsTrue, IsOk, IfOk, IfErr, OnOk};
ghost use Rattle.arrayvec.specs.ArrayVec.{array_vec_len};
ghost use Rattle.gc_lines.specs.Headers.{MayBeId};
ghost use Rattle.gc_lines.specs.Lines.{IsPlain};
ghost use Rattle.gc_catalogue.specs.Calls.{IsCall, IsCallOf, IsFitting, IsRefusal, IsRefusalOf};
ghost use Rattle.gc_catalogue.specs.Laws.{ReadsBackCall};
ghost use Rattle.gc_catalogue.specs.Lists.{IsWithoutComma};
ghost use Rattle.gc_catalogue.specs.Texts.{request_line};

use crate::call::Call;
use crate::fault::CallFault;
use crate::reading::read_row;
use arrayvec::ArrayVec;
use gc_lines::{Line, Request};
use gc_values::{Listed, Quick};

/// As [`encode_call`], but the line is appended to `out`, which has to have room for 512 more bytes.
pub fn encode_call_onto<const N: usize>(out: &mut ArrayVec<u8, N>, id: Option<u8>, call: &Call)
    requires id { MayBeId id }
    requires room { array_vec_len out.old + 512 ≤ N }
    ensures line { out.new.items ≡ out.old.items ++ request_line id call.now }
    ensures plain { IsPlain (request_line id call.now) }
    ensures reads_back { ReadsBackCall id call.now }
    ensures fitting { IsFitting call.now }
{
    call.write_row(id, out);
    end_list(out);
}

/// Writes the request line of a call, without its CR LF, with the id, 0 to 7, or without one. It has at most 512 bytes, whatever the
/// call is, and reads back as the call.
pub fn encode_call(id: Option<u8>, call: &Call) -> Line
    requires { MayBeId id }
    ensures line { result.items ≡ request_line id call.now }
    ensures plain { IsPlain result.items }
    ensures reads_back { ReadsBackCall id call.now }
    ensures fitting { IsFitting call.now }
{
    let mut line = Line::new();
    encode_call_onto(&mut line, id, call);
    line
}

// Removes the comma at the end, if there is one. Each value was written with a comma after it; a line without values ends in its colon.
fn end_list<const N: usize>(out: &mut ArrayVec<u8, N>)
    ensures { IsWithoutComma out.old.items out.new.items }
{
    if out.ends_with(b",") {
        out.pop();
    }
}

// Reads a number and parameters in the common spelling as a call, into `call`. It returns `false` if no procedure has the number, or the
// parameters aren't those of the procedure in that spelling; they may be in another one. After `false`, `call` may be any call.
fn read_quickly(rpc: u16, params: &[u8], call: &mut Call) -> bool
    ensures { IsTrue result → IsCall rpc params.now call.new }
{
    let mut quick = Quick::new(params);
    read_row(rpc, &mut quick, call) && quick.is_done()
}

// Reads a number and parameters in any spelling as a call, into `call`. After a fault, the first in the order of `decode_call`, `call` may
// be any call.
#[inline(never)]
fn read_any_spelling(rpc: u16, params: &[u8], call: &mut Call) -> Result<(), CallFault>
    ensures found { OnOk result (IsCall rpc params.now call.new) }
    ensures fault { IfErr result (λ e. IsRefusal rpc params.now e) }
{
    let mut listed = Listed::new(params);
    if !read_row(rpc, &mut listed, call) {
        return Err(CallFault::Unknown);
    }
    match listed.finish() {
        Ok(()) => Ok(()),
        Err(fault) => Err(CallFault::Parameters(fault)),
    }
}

// As `read_any_spelling`, but it tries the common spelling first, which is read faster.
#[inline]
fn read_call(rpc: u16, params: &[u8], call: &mut Call) -> Result<(), CallFault>
    ensures found { OnOk result (IsCall rpc params.now call.new) }
    ensures fault { IfErr result (λ e. IsRefusal rpc params.now e) }
{
    if read_quickly(rpc, params, call) {
        return Ok(());
    }
    read_any_spelling(rpc, params, call)
}

/// As [`decode_call`], but the call is written into `call`, which may be any call after a fault.
#[inline]
pub fn decode_call_into(request: &Request<'_>, call: &mut Call) -> Result<(), CallFault>
    ensures found { OnOk result (IsCallOf request.now call.new) }
    ensures fitting { OnOk result (IsFitting call.new) }
    ensures only { (named : Call) → IsCallOf request.now named → IsOk result × (call.new ≡ named) }
    ensures fault { IfErr result (λ e. IsRefusalOf request.now e) }
    ensures exactly { (e : CallFault) → IsRefusalOf request.now e → result ≡ Err e }
{
    read_call(request.rpc, request.params, call)
}

/// Reads the call that a request names.
///
/// The faults come in this order: `Unknown` where no procedure has the number; then `Parameters` with `OpenQuote`,
/// `TooMany`, `Count`, or `Spelling` or `Range` of the first parameter from the left that can't be read.
pub fn decode_call(request: &Request<'_>) -> Result<Call, CallFault>
    ensures found { IfOk result (λ call. IsCallOf request.now call) }
    ensures fitting { IfOk result (λ call. IsFitting call) }
    ensures only { (call : Call) → IsCallOf request.now call → result ≡ Ok call }
    ensures fault { IfErr result (λ e. IsRefusalOf request.now e) }
    ensures exactly { (e : CallFault) → IsRefusalOf request.now e → result ≡ Err e }
{
    let mut call = Call::NullProc;
    decode_call_into(request, &mut call)?;
    Ok(call)
}
