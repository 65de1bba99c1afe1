//! What is asked of an instrument: a call of the table, or a procedure that isn't in it.

ghost use Rattle.std.specs.Prelude.{◌≡◌, ◌+◌, ◌≤◌, ◌++◌, Some, IfSome};
ghost use Rattle.arrayvec.specs.ArrayVec.{array_vec_len};
ghost use Rattle.gc_lines.specs.Headers.{MayBeId};
ghost use Rattle.gc_lines.specs.Lines.{IsPlain};
ghost use Rattle.gc_lines.specs.Replies.{reply_seen};
ghost use Rattle.gc_values.specs.declared.fault.ValueFault.{ValueFault};
ghost use Rattle.gc_catalogue.specs.Asked.{asked_line, is_of_table, procedure_of, raw_line, raw_params, IsAsked, IsAskedFitting, IsAskedReading};
ghost use Rattle.gc_catalogue.specs.AskedLaws.{ReadsBackAsked};
ghost use Rattle.gc_catalogue.specs.Raws.{IsRawCall, IsRawReading};
ghost use Rattle.gc_catalogue.specs.declared.answer.Reading.{Reading};
ghost use Rattle.gc_catalogue.specs.declared.call.Call.TheVariants.{NullProc};

use crate::answer::{Answer, Reading};
use crate::asking::Asking;
use crate::call::Call;
use crate::raw::{RawCall, items_fault, raw_call};
use crate::replies::{decode_answer_into, read_codes};
use crate::requests::{decode_call, encode_call_onto};
use arrayvec::ArrayVec;
use gc_lines::{Line, Reply, Request, append, push_request};

/// What is asked of an instrument: a call of the table, or a procedure that isn't in it.
#[derive(Clone, Copy, Debug, PartialEq, Eq)]
pub enum Asked {
    /// A call of the table.
    Table(Call),
    /// A procedure that isn't in the table, with its parameters as they are.
    Raw(RawCall),
}

impl From<Call> for Asked {
    ghost use Rattle.std.specs.Prelude.{◌≡◌};
    ghost use Rattle.gc_catalogue.specs.declared.asked.Asked.TheVariants.{Table};

    ghost from_gives = { λ call asked. asked ≡ Table call };

    #[inline]
    fn from(call: Call) -> Asked {
        Asked::Table(call)
    }
}

impl Asked {
    /// Whether a call of the table is asked for.
    #[inline]
    pub fn is_of_table(&self) -> bool
        ensures { result ≡ is_of_table self.now }
    {
        match self {
            Asked::Table(_) => true,
            Asked::Raw(_) => false,
        }
    }

    /// The number of the procedure that is asked for.
    pub fn number(&self) -> u16
        ensures { result ≡ procedure_of self.now }
    {
        match self {
            Asked::Table(call) => call.number(),
            Asked::Raw(raw) => raw.number(),
        }
    }
}

// Appends the request line of a procedure that isn't in the table, with the id or without one: at most 512 bytes, without CR LF.
fn encode_raw_onto<const N: usize>(out: &mut ArrayVec<u8, N>, id: Option<u8>, raw: &RawCall)
    requires id { MayBeId id }
    requires room { array_vec_len out.old + 512 ≤ N }
    ensures line { out.new.items ≡ out.old.items ++ raw_line id raw.now }
    ensures is { IsRawCall raw.now.rpc (raw_params raw.now) }
{
    push_request(out, raw.number(), id);
    append(out, raw.params());
}

/// As [`encode_asked`], but the line is appended to `out`, which has to have room for 512 more bytes.
#[inline]
pub fn encode_asked_onto<const N: usize>(out: &mut ArrayVec<u8, N>, id: Option<u8>, asked: &Asked)
    requires id { MayBeId id }
    requires room { array_vec_len out.old + 512 ≤ N }
    ensures line { out.new.items ≡ out.old.items ++ asked_line id asked.now }
    ensures plain { IsPlain (asked_line id asked.now) }
    ensures reads_back { ReadsBackAsked id asked.now }
    ensures fitting { IsAskedFitting asked.now }
{
    match asked {
        Asked::Table(call) => encode_call_onto(out, id, call),
        Asked::Raw(raw) => encode_raw_onto(out, id, raw),
    }
}

/// Writes the request line of what is asked, without its CR LF, with the id, 0 to 7, or without one. It has at most 512 bytes, and
/// reads back as what is asked.
pub fn encode_asked(id: Option<u8>, asked: &Asked) -> Line
    requires { MayBeId id }
    ensures line { result.items ≡ asked_line id asked.now }
    ensures plain { IsPlain result.items }
    ensures reads_back { ReadsBackAsked id asked.now }
    ensures fitting { IsAskedFitting asked.now }
{
    let mut line = Line::new();
    encode_asked_onto(&mut line, id, asked);
    line
}

/// Reads what a request asks for: a call of the table, or a procedure that isn't in it. `None`: its number is in the table
/// and its parameters can't be read as those of the procedure, or its number isn't in the table and [`raw_call`] refuses it.
pub fn decode_asked(request: &Request<'_>) -> Option<Asked>
    ensures found { IfSome result (λ asked. IsAsked request.now.rpc request.now.params.now asked) }
    ensures only { (asked : Asked) → IsAsked request.now.rpc request.now.params.now asked → result ≡ Some asked }
{
    if let Ok(call) = decode_call(request) {
        return Some(Asked::Table(call));
    }
    match raw_call(request.rpc, request.params) {
        Ok(raw) => Some(Asked::Raw(raw)),
        Err(_) => None,
    }
}

// Reads what a reply says in answer to a request for a procedure that isn't in the table, into `reading`. With both codes 0 the
// reading is `Unreadable` with the fault that `items_fault` finds in the reply's parameters, or the value `Answer::Nothing` if
// it finds none.
fn decode_raw_into(reply: &Reply<'_>, reading: &mut Reading)
    ensures { IsRawReading (reply_seen reply.now) reading.new }
{
    if read_codes(reply, reading) {
        return;
    }
    *reading = match items_fault(reply.params) {
        Some(fault) => Reading::Unreadable(fault),
        None => Reading::Value(Answer::Nothing),
    };
}

/// Reads what a reply says in answer to what was asked, into `reading`. Where a call of the table was asked for, or a code isn't
/// 0, the reading is as in `decode_answer`. Otherwise it is `Unreadable` with `OpenQuote` if the reply's parameters have an odd
/// number of double quotes, else `Unreadable` with `TooMany` if there are more than 16, and else the value `Answer::Nothing`,
/// whatever the parameters are.
#[inline]
pub fn decode_asked_into(asked: &Asked, reply: &Reply<'_>, reading: &mut Reading)
    ensures found { IsAskedReading asked.now (reply_seen reply.now) reading.new }
    ensures only { (other : Reading) → IsAskedReading asked.now (reply_seen reply.now) other → reading.new ≡ other }
{
    match asked {
        Asked::Table(call) => decode_answer_into(call, reply, reading),
        Asked::Raw(_) => decode_raw_into(reply, reading),
    }
}

impl Asking for Asked {
    ghost use Rattle.gc_catalogue.specs.declared.asked.Asked.TheVariants.{Table};
    ghost use Rattle.gc_catalogue.specs.declared.call.Call.TheVariants.{NullProc};

    ghost blank = { Table NullProc };

    ghost line = { asked_line };

    ghost says = { IsAskedReading };

    ghost is_fitting = { IsAskedFitting };

    #[inline(always)]
    fn blank() -> Asked {
        Asked::Table(Call::NullProc)
    }

    #[inline(always)]
    fn write_onto(&self, out: &mut Line, id: Option<u8>) {
        encode_asked_onto(out, id, self);
    }

    #[inline(always)]
    fn read_into(&self, reply: &Reply<'_>, reading: &mut Reading) {
        decode_asked_into(self, reply, reading);
    }
}
