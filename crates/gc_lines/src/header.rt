//! What requests and replies share: a signature, a number, an id where there is one, and a colon.

ghost use Rattle.std.specs.Prelude.{◌≡◌, ◌+◌, ◌≤◌, ◌++◌, [], length};
ghost use Rattle.arrayvec.specs.ArrayVec.{array_vec_len};
ghost use Rattle.gc_lines.specs.Headers.{GivesSame, MayBeId, id_text, header_text};
ghost use Rattle.gc_lines.specs.Readers.{header_seen, signature_at, id_at, colon_at, header_at};

use crate::fault::LineFault;
use crate::line::append;
use crate::number::{count_digits, number_of, push_number};
use arrayvec::ArrayVec;

// The values of the fields up to the colon, and what follows the colon.
#[derive(Clone, Copy)]
pub(crate) struct Header<'a> {
    // In a request the procedure's number, in a reply the return code of the communication.
    pub(crate) number: u16,
    // The transaction id, from 0 to 7, where there is one.
    pub(crate) id: Option<u8>,
    // The bytes after the colon.
    pub(crate) rest: &'a [u8],
}

// Reads the fields through the colon, from the left. The error names the first faulty one.
#[inline(always)]
#[tactic(auto, unfolding(crate::specs::Readers::header_at))]
pub(crate) fn header_of<'a>(signature: &[u8], line: &'a [u8]) -> Result<Header<'a>, LineFault>
    ensures { GivesSame header_seen result (header_at signature.now line.now) }
{
    let rest = after_signature(signature, line)?;
    let (number, rest) = number_of(rest, LineFault::Number)?;
    let (id, rest) = id_of(rest)?;
    let rest = after_colon(rest)?;
    Ok(Header { number, id, rest })
}

// The bytes after the signature. `Signature`: the line doesn't begin with it.
#[inline(always)]
fn after_signature<'a>(signature: &[u8], line: &'a [u8]) -> Result<&'a [u8], LineFault>
    ensures { GivesSame (λ rest. rest.now) result (signature_at signature.now line.now) }
{
    line.strip_prefix(signature).ok_or(LineFault::Signature)
}

// The id after a comma, or none without a comma, and the bytes that follow. `Id`: no single digit from 0 to 7 follows the
// comma.
#[inline(always)]
fn id_of(bytes: &[u8]) -> Result<(Option<u8>, &[u8]), LineFault>
    ensures { GivesSame (λ x. (x.0, x.1.now)) result (id_at bytes.now) }
{
    let [b',', rest @ ..] = bytes else {
        return Ok((None, bytes));
    };
    if count_digits(rest) != 1 || rest[0] > b'7' {
        return Err(LineFault::Id);
    }
    Ok((Some(rest[0] - b'0'), &rest[1..]))
}

// The bytes after a colon. `Colon`: there is none at the front.
#[inline(always)]
fn after_colon(bytes: &[u8]) -> Result<&[u8], LineFault>
    ensures { GivesSame (λ rest. rest.now) result (colon_at bytes.now) }
{
    match bytes {
        [b':', rest @ ..] => Ok(rest),
        _ => Err(LineFault::Colon),
    }
}

// Appends the signature, the number, the id with a comma before it where there is one, and a colon: at most 13 bytes.
#[inline(always)]
pub(crate) fn push_header<const N: usize>(
    to: &mut ArrayVec<u8, N>,
    signature: &[u8; 5],
    number: u16,
    id: Option<u8>,
)
    requires id { MayBeId id }
    requires room { array_vec_len to.old + 13 ≤ N }
    ensures items { to.new.items ≡ to.old.items ++ header_text signature.now number id }
    ensures len { array_vec_len to.new ≤ array_vec_len to.old + 13 }
{
    append(to, signature);
    push_number(to, number);
    push_id(to, id);
    to.push(b':');
}

// Appends a comma and the id, if there is one: at most 2 bytes.
#[inline(always)]
fn push_id<const N: usize>(to: &mut ArrayVec<u8, N>, id: Option<u8>)
    requires id { MayBeId id }
    requires room { array_vec_len to.old + 2 ≤ N }
    ensures items { to.new.items ≡ to.old.items ++ id_text id }
    ensures len { array_vec_len to.new ≤ array_vec_len to.old + 2 }
{
    if let Some(id) = id {
        append(to, &[b',', b'0' + id]);
    }
}
