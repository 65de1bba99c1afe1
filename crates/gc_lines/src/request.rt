//! A request line: `%R1Q,<RPC>[,<TrId>]:[<P0>][,<P1>,...]`, read leniently and written in one form.

ghost use Rattle.std.specs.Prelude.{◌≡◌, ◌+◌, ◌≤◌, ◌++◌, [], IfOk, IfErr};
ghost use Rattle.arrayvec.specs.ArrayVec.{array_vec_len};
ghost use Rattle.gc_lines.specs.Lines.{IsPlain, IsLineWithText, IsTooLong};
ghost use Rattle.gc_lines.specs.Headers.{FailsEach, GivesSame, GivesEach, MayBeId};

use crate::fault::LineFault;
use crate::header::{header_of, push_header};
use crate::line::{Line, append};
use arrayvec::ArrayVec;

/// A request's fields.
///
/// The form is that of the GeoCOM manual's chapter on the ASCII protocol; that ids are one digit from 0 to 7 is this project's
/// own.
#[derive(Clone, Copy)]
pub struct Request<'a> {
    /// The procedure's number.
    pub rpc: u16,
    /// The transaction id, from 0 to 7, where there is one.
    pub id: Option<u8>,
    /// All bytes after the colon: the parameters.
    pub params: &'a [u8],
}

ghost use Rattle.gc_lines.specs.Requests.{request_seen, IsRequest, FirstBadOfRequest, request_text};
ghost use Rattle.gc_lines.specs.Readers.{request_at};

// As `read_request`. Its contract says only that the result is that of `request_at`; the contract of `read_request`, which says
// what the grammar has, is proved from it.
#[inline(always)]
#[tactic(auto, unfolding(crate::specs::Readers::request_at))]
fn request_of(line: &[u8]) -> Result<Request<'_>, LineFault>
    ensures { GivesSame request_seen result (request_at line.now) }
{
    let header = header_of(b"%R1Q,", line)?;
    Ok(Request {
        rpc: header.number,
        id: header.id,
        params: header.rest,
    })
}

/// Reads a request line, given without its CR LF. The error names the first faulty field from the left, and is never
/// [`LineFault::Code`] or [`LineFault::TooLong`].
#[inline(always)]
pub fn read_request(line: &[u8]) -> Result<Request<'_>, LineFault>
    ensures found { IfOk result (λ r. IsRequest line.now (request_seen r)) }
    ensures only { GivesEach IsRequest request_seen line.now result }
    ensures fault { IfErr result (λ f. FirstBadOfRequest line.now f) }
    ensures faulty { FailsEach FirstBadOfRequest line.now result }
    ensures exact { GivesSame request_seen result (request_at line.now) }
{
    request_of(line)
}

/// Appends a request through its colon, at most 13 bytes; the parameters may follow.
#[inline]
pub fn push_request<const N: usize>(to: &mut ArrayVec<u8, N>, rpc: u16, id: Option<u8>)
    requires id { MayBeId id }
    requires room { array_vec_len to.old + 13 ≤ N }
    ensures items { to.new.items ≡ to.old.items ++ request_text (record { rpc = rpc; id = id; params = [] }) }
    ensures len { array_vec_len to.new ≤ array_vec_len to.old + 13 }
{
    push_header(to, b"%R1Q,", rpc, id);
}

/// A request line through its colon, at most 13 bytes, to which the parameters may be appended.
pub fn begin_request(rpc: u16, id: Option<u8>) -> Line
    requires { MayBeId id }
    ensures items { result.items ≡ request_text (record { rpc = rpc; id = id; params = [] }) }
    ensures room { array_vec_len result ≤ 13 }
{
    let mut line = Line::new();
    push_request(&mut line, rpc, id);
    line
}

/// Writes a request line, without its CR LF. It fails with [`LineFault::TooLong`] exactly where the line would have more than 512
/// bytes.
#[inline]
pub fn write_request(r: &Request<'_>) -> Result<Line, LineFault>
    requires id { MayBeId r.now.id }
    requires plain { IsPlain r.now.params.now }
    ensures ok { IfOk result (λ line. IsLineWithText (request_text (request_seen r.now)) line.items) }
    ensures err { IfErr result (λ f. IsTooLong (request_text (request_seen r.now)) f) }
{
    let mut line = begin_request(r.rpc, r.id);
    if r.params.len() > line.remaining_capacity() {
        return Err(LineFault::TooLong);
    }
    append(&mut line, r.params);
    Ok(line)
}
