//! A reply line: `%R1P,<RC_COM>[,<TrId>]:<RC>[,<P0>,<P1>,...]`, read leniently and written in one form.

ghost use Rattle.std.specs.Prelude.{◌≡◌, ◌+◌, ◌<◌, ◌≤◌, ◌++◌, [], Some, IfOk, IfErr};
ghost use Rattle.arrayvec.specs.ArrayVec.{array_vec_len};
ghost use Rattle.gc_lines.specs.Headers.{FailsEach, GivesSame, GivesEach, MayBeId};

use crate::fault::LineFault;
use crate::header::{header_of, push_header};
use crate::line::{Line, append};
use crate::number::{number_of, push_number};
use arrayvec::ArrayVec;

/// A reply's fields. For both return codes 0 is success.
///
/// The form is that of the GeoCOM manual's chapter on the ASCII protocol; that ids are one digit from 0 to 7 is this project's
/// own.
#[derive(Clone, Copy)]
pub struct Reply<'a> {
    /// The return code of the communication.
    pub rc_com: u16,
    /// The request's transaction id, from 0 to 7, where there is one.
    pub id: Option<u8>,
    /// The return code of the procedure.
    pub rc: u16,
    /// All bytes after the comma that follows `rc`, and none where there is no comma.
    pub params: &'a [u8],
}

ghost use Rattle.gc_lines.specs.Replies.{reply_seen, IsReply, FirstBadOfReply, reply_text};
ghost use Rattle.gc_lines.specs.Readers.{params_at, code_at, reply_at};
ghost use Rattle.gc_lines.specs.Lines.{IsPlain, IsLineWithText, IsTooLong};

// The parameters after a return code: none at the end of the line, else all that follows a comma. `Code`: neither is there.
#[inline(always)]
fn params_of(bytes: &[u8]) -> Result<&[u8], LineFault>
    ensures { GivesSame (λ params. params.now) result (params_at bytes.now) }
{
    match bytes {
        [] => Ok(bytes),
        [b',', params @ ..] => Ok(params),
        _ => Err(LineFault::Code),
    }
}

// The return code at the front and the parameters after it. `Code`: the bytes don't begin with a run of one to five digits with
// a value of at most 65535, or neither a comma nor the end follows the run.
#[inline(always)]
fn code_of(bytes: &[u8]) -> Result<(u16, &[u8]), LineFault>
    ensures { GivesSame (λ x. (x.0, x.1.now)) result (code_at bytes.now) }
{
    let (rc, rest) = number_of(bytes, LineFault::Code)?;
    let params = params_of(rest)?;
    Ok((rc, params))
}

// As `read_reply`. Its contract says only that the result is that of `reply_at`; the contract of `read_reply`, which says what the
// grammar has, is proved from it.
#[inline(always)]
#[tactic(auto, unfolding(crate::specs::Readers::reply_at))]
fn reply_of(line: &[u8]) -> Result<Reply<'_>, LineFault>
    ensures { GivesSame reply_seen result (reply_at line.now) }
{
    let header = header_of(b"%R1P,", line)?;
    let (rc, params) = code_of(header.rest)?;
    Ok(Reply {
        rc_com: header.number,
        id: header.id,
        rc,
        params,
    })
}

/// Reads a reply line, given without its CR LF. The error names the first faulty field from the left, and is never
/// [`LineFault::TooLong`].
#[inline(always)]
pub fn read_reply(line: &[u8]) -> Result<Reply<'_>, LineFault>
    ensures found { IfOk result (λ r. IsReply line.now (reply_seen r)) }
    ensures only { GivesEach IsReply reply_seen line.now result }
    ensures fault { IfErr result (λ f. FirstBadOfReply line.now f) }
    ensures faulty { FailsEach FirstBadOfReply line.now result }
    ensures exact { GivesSame reply_seen result (reply_at line.now) }
{
    reply_of(line)
}

/// Appends a reply with an id, from 0 to 7, through its return code, at most 18 bytes; parameters may follow, each after a comma.
#[inline]
pub fn push_reply<const N: usize>(to: &mut ArrayVec<u8, N>, rc_com: u16, id: u8, rc: u16)
    requires id { id < 8 }
    requires room { array_vec_len to.old + 18 ≤ N }
    ensures items { to.new.items ≡ to.old.items ++ reply_text (record { rc_com = rc_com; id = Some id; rc = rc; params = [] }) }
    ensures len { array_vec_len to.new ≤ array_vec_len to.old + 18 }
{
    // The usual reply, with both codes 0, is appended as one array.
    if rc_com == 0 && rc == 0 {
        append(
            to,
            &[
                b'%',
                b'R',
                b'1',
                b'P',
                b',',
                b'0',
                b',',
                b'0' + id,
                b':',
                b'0',
            ],
        );
    } else {
        push_reply_fields(to, rc_com, Some(id), rc);
    }
}

// As `push_reply`, with an id or without one, and always field by field.
fn push_reply_fields<const N: usize>(to: &mut ArrayVec<u8, N>, rc_com: u16, id: Option<u8>, rc: u16)
    requires id { MayBeId id }
    requires room { array_vec_len to.old + 18 ≤ N }
    ensures items { to.new.items ≡ to.old.items ++ reply_text (record { rc_com = rc_com; id = id; rc = rc; params = [] }) }
    ensures len { array_vec_len to.new ≤ array_vec_len to.old + 18 }
{
    push_header(to, b"%R1P,", rc_com, id);
    push_number(to, rc);
}

// A reply line through its return code; parameters may be appended, each after a comma.
fn begin_reply(rc_com: u16, id: Option<u8>, rc: u16) -> Line
    requires { MayBeId id }
    ensures items { result.items ≡ reply_text (record { rc_com = rc_com; id = id; rc = rc; params = [] }) }
    ensures room { array_vec_len result ≤ 18 }
{
    let mut line = Line::new();
    push_reply_fields(&mut line, rc_com, id, rc);
    line
}

/// Writes a reply line, without its CR LF. A comma follows the return code only where there are parameters. It fails with
/// [`LineFault::TooLong`] exactly where the line would have more than 512 bytes.
#[inline]
pub fn write_reply(r: &Reply<'_>) -> Result<Line, LineFault>
    requires id { MayBeId r.now.id }
    requires plain { IsPlain r.now.params.now }
    ensures ok { IfOk result (λ line. IsLineWithText (reply_text (reply_seen r.now)) line.items) }
    ensures err { IfErr result (λ f. IsTooLong (reply_text (reply_seen r.now)) f) }
{
    let mut line = begin_reply(r.rc_com, r.id, r.rc);
    if r.params.is_empty() {
        return Ok(line);
    }
    if r.params.len() >= line.remaining_capacity() {
        return Err(LineFault::TooLong);
    }
    line.push(b',');
    append(&mut line, r.params);
    Ok(line)
}
