//! The verdicts on the frames of a recording: how they are found, and how they are printed.

ghost use Rattle.std.specs.Prelude.{◌≡◌, ◌+◌, ◌≤◌, ◌++◌, length, MatchOption};
ghost use Rattle.gc_lines.specs.Lent.{lent_seen};
ghost use Rattle.gc_lines.specs.Replies.{FirstBadOfReply};
ghost use Rattle.gc_lines.specs.Requests.{request_seen};
ghost use Rattle.gc_lines.specs.declared.frame.Frame.{Frame};
ghost use Rattle.gc_filters.specs.Verdicts.{IsRequestVerdict, BeginsAsReply, IsLineVerdict, IsVerdict, verdict_text};

use gc_catalogue::{CallFault, decode_call};
use gc_lines::{Lent, LineFault, Outgoing, Request, append, read_reply, read_request};
use itoa::{Buffer, Integer};

/// The verdict on a frame. The verdicts and the numbers of their faults are this project's own.
#[derive(Clone, Copy)]
pub(crate) enum Verdict {
    /// A line feed without a CR before it.
    Cleared,
    /// A line of more than 512 bytes.
    Overlong,
    /// A request of a procedure of the table, with parameters that can be read.
    Request { rpc: u16 },
    /// A request whose procedure isn't in the table, or whose parameters can't be read.
    RequestFault { rpc: u16, fault: CallFault },
    /// A reply.
    Reply { rc_com: u16, rc: u16 },
    /// A line that is neither a request nor a reply. The fault is that of a reply if the line begins as one, else that of a request.
    Fault { fault: LineFault },
}

// The verdict on a frame. `None`: no line feed has ended the frame yet.
#[inline]
pub(crate) fn verdict_of(frame: Lent<'_>) -> Option<Verdict>
    ensures { MatchOption result (lent_seen frame.entry ≡ Frame.More) (λ v. IsVerdict (lent_seen frame.entry) v) }
{
    match frame {
        Lent::Line(line) => Some(line_verdict(line)),
        Lent::Cleared => Some(Verdict::Cleared),
        Lent::Overlong => Some(Verdict::Overlong),
        Lent::More => None,
    }
}

// The verdict on a line.
#[inline]
pub(crate) fn line_verdict(line: &[u8]) -> Verdict
    ensures { IsLineVerdict line.now result }
{
    match read_reply(line) {
        Ok(reply) => Verdict::Reply {
            rc_com: reply.rc_com,
            rc: reply.rc,
        },
        Err(fault) => verdict_on_no_reply(line, fault),
    }
}

// The verdict on a line that is no reply; `fault` is its first fault as a reply. If `fault` is `Signature`, the line doesn't begin
// as a reply, and is judged as a request.
#[inline]
fn verdict_on_no_reply(line: &[u8], fault: LineFault) -> Verdict
    requires { FirstBadOfReply line.now fault }
    ensures { IsLineVerdict line.now result }
{
    match fault {
        LineFault::Signature => verdict_as_request(line),
        _ => Verdict::Fault { fault },
    }
}

// The verdict on a line that doesn't begin as a reply: that of the request that it is, or its first fault as a request.
#[inline]
fn verdict_as_request(line: &[u8]) -> Verdict
    requires { ¬ BeginsAsReply line.now }
    ensures { IsLineVerdict line.now result }
{
    match read_request(line) {
        Ok(request) => request_verdict(&request),
        Err(fault) => Verdict::Fault { fault },
    }
}

// The verdict on a request.
#[inline]
fn request_verdict(request: &Request<'_>) -> Verdict
    ensures { IsRequestVerdict (request_seen request.now) result }
{
    match decode_call(request) {
        Ok(_) => Verdict::Request { rpc: request.rpc },
        Err(fault) => Verdict::RequestFault {
            rpc: request.rpc,
            fault,
        },
    }
}

// Appends a verdict in words, at most 100 bytes, as `check` prints it after the frame's number. There is room for it.
#[inline]
pub(crate) fn push_verdict(text: &mut Outgoing, verdict: Verdict)
    requires { length text.old.items + 100 ≤ 8192 }
    ensures items { text.new.items ≡ text.old.items ++ verdict_text verdict }
    ensures bound { length text.new.items ≤ length text.old.items + 100 }
{
    match verdict {
        Verdict::Cleared => append(text, b"cleared"),
        Verdict::Overlong => append(text, b"overlong"),
        Verdict::Request { rpc } => {
            push_number(text, b"request ", rpc);
            append(text, b" ok");
        }
        Verdict::RequestFault { rpc, fault } => {
            push_number(text, b"request ", rpc);
            push_number(text, b" fault ", fault.refusal_number());
        }
        Verdict::Reply { rc_com, rc } => {
            push_number(text, b"reply ", rc_com);
            push_number(text, b" ", rc);
        }
        Verdict::Fault { fault } => push_number(text, b"fault ", fault.number()),
    }
}

// Appends a word, and a number in decimal after it. There is room for both.
#[inline]
fn push_number<I: Integer>(text: &mut Outgoing, word: &[u8], number: I)
    requires { length text.old.items + length word.now + 40 ≤ 8192 }
    ensures items { text.new.items ≡ text.old.items ++ word.now ++ I.text number }
    ensures bound { length text.new.items ≤ length text.old.items + length word.now + 40 }
{
    append(text, word);
    push_digits(text, number);
}

// Appends the decimal digits of a number. There is room for them.
#[inline]
pub(crate) fn push_digits<I: Integer>(text: &mut Outgoing, number: I)
    requires { length text.old.items + 40 ≤ 8192 }
    ensures items { text.new.items ≡ text.old.items ++ I.text number }
    ensures bound { length text.new.items ≤ length text.old.items + 40 }
{
    append(text, Buffer::new().format(number).as_bytes());
}
