//! What the simulator and the instrument of a scene have in common: how they reply to lines and frames, by how they reply to requests.

ghost use Rattle.std.specs.Prelude.{ℕ, List};
ghost use Rattle.gc_lines.specs.Answering.{AppendsAnswer, AppendsText, GrowsByAnswer, GrowsByReply, HasRoomForAnswer, HasRoomForReply};
ghost use Rattle.gc_lines.specs.AnsweringLines.{AnswersLines, RepliesTo};
ghost use Rattle.gc_lines.specs.Headers.{MayBeId};
ghost use Rattle.gc_lines.specs.Lent.{lent_seen};
ghost use Rattle.gc_lines.specs.Requests.{request_seen};

use arrayvec::ArrayVec;
use gc_lines::{Lent, Outgoing, Request, append, read_request};

/// An instrument that replies to requests, into a text with room for `N` bytes.
pub trait Replies<const N: usize> {
    ghost use Rattle.gc_lines.specs.Requests.{RequestFields};

    /// What the instrument does with a request: the state before it, the request, the state after it, and the reply.
    ghost does: { Self → RequestFields → Self → List ℕ → Type 0 };

    /// Appends the reply to a request, without CR LF.
    fn reply_to(&mut self, request: &Request<'_>, out: &mut ArrayVec<u8, N>)
        requires id { MayBeId request.now.id }
        requires room { HasRoomForReply N out.old }
        ensures replies { AppendsText (does self.old (request_seen request.now) self.new) out.old.items out.new.items }
        ensures bound { GrowsByReply out.old.items out.new.items };
}

/// Appends an instrument's reply to a line, without CR LF, and returns whether there is one: `false` if the line is no request, and
/// then nothing changes.
#[inline(always)]
pub fn reply_to_line<const N: usize, I: Replies<N>>(
    instrument: &mut I,
    line: &[u8],
    out: &mut ArrayVec<u8, N>,
) -> bool
    requires { HasRoomForReply N out.old }
    ensures replied { AppendsAnswer (RepliesTo I.does instrument.old line.now instrument.new) out.old.items out.new.items result }
    ensures bound { GrowsByReply out.old.items out.new.items }
{
    match read_request(line) {
        Ok(request) => {
            instrument.reply_to(&request, out);
            true
        }
        Err(_) => false,
    }
}

/// Appends an instrument's reply to a frame that is a line, with CR LF, and returns whether there is one. Without one nothing changes.
#[inline(always)]
pub fn answer_frame<I: Replies<8192>>(
    instrument: &mut I,
    frame: Lent<'_>,
    text: &mut Outgoing,
) -> bool
    requires { HasRoomForAnswer text.old }
    ensures answered { AppendsAnswer (AnswersLines (RepliesTo I.does) instrument.old (lent_seen frame.entry) instrument.new)
        text.old.items text.new.items result }
    ensures bound { GrowsByAnswer text.old.items text.new.items }
{
    let Lent::Line(line) = frame else {
        return false;
    };
    if !reply_to_line(instrument, line, text) {
        return false;
    }
    append(text, b"\r\n");
    true
}
