//! What the instrument replies to a line: nothing if the line is no request, the communication code 3081 or
//! 3080 if the request names no call, the stored reply if it has the stored id, and else the call's answer.

ghost use Rattle.std.specs.Prelude.{◌≡◌, ◌<◌};
ghost use Rattle.std.specs.Option.{option_map};
ghost use Rattle.gc_lines.specs.Answering.{AppendsAnswer, AppendsText, GrowsByReply, HasRoomForReply};
ghost use Rattle.gc_lines.specs.Headers.{MayBeId};
ghost use Rattle.gc_instrument.specs.Replying.{IsReplied, IsExchanged, AppendsExchange, IsReplyToCall, IsReplyToExecuted, OfItsCall, com_code};

use super::Instrument;
use crate::codes::{UNKNOWN_PROCEDURE, WRONG_PARAMETERS};
use crate::replies::{Replies, reply_to_line};
use arrayvec::ArrayVec;
use gc_catalogue::{Answer, Call, CallFault, decode_call_into, encode_answer_onto};
use gc_lines::{Line, Request, append, push_reply};

impl Instrument {
    /// Takes a line, and returns the reply to it, both without CR LF. `None`: the line is no request.
    ///
    /// The call is carried out, and its reply has the request's id, or 0 if it has none, and doubles rounded to the precision
    /// that is in force after the call. A procedure that isn't in the catalogue is answered with the communication code 3081, and
    /// parameters that can't be read with 3080; then nothing changes, as with a line that is no request.
    ///
    /// The id and the reply of the last request that carried an id and was carried out are stored until
    /// a restart. A request that carries the stored id and names a call, even another one, is taken for a
    /// repeat: it gets the stored reply, and nothing is carried out. A request without an id is never a
    /// repeat, and leaves the stored reply as it is.
    #[tactic(auto, using(crate::proofs::Answering::replied_alone, crate::proofs::Answering::exchanged_alone))]
    pub fn on_line(&mut self, line: &Line) -> Option<Line>
        ensures replied { IsReplied self.old line.now.items self.new (option_map (λ r. r.items) result) }
        ensures exchanged { OfItsCall line.now.items
            (λ id call. IsExchanged self.old id call self.new (option_map (λ r. r.items) result)) }
    {
        let mut reply = Line::new();
        if self.reply_onto(line.as_slice(), &mut reply) {
            Some(reply)
        } else {
            None
        }
    }

    /// As [`Instrument::on_line`], but the line may be of any length, and the reply is appended to `out`, which has to have room for 512
    /// more bytes. It returns whether there is a reply: `false` if the line is no request, and then `out` is unchanged.
    #[inline(always)]
    pub fn reply_onto<const N: usize>(&mut self, line: &[u8], out: &mut ArrayVec<u8, N>) -> bool
        requires { HasRoomForReply N out.old }
        ensures replied { AppendsAnswer (IsReplied self.old line.now self.new) out.old.items out.new.items result }
        ensures bound { GrowsByReply out.old.items out.new.items }
        ensures exchanged { AppendsExchange self.old line.now self.new out.old.items out.new.items result }
    {
        reply_to_line(self, line, out)
    }

    // Appends the reply to a call: the stored one to a repeat, and else a new one, which is stored if the request has an id.
    #[inline]
    fn answer_call<const N: usize>(
        &mut self,
        id: Option<u8>,
        call: &Call,
        out: &mut ArrayVec<u8, N>,
    )
        requires id { MayBeId id }
        requires room { HasRoomForReply N out.old }
        ensures replies { AppendsText (IsReplyToCall self.old id call.now self.new) out.old.items out.new.items }
        ensures bound { GrowsByReply out.old.items out.new.items }
    {
        if let Some(line) = self.kept.line_of(id) {
            append(out, line);
            return;
        }
        let start = out.len();
        self.carry_out_onto(id.unwrap_or(0), call, out);
        self.kept.keep(id, &out[start..]);
    }

    // Carries out a call, and appends its reply, with this id and without CR LF.
    #[inline]
    fn carry_out_onto<const N: usize>(&mut self, id: u8, call: &Call, out: &mut ArrayVec<u8, N>)
        requires id { id < 8 }
        requires room { HasRoomForReply N out.old }
        ensures replies { AppendsText (IsReplyToExecuted self.old id call.now self.new) out.old.items out.new.items }
        ensures bound { GrowsByReply out.old.items out.new.items }
    {
        let mut answer = Answer::Nothing;
        let rc = self.carry_out(call, &mut answer);
        encode_answer_onto(out, id, rc, &answer, self.settings.precision);
    }
}

impl<const N: usize> Replies<N> for Instrument {
    ghost use Rattle.gc_instrument.specs.Replying.{IsReplyToRequest};

    ghost does = { IsReplyToRequest };

    // The reply has the communication code 3081 or 3080 if the request names no call, and else it is that of `answer_call`.
    #[inline]
    fn reply_to(&mut self, request: &Request<'_>, out: &mut ArrayVec<u8, N>) {
        let mut call = Call::NullProc;
        match decode_call_into(request, &mut call) {
            Ok(()) => self.answer_call(request.id, &call, out),
            Err(fault) => push_reply(out, com_code(fault), request.id.unwrap_or(0), 0),
        }
    }
}

// The communication code for a request that names no call: 3081 if no procedure has its number, 3080 if its parameters can't be read.
fn com_code(fault: CallFault) -> u16
    ensures { result ≡ com_code fault }
{
    match fault {
        CallFault::Unknown => UNKNOWN_PROCEDURE,
        CallFault::Parameters(_) => WRONG_PARAMETERS,
    }
}
