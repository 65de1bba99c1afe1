//! What a scene's instrument replies to a line.

ghost use Rattle.std.specs.Prelude.{◌≡◌, ◌<◌, ◌≤◌, ◌++◌, length, IfSome};
ghost use Rattle.std.specs.Option.{option_map};
ghost use Rattle.gc_lines.specs.Answering.{AppendsAnswer, GrowsByReply, HasRoomForReply};
ghost use Rattle.gc_lines.specs.Headers.{MayBeId};
ghost use Rattle.gc_lines.specs.Lines.{IsPlain};
ghost use Rattle.gc_catalogue.specs.Texts.{reply_line};
ghost use Rattle.gc_scenes.specs.SceneExecution.{answer_or_values, plays, unless_faulted, faulted_call};
ghost use Rattle.gc_scenes.specs.SceneReplying.{IsPlayed, resent_line, handed_fresh, handed_raw, played_fresh, played_line, line_with, kept_if_repeating, holding};
ghost use Rattle.gc_scenes.specs.Appending.{AppendsHanded, AppendsPlayed};

use crate::instrument::SceneInstrument;
use crate::rules::Scripted;
use crate::ways::{is_warning, valued};
use arrayvec::ArrayVec;
use gc_catalogue::{Answer, Call, CallFault, decode_call_into, encode_answer_onto};
use gc_instrument::{Replies, UNKNOWN_PROCEDURE, WRONG_PARAMETERS, reply_to_line};
use gc_lines::{Request, append, push_reply};
use gc_values::Decimal;

// The size of the buffer in which a line is put together before it is appended, in bytes.
const BUFFER: usize = 1024;

// What is done with a request that isn't a repeat.
#[derive(Clone, Copy)]
enum Fresh<'a> {
    // A fault answers this call, or it is executed.
    Call(&'a Call),
    // This reply is sent, as the request's procedure isn't in the table.
    Raw(&'a Scripted),
}

impl SceneInstrument {
    /// Appends the reply to a line to `out`, without CR LF, and returns `true`. If the line is no request, it returns `false`, and `out`
    /// and the instrument are unchanged.
    ///
    /// The reply is that of the simulator, but for the scene's rules and the instrument's ways: a request that a fault answers is not
    /// executed, a hidden target isn't found, and a procedure that isn't in the catalogue gets the code of a fault or the scene's reply, if
    /// there is one, in place of the communication code 3081.
    ///
    /// If the instrument repeats, the reply to a request with an id is stored, also if the request wasn't executed; and a request with the
    /// stored id gets the stored reply again, and changes nothing. Neither holds of a request that is refused with a communication code
    /// (3080 or 3081).
    pub fn reply_onto<const N: usize>(&mut self, line: &[u8], out: &mut ArrayVec<u8, N>) -> bool
        requires { HasRoomForReply N out.old }
        ensures played { AppendsAnswer (IsPlayed self.old line.now self.new) out.old.items out.new.items result }
        ensures bound { GrowsByReply out.old.items out.new.items }
        ensures plain { AppendsAnswer (λ reply. IfSome reply IsPlain) out.old.items out.new.items result }
    {
        reply_to_line(self, line, out)
    }

    // The stored line that answers a request with this id, if the instrument repeats. `None`: `id` is `None`, no line is stored
    // with it, or the instrument doesn't repeat.
    fn resent_line(&self, id: Option<u8>) -> Option<&[u8]>
        ensures line { option_map (λ r. r.now) result ≡ resent_line self.now id }
        ensures within { IfSome result (λ r. length r.now ≤ 512) }
        ensures plain { IfSome result (λ r. IsPlain r.now) }
    {
        if self.repeats {
            self.kept.line_of(id)
        } else {
            None
        }
    }

    // If the instrument repeats, stores a reply's line, at most 512 bytes, with the request's id; without an id what is stored stays.
    // If it doesn't repeat, discards what is stored.
    fn keep(&mut self, id: Option<u8>, line: &[u8])
        requires within { length line.now ≤ 512 }
        requires plain { IsPlain line.now }
        ensures { self.new ≡ holding (kept_if_repeating self.old id line.now) self.old }
    {
        if self.repeats {
            self.kept.keep(id, line);
        } else {
            self.kept.forget();
        }
    }

    // Appends the reply to a request. A repeat gets the stored reply (`resent_line`), and changes nothing. Else the request gets a
    // new reply (`fresh_onto`), which is passed to `keep`.
    fn answer_request<const N: usize>(
        &mut self,
        rpc: u16,
        id: Option<u8>,
        fresh: &Fresh<'_>,
        out: &mut ArrayVec<u8, N>,
    )
        requires id { MayBeId id }
        requires room { HasRoomForReply N out.old }
        ensures gave { AppendsHanded (handed_fresh self.old rpc id fresh.now) self.new out.old.items out.new.items }
        ensures bound { GrowsByReply out.old.items out.new.items }
    {
        if let Some(line) = self.resent_line(id) {
            append(out, line);
            return;
        }
        let start = out.len();
        self.fresh_onto(rpc, id.unwrap_or(0), fresh, out);
        self.keep(id, &out[start..]);
    }

    // Appends a new reply to a request, which the faults count.
    fn fresh_onto<const N: usize>(
        &mut self,
        rpc: u16,
        id: u8,
        fresh: &Fresh<'_>,
        out: &mut ArrayVec<u8, N>,
    )
        requires id { id < 8 }
        requires room { HasRoomForReply N out.old }
        ensures played { AppendsPlayed id (played_fresh self.old rpc fresh.now) self.new out.old.items out.new.items }
        ensures bound { GrowsByReply out.old.items out.new.items }
    {
        match fresh {
            Fresh::Call(call) => {
                let fault = self.fault_of(rpc);
                self.count(rpc);
                self.play_onto(id, call, fault, out);
            }
            Fresh::Raw(reply) => {
                self.count(rpc);
                push_reply_with(id, reply.rc, reply.params(), out);
            }
        }
    }

    // Appends the reply to a call that isn't a repeat: that of the fault with this code or, if no fault answers the call (`None`), that of
    // executing it.
    fn play_onto<const N: usize>(
        &mut self,
        id: u8,
        call: &Call,
        fault: Option<u16>,
        out: &mut ArrayVec<u8, N>,
    )
        requires id { id < 8 }
        requires room { HasRoomForReply N out.old }
        ensures played { AppendsPlayed id (unless_faulted self.old call.now fault) self.new out.old.items out.new.items }
        ensures bound { GrowsByReply out.old.items out.new.items }
    {
        match fault {
            Some(rc) => self.reply_faulted_onto(id, call, rc, out),
            None => self.execute_onto(id, call, out),
        }
    }

    // Appends the reply to a call that a fault answers with this code. It has no answer, or values (`answer_or_values`), with
    // the distance of `distance_in_warning`.
    fn reply_faulted_onto<const N: usize>(
        &self,
        id: u8,
        call: &Call,
        rc: u16,
        out: &mut ArrayVec<u8, N>,
    )
        requires id { id < 8 }
        requires room { HasRoomForReply N out.old }
        ensures line { out.new.items ≡ out.old.items ++ played_line id (faulted_call self.now call.now rc) }
        ensures plain { IsPlain (played_line id (faulted_call self.now call.now rc)) }
        ensures bound { GrowsByReply out.old.items out.new.items }
    {
        let distance = self.distance_in_warning(call, rc);
        let answer = self.answer_or_values(call, rc, &distance, Answer::Nothing);
        self.answer_onto(id, rc, &answer, out);
    }

    // Executes a call, and appends its reply. Where that has values with a warning (`answer_or_values`), the distance is 0.
    fn execute_onto<const N: usize>(&mut self, id: u8, call: &Call, out: &mut ArrayVec<u8, N>)
        requires id { id < 8 }
        requires room { HasRoomForReply N out.old }
        ensures played { AppendsPlayed id (plays self.old call.now) self.new out.old.items out.new.items }
        ensures bound { GrowsByReply out.old.items out.new.items }
    {
        let mut answer = Answer::Nothing;
        let rc = self.execute(call, &mut answer);
        self.disturb(&mut answer);
        let replied = self.answer_or_values(call, rc, &Decimal::zero(), answer);
        self.answer_onto(id, rc, &replied, out);
    }

    // The answer that the reply to a call has with this code: the given one or, if the code is a warning and the instrument has
    // values with warnings, that of `valued`, with this distance.
    fn answer_or_values(&self, call: &Call, rc: u16, distance: &Decimal, given: Answer) -> Answer
        ensures { result ≡ answer_or_values self.now.ways.values self.now.base.pointing call.now rc distance.now given }
    {
        if self.ways.values && is_warning(rc) {
            valued(&self.base.pointing(), call, distance)
        } else {
            given
        }
    }

    // Appends the reply to a call with this answer. The line is put together in a buffer of its own, of another size than the
    // `Outgoing` of a served run. So the simulator alone uses the instance of `encode_answer_onto` for an `Outgoing`, and LLVM inlines it
    // there, also in a program that serves scenes.
    fn answer_onto<const N: usize>(
        &self,
        id: u8,
        rc: u16,
        answer: &Answer,
        out: &mut ArrayVec<u8, N>,
    )
        requires id { id < 8 }
        requires room { HasRoomForReply N out.old }
        ensures line { out.new.items ≡ out.old.items ++ reply_line id rc answer.now self.now.base.precision }
        ensures plain { IsPlain (reply_line id rc answer.now self.now.base.precision) }
        ensures bound { GrowsByReply out.old.items out.new.items }
    {
        let mut line: ArrayVec<u8, BUFFER> = ArrayVec::new();
        encode_answer_onto(&mut line, id, rc, answer, self.base.precision());
        append(out, line.as_slice());
    }

    // Appends the reply to a request of a procedure that isn't in the table: with the code of the fault, if one answers it; else the
    // scene's reply, if it has one; else with the communication code 3081. In place of the first two a repeat gets the stored
    // reply, and no fault counts it. In every other case the faults count the request.
    fn answer_raw<const N: usize>(&mut self, rpc: u16, id: Option<u8>, out: &mut ArrayVec<u8, N>)
        requires id { MayBeId id }
        requires room { HasRoomForReply N out.old }
        ensures gave { AppendsHanded (handed_raw self.old rpc id) self.new out.old.items out.new.items }
        ensures bound { GrowsByReply out.old.items out.new.items }
    {
        match self.fault_of(rpc) {
            Some(rc) => {
                let reply = Scripted {
                    rpc,
                    rc,
                    with: None,
                };
                self.answer_request(rpc, id, &Fresh::Raw(&reply), out);
            }
            None => match self.scripted_reply(rpc) {
                Some(reply) => self.answer_request(rpc, id, &Fresh::Raw(&reply), out),
                None => {
                    self.count(rpc);
                    push_reply(out, UNKNOWN_PROCEDURE, id.unwrap_or(0), 0);
                }
            },
        }
    }
}

impl<const N: usize> Replies<N> for SceneInstrument {
    ghost use Rattle.gc_scenes.specs.SceneReplying.{AnswersPlainly};

    ghost does = { AnswersPlainly };

    // Parameters that can't be read are refused with the communication code 3080: then the instrument stays as it is, and no fault counts
    // the request.
    fn reply_to(&mut self, request: &Request<'_>, out: &mut ArrayVec<u8, N>) {
        let mut call = Call::NullProc;
        match decode_call_into(request, &mut call) {
            Ok(()) => self.answer_request(request.rpc, request.id, &Fresh::Call(&call), out),
            Err(CallFault::Unknown) => self.answer_raw(request.rpc, request.id, out),
            Err(CallFault::Parameters(_)) => {
                push_reply(out, WRONG_PARAMETERS, request.id.unwrap_or(0), 0)
            }
        }
    }
}

// Appends a reply with this id, this return code and these parameters, at most 490 bytes of them, without CR LF.
fn push_reply_with<const N: usize>(id: u8, rc: u16, params: &[u8], out: &mut ArrayVec<u8, N>)
    requires id { id < 8 }
    requires few { length params.now ≤ 490 }
    requires room { HasRoomForReply N out.old }
    ensures line { out.new.items ≡ out.old.items ++ line_with id rc params.now }
    ensures bound { GrowsByReply out.old.items out.new.items }
{
    push_reply(out, 0, id, rc);
    if !params.is_empty() {
        append(out, b",");
        append(out, params);
    }
}
