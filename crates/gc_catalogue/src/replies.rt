//! Answers and their reply lines.

ghost use Rattle.std.specs.Prelude.{◌≡◌, ◌≢◌, ◌+◌, ◌<◌, ◌≤◌, ◌++◌, IsTrue, IsFalse};
ghost use Rattle.arrayvec.specs.ArrayVec.{array_vec_len};
ghost use Rattle.gc_lines.specs.Lines.{IsPlain};
ghost use Rattle.gc_lines.specs.Replies.{reply_seen};
ghost use Rattle.gc_catalogue.specs.Answers.{IsFittingAnswer, rounded_answer};
ghost use Rattle.gc_catalogue.specs.Laws.{ReadsBackValue, ReadsBackRefusal};
ghost use Rattle.gc_catalogue.specs.Readings.{successful_reply, IsCodeReading, IsReading};
ghost use Rattle.gc_catalogue.specs.Texts.{reply_line};
ghost use Rattle.gc_catalogue.specs.declared.answer.Reading.{Reading};

use crate::answer::{Answer, Reading};
use crate::call::Call;
use crate::reading::read_answer_row;
use arrayvec::ArrayVec;
use gc_lines::{Line, Reply, push_reply};
use gc_values::{Listed, Quick};

/// As [`encode_answer`], but the line is appended to `out`, which has to have room for 512 more bytes, and with a return code other
/// than 0 `answer` may be any: if it is `Nothing`, the line reads back as the refusal.
#[inline(always)]
pub fn encode_answer_onto<const N: usize>(
    out: &mut ArrayVec<u8, N>,
    id: u8,
    rc: u16,
    answer: &Answer,
    places: u8,
)
    requires id { id < 8 }
    requires places { places ≤ 15 }
    requires room { array_vec_len out.old + 512 ≤ N }
    ensures line { out.new.items ≡ out.old.items ++ reply_line id rc answer.now places }
    ensures plain { IsPlain (reply_line id rc answer.now places) }
    ensures reads_back { ReadsBackValue id rc answer.now places }
    ensures refused { answer.now ≡ Answer.Nothing → ReadsBackRefusal id rc answer.now places }
    ensures fitting { IsFittingAnswer (rounded_answer places answer.now) }
    ensures bound { array_vec_len out.new ≤ array_vec_len out.old + 512 }
{
    push_reply(out, 0, id, rc);
    out.push(b',');
    answer.write_row(places, out);
    // Removes the comma after the last value, or after the return code.
    out.pop();
}

/// Writes the reply line of an answer, without its CR LF, with the communication code 0, an id from 0 to 7, and each double rounded to
/// `places` places, at most 15. With a return code other than 0, `answer` has to be `Nothing`, and the line reads back as the
/// refusal with that code. With the code 0 it reads back as the rounded answer, for each call that has answers of this shape. It has at
/// most 512 bytes.
pub fn encode_answer(id: u8, rc: u16, answer: &Answer, places: u8) -> Line
    requires id { id < 8 }
    requires places { places ≤ 15 }
    requires refused { rc ≢ 0 → answer.now ≡ Answer.Nothing }
    ensures line { result.items ≡ reply_line id rc answer.now places }
    ensures plain { IsPlain result.items }
    ensures reads_back { ReadsBackValue id rc answer.now places }
    ensures refused { ReadsBackRefusal id rc answer.now places }
{
    let mut line = Line::new();
    encode_answer_onto(&mut line, id, rc, answer, places);
    line
}

// Reads parameters in the common spelling as the call's answer, into `reading`. It returns `false` if they can't be read so;
// in another spelling they may be an answer of the call. After `false`, `reading` may be any reading.
fn read_quickly(call: &Call, params: &[u8], reading: &mut Reading) -> bool
    ensures { IsTrue result → IsReading call.now (successful_reply params.now) reading.new }
{
    let mut quick = Quick::new(params);
    *reading = Reading::Value(Answer::Nothing);
    // `reading` was just made a value, so this only gives the place of its answer.
    let Reading::Value(answer) = reading else {
        return false;
    };
    read_answer_row(call.shape(), &mut quick, answer);
    quick.is_done()
}

// Reads parameters in any spelling into `reading`: the call's answer, or their first fault.
#[inline(never)]
fn read_any_spelling(call: &Call, params: &[u8], reading: &mut Reading)
    ensures { IsReading call.now (successful_reply params.now) reading.new }
{
    let mut listed = Listed::new(params);
    let mut answer = Answer::Nothing;
    read_answer_row(call.shape(), &mut listed, &mut answer);
    *reading = match listed.finish() {
        Ok(()) => Reading::Value(answer),
        Err(fault) => Reading::Unreadable(fault),
    };
}

// Reads the codes of a reply. If one of them isn't 0, it writes the reading that this makes into `reading`, and returns `true`.
// Otherwise it returns `false`, and `reading` stays as it was.
#[inline(always)]
pub(crate) fn read_codes(reply: &Reply<'_>, reading: &mut Reading) -> bool
    ensures found { IsTrue result → IsCodeReading (reply_seen reply.now) reading.new }
    ensures none { IsFalse result → (reply.now.rc_com ≡ 0) × (reply.now.rc ≡ 0) }
{
    if reply.rc_com != 0 {
        *reading = Reading::ComFault(reply.rc_com);
        true
    } else if reply.rc != 0 {
        *reading = Reading::Refused(reply.rc);
        true
    } else {
        false
    }
}

/// As [`decode_answer`], but the reading is written into `reading`.
pub fn decode_answer_into(call: &Call, reply: &Reply<'_>, reading: &mut Reading)
    ensures found { IsReading call.now (reply_seen reply.now) reading.new }
    ensures only { (other : Reading) → IsReading call.now (reply_seen reply.now) other → reading.new ≡ other }
{
    if read_codes(reply, reading) {
        return;
    }
    if !read_quickly(call, reply.params, reading) {
        read_any_spelling(call, reply.params, reading);
    }
}

/// Reads what a reply says in answer to a call. Parameters are read only where both codes are 0; their faults come in the
/// order that `decode_call` has for a request's.
pub fn decode_answer(call: &Call, reply: &Reply<'_>) -> Reading
    ensures found { IsReading call.now (reply_seen reply.now) result }
    ensures only { (reading : Reading) → IsReading call.now (reply_seen reply.now) reading → result ≡ reading }
{
    let mut reading = Reading::Refused(0);
    decode_answer_into(call, reply, &mut reading);
    reading
}
