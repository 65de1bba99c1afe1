//! Rows of calls and answers on the line.

use gc_catalogue::{
    Answer, Call, CallFault, Reading, decode_answer, decode_call, encode_answer, encode_call,
};
use gc_lines::{read_reply, read_request};
use gc_probes::{Row, Rows, Told, cut_word};

/// What plays these rows. Nothing is kept from row to row.
#[derive(Drop)]
pub struct Calls;

impl Rows for Calls {
    // Plays a row: `call` with a request's line, or `reading` or `answer` with the lines of a request and a reply.
    fn play(&mut self, row: Row<'_>, came: &mut Told) {
        match row.word {
            "call" => rewrite_call(row.bytes, came),
            "reading" => tell_reading(row.what, came),
            "answer" => rewrite_answer(row.what, came),
            _ => came.text("an unknown word"),
        }
    }
}

/// The call of a request's line. `None`: the line is no request, or its call is refused.
pub fn call_of(line: &[u8]) -> Option<Call> {
    let request = read_request(line).ok()?;
    decode_call(&request).ok()
}

// Reports a fault by its number and its name.
fn tell_fault(fault: CallFault, came: &mut Told) {
    came.titled("fault ", &fault.number());
    came.text(" ");
    came.debug(&fault);
}

// Reports the call that a request's line asks for, and after it that call's line, written again; or why there is no call.
fn rewrite_call(line: &[u8], came: &mut Told) {
    let Ok(request) = read_request(line) else {
        return came.text("no request");
    };
    match decode_call(&request) {
        Ok(call) => {
            came.debug(&call);
            came.text(" ");
            came.bytes(encode_call(request.id, &call).as_slice())
        }
        Err(fault) => tell_fault(fault, came),
    }
}

// The reading of a reply, the second word, for the call of a request, the first one. `None`: the first word is no request
// of a call, or the second one is no reply.
fn reading_of(words: &str) -> Option<Reading> {
    let (request, reply) = cut_word(words);
    let call = call_of(request.as_bytes())?;
    let reply = read_reply(reply.as_bytes()).ok()?;
    Some(decode_answer(&call, &reply))
}

// Reports the reading of a reply, the second word, for the call of a request, the first one; or that there is none
// (`reading_of`).
fn tell_reading(words: &str, came: &mut Told) {
    match reading_of(words) {
        Some(reading) => came.debug(&reading),
        None => came.text("no request and reply"),
    }
}

// Reads a reply, the second word, for the call of a request, the first one (`reading_of`), and reports the reply line that
// an instrument would write with what was read, for id 4 at precision 3. A reading that is neither a value nor a refusal has
// none, and neither have words without a reading: `no answer` is reported.
fn rewrite_answer(words: &str, came: &mut Told) {
    match reading_of(words) {
        Some(Reading::Value(answer)) => { came.bytes(encode_answer(4, 0, &answer, 3).as_slice()) }
        Some(Reading::Refused(code)) => came.bytes(encode_answer(
            4,
            code,
            &Answer::Nothing,
            3,
        ).as_slice()),
        _ => came.text("no answer"),
    }
}
