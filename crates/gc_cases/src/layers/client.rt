//! Rows of a client: what happens to the client, and what it gives. A case is played twice, once over each kind of window.

ghost use Rattle.gc_client.specs.Rule.{IsWidth};

use crate::layers::calls::call_of;
use arrayvec::ArrayVec;
use gc_catalogue::{Call, Reading};
use gc_client::{Client, Heard, Hearing, Outcome, Ring, Settlement, Slots, WINDOW, Window};
use gc_lines::{Line, LineFault};
use gc_probes::{Case, Row, Rows, Told, cut_word, play_rows};

// What plays these rows: a client; the call that it sends; and the line and the list of settlements into which all rows write.
#[derive(Drop)]
struct Clients<W: Window<Asked = Call>> {
    client: Client<W>,
    call: Call,
    line: Line,
    settled: ArrayVec<Settlement<Call>, WINDOW>,
}

/// Plays a case twice: with a client over a window in fixed places, and with one over a ring. Where the ring gets no memory,
/// `wrong` notes that it lacks a part.
pub fn play_clients(case: &Case<'_>, wrong: &mut Told) {
    play_over(case, Slots::new(), wrong);
    match Ring::new(wrong.alloc) {
        Ok(ring) => play_over(case, ring, wrong),
        Err(_) => wrong.lack(),
    }
}

// Plays a case with a client over this window.
fn play_over<W: Window<Asked = Call>>(case: &Case<'_>, window: W, wrong: &mut Told) {
    let mut clients = Clients {
        client: Client::with_width(window, width_of(case)),
        call: Call::NullProc,
        line: Line::new(),
        settled: ArrayVec::new(),
    };
    play_rows(case, &mut clients, wrong);
}

// How many requests may wait for their replies: two if the case says so, otherwise seven.
fn width_of(case: &Case<'_>) -> u8
    ensures { IsWidth result }
{
    if case.is("width", "2") { 2 } else { 7 }
}

impl<W: Window<Asked = Call>> Rows for Clients<W> {
    // Plays a row, and reports what it gives, how many requests wait, and the next id.
    fn play(&mut self, row: Row<'_>, came: &mut Told) {
        self.play_word(row, came);
        came.titled("; ", &self.client.waiting());
        came.titled(" wait, next ", &self.client.next_id());
    }
}

impl<W: Window<Asked = Call>> Clients<W> {
    // Does with the client what the row's word says, and reports what that gives: `call` or `hear` with a line, `send` with a
    // target and a deadline, `expire` with a moment, `restart`, `deadline` or `single_bytes`; or that the word is unknown.
    fn play_word(&mut self, row: Row<'_>, came: &mut Told) {
        match row.word {
            "call" => self.take_call(row.bytes, came),
            "send" => self.send(row.what, came),
            "hear" => self.hear(row.bytes, came),
            "expire" => self.expire(row.what, came),
            "restart" => tell_settled(self.client.restart().as_slice(), came),
            "deadline" => came.debug(&self.client.next_deadline()),
            "single_bytes" => self.hear_single_bytes(came),
            _ => came.text("an unknown word"),
        }
    }

    // Takes the call of this request's line as the one that is sent from now on. A line without a call is reported, and the call
    // that was taken before stays.
    fn take_call(&mut self, line: &[u8], came: &mut Told) {
        match call_of(line) {
            Some(call) => self.call = call,
            None => came.text("no call"),
        }
    }

    // Sends the call to the target of the first word, to be answered before the moment of the second one. Reports the line, or
    // that the send was refused.
    fn send(&mut self, words: &str, came: &mut Told) {
        let (target, deadline) = target_and_deadline(words, came);
        let line = &mut self.line;
        match self.client.send_into(target, &self.call, deadline, line) {
            Ok(()) => came.bytes(self.line.as_slice()),
            Err(full) => came.titled("refused: ", &full),
        }
    }

    // Hears a line into the list of settlements that all rows share, and reports that list and whether the line is a stray
    // or unread.
    fn hear(&mut self, line: &[u8], came: &mut Told) {
        match self.client.hear(line, &mut self.settled) {
            Hearing::Settled => {}
            Hearing::Stray => came.text("stray"),
            Hearing::Unread(fault) => came.titled("unread ", &fault.number()),
        }
        tell_settled(self.settled.as_slice(), came)
    }

    // Hears the 256 lines of one byte each, and reports how many of them changed nothing (`ignores`).
    fn hear_single_bytes(&mut self, came: &mut Told) {
        let mut ignored = 0u16;
        for byte in 0..=255 {
            if self.ignores(byte) {
                ignored = ignored.saturating_add(1);
            }
        }
        came.counted(&ignored, " unread 1");
    }

    // Hears a line of this byte alone, and returns whether it is unread, because it doesn't begin as a reply, and leaves how many
    // requests wait, the next id and the next deadline as they were.
    fn ignores(&mut self, byte: u8) -> bool {
        let (waiting, next) = (self.client.waiting(), self.client.next_id());
        let deadline = self.client.next_deadline();
        let mut line = Line::new();
        let _ = line.try_push(byte);
        matches!(
            self.client.on_line(&line),
            Heard::Unread(LineFault::Signature)
        ) && self.client.waiting() == waiting
            && self.client.next_id() == next
            && self.client.next_deadline() == deadline
    }

    // Hands the client the moment that `now` writes, and reports the targets of the requests that it times out.
    fn expire(&mut self, now: &str, came: &mut Told) {
        let now = came.number_in(now);
        for target in self.client.expire(now).as_slice() {
            came.counted(target, ", ");
        }
    }
}

/// The target and the deadline, a moment, that two words write, each as `Told::number_in` says.
pub fn target_and_deadline(words: &str, came: &mut Told) -> (u32, u64) {
    let (target, deadline) = cut_word(words);
    (came.number_in(target), came.number_in(deadline))
}

// Reports settlements: each with its target, and how its request ended.
fn tell_settled(settled: &[Settlement<Call>], came: &mut Told) {
    for settlement in settled {
        came.display(&settlement.target);
        tell_outcome(&settlement.outcome, came);
    }
}

// Reports how a request ended: late, lost, or answered, with the reading and the line of the answer.
fn tell_outcome(outcome: &Outcome, came: &mut Told) {
    match outcome {
        Outcome::Answered(reading, line) => tell_answer(reading, line, came),
        Outcome::Late => came.text(" late, "),
        Outcome::Lost => came.text(" lost, "),
    }
}

// Reports an answer by its reading and its line.
fn tell_answer(reading: &Reading, line: &Line, came: &mut Told) {
    came.text(" ");
    came.debug(reading);
    came.text(" ");
    came.bytes(line.as_slice());
    came.text(", ");
}
