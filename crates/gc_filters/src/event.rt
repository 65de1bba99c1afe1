//! The reading of one line of a schedule. The words of a schedule's events are known here alone.

ghost use Rattle.std.specs.Prelude.{IsTrue, IsFalse};
ghost use Rattle.gc_texts.specs.LineForms.{IsReadAs};
ghost use Rattle.gc_filters.specs.Schedule.{IsNumbered, IsEvent, IsSend, IsRequested, Requested, SendsRequested, IsNumberedEvent};
ghost use Rattle.gc_world.specs.declared.event.Event.{Event};

use gc_catalogue::Call;
use gc_texts::{
    LineForm, after_prefix, cut_at, is_word, number_of, read_procedure_into, target_of,
};
use gc_world::Event;

// The greatest count of bytes and place of a line in flight that a schedule may name: the greatest number of 32 bits.
const COUNT_MAX: u64 = 4294967295;

// The number after `word` in a line, where `word` has the space before the number at its end. `None`: the line isn't `word` and then a
// number of at most `max`.
fn number_behind(word: &[u8], line: &[u8], max: u64) -> Option<u64>
    ensures { IsReadAs (λ n. IsNumbered word.now line.now n max) result }
{
    let digits = after_prefix(word, line)?;
    number_of(digits, max)
}

// Reads `T D RPC` or `T D RPC PARAMS` as the send of that call to the target T with the deadline D, into `event`. Returns whether
// the text has this form, T is a number of 32 bits and D one of 64, a procedure of the table has the number RPC, and the
// parameters read as its own. If not, `event` may have been overwritten all the same. As an event has 176 bytes, the call isn't
// returned and moved: `event` is made a send of some call first, and then the call is read into its place there.
fn read_requested(text: &[u8], event: &mut Event) -> bool
    ensures found { IsTrue result → SendsRequested text.now event.new }
    ensures none { IsFalse result → (q : Requested) → IsRequested text.now q → ⊥ }
{
    let (target, rest) = cut_at(b' ', text);
    let Some(rest) = rest else { return false };
    let (deadline, procedure) = cut_at(b' ', rest);
    let Some(procedure) = procedure else {
        return false
    };
    let Some(target) = target_of(target) else {
        return false
    };
    let Some(deadline) = number_of(deadline, u64::MAX) else {
        return false
    };
    *event = Event::Send(target, Call::NullProc, deadline);
    // `event` is a send now: this always matches, and `call` is the place of its call.
    let Event::Send(_, call, _) = event else {
        return false
    };
    read_procedure_into(procedure, call)
}

// Reads `send T D RPC` or `send T D RPC PARAMS` into `event`, and returns whether the line is `send `, and then what
// `read_requested` reads. If it isn't, `event` may have been overwritten all the same.
fn read_send(line: &[u8], event: &mut Event) -> bool
    ensures found { IsTrue result → IsEvent line.now event.new }
    ensures none { IsFalse result → (q : Requested) → IsSend line.now q → ⊥ }
{
    match after_prefix(b"send ", line) {
        Some(rest) => read_requested(rest, event),
        None => false,
    }
}

// Reads a line that is words and a number, as `up bytes 12`, into `event`, and returns whether the line is such an event. If it isn't,
// `event` is unchanged.
fn read_numbered(line: &[u8], event: &mut Event) -> bool
    ensures found { IsTrue result → IsEvent line.now event.new }
    ensures none { IsFalse result → (other : Event) → IsNumberedEvent other → IsEvent line.now other → ⊥ }
{
    if let Some(bytes) = number_behind(b"up bytes ", line, COUNT_MAX) {
        *event = Event::UpBytes(bytes as usize);
        return true;
    }
    if let Some(place) = number_behind(b"up lose ", line, COUNT_MAX) {
        *event = Event::UpLose(place as usize);
        return true;
    }
    if let Some(place) = number_behind(b"up repeat ", line, COUNT_MAX) {
        *event = Event::UpRepeat(place as usize);
        return true;
    }
    if let Some(bytes) = number_behind(b"down bytes ", line, COUNT_MAX) {
        *event = Event::DownBytes(bytes as usize);
        return true;
    }
    if let Some(place) = number_behind(b"down lose ", line, COUNT_MAX) {
        *event = Event::DownLose(place as usize);
        return true;
    }
    if let Some(place) = number_behind(b"down repeat ", line, COUNT_MAX) {
        *event = Event::DownRepeat(place as usize);
        return true;
    }
    if let Some(moment) = number_behind(b"expire ", line, u64::MAX) {
        *event = Event::Expire(moment);
        return true;
    }
    false
}

/// The form of a schedule's lines: each is an event.
pub(crate) struct EventForm;

impl LineForm for EventForm {
    type Item = Event;

    ghost form = { IsEvent };

    fn blank() -> Event {
        Event::UpDeliver
    }

    // An event has 176 bytes, so it is written into `event`, and not returned and moved.
    fn read(line: &[u8], event: &mut Event) -> bool {
        if read_send(line, event) {
            return true;
        }
        if is_word(b"up deliver", line) {
            *event = Event::UpDeliver;
            return true;
        }
        if is_word(b"down deliver", line) {
            *event = Event::DownDeliver;
            return true;
        }
        if is_word(b"restart client", line) {
            *event = Event::RestartClient;
            return true;
        }
        if is_word(b"restart instrument", line) {
            *event = Event::RestartInstrument;
            return true;
        }
        read_numbered(line, event)
    }
}
