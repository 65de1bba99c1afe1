//! The words of steps. Milliseconds come after `@`, and are 5 if none do. `dead` and the words after it in this list have none.
//!
//!     BEGUN              the synchronization is answered: the replies of its eight null procedures come, the last of them after
//!                        15 milliseconds, and then at once that of the client's first null procedure
//!     QUIET              nothing comes for 10 milliseconds, the quiet time of `Setting::new`
//!     TIMED_OUT          nothing comes for 100 milliseconds, the deadline of `Setting::new`
//!     #3@30              the reply of a null procedure with this id comes
//!     <%R1P,0,1:\r@99    these bytes come
//!     <<%R1P,0,1:0\r\n   these bytes come in two pieces, cut where `split` says, each after the milliseconds
//!     silence@70         nothing comes for 70 milliseconds
//!     reply@1            the reply to the request that was sent last comes; its value is the last digit of that request's number
//!                        among all of them, counted from 0 modulo 256
//!     back@500           the clock goes back by 500 milliseconds
//!     dead, noise        nothing comes any more, or lines that are no replies, until the connection is closed
//!     answers            from now on the request that was sent last is answered, if it isn't yet
//!     end, failure, no_moment   the other end closes, the read fails, or the clock can't be read after the read

use crate::station::script::Step;
use gc_texts::number_of;

// The words of the steps that a name in capitals stands for. Any other word stands for itself.
fn meaning_of(word: &str) -> &str {
    match word {
        "BEGUN" => "#6@0 #5@0 #4@0 #3@0 #2@0 #1@0 #0@0 #7@15 #0@0",
        "QUIET" => "silence@10",
        "TIMED_OUT" => "silence@100",
        _ => word,
    }
}

/// Adds the steps of words, and returns whether each is known, and each step has room. `split`: after how many bytes a line of a
/// word `<<` is cut in two.
pub fn push_words<'a>(steps: &mut Vec<Step<'a>>, words: &'a str, split: u64) -> bool {
    let mut are_known = true;
    for name in words.split(' ') {
        for word in meaning_of(name).split(' ') {
            are_known &= word.is_empty() || push_word(steps, word, split);
        }
    }
    are_known
}

// Adds the step of a word, or the two of a cut line, and returns whether the word is known and there was room.
fn push_word<'a>(steps: &mut Vec<Step<'a>>, word: &'a str, split: u64) -> bool {
    if let Some(step) = untimed_step(word) {
        return push(steps, step);
    }
    let (what, digits) = word.split_once('@').unwrap_or((word, "5"));
    let Some(millis) = number(digits) else {
        return false;
    };
    if let Some(line) = what.strip_prefix("<<") {
        let (front, back) = split_line(line.as_bytes(), split);
        return push(steps, Step::Line(front, millis)) && push(steps, Step::Line(back, millis));
    }
    match timed_step(what, millis) {
        Some(step) => push(steps, step),
        None => false,
    }
}

// Adds a step, and returns whether there was room for it.
fn push<'a>(steps: &mut Vec<Step<'a>>, step: Step<'a>) -> bool {
    steps.push(step).is_ok()
}

// A line, cut in two after `split` bytes; the second part is empty where the line is no longer than that.
fn split_line(line: &[u8], split: u64) -> (&[u8], &[u8]) {
    let at = usize::try_from(split).unwrap_or(usize::MAX).min(line.len());
    line.split_at(at)
}

// The step of a word that has no milliseconds. `None`: the word is none of these.
fn untimed_step<'a>(word: &str) -> Option<Step<'a>> {
    match word {
        "dead" => Some(Step::Dead),
        "noise" => Some(Step::Noise),
        "answers" => Some(Step::Answers),
        "end" => Some(Step::End),
        "failure" => Some(Step::Failure),
        "no_moment" => Some(Step::NoMoment),
        _ => None,
    }
}

// The step that `what` names, the part of a word before `@`, with the milliseconds after it. `None`: no step with milliseconds
// has that name, or an id after `#` isn't one byte.
fn timed_step<'a>(what: &'a str, millis: u64) -> Option<Step<'a>> {
    if let Some(line) = what.strip_prefix('<') {
        return Some(Step::Line(line.as_bytes(), millis));
    }
    if let [b'#', id] = what.as_bytes() {
        return Some(Step::Id(*id, millis));
    }
    match what {
        "silence" => Some(Step::Silence(millis)),
        "reply" => Some(Step::Reply(millis)),
        "back" => Some(Step::Back(millis)),
        _ => None,
    }
}

/// The number that decimal digits write. `None`: another byte is among them, there is none, or the number is above `u64::MAX`.
pub fn number(digits: &str) -> Option<u64> {
    number_of(digits.as_bytes(), u64::MAX)
}
