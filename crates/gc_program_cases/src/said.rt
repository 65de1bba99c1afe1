//! What came of a run of the program, and what a case asks of it: its `status`, the `output` and the `messages`; of a far end
//! what was `heard` there, how often a connection was tried (`opened`), the milliseconds that `elapsed`, and the `files` that
//! were to be opened. A `status` of `any` takes each exit status, and an `output` of `any` whatever came. If a case has `has`,
//! its output isn't compared whole, and if it has `tells`, `begins`, `ends` or `counts`, its messages aren't. Of a far end only
//! what the case has is compared. A line of the messages with the counts of all judgements, in their order, is compared without those
//! that are 0.

use crate::far_end::Seen;
use crate::parts::{asks_for_parts, tell_parts};
use crate::room::Room;
use gc_probes::{Case, Told, text_of};
use gc_texts::JUDGEMENTS;
use std::alloc::Global;
use std::process::ExitCode;

/// What came of a run.
#[derive(Drop)]
pub struct Said {
    /// `None`: it couldn't be run, or ended with an error of the system.
    pub status: Option<ExitCode>,
    pub output: Room,
    pub messages: Vec<u8>,
}

// How the line ends that says at the start of a station what it waits for.
const WAITS: &str = ": waits until eight null procedures are answered, one after the other";

impl Said {
    /// Nothing came yet; there is room for `room` bytes of output.
    pub fn new(alloc: Global, room: u64) -> Said {
        Said {
            status: None,
            output: Room::new(alloc, room),
            messages: Vec::new(alloc),
        }
    }

    /// Reports where the status, the output or the messages came otherwise than the case has them, and each part that the case
    /// asks for and that the output, which counts as empty if it isn't UTF-8, or the messages lack. Without a far end the
    /// messages have `PORT` for the digits `port`.
    pub fn compare(&self, case: &Case<'_>, port: &str, wrong: &mut Told) {
        let mut told = Told::new(wrong.alloc);
        self.append_messages(case, port, &mut told);
        case.compare("status", self.status_text(case).as_bytes(), wrong);
        case.compare("output", self.compared_output(case), wrong);
        compare_messages(case, &told, wrong);
        let output = str::from_utf8(self.output.bytes.as_slice()).unwrap_or("");
        tell_parts(case, output, &told, wrong);
    }

    // The status in a digit, or `any` if the case takes any; or that there is none, which no case takes.
    fn status_text(&self, case: &Case<'_>) -> &'static str {
        match self.status {
            Some(_) if case.is("status", "any") => "any",
            Some(status) => status_digit(status),
            None => "none, for an error of the system",
        }
    }

    // What is compared with the case's `output`: the whole output, none of it if the case has `has`, and `any` if any will do.
    fn compared_output(&self, case: &Case<'_>) -> &[u8] {
        if case.is("output", "any") {
            return b"any";
        }
        if case.has("has") {
            b""
        } else {
            self.output.bytes.as_slice()
        }
    }

    // Appends the messages to `told`: of a case without a far end with `PORT` for the port; of one with a far end without the
    // lines that end in `WAITS`, or, if it has a terminal, as they are. Messages that aren't UTF-8 are `no text`.
    fn append_messages(&self, case: &Case<'_>, port: &str, told: &mut Told) {
        let mut shown = Told::new(told.alloc);
        append_counted(text_of(self.messages.as_slice()), &mut shown);
        if shown.is_lacking() {
            told.lack();
        }
        let messages = text_of(shown.as_bytes());
        if !case.has("far") {
            append_with_port(messages, port, told);
        } else if case.is("terminal", "yes") {
            told.text(messages);
        } else {
            append_without_waits(messages, told);
        }
    }
}

// Compares the messages, `told`, with the case's `messages`. A case that asks for parts of the messages must have no
// `messages`, and is reported if it has.
fn compare_messages(case: &Case<'_>, told: &Told, wrong: &mut Told) {
    if asks_for_parts(case) {
        case.compare("messages", b"", wrong);
    } else {
        case.compare_told("messages", told, wrong);
    }
}

// An exit status in a digit: `2` for each other than 0 and 1.
fn status_digit(status: ExitCode) -> &'static str {
    if status == ExitCode::SUCCESS {
        return "0";
    }
    if status == ExitCode::from(1) {
        return "1";
    }
    "2"
}

// Appends messages to `told`, their lines as `append_line` does.
fn append_counted(messages: &str, told: &mut Told) {
    let mut rest = messages;
    // There are no more lines than bytes.
    for _ in 0..messages.len() {
        let Some((line, behind)) = rest.split_once('\n') else {
            break;
        };
        append_line(line, told);
        told.text("\n");
        rest = behind;
    }
    append_line(rest, told);
}

// Appends a line to `told`; of one that has the counts of all judgements, in their order, without those that are 0.
fn append_line(line: &str, told: &mut Told) {
    let mut shown = Told::new(told.alloc);
    let mut rest = line;
    let mut are_all = true;
    for judgement in JUDGEMENTS {
        match cut_count(rest, text_of(judgement.word())) {
            Some((front, count, behind)) => {
                shown.text(front);
                append_count(text_of(judgement.word()), count, &mut shown);
                rest = behind;
            }
            None => are_all = false,
        }
    }
    if are_all && !shown.is_lacking() {
        told.text(text_of(shown.as_bytes()));
        told.text(rest);
    } else {
        told.text(line);
    }
}

// What a line has before this word and its count, the count, and what is behind it. `None`: it doesn't have the word between spaces.
fn cut_count<'a>(line: &'a str, word: &str) -> Option<(&'a str, &'a str, &'a str)> {
    let (front, behind) = line.split_once(word)?;
    let front = front.strip_suffix(' ')?;
    let (count, _) = behind
        .strip_prefix(' ')?
        .split_once(' ')
        .unwrap_or((behind.strip_prefix(' ')?, ""));
    let rest = behind.strip_prefix(' ')?.strip_prefix(count)?;
    Some((front, count, rest))
}

// Appends a word and its count to `told`, each after a space, unless it is 0.
fn append_count(word: &str, count: &str, told: &mut Told) {
    if count != "0" {
        told.text(" ");
        told.text(word);
        told.text(" ");
        told.text(count);
    }
}

// Appends messages to `told`, with `PORT` wherever they have the digits of the port. If memory runs out, `told` notes that it
// lacks a part.
fn append_with_port(messages: &str, port: &str, told: &mut Told) {
    match messages.replace(told.alloc, port, "PORT") {
        Ok(named) => told.text(named.as_str()),
        Err(_) => told.lack(),
    }
}

// Appends the lines of messages to `told`, each with a line feed, except those that end in `WAITS`.
fn append_without_waits(messages: &str, told: &mut Told) {
    for line in messages.lines() {
        if !line.ends_with(WAITS) {
            told.text(line);
            told.text("\n");
        }
    }
}

/// Reports each key of the case under which it has something else than what came at the far end. Keys that it doesn't have are
/// left out.
pub fn compare_seen(case: &Case<'_>, seen: &Seen, wrong: &mut Told) {
    compare_if_asked(case, "heard", &seen.heard, wrong);
    compare_number(case, "opened", u64::from(seen.tried), wrong);
    compare_number(case, "elapsed", seen.elapsed, wrong);
    compare_if_asked(case, "files", &seen.files, wrong);
}

// Compares what came with the case's value under this key, if it has one; `nothing` stands for no bytes.
fn compare_if_asked(case: &Case<'_>, key: &str, came: &Told, wrong: &mut Told) {
    if !case.has(key) {
        return;
    }
    if came.is("") {
        case.compare(key, b"nothing", wrong);
    } else {
        case.compare_told(key, came, wrong);
    }
}

// Compares a number with the case's value under this key, if it has one.
fn compare_number(case: &Case<'_>, key: &str, number: u64, wrong: &mut Told) {
    let mut digits = Told::new(wrong.alloc);
    digits.display(&number);
    compare_if_asked(case, key, &digits, wrong);
}
