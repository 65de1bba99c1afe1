//! The parts of the output and of the messages that a case asks for. What isn't as the case has it is reported, with the
//! messages.
//!
//!     has TEXT         the output has this text
//!     tells TEXT       the messages have this text
//!     counts 2 TEXT    the messages have this text as often as the number says
//!     begins TEXT      the messages begin with this text
//!     ends TEXT        the messages end with this text
//!     length 4096      the messages, as they are compared, have this many bytes
//!
//! A case has at most sixteen lines of each of the first three, and one of each other.

use gc_probes::{Case, Told, bytes_of, text_of};
use std::alloc::AllocError;

// The most texts that a case has under one key. Further ones aren't looked for.
const MOST_PARTS: usize = 16;

/// Reports each part that a case asks for and that the output or the messages, `told`, lack, and after these parts the messages:
/// in one line under `wrong`, a key that no case has. Such a line comes also if memory ran out for a part or for the messages.
/// Messages that aren't UTF-8 count as `no text`.
pub fn tell_parts(case: &Case<'_>, output: &str, told: &Told, wrong: &mut Told) {
    let mut missing = Missing {
        case: *case,
        parts: Told::new(wrong.alloc),
    };
    missing.add_all(output, text_of(told.as_bytes()));
    if told.is_lacking() {
        missing.parts.lack();
    }
    case.compare_told("wrong", &missing.parts, wrong);
}

/// Whether a case asks for parts of the messages, by texts in them. The number of their bytes (`length`) is no such part.
pub fn asks_for_parts(case: &Case<'_>) -> bool {
    ["tells", "counts", "begins", "ends"]
        .iter()
        .any(|key| case.has(key))
}

// The parts that a case asks for and that aren't in what came, as far as they were looked for.
#[derive(Drop)]
struct Missing<'a> {
    case: Case<'a>,
    parts: Told,
}

impl<'a> Missing<'a> {
    // Adds each part that the case asks for and that the output or the messages lack, and, if there is any, the messages after
    // them.
    fn add_all(&mut self, output: &str, messages: &str) {
        self.add_texts("has", output);
        self.add_texts("tells", messages);
        self.add_texts("counts", messages);
        self.add_ends(messages.as_bytes());
        self.add_length(messages.len() as u64);
        if !self.parts.is("") {
            self.parts.text(messages);
        }
    }

    // Adds each value under `key` whose text doesn't occur in what came, or under `counts` not as often as the value says. If
    // memory runs out for one, `parts` notes that it lacks a part.
    fn add_texts(&mut self, key: &str, came: &str) {
        for place in 0..MOST_PARTS {
            let Some(value) = self.case.value_at(key, place) else {
                break;
            };
            match self.is_met(key, value, came) {
                Ok(true) => {}
                Ok(false) => self.add_part(key, value),
                Err(_) => self.parts.lack(),
            }
        }
    }

    // Whether the text in `value` occurs in what came: under the key `counts` as often as the value says, and under any other at
    // least once. `Err`: memory ran out.
    fn is_met(&self, key: &str, value: &str, came: &str) -> Result<bool, AllocError> {
        if key == "counts" {
            return self.is_counted(value, came);
        }
        Ok(self.count_of(value, came)? > 0)
    }

    // Adds a part that is lacking: its key, and its value.
    fn add_part(&mut self, key: &str, value: &str) {
        self.parts.text(key);
        self.parts.text(" ");
        self.parts.text(value);
        self.parts.text(" ");
    }

    // Whether the text in `value`, after its first word, occurs in the messages as often as that word says; `false` if that word
    // is no number, or no space follows it. `Err`: memory ran out.
    fn is_counted(&self, value: &str, messages: &str) -> Result<bool, AllocError> {
        let (count, text) = value.split_once(' ').unwrap_or(("", value));
        let found = self.count_of(text, messages)?;
        Ok(count.parse::<usize>().ok() == Some(found))
    }

    // How often the text that a value spells occurs in what came. `Err`: memory ran out.
    fn count_of(&self, value: &str, came: &str) -> Result<usize, AllocError> {
        let bytes = bytes_of(self.parts.alloc, value)?;
        Ok(count_in(bytes.as_slice(), came))
    }

    // Adds `begins` if the messages begin otherwise than the case says, and `ends` if they end otherwise. If memory runs out for
    // one of these texts, `parts` notes that it lacks a part, and neither is added.
    fn add_ends(&mut self, messages: &[u8]) {
        let Ok(begin) = bytes_of(self.parts.alloc, self.case.value("begins")) else {
            return self.parts.lack();
        };
        let Ok(end) = bytes_of(self.parts.alloc, self.case.value("ends")) else {
            return self.parts.lack();
        };
        self.parts
            .text_if(!messages.starts_with(begin.as_slice()), "begins ");
        self.parts
            .text_if(!messages.ends_with(end.as_slice()), "ends ");
    }

    // Adds `length` if the messages have another number of bytes (`length`) than the case says, if it says one.
    fn add_length(&mut self, length: u64) {
        if self.case.has("length") && self.case.number("length", u64::MAX) != length {
            self.parts.text("length ");
        }
    }
}

// How often the text of these bytes occurs in what came, without overlaps; 0 if they are no text.
fn count_in(bytes: &[u8], came: &str) -> usize {
    match str::from_utf8(bytes) {
        Ok(text) => came.matches(text).count(),
        Err(_) => 0,
    }
}
