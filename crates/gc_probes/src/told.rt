//! A text of what came of a case, whose calls return no error where memory runs out.

use crate::escapes::spells;
use std::alloc::Global;
use std::fmt;
use std::io::{self, Write};
use std::str::FromStr;

/// A text to which what came is appended. Its calls return no error, so that a player has none to pass on: where memory runs
/// out, the text notes that it lacks a part, and from then on it is what no case expects.
#[derive(Drop)]
pub struct Told {
    /// Where the text takes memory.
    pub alloc: Global,
    bytes: Vec<u8>,
    // Whether memory ran out for a part of the text.
    lacks: bool,
}

impl Told {
    /// An empty text.
    pub fn new(alloc: Global) -> Told {
        Told {
            alloc,
            bytes: Vec::new(alloc),
            lacks: false,
        }
    }

    /// The bytes of the text.
    pub fn as_bytes(&self) -> &[u8] {
        self.bytes.as_slice()
    }

    /// Whether memory ran out for a part of the text, even if the text was emptied since (`clear`).
    pub fn is_lacking(&self) -> bool {
        self.lacks
    }

    /// Whether the text lacks no part, and this value of a case stands for it.
    pub fn is(&self, value: &str) -> bool {
        !self.lacks && spells(value, self.as_bytes())
    }

    /// Empties the text. One that lacks a part goes on to count as lacking.
    pub fn clear(&mut self) {
        self.bytes.clear();
    }

    /// Notes that memory ran out for a part of the text.
    pub fn lack(&mut self) {
        self.lacks = true;
    }

    /// Appends a text.
    pub fn text(&mut self, text: &str) {
        self.bytes(text.as_bytes());
    }

    /// Appends bytes.
    pub fn bytes(&mut self, bytes: &[u8]) {
        let is_lacking = self.bytes.extend_from_slice(bytes).is_err();
        self.lacks |= is_lacking;
    }

    /// Appends the text `other`. Where `other` lacks a part, this text lacks one, too.
    pub fn append(&mut self, other: &Told) {
        self.bytes(other.as_bytes());
        self.lacks |= other.lacks;
    }

    /// Appends the text `so` where `is_so` is true, and else the text `otherwise`.
    pub fn either(&mut self, is_so: bool, so: &str, otherwise: &str) {
        self.text(if is_so { so } else { otherwise });
    }

    /// Appends a text where `is_so` is true.
    pub fn text_if(&mut self, is_so: bool, text: &str) {
        self.either(is_so, text, "");
    }

    /// Appends a value as `Display` prints it.
    pub fn display<T: fmt::Display>(&mut self, value: &T) {
        let is_lacking = write!(self.bytes, "{value}").is_err();
        self.lacks |= is_lacking;
    }

    /// Appends a value as `Debug` prints it.
    pub fn debug<T: fmt::Debug>(&mut self, value: &T) {
        let is_lacking = write!(self.bytes, "{value:?}").is_err();
        self.lacks |= is_lacking;
    }

    /// Appends a title, and then a value as `Display` prints it.
    pub fn titled<T: fmt::Display>(&mut self, title: &str, value: &T) {
        self.text(title);
        self.display(value);
    }

    /// Appends a value as `Display` prints it, usually a number, and then a text: what the number counts, or what separates it
    /// from what comes next.
    pub fn counted<T: fmt::Display>(&mut self, value: &T, what: &str) {
        self.display(value);
        self.text(what);
    }

    /// The number that a word writes. If it writes none of this type, `no number, ` is appended, and the number is 0.
    pub fn number_in<T: FromStr + Default + Drop>(&mut self, word: &str) -> T
    where
        T::Err: Drop,
    {
        match word.parse::<T>() {
            Ok(number) => number,
            Err(_) => {
                self.text("no number, ");
                T::default()
            }
        }
    }

    /// Appends bytes as a value of a case spells them.
    pub fn escaped(&mut self, bytes: &[u8]) {
        for byte in bytes {
            self.escape(*byte);
        }
    }

    // Appends a byte as a value of a case spells it.
    fn escape(&mut self, byte: u8) {
        match byte {
            b'\n' => self.text("\\n"),
            b'\r' => self.text("\\r"),
            b'\t' => self.text("\\t"),
            b'\\' => self.text("\\\\"),
            b' '..=b'~' => self.bytes(&[byte]),
            _ => self.escape_in_hex(byte),
        }
    }

    // Appends a byte as `\x` and two hexadecimal digits.
    fn escape_in_hex(&mut self, byte: u8) {
        let is_lacking = write!(self.bytes, "\\x{byte:02x}").is_err();
        self.lacks |= is_lacking;
    }
}

impl Write for Told {
    // Appends the bytes. It never fails: where memory runs out, the text lacks a part.
    fn write(&mut self, buf: &[u8]) -> io::Result<usize> {
        self.bytes(buf);
        Ok(buf.len())
    }

    fn flush(&mut self) -> io::Result<()> {
        Ok(())
    }
}

/// Bytes as a text; `no text` if they aren't UTF-8.
pub fn text_of(bytes: &[u8]) -> &str {
    str::from_utf8(bytes).unwrap_or("no text")
}
