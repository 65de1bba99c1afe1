//! Rows of lines: requests and replies read and written again, headers, and what an assembler makes of a piece.

use gc_lines::{
    Assembler, Lent, Line, LineFault, is_plain, push_reply, push_request, read_reply, read_request,
    write_reply, write_request,
};
use gc_probes::{Row, Rows, Told, cut_word};

/// What plays these rows: the assembler that the pieces of a case go through, one after the other.
#[derive(Drop)]
pub struct Lines {
    assembler: Assembler,
}

impl Lines {
    /// An assembler at the start of a line.
    pub fn new() -> Lines {
        Lines {
            assembler: Assembler::new(),
        }
    }
}

impl Rows for Lines {
    // Plays a row: `request` or `reply` with a line, `header` with numbers, `piece` with bytes, or `start`: is the assembler at
    // the start of a line?
    fn play(&mut self, row: Row<'_>, came: &mut Told) {
        match row.word {
            "request" => rewrite_request(row.bytes, came),
            "reply" => rewrite_reply(row.bytes, came),
            "header" => tell_header(row.what, came),
            "piece" => hand_in_piece(&mut self.assembler, row.bytes, came),
            "start" => came.display(&self.assembler.at_start()),
            _ => came.text("an unknown word"),
        }
    }
}

// Reports the line that was written, or the fault of writing it.
fn tell_written(written: Result<Line, LineFault>, came: &mut Told) {
    match written {
        Ok(line) => came.bytes(line.as_slice()),
        Err(fault) => came.titled("fault written ", &fault.number()),
    }
}

// Reports why a line that was read wasn't written again: the fault of reading it, or if there is none, that its parameters aren't
// plain.
fn tell_unwritten(fault: Option<LineFault>, came: &mut Told) {
    match fault {
        Some(fault) => came.titled("fault ", &fault.number()),
        None => came.text("not plain"),
    }
}

// Reads a request, and reports its line, written again, or why it wasn't.
fn rewrite_request(line: &[u8], came: &mut Told) {
    match read_request(line) {
        Ok(request) if is_plain(request.params) => tell_written(write_request(&request), came),
        read => tell_unwritten(read.err(), came),
    }
}

// Reads a reply, and reports its line, written again, or why it wasn't.
fn rewrite_reply(line: &[u8], came: &mut Told) {
    match read_reply(line) {
        Ok(reply) if is_plain(reply.params) => tell_written(write_reply(&reply), came),
        read => tell_unwritten(read.err(), came),
    }
}

// Reports a header: of a request if there is one word, the procedure number; of a reply if there are three, the communication
// code, the id and the return code. Reports that there is no header for other words.
fn tell_header(words: &str, came: &mut Told) {
    match header_of(words) {
        Some(line) => came.bytes(line.as_slice()),
        None => came.text("no header"),
    }
}

// The header that `tell_header` reports. `None`: there are neither one nor three words, a word is no number of 16 bits, or the id
// is above 7.
fn header_of(words: &str) -> Option<Line> {
    let (first, rest) = cut_word(words);
    let first = first.parse::<u16>().ok()?;
    let mut line = Line::new();
    if rest.is_empty() {
        push_request(&mut line, first, None);
        return Some(line);
    }
    let (id, code) = cut_word(rest);
    let id = id.parse::<u8>().ok()?;
    if id > 7 {
        return None;
    }
    push_reply(&mut line, first, id, code.parse::<u16>().ok()?);
    Some(line)
}

// Hands a piece to the assembler, and reports how many of its bytes the assembler used, and the frame that they gave, or `more`.
fn hand_in_piece(assembler: &mut Assembler, piece: &[u8], came: &mut Told) {
    let mut cut = Line::new();
    let (used, lent) = assembler.next(piece, &mut cut);
    came.counted(&used, " ");
    match lent {
        Lent::Line(line) => {
            came.text("line ");
            came.bytes(line)
        }
        Lent::Cleared => came.text("cleared"),
        Lent::Overlong => came.text("overlong"),
        Lent::More => came.text("more"),
    }
}
