//! Blanks (spaces and tabs) at the end of a line of a text: they can't be seen, and are part of what comes before them, such as a
//! name.

use std::io::{self, Write};

/// Writes a line for each line of a text that ends with a blank, with its number, counted from 1; the message calls a tab a space, too.
/// CRs after the blank don't count. `Err`: a message couldn't be written; those after that one aren't.
pub fn report_blanks<E: Write>(text: &[u8], messages: &mut E) -> io::Result<()> {
    for (at, line) in text.split(|byte| *byte == b'\n').enumerate() {
        if ends_with_a_blank(line) {
            let number = at + 1;
            writeln!(messages, "geocom: line {number} ends with a space")?;
        }
    }
    Ok(())
}

// Whether the last byte of a line that is no CR is a space or a tab.
fn ends_with_a_blank(line: &[u8]) -> bool {
    let last = line.iter().rev().find(|byte| **byte != b'\r');
    last.is_some_and(|byte| *byte == b' ' || *byte == b'\t')
}
