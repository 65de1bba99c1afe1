//! The messages on what is odd about a line: it sends requests back, or changes the ends of lines.

use gc_logs::Oddities;
use std::io::{self, Write};

/// Writes a line for each thing that is odd about the line (`odd`) and wasn't told yet (`told`). `Err`: the messages couldn't be written.
pub(crate) fn tell_odd<E: Write>(
    told: Oddities,
    odd: Oddities,
    messages: &mut E,
) -> io::Result<()> {
    if odd.echoes && !told.echoes {
        writeln!(
            messages,
            "geocom: the line echoes what is sent: a modem or the other end has its echo on"
        )?;
    }
    if odd.bare && !told.bare {
        writeln!(
            messages,
            "geocom: the line changes CR to LF: set it to raw mode (stty raw)"
        )?;
    }
    if odd.lone && !told.lone {
        writeln!(
            messages,
            "geocom: replies end in CR alone: set the instrument's line end to CR LF"
        )?;
    }
    if odd.doubled && !told.doubled {
        writeln!(
            messages,
            "geocom: replies end in CR CR LF: something on the line puts a CR before each LF"
        )?;
    }
    Ok(())
}
