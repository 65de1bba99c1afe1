//! What a terminal shows of settlements: no byte of a reply that moves the cursor, clears, colours or reorders what is shown.

ghost use Rattle.std.specs.Prelude.{◌≡◌, ◌+◌, ◌*◌, ◌<◌, ◌≤◌, ◌++◌, length, take, IfOk};
ghost use Rattle.std.specs.Io.KnownBytes.{Appends};
ghost use Rattle.arrayvec.specs.ArrayVec.{array_vec_len};
ghost use Rattle.gc_ask.specs.Showing.{shown, shown_byte, unless_shown};
ghost use Rattle.gc_lines.specs.Ports.{Fails};
ghost use Rattle.gc_texts.specs.declared.log_line.TheConstants.{ESCAPED_ROOM};

use arrayvec::ArrayVec;
use gc_lines::{PortFailed, Sink, append, write_whole};
use gc_texts::{ESCAPED_ROOM, append_escaped};

// The most bytes that are written at once: of each, four may be shown.
const PIECE: usize = ESCAPED_ROOM / 4;

/// An output that takes bytes as they are or, if a terminal shows it, as [`write_shown`] does. Of a terminal it isn't known which
/// bytes it has taken.
#[derive(Drop)]
pub struct Shown<K> {
    /// The output.
    pub output: K,
    /// Whether a terminal shows it.
    pub at_terminal: bool,
}

impl<K: Sink> Sink for Shown<K> {
    ghost taken = { λ s. unless_shown s.at_terminal (K.taken s.output) };

    ghost failed = { λ s. K.failed s.output };

    fn write(&mut self, bytes: &[u8]) -> Result<usize, PortFailed> {
        if self.at_terminal {
            return write_shown(&mut self.output, bytes);
        }
        self.output.write(bytes)
    }

    fn has_failed(&self) -> bool {
        self.output.has_failed()
    }
}

/// Writes the first bytes to an output as a terminal is to show them, and returns how many: a line feed as it is, and any other byte
/// as in a line of a log, printable ASCII except the backslash as it is and each other byte as `\x` and two digits of base 16.
///
/// It fails exactly where the output has failed afterwards; then the output may have taken a part of these bytes.
pub fn write_shown<K: Sink>(output: &mut K, bytes: &[u8]) -> Result<usize, PortFailed>
    requires { 0 < length bytes.now }
    ensures shown { IfOk result (λ n. (n ≤ length bytes.now) × (0 < n) × Appends (K.taken output.old) (K.taken output.new) (shown (take n bytes.now))) }
    ensures fails { Fails (K.failed output.old) (K.failed output.new) result }
{
    if output.has_failed() {
        return Err(PortFailed);
    }
    let n = bytes.len().min(PIECE);
    match write_whole(output, &text_shown(&bytes[..n])) {
        Ok(()) => Ok(n),
        Err(_) => Err(PortFailed),
    }
}

// These bytes as a terminal is to show them.
fn text_shown(bytes: &[u8]) -> ArrayVec<u8, ESCAPED_ROOM>
    requires { length bytes.now ≤ 514 }
    ensures { result.items ≡ shown bytes.now }
{
    let mut text = ArrayVec::new();
    append_shown(&mut text, bytes);
    text
}

// Appends bytes as a terminal is to show them.
fn append_shown(to: &mut ArrayVec<u8, ESCAPED_ROOM>, bytes: &[u8])
    requires { array_vec_len to.old + 4 * length bytes.now ≤ ESCAPED_ROOM }
    ensures { to.new.items ≡ to.old.items ++ shown bytes.now }
{
    for b in bytes {
        append_shown_byte(to, *b);
    }
}

// Appends a byte as a terminal is to show it.
fn append_shown_byte(to: &mut ArrayVec<u8, ESCAPED_ROOM>, b: u8)
    requires { array_vec_len to.old + 4 ≤ ESCAPED_ROOM }
    ensures text { to.new.items ≡ to.old.items ++ shown_byte b }
    ensures room { array_vec_len to.new ≤ array_vec_len to.old + 4 }
{
    if b == b'\n' {
        append(to, &[b]);
    } else {
        append_escaped(to, &[b]);
    }
}
