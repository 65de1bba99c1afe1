//! Bytes are written whole: in as many writes as the sink needs, until it has all of them or has failed.

ghost use Rattle.gc_lines.specs.Lines.{with_end};
ghost use Rattle.gc_lines.specs.Ports.{FailsWith, TakesText};

use crate::line::{Line, with_end};
use crate::ports::Sink;

/// Writes all of the bytes. `Err(n)`: the sink took only the first n of them, and failed. Without bytes it succeeds and doesn't
/// call the sink, also where the sink has failed before.
pub fn write_whole<K: Sink>(sink: &mut K, bytes: &[u8]) -> Result<(), usize>
    ensures failed { FailsWith result (K.failed sink.old) (K.failed sink.new) }
    ensures took { TakesText (K.taken sink.old) (K.taken sink.new) result bytes.now }
{
    let mut at = 0;
    while at < bytes.len() {
        match sink.write(&bytes[at..]) {
            Ok(n) => at += n,
            Err(_) => return Err(at),
        }
    }
    Ok(())
}

/// Writes a line and then CR LF, in a single write where the sink takes all of it at once. `Err(n)`: the sink took only the first n
/// bytes of the line and its CR LF, and failed.
pub fn write_line<K: Sink>(sink: &mut K, line: &Line) -> Result<(), usize>
    ensures failed { FailsWith result (K.failed sink.old) (K.failed sink.new) }
    ensures took { TakesText (K.taken sink.old) (K.taken sink.new) result (with_end line.now.items) }
{
    write_whole(sink, &with_end(line))
}
