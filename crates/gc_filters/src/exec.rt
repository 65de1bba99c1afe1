//! `exec`: the simulator, served over a source and a sink.

ghost use Rattle.gc_instrument.specs.State.{State, simulator_opening};
ghost use Rattle.gc_instrument.specs.Serving.{IsServing};
ghost use Rattle.gc_lines.specs.Answering.{ports_of};

use crate::answerer::Answerer;
use gc_instrument::{Instrument, ServeFault, Served};
use gc_lines::{Sink, Source};

/// Serves the requests of a source with [`Instrument::simulator`] until its end, in at most `max_reads` reads of at most
/// 256 bytes. The replies go into a sink, each with its CR LF. Bytes after the last line feed are discarded. It takes no memory.
///
/// It returns [`Served`] and fails exactly where `serve` does: with `Read`, `Write` or `TooManyReads`. Each says how many replies went
/// out whole, and `Write` also how many bytes of the next.
pub fn run_exec<S: Source, K: Sink>(
    source: &mut S,
    sink: &mut K,
    max_reads: u32,
) -> Result<Served, ServeFault>
    ensures { (after : State) × IsServing simulator_opening after
        (ports_of S.Source source.old K.Sink sink.old)
        (ports_of S.Source source.new K.Sink sink.new)
        max_reads result }
{
    Instrument::simulator().answer_all(source, sink, max_reads)
}
