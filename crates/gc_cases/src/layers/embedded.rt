//! An instrument over any reader and writer: the example that `docs/SIMULATOR.md` names, and a row that plays it.

use gc_instrument::{Instrument, Served, Target, serve};
use gc_lines::{FromReader, ToWriter};
use gc_probes::Told;
use gc_values::{Decimal, Text};
use std::io::{Read, Write};

// Serves an instrument with one target over any reader and writer, until the end of the input. Returns how many replies were
// written; `None`: the instrument couldn't be made, or serving ended with a fault.
fn serve_bench<R: Read + Drop, W: Write + Drop>(input: R, output: W) -> Option<Served> {
    let name = Text::new(b"BENCH").ok()?;
    let prism = Target {
        hz: Decimal::literal(1, 0),
        v: Decimal::literal(15, 1),
        distance: Decimal::literal(5, 0),
    };
    let mut bench = Instrument::new(42, name, &[prism]).ok()?;
    let mut source = FromReader::new(input);
    let mut sink = ToWriter::new(output);
    serve(&mut bench, &mut source, &mut sink, u32::MAX).ok()
}

/// Serves the requests in `input`, and reports what `serve_bench` returned, and the output.
pub fn tell_embedded(input: &[u8], came: &mut Told) {
    let mut output = Vec::new(came.alloc);
    came.debug(&serve_bench(input, &mut output));
    came.bytes(output.as_slice());
}
