//! A loop: commands are asked over a link at whose other end this program answers them itself, in one thread.

ghost use Rattle.std.specs.Prelude.{false};
ghost use Rattle.gc_lines.specs.Answering.{ports_of};
ghost use Rattle.gc_ask.specs.Looping.{AsksAtBoth, LoopRuns, seen_of, seen_over};
ghost use Rattle.gc_texts.specs.WholeTexts.{input_of};

use crate::ask::ask_all;
use crate::instrument_end::InstrumentEnd;
use crate::link::{AskedLink, send_line};
use crate::unused::Unused;
use gc_instrument::Instrument;
use gc_lines::{Answers, Line, Sink, Source};
use gc_texts::{Command, RunFault, read_command_text};
use std::alloc::Global;

/// Reads the whole command text of a source, and asks its commands over a link with a simulator at its other end, in at most
/// `max_reads` reads of both ends together.
///
/// After each request the instrument's end is read until one line was answered, and that reply is written; then the client's
/// end is read until the request is settled. The faults come as `run_ask` says, of either end: `Write` counts requests where
/// the client's end can't be written and replies where the instrument's can't, and `LinkClosed` is the end of either input.
pub fn run_loop<S: Source, A: Source, B: Sink, C: Source, D: Sink, K: Sink>(
    alloc: Global,
    commands: &mut S,
    client_in: &mut A,
    client_out: &mut B,
    instrument_in: &mut C,
    instrument_out: &mut D,
    sink: &mut K,
    max_reads: u32,
) -> Result<(), RunFault>
    // Which text was read, and how its commands were asked: what the client's end took and gave, what the sink took, and which
    // ports have failed. At most `max_reads` reads of both ends were answered, and exactly as many where `TooManyReads` is the
    // fault. Where memory was refused, nothing was read of the link, sent or written.
    ensures loops { LoopRuns (input_of S.Source commands.old) (input_of S.Source commands.new) max_reads
        (seen_of A.Source client_in.old B.Sink client_out.old C.Source instrument_in.old D.Sink instrument_out.old K.Sink sink.old)
        (seen_of A.Source client_in.new B.Sink client_out.new C.Source instrument_in.new D.Sink instrument_out.new K.Sink sink.new)
        result }
{
    run_looped(
        alloc,
        Instrument::simulator(),
        commands,
        client_in,
        client_out,
        instrument_in,
        instrument_out,
        sink,
        max_reads,
    )
}

/// Both directions of one end of a link.
#[derive(Drop)]
pub struct Duplex<I, O> {
    /// What is read of it.
    pub source: I,
    /// What is written to it.
    pub sink: O,
}

/// Asks the commands of a source as `run_loop` does, with any instrument in place of the simulator, also that of a scene with
/// rules. The faults and the clause are the same.
pub fn run_loop_on<S: Source, A: Source, B: Sink, C: Source, D: Sink, K: Sink, T: Answers + Drop>(
    alloc: Global,
    instrument: T,
    commands: &mut S,
    client: &mut Duplex<A, B>,
    instrument_end: &mut Duplex<C, D>,
    sink: &mut K,
    max_reads: u32,
) -> Result<(), RunFault>
    ensures loops { LoopRuns (input_of S.Source commands.old) (input_of S.Source commands.new) max_reads
        (seen_over A.Source B.Sink client.old C.Source D.Sink instrument_end.old K.Sink sink.old)
        (seen_over A.Source B.Sink client.new C.Source D.Sink instrument_end.new K.Sink sink.new)
        result }
{
    run_looped(
        alloc,
        instrument,
        commands,
        &mut client.source,
        &mut client.sink,
        &mut instrument_end.source,
        &mut instrument_end.sink,
        sink,
        max_reads,
    )
}

// Reads the whole command text of a source, and asks its commands over a link with this instrument at its other end. The faults and the
// clause are those of `run_loop`.
fn run_looped<S: Source, A: Source, B: Sink, C: Source, D: Sink, K: Sink, T: Answers + Drop>(
    alloc: Global,
    instrument: T,
    commands: &mut S,
    client_in: &mut A,
    client_out: &mut B,
    instrument_in: &mut C,
    instrument_out: &mut D,
    sink: &mut K,
    max_reads: u32,
) -> Result<(), RunFault>
    ensures loops { LoopRuns (input_of S.Source commands.old) (input_of S.Source commands.new) max_reads
        (seen_of A.Source client_in.old B.Sink client_out.old C.Source instrument_in.old D.Sink instrument_out.old K.Sink sink.old)
        (seen_of A.Source client_in.new B.Sink client_out.new C.Source instrument_in.new D.Sink instrument_out.new K.Sink sink.new)
        result }
{
    let commands = read_command_text(alloc, commands)?;
    ask_looped(
        commands.as_slice(),
        instrument,
        client_in,
        client_out,
        instrument_in,
        instrument_out,
        sink,
        max_reads,
    )
}

/// Asks commands over a link with this instrument at its other end, in at most `max_reads` reads of both ends together. The faults are
/// those of `ask_all`. `run_loop` asks so over any link, and `loop_tcp` over a connection.
pub(crate) fn ask_looped<A: Source, B: Sink, C: Source, D: Sink, K: Sink, T: Answers + Drop>(
    commands: &[Command],
    instrument: T,
    client_in: &mut A,
    client_out: &mut B,
    instrument_in: &mut C,
    instrument_out: &mut D,
    sink: &mut K,
    max_reads: u32,
) -> Result<(), RunFault>
    ensures asks { AsksAtBoth false commands.now max_reads
        (seen_of A.Source client_in.old B.Sink client_out.old C.Source instrument_in.old D.Sink instrument_out.old K.Sink sink.old)
        (seen_of A.Source client_in.new B.Sink client_out.new C.Source instrument_in.new D.Sink instrument_out.new K.Sink sink.new)
        result }
{
    let mut answering = InstrumentEnd::new(instrument);
    let mut link = Loop {
        client_in,
        client_out,
        instrument: &mut answering,
        instrument_in,
        instrument_out,
    };
    ask_all(commands, &mut link, sink, max_reads)
}

// A link with an instrument at its other end, which answers each request once it is sent.
#[derive(Drop)]
struct Loop<'a, 'b, 'c, 'd, 'e, A, B, C, D, T> {
    client_in: &'a mut A,
    client_out: &'b mut B,
    instrument: &'e mut InstrumentEnd<T>,
    instrument_in: &'c mut C,
    instrument_out: &'d mut D,
}

impl<'a, 'b, 'c, 'd, 'e, A: Source, B: Sink, C: Source, D: Sink, T: Answers> AskedLink
    for Loop<'a, 'b, 'c, 'd, 'e, A, B, C, D, T> {
    ghost use Rattle.std.specs.Prelude.{false};

    ghost is_remote = { false };

    ghost client = { λ l. ports_of A.Source l.client_in.now B.Sink l.client_out.now };

    ghost instrument = { λ l. ports_of C.Source l.instrument_in.now D.Sink l.instrument_out.now };

    ghost held = { λ l. record {
      client_in = l.client_in.ghost_name;
      client_out = l.client_out.ghost_name;
      instrument_in = l.instrument_in.ghost_name;
      instrument_out = l.instrument_out.ghost_name;
    } };

    // Sends the request at the client's end, and has the instrument answer one line at its own. The faults are those of
    // `send_line` and of `InstrumentEnd::answer_line`.
    fn send(&mut self, place: usize, request: &Line, reads: &mut u32) -> Result<(), RunFault> {
        if let Err(fault) = send_line(place, request, self.client_out) {
            return Err(fault);
        }
        self.instrument
            .answer_line(place, self.instrument_in, self.instrument_out, reads)
    }

    // Reads the client's end.
    fn read(&mut self, ahead: &mut Unused, reads: &mut u32) -> Result<(), RunFault> {
        ahead.read_more(self.client_in, reads)
    }
}
