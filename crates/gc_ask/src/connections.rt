//! Asking and serving over real connections, to their ends. How a connection is made is in `gc_links`.

ghost use Rattle.std.specs.Prelude.{◌≡◌, ◌≤◌};
ghost use Rattle.gc_ask.specs.AskRuns.{AskRunsConnected, AsksOverFresh};
ghost use Rattle.gc_lines.specs.Answering.{taken_by};
ghost use Rattle.gc_ask.specs.Looping.{LoopRunsConnected, LoopsOverFresh};
ghost use Rattle.gc_ask.specs.Places.{IsFaultOfPlace, fault_of_reason, fault_of_unusable};
ghost use Rattle.gc_ask.specs.Serving.{ServesEach, ServesNext};
ghost use Rattle.gc_texts.specs.CommandStops.{with_command_fault};
ghost use Rattle.gc_texts.specs.WholeTexts.{input_of};
ghost use Rattle.gc_texts.specs.declared.fault.RunFault.{RunFault};

use crate::address::Address;
use crate::ask::ask_all;
use crate::caller::{Connection, Waits};
use crate::link::Remote;
use crate::looped::ask_looped;
use crate::queue::CallerQueue;
use crate::simulated::Simulates;
use gc_instrument::Instrument;
use gc_lines::{Answers, FromReader, Sink, Source, ToWriter};
use gc_links::{Place, Unusable, both_ends, connect_here, wire_to};
use gc_texts::{
    Command, CommandStop, RunFault, end_of_serving, read_command_text, read_commands_of,
};
use std::alloc::Global;
use std::fs::File;
use std::io::{Read, Write};
use std::net::{Net, TcpListener, TcpStream};
use std::rt::Files;
use std::time::Clock;

/// The most connections that one call of `serve_tcp` serves. `serve_device` has no such bound, nor has a kept port or device.
pub const MOST_CONNECTIONS: u32 = 1000;

/// Reads the whole command text of a source, binds a free port of 127.0.0.1, connects to it, and asks the commands over that one
/// connection, with an instrument at its other end, in at most `max_reads` reads of both ends together.
///
/// The faults come as `run_loop_on` says, and `Socket` comes where the connection couldn't be made. No socket is opened before
/// the whole text was read. For a faulty line the stop says which of its fields is at fault.
pub fn loop_tcp_on<
    R: Net<Listener = TcpListener, Stream = TcpStream>,
    S: Source,
    K: Sink,
    T: Answers + Drop,
>(
    rt: &R,
    alloc: Global,
    instrument: T,
    commands: &mut S,
    sink: &mut K,
    max_reads: u32,
) -> Result<(), CommandStop>
    ensures loops { LoopRunsConnected (input_of S.Source commands.old) (input_of S.Source commands.new) max_reads
        (taken_by K.Sink sink.old) (taken_by K.Sink sink.new) (with_command_fault result) }
{
    let commands = read_commands_of(alloc, commands)?;
    let Ok((near, far)) = both_ends(rt) else {
        return Err(CommandStop::Fault(RunFault::Socket));
    };
    loop_until_stop(
        commands.as_slice(),
        instrument,
        &near,
        &far,
        sink,
        max_reads,
    )
}

// As `loop_over`, with its fault as a stop.
fn loop_until_stop<K: Sink, T: Answers + Drop>(
    commands: &[Command],
    instrument: T,
    near: &TcpStream,
    far: &TcpStream,
    sink: &mut K,
    max_reads: u32,
) -> Result<(), CommandStop>
    ensures { LoopsOverFresh commands.now max_reads (taken_by K.Sink sink.old) (taken_by K.Sink sink.new) (with_command_fault result) }
{
    match loop_over(commands, instrument, near, far, sink, max_reads) {
        Ok(()) => Ok(()),
        Err(fault) => Err(CommandStop::Fault(fault)),
    }
}

// Asks commands over a connection that was just made: `near` is the client's end, and at `far` the instrument answers. At
// most `max_reads` reads of both ends together are made, and the faults are those of `ask_looped`.
fn loop_over<K: Sink, T: Answers + Drop>(
    commands: &[Command],
    instrument: T,
    near: &TcpStream,
    far: &TcpStream,
    sink: &mut K,
    max_reads: u32,
) -> Result<(), RunFault>
    ensures { LoopsOverFresh commands.now max_reads (taken_by K.Sink sink.old) (taken_by K.Sink sink.new) result }
{
    let mut client_in = FromReader::new(near);
    let mut client_out = ToWriter::new(near);
    let mut instrument_in = FromReader::new(far);
    let mut instrument_out = ToWriter::new(far);
    ask_looped(
        commands,
        instrument,
        &mut client_in,
        &mut client_out,
        &mut instrument_in,
        &mut instrument_out,
        sink,
        max_reads,
    )
}

/// Asks the commands of a source as `loop_tcp_on` does, with the simulator as the instrument. The faults are the same.
pub fn loop_tcp<R: Net<Listener = TcpListener, Stream = TcpStream>, S: Source, K: Sink>(
    rt: &R,
    alloc: Global,
    commands: &mut S,
    sink: &mut K,
    max_reads: u32,
) -> Result<(), RunFault>
    ensures loops { LoopRunsConnected (input_of S.Source commands.old) (input_of S.Source commands.new) max_reads
        (taken_by K.Sink sink.old) (taken_by K.Sink sink.new) result }
{
    match loop_tcp_on(
        rt,
        alloc,
        Instrument::simulator(),
        commands,
        sink,
        max_reads,
    ) {
        Ok(()) => Ok(()),
        Err(stop) => Err(stop.fault()),
    }
}

/// Listens at an address, accepts `connections` connections one after the other, and serves each with the instrument, which is
/// restarted for it, in at most `max_reads` reads. A silent caller is waited for without end.
///
/// `Socket` comes where the address can't be listened at, or an accept failed. A fault of a connection ends the call with it:
/// `Read`, `Write` and `TooManyReads` as `serve` has them. The instrument is left as the last connection that was served left
/// it, and as it was where none was served.
pub fn serve_tcp<'c, R: Net<Listener = TcpListener, Stream = TcpStream> + Clock, I: Simulates<'c>>(
    rt: &R,
    address: Address<'_>,
    connections: u32,
    instrument: &mut I,
    max_reads: u32,
) -> Result<(), RunFault>
    requires some { 1 ≤ connections }
    requires few { connections ≤ 1000 }

    // Each connection that was served had the instrument's replies to its lines, in order.
    ensures serves { ServesEach I.answers I.restarted max_reads (λ fault. fault ≡ RunFault.Socket) connections instrument.old instrument.new result }
{
    let Ok(listener) = address.listen(rt) else {
        return Err(RunFault::Socket);
    };
    serve_on(rt, &listener, connections, instrument, max_reads)
}

/// Accepts `connections` connections of a port one after the other, and serves each with the instrument, which is restarted for
/// it, in at most `max_reads` reads. A silent caller is waited for without end; further callers wait in the system's queue. Where a
/// caller has ended his writing and a reply to him waits until it is to be sent, his connection ends without it once one of the further
/// callers is there. The faults, and how the instrument is left, are as `serve_tcp` has them.
pub fn serve_on<'c, R: Clock, I: Simulates<'c>>(
    rt: &R,
    listener: &TcpListener,
    connections: u32,
    instrument: &mut I,
    max_reads: u32,
) -> Result<(), RunFault>
    ensures serves { ServesEach I.answers I.restarted max_reads (λ fault. fault ≡ RunFault.Socket) connections instrument.old instrument.new result }
{
    let queue = CallerQueue::new(listener);
    for at in 0..connections {
        let is_last = connections - at == 1;
        serve_next(rt, &queue, is_last, instrument, max_reads)?;
    }
    Ok(())
}

// Accepts the next caller, and serves his connection with the instrument, which is restarted for it. `is_last`: nobody is served
// after him. The faults are as `serve_tcp` has them.
fn serve_next<'c, R: Clock, I: Simulates<'c>>(
    rt: &R,
    queue: &CallerQueue<'_>,
    is_last: bool,
    instrument: &mut I,
    max_reads: u32,
) -> Result<(), RunFault>
    ensures { ServesNext I.answers I.restarted max_reads (λ fault. fault ≡ RunFault.Socket) instrument.old instrument.new result }
{
    let Ok(stream) = queue.next() else {
        return Err(RunFault::Socket);
    };
    let waits = Waits {
        longest: None,
        queue: if is_last { None } else { Some(queue) },
    };
    let connection = Connection::Stream(&stream, waits);
    let ended = connection.serve(rt, instrument, max_reads);
    end_of_serving(ended.served)
}

/// Reads the whole command text of a source, connects to a port of 127.0.0.1, and asks the commands over that connection, in at
/// most `max_reads` reads of it. Each read waits until something comes or the connection ends, however long that takes.
///
/// The faults come as `run_ask` says, and `Socket` comes where no connection could be made within ten seconds. No connection is made
/// before the whole text was read.
pub fn ask_tcp<R: Net<Listener = TcpListener, Stream = TcpStream>, S: Source, K: Sink>(
    rt: &R,
    alloc: Global,
    port: u16,
    commands: &mut S,
    sink: &mut K,
    max_reads: u32,
) -> Result<(), RunFault>
    requires { 1 ≤ port }
    ensures asks { AskRunsConnected (λ fault. fault ≡ RunFault.Socket) (input_of S.Source commands.old) (input_of S.Source commands.new) max_reads
        (taken_by K.Sink sink.old) (taken_by K.Sink sink.new) result }
{
    let commands = read_command_text(alloc, commands)?;
    let Ok(stream) = connect_here(rt, port) else {
        return Err(RunFault::Socket);
    };
    ask_over(commands.as_slice(), &stream, &stream, sink, max_reads)
}

/// Asks the commands of a source as `ask_tcp` does, at a place: connects to it, or opens it where it is a device.
///
/// The faults come as `run_ask` says, and one of `fault_of_reason` comes where no connection could be made. None is made before
/// the whole text was read. For a faulty line the stop says which of its fields is at fault.
pub fn ask_at<
    R: Net<Listener = TcpListener, Stream = TcpStream> + Files<File = File> + Clock,
    S: Source,
    K: Sink,
>(
    rt: &R,
    alloc: Global,
    place: Place<'_>,
    commands: &mut S,
    sink: &mut K,
    max_reads: u32,
) -> Result<(), CommandStop>
    ensures asks { AskRunsConnected IsFaultOfPlace (input_of S.Source commands.old) (input_of S.Source commands.new) max_reads
        (taken_by K.Sink sink.old) (taken_by K.Sink sink.new) (with_command_fault result) }
{
    let commands = read_commands_of(alloc, commands)?;
    let wire = match wire_to(rt, place) {
        Ok(wire) => wire,
        Err(reason) => return Err(CommandStop::Fault(fault_of_reason(reason))),
    };
    ask_until_stop(commands.as_slice(), &wire, &wire, sink, max_reads)
}

// As `ask_over`, with its fault as a stop.
fn ask_until_stop<I: Read + Drop, O: Write + Drop, K: Sink>(
    commands: &[Command],
    reader: I,
    writer: O,
    sink: &mut K,
    max_reads: u32,
) -> Result<(), CommandStop>
    ensures { AsksOverFresh commands.now max_reads (taken_by K.Sink sink.old) (taken_by K.Sink sink.new) (with_command_fault result) }
{
    match ask_over(commands, reader, writer, sink, max_reads) {
        Ok(()) => Ok(()),
        Err(fault) => Err(CommandStop::Fault(fault)),
    }
}

// Asks commands over the two directions of a connection that was just made, in at most `max_reads` reads. The faults are those of
// `ask_all`.
fn ask_over<I: Read + Drop, O: Write + Drop, K: Sink>(
    commands: &[Command],
    reader: I,
    writer: O,
    sink: &mut K,
    max_reads: u32,
) -> Result<(), RunFault>
    ensures { AsksOverFresh commands.now max_reads (taken_by K.Sink sink.old) (taken_by K.Sink sink.new) result }
{
    let mut source = FromReader::new(reader);
    let mut to = ToWriter::new(writer);
    let mut link = Remote {
        source: &mut source,
        sink: &mut to,
    };
    ask_all(commands, &mut link, sink, max_reads)
}

/// The fault that is reported if no connection to a place could be made: the one for why a device can't be used, or `Socket` if
/// there is no such reason.
pub fn fault_of_reason(reason: Option<Unusable>) -> RunFault
    ensures { result ≡ fault_of_reason reason }
{
    match reason {
        Some(unusable) => fault_of_unusable(unusable),
        None => RunFault::Socket,
    }
}

/// The fault that is reported if a device can't be used: the one for why.
pub fn fault_of_unusable(unusable: Unusable) -> RunFault
    ensures { result ≡ fault_of_unusable unusable }
{
    match unusable {
        Unusable::NoTerminal => RunFault::NoTerminal,
        Unusable::Held => RunFault::Held,
        Unusable::Forbidden => RunFault::Forbidden,
    }
}
