//! Commands asked over a link of the tests, once.

use crate::examples::outcome::OnceOutcome;
use gc_ask::{run_ask, run_loop};
use gc_lines::{Sink, Source};
use gc_probes::{PieceSink, PieceSource, Pipe};
use gc_texts::RunFault;
use std::alloc::Global;

// The most bytes that one write takes, where whole lines are to go at once.
const LINK_MOST: usize = 1000;

// How many reads `ask` may make.
const ASK_READS: u32 = 9;

// How many reads `loop` may make.
const LOOP_READS: u32 = 100;

/// Asks two commands over a link that gives a stray and then the two answers. The outcome is that of `OnceOutcome::of`, with
/// these exceptions: `PortLacksMemory` if memory ran out for what was sent, and `Other` if a run that ended well sent anything
/// but the two requests, or one for which memory ran out sent anything.
pub fn ask(alloc: Global) -> OnceOutcome {
    let sent = b"%R1Q,5003,0:\r\n%R1Q,0,1:\r\n";
    let told = b"0 7 answered %R1P,0,0:0,123456\n1 8 answered %R1P,0,1:0\n";
    let gives = b"%R1P,0,3:0\r\n%R1P,0,0:0,123456\r\n%R1P,0,1:0\r\n";
    let mut link_in = PieceSource::new(gives, &[], u64::MAX);
    let mut link_out = PieceSink::new(alloc, LINK_MOST, u64::MAX);
    let mut sink = PieceSink::new(alloc, 5, u64::MAX);
    let end = run_ask(
        alloc,
        &mut PieceSource::new(b"7 5003\n8 0\n", &[], u64::MAX),
        &mut link_in,
        &mut link_out,
        &mut sink,
        ASK_READS,
    );
    match end {
        Err(RunFault::Write { .. }) if link_out.lacks_memory() => OnceOutcome::PortLacksMemory,
        Ok(()) if link_out.taken() != sent.as_slice() => OnceOutcome::Other,
        Err(RunFault::Memory) if !link_out.taken().is_empty() => OnceOutcome::Other,
        _ => OnceOutcome::of(end, &sink, told),
    }
}

/// Asks three commands of the simulator over two pipes. The outcome is that of `OnceOutcome::of`, with these exceptions:
/// `PortLacksMemory` if memory ran out for what was sent over a pipe, and `Other` if memory ran out for the run and a byte is in
/// a pipe.
pub fn loop_commands(alloc: Global) -> OnceOutcome {
    let told =
        b"0 7 answered %R1P,0,0:0,123456\n1 8 answered %R1P,0,1:0\n2 9 answered %R1P,0,2:0,1\n";
    let (up, down) = (Pipe::new(alloc), Pipe::new(alloc));
    let mut client_out = up.sink(LINK_MOST, u64::MAX);
    let mut instrument_out = down.sink(LINK_MOST, u64::MAX);
    let mut sink = PieceSink::new(alloc, LINK_MOST, u64::MAX);
    let end = run_loop(
        alloc,
        &mut PieceSource::new(b"7 5003\n8 9028 0,0,0\n9 2026\n", &[], u64::MAX),
        &mut down.source(u64::MAX),
        &mut client_out,
        &mut up.source(u64::MAX),
        &mut instrument_out,
        &mut sink,
        LOOP_READS,
    );
    let has_failed = client_out.has_failed() || instrument_out.has_failed();
    match end {
        Err(RunFault::Write { .. }) if has_failed => OnceOutcome::PortLacksMemory,
        Err(RunFault::Memory) if !gives_nothing(&up) || !gives_nothing(&down) => OnceOutcome::Other,
        _ => OnceOutcome::of(end, &sink, told),
    }
}

// Whether a read of this pipe finds no byte in it. If it finds some, it takes the first out.
fn gives_nothing(pipe: &Pipe) -> bool {
    matches!(pipe.source(u64::MAX).read(&mut [0; 1]), Ok(0))
}
