//! Each example once, and what it came to. `bench/memory.sh` refuses one allocation of this run after another.

use crate::cases::Engine;
use crate::examples::client::{call_client, make_ring};
use crate::examples::example::Example;
use crate::examples::links::{ask, loop_commands};
use crate::examples::outcome::OnceOutcome;
use gc_catalogue::Call;
use gc_client::{Ring, Slots, Window};
use gc_filters::{
    RuleForm, StillForm, read_scene, read_schedule, run_check, run_drill, run_drill_on, run_exec,
};
use gc_instrument::Instrument;
use gc_lines::ToWriter;
use gc_probes::{PieceSink, PieceSource};
use gc_scenes::{SceneInstrument, serve_scene};
use gc_world::{Event, Report, play};
use std::alloc::{AllocError, Global};
use std::io;

/// Plays each example once, those without files first, and prints a line for each, and two for a schedule without a scene.
/// Returns whether none gave a wrong answer (`OnceOutcome::Other`): one that gave no answer, because memory ran out for its run
/// or a port (`NoMemory`, `PortLacksMemory`), counts as right. `Err`: a line can't be printed, a file can't be read, or memory
/// ran out for a file or its name. Then no further example is played.
pub fn play_once(rt: &HostRuntime, names: &[String]) -> io::Result<bool> {
    let mut is_right = play_without_files(rt)?;
    for name in names {
        if let Some(example) = Example::find(rt, name.as_str())? {
            is_right &= play_example(rt, name.as_str(), &example)?;
        }
    }
    Ok(is_right)
}

// Plays the examples that have no files, prints a line for each, and returns whether none gave a wrong answer.
fn play_without_files(rt: &HostRuntime) -> io::Result<bool> {
    let alloc = rt.alloc();
    let mut is_right = print_outcome(rt, "a client with places", "called", call_client())?;
    is_right &= print_outcome(rt, "a ring", "made", make_ring(alloc))?;
    is_right &= print_outcome(rt, "a stray, then two answers", "asked", ask(alloc))?;
    is_right &= print_outcome(rt, "three commands", "looped", loop_commands(alloc))?;
    Ok(is_right)
}

// Plays an example of the folder with its engine, and prints a line; a schedule without a scene goes to `play_schedule`, which
// prints two. Returns whether no run gave a wrong answer.
fn play_example(rt: &HostRuntime, name: &str, example: &Example) -> io::Result<bool> {
    match example.setup.engine {
        Engine::Exec => print_outcome(rt, name, "served", answer_input(example, None)),
        Engine::Check => print_outcome(rt, name, "checked", answer_input(example, None)),
        Engine::Rules => print_outcome(rt, name, "served", answer_on_scene(example)),
        Engine::DrillRules => print_outcome(rt, name, "drilled", drill_on_scene(example)),
        // `Engine::Drill`: no example has any other engine.
        _ => play_schedule(rt, name, example),
    }
}

// Drills a schedule, plays it over both windows, and prints a line for each. Returns whether neither gave a wrong answer.
fn play_schedule(rt: &HostRuntime, name: &str, example: &Example) -> io::Result<bool> {
    let is_drilled = print_outcome(rt, name, "drilled", drill_input(example, None))?;
    let is_same = print_outcome(rt, name, "played", play_over_both(example))?;
    Ok(is_drilled && is_same)
}

// Prints an example's name, what was done with it (`done`), and its outcome. Returns whether the outcome isn't `Other`, a wrong
// answer.
fn print_outcome(
    rt: &HostRuntime,
    name: &str,
    done: &str,
    outcome: OnceOutcome,
) -> io::Result<bool> {
    println!(rt; "{name}, {done}: {outcome}")?;
    Ok(outcome != OnceOutcome::Other)
}

// Room for the output of each stream of the folder, in bytes, with at least one byte to spare.
const ROOM: usize = 4096;

// The example's input, given whole.
fn source_of(example: &Example) -> PieceSource<'_> {
    PieceSource::new(example.setup.input.as_slice(), &[], u64::MAX)
}

// Answers the example's input on this instrument, if there is one, and else by `check` or `exec`, whichever is its engine:
// `Exact` if the run ended well and wrote the expected output, and else `Other`.
fn answer_input(example: &Example, scene: Option<SceneInstrument>) -> OnceOutcome {
    let mut taken = [0; ROOM];
    let mut sink = ToWriter::new(&mut taken[..]);
    let mut source = source_of(example);
    let end = match scene {
        Some(mut instrument) => serve_scene(&mut instrument, &mut source, &mut sink, u32::MAX),
        None if example.setup.engine == Engine::Check => {
            run_check(&mut source, &mut sink, u32::MAX)
        }
        None => run_exec(&mut source, &mut sink, u32::MAX),
    };
    OnceOutcome::of_answer(end.is_ok() && took_exactly(&taken, example.expected.as_slice()))
}

// Answers the example's input on the instrument of its scene: `NoMemory` if memory ran out for the scene, `Other` if the scene
// can't be read, and else the outcome of `answer_input`.
fn answer_on_scene(example: &Example) -> OnceOutcome {
    match read_scene::<RuleForm, SceneInstrument>(
        example.setup.alloc,
        example.setup.scene.as_slice(),
    ) {
        Ok(instrument) => answer_input(example, Some(instrument)),
        Err(fault) => OnceOutcome::of_unread(fault),
    }
}

// Whether `expected`, which has no zero, is all that was written into `taken`, an array of zeros before: `taken` begins with it
// and has a zero after it. `false`, too, if `expected` has `ROOM` bytes or more.
fn took_exactly(taken: &[u8; ROOM], expected: &[u8]) -> bool {
    taken.starts_with(expected) && taken.get(expected.len()) == Some(&0)
}

// Drills the example's schedule on this instrument, if there is one, and else on the simulator, with totals and a window of 7
// requests, into a sink that takes at most 5 bytes of a write. The outcome is that of `OnceOutcome::of`: `Exact` if the drill
// ended well with the expected output.
fn drill_input(example: &Example, scene: Option<SceneInstrument>) -> OnceOutcome {
    let alloc = example.setup.alloc;
    let mut sink = PieceSink::new(alloc, 5, u64::MAX);
    let mut source = source_of(example);
    let end = match scene {
        Some(instrument) => run_drill_on(alloc, instrument, &mut source, &mut sink, true, 7),
        None => run_drill(alloc, &mut source, &mut sink, true),
    };
    OnceOutcome::of(end, &sink, example.expected.as_slice())
}

// Drills the example's schedule on the instrument of its scene: `NoMemory` if memory ran out for the scene, `Other` if the scene
// can't be read, and else the outcome of `drill_input`.
fn drill_on_scene(example: &Example) -> OnceOutcome {
    match read_scene::<StillForm, SceneInstrument>(
        example.setup.alloc,
        example.setup.scene.as_slice(),
    ) {
        Ok(instrument) => drill_input(example, Some(instrument)),
        Err(fault) => OnceOutcome::of_unread(fault),
    }
}

// Plays the example's schedule over a ring and over places: `Exact` if the two reports are the same, `NoMemory` if memory ran out
// for the schedule, the ring or a report, and `Other` if the reports differ, or the schedule is refused for another reason.
fn play_over_both(example: &Example) -> OnceOutcome {
    let alloc = example.setup.alloc;
    match read_schedule(alloc, example.setup.input.as_slice()) {
        Ok(events) => compare_windows(alloc, events.as_slice()),
        Err(fault) => OnceOutcome::of_unread(fault),
    }
}

// Plays events over a ring and over places: `Exact` if they lead to the same, `NoMemory` if memory ran out for the ring or a
// report, and else `Other`.
fn compare_windows(alloc: Global, events: &[Event]) -> OnceOutcome {
    match (
        play_over_ring(alloc, events),
        play_over(alloc, Slots::new(), events),
    ) {
        (Ok(ring), Ok(places)) => OnceOutcome::of_answer(are_same(&ring, &places)),
        _ => OnceOutcome::NoMemory,
    }
}

// What events lead to.
#[derive(Drop)]
struct Played {
    report: Report<Instrument>,
    // How many requests the client has outstanding.
    waiting: usize,
    // The client's next id.
    next_id: u8,
}

// What events lead to over a ring. `Err`: memory ran out for the ring or the report.
fn play_over_ring(alloc: Global, events: &[Event]) -> Result<Played, AllocError> {
    play_over(alloc, Ring::new(alloc)?, events)
}

// What events lead to over this window. `Err`: memory ran out.
fn play_over<W: Window<Asked = Call>>(
    alloc: Global,
    window: W,
    events: &[Event],
) -> Result<Played, AllocError> {
    let (report, client) = play(alloc, Instrument::simulator(), window, events)?;
    Ok(Played {
        report,
        waiting: client.waiting(),
        next_id: client.next_id(),
    })
}

// Whether two runs came to the same: the reports, but for the instruments in them, and the clients' numbers.
fn are_same(one: &Played, other: &Played) -> bool {
    have_same_lists(&one.report, &other.report)
        && have_same_counts(&one.report, &other.report)
        && one.waiting == other.waiting
        && one.next_id == other.next_id
}

// Whether the lists of two reports are the same: requests sent, requests executed, replies made, settlements, and restarts of the
// instrument.
fn have_same_lists(one: &Report<Instrument>, other: &Report<Instrument>) -> bool {
    one.sent.as_slice() == other.sent.as_slice()
        && one.executed.as_slice() == other.executed.as_slice()
        && one.made.as_slice() == other.made.as_slice()
        && one.settled.as_slice() == other.settled.as_slice()
        && one.starts.as_slice() == other.starts.as_slice()
}

// Whether two reports agree in how many sends were refused, how many events weren't possible, and whether each direction is at
// the start of a line.
fn have_same_counts(one: &Report<Instrument>, other: &Report<Instrument>) -> bool {
    one.refused_sends == other.refused_sends
        && one.idle_events == other.idle_events
        && one.up.at_start() == other.up.at_start()
        && one.down.at_start() == other.down.at_start()
}
