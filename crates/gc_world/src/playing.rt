//! Playing a list of events on a real client and a real instrument, the simulator or that of a scene.

ghost use Rattle.std.specs.Prelude.{IfOk, IsOk};
ghost use Rattle.gc_client.specs.Rule.{IsWidth};
ghost use Rattle.gc_world.specs.Behaviours.{ends_with};
ghost use Rattle.gc_world.specs.Clients.{streamed_between};
ghost use Rattle.gc_world.specs.Memory.{NoneTakesMemory, NoneTakesMemoryBetween};
ghost use Rattle.gc_world.specs.Reports.{IsPlayOf, IsReport};
ghost use Rattle.gc_world.specs.SceneRuns.{scene_ends, scene_played};
ghost use Rattle.gc_world.specs.Stages.{Shows};

use crate::event::Event;
use crate::executing::Executes;
use crate::report::Report;
use crate::stage::Stage;
use gc_catalogue::Call;
use gc_client::{Client, Slots, WINDOW, Window};
use gc_instrument::Instrument;
use gc_scenes::SceneInstrument;
use std::alloc::{AllocError, Global};

/// Plays the events in order, from a restarted instrument and a new client that lets `width` requests wait in this window.
/// Returns the report of the run, and the client as the last event leaves it.
///
/// The report is that of the world's run by ids, and it is faithful: the settlements correspond one for one and in order to
/// the requests sent, as far as they go; each answer that the client booked is a line that the instrument made on executing the very
/// request that the answer settles, and reads as a value or a refusal; and requests, settlements and both counts are those of a client
/// that is given which request each reply belongs to. So the first reply to a request is booked, if it comes while the request isn't
/// settled, and in time. First: it is the first of the request's replies that is delivered. Not settled: the request's number isn't
/// below the count of requests settled until then. In time: no `Expire` with a moment at or past the request's deadline came between
/// its send and this delivery, which is that of the reply's last byte.
///
/// By what the events are, the line keeps order; a line that has begun to arrive arrives whole; a repeat directly follows
/// its original; and either end restarts only while no byte is in flight. An event that isn't possible changes nothing and
/// is counted.
///
/// No request acts twice: the instrument executes each at most once, in order, whatever the line repeats. To a repeat it sends
/// the reply that it keeps: then that reply is once more in `made`, and the request isn't once more in `executed`. A restart of
/// the client restarts the instrument too. Every restart leaves the instrument's precision as it is, also the one before the
/// first event.
///
/// Each end has an assembler before it and gets the lines that come out of it. Each of the two assemblers in the report
/// holds those bytes of the front line of its direction that have gone over. Where none has, the assembler is as a new one.
///
/// `Err`: memory for a longer list or queue was refused; then nothing is returned. If none of the events takes memory, the
/// result is `Ok`.
pub fn play_width<W: Window<Asked = Call>>(
    alloc: Global,
    instrument: Instrument,
    window: W,
    width: u8,
    events: &[Event],
) -> Result<(Report<Instrument>, Client<W>), AllocError>
    requires { IsWidth width }
    ensures played { IfOk result (λ done. IsPlayOf width instrument events.now done.0 done.1) }
    ensures spare { NoneTakesMemory width instrument events.now → IsOk result }
{
    // For the proof: this call's contract says that the instrument's state is fitting.
    let _ = instrument.precision();
    let stage = run(alloc, instrument, window, width, events)?;
    Ok(stage.ended())
}

/// Plays the events as `play_width` does, with the widest window there is: the client lets seven requests wait.
pub fn play<W: Window<Asked = Call>>(
    alloc: Global,
    instrument: Instrument,
    window: W,
    events: &[Event],
) -> Result<(Report<Instrument>, Client<W>), AllocError>
    ensures played { IfOk result (λ done. IsPlayOf WINDOW instrument events.now done.0 done.1) }
    ensures spare { NoneTakesMemory WINDOW instrument events.now → IsOk result }
{
    play_width(alloc, instrument, window, WINDOW as u8, events)
}

/// Plays the events in order, from a restarted instrument of a scene and a new client that lets `width` requests be outstanding, and
/// returns the report of the run by ids ([`scene_laws`](crate::scene_laws)).
///
/// Whatever the scene's rules say: the settlements correspond one for one and in order to the requests sent, as far as they go;
/// each answer that the client booked was made on executing the very request that the answer settles; a first reply that comes while
/// its request isn't settled settles it, as answered or as late; and the run is that of a client which is told the request of each
/// reply. Unless the scene has `repeats no`, each request is executed at most once, in order.
///
/// What `play_width` promises beyond that isn't promised here. If the instrument doesn't repeat (`repeats no` in a scene), a request
/// whose line is repeated acts as often as it comes, and each time the reply may be another. A request that a fault answers isn't
/// carried out, though it counts as executed. Nothing is said of what an answer reads as: a scene may answer with any code.
///
/// A run has no clock: the moment of each request is the one to which `instrument` is set when it is passed.
///
/// `Err`: memory for a longer list or queue was refused; then nothing is returned. If none of the events takes memory, the
/// result is `Ok`.
pub fn play_scene(
    alloc: Global,
    instrument: SceneInstrument,
    width: u8,
    events: &[Event],
) -> Result<Report<SceneInstrument>, AllocError>
    requires { IsWidth width }
    ensures played { IfOk result (λ report. IsReport report (scene_played width instrument events.now).wire) }
    ensures spare { NoneTakesMemoryBetween scene_ends width instrument events.now → IsOk result }
{
    let stage = run(alloc, instrument, Slots::new(), width, events)?;
    Ok(stage.ended().0)
}

// The stage after these events, in order, from the restarted instrument and a new client on. `Err`: memory was refused.
fn run<W: Window<Asked = Call>, I: Executes>(
    alloc: Global,
    instrument: I,
    window: W,
    width: u8,
    events: &[Event],
) -> Result<Stage<W, I>, AllocError>
    requires { IsWidth width }
    ensures shows { IfOk result (λ stage. Shows width stage (streamed_between (ends_with I.acts) width instrument events.now)) }
    ensures spare { NoneTakesMemoryBetween (ends_with I.acts) width instrument events.now → IsOk result }
{
    let mut stage = Stage::new(alloc, instrument, window, width, count_sends(events));
    for event in events {
        stage.happen(event)?;
    }
    Ok(stage)
}

// How many of the events are a `Send`, one that is refused included.
fn count_sends(events: &[Event]) -> usize {
    events
        .iter()
        .filter(|event| matches!(event, Event::Send(..)))
        .count()
}
