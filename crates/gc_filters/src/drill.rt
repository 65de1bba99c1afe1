//! A schedule, read from a source, played on an instrument, and its settlements written into a sink.

ghost use Rattle.std.specs.Prelude.{◌≡◌, IfOk};
ghost use Rattle.gc_client.specs.Rule.{IsWidth};
ghost use Rattle.gc_instrument.specs.State.{simulator_opening};
ghost use Rattle.gc_lines.specs.Answering.{ports_of};
ghost use Rattle.gc_filters.specs.Drill.{IsDrill, drill_text_on};

use crate::report_text::text_of;
use crate::schedule::read_schedule;
use gc_client::{Slots, WINDOW};
use gc_instrument::Instrument;
use gc_lines::{Sink, Source, write_whole};
use gc_texts::{RunFault, read_text};
use gc_world::{Event, play_width};
use std::alloc::{AllocError, Global};

/// An instrument on which the events of a schedule can be played.
pub trait Playable: Drop {
    ghost use Rattle.std.specs.Prelude.{ℕ, List, Bool};
    ghost use Rattle.gc_world.specs.declared.event.Event.{Event};

    /// What is written of events that are played on it, with a window of this width, and with the line of totals if that is asked for.
    ghost text: { Self → ℕ → List Event → Bool → List ℕ };

    /// The text to be written when these events are played on it. `Err`: memory was refused.
    fn output(
        self,
        alloc: Global,
        events: &[Event],
        totals: bool,
        width: u8,
    ) -> Result<Vec<u8>, AllocError>
        requires { IsWidth width }
        ensures { IfOk result (λ written. written.items ≡ text self width events.now totals) };
}

impl Playable for Instrument {
    ghost use Rattle.gc_filters.specs.Drill.{drill_text_on};

    ghost text = { drill_text_on };

    // Plays as `play_width` does.
    fn output(
        self,
        alloc: Global,
        events: &[Event],
        totals: bool,
        width: u8,
    ) -> Result<Vec<u8>, AllocError> {
        let (report, _) = play_width(alloc, self, Slots::new(), width, events)?;
        text_of(alloc, &report, totals)
    }
}

/// Plays the schedule that a source gives, on an instrument and with a client that lets at most `width` requests wait at once. It writes
/// a line for each settlement, and with `totals` one more line after them. Nothing is written before the whole schedule was read and
/// played, and the whole text made. The lines are this project's own.
///
/// `Read`: the source failed. `InputTooLong`: it gave more than 65,536 bytes. `Schedule` names the first line that has the form
/// of no event, counted from 1. `Memory`: memory was refused. After each of these the sink has taken nothing. `Output`: the sink
/// failed, and has taken a first part of the text, maybe no byte, and not all.
///
/// A run on the instrument of a scene with rules promises less than one on the simulator:
/// [`play_scene`](gc_world::play_scene) says what it promises, and what it doesn't.
pub fn run_drill_on<I: Playable, S: Source, K: Sink>(
    alloc: Global,
    instrument: I,
    source: &mut S,
    sink: &mut K,
    totals: bool,
    width: u8,
) -> Result<(), RunFault>
    requires { IsWidth width }
    ensures drills { IsDrill (I.text instrument width) totals
        (ports_of S.Source source.old K.Sink sink.old)
        (ports_of S.Source source.new K.Sink sink.new)
        result }
{
    let text = read_text(alloc, source)?;
    let events = read_schedule(alloc, text.as_slice())?;
    let Ok(output) = instrument.output(alloc, events.as_slice(), totals, width) else {
        return Err(RunFault::Memory);
    };
    match write_whole(sink, output.as_slice()) {
        Ok(()) => Ok(()),
        Err(_) => Err(RunFault::Output),
    }
}

/// Plays a schedule as `run_drill_on` does, on the simulator.
pub fn run_drill_width<S: Source, K: Sink>(
    alloc: Global,
    source: &mut S,
    sink: &mut K,
    totals: bool,
    width: u8,
) -> Result<(), RunFault>
    requires { IsWidth width }
    ensures drills { IsDrill (drill_text_on simulator_opening width) totals
        (ports_of S.Source source.old K.Sink sink.old)
        (ports_of S.Source source.new K.Sink sink.new)
        result }
{
    run_drill_on(alloc, Instrument::simulator(), source, sink, totals, width)
}

/// Plays a schedule as `run_drill_width` does, with a client that lets at most seven requests wait at once.
pub fn run_drill<S: Source, K: Sink>(
    alloc: Global,
    source: &mut S,
    sink: &mut K,
    totals: bool,
) -> Result<(), RunFault>
    ensures drills { IsDrill (drill_text_on simulator_opening WINDOW) totals
        (ports_of S.Source source.old K.Sink sink.old)
        (ports_of S.Source source.new K.Sink sink.new)
        result }
{
    run_drill_width(alloc, source, sink, totals, WINDOW as u8)
}
