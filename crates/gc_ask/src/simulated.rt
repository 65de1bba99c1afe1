//! An instrument that is served to callers, each of whom finds it restarted: the simulator, the instrument of a scene with rules, or one
//! whose replies take time (`slow.rt`).

ghost use Rattle.std.specs.Prelude.{◌≡◌, false};
ghost use Rattle.gc_lines.specs.Answering.{AnswersRun, HasEnded, ports_of};

use crate::busy_clock::BusyClock;
use gc_instrument::{Instrument, ServeFault, Served};
use gc_lines::{Answers, Sink, Source, answer_frames};
use gc_scenes::SceneInstrument;

/// What answers callers, one connection after the other. `'c` is the life of its clock, if it has one.
pub trait Simulates<'c>: Answers {
    /// The instrument after a restart, by what it was before.
    ghost restarted: { Self → Self };

    /// Restarts the instrument, for the next caller.
    fn start_anew(&mut self)
        ensures { self.new ≡ restarted self.old };

    /// The clock by which its replies wait. `None`: they take no time.
    fn clock(&self) -> Option<&'c BusyClock>;
}

impl<'c> Simulates<'c> for Instrument {
    ghost use Rattle.gc_instrument.specs.State.{restarted};

    ghost restarted = { restarted };

    fn start_anew(&mut self) {
        self.restart();
    }

    fn clock(&self) -> Option<&'c BusyClock> {
        None
    }
}

impl<'c> Simulates<'c> for SceneInstrument {
    ghost use Rattle.gc_scenes.specs.SceneState.{scene_restarted};

    ghost restarted = { scene_restarted };

    fn start_anew(&mut self) {
        self.restart();
    }

    fn clock(&self) -> Option<&'c BusyClock> {
        None
    }
}

/// Restarts an instrument, and serves a connection with it, of which `source` and `sink` are the two directions, in at most
/// `max_reads` reads. The faults are those of `serve`.
pub(crate) fn serve_anew<'c, I: Simulates<'c>, S: Source, K: Sink>(
    instrument: &mut I,
    source: &mut S,
    sink: &mut K,
    max_reads: u32,
) -> Result<Served, ServeFault>
    ensures answers { AnswersRun I.answers (I.restarted instrument.old) instrument.new
        (ports_of S.Source source.old K.Sink sink.old)
        (ports_of S.Source source.new K.Sink sink.new)
        false result }
    ensures ended { HasEnded
        (ports_of S.Source source.old K.Sink sink.old)
        (ports_of S.Source source.new K.Sink sink.new)
        max_reads result }
{
    instrument.start_anew();
    answer_frames(instrument, source, sink, max_reads, false)
}
