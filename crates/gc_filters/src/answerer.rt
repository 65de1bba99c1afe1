//! An instrument that answers the requests of a source: that of the execution table, or that of a scene with rules.

ghost use Rattle.std.specs.Prelude.{ℕ, Result};
ghost use Rattle.gc_lines.specs.Answering.{HasEnded, Ports, ports_of};
ghost use Rattle.gc_lines.specs.declared.served.Served.{Served};
ghost use Rattle.gc_lines.specs.declared.served.ServeFault.{ServeFault};

use gc_instrument::{Instrument, serve};
use gc_lines::{ServeFault, Served, Sink, Source};
use gc_scenes::{SceneInstrument, serve_scene};

/// An instrument that answers requests.
pub trait Answerer: Drop {
    /// What serving may do: the instrument before and after it, the ports before and after it, the most reads, and how it ended.
    ghost serving: { Self → Self → Ports → Ports → ℕ → Result Served ServeFault → Type 0 };

    /// Answers the requests of a source until its end, in at most `max_reads` reads. The faults are those of `serve`; the
    /// replies that were written before a fault stay written.
    fn answer_all<S: Source, K: Sink>(
        &mut self,
        source: &mut S,
        sink: &mut K,
        max_reads: u32,
    ) -> Result<Served, ServeFault>
        ensures serves { serving self.old self.new
            (ports_of S.Source source.old K.Sink sink.old)
            (ports_of S.Source source.new K.Sink sink.new)
            max_reads result }
        ensures ended { HasEnded
            (ports_of S.Source source.old K.Sink sink.old)
            (ports_of S.Source source.new K.Sink sink.new)
            max_reads result };
}

impl Answerer for Instrument {
    ghost use Rattle.gc_instrument.specs.Serving.{IsServing};

    ghost serving = { IsServing };

    // Answers as `serve` does.
    fn answer_all<S: Source, K: Sink>(
        &mut self,
        source: &mut S,
        sink: &mut K,
        max_reads: u32,
    ) -> Result<Served, ServeFault> {
        serve(self, source, sink, max_reads)
    }
}

impl Answerer for SceneInstrument {
    ghost use Rattle.gc_scenes.specs.SceneServing.{IsSceneServing};

    ghost serving = { IsSceneServing };

    // Answers as `serve_scene` does.
    fn answer_all<S: Source, K: Sink>(
        &mut self,
        source: &mut S,
        sink: &mut K,
        max_reads: u32,
    ) -> Result<Served, ServeFault> {
        serve_scene(self, source, sink, max_reads)
    }
}
