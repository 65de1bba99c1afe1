//! Serving request lines with the instrument of a scene.

ghost use Rattle.gc_lines.specs.Answering.{ports_of};
ghost use Rattle.gc_scenes.specs.SceneServing.{IsSceneServing};

use crate::instrument::SceneInstrument;
use gc_instrument::answer_frame;
use gc_lines::{Answers, Lent, Outgoing, ServeFault, Served, Sink, Source, answer_frames};

// The instrument answers a line that is a request by its reply and CR LF, and every other frame by nothing.
impl Answers for SceneInstrument {
    ghost use Rattle.gc_scenes.specs.SceneServing.{PlaysFrame};

    ghost answers = { PlaysFrame };

    #[tactic(auto, using(crate::proofs::Plain::played_frame))]
    fn answer(&mut self, frame: Lent<'_>, text: &mut Outgoing) -> bool {
        answer_frame(self, frame, text)
    }
}

/// Serves the requests of a source with a scene's instrument until its end, as `gc_instrument::serve` does with the simulator's:
/// in at most `max_reads` reads of at most 256 bytes, with the same results and faults. It allocates no memory and doesn't wait.
pub fn serve_scene<S: Source, K: Sink>(
    instrument: &mut SceneInstrument,
    source: &mut S,
    sink: &mut K,
    max_reads: u32,
) -> Result<Served, ServeFault>
    ensures { IsSceneServing instrument.old instrument.new
        (ports_of S.Source source.old K.Sink sink.old)
        (ports_of S.Source source.new K.Sink sink.new)
        max_reads result }
{
    answer_frames(instrument, source, sink, max_reads, false)
}
