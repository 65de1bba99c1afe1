//! Serving request lines: an instrument answers the frames of a source, and its replies go into a sink.

ghost use Rattle.gc_lines.specs.Answering.{ports_of};
ghost use Rattle.gc_instrument.specs.Serving.{IsServing};

use crate::instrument::Instrument;
use crate::replies::answer_frame;
use gc_lines::{Answers, Lent, Outgoing, ServeFault, Served, Sink, Source, answer_frames};

// An instrument answers a line that is a request by its reply and CR LF, and every other frame by nothing.
impl Answers for Instrument {
    ghost use Rattle.gc_instrument.specs.Serving.{AnswersFrame};

    ghost answers = { AnswersFrame };

    #[tactic(auto, using(crate::proofs::HeardFrames::answered_frame))]
    #[inline(always)]
    fn answer(&mut self, frame: Lent<'_>, text: &mut Outgoing) -> bool {
        answer_frame(self, frame, text)
    }
}

/// Serves the requests of a source with an instrument until its end, in at most `max_reads` reads
/// of at most 256 bytes, and writes the replies into a sink, each with its CR LF.
///
/// Bytes that were read with no line feed after them are discarded, however serving ends. At the return the instrument has got all
/// lines that were read, or, after a failed write, those up to the line whose reply was being written; then later lines of the same
/// read are discarded, too. Serving allocates no memory.
///
/// It returns [`Served`] exactly where the last read was the end. Over ports that hadn't failed
/// before, it fails with `Read` (42) exactly where the source failed, with `Write` (43) exactly
/// where the sink did, and with `TooManyReads` (44) exactly where all `max_reads` reads were
/// answered, none was the end, and no port failed: so also where `max_reads` is 0.
pub fn serve<S: Source, K: Sink>(
    instrument: &mut Instrument,
    source: &mut S,
    sink: &mut K,
    max_reads: u32,
) -> Result<Served, ServeFault>
    ensures { IsServing instrument.old instrument.new
        (ports_of S.Source source.old K.Sink sink.old)
        (ports_of S.Source source.new K.Sink sink.new)
        max_reads result }
{
    answer_frames(instrument, source, sink, max_reads, false)
}
