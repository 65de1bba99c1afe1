//! The instrument's end of a link: the instrument, and the assembler that gives it the lines that come.

ghost use Rattle.std.specs.Prelude.{◌≡◌, ◌+◌, Err};
ghost use Rattle.gc_texts.specs.declared.fault.RunFault.{RunFault};
ghost use Rattle.gc_ask.specs.Links.{StepEnds, CountsReplies};
ghost use Rattle.gc_lines.specs.Answering.{ports_of};

use crate::unused::Unused;
use gc_lines::{Answers, Assembler, Line, Outgoing, Sink, Source, write_whole};
use gc_texts::RunFault;

/// An instrument (the simulator, or that of a scene), and the assembler that gives it its lines.
#[derive(Drop)]
pub(crate) struct InstrumentEnd<T> {
    instrument: T,
    assembler: Assembler,
    // The bytes that were read and aren't used yet.
    ahead: Unused,
}

impl<T: Answers> InstrumentEnd<T> {
    // This instrument, on a link of which nothing was read.
    pub(crate) fn new(instrument: T) -> InstrumentEnd<T> {
        InstrumentEnd {
            instrument,
            assembler: Assembler::new(),
            ahead: Unused::new(),
        }
    }

    // Takes the bytes that the last call left, and then reads, at most `reads` times, until one line is answered, writes that
    // reply, and subtracts from `reads` the reads that were answered. Bytes after that line stay for the next call. `Err`:
    // `TooManyReads` where no read is left, `Read` where one failed, `LinkClosed` at the end of what comes, and `Write` where
    // the reply couldn't be written whole; that fault counts `place` replies before this one.
    pub(crate) fn answer_line<I: Source, O: Sink>(
        &mut self,
        place: usize,
        link_in: &mut I,
        link_out: &mut O,
        reads: &mut u32,
    ) -> Result<(), RunFault>
        ensures reads { I.reads link_in.new + reads.new ≡ I.reads link_in.old + reads.old }
        ensures ends { StepEnds
            (ports_of I.Source link_in.old O.Sink link_out.old)
            (ports_of I.Source link_in.new O.Sink link_out.new)
            result }
        ensures count { CountsReplies place result }
        ensures too_many { result ≡ Err RunFault.TooManyReads → reads.new ≡ 0 }
    {
        let mut text = Outgoing::new();
        let mut cut = Line::new();
        while !self.answer_ahead(&mut text, &mut cut) {
            if let Err(fault) = self.ahead.read_more(link_in, reads) {
                return Err(fault);
            }
        }
        write_whole(link_out, text.as_slice()).map_err(|bytes| RunFault::Write {
            replies: place as u64,
            bytes,
        })
    }

    // Takes the lines that were read up to the first that draws a reply, and returns whether one does. That reply is then in `text`, with
    // its CR LF. If none does, all bytes that were read are used. A line that comes in several pieces is put together in `cut`.
    fn answer_ahead(&mut self, text: &mut Outgoing, cut: &mut Line) -> bool {
        let left = self.ahead.left();
        let mut at = 0;
        while at < left.len() {
            let (used, frame) = self.assembler.next(&left[at..], cut);
            at += used;
            text.clear();
            if self.instrument.answer(frame, text) {
                self.ahead.advance(at);
                return true;
            }
        }
        self.ahead.advance(at);
        false
    }
}
