//! A link that commands are asked over: requests are sent over it, and what comes is read. It may have an instrument of its own
//! at the other end.

ghost use Rattle.std.specs.Prelude.{◌≡◌, ◌+◌, true, Err};
ghost use Rattle.gc_lines.specs.Lines.{with_end};
ghost use Rattle.gc_lines.specs.Answering.{taken_by};
ghost use Rattle.gc_ask.specs.Links.{BothStep, LeavesSink, ReadsMore, Sends, TakesRequest};
ghost use Rattle.gc_texts.specs.WholeTexts.{source_of};
ghost use Rattle.gc_texts.specs.declared.fault.RunFault.{RunFault};

use crate::unused::Unused;
use gc_lines::{Line, Sink, Source, write_line};
use gc_texts::RunFault;

/// A link that commands are asked over, one after the other.
pub(crate) trait AskedLink {
    ghost use Rattle.std.specs.Prelude.{Bool};
    ghost use Rattle.gc_lines.specs.Answering.{Ports};
    ghost use Rattle.gc_ask.specs.Links.{HeldNames};

    /// Whether somebody other than this program answers at the other end.
    ghost is_remote: { Bool };

    /// What is seen of the client's end.
    ghost client: { Self → Ports };

    /// What is seen of the instrument's end.
    ghost instrument: { Self → Ports };

    /// The references that the link holds. No call changes them, so a caller knows after a call what became of its ports.
    ghost held: { Self → HeldNames };

    /// Sends the request at this place (its number, counted from 0). Where this program answers at the other end, too, it has
    /// the request answered there, in at most `reads` reads, and subtracts from `reads` those that were answered. `Err`: `Write`, or a
    /// fault of the other end, one of those of `InstrumentEnd::answer_line`.
    fn send(&mut self, place: usize, request: &Line, reads: &mut u32) -> Result<(), RunFault>
        ensures takes { TakesRequest is_remote place (with_end request.now.items) (client self.old).taken (client self.new).taken result }
        ensures ends { BothStep (client self.old) (client self.new) (instrument self.old) (instrument self.new) result }
        ensures unread { source_of (client self.new) ≡ source_of (client self.old) }
        ensures reads { (instrument self.new).reads + reads.new ≡ (instrument self.old).reads + reads.old }
        ensures too_many { result ≡ Err RunFault.TooManyReads → reads.new ≡ 0 }
        ensures held { held self.new ≡ held self.old };

    /// Reads the client's end once more into `ahead`, as `Unused::read_more` does.
    fn read(&mut self, ahead: &mut Unused, reads: &mut u32) -> Result<(), RunFault>
        ensures more { ReadsMore (source_of (client self.old)) (source_of (client self.new)) ahead.new reads.old reads.new
            result }
        ensures only { LeavesSink (client self.old) (client self.new) }
        ensures instrument { instrument self.new ≡ instrument self.old }
        ensures held { held self.new ≡ held self.old };
}

/// A link at whose other end somebody else answers.
#[derive(Drop)]
pub(crate) struct Remote<'a, 'b, I, O> {
    pub(crate) source: &'a mut I,
    pub(crate) sink: &'b mut O,
}

impl<'a, 'b, I: Source, O: Sink> AskedLink for Remote<'a, 'b, I, O> {
    ghost use Rattle.gc_lines.specs.Answering.{ports_of};
    ghost use Rattle.gc_ask.specs.Links.{no_ports};

    ghost is_remote = { true };

    ghost client = { λ a. ports_of I.Source a.source.now O.Sink a.sink.now };

    ghost instrument = { λ _. no_ports };

    // There is no instrument's end: the client's references are named in its place.
    ghost held = { λ a. record {
      client_in = a.source.ghost_name;
      client_out = a.sink.ghost_name;
      instrument_in = a.source.ghost_name;
      instrument_out = a.sink.ghost_name;
    } };

    // Sends the request. Whoever is at the other end answers it. The only fault is `Write`.
    fn send(&mut self, place: usize, request: &Line, _reads: &mut u32) -> Result<(), RunFault> {
        send_line(place, request, self.sink)
    }

    // Reads the source.
    fn read(&mut self, ahead: &mut Unused, reads: &mut u32) -> Result<(), RunFault> {
        ahead.read_more(self.source, reads)
    }
}

/// Writes the request at this place, with its CR LF. `Write`: the sink failed; the fault counts `place` requests before this
/// one, and the bytes of it that went out.
pub(crate) fn send_line<O: Sink>(place: usize, request: &Line, sink: &mut O) -> Result<(), RunFault>
    ensures { Sends place (with_end request.now.items) (taken_by O.Sink sink.old) (taken_by O.Sink sink.new) result }
{
    write_line(sink, request).map_err(|bytes| RunFault::Write {
        replies: place as u64,
        bytes,
    })
}
