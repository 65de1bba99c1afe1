//! The client's end of a link: the client, and the assembler that gives it the lines that come.

ghost use Rattle.std.specs.Prelude.{◌≡◌, ◌+◌, ◌≤◌, ℕ, [], List, length, IfSome};
ghost use Rattle.gc_lines.specs.Assembler.{StandsFor};
ghost use Rattle.gc_lines.specs.Frames.{line_in};
ghost use Rattle.gc_lines.specs.Lent.{lent_seen, IsLineWithinLimit};
ghost use Rattle.gc_ask.specs.Asking.{ready_for};
ghost use Rattle.gc_ask.specs.Links.{ReadEnds};
ghost use Rattle.gc_ask.specs.Listening.{TakesFrame, Listens, left_of_piece, HearsMore, HearsReply, LinkOnlyReads, heard_by};
ghost use Rattle.gc_texts.specs.WholeTexts.{source_of};

use crate::link::AskedLink;
use crate::unused::Unused;
use arrayvec::ArrayVec;
use gc_catalogue::Call;
use gc_client::{Client, Hearing, Settlement, Slots, WINDOW};
use gc_lines::{Assembler, Lent, Line};
use gc_texts::RunFault;

/// A client, and the assembler that gives it its lines.
#[derive(Drop)]
pub(crate) struct ClientEnd {
    pub(crate) client: Client<Slots>,
    pub(crate) assembler: Assembler,
    // What the line that the client heard last settled: nothing before the first.
    pub(crate) settled: ArrayVec<Settlement<Call>, WINDOW>,
}

impl ClientEnd {
    // A client that waits for nothing, on a link of which nothing was read.
    pub(crate) fn new() -> ClientEnd
        ensures client { result.client.ids ≡ ready_for 0 }
        ensures assembler { StandsFor result.assembler [] }
    {
        ClientEnd {
            client: Client::new(Slots::new()),
            assembler: Assembler::new(),
            settled: ArrayVec::new(),
        }
    }

    // Hands the client the line of a frame, if the frame has one. Returns whether that line settled a request; the settlements
    // are then in `settled`.
    fn take_frame(&mut self, frame: Lent<'_>) -> bool
        requires { IsLineWithinLimit frame }
        ensures same { self.new.assembler ≡ self.old.assembler }
        ensures takes { TakesFrame self.old.client.ids self.new.client.ids (line_in (lent_seen frame.entry)) self.new.settled.items result }
    {
        let Lent::Line(line) = frame else {
            return false;
        };
        self.client.hear(line, &mut self.settled) == Hearing::Settled
    }

    // Takes the lines of a piece up to the first that settles a request, and returns how many bytes of the piece were used,
    // through that line's line feed. `None`: no line of the piece settles a request, and the whole piece was used. A line that
    // comes in several pieces is put together in `cut`.
    fn listen(&mut self, piece: &[u8], cut: &mut Line) -> Option<usize>
        ensures within { IfSome result (λ used. used ≤ length piece.now) }
        ensures listens { (rest : List ℕ) → StandsFor self.old.assembler rest
            → Listens self.old.client.ids (heard_by self.new rest piece.now (left_of_piece result piece.now)) result }
    {
        let mut at = 0;
        while at < piece.len() {
            let (used, frame) = self.assembler.next(&piece[at..], cut);
            at += used;
            if self.take_frame(frame) {
                return Some(at);
            }
        }
        None
    }

    // Takes the bytes that are left in `ahead`, and then reads a link, at most `reads` times, until a line settles a request that
    // waits, and subtracts from `reads` the reads that were answered. Bytes after that line stay in `ahead` for the next request.
    // The faults are `TooManyReads`, `Read` and `LinkClosed`, as `run_ask` has them; after a fault the request still waits.
    pub(crate) fn hear_reply<L: AskedLink>(
        &mut self,
        link: &mut L,
        ahead: &mut Unused,
        reads: &mut u32,
    ) -> Result<(), RunFault>
        ensures hears { HearsMore self.old self.new ahead.old ahead.new (L.client link.old) (L.client link.new)
            (λ h. HearsReply self.old.client.ids h result) }
        ensures grows { (L.client link.old).reads ≤ (L.client link.new).reads }
        ensures reads { (L.client link.new).reads + reads.new ≡ (L.client link.old).reads + reads.old }
        ensures ends { ReadEnds (source_of (L.client link.old)) (source_of (L.client link.new)) reads.new result }
        ensures only { LinkOnlyReads L.AskedLink link.old link.new }
    {
        let mut cut = Line::new();
        loop {
            if let Some(used) = self.listen(ahead.left(), &mut cut) {
                ahead.advance(used);
                return Ok(());
            }
            if let Err(fault) = link.read(ahead, reads) {
                return Err(fault);
            }
        }
    }
}
