//! What the answering loop keeps from one read to the next, and how texts are sent: each at once, or gathered. All writing
//! of a whole run lives here.

ghost use Rattle.std.specs.Prelude.{◌≡◌, ◌+◌, ◌<◌, ◌≤◌, ◌^◌, [], length, OnOk, true};
ghost use Rattle.gc_lines.specs.Assembler.{StandsFor};
ghost use Rattle.gc_lines.specs.Lent.{lent_seen};
ghost use Rattle.gc_lines.specs.Passing.{AnswersPiece, ChangesTextsAlone, GathersFrame, HasRoomForText, NoneWait, WritesWaiting};
ghost use Rattle.gc_lines.specs.Passing.{session_progress, texts_in, whole_and_part};
ghost use Rattle.gc_lines.specs.Ports.{FailsWith};

use crate::answering::{Answers, Outgoing, TEXT_ROOM};
use crate::assembler::Assembler;
use crate::frame::Lent;
use crate::lengths::{Lengths, MOST_LENGTHS};
use crate::line::Line;
use crate::ports::Sink;
use crate::writing::write_whole;

// What the loop keeps from one read to the next.
#[derive(Drop)]
pub(crate) struct Session {
    assembler: Assembler,
    // Whether the texts of one read are sent together.
    gathers: bool,
    // The texts to be sent, one after the other, and the length of each.
    text: Outgoing,
    lengths: Lengths,
    // How many texts were written whole.
    pub(crate) replies: u64,
}

impl Session {
    // A session at the start of a stream.
    pub(crate) fn new(gathers: bool) -> Session
        ensures assembler { StandsFor result.assembler [] }
        ensures gathers { result.gathers ≡ gathers }
        ensures nothing { NoneWait result }
        ensures replies { result.replies ≡ 0 }
    {
        Session {
            assembler: Assembler::new(),
            gathers,
            text: Outgoing::new(),
            lengths: Lengths::new(),
            replies: 0,
        }
    }

    // Answers the frames that a piece completes, and writes all of their texts. A line that earlier pieces began is put
    // together in `cut`. `Err(bytes)`: the sink failed, and took only the first `bytes` bytes of a text.
    pub(crate) fn answer_piece<A: Answers, K: Sink>(
        &mut self,
        answerer: &mut A,
        sink: &mut K,
        piece: &[u8],
        cut: &mut Line,
    ) -> Result<(), usize>
        requires count { self.old.replies + length piece.now < 2 ^ 64 }
        requires nothing { NoneWait self.old }
        ensures bound { self.new.replies ≤ self.old.replies + length piece.now }
        ensures gathers { self.new.gathers ≡ self.old.gathers }
        ensures nothing { OnOk result (NoneWait self.new) }
        ensures failed { FailsWith result (K.failed sink.old) (K.failed sink.new) }
        ensures answered { AnswersPiece A.answers (session_progress K.Sink answerer.old sink.old self.old)
            (session_progress K.Sink answerer.new sink.new self.new) self.old self.new piece.now result }
    {
        let mut left = piece;
        while !left.is_empty() {
            let taken = self.assembler.next(left, cut);
            left = &left[taken.0..];
            if let Err(bytes) = self.answer_frame(answerer, sink, taken.1) {
                return Err(bytes);
            }
        }
        // The result is passed on as it is, but by two branches, since each outcome is proved in one.
        if let Err(bytes) = self.write_texts(sink) {
            return Err(bytes);
        }
        Ok(())
    }

    // Answers a frame, unless it is `More`. An answer is added to the texts that wait, and then all of them are written, unless
    // texts are gathered and there is room for one more; without an answer nothing is written. `Err(bytes)`: the sink failed,
    // and took only the first `bytes` bytes of a text.
    fn answer_frame<A: Answers, K: Sink>(
        &mut self,
        answerer: &mut A,
        sink: &mut K,
        frame: Lent<'_>,
    ) -> Result<(), usize>
        requires count { texts_in self.old + 1 < 2 ^ 64 }
        requires room { HasRoomForText self.old }
        ensures few { self.new.replies ≤ texts_in self.old + 1 }
        ensures bound { OnOk result (texts_in self.new ≤ texts_in self.old + 1) }
        ensures room { OnOk result (HasRoomForText self.new) }
        ensures same { ChangesTextsAlone self.old self.new }
        ensures failed { FailsWith result (K.failed sink.old) (K.failed sink.new) }
        ensures answered { GathersFrame A.answers (session_progress K.Sink answerer.old sink.old self.old)
            (session_progress K.Sink answerer.new sink.new self.new) self.old self.new (lent_seen frame.entry) result }
    {
        if let Lent::More = frame {
            return Ok(());
        }
        let before = self.text.len();
        if !answerer.answer(frame, &mut self.text) {
            return Ok(());
        }
        self.lengths.push(self.text.len() - before);
        if self.may_wait() {
            return Ok(());
        }
        // By two branches, since each outcome is proved in one.
        if let Err(bytes) = self.write_texts(sink) {
            return Err(bytes);
        }
        Ok(())
    }

    // Whether the texts that wait may wait for one more: texts are gathered, and there is room for one more text and its length.
    #[inline]
    fn may_wait(&self) -> bool
        ensures { result ≡ true → HasRoomForText self.now }
    {
        self.gathers
            && self.lengths.len() < MOST_LENGTHS
            && self.text.remaining_capacity() >= TEXT_ROOM
    }

    // Writes all texts that wait, and counts those that the sink took whole. `Err(bytes)`: the sink failed, and took only the first
    // `bytes` bytes of one of them; none of them is removed then, not even those that were counted.
    #[inline]
    fn write_texts<K: Sink>(&mut self, sink: &mut K) -> Result<(), usize>
        requires { texts_in self.old < 2 ^ 64 }
        ensures bound { self.new.replies ≤ texts_in self.old }
        ensures same { ChangesTextsAlone self.old self.new }
        ensures failed { FailsWith result (K.failed sink.old) (K.failed sink.new) }
        ensures nothing { OnOk result (NoneWait self.new) }
        ensures written { WritesWaiting K.Sink sink.old sink.new self.old self.new result }
    {
        match write_whole(sink, self.text.as_slice()) {
            Ok(()) => {
                self.replies += self.lengths.len() as u64;
                self.text.clear();
                self.lengths.clear();
                Ok(())
            }
            Err(taken) => Err(self.count_part(taken)),
        }
    }

    // Where the sink took the first `taken` bytes of the texts that wait: counts the texts that it took whole, and returns
    // how many bytes of the next text it took.
    #[inline(never)]
    fn count_part(&mut self, taken: usize) -> usize
        requires { texts_in self.old < 2 ^ 64 }
        ensures bound { self.new.replies ≤ texts_in self.old }
        ensures same { ChangesTextsAlone self.old self.new }
        ensures parts { (self.new.replies, result) ≡ whole_and_part self.old.replies taken self.old.lengths }
    {
        let (replies, bytes) = whole_and_part(self.replies, taken, self.lengths.as_slice());
        self.replies = replies;
        bytes
    }
}

// Where a sink took the first `taken` bytes of texts with these lengths: returns how many texts it took whole, `whole`
// earlier ones included, and how many bytes of the next text it took.
fn whole_and_part(whole: u64, taken: usize, lengths: &[usize]) -> (u64, usize)
    requires { whole + length lengths.now < 2 ^ 64 }
    ensures parts { result ≡ whole_and_part whole taken lengths.now }
    ensures bound { result.0 ≤ whole + length lengths.now }
{
    let mut count = whole;
    let mut bytes = taken;
    for length in lengths {
        if bytes < *length {
            return (count, bytes);
        }
        bytes -= *length;
        count += 1;
    }
    (count, bytes)
}
