//! The loop over the frames of a source: it reads, hands each frame to an answerer, and writes the answers into a sink. All
//! reading of a whole run lives here.

ghost use Rattle.std.specs.Prelude.{ℕ, List, Option};
ghost use Rattle.gc_lines.specs.Answering.{AnswersRun, AppendsAnswer, GrowsByAnswer, HasEnded, HasRoomForAnswer, ports_of};
ghost use Rattle.gc_lines.specs.Lent.{lent_seen};

use crate::frame::Lent;
use crate::line::Line;
use crate::ports::{Sink, Source};
use crate::served::{ServeFault, Served};
use crate::session::Session;
use arrayvec::ArrayVec;

/// How many bytes a run reads at a time at most.
const PIECE: usize = 256;

/// The most bytes of a text that is sent, its line end counted.
pub(crate) const TEXT_ROOM: usize = 514;

/// Texts to be sent, one after the other: at most 8192 bytes in all, and at most 514 in each, its line end counted.
pub type Outgoing = ArrayVec<u8, 8192>;

/// An answerer of the frames of a stream, one after the other. It answers each with a text of at most 514 bytes, its line end
/// counted, or with nothing.
pub trait Answers {
    ghost use Rattle.gc_lines.specs.declared.frame.Frame.{Frame};

    /// What answering may do: the state before a frame, the frame, the state after it, and the text, if there is one.
    ghost answers: { Self → Frame → Self → Option (List ℕ) → Type 0 };

    /// Appends the answer to the frame, with its line end, to `text`, which has room for 514 bytes more, and returns whether
    /// there is an answer. Without one `text` stays as it is.
    fn answer(&mut self, frame: Lent<'_>, text: &mut Outgoing) -> bool
        requires { HasRoomForAnswer text.old }
        ensures answered { AppendsAnswer (answers self.old (lent_seen frame.entry) self.new) text.old.items text.new.items result }
        ensures bound { GrowsByAnswer text.old.items text.new.items };
}

/// Answers the frames of a source until its end, in at most `max_reads` reads of at most 256 bytes, and writes the texts
/// into a sink. Without `gathers` it writes each text before it looks at the next frame. With it the texts of one read wait and
/// are sent together before the next read, or earlier as soon as one more text of 514 bytes has no room: there is room for 8192
/// bytes and 256 texts. It allocates nothing itself.
///
/// Bytes that no line feed followed are no frame, however the run ends. The answerer gets all frames that were read. Where a write
/// failed, it has got only those up to the one whose text the sink didn't take whole; with `gathers` it may have got later ones of
/// the same read, too.
///
/// It returns [`Served`] exactly where its last read was the end. Over ports that hadn't failed before, it fails with `Read` (42)
/// exactly where the source failed, with `Write` (43) exactly where the sink did, and with `TooManyReads` (44) exactly where all
/// `max_reads` reads were answered, none was the end, and no port failed: so also where `max_reads` is 0.
pub fn answer_frames<A: Answers, S: Source, K: Sink>(
    answerer: &mut A,
    source: &mut S,
    sink: &mut K,
    max_reads: u32,
    gathers: bool,
) -> Result<Served, ServeFault>
    ensures answers { AnswersRun A.answers answerer.old answerer.new
        (ports_of S.Source source.old K.Sink sink.old)
        (ports_of S.Source source.new K.Sink sink.new)
        gathers result }
    ensures ended { HasEnded
        (ports_of S.Source source.old K.Sink sink.old)
        (ports_of S.Source source.new K.Sink sink.new)
        max_reads result }
{
    let mut session = Session::new(gathers);
    let mut buf = [0u8; PIECE];
    // A line that comes in more than one piece is put together here.
    let mut cut = Line::new();
    for _ in 0..max_reads {
        match source.read(&mut buf) {
            Ok(0) => return Ok(Served {
                replies: session.replies,
            }),
            Ok(n) => {
                if let Err(bytes) = session.answer_piece(answerer, sink, &buf[..n], &mut cut) {
                    return Err(ServeFault::Write {
                        replies: session.replies,
                        bytes,
                    });
                }
            }
            Err(_) => return Err(ServeFault::Read {
                replies: session.replies,
            }),
        }
    }
    Err(ServeFault::TooManyReads {
        replies: session.replies,
    })
}
