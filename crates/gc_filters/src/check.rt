//! `check`: each frame of a source, named with its verdict, and what is remarked of it.

ghost use Rattle.std.specs.Prelude.{◌≡◌, ◌+◌, ◌≤◌, length};
ghost use Rattle.gc_filters.specs.Checking.{IsChecking};
ghost use Rattle.gc_lines.specs.Answering.{ports_of};

use crate::remark::frame_remark;
use crate::verdict::{push_digits, push_verdict, verdict_of};
use gc_lines::{Answers, Lent, Outgoing, ServeFault, Served, Sink, Source, answer_frames, append};

// Judges frames, and counts them. The count saturates at 2^64 - 1, but no run gets there: it has fewer than 2^32 reads of at most
// 256 bytes.
#[derive(Drop)]
struct Judge {
    frames: u64,
}

impl Answers for Judge {
    ghost use Rattle.gc_filters.specs.Checking.{JudgesFrame};

    ghost answers = { JudgesFrame };

    // If a line feed has ended the frame, appends a line with the frame's number and verdict, and what is remarked of it, and returns
    // true. Else returns false.
    fn answer(&mut self, frame: Lent<'_>, text: &mut Outgoing) -> bool {
        let Some(verdict) = verdict_of(frame) else {
            return false;
        };
        self.frames = self.frames.saturating_add(1);
        push_digits(text, self.frames);
        text.push(b' ');
        push_verdict(text, verdict);
        append(text, frame_remark(frame));
        text.push(b'\n');
        true
    }
}

/// Checks the frames of a source until its end, in at most `max_reads` reads of at most 256 bytes. For each frame it writes a
/// line with LF into a sink: `N VERDICT`, N counted from 1, and ` sign-on`, ` CR alone` or ` GSI` after it where that is remarked of a
/// line (`line_remark`).
///
/// | Frame | Verdict |
/// |---|---|
/// | a line feed without a CR before it | `cleared` |
/// | a line of more than 512 bytes | `overlong` |
/// | a request whose call reads | `request RPC ok` |
/// | a request whose call doesn't | `request RPC fault F`, F being 21, or the parameters' fault, 11 to 15 |
/// | a reply | `reply RC_COM RC` |
/// | another line that begins with `%R1P,` | `fault F`, F being its fault as a reply, 2 to 5 |
/// | any other line | `fault F`, F being its fault as a request, 1 to 4 |
///
/// Bytes after the last line feed get no line. `replies` in the result, also in a fault, counts the lines that went out whole. The lines
/// of one read go out together, before the next read. It takes no memory. N can't pass 2^40, because each frame has at least one byte
/// and there are fewer than 2^32 reads.
///
/// It returns [`Served`] exactly where the last read was the end. Over ports that hadn't failed before, it fails with `Read` (42)
/// exactly where the source failed, with `Write` (43) exactly where the sink did, and with `TooManyReads` (44) exactly where all
/// reads were answered, none was the end, and no port failed. `Write` also says how many bytes of the next line went out.
pub fn run_check<S: Source, K: Sink>(
    source: &mut S,
    sink: &mut K,
    max_reads: u32,
) -> Result<Served, ServeFault>
    ensures { IsChecking
        (ports_of S.Source source.old K.Sink sink.old)
        (ports_of S.Source source.new K.Sink sink.new)
        max_reads result }
{
    answer_frames(&mut Judge { frames: 0 }, source, sink, max_reads, true)
}
