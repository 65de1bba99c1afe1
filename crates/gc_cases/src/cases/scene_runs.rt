//! Runs of a scene's text: it is read, or its instrument answers requests.

use crate::cases::outcome::Returned;
use crate::cases::setup::Setup;
use crate::cases::sink::Taking;
use gc_filters::{PlainForm, RuleForm, TimedForm, read_scene};
use gc_instrument::{Instrument, serve};
use gc_lines::{Line, Served, write_line, write_whole};
use gc_probes::PieceSource;
use gc_scenes::{SceneInstrument, SlowInstrument, serve_scene};
use gc_texts::{RunFault, before, behind, cut_line, number_of};
use itoa::Buffer;

// Writes the instrument's reply to a line with CR LF. Returns whether there is a reply and the output took all of it.
fn answer_line(instrument: &mut SceneInstrument, line: &[u8], output: &mut Taking) -> bool {
    let mut reply = Line::new();
    instrument.reply_onto(line, &mut reply) && write_line(output, &reply).is_ok()
}

/// What a run returns that only reads a scene, with this result: the fault, if there is one.
pub fn reading_alone<T: Drop>(read: Result<T, RunFault>) -> Returned {
    match read {
        Ok(_) => Returned::Run(Ok(())),
        Err(fault) => Returned::Run(Err(fault)),
    }
}

impl Setup {
    // Has the instrument of the scene, which has no rules, answer the requests of `source`. Returns the fault of the scene if it
    // can't be read.
    pub(crate) fn serve(&self, source: &mut PieceSource<'_>, output: &mut Taking) -> Returned {
        match read_scene::<PlainForm, Instrument>(self.alloc, self.scene.as_slice()) {
            Ok(mut instrument) => {
                Returned::Served(serve(&mut instrument, source, output, self.allowed))
            }
            Err(fault) => Returned::Run(Err(fault)),
        }
    }

    // Has the instrument of the scene, which has rules, answer the requests of `source`; if the case has moments, the lines of
    // the input instead, each at its moment. Returns the fault of the scene if it can't be read.
    pub(crate) fn serve_rules(
        &self,
        source: &mut PieceSource<'_>,
        output: &mut Taking,
    ) -> Returned {
        match read_scene::<RuleForm, SceneInstrument>(self.alloc, self.scene.as_slice()) {
            Ok(mut instrument) if self.moments.is_empty() => {
                Returned::Served(serve_scene(&mut instrument, source, output, self.allowed))
            }
            Ok(mut instrument) => self.serve_by_moments(&mut instrument, output),
            Err(fault) => Returned::Run(Err(fault)),
        }
    }

    // Has the instrument answer as many lines of the input as there are moments, each at its own, in milliseconds; beyond the
    // input's end the lines are empty. The run always ends well, with the count of the replies that were written whole.
    fn serve_by_moments(&self, instrument: &mut SceneInstrument, output: &mut Taking) -> Returned {
        let mut left = self.input.as_slice();
        let mut replies = 0u64;
        for moment in self.moments.iter() {
            instrument.set_moment(*moment as u64);
            let (line, rest) = cut_line(left);
            if answer_line(instrument, line, output) {
                replies = replies.saturating_add(1);
            }
            left = rest.unwrap_or(&[]);
        }
        Returned::Served(Ok(Served { replies }))
    }

    // Gives the lines of the input to the scene's instrument, whose replies take time, as `serve_row` does. The run ends well,
    // also where the output fails, or with the fault of the scene if it can't be read.
    pub(crate) fn serve_slow(&self, output: &mut Taking) -> Returned {
        match read_scene::<TimedForm, SlowInstrument>(self.alloc, self.scene.as_slice()) {
            Ok(mut slow) => {
                for row in self.input.split(|byte| *byte == b'\n') {
                    serve_row(&mut slow, row, output);
                }
                Returned::Run(Ok(()))
            }
            Err(fault) => Returned::Run(Err(fault)),
        }
    }
}

// Gives an instrument the line of a row, which follows the moment of its arrival and a space, and writes the moment at which
// the reply is sent, a space, the reply and a line feed. Both moments are in milliseconds; the first is 0 if it is no number up
// to 4294967295. Without a reply nothing is written.
fn serve_row(slow: &mut SlowInstrument, row: &[u8], output: &mut Taking) {
    let at = number_of(before(b' ', row), 4_294_967_295).unwrap_or(0);
    let mut reply = Line::new();
    if !slow.hear(behind(b' ', row), at, &mut reply) {
        return;
    }
    // An output that fails shows in what it took.
    let mut digits = Buffer::new();
    let _ = write_whole(output, digits.format(slow.free_from()).as_bytes());
    let _ = write_whole(output, b" ");
    let _ = write_whole(output, reply.as_slice());
    let _ = write_whole(output, b"\n");
}
