//! The instrument of a scene at the far end of a case, which keeps its state from request to request, as that of `serve` does.

use gc_filters::{TimedForm, read_scene};
use gc_lines::{Line, with_end};
use gc_probes::{Case, bytes_of};
use gc_scenes::SlowInstrument;
use std::alloc::Global;
use std::io::Write;

/// The instrument of a case's scene, if the case has one.
#[derive(Drop)]
pub struct Site {
    has_scene: bool,
    instrument: Option<SlowInstrument>,
}

impl Site {
    /// The instrument of the scene that the case has as its `site`. If the text of that is no scene for `serve`, or memory is refused, the
    /// instrument answers nothing.
    pub fn of_case(alloc: Global, case: &Case<'_>) -> Site {
        Site {
            has_scene: case.has("site"),
            instrument: instrument_of(alloc, case.value("site")),
        }
    }

    /// Whether the case has a scene.
    pub fn is_there(&self) -> bool {
        self.has_scene
    }

    /// Answers the lines of a piece that came at the moment `at`, in milliseconds: writes what the instrument sends for each. Returns
    /// whether it sent something; `false` also if there is no instrument, or something can't be written.
    pub fn answer<W: Write>(&mut self, piece: &[u8], at: u64, sink: &mut W) -> bool {
        let Some(instrument) = &mut self.instrument else {
            return false;
        };
        let mut has_sent = false;
        for line in piece.split(|b| *b == b'\n') {
            let line = line.strip_suffix(b"\r").unwrap_or(line);
            let mut reply = Line::new();
            if instrument.hear(line, at, &mut reply) {
                if sink.write_all(with_end(&reply).as_slice()).is_err() {
                    return false;
                }
                has_sent = true;
            }
        }
        has_sent
    }
}

// The instrument of the scene that a value spells. `None`: its text is no scene for `serve`, or memory is refused.
fn instrument_of(alloc: Global, value: &str) -> Option<SlowInstrument> {
    let Ok(text) = bytes_of(alloc, value) else {
        return None;
    };
    read_scene::<TimedForm, SlowInstrument>(alloc, text.as_slice()).ok()
}
