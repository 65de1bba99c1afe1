//! Rows of a simulated instrument: lines and calls that it takes, and its scene.

use crate::layers::calls::call_of;
use crate::layers::embedded::tell_embedded;
use crate::layers::twice::ask_twice;
use gc_instrument::{Instrument, Target};
use gc_lines::Line;
use gc_probes::{Row, Rows, Told, cut_word};
use gc_values::{Decimal, Text, read_long};
use std::alloc::Global;

/// An instrument, at first the simulator, and the targets of the next one's scene.
#[derive(Drop)]
pub struct Instruments {
    instrument: Instrument,
    scene: Vec<Target>,
}

impl Instruments {
    /// The simulator, and a scene without targets.
    pub fn new(alloc: Global) -> Instruments {
        Instruments {
            instrument: Instrument::simulator(),
            scene: Vec::new(alloc),
        }
    }

    // Adds a target to the scene, by the words for its direction, its vertical angle and its distance. Reports only if it can't:
    // a word is no decimal, or memory ran out.
    fn add_target(&mut self, words: &str, came: &mut Told) {
        match target_of(words) {
            Some(target) if self.scene.push(target).is_ok() => {}
            _ => came.text("no target"),
        }
    }

    // Makes an instrument with the scene, by the words for its serial number and its name, and reports that it was made, that the
    // words are no number and name, or the fault. If it can't be made, the one before stays.
    fn make(&mut self, words: &str, came: &mut Told) {
        let (serial, name) = cut_word(words);
        let (Ok(serial), Ok(name)) = (read_long(serial.as_bytes()), Text::new(name.as_bytes()))
        else {
            return came.text("no serial number and name");
        };
        match Instrument::new(serial, name, self.scene.as_slice()) {
            Ok(instrument) => {
                self.instrument = instrument;
                came.text("made")
            }
            Err(full) => came.titled("fault ", &full.number()),
        }
    }

    // Executes the call of a request's line, and reports the return code and the answer, or that the line has no call.
    fn execute(&mut self, line: &[u8], came: &mut Told) {
        let Some(call) = call_of(line) else {
            return came.text("no call");
        };
        let (code, answer) = self.instrument.execute(&call);
        came.counted(&code, " ");
        came.debug(&answer);
    }

    // Hands in the 256 lines of one byte each, and reports how many of them got no reply, with the same id stored as before.
    fn take_single_bytes(&mut self, came: &mut Told) {
        let mut ignored = 0u16;
        for byte in 0..=255 {
            if self.ignores(byte) {
                ignored = ignored.saturating_add(1);
            }
        }
        came.counted(&ignored, " without a reply");
    }

    // Hands in a line of this byte alone, and returns whether it gets no reply, and the id whose reply is stored stays.
    fn ignores(&mut self, byte: u8) -> bool {
        let kept = self.instrument.kept_id();
        let mut line = Line::new();
        let _ = line.try_push(byte);
        self.instrument.on_line(&line).is_none() && self.instrument.kept_id() == kept
    }

    // Plays a row of one word: restarts the instrument, reports a part of its state, or hands in lines of one byte.
    fn play_word(&mut self, word: &str, came: &mut Told) {
        match word {
            "restart" => self.instrument.restart(),
            "settings" => self.tell_settings(came),
            "face" => came.debug(&self.instrument.face()),
            "pointing" => self.tell_pointing(came),
            "single_bytes" => self.take_single_bytes(came),
            _ => came.text("an unknown word"),
        }
    }

    // Reports the reflector's height in metres, the precision and the prism type.
    fn tell_settings(&self, came: &mut Told) {
        came.titled("height ", &self.instrument.height());
        came.titled(" precision ", &self.instrument.precision());
        came.titled(" prism ", &self.instrument.prism());
    }

    // Reports where the telescope points, in radians.
    fn tell_pointing(&self, came: &mut Told) {
        let pointing = self.instrument.pointing();
        came.titled("hz ", &pointing.hz);
        came.titled(" v ", &pointing.v);
    }
}

impl Rows for Instruments {
    // Plays a row: `line`, `execute`, `twice` or `embedded` with bytes, `target` or `instrument` with words, or a word of
    // `play_word`.
    fn play(&mut self, row: Row<'_>, came: &mut Told) {
        match row.word {
            "line" => hand_in(&mut self.instrument, row.bytes, came),
            "execute" => self.execute(row.bytes, came),
            "target" => self.add_target(row.what, came),
            "instrument" => self.make(row.what, came),
            "twice" => ask_twice(row.bytes, came),
            "embedded" => tell_embedded(row.bytes, came),
            word => self.play_word(word, came),
        }
    }
}

// The target of three words: its direction, its vertical angle and its distance. `None`: a word is no decimal.
fn target_of(words: &str) -> Option<Target> {
    let (hz, rest) = cut_word(words);
    let (v, distance) = cut_word(rest);
    Some(Target {
        hz: Decimal::read(hz.as_bytes()).ok()?,
        v: Decimal::read(v.as_bytes()).ok()?,
        distance: Decimal::read(distance.as_bytes()).ok()?,
    })
}

/// Hands in a line, and reports the reply (`tell_reply`) and the id whose reply the instrument has stored then, or that it has
/// none.
pub fn hand_in(instrument: &mut Instrument, bytes: &[u8], came: &mut Told) {
    tell_reply(instrument, bytes, came);
    match instrument.kept_id() {
        Some(id) => came.titled(", kept ", &id),
        None => came.text(", none kept"),
    }
}

// Hands in a line, and reports the reply, or that there is none. More bytes than a line has aren't handed in, which is reported.
fn tell_reply(instrument: &mut Instrument, bytes: &[u8], came: &mut Told) {
    let mut line = Line::new();
    if line.try_extend_from_slice(bytes).is_err() {
        return came.text("more bytes than a line has");
    }
    match instrument.on_line(&line) {
        Some(reply) => came.bytes(reply.as_slice()),
        None => came.text("no reply"),
    }
}
