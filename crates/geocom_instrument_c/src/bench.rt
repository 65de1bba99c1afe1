//! An instrument over bytes: that of a scene, and the bytes of an incomplete line. What a feed and a restart do is here, and what
//! setting up does in `setting.rt`; `exports.rt` makes them callable from C.

ghost use Rattle.std.specs.Prelude.{◌≡◌, [], None};
ghost use Rattle.gc_lines.specs.Assembler.{StandsFor};
ghost use Rattle.gc_lines.specs.Lent.{lent_seen};
ghost use Rattle.geocom_instrument_c.specs.Feeding.{HearsAndAnswers, IsFed, IsFedTo};
ghost use Rattle.geocom_instrument_c.specs.Setting.{IsRestarted, IsBenchRestarted};

use crate::header::{NO_INSTRUMENT, REPLY_ROOM};
use crate::replied::GeocomReplied;
use arrayvec::ArrayVec;
use gc_lines::{Assembler, Lent, Line, append};
use gc_scenes::SlowInstrument;
use std::marker::Model;

/// The instrument of a scene at the end of a stream of bytes.
#[derive(Drop)]
pub(crate) struct Bench {
    slow: SlowInstrument,
    assembler: Assembler,
}

impl Model for Bench {
    ghost use Rattle.geocom_instrument_c.specs.Bench.{BenchState};

    ghost Value = { BenchState };

    ghost view = { λ b. record { slow = b.slow; incomplete = b.assembler } };
}

impl Bench {
    /// The instrument at the start of a stream.
    pub(crate) fn new(slow: SlowInstrument) -> Bench
        ensures slow { result.slow ≡ slow }
        ensures start { StandsFor result.incomplete [] }
    {
        Bench {
            slow,
            assembler: Assembler::new(),
        }
    }

    // Takes bytes that came at the moment `now`, in milliseconds, through the first line feed, and returns the reply to the line
    // that it ends, if there is one. Without a line feed all bytes are used, as part of the line that a later one ends, and there
    // is no reply.
    fn feed(&mut self, bytes: &[u8], now: u64) -> GeocomReplied
        ensures { IsFedTo self.old bytes.now now self.new result }
    {
        let mut cut = Line::new();
        let (used, frame) = self.assembler.next(bytes, &mut cut);
        answer(&mut self.slow, frame, now, used)
    }

    // Restarts the instrument, and discards the bytes of an incomplete line.
    fn restart(&mut self)
        ensures { IsBenchRestarted self.old self.new }
    {
        self.slow.restart();
        self.assembler = Assembler::new();
    }
}

// Passes the instrument the line that a frame is, if it is one, at the moment `now`, in milliseconds. Returns the result of a
// feed that used this many bytes (`used`): it has the instrument's reply with CR LF, if there is one, and when that goes out.
fn answer(slow: &mut SlowInstrument, frame: Lent<'_>, now: u64, used: usize) -> GeocomReplied
    ensures { HearsAndAnswers slow.old (lent_seen frame.entry) now slow.new used result }
{
    let Lent::Line(line) = frame else {
        return GeocomReplied::without_reply(0, used);
    };
    let mut text: ArrayVec<u8, REPLY_ROOM> = ArrayVec::new();
    if !slow.hear(line, now, &mut text) {
        return GeocomReplied::without_reply(0, used);
    }
    append(&mut text, b"\r\n");
    GeocomReplied::sent(used, text.as_slice(), slow.free_from())
}

/// An instrument over bytes, or none: before it is set up, or if its scene was refused.
#[derive(Drop)]
pub struct GeocomInstrument {
    pub(crate) bench: Option<Bench>,
}

impl Model for GeocomInstrument {
    ghost use Rattle.std.specs.Prelude.{Option};
    ghost use Rattle.geocom_instrument_c.specs.Bench.{BenchState};

    ghost Value = { Option BenchState };

    ghost view = { λ i. i.bench };
}

impl GeocomInstrument {
    /// No instrument.
    pub(crate) fn none() -> GeocomInstrument
        ensures { result ≡ None }
    {
        GeocomInstrument { bench: None }
    }

    /// Takes bytes that came at the moment `now`, in milliseconds, through the first line feed, and returns the reply to the line
    /// that it ends, if there is one. Without a line feed all bytes are used, and there is no reply. Without an instrument no
    /// byte is used, and the result has the fault that there is none.
    pub(crate) fn feed(&mut self, bytes: &[u8], now: u64) -> GeocomReplied
        ensures { IsFed self.old bytes.now now self.new result }
    {
        let Some(bench) = &mut self.bench else {
            return GeocomReplied::without_reply(NO_INSTRUMENT, 0);
        };
        bench.feed(bytes, now)
    }

    /// Restarts the instrument, and discards the bytes of an incomplete line. Returns 0, or the fault that there is no
    /// instrument.
    pub(crate) fn restart(&mut self) -> u32
        ensures { IsRestarted self.old self.new result }
    {
        let Some(bench) = &mut self.bench else {
            return NO_INSTRUMENT;
        };
        bench.restart();
        0
    }
}
