//! An instrument whose replies take time, served to callers. The reading end of their connection records when bytes came, and
//! the writing end waits until a reply is to be sent (`caller.rt`).

ghost use Rattle.std.specs.Prelude.{◌≡◌};
ghost use Rattle.gc_lines.specs.Answering.{AppendsAnswer, GrowsByAnswer, HasRoomForAnswer};
ghost use Rattle.gc_lines.specs.declared.frame.Frame.{Frame};
ghost use Rattle.gc_scenes.specs.Slow.{HearsSometime};

use crate::busy_clock::BusyClock;
use crate::simulated::Simulates;
use gc_lines::{Answers, Lent, Outgoing, append};
use gc_scenes::SlowInstrument;
use std::marker::Model;

/// An instrument whose replies take time, and its clock.
#[derive(Drop)]
pub struct Slow<'a> {
    clock: &'a BusyClock,
    slow: SlowInstrument,
}

impl<'a> Model for Slow<'a> {
    ghost use Rattle.gc_scenes.specs.Slow.{SlowState};

    ghost Value = { SlowState };

    ghost view = { λ s. s.slow };
}

impl<'a> Slow<'a> {
    /// An instrument with its clock.
    pub fn new(clock: &'a BusyClock, slow: SlowInstrument) -> Slow<'a>
        ensures { result ≡ slow }
    {
        Slow { clock, slow }
    }

    // Appends the reply to a line that came at this moment of the clock (`at`, in milliseconds), with CR LF, if there is one, and returns
    // whether there is.
    fn hear(&mut self, line: &[u8], at: u64, text: &mut Outgoing) -> bool
        requires { HasRoomForAnswer text.old }
        ensures heard { AppendsAnswer (HearsSometime self.old (Frame.Line (record { items = line.now })) self.new) text.old.items text.new.items result }
        ensures bound { GrowsByAnswer text.old.items text.new.items }
    {
        if !self.slow.hear(line, at, text) {
            return false;
        }
        append(text, b"\r\n");
        true
    }
}

// A line counts as having come when the last bytes did (`BusyClock::came`). With each reply the clock gets the moment until which
// the instrument is busy.
impl<'a> Answers for Slow<'a> {
    ghost use Rattle.gc_scenes.specs.Slow.{HearsSometime};

    ghost answers = { HearsSometime };

    fn answer(&mut self, frame: Lent<'_>, text: &mut Outgoing) -> bool {
        let Lent::Line(line) = frame else {
            return false;
        };
        let clock = self.clock;
        if !self.hear(line, clock.came(), text) {
            return false;
        }
        let due = self.slow.free_from();
        clock.note_busy(due);
        true
    }
}

impl<'a> Simulates<'a> for Slow<'a> {
    ghost use Rattle.gc_scenes.specs.Slow.{slow_restarted};

    ghost restarted = { slow_restarted };

    // The clock is prepared for the next caller, too.
    fn start_anew(&mut self) {
        self.clock.begin();
        self.slow.restart();
    }

    fn clock(&self) -> Option<&'a BusyClock> {
        Some(self.clock)
    }
}
