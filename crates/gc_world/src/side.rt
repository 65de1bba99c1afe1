//! A side of the stage: the lines in flight in one direction, and the assembler that they go to.

ghost use Rattle.std.specs.Prelude.{◌≡◌, ◌+◌, ◌<◌, ◌≤◌, ◌^◌, ◌∷◌, ℕ, List, [], Some, OnOk, IsOk, length, map};
ghost use Rattle.gc_lines.specs.Assembler.{StandsFor};
ghost use Rattle.gc_lines.specs.Lines.{with_end};
ghost use Rattle.gc_world.specs.Memory.{IsNoRepeat};
ghost use Rattle.gc_world.specs.Sides.{Carries, CarriesMoreThan, ReplacesQueue, IsFlow, KeepsFlow, text_at};
ghost use Rattle.gc_world.specs.Streams.{remaining};
ghost use Rattle.gc_world.specs.Worlds.{without, doubled};

use crate::direction::Direction;
use crate::feeding::{Piece, feed_rest, feed_some};
use crate::parts::is_begun;
use crate::queue::Queue;
use crate::report::Report;
use gc_lines::{Assembler, Lent, Line};
use std::alloc::{AllocError, Global};

/// The lines in flight in one direction. Their bytes are in the report.
#[derive(Drop)]
pub struct Side {
    /// The places of these lines in the report's list, the front line's first.
    pub queue: Queue,

    /// How many bytes of the front line have gone over, CR LF included.
    pub gone: usize,

    /// The assembler at the far end.
    pub assembler: Assembler,
}

impl Side {
    /// A side with no line in flight.
    pub fn new(alloc: Global) -> Side
        ensures queue { result.queue ≡ [] }
        ensures gone { result.gone ≡ 0 }
        ensures start { StandsFor result.assembler [] }
    {
        Side {
            queue: Queue::new(alloc),
            gone: 0,
            assembler: Assembler::new(),
        }
    }

    /// How many bytes of the front line are still to go, CR LF included: 0 where no line is in flight.
    pub fn remaining<I>(&self, direction: Direction, report: &Report<I>) -> usize
        requires { (texts : List (List ℕ)) × Carries direction report.now self.now texts }
        ensures { (texts : List (List ℕ)) → Carries direction report.now self.now texts → result ≡ remaining self.now.gone (map with_end texts) }
    {
        match self.queue.front() {
            Some(place) => report.line(direction, place).len() + 2 - self.gone,
            None => 0,
        }
    }

    /// Feeds the next `n` bytes of the front line to the assembler: fewer than remain, so they don't complete the line. `cut` is
    /// left as it is (`feed_some`).
    pub fn go_on<I>(&mut self, direction: Direction, report: &Report<I>, n: usize, cut: &mut Line)
        requires { CarriesMoreThan direction report.now self.old n }
        ensures flow { KeepsFlow direction report.now self.old self.new }
        ensures gone { self.new.gone ≡ self.old.gone + n }
        ensures queue { self.new.queue ≡ self.old.queue }
    {
        let Some(place) = self.queue.front() else {
            return;
        };
        let line = report.line(direction, place).as_slice();
        feed_some(&mut self.assembler, line, self.gone, n, cut);
        self.gone += n;
    }

    /// Feeds the assembler what remains of this line, which was taken from the front of the queue, and returns the completed line.
    /// `piece` and `cut` are buffers (`feed_rest`).
    #[inline(always)]
    pub fn finish<'a>(&mut self, line: &[u8], piece: &'a mut Piece, cut: &'a mut Line) -> &'a [u8]
        requires flow { (texts : List (List ℕ)) × IsFlow self.old.assembler self.old.gone (line.now ∷ texts) }
        requires within { length line.now ≤ 512 }
        ensures line { result.now ≡ line.now }
        ensures start { StandsFor self.new.assembler [] }
        ensures gone { self.new.gone ≡ 0 }
        ensures queue { self.new.queue ≡ self.old.queue }
    {
        let frame = feed_rest(&mut self.assembler, line, self.gone, piece, cut);
        self.gone = 0;
        let Lent::Line(whole) = frame else {
            unreachable!()
        };
        whole
    }

    /// Takes line k, counted from 0 at the front, out of the queue: it is lost. If there is no line k, or its first byte has gone,
    /// only `idle` changes: it grows by one.
    pub fn lose(&mut self, k: usize, idle: &mut usize)
        requires { idle.old + 1 < 2 ^ 64 }
        ensures { ReplacesQueue k (without k self.old.queue) self.old self.new idle.old idle.new }
    {
        if is_begun(k, self.gone) || !self.queue.lose(k) {
            *idle += 1;
        }
    }

    /// Puts line k, counted from 0 at the front, in once more, directly after itself. If there is no line k, or its first byte has
    /// gone, only `idle` changes: it grows by one. `Err`: memory was refused, and nothing changes.
    pub fn repeat(&mut self, k: usize, idle: &mut usize) -> Result<(), AllocError>
        requires { idle.old + 1 < 2 ^ 64 }
        ensures changes { OnOk result (ReplacesQueue k (doubled k self.old.queue) self.old self.new idle.old idle.new) }
        ensures spare { IsNoRepeat k self.old.gone self.old.queue → IsOk result }
    {
        if is_begun(k, self.gone) || !self.queue.repeat(k)? {
            *idle += 1;
        }
        Ok(())
    }
}
