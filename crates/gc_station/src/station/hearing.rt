//! What a station hears: a piece, its lines, and what they settle.

ghost use Rattle.gc_lines.specs.Lent.{IsLineWithinLimit};
ghost use Rattle.gc_station.specs.Model.{piece_heard, piece_taken, piece_at};
ghost use Rattle.gc_station.specs.Stations.{MovesByReading, as_seen, KeepsToModel, frame_came};
ghost use Rattle.gc_station.specs.Writing.{KeepsBook};

use super::Station;
use crate::book::Book;
use crate::cause::Cause;
use crate::plan::Plan;
use crate::progress::Until;
use gc_lines::{Lent, Line, PortFailed};
use gc_links::{Came, Link, Moment};
use gc_session::heard_reply;

impl Station {
    // Hears the line of a frame; nothing happens if the frame is no line. Once the station has synchronized (`begun`), what the
    // line settles is recorded, after it was noted whether the line raises a doubt (`doubt`), and before it is noted whether it ended a
    // command as unexpected or by a busy answer. Until then a reply with the first id that is left answers its null procedure, and nothing is settled. `Err`:
    // the book failed at a record.
    fn hear<B: Book>(
        &mut self,
        book: &mut B,
        begun: bool,
        frame: Lent<'_>,
    ) -> Result<(), PortFailed>
        requires { IsLineWithinLimit frame }
        ensures hears { KeepsToModel (frame_came begun frame.entry) (B.text book.old) (B.taken book.old) (B.taken book.new) self.old self.new result }
        ensures kept { KeepsBook B.Book book.old book.new result }
    {
        let Lent::Line(line) = frame else {
            return Ok(());
        };
        if !begun {
            self.progress.hear_synchronizing(line);
            return Ok(());
        }
        self.doubt(book, line);
        let hearing = self.client.hear(line, &mut self.settled);
        if let Err(failed) = self.write(book) {
            return Err(failed);
        }
        self.progress.exchange.note_doubt(self.recorded.unexpected);
        self.progress
            .exchange
            .note_busy(self.progress.moment.elapsed, self.recorded.busy);
        let (is_reply, waiting) = (heard_reply(hearing), self.client.waiting());
        self.progress.exchange.note_heard(
            self.progress.moment.elapsed,
            is_reply,
            self.settled.as_slice(),
            waiting,
        );
        Ok(())
    }

    // Hears the lines of a piece, in order (`hear`). `begun`: whether the station had synchronized before the piece. So lines in
    // the piece after the last answer of a synchronization settle nothing. `Err`: the book failed at a record, and the lines after
    // it weren't heard.
    fn listen<B: Book>(&mut self, book: &mut B, begun: bool, piece: &[u8]) -> Result<(), PortFailed>
        ensures listens { KeepsToModel (piece_heard begun piece.now) (B.text book.old) (B.taken book.old) (B.taken book.new) self.old self.new result }
        ensures kept { KeepsBook B.Book book.old book.new result }
    {
        let mut cut = Line::new();
        let mut at = 0;
        while at < piece.len() {
            let (used, frame) = self.assembler.next(&piece[at..], &mut cut);
            at += used;
            if let Err(failed) = self.hear(book, begun, frame) {
                return Err(failed);
            }
        }
        Ok(())
    }

    // Hears the lines of a piece (`listen`). In a phase in which nothing is heard the piece is discarded. `Err`: the book failed
    // at a record.
    fn take_lines<B: Book>(&mut self, book: &mut B, piece: &[u8]) -> Result<(), PortFailed>
        ensures takes { KeepsToModel (piece_taken piece.now) (B.text book.old) (B.taken book.old) (B.taken book.new) self.old self.new result }
        ensures kept { KeepsBook B.Book book.old book.new result }
    {
        if !self.progress.phase.is_heard() {
            return Ok(());
        }
        let begun = self.progress.has_begun();
        self.listen(book, begun, piece)
    }

    // Takes a piece and the moment that was read after it: requests whose deadline has come time out, then the piece is heard.
    // `Err`: the book failed at a record.
    fn take_piece<B: Book>(
        &mut self,
        book: &mut B,
        plan: &Plan,
        until: Until,
        piece: &[u8],
        now: Moment,
    ) -> Result<(), PortFailed>
        ensures takes { KeepsToModel (piece_at plan.now until piece.now now) (B.text book.old) (B.taken book.old) (B.taken book.new) self.old self.new result }
        ensures kept { KeepsBook B.Book book.old book.new result }
    {
        let before = self.commands_waiting();
        self.progress.note_moment(now);
        self.expire(now.elapsed);
        if let Err(failed) = self.take_lines(book, piece) {
            return Err(failed);
        }
        let after = self.waiting();
        self.progress.note_bytes(plan, until, before, after);
        self.progress.note_early(plan, after.commands);
        Ok(())
    }

    // Reads once, and takes what came: a piece, or a silence, in which deadlines may have come. The end of the connection, a
    // failed read and a clock that can't be read are noted (`fail`): the connection is to be closed for that, and without a
    // connection the run is over for it. `Err`: the book failed at a record.
    pub(super) fn read<L: Link, B: Book>(
        &mut self,
        link: &mut L,
        book: &mut B,
        plan: &Plan,
        until: Until,
    ) -> Result<(), PortFailed>
        ensures does { MovesByReading plan.now until
            (as_seen (L.acts link.old) (B.text book.old) (B.taken book.old) self.old)
            (as_seen (L.acts link.new) (B.text book.old) (B.taken book.new) self.new) result }
        ensures kept { KeepsBook B.Book book.old book.new result }
    {
        // One read takes at most 256 bytes.
        let mut buf = [0u8; 256];
        let millis = self.read_timeout(plan, until);
        match link.read(&mut buf, millis) {
            Came::Bytes(n, moment) => self.take_piece(book, plan, until, &buf[..n], moment),
            Came::Silence(moment) => {
                self.progress.note_silence(plan, until, moment);
                self.expire(moment.elapsed);
                Ok(())
            }
            Came::End => {
                self.progress.fail(Cause::End);
                Ok(())
            }
            Came::Failure => {
                self.progress.fail(Cause::Read);
                Ok(())
            }
            Came::NoMoment => {
                self.progress.fail(Cause::Clock);
                Ok(())
            }
        }
    }
}
