//! Commands that a station doesn't send: one that is recorded as skipped or missed, and further attempts that aren't needed.

ghost use Rattle.std.specs.Prelude.{◌≡◌, ◌<◌, ◌≤◌, length, OnOk, false};
ghost use Rattle.gc_links.specs.Acts.{Told};
ghost use Rattle.gc_texts.specs.Endings.{ending_seen};
ghost use Rattle.gc_station.specs.Records.{WritesMore};
ghost use Rattle.gc_station.specs.Model.{end_unsent, unsent_record};
ghost use Rattle.gc_station.specs.Stations.{MakesMoveAlone, Moves, as_seen, station_advancing, station_skipping};
ghost use Rattle.gc_station.specs.Writing.{KeepsBook};
ghost use Rattle.gc_station.specs.declared.progress.Action.TheVariants.{Skip, Pass};

use super::Station;
use crate::book::Book;
use crate::plan::Plan;
use gc_lines::PortFailed;
use gc_links::{Link, Moment};
use gc_texts::{Ending, Stamp, Task};

impl Station {
    // Reads the clock (`read_moment`), records the next command without sending it, and notes that it had its turn. If the clock
    // can't be read, nothing is written. `Err`: the book failed at the record.
    pub(super) fn skip<L: Link, B: Book>(
        &mut self,
        link: &mut L,
        book: &mut B,
        plan: &Plan,
        commands: &[Task],
    ) -> Result<(), PortFailed>
        requires unsent { 0 < self.old.progress.unsent }
        requires within { self.old.progress.unsent ≤ length commands.now }
        ensures does { Moves plan.now commands.now Skip
            (as_seen (L.acts link.old) (B.text book.old) (B.taken book.old) self.old)
            (as_seen (L.acts link.new) (B.text book.old) (B.taken book.new) self.new) result }
        ensures kept { KeepsBook B.Book book.old book.new result }
    {
        match self.read_moment(link) {
            Some(moment) => {
                if let Err(failed) = self.write_unsent(book, plan, commands, moment) {
                    return Err(failed);
                }
                self.advance_unsent(plan, commands, 1, moment);
                Ok(())
            }
            None => Ok(()),
        }
    }

    // Reads the clock (`read_moment`), and leaves out the further attempt that the next command begins, and those of its chain
    // after it. If the clock can't be read, nothing is left out.
    pub(super) fn leave_out<L: Link>(&mut self, link: &mut L, plan: &Plan, commands: &[Task])
        ensures { MakesMoveAlone plan.now commands.now Pass (L.acts link.old) (L.acts link.new) self.old self.new }
    {
        if let Some(moment) = self.read_moment(link) {
            let count = self.progress.next_others;
            self.advance_unsent(plan, commands, count, moment);
        }
    }

    // Notes `moment`, that the next `count` commands of the cycle had their turn by then without being sent, and whether the
    // cycle was done early.
    fn advance_unsent(&mut self, plan: &Plan, commands: &[Task], count: usize, moment: Moment)
        ensures { self.new ≡ station_advancing plan.now commands.now count moment self.old }
    {
        let waiting = self.commands_waiting();
        let next = self.upcoming_after(plan, count, commands);
        self.progress.note_moment_meanwhile(moment);
        self.progress.advance(count, next, false);
        self.progress.note_early(plan, waiting);
    }

    // How the next command ends if it isn't sent: as missed if its cycle is missed, as without a value if one that it takes of a file isn't
    // there, otherwise as skipped.
    fn ending_unsent<'a>(&self) -> Ending<'a>
        ensures { ending_seen result ≡ end_unsent self.now.progress }
    {
        if self.progress.missed {
            Ending::Missed
        } else if self.progress.lacks_value() {
            Ending::NoValue
        } else {
            Ending::Skipped
        }
    }

    // Writes the record of the next command, which isn't sent, with the ending that `ending_unsent` gives, and notes that in
    // `recorded`. `Err`: the book failed at the record, and nothing is noted.
    fn write_unsent<B: Book>(
        &mut self,
        book: &mut B,
        plan: &Plan,
        commands: &[Task],
        moment: Moment,
    ) -> Result<(), PortFailed>
        requires unsent { 0 < self.old.progress.unsent }
        requires within { self.old.progress.unsent ≤ length commands.now }
        ensures wrote { WritesMore (B.text book.old) (B.taken book.old) (B.taken book.new) (unsent_record plan.now commands.now self.old.progress (Told moment)) result }
        ensures after { OnOk result (self.new ≡ station_skipping plan.now commands.now moment self.old) }
        ensures kept { KeepsBook B.Book book.old book.new result }
    {
        let mark = self.mark(plan, commands);
        let task = &commands[self.place(commands)];
        let stamp = Stamp {
            sent: None,
            id: mark.id,
            utc: self.progress.unsent_at(moment),
            cycle: mark.cycle,
            place: mark.place,
            turn: mark.expected.turn,
        };
        let ending = self.ending_unsent();
        if let Err(failed) = book.write(stamp, &task.command, ending) {
            return Err(failed);
        }
        self.recorded.note(&mark, moment, None, ending);
        Ok(())
    }
}
