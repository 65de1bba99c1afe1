//! Doubts. A stray that can't repeat the reply that settled last shows that a line was altered: the stray, or the line that settled
//! last. The book is told of it. A sign-on shows that the instrument was switched on or off, and so may an answer whose values the text
//! didn't expect. After any of the three, and after a busy answer (`busy.rt`), nothing is sent before the next synchronization
//! (`has_room` of an exchange), after which the setup comes first.

ghost use Rattle.std.specs.Prelude.{◌≡◌, false};
ghost use Rattle.gc_session.specs.Lines.{calls_for_renewal};
ghost use Rattle.gc_station.specs.Progressing.{doubt_noted};

use crate::book::Book;
use crate::station::Station;
use gc_session::raises_doubt;
use gc_texts::is_sign_on;

impl Station {
    // Notes whether a line that its client is about to hear raises a doubt, of which it tells the book, or has a sign-on in it; and that no
    // command that the line ends was recorded yet as unexpected, or by a busy answer.
    pub(crate) fn doubt<B: Book>(&mut self, book: &mut B, line: &[u8])
        ensures notes { self.new ≡ record self.old {
          progress = doubt_noted (calls_for_renewal self.old.client.ids line.now) self.old.progress;
          recorded = record self.old.recorded { unexpected = false; busy = 0 };
        } }
        ensures taken { B.taken book.new ≡ B.taken book.old }
        ensures failed { B.failed book.new ≡ B.failed book.old }
        ensures form { B.text book.new ≡ B.text book.old }
    {
        let raised = raises_doubt(&self.client, line);
        let starts = is_sign_on(line);
        self.progress.exchange.note_doubt(raised || starts);
        self.recorded.unexpected = false;
        self.recorded.busy = 0;
        if raised {
            book.doubts(self.progress.exchange.last_ended);
        }
    }
}
