//! A book that stores a word for each record, as a case has it.

use crate::station::fixed_text::{note, note_number};
use crate::station::setting::Setting;
use arrayvec::ArrayVec;
use gc_lines::{PortFailed, read_reply};
use gc_links::Moment;
use gc_station::{Book, LinkHealth, Watch};
use gc_texts::{Ending, Judgement, Quality, Stamp, Wish};

/// A book that stores a word for each record: the last digits of its cycle and its place, a letter for its ending, and after the
/// letter the codes of a reply, unless both are 0, and its values; if a case is stamped, last the moment at which the request was
/// sent, if it was. A case may have it fail at one write, or at each sync after the first few.
#[derive(Drop)]
pub struct WordBook {
    /// The words of the records, for each cycle that was reported as overrun its last digit and `!`, and for each stray that shows an
    /// altered line a word with `~`, each with a blank after it. What has no room any more is left out.
    pub text: ArrayVec<u8, 256>,
    // How many writes there were.
    writes: u64,
    // The write that fails, counted from 1; 0: none.
    failing_write: u64,
    // How many syncs still succeed.
    good_syncs: u64,
    // Whether a record's word has the moment at which its request was sent.
    stamped: bool,
}

impl WordBook {
    /// A book that fails at the write with the number that the setting has as `failing_write`, counted from 1 (0: at none), and
    /// at each sync after the first `good_syncs`.
    pub fn new(setting: &Setting) -> WordBook {
        WordBook {
            text: ArrayVec::new(),
            writes: 0,
            failing_write: setting.failing_write,
            good_syncs: setting.good_syncs,
            stamped: setting.stamped,
        }
    }

    // Appends a letter, and after it what a reply's line says: its codes, unless both are 0 (`note_codes`), and its values, with
    // commas between. A line that is no reply says nothing.
    fn note_reply(&mut self, letter: &[u8], line: &[u8]) {
        note(&mut self.text, letter);
        if let Ok(reply) = read_reply(line) {
            self.note_codes(reply.rc_com, reply.rc);
            note(&mut self.text, reply.params);
        }
    }

    // Appends a reply's codes in brackets, the communication code and the return code, as `[0:1285]`; nothing if both are 0.
    fn note_codes(&mut self, rc_com: u16, rc: u16) {
        if rc_com == 0 && rc == 0 {
            return;
        }
        note(&mut self.text, b"[");
        note_number(&mut self.text, u64::from(rc_com));
        note(&mut self.text, b":");
        note_number(&mut self.text, u64::from(rc));
        note(&mut self.text, b"]");
    }

    // Appends `@` and the moment at which a record's request was sent, in milliseconds since 1970, if it was sent and the case is
    // stamped.
    fn note_sent(&mut self, sent: Option<u64>) {
        let Some(sent) = sent else { return };
        if self.stamped {
            note(&mut self.text, b"@");
            note_number(&mut self.text, sent);
        }
    }

    // Appends the last decimal digit of a number, if there is room for it.
    fn note_digit(&mut self, n: u64) {
        let _ = self.text.try_push(b'0'.wrapping_add((n % 10) as u8));
    }
}

// Contracts say nothing of what this book takes: a case compares `text`.
impl Book for WordBook {
    ghost use Rattle.std.specs.Prelude.{None, [], ◌∷◌, true};

    ghost text = { λ _ _. 0 ∷ [] };

    ghost taken = { λ _. None };

    ghost failed = { λ _. true };

    ghost is_durable = { λ _. true };

    // Appends the word of a record: the last digits of its cycle and place; the letter of its ending (at the head of
    // stations.rt), and after it what a reply's line says; and if the case is stamped, the moment at which its request was sent.
    // `Err`: this is the write that fails, and nothing is appended.
    fn write(
        &mut self,
        stamp: Stamp,
        command: &Wish,
        ending: Ending<'_>,
    ) -> Result<(), PortFailed> {
        self.writes = self.writes.saturating_add(1);
        if self.writes == self.failing_write {
            return Err(PortFailed);
        }
        self.note_digit(stamp.cycle);
        self.note_digit(stamp.place as u64);
        match ending {
            Ending::Answered(Quality::Warning, _, line) => self.note_reply(b"w", line),
            Ending::Answered(Quality::Unconfirmed, _, line) => self.note_reply(b"f", line),
            Ending::Answered(_, _, line) => self.note_reply(b"a", line),
            Ending::Unreadable(line, _) => self.note_reply(b"u", line),
            Ending::Judged(judgement, line) => self.note_reply(judged_letter(judgement), line),
            Ending::Late => note(&mut self.text, b"l"),
            Ending::Lost => note(&mut self.text, b"x"),
            Ending::Skipped => note(&mut self.text, b"s"),
            Ending::NoValue => note(&mut self.text, b"v"),
            Ending::Missed => note(&mut self.text, b"m"),
        }
        self.note_sent(stamp.sent);
        note(&mut self.text, b" ");
        Ok(())
    }

    // Uses up one of the syncs that succeed. `Err`: none is left.
    fn sync(&mut self) -> Result<(), PortFailed> {
        if self.good_syncs == 0 {
            return Err(PortFailed);
        }
        self.good_syncs -= 1;
        Ok(())
    }

    // Does nothing: no case looks at the health of the link.
    fn sees(&mut self, _health: LinkHealth, _moment: Moment) {}

    // Appends the word of the command by which the run is stale: the last digit of its place in the text's cycle, and `?`.
    fn unanswered(&mut self, watch: Watch) {
        self.note_digit(watch.place as u64);
        note(&mut self.text, b"? ");
    }

    // Appends the word of a stray that can't repeat the reply that settled last: how many requests the line that settled last had ended,
    // and `~`.
    fn doubts(&mut self, ended: usize) {
        self.note_digit(ended as u64);
        note(&mut self.text, b"~ ");
    }

    // Appends the word of a cycle that overran: its last digit, and `!`.
    fn overran(&mut self, cycle: u64) {
        self.note_digit(cycle);
        note(&mut self.text, b"! ");
    }
}

// The letter of a judgement.
fn judged_letter(judgement: Judgement) -> &'static [u8] {
    match judgement {
        Judgement::OffTarget => b"e",
        Judgement::Unexpected => b"n",
        Judgement::Disagree => b"d",
    }
}
