//! Endings: how a command of a station's setup or cycle ended, and the word of each.

ghost use Rattle.std.specs.Prelude.{◌≡◌, ◌≤◌, length, option_map};
ghost use Rattle.gc_texts.specs.Endings.{ending_seen, word_of, fault_of, line_of, quality_of, quality_text};

use crate::judgement::Judgement;
use crate::quality::Quality;
use gc_catalogue::Answer;
use gc_lines::Line;
use gc_values::ValueFault;

/// How a command of a station's setup or cycle ended.
#[derive(Clone, Copy)]
pub enum Ending<'a> {
    /// Its reply came in time, with this line, and has this quality. `Some`: its values read as this answer, with both codes 0,
    /// or with an accepted return code taken for 0. `None`: the quality is `Refused`, or it is `Warning` and the values don't
    /// read.
    Answered(Quality, Option<&'a Answer>, &'a Line),
    /// Its reply came in time, with this line, whose codes are 0, and whose values don't read.
    Unreadable(&'a Line, ValueFault),
    /// Its reply came in time, with this line, whose codes are 0, or whose return code is an accepted one; but a rule of the text set it
    /// aside so.
    Judged(Judgement, &'a Line),
    /// A reply to it came after it had timed out.
    Late,
    /// No reply came, and one that still comes will be ignored.
    Lost,
    /// It wasn't sent: the command before it in its chain wasn't answered well, or after that command was sent a connection was
    /// closed or the station resynchronized.
    Skipped,
    /// It wasn't sent: a value that its request takes of a file wasn't there, because the file was too old or couldn't be read.
    NoValue,
    /// It wasn't sent: its cycle couldn't begin before the next was due.
    Missed,
}

impl<'a> Ending<'a> {
    /// The word of this ending in records: in rows of comma-separated values and in lines of JSON.
    pub fn word(self) -> &'static [u8]
        ensures is { result.now ≡ word_of (ending_seen self.entry) }
        ensures short { length result.now ≤ 16 }
    {
        match self {
            Ending::Answered(..) => b"answered",
            Ending::Unreadable(..) => b"unreadable",
            Ending::Judged(judgement, _) => judgement.word(),
            Ending::Late => b"late",
            Ending::Lost => b"lost",
            Ending::Skipped => b"skipped",
            Ending::NoValue => b"no_value",
            Ending::Missed => b"missed",
        }
    }

    /// The fault of the reply's values, if the ending is `Unreadable`.
    pub fn fault(self) -> Option<ValueFault>
        ensures { result ≡ fault_of (ending_seen self.entry) }
    {
        match self {
            Ending::Unreadable(_, fault) => Some(fault),
            _ => None,
        }
    }

    /// The quality of the command's answer, if the ending is `Answered`.
    pub fn quality(self) -> Option<Quality>
        ensures { result ≡ quality_of (ending_seen self.entry) }
    {
        match self {
            Ending::Answered(quality, ..) => Some(quality),
            _ => None,
        }
    }

    /// The word of the answer's quality in rows and in lines of JSON; empty if the ending isn't `Answered`.
    pub fn quality_text(self) -> &'static [u8]
        ensures is { result.now ≡ quality_text (quality_of (ending_seen self.entry)) }
        ensures short { length result.now ≤ 16 }
    {
        match self.quality() {
            Some(quality) => quality.word(),
            None => b"",
        }
    }

    /// The line of the command's reply, if one came in time.
    pub fn line(self) -> Option<&'a Line>
        ensures { option_map (λ line. line.now.items) result ≡ line_of (ending_seen self.entry) }
    {
        match self {
            Ending::Answered(_, _, line) | Ending::Unreadable(line, _) => Some(line),
            // The codes and values of a reply that was set aside are in the row, too.
            Ending::Judged(_, line) => Some(line),
            Ending::Late | Ending::Lost | Ending::Skipped | Ending::NoValue | Ending::Missed =>
                None,
        }
    }
}
