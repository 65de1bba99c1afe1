//! The answer whose quantities and items a record has.

ghost use Rattle.std.specs.Prelude.{◌≡◌, Some, IfSome, option_map};
ghost use Rattle.gc_rows.specs.Columns.{counted_answer};
ghost use Rattle.gc_texts.specs.Endings.{ending_seen, line_of};

use gc_catalogue::Answer;
use gc_lines::Line;
use gc_texts::{Ending, Quality};

/// The answer of an ending whose quantities and items a record has, and the line in which it came. `None`: the ending isn't `Answered`, has
/// no answer, or one that is unconfirmed.
pub(crate) fn counted_answer<'a>(ending: Ending<'a>) -> Option<(&'a Answer, &'a Line)>
    ensures answer { option_map (λ a. a.0.now) result ≡ counted_answer (ending_seen ending.entry) }
    ensures line { IfSome result (λ a. line_of (ending_seen ending.entry) ≡ Some a.1.now.items) }
{
    match ending {
        Ending::Answered(Quality::Unconfirmed, ..) => None,
        Ending::Answered(_, Some(answer), reply) => Some((answer, reply)),
        _ => None,
    }
}
