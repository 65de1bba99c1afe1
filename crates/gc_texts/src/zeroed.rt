//! Reads the parameters of a reply whose return code is a warning, as they are read of a reply with return code 0.

ghost use Rattle.std.specs.Prelude.{IfSome, ℕ};
ghost use Rattle.gc_lines.specs.Replies.{ReplyFields, IsReply};
ghost use Rattle.gc_catalogue.specs.Asked.{IsAskedReading};
ghost use Rattle.gc_client.specs.Settlements.{ReadsBy};
ghost use Rattle.gc_texts.specs.Zeroed.{as_zero};

use gc_catalogue::{Asked, Asking, Reading};
use gc_lines::{Line, Reply, read_reply};

/// Reads a reply's line as the answer to `asked`, with its return code taken for 0. If the line is no reply, returns `Refused(0)`.
/// (The contract doesn't say so.)
pub fn reading_as_zero(asked: &Asked, line: &Line) -> Reading
    ensures { (r : ReplyFields) → IsReply line.now.items r → ReadsBy IsAskedReading asked.now (as_zero line.now.items) result }
{
    match read_reply(line.as_slice()) {
        Ok(reply) => {
            let zeroed = Reply { rc: 0, ..reply };
            let mut reading = Reading::Refused(0);
            asked.read_into(&zeroed, &mut reading);
            reading
        }
        Err(_) => Reading::Refused(0),
    }
}
