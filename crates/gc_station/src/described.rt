//! What replies say of procedures that a station's text describes, by the forms of their descriptions.

ghost use Rattle.gc_lines.specs.Replies.{ReplyFields, IsReply, reply_seen};
ghost use Rattle.gc_station.specs.Saying.{IsSaid, IsSaidInForm};
ghost use Rattle.gc_catalogue.specs.declared.asked.Asked.{Asked};
ghost use Rattle.gc_client.specs.Settlements.{ReadsBy};
ghost use Rattle.gc_texts.specs.Zeroed.{as_zero};
ghost use Rattle.std.specs.Prelude.{Some};

use gc_catalogue::Reading;
use gc_lines::{Line, Reply, read_reply};
use gc_texts::Form;

// What a reply says by a form: `ComFault` if its communication code isn't 0, else `Refused` if its return code isn't 0, else what its
// parameters say.
fn reply_reading(form: &Form, reply: &Reply<'_>) -> Reading
    ensures { IsSaidInForm form.now (reply_seen reply.now) result }
{
    if reply.rc_com != 0 {
        return Reading::ComFault(reply.rc_com);
    }
    if reply.rc != 0 {
        return Reading::Refused(reply.rc);
    }
    form.reading(reply.params)
}

/// What the line of a reply says by a form. If the line is no reply: `Refused(0)`. (The contract doesn't say so.)
pub(crate) fn line_reading(form: &Form, line: &Line) -> Reading
    ensures { (r : ReplyFields) → IsReply line.now.items r → IsSaidInForm form.now r result }
{
    match read_reply(line.as_slice()) {
        Ok(reply) => reply_reading(form, &reply),
        Err(_) => Reading::Refused(0),
    }
}

/// What the line of a reply would say by a form with return code 0. If the line is no reply: `Refused(0)`. (The contract doesn't say so.)
pub(crate) fn line_reading_as_zero(form: &Form, line: &Line) -> Reading
    ensures { (r : ReplyFields) → IsReply line.now.items r → (call : Asked) → ReadsBy (IsSaid (Some form.now)) call (as_zero line.now.items) result }
{
    match read_reply(line.as_slice()) {
        Ok(reply) => reply_reading(form, &Reply { rc: 0, ..reply }),
        Err(_) => Reading::Refused(0),
    }
}
