//! What a client can ask: any type whose values have a request line, and with which a reply can be read.

ghost use Rattle.std.specs.Prelude.{◌≡◌, []};
ghost use Rattle.gc_lines.specs.Headers.{MayBeId};
ghost use Rattle.gc_lines.specs.Lines.{IsPlain};
ghost use Rattle.gc_lines.specs.Replies.{reply_seen};
ghost use Rattle.gc_catalogue.specs.Calls.{IsFitting};
ghost use Rattle.gc_catalogue.specs.Readings.{IsReading};
ghost use Rattle.gc_catalogue.specs.Texts.{request_line};
ghost use Rattle.gc_catalogue.specs.declared.call.Call.TheVariants.{NullProc};

use crate::answer::Reading;
use crate::call::Call;
use crate::replies::decode_answer_into;
use crate::requests::encode_call_onto;
use gc_lines::{Line, Reply};

/// What a client can ask. Ids, windows and settlements are the same for every type with this trait, which says what the request line
/// of a value is, and how a reply is read.
pub trait Asking: Copy + Drop {
    ghost use Rattle.std.specs.Prelude.{ℕ, List, Option};
    ghost use Rattle.gc_lines.specs.Replies.{ReplyFields};
    ghost use Rattle.gc_catalogue.specs.declared.answer.Reading.{Reading};

    /// A value for a place in which nothing has been put yet.
    ghost blank: { Self };

    /// The request line, with an id or without one.
    ghost line: { Option ℕ → Self → List ℕ };

    /// The reply has this reading for what was asked.
    ghost says: { Self → ReplyFields → Reading → Type 0 };

    /// The values of the request are within their ranges.
    ghost is_fitting: { Self → Type 0 };

    /// A value for a place in which nothing has been put yet.
    fn blank() -> Self
        ensures { result ≡ blank };

    /// Writes the request line, without its CR LF, with the id, 0 to 7, or without one, into `out`, which has to be empty.
    fn write_onto(&self, out: &mut Line, id: Option<u8>)
        requires id { MayBeId id }
        requires empty { out.old.items ≡ [] }
        ensures line { out.new.items ≡ line id self.now }
        ensures plain { IsPlain (line id self.now) }
        ensures fitting { is_fitting self.now };

    /// Reads what a reply says in answer to this request, into `reading`.
    fn read_into(&self, reply: &Reply<'_>, reading: &mut Reading)
        ensures { says self.now (reply_seen reply.now) reading.new };
}

impl Asking for Call {
    ghost blank = { NullProc };

    ghost line = { request_line };

    ghost says = { IsReading };

    ghost is_fitting = { IsFitting };

    #[inline(always)]
    fn blank() -> Call {
        Call::NullProc
    }

    #[inline(always)]
    fn write_onto(&self, out: &mut Line, id: Option<u8>) {
        encode_call_onto(out, id, self);
    }

    #[inline(always)]
    fn read_into(&self, reply: &Reply<'_>, reading: &mut Reading) {
        decode_answer_into(self, reply, reading);
    }
}
