//! What the calls for an instrument return, in plain fields.

ghost use Rattle.std.specs.Prelude.{◌≡◌, ◌≤◌, length};
ghost use Rattle.geocom_instrument_c.specs.Feeding.{IsSent, IsWithoutReply};

use crate::header::REPLY_ROOM;

/// What `geocom_instrument_init` returns.
#[repr(C)]
#[derive(Clone, Copy)]
pub struct GeocomMade {
    /// 0, or the fault for which the scene was refused.
    pub fault: u32,
    /// The number of the scene's faulty line, from 1 on; 0 without a fault, or if the fault names no line.
    pub line: u32,
}

/// What `geocom_instrument_feed` returns. After a fault all other fields are 0.
#[repr(C)]
#[derive(Clone, Copy)]
pub struct GeocomReplied {
    /// How many bytes of the feed were used.
    pub used: usize,
    /// The moment at which the reply goes out, in milliseconds of the caller's clock; 0 if there is no reply.
    pub due: u64,
    /// 0, or the fault that no instrument is there.
    pub fault: u32,
    /// How many bytes of `reply` are used; 0 if there is no reply.
    pub count: u32,
    /// The reply, with its CR LF.
    pub reply: [u8; REPLY_ROOM],
}

impl GeocomReplied {
    /// The result of a feed that used this many bytes and got no reply, with this fault, or 0 if there is none.
    pub(crate) fn without_reply(fault: u32, used: usize) -> GeocomReplied
        ensures { IsWithoutReply fault used result }
    {
        GeocomReplied {
            used,
            due: 0,
            fault,
            count: 0,
            reply: [0; REPLY_ROOM],
        }
    }

    /// The result of a feed that used this many bytes, and got this reply of at most 514 bytes, with its CR LF, which goes out at
    /// the moment `due`, in milliseconds.
    pub(crate) fn sent(used: usize, text: &[u8], due: u64) -> GeocomReplied
        requires { length text.now ≤ 514 }
        ensures { IsSent text.now used due result }
    {
        let mut reply = [0; REPLY_ROOM];
        reply[..text.len()].copy_from_slice(text);
        GeocomReplied {
            used,
            due,
            fault: 0,
            count: text.len() as u32,
            reply,
        }
    }
}
