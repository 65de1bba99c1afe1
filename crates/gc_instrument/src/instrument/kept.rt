//! The stored reply: the id and the reply of the last request that carried an id and was executed, until a restart discards them.

ghost use Rattle.std.specs.Prelude.{◌≡◌, ◌≤◌, None, IfSome, length};
ghost use Rattle.std.specs.Option.{option_map};
ghost use Rattle.gc_instrument.specs.Replying.{kept_line, kept_after};
ghost use Rattle.gc_instrument.specs.State.{kept_id};

use std::marker::Model;

/// The id of a request and the line of its reply, of at most 512 bytes, or nothing. The line is written in place. Bytes of a longer
/// earlier line stay after it, since clearing them would cost each request time.
#[derive(Drop)]
pub struct Kept {
    id: Option<u8>,
    bytes: [u8; 512],
    // How many bytes the line has.
    len: usize,
}

impl Model for Kept {
    ghost use Rattle.std.specs.Prelude.{◌≤◌, Option, take};
    ghost use Rattle.gc_instrument.specs.State.{KeptReply, kept_in};

    ghost Value = { Option KeptReply };

    ghost view = { λ k. kept_in k.id (take k.len k.bytes) };

    ghost invariant = { λ k. k.len ≤ 512 };
}

impl Kept {
    /// Makes a `Kept` in which nothing is stored.
    pub fn nothing() -> Kept
        ensures { result ≡ None }
    {
        Kept {
            id: None,
            bytes: [0; 512],
            len: 0,
        }
    }

    /// The stored id. `None`: nothing is stored.
    #[tactic(auto, using(crate::proofs::Keeping::id_kept))]
    pub fn id(&self) -> Option<u8>
        ensures { result ≡ kept_id self.now }
    {
        self.id
    }

    /// Discards the id and the line.
    pub fn forget(&mut self)
        ensures { self.new ≡ None }
    {
        self.id = None;
    }

    /// The stored line, if it is stored with this id. `None`: `id` is `None`, nothing is stored, or the stored id is another one.
    #[tactic(auto, using(crate::proofs::Keeping::none_asked, crate::proofs::Keeping::none_kept, crate::proofs::Keeping::same_kept, crate::proofs::Keeping::other_kept))]
    #[inline]
    pub fn line_of(&self, id: Option<u8>) -> Option<&[u8]>
        ensures line { option_map (λ r. r.now) result ≡ kept_line self.now id }
        ensures within { IfSome result (λ r. length r.now ≤ 512) }
    {
        let asked = id?;
        let kept = self.id?;
        if kept == asked {
            Some(&self.bytes[..self.len])
        } else {
            None
        }
    }

    /// Stores a request's id and the line of its reply, at most 512 bytes, in place of those stored before. Without an id nothing changes.
    #[inline]
    pub fn keep(&mut self, id: Option<u8>, line: &[u8])
        requires { length line.now ≤ 512 }
        ensures { self.new ≡ kept_after self.old id line.now }
    {
        if id.is_some() {
            self.id = id;
            self.bytes[..line.len()].copy_from_slice(line);
            self.len = line.len();
        }
    }
}
