//! The beginning: eight null procedures before the first command, each of which is sent again with its id until it is answered.

ghost use Rattle.std.specs.Prelude.{◌≡◌, ◌<◌, ◌≤◌, ◌↔◌, true, false, [], length, drop, Some, None, IfSome, MatchOption};
ghost use Rattle.gc_lines.specs.Lines.{IsPlain};
ghost use Rattle.gc_client.specs.Beginning.{the_word, asks, is_answered, left_by};
ghost use Rattle.gc_client.specs.Rule.{heard};

use gc_catalogue::{Call, encode_call};
use gc_lines::{Line, read_reply};
use std::marker::Model;

/// The ids of a beginning's null procedures, in order.
pub const WORD: [u8; 8] = [6, 5, 4, 3, 2, 1, 0, 7];

/// A beginning: eight null procedures, one after the other, before a new [`Client`](crate::Client) sends its first command.
///
/// It discards by ids what is in flight from before, so no quiet time is needed. The caller has a clock and a connection:
///
/// 1. Where the connection is new, write a line feed, which clears half a request.
/// 2. Write the line of `ask`, with CR LF, and read until a deadline. Hand each line that came to `hear`.
/// 3. Where the deadline passed without an answer, write the line of `ask` again: it has the same id. Where the connection
///    fails, keep the beginning, and go on at 1 over a new connection.
/// 4. Where `hear` returned true, go on at 2 with the next null procedure. Once `has_begun`, make the client and send: its first
///    id is 0.
///
/// The connection has to keep its lines in order; it may lose, delay or repeat any of them in place. Nothing from before is
/// in flight once it has begun, unless [`WORD`] is a subsequence of the ids that were in flight at the start: those of the
/// replies, and after them those of the requests.
#[derive(Drop)]
pub struct Beginning {
    answered: usize,
}

// In contracts a beginning is the list of the ids whose null procedures aren't answered yet, in order.
impl Model for Beginning {
    ghost use Rattle.std.specs.Prelude.{◌≤◌, ℕ, List, drop};
    ghost use Rattle.gc_client.specs.Beginning.{the_word};

    ghost Value = { List ℕ };

    ghost view = { λ b. drop b.answered the_word };

    ghost invariant = { λ b. b.answered ≤ 8 };
}

impl Beginning {
    /// Begins: no null procedure is answered.
    pub fn new() -> Beginning
        ensures { result ≡ the_word }
    {
        Beginning { answered: 0 }
    }

    /// Resumes a beginning whose first `answered` null procedures, of eight, are answered.
    pub fn resume(answered: usize) -> Beginning
        requires { answered ≤ 8 }
        ensures { result ≡ drop answered the_word }
    {
        Beginning { answered }
    }

    /// How many null procedures are answered, of eight.
    pub fn answered(&self) -> usize
        ensures answered { self.now ≡ drop result the_word }
        ensures within { result ≤ 8 }
    {
        self.answered
    }

    /// Whether all eight null procedures are answered.
    pub fn has_begun(&self) -> bool
        ensures { (result ≡ true) ↔ (self.now ≡ []) }
    {
        self.answered == WORD.len()
    }

    /// The line of the first null procedure that isn't answered, without CR LF. `None`: all are answered.
    pub fn ask(&self) -> Option<Line>
        ensures line { MatchOption result (asks self.now ≡ None) (λ line. asks self.now ≡ Some line.items) }
        ensures plain { IfSome result (λ line. IsPlain line.items) }
    {
        let id = WORD.get(self.answered)?;
        Some(encode_call(Some(*id), &Call::NullProc))
    }

    /// Takes a line that came, without its CR LF, and returns whether it answers the first null procedure that isn't answered yet: a
    /// reply with the id of that null procedure does, whatever its codes and parameters are. Every other line is ignored, and so are
    /// lines of more than 512 bytes, and all lines once all null procedures are answered.
    pub fn hear(&mut self, line: &[u8]) -> bool
        ensures left { length line.now ≤ 512 → self.new ≡ left_by self.old (heard line.now) }
        ensures answers { length line.now ≤ 512 → result ≡ is_answered self.old (heard line.now) }
        ensures overlong { 512 < length line.now → (result ≡ false) × (self.new ≡ self.old) }
    {
        if line.len() > 512 {
            return false;
        }
        let Some(asked) = WORD.get(self.answered) else {
            return false;
        };
        match read_reply(line) {
            Ok(reply) if reply.id == Some(*asked) => {
                self.answered += 1;
                true
            }
            _ => false,
        }
    }
}
