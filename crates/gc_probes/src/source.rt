//! A source that gives the bytes of a test in pieces, and fails at the call that the test names.

ghost use Rattle.std.specs.Prelude.{◌≡◌, ◌<◌, ◌≤◌, Some, false, length, max, drop, min};
ghost use Rattle.gc_lines.specs.Ports.{GivesBytes, CountsRead, Fails};
ghost use Rattle.gc_probes.specs.Seen.{SourceSeen, ReadsAsAsked, piece_size};

use gc_lines::{PortFailed, Source};
use std::marker::Model;

/// Gives bytes in pieces of the sizes that it was made with, one for each read. A size of 0 counts as 1, and a piece is smaller
/// where the read has less room, or fewer bytes are left. After the last size each read gets as many bytes as it has room for and
/// are left.
#[derive(Drop)]
pub struct PieceSource<'a> {
    // The bytes that no read has given yet.
    left: &'a [u8],
    // The sizes of the next pieces.
    sizes: &'a [usize],
    // How many reads are answered in all.
    answers: u64,
    // How many reads were answered.
    reads: u64,
    // Whether the last answered read was the end.
    ended: bool,
    // Whether a read has failed.
    failed: bool,
}

impl<'a> Model for PieceSource<'a> {
    ghost use Rattle.gc_probes.specs.Seen.{SourceSeen};

    ghost Value = { SourceSeen };

    ghost view = { λ s. record {
      left = s.left.now;
      sizes = s.sizes.now;
      answers = s.answers;
      reads = s.reads;
      ended = s.ended;
      failed = s.failed;
    } };
}

impl<'a> PieceSource<'a> {
    /// A source of `bytes` in pieces of these sizes. It answers `answers` reads and fails from the
    /// next one on: so 0 fails at once, and `u64::MAX` never fails in a test.
    pub fn new(bytes: &'a [u8], sizes: &'a [usize], answers: u64) -> PieceSource<'a>
        ensures { result ≡ record {
          left = bytes.entry.now;
          sizes = sizes.entry.now;
          answers = answers;
          reads = 0;
          ended = false;
          failed = false;
        } }
    {
        PieceSource {
            left: bytes,
            sizes,
            answers,
            reads: 0,
            ended: false,
            failed: false,
        }
    }

    // Takes the next size off the list, and returns how many bytes the next piece has: as many as the size, at least one, but at
    // most `room`, and no more than are left. Without a size: as many as are left and fit into `room`.
    fn take_size(&mut self, room: usize) -> usize
        ensures size { result ≡ piece_size self.old.sizes (length self.old.left) room }
        ensures within { (result ≤ length self.old.left) × (result ≤ room) }
        ensures some { 0 < room → result ≡ 0 → length self.old.left ≡ 0 }
        ensures next { self.new ≡ record self.old { sizes = drop 1 self.old.sizes } }
    {
        let most = self.left.len().min(room);
        match self.sizes {
            [size, later @ ..] => {
                self.sizes = later;
                (*size).max(1).min(most)
            }
            [] => most,
        }
    }
}

impl<'a> Source for PieceSource<'a> {
    ghost remaining = { λ s. Some s.left };

    ghost reads = { λ s. s.reads };

    ghost ended = { λ s. s.ended };

    ghost failed = { λ s. s.failed };

    fn read(&mut self, buf: &mut [u8]) -> Result<usize, PortFailed>
        requires { 0 < length buf.old }
        ensures bytes { GivesBytes (Some self.old.left) (Some self.new.left) result buf.new }
        ensures counts { CountsRead self.old.reads self.new.reads self.old.ended self.new.ended result }
        ensures fails { Fails self.old.failed self.new.failed result }

        // The source gives pieces of the sizes that the test named (`piece_size`). It fails at the call that the test named,
        // at each one after it, and at no other.
        ensures told { ReadsAsAsked self.old self.new (length buf.old) result }
    {
        if self.failed || self.reads >= self.answers {
            self.failed = true;
            return Err(PortFailed);
        }
        let n = self.take_size(buf.len());
        let left = self.left;
        buf[..n].copy_from_slice(&left[..n]);
        self.left = &left[n..];
        self.reads += 1;
        self.ended = n == 0;
        Ok(n)
    }

    fn has_failed(&self) -> bool {
        self.failed
    }
}
