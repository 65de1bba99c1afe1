//! What the receivers at the two ends of a link read where it alters bytes: lines other than those that were sent, or none.

use crate::flight::{Flight, Origin, add};
use gc_lines::{Assembler, Frame};
use std::collections::VecDeque;

/// The receivers at the two ends of a link.
#[derive(Drop)]
pub(crate) struct Receivers {
    /// That of the instrument, for requests.
    pub up: Assembler,
    /// That of the station, for replies.
    pub down: Assembler,
}

impl Receivers {
    /// Receivers of which each is at the start of a line.
    pub fn new() -> Receivers {
        Receivers {
            up: Assembler::new(),
            down: Assembler::new(),
        }
    }
}

/// A line that was sent, and that arrives with other bytes.
#[derive(Clone, Copy)]
pub(crate) struct Sent<'a> {
    /// Its bytes as they arrive.
    pub bytes: &'a [u8],
    /// When they arrive, in milliseconds since the link was made.
    pub arrives: u64,
    /// The request that it is, or answers.
    pub origin: &'a Origin,
    /// Whether its bytes were altered; of a reply also whether those of the request were on which it was sent, or of the one that it
    /// answers.
    pub is_damaged: bool,
    /// Whether it is a reply that the instrument sent late, after it had said busy.
    pub is_late: bool,
}

/// Puts each line that a receiver reads of the bytes of a line that was sent at the back of a queue, where memory isn't refused for
/// it. Bytes behind the last line feed stay in the receiver, and come before those of the next line.
pub(crate) fn receive(queue: &mut VecDeque<Flight>, receiver: &mut Assembler, sent: &Sent<'_>) {
    let is_damaged = sent.is_damaged || !receiver.at_start();
    let mut left = sent.bytes;
    while !left.is_empty() {
        let (used, frame) = receiver.take(left);
        left = &left[used..];
        arrive(queue, frame, sent, is_damaged);
    }
}

// Puts the line of a frame at the back of a queue; nothing if the frame is no line.
fn arrive(queue: &mut VecDeque<Flight>, frame: Frame, sent: &Sent<'_>, is_damaged: bool) {
    let Frame::Line(line) = frame else {
        return;
    };
    add(
        queue,
        Flight {
            line,
            arrives: sent.arrives,
            origin: sent.origin.copy(),
            is_damaged,
            is_late: sent.is_late,
        },
    );
}
