//! Lines in flight, in either direction, and the queue of those of one direction.

ghost use Rattle.std.specs.Prelude.{◌≡◌, ◌≤◌, ◌<◌, ◌+◌, [], length, take, IfSome};
ghost use Rattle.gc_lines.specs.Lines.{with_end};
ghost use Rattle.gc_rehearsal.specs.Queues.{MayAdd, MayAddLine, MayRepeat};

use gc_lines::{Line, line_from};
use std::collections::VecDeque;

/// The request that a line in flight comes from: of a request in flight that request itself, and of a reply the request that it answers.
#[derive(Drop)]
pub(crate) struct Origin {
    // How many requests were put before it, null procedures apart (`LineState::number`).
    pub request: u64,
    // When it was written, in milliseconds since the link was made.
    pub sent: u64,
    // Its line without CR LF, as it was written.
    pub asked: Line,
}

impl Origin {
    /// A copy of this request, with its line.
    pub fn copy(&self) -> Origin {
        Origin {
            request: self.request,
            sent: self.sent,
            asked: line_from(self.asked.as_slice()),
        }
    }
}

/// A request that is written: how many were put before it, when it is written and when it arrives. Times are in milliseconds since
/// the link was made.
#[derive(Clone, Copy)]
pub(crate) struct Written {
    // How many requests were put before it, null procedures apart (`LineState::number`).
    pub request: u64,
    pub sent: u64,
    pub arrives: u64,
}

/// A line in flight.
#[derive(Drop)]
pub(crate) struct Flight {
    // The line without its CR LF.
    pub line: Line,
    // When it arrives, in milliseconds since the link was made.
    pub arrives: u64,
    // The request that it is, or answers.
    pub origin: Origin,
    // Whether its bytes were altered; of a reply also whether those of the request were on which it was sent, or of the one that it
    // answers.
    pub is_damaged: bool,
    // Whether it is a reply that the instrument sent late, after it had said busy.
    pub is_late: bool,
}

/// The line in these bytes, without its CR LF. `None`: the bytes don't end in CR LF, or the line has more than 512 bytes.
pub(crate) fn line_of(bytes: &[u8]) -> Option<&[u8]>
    ensures { IfSome result (λ line. (bytes.now ≡ with_end line.now) × (length line.now ≤ 512)) }
{
    let line = bytes.strip_suffix(b"\r\n")?;
    if line.len() <= 512 { Some(line) } else { None }
}

/// Puts a line at the back of a queue. If memory is refused, the line is lost.
pub(crate) fn add(queue: &mut VecDeque<Flight>, flight: Flight)
    ensures { MayAdd queue.old.items flight queue.new.items }
{
    let _ = queue.push_back(flight);
}

/// Puts the line of these bytes at the back of a queue, as the request that `written` describes. Bytes that are no line (`line_of`)
/// are lost, and so is a line for which memory is refused.
pub(crate) fn add_request(queue: &mut VecDeque<Flight>, bytes: &[u8], written: Written)
    ensures { MayAddLine queue.old.items bytes.now queue.new.items }
{
    let Some(line) = line_of(bytes) else {
        return;
    };
    let flight = Flight {
        line: line_from(line),
        arrives: written.arrives,
        origin: Origin {
            request: written.request,
            sent: written.sent,
            asked: line_from(line),
        },
        is_damaged: false,
        is_late: false,
    };
    add(queue, flight);
}

/// Puts a copy of the last line of a queue at its back. Without a line, or if memory is refused, the queue stays as it is.
pub(crate) fn repeat_last(queue: &mut VecDeque<Flight>)
    ensures { MayRepeat queue.old.items queue.new.items }
{
    let Some(last) = queue.back() else {
        return;
    };
    let again = Flight {
        line: line_from(last.line.as_slice()),
        arrives: last.arrives,
        origin: last.origin.copy(),
        is_damaged: last.is_damaged,
        is_late: last.is_late,
    };
    add(queue, again);
}

/// When the first line of a queue arrives. `None`: the queue is empty.
pub(crate) fn due(queue: &VecDeque<Flight>) -> Option<u64> {
    queue.front().map(|flight| flight.arrives)
}

/// How many bytes a line has with its CR LF.
pub(crate) fn len_with_end(line: &Line) -> usize
    ensures { result ≡ length line.now.items + 2 }
{
    line.len() + 2
}

/// Writes a line with its CR LF into the front of a buffer that has room for it.
pub(crate) fn write_into(line: &Line, buf: &mut [u8])
    requires { length line.now.items + 2 ≤ length buf.old }
    ensures bytes { take (length line.now.items + 2) buf.new ≡ with_end line.now.items }
    ensures length { length buf.new ≡ length buf.old }
{
    let n = line.len();
    buf[..n].copy_from_slice(line.as_slice());
    buf[n] = b'\r';
    buf[n + 1] = b'\n';
}
