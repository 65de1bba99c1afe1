//! Events: what may happen on the line between a client and an instrument.

use gc_catalogue::Call;

/// Something that happens, or is tried. A line in flight is its bytes with CR LF: it is in flight until its last byte goes
/// over, and is handed over with that byte. The lines of a queue are counted from its front: there is the line that was written
/// first, and its bytes go first.
#[derive(Clone, Copy, Debug)]
pub enum Event {
    /// The client sends this call to this target, with this deadline. If its window is full it refuses, and nothing is sent.
    Send(u32, Call, u64),
    /// What remains of the line at the front of the upward queue reaches the instrument, and its reply goes to the back of
    /// the downward one. Not possible where no line is in flight upward.
    UpDeliver,
    /// The next bytes upward reach the instrument: this many, or all that are in flight if those are fewer. Each line that
    /// they complete is answered as at `UpDeliver`, in order. Not possible where the number is 0 or no byte is in flight.
    UpBytes(usize),
    /// The line at this place of the upward queue, counted from 0, is lost; not possible where there is none, or once its first byte
    /// has gone.
    UpLose(usize),
    /// The line at this place of the upward queue, counted from 0, comes twice, the second time directly after the first; not
    /// possible where there is none, or once its first byte has gone.
    UpRepeat(usize),
    /// What remains of the line at the front of the downward queue reaches the client. Not possible where no line is in
    /// flight downward.
    DownDeliver,
    /// The next bytes downward reach the client, as those of `UpBytes` reach the instrument.
    DownBytes(usize),
    /// The line at this place of the downward queue, counted from 0, is lost; not possible where there is none, or once its first
    /// byte has gone.
    DownLose(usize),
    /// The line at this place of the downward queue, counted from 0, comes twice, the second time directly after the first; not
    /// possible where there is none, or once its first byte has gone.
    DownRepeat(usize),
    /// The client gets this moment, and times out each outstanding request whose deadline is at most this moment.
    Expire(u64),
    /// The client is restarted, and the instrument with it; possible only with no line in flight.
    RestartClient,
    /// The instrument alone is restarted; possible only with no line in flight.
    RestartInstrument,
}
