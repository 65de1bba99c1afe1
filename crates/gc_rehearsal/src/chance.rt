//! What happens by chance on a rehearsed line: the trait `Chance` decides.

ghost use Rattle.std.specs.Prelude.{◌≤◌, length};

use arrayvec::ArrayVec;

/// The bytes of a line as they arrive: of a line of 512 bytes and its CR LF at most two for each.
pub type Altered = ArrayVec<u8, 1028>;

/// What happens to a line that is sent: to a request when it is written, or to a reply when the instrument has made it.
#[derive(Clone, Copy)]
pub struct Fate {
    /// Whether it is lost, and doesn't arrive. If not, it may be lost all the same: by a cut or a close, or where memory is
    /// refused.
    pub lost: bool,
    /// Whether it arrives twice, the second time directly after the first, unless memory is refused for the second copy. Without
    /// effect on a line that is lost or cut: `lost` and a request's `closes` decide first.
    pub repeated: bool,
    /// How long it is in flight, in milliseconds. It takes longer if an earlier line of its direction arrives later than that, or if lines
    /// are held up (`hold`).
    pub delay: u64,
    /// For how many milliseconds no line that is sent from now on, this one included, arrives, in either direction. 0: it holds
    /// no line up. An earlier hold that lasts longer stays. Without effect at a request that is cut.
    pub hold: u64,
    /// Whether the connection closes. A request is cut, and doesn't arrive; at a reply the other end closes when the reply would
    /// have arrived. Without effect at a reply that is sent while the station has no connection.
    pub closes: bool,
}

/// Decides what happens on a line. No theorem depends on its decisions.
pub trait Chance {
    /// What happens to the next line that is sent. Called once for each request that is written over a connection, and once for each
    /// request that reaches the instrument, about its reply, even if it makes none.
    fn fate(&mut self) -> Fate;

    /// What happens to a reply that the instrument sends late, after it had said busy. Called once for each.
    fn late_fate(&mut self) -> Fate;

    /// The bytes of a line, with its CR LF, as they arrive: some may be altered. Called once for each line of a link that alters bytes,
    /// after the line's fate was taken, unless the line is lost or cut.
    fn alter(&mut self, bytes: &[u8]) -> Altered
        requires { length bytes.now ≤ 514 };

    /// Where a request is cut: how many of its bytes are sent before the connection closes. As many as the request has, or more, count
    /// as all but one.
    fn cut_place(&mut self) -> usize;

    /// Whether the lines in flight in one direction outlive a close and arrive later; else all of them are lost. Called twice
    /// each time the station closes the link: for the requests, and then for the replies.
    fn keeps(&mut self) -> bool;

    /// For how many milliseconds from now on no connection can be made. Called when a connection is wanted and no earlier refusal lasts.
    /// 0: the connection is made.
    fn refusal(&mut self) -> u64;

    /// Whether the instrument restarts before the next request reaches it. Called once for each request that does.
    fn restarts(&mut self) -> bool;
}
