//! The plan: how a station measures, and when it times out.

/// What an operator chooses. Times are in milliseconds.
#[derive(Clone, Copy)]
pub struct Plan {
    /// How many requests that haven't timed out may be in flight: 1 to 7. A number outside counts as the nearest of these.
    pub width: u8,
    /// The longest deadline: after this time a null procedure times out; a command does after the time of its task. A null
    /// procedure of a synchronization is sent again after this time. After twice this time without a reply line a line is
    /// dead, once all outstanding requests have timed out.
    pub deadline: u64,
    /// How far apart the cycles are due, counted from when the first one begins, or from `first` if that is earlier; and where cycles
    /// begin by the clock, as `at` says. 0: each begins when the one before it is done. A cycle that can't begin before the next is due
    /// is missed, and one that isn't done when the cycle after the next is due is abandoned.
    pub every: u64,
    /// When the first cycle is due, by the link's clock for deadlines; a period after that clock's start, if this is later. It may
    /// begin before, unless cycles begin by the clock (`at`).
    pub first: u64,
    /// How long after whole multiples of `every`, counted from the beginning of 1970, UTC, cycles are due. `None`: a period after the
    /// last one was due. It counts for nothing where `every` is 0.
    pub at: Option<u64>,
    /// How many cycles are measured or missed.
    pub cycles: u64,
    /// The quiet time: how long the station pauses before it connects again, twice as long at each further failure, up to a
    /// minute, but never below the quiet time; and for how long nothing may come on a new connection before a command is sent on
    /// it. A synchronization doesn't wait for the quiet time.
    pub quiet: u64,
    /// How many tries the station has to reconnect before the run ends. A reply that settles a command gives all of them back;
    /// if there is a setup, only once a command of a cycle had its turn after it. A connection that ends once a cycle is done
    /// and before the next is due takes no try, and the next connection is made when that cycle is due. An attempt that failed
    /// always takes one.
    pub retries: u32,
    /// How many commands at the front of the station's list are the setup: at most as many as there are. The others are those of
    /// a cycle. The setup is sent on each connection, and after each synchronization, before any of them.
    pub setup: usize,
    /// How long the run goes on without an answer of a good quality, counted from when the last one was recorded, or if none was,
    /// from the start of the link's clock for deadlines. 0: without a limit.
    pub stale: u64,
    /// Whether somebody may ask for the end of the run, or for a cycle. Then no read waits longer than a second, so that the station
    /// sees it.
    pub watched: bool,
}
