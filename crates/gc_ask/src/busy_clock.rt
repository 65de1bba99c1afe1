//! The state that the two ends of a connection share while an instrument whose replies take time is served over it: when the
//! last bytes came, until when the instrument is busy, and what arrived meanwhile. Serving reads its clock here and nowhere
//! else.

ghost use Rattle.std.specs.Prelude.{◌≤◌, length};

use arrayvec::ArrayVec;
use gc_links::millis_of;
use gc_scenes::SlowInstrument;
use std::cell::{Cell, RefCell};
use std::io::{self, Write};
use std::thread;
use std::time::{Clock, Duration, Instant};

/// The most bytes that are kept of what came while the instrument was busy.
pub(crate) const EARLY_ROOM: usize = 8192;

/// The clock of an instrument whose replies take time. Its moments are milliseconds since it was made, and those that were skipped: a
/// new connection finds the instrument free, also where the one before ended while a reply waited.
///
/// The instrument records here until when it is busy, and the writing end of a connection waits until then. The reading end
/// records when bytes came. The writing end reads, while it waits, what arrives, so that it notices the end of the connection; and
/// the reading end hands that on with a moment at which the instrument was still busy.
#[derive(Drop)]
pub struct BusyClock {
    start: Instant,
    // Whether what comes while the instrument is busy is dropped.
    drops: bool,
    // When the last read returned, or when bytes that were handed on from `early` count as having come; 0 before the first
    // read.
    came: Cell<u64>,
    // Until when the instrument is busy.
    until: Cell<u64>,
    // Whether its reply has still to wait until then.
    waits: Cell<bool>,
    // How many milliseconds were skipped, and whether the next read skips the time until the instrument is free.
    skipped: Cell<u64>,
    skips: Cell<bool>,
    // Whether the end of the connection came while a reply waited.
    has_ended: Cell<bool>,
    // Whether no reply is sent any more over this connection.
    is_left: Cell<bool>,
    // What came while it was busy, and hasn't been handed on.
    early: RefCell<Early>,
}

// Bytes that came while the instrument was busy, and how many of them were handed on. No more are read than there is room for: further
// ones wait in the system's buffer, and count as having come when they are read.
#[derive(Drop)]
struct Early {
    bytes: ArrayVec<u8, EARLY_ROOM>,
    taken: usize,
}

impl BusyClock {
    /// A clock for this instrument (`Slow::new`), which starts now. `Err`: the system's clock can't be read.
    pub fn new<R: Clock>(rt: &R, slow: &SlowInstrument) -> io::Result<BusyClock> {
        let early = Early {
            bytes: ArrayVec::new(),
            taken: 0,
        };
        Ok(BusyClock {
            start: Instant::now(rt)?,
            drops: slow.drops(),
            came: Cell::new(0),
            until: Cell::new(0),
            waits: Cell::new(false),
            skipped: Cell::new(0),
            skips: Cell::new(false),
            has_ended: Cell::new(false),
            is_left: Cell::new(false),
            early: RefCell::new(early),
        })
    }

    /// Prepares for a new connection: no reply waits, the bytes that came over the last one while the instrument was busy, and weren't
    /// handed on, are discarded, and the instrument will be free.
    pub(crate) fn begin(&self) {
        self.waits.set(false);
        self.skips.set(true);
        self.has_ended.set(false);
        self.is_left.set(false);
        if let Ok(mut early) = self.early.try_borrow_mut() {
            early.clear();
        }
    }

    /// Whether what comes while the instrument is busy is dropped.
    pub(crate) fn drops(&self) -> bool {
        self.drops
    }

    /// When the last bytes came or count as having come (`take_early`), or when a later read failed or found the end, in
    /// milliseconds since the clock was made. It is 0 before the first read, and a new connection leaves it as it is. Where
    /// the system's clock couldn't be read, or had gone back, it is the moment of an earlier read.
    pub(crate) fn came(&self) -> u64 {
        self.came.get()
    }

    /// Records that a read returned just now, with bytes or without. The first one of a connection skips the time until the instrument is
    /// free. If the system's clock can't be read, or lies before the moment of the last read (`came`), that moment stays as it was.
    pub(crate) fn note_now<R: Clock>(&self, rt: &R) {
        if self.skips.get() {
            self.skips.set(false);
            let busy = self.until.get().saturating_sub(self.now(rt));
            self.skipped.set(self.skipped.get().saturating_add(busy));
        }
        self.came.set(self.now(rt));
    }

    /// Records that the instrument is busy until this moment of the clock, and that its reply has to wait until then.
    pub(crate) fn note_busy(&self, until: u64) {
        self.until.set(until);
        self.waits.set(true);
    }

    /// For how many milliseconds a reply still has to wait until the instrument is free: 0 if none has to.
    pub(crate) fn left<R: Clock>(&self, rt: &R) -> u64 {
        if self.waits.get() && !self.is_left.get() {
            self.until.get().saturating_sub(self.now(rt))
        } else {
            0
        }
    }

    /// Sleeps until the instrument is free, if a reply still has to wait for that: none has to after this.
    pub(crate) fn wait<R: Clock>(&self, rt: &R) {
        let left = self.left(rt);
        self.waits.set(false);
        if left > 0 {
            thread::sleep(rt, Duration::from_millis(left));
        }
    }

    /// Records that the end of the connection came while a reply waited.
    pub(crate) fn note_end(&self) {
        self.has_ended.set(true);
    }

    /// Whether the end of the connection came while a reply waited.
    pub(crate) fn has_ended(&self) -> bool {
        self.has_ended.get()
    }

    /// Leaves the connection: no reply has to wait any more, and none is to be sent.
    pub(crate) fn leave(&self) {
        self.is_left.set(true);
    }

    /// Whether the connection was left.
    pub(crate) fn is_left(&self) -> bool {
        self.is_left.get()
    }

    /// How many more bytes there is room for of what comes while the instrument is busy.
    pub(crate) fn room(&self) -> usize {
        match self.early.try_borrow() {
            Ok(early) => early.bytes.remaining_capacity(),
            Err(_) => 0,
        }
    }

    /// Stores bytes that came while the instrument was busy, as far as there is room. Those without room are discarded.
    pub(crate) fn store_early(&self, bytes: &[u8]) {
        if let Ok(mut early) = self.early.try_borrow_mut() {
            early.store(bytes);
        }
    }

    /// Moves bytes that came while the instrument was busy into the front of `buf`, as many as it has room for, and returns
    /// how many. They count as having come a millisecond before the instrument was free again. Where there are none, the
    /// moment of the last read (`came`) stays as it was.
    pub(crate) fn take_early(&self, buf: &mut [u8]) -> usize
        ensures { result ≤ length buf.new }
    {
        let Ok(mut early) = self.early.try_borrow_mut() else {
            return 0;
        };
        let n = early.hand_on(buf);
        if n > 0 {
            self.came.set(self.until.get().saturating_sub(1));
        }
        n
    }

    // The moment now, in milliseconds since the clock was made and those skipped. It is never before the moment of the last read (`came`), and it
    // is that moment if the system's clock can't be read.
    fn now<R: Clock>(&self, rt: &R) -> u64 {
        let last = self.came.get();
        match self.start.elapsed(rt) {
            Ok(time) => millis_of(time).saturating_add(self.skipped.get()).max(last),
            Err(_) => last,
        }
    }
}

impl Early {
    // Discards all bytes, also those that were handed on.
    fn clear(&mut self) {
        self.bytes.clear();
        self.taken = 0;
    }

    // Appends these bytes, as far as there is room.
    fn store(&mut self, bytes: &[u8]) {
        let _ = self.bytes.write(bytes);
    }

    // Moves the bytes that weren't handed on yet into the front of `buf`, as many as it has room for, and returns how many. Once
    // the last was handed on, all of them are discarded.
    fn hand_on(&mut self, buf: &mut [u8]) -> usize
        ensures { result ≤ length buf.new }
    {
        let Some(rest) = self.bytes.as_slice().get(self.taken..) else {
            return 0;
        };
        let n = rest.len().min(buf.len());
        buf[..n].copy_from_slice(&rest[..n]);
        self.taken = self.taken.saturating_add(n);
        if self.taken >= self.bytes.len() {
            self.clear();
        }
        n
    }
}
