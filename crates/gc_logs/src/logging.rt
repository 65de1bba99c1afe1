//! A log of what is on a link: how the bytes of each direction are cut into its lines. Bytes that came or went and aren't
//! written into the log yet are pending.

ghost use Rattle.std.specs.Prelude.{◌≡◌, ◌++◌, ◌≤◌, [], ◌∷◌, length, codes};
ghost use Rattle.gc_logs.specs.Logging.{entry, line_mark, part_mark, nothing_pending, entry_of_line, entries_at, pending_at, entries, pending_after, entries_of_pending, link_entry, log_seen, TakesEntries, LogsEntries};
ghost use Rattle.gc_texts.specs.Logs.{log_line};
ghost use Rattle.gc_logs.specs.declared.logging.Direction.TheVariants.{Went, Came};

use arrayvec::ArrayVec;
use gc_lines::{Sink, append};
use gc_texts::{LogBytes, LogMark, write_log_line};

// The direction of bytes: sent (`Went`) or received (`Came`).
#[derive(Clone, Copy)]
enum Direction {
    Went,
    Came,
}

impl Direction {
    // The mark of a line that went or came with its CR LF.
    fn line_mark(self) -> LogMark
        ensures { result ≡ line_mark self }
    {
        match self {
            Direction::Went => LogMark::Went,
            Direction::Came => LogMark::Came,
        }
    }

    // The mark of a part of a line, and of a line without the CR before its line feed.
    fn part_mark(self) -> LogMark
        ensures { result ≡ part_mark self }
    {
        match self {
            Direction::Went => LogMark::WentPart,
            Direction::Came => LogMark::CamePart,
        }
    }
}

/// Where the lines of a log go, and the moment that they have.
#[derive(Drop)]
pub(crate) struct Lines<K> {
    pub(crate) sink: K,
    // The last moment that the link's clock gave, in milliseconds since 1970; before the first, the moment given to `Log::new`.
    pub(crate) utc: u64,
}

impl<K: Sink> Lines<K> {
    // Writes a line of the log with this mark and these bytes, at most 514. If the sink fails, the line isn't written whole, and
    // the sink's `failed` shows it.
    fn write_entry(&mut self, mark: LogMark, bytes: &[u8])
        requires { length bytes.now ≤ 514 }
        ensures { TakesEntries K.Sink self.old self.new (entry mark bytes.now ∷ []) }
    {
        let mut line = LogBytes::new();
        append(&mut line, bytes);
        let _ = write_log_line(&mut self.sink, self.utc, mark, &line);
    }
}

// The most pending bytes of one direction: as many as a line of 512 bytes has with its CR.
const PENDING_ROOM: usize = 513;

// The pending bytes of one direction: those of a line whose line feed hasn't come yet; of a line of more than `PENDING_ROOM`
// bytes, the last ones.
#[derive(Drop)]
struct Unwritten {
    bytes: ArrayVec<u8, PENDING_ROOM>,
    // Whether the first bytes of this line are no longer pending: they were written as parts, unless the sink had failed.
    is_long: bool,
}

impl Unwritten {
    // No pending bytes.
    fn nothing() -> Unwritten
        ensures { result ≡ nothing_pending }
    {
        Unwritten {
            bytes: ArrayVec::new(),
            is_long: false,
        }
    }

    // Leaves nothing pending.
    fn clear(&mut self)
        ensures { self.new ≡ nothing_pending }
    {
        self.bytes.clear();
        self.is_long = false;
    }

    // Logs bytes of this direction that come after the pending ones, in order, as `add` does it: each line that they end is
    // written, and of a longer line each `PENDING_ROOM` bytes as a part. What isn't written is pending then.
    fn add_all<K: Sink>(&mut self, lines: &mut Lines<K>, way: Direction, bytes: &[u8])
        ensures took { TakesEntries K.Sink lines.old lines.new (entries way self.old bytes.now) }
        ensures pending { self.new ≡ pending_after self.old bytes.now }
    {
        for b in bytes {
            self.add(lines, way, *b);
        }
    }

    // Logs one more byte. A line feed ends a line, which is written. Any other byte is pending; if `PENDING_ROOM` bytes are
    // pending already, these are first written as a part of their line.
    fn add<K: Sink>(&mut self, lines: &mut Lines<K>, way: Direction, b: u8)
        ensures took { TakesEntries K.Sink lines.old lines.new (entries_at way self.old b) }
        ensures pending { self.new ≡ pending_at self.old b }
    {
        if b == b'\n' {
            self.end_line(lines, way);
            return;
        }
        if self.bytes.len() < PENDING_ROOM {
            self.bytes.push(b);
            return;
        }
        lines.write_entry(way.part_mark(), &self.bytes);
        self.bytes.clear();
        self.bytes.push(b);
        self.is_long = true;
    }

    // Logs a line feed: writes the pending bytes as a line, without CR LF, if they are all of it and end in a CR, else as a part,
    // with the line feed. Nothing is pending after that.
    fn end_line<K: Sink>(&mut self, lines: &mut Lines<K>, way: Direction)
        ensures took { TakesEntries K.Sink lines.old lines.new (entry_of_line way self.old ∷ []) }
        ensures pending { self.new ≡ nothing_pending }
    {
        let is_line = !self.is_long && self.bytes.last() == Some(&b'\r');
        if is_line {
            let len = self.bytes.len() - 1;
            lines.write_entry(way.line_mark(), &self.bytes[..len]);
        } else {
            let mut part = LogBytes::new();
            append(&mut part, &self.bytes);
            append(&mut part, b"\n");
            lines.write_entry(way.part_mark(), &part);
        }
        self.clear();
    }

    // Writes the pending bytes, if there are any, as a part of a line. Nothing is pending after that.
    fn flush<K: Sink>(&mut self, lines: &mut Lines<K>, way: Direction)
        ensures took { TakesEntries K.Sink lines.old lines.new (entries_of_pending way self.old.bytes.items) }
        ensures pending { self.new ≡ nothing_pending }
    {
        if !self.bytes.is_empty() {
            lines.write_entry(way.part_mark(), &self.bytes);
        }
        self.clear();
    }
}

/// A log over a sink. If the sink has failed nothing more is written, and the link that is logged goes on.
#[derive(Drop)]
pub(crate) struct Log<K> {
    pub(crate) lines: Lines<K>,
    went: Unwritten,
    came: Unwritten,
}

impl<K: Sink> Log<K> {
    // A log without a line, at the moment `utc`, in milliseconds since 1970.
    pub(crate) fn new(sink: K, utc: u64) -> Log<K>
        ensures sink { result.lines.sink ≡ sink }
        ensures went { result.went ≡ nothing_pending }
        ensures came { result.came ≡ nothing_pending }
        ensures utc { result.lines.utc ≡ utc }
    {
        Log {
            lines: Lines { sink, utc },
            went: Unwritten::nothing(),
            came: Unwritten::nothing(),
        }
    }

    // Logs sent bytes, as `Unwritten::add_all` says: writes the lines that end in them, and full parts of longer ones. The
    // rest is pending then.
    pub(crate) fn add_sent(&mut self, bytes: &[u8])
        ensures { LogsEntries (log_seen K.Sink self.old) (log_seen K.Sink self.new)
            (entries Went self.old.went bytes.now) (pending_after self.old.went bytes.now) self.old.came }
    {
        self.went.add_all(&mut self.lines, Direction::Went, bytes);
    }

    // Logs received bytes, as `Unwritten::add_all` says: writes the lines that end in them, and full parts of longer ones. The
    // rest is pending then.
    pub(crate) fn add_received(&mut self, bytes: &[u8])
        ensures { LogsEntries (log_seen K.Sink self.old) (log_seen K.Sink self.new)
            (entries Came self.old.came bytes.now) self.old.went (pending_after self.old.came bytes.now) }
    {
        self.came.add_all(&mut self.lines, Direction::Came, bytes);
    }

    // Writes the pending bytes of both directions, the sent ones first, each as a part of a line; of a direction without pending
    // bytes it writes nothing. Nothing is pending after that.
    pub(crate) fn flush(&mut self)
        ensures { LogsEntries (log_seen K.Sink self.old) (log_seen K.Sink self.new)
            (entries_of_pending Went self.old.went.bytes.items ++ entries_of_pending Came self.old.came.bytes.items) nothing_pending nothing_pending }
    {
        self.went.flush(&mut self.lines, Direction::Went);
        self.came.flush(&mut self.lines, Direction::Came);
    }

    // Writes a line that says, in these words of at most 514 bytes, what became of the connection.
    pub(crate) fn add_word(&mut self, word: &[u8])
        requires { length word.now ≤ 514 }
        ensures { LogsEntries (log_seen K.Sink self.old) (log_seen K.Sink self.new) (link_entry word.now ∷ []) self.old.went self.old.came }
    {
        self.lines.write_entry(LogMark::Link, word);
    }
}
