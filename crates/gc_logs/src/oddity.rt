//! What is noticed of a line beside its replies: what is odd about it (it sends requests back, or changes the ends of lines), how
//! many bytes arrive that are no reply, how often the instrument signed on, and whether its connection was lost, and why none could be made. What became of the
//! station's files is noted with that.

ghost use Rattle.std.specs.Prelude.{◌≡◌};

use crate::files::FilesSeen;
use gc_lines::PortFailed;
use gc_links::{Came, Link, Moment};
use gc_texts::RunFault;
use std::cell::Cell;
use std::io;

/// What is odd about a line.
#[derive(Clone, Copy, PartialEq, Eq)]
pub struct Oddities {
    /// It sends back what is sent.
    pub echoes: bool,
    /// It changes CR to LF, or takes it away.
    pub bare: bool,
    /// It ends replies with CR alone.
    pub lone: bool,
    /// It ends replies with CR CR LF.
    pub doubled: bool,
}

impl Oddities {
    /// Nothing was noticed.
    pub fn none() -> Oddities {
        Oddities {
            echoes: false,
            bare: false,
            lone: false,
            doubled: false,
        }
    }
}

/// What was noticed of a line, of its connection, and of the files of the station that measures over it.
#[derive(Clone, Copy)]
pub struct Noticed {
    /// What is odd about the line.
    pub odd: Oddities,
    /// Whether the last connection ended or failed, or couldn't be made. That the station closes it changes nothing.
    pub is_lost: bool,
    /// Why the system refused the last connection. `None`: it was made, or the system gave no reason.
    pub why: Option<io::Error>,
    /// How many bytes arrived.
    pub arrived: u64,
    /// How many of them had arrived once the last reply was whole: a line that begins as a reply, with an id, and ends with CR LF.
    /// Bytes that arrived together with its end count, too. 0: none was.
    pub replied: u64,
    /// How many of the lines that ended have a sign-on in them: each shows that the instrument was switched on or off.
    pub starts: u64,
    /// The fault that was noted as the one for which the run stopped. `None`: no fault was noted.
    pub fault: Option<RunFault>,
    /// What became of the files.
    pub files: FilesSeen,
}

impl Noticed {
    /// Nothing was noticed.
    pub fn nothing() -> Noticed {
        Noticed {
            odd: Oddities::none(),
            is_lost: false,
            why: None,
            arrived: 0,
            replied: 0,
            starts: 0,
            fault: None,
            files: FilesSeen::none(),
        }
    }
}

/// Notes what became of the station's files. What else was noticed stays noted.
pub fn note_files(noticed: &Cell<Noticed>, files: FilesSeen) {
    let seen = noticed.get();
    noticed.set(Noticed { files, ..seen });
}

// The longest read of a link, in milliseconds: what watches a station between two reads gets its turn at least that often.
const LONGEST_READ: u64 = 1_000;

// How long nothing has to come behind a reply's CR, in milliseconds, before the reply counts as ended by it: a LF that belongs to a CR
// comes at once, unless the line delays it.
const LONE: u64 = 2_000;

// What a line has somewhere that shows a start (`is_sign_on` of gc_texts).
const SIGN_ON: &[u8; 4] = b"%N1,";

// The line that comes, as far as it came.
#[derive(Clone, Copy)]
struct ComingLine {
    // Its first bytes, how many there are, and its last byte so far and the byte before that.
    front: [u8; 4],
    count: usize,
    last: u8,
    before: u8,
    // How many commas it has before its first colon, at most 255, and whether it has a colon.
    commas: u8,
    has_colon: bool,
    // How many bytes of `SIGN_ON` its last bytes are, and whether it has all of them somewhere.
    matched: usize,
    has_sign_on: bool,
    // When its last bytes came, in milliseconds of the clock for deadlines.
    came: u64,
}

impl ComingLine {
    // A line of which nothing came yet.
    fn new() -> ComingLine {
        ComingLine {
            front: [0; 4],
            count: 0,
            last: 0,
            before: 0,
            commas: 0,
            has_colon: false,
            matched: 0,
            has_sign_on: false,
            came: 0,
        }
    }

    // Whether a line begins with this byte behind one that a CR alone ended: this began as a reply or as a request.
    fn ends_before(&self, byte: u8) -> bool {
        self.last == b'\r' && byte == b'%' && (self.front == *b"%R1P" || self.front == *b"%R1Q")
    }

    // Whether it began as a reply, its last byte so far is a CR, and nothing came behind that for `LONE` until `elapsed`.
    fn ends_lone(&self, elapsed: u64) -> bool {
        self.last == b'\r' && self.front == *b"%R1P" && elapsed.saturating_sub(self.came) >= LONE
    }

    // Takes the next byte of the line, which is no line feed.
    fn take(&mut self, byte: u8) {
        self.match_sign_on(byte);
        if self.count < self.front.len() {
            self.front[self.count] = byte;
            self.count += 1;
        }
        if byte == b':' {
            self.has_colon = true;
        } else if byte == b',' && !self.has_colon {
            self.commas = self.commas.saturating_add(1);
        }
        self.before = self.last;
        self.last = byte;
    }

    // Notes how far the line's last bytes are those of `SIGN_ON`, once this one came.
    fn match_sign_on(&mut self, byte: u8) {
        self.matched = if SIGN_ON.get(self.matched) == Some(&byte) {
            self.matched.saturating_add(1)
        } else if byte == b'%' {
            1
        } else {
            0
        };
        if self.matched == SIGN_ON.len() {
            self.has_sign_on = true;
        }
    }

    // What is noticed once a line feed has ended the line, of which `seen` was noticed before: it has a sign-on in it (`starts`); it begins
    // as a request (`echoes`); or it begins as a reply, and has no CR at its end (`bare`), or two (`doubled`), or else an id (`replied`).
    // What was noticed of earlier lines stays, and a line of less than four bytes is none of these.
    fn judged(&self, seen: Noticed) -> Noticed {
        if self.count < self.front.len() {
            return seen;
        }
        let is_reply = self.front == *b"%R1P";
        let has_cr = self.last == b'\r';
        let has_two = has_cr && self.before == b'\r';
        let has_id = self.has_colon && self.commas == 2;
        let odd = Oddities {
            echoes: seen.odd.echoes || self.front == *b"%R1Q",
            bare: seen.odd.bare || is_reply && !has_cr,
            doubled: seen.odd.doubled || is_reply && has_two,
            ..seen.odd
        };
        let replied = if is_reply && has_cr && !has_two && has_id {
            seen.arrived
        } else {
            seen.replied
        };
        Noticed {
            odd,
            replied,
            starts: seen.starts.saturating_add(u64::from(self.has_sign_on)),
            ..seen
        }
    }

    // What is noticed once a CR alone has ended the line, of which `seen` was noticed before: it began as a request (`echoes`), or as a reply
    // (`lone`).
    fn judged_lone(&self, seen: Noticed) -> Noticed {
        let odd = Oddities {
            echoes: seen.odd.echoes || self.front == *b"%R1Q",
            lone: seen.odd.lone || self.front == *b"%R1P",
            ..seen.odd
        };
        Noticed { odd, ..seen }
    }
}

/// A link that notices what is odd about its line, and what becomes of its connection. Its acts are those of the link inside. A
/// read of it lasts no longer than a second.
#[derive(Drop)]
pub struct Noticing<'a, L> {
    /// The link inside.
    pub link: L,
    noticed: &'a Cell<Noticed>,
    // Why the system refused what it refused last.
    reason: &'a Cell<Option<io::Error>>,
    line: ComingLine,
}

impl<'a, L: Link> Noticing<'a, L> {
    /// A link over `link`, over which nothing came yet. What it notices it notes in `noticed`, beside what is noted there already.
    /// `reason` says why the system refused what it refused last (`Noting::reason`).
    pub fn new(
        link: L,
        noticed: &'a Cell<Noticed>,
        reason: &'a Cell<Option<io::Error>>,
    ) -> Noticing<'a, L>
        ensures { result.link ≡ link }
    {
        Noticing {
            link,
            noticed,
            reason,
            line: ComingLine::new(),
        }
    }
}

impl<'a, L> Noticing<'a, L> {
    /// The link inside.
    pub fn into_link(self) -> L
        ensures { result ≡ self.entry.link }
    {
        let Noticing {
            link,
            noticed: _,
            reason: _,
            line: _,
        } = self;
        link
    }

    // Takes bytes that had come by the moment `elapsed`: counts them, and judges each line that they end, also one that began in earlier
    // bytes.
    fn look(&mut self, bytes: &[u8], elapsed: u64)
        ensures { self.new.link ≡ self.old.link }
    {
        let seen = self.noticed.get();
        let mut seen = Noticed {
            arrived: seen.arrived.saturating_add(bytes.len() as u64),
            ..seen
        };
        for b in bytes {
            if *b == b'\n' {
                seen = self.line.judged(seen);
                self.line = ComingLine::new();
            } else {
                if self.line.ends_before(*b) {
                    seen = self.line.judged_lone(seen);
                    self.line = ComingLine::new();
                }
                self.line.take(*b);
            }
        }
        self.line.came = elapsed;
        self.noticed.set(seen);
    }

    // Notes at a moment by which nothing more had come whether a CR alone ended the reply that came last.
    fn look_behind(&self, elapsed: u64) {
        if self.line.ends_lone(elapsed) {
            self.noticed.set(self.line.judged_lone(self.noticed.get()));
        }
    }

    // Notes whether the connection is lost (`is_lost`): it ended or failed, or couldn't be made, and then why (`why`), if the system
    // gave a reason.
    fn note_loss(&self, is_lost: bool, why: Option<io::Error>) {
        let seen = self.noticed.get();
        self.noticed.set(Noticed {
            is_lost,
            why,
            ..seen
        });
    }
}

impl<'a, L: Link> Link for Noticing<'a, L> {
    ghost acts = { λ n. L.acts n.link };

    // The moment that the link inside gives.
    fn now(&mut self) -> Result<Moment, PortFailed> {
        self.link.now()
    }

    // Reads for `millis` milliseconds, but for a second at most; judges the lines that came to their end, and notes an end or a failure
    // as a lost connection.
    fn read(&mut self, buf: &mut [u8], millis: u64) -> Came {
        let came = self.link.read(buf, millis.min(LONGEST_READ));
        match came {
            Came::Bytes(n, moment) => self.look(&buf[..n], moment.elapsed),
            Came::Silence(moment) => self.look_behind(moment.elapsed),
            Came::End | Came::Failure => self.note_loss(true, None),
            Came::NoMoment => {}
        }
        came
    }

    // Writes, and notes a write that fails as a lost connection.
    fn put(&mut self, bytes: &[u8]) -> Result<(), usize> {
        let put = self.link.put(bytes);
        if put.is_err() {
            self.note_loss(true, None);
        }
        put
    }

    // Closes, and forgets the front of a line that hasn't ended. Whether the connection is lost stays as it was noted before.
    fn close(&mut self) {
        self.line = ComingLine::new();
        self.link.close();
    }

    // Makes a connection, and notes as lost one that couldn't be made, with the system's reason; one that was made is noted as not
    // lost.
    fn open(&mut self) -> Result<(), PortFailed> {
        let opened = self.link.open();
        let why = match opened {
            Ok(()) => None,
            Err(_) => self.reason.get(),
        };
        self.note_loss(opened.is_err(), why);
        opened
    }
}
