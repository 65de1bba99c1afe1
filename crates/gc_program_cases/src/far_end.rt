//! The far end of a case: a connection of one process, at which a simulator answers while the station waits, and a clock that
//! goes only as it waits. So no case waits, and each moment is known. No file is there; which were to be opened is noted.

use crate::site::Site;
use gc_console::{Oddities, run_exec};
use gc_lines::{FromReader, ToWriter};
use gc_links::millis_of;
use gc_probes::{StandIn, Told, in_use, not_found};
use std::alloc::Global;
use std::cell::RefCell;
use std::fs::File;
use std::io::{self, ErrorKind, Read, Write};
use std::net::{Net, TcpStream};
use std::os::fd::OwnedFd;
use std::os::unix::net::UnixStream;
use std::time::Duration;

// 2026-11-22T23:08:00Z, when the clock starts, in milliseconds since 1970.
const BEGIN: u64 = 1_795_388_880_000;

// A time-out of at most this many milliseconds is no wait: a link that read nothing reads once more at once, with a time-out of
// one millisecond, which the system may round up to 10.
const NO_WAIT: u64 = 10;

/// What the far end saw.
#[derive(Drop)]
pub struct Seen {
    /// How many milliseconds have passed.
    pub elapsed: u64,
    /// How often a connection was tried, with the attempts that were refused.
    pub tried: u32,
    /// What came, with a `>` wherever the station waited after it.
    pub heard: Told,
    /// The paths of the files that were to be opened, a line each. None is there.
    pub files: Told,
}

impl Seen {
    /// Nothing was seen yet.
    pub fn new(alloc: Global) -> Seen {
        Seen {
            elapsed: 0,
            tried: 0,
            heard: Told::new(alloc),
            files: Told::new(alloc),
        }
    }

    // Lets this many milliseconds pass.
    fn pass(&mut self, millis: u64) {
        self.elapsed = self.elapsed.saturating_add(millis);
    }
}

/// Makes a connection, and returns both ends, the station's first. They are a pair of Unix sockets, because what is written to
/// one can be read at the other at once. No read of either waits. `Err`: the system gives no pair, or can't set an end so that no
/// read of it waits.
pub fn paired_ends(net: &impl Net) -> io::Result<(TcpStream, TcpStream)> {
    let (near, far) = UnixStream::pair(net)?;
    near.set_nonblocking(true)?;
    far.set_nonblocking(true)?;
    Ok((stream_of(near), stream_of(far)))
}

// An end as a TCP stream: the system's calls are the same for both.
fn stream_of(end: UnixStream) -> TcpStream {
    TcpStream::from(OwnedFd::from(end))
}

/// A stand-in for the system with this connection alone, and with a clock of its own.
#[derive(Drop)]
pub struct FarEnd<'a, 'b> {
    pub ends: &'a (TcpStream, TcpStream),
    pub seen: &'b RefCell<Seen>,
    /// How many milliseconds an answer takes; that has to be less than the station waits for it. `None`: nothing is answered.
    pub answer: Option<u64>,
    /// After this many milliseconds the monotonic clock can't be read any more.
    pub until: u64,
    /// How many connections are refused before one is made.
    pub refused: u64,
    /// After this many milliseconds nothing is answered any more.
    pub silent: u64,
    /// What the line does to what is sent over it.
    pub odd: Oddities,
    /// Whether a reply with id 6 comes before each reply to a request for 5004.
    pub strays: bool,
    /// Whether the reply with id 3 to a request for 2011 is altered: its height is 1.7.
    pub alters: bool,
    /// Whether the instrument signs on before each reply to a request for 5004.
    pub starts: bool,
    /// What answers in place of the simulator, if it has an instrument.
    pub site: &'b RefCell<Site>,
}

impl<'a, 'b> FarEnd<'a, 'b> {
    // How long the station waits in its read, in milliseconds, by the time-out that it set; 0 if it set none. `Err`: the system
    // doesn't say.
    fn patience(&self) -> io::Result<u64> {
        let Some(wait) = self.ends.0.read_timeout()? else {
            return Ok(0);
        };
        Ok(millis_of(wait))
    }

    // Answers the requests of a piece, after an echo of it if the line echoes, and after a stray or a sign-on if it strays or the instrument
    // starts, and the piece asks for 5004. If the line alters, the reply to 2011 with id 3 has another height. The piece came at the moment
    // `at`. Returns whether it sent a reply; `false` also if the echo, the stray, the sign-on or one of the replies can't be sent.
    fn answer_piece(&self, piece: &[u8], at: u64) -> bool {
        let mut far = &self.ends.1;
        if self.odd.echoes && self.changing().write_all(piece).is_err() {
            return false;
        }
        let strays = self.strays && piece.starts_with(b"%R1Q,5004,");
        if strays && far.write_all(b"%R1P,0,6:0\r\n").is_err() {
            return false;
        }
        let starts = self.starts && piece.starts_with(b"%R1Q,5004,");
        if starts && far.write_all(b"%N1,0,255,,0%T0,0,0,:\r\n").is_err() {
            return false;
        }
        if self.alters && piece.starts_with(b"%R1Q,2011,3:") {
            return far.write_all(b"%R1P,0,3:0,1.7\r\n").is_ok();
        }
        if let Ok(mut site) = self.site.try_borrow_mut() {
            if site.is_there() {
                return site.answer(piece, at, &mut self.changing());
            }
        }
        self.serve_piece(piece)
    }

    // The far end's stream, over which line ends are changed as the line of the case says.
    fn changing(&self) -> Changing<'a> {
        Changing {
            stream: &self.ends.1,
            odd: self.odd,
        }
    }

    // Has a new simulator answer the requests of a piece: none knows of an earlier piece. Returns whether it sent a reply;
    // `false` also if one of the replies can't be sent.
    fn serve_piece(&self, piece: &[u8]) -> bool {
        let mut source = FromReader::new(piece);
        let mut sink = ToWriter::new(self.changing());
        match run_exec(&mut source, &mut sink, u32::MAX) {
            Ok(served) => served.replies > 0,
            Err(_) => false,
        }
    }

    // How much time has passed. Before that the station's wait is played, if it has waited in a read before it asks for the
    // moment: that is so if its time-out is above `NO_WAIT`. `Err`: more than `until` milliseconds have passed, or the station's
    // time-out can't be read.
    fn elapsed_after_wait(&self, seen: &mut Seen) -> io::Result<Duration> {
        let patience = self.patience()?;
        if patience > NO_WAIT {
            self.wait(seen, patience);
        }
        if seen.elapsed > self.until {
            return Err(io::Error::from(ErrorKind::Unsupported));
        }
        Ok(Duration::from_millis(seen.elapsed))
    }

    // Plays a wait of the station of at most `millis` milliseconds. What the station sent, up to 256 bytes, is noted and
    // answered, which takes the time of an answer. If nothing was sent, or it isn't answered (`hear`), the whole wait passes.
    fn wait(&self, seen: &mut Seen, millis: u64) {
        let mut buf = [0; 256];
        let mut far = &self.ends.1;
        match far.read(&mut buf) {
            Ok(n) => self.hear(&buf[..n], seen, millis),
            Err(_) => seen.pass(millis),
        }
    }

    // Notes a piece that came, and answers it, which takes the time of an answer. If nothing is answered, or not any more
    // (`silent`), `millis` milliseconds pass, the station's whole wait.
    fn hear(&self, piece: &[u8], seen: &mut Seen, millis: u64) {
        seen.heard.bytes(piece);
        seen.heard.text(">");
        match self.answer {
            Some(answer) if seen.elapsed <= self.silent && self.answer_piece(piece, seen.elapsed) =>
                { seen.pass(answer) }
            _ => seen.pass(millis),
        }
    }
}

// The far end's stream, over which a CR is sent as LF if the line is `bare`, no LF if it is `lone`, and a CR before each LF if it is
// `doubled`.
#[derive(Drop)]
struct Changing<'a> {
    stream: &'a TcpStream,
    odd: Oddities,
}

impl<'a> Write for Changing<'a> {
    // Writes all bytes, a CR as LF if the line is bare, no LF if it is lone, and one more CR before each LF if it is doubled. `Err`: one
    // can't be written; those before it were.
    fn write(&mut self, buf: &[u8]) -> io::Result<usize> {
        let mut stream = self.stream;
        for b in buf {
            let changed = if self.odd.bare && *b == b'\r' {
                b'\n'
            } else {
                *b
            };
            if self.odd.doubled && *b == b'\n' {
                stream.write_all(b"\r")?;
            }
            if !(self.odd.lone && *b == b'\n') {
                stream.write_all(&[changed])?;
            }
        }
        Ok(buf.len())
    }

    fn flush(&mut self) -> io::Result<()> {
        Ok(())
    }
}

impl<'a, 'b> StandIn for FarEnd<'a, 'b> {
    // How much time has passed, with the station's wait (`elapsed_after_wait`). `Err`: as of that, or `seen` is in use.
    fn elapsed(&self) -> io::Result<Duration> {
        match self.seen.try_borrow_mut() {
            Ok(mut seen) => self.elapsed_after_wait(&mut seen),
            Err(_) => in_use(),
        }
    }

    // The moment at which the clock began (`BEGIN`), plus the time that has passed since. No wait is played, and `until` doesn't
    // count. `Err`: `seen` is in use.
    fn since_1970(&self) -> io::Result<Duration> {
        match self.seen.try_borrow() {
            Ok(seen) => Ok(Duration::from_millis(BEGIN.saturating_add(seen.elapsed))),
            Err(_) => in_use(),
        }
    }

    // Lets this much time pass by the clock, in whole milliseconds, and returns at once. If `seen` is in use, none passes.
    fn pass(&self, time: Duration) {
        if let Ok(mut seen) = self.seen.try_borrow_mut() {
            seen.pass(millis_of(time));
        }
    }

    // Counts the attempt to connect. It refuses the first connections, as many as `refused` says. Each further one is the
    // station's end of the same connection. `Err`: the connection is refused, no further handle of that end can be had, or
    // `seen` is in use.
    fn connect(&self) -> io::Result<TcpStream> {
        let Ok(mut seen) = self.seen.try_borrow_mut() else {
            return in_use();
        };
        seen.tried = seen.tried.saturating_add(1);
        if u64::from(seen.tried) <= self.refused {
            return Err(io::Error::from(ErrorKind::ConnectionRefused));
        }
        self.ends.0.try_clone()
    }

    // Notes the file's path, unless `seen` is in use, and opens nothing: it always fails.
    fn open(&self, path: &str) -> io::Result<File> {
        let Ok(mut seen) = self.seen.try_borrow_mut() else {
            return in_use();
        };
        seen.files.text(path);
        seen.files.text("\n");
        not_found()
    }
}
