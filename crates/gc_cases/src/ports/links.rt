//! Rows of a link over TCP, and of its far end, which is the case's own, in one thread. The link leads to a free port at which
//! the case listens, or to the port under `port`, from 0 to 65535. One write on the link, and the making of its connection, waits
//! for at most as many milliseconds as `patience` says (0 counts as 1), and without a patience for ten seconds. What comes of a
//! row is appended to `came`, and what isn't as the case expects to `wrong`.
//!
//!     do open                  the link is opened: `open`, or `shut` if it can't be
//!     do close                 the link is closed
//!     do put abc               sent, or cut after so many bytes
//!     do stall                 puts more than a connection takes while nobody reads
//!     do read                  at most two bytes, within a second
//!     do look                  at most sixteen, within a millisecond
//!     do wait 50               a silence of this many milliseconds
//!     do accept, far abc       the far end, and what it writes
//!     do hear                  what it has heard at the end of the connection, or `open` if no end comes
//!     do go, deaf              the far end goes away; nobody listens any more
//!     do device, pulled, second_address, own_connection   in devices.rt

ghost use Rattle.std.specs.Prelude.{◌<◌, length};

use crate::ports::devices::tell_outcome;
use crate::ports::streams::{accepted, hear, listener_at_1024, tell_end_behind};
use gc_links::{Came, Link, TcpLink, listen};
use gc_probes::{Case, Player, Row, Rows, Told, play_rows};
use std::alloc::{AllocError, Global};
use std::io::{self, Write};
use std::net::{TcpListener, TcpStream};

// A moment of November 2023 in milliseconds since 1970, which has passed.
const YEAR_2023: u64 = 1_700_000_000_000;

// How long one write, or the making of a connection, waits at most if the case says no patience, in milliseconds.
const DEFAULT_PATIENCE: u64 = 10_000;

/// Plays `.links`.
pub struct LinksPlayer;

impl Player for LinksPlayer {
    // Plays a case, with a free port of its own for the link to lead to. `Err`: no port could be listened at.
    fn play(&self, rt: &HostRuntime, case: &Case<'_>, wrong: &mut Told) -> io::Result<()> {
        let listener = listen(rt, 0)?;
        let _other = listener_at_1024(rt);
        play_at(rt, listener, case, wrong);
        Ok(())
    }
}

// Plays a case whose link leads to this listener, or to the port that the case names. If there is no such link, only that is
// reported.
fn play_at(rt: &HostRuntime, listener: TcpListener, case: &Case<'_>, wrong: &mut Told) {
    match link_of(rt, &listener, case) {
        Some(link) => play_over(rt, listener, link, case, wrong),
        None => case.tell_wrong("link", b"none", wrong),
    }
}

// The link of a case, with the port and the patience that it says; without a port it leads to the listener. `None`: the port is
// above 65535, the listener's port can't be had, or the link can't be made.
fn link_of<'a>(
    rt: &'a HostRuntime,
    listener: &TcpListener,
    case: &Case<'_>,
) -> Option<TcpLink<'a, HostRuntime>> {
    let own = u64::from(listener.local_addr().ok()?.port());
    let port = u16::try_from(case.number("port", own)).ok()?;
    TcpLink::with_patience(rt, port, case.number("patience", DEFAULT_PATIENCE)).ok()
}

// Plays the rows of a case over this link.
fn play_over<'a>(
    rt: &'a HostRuntime,
    listener: TcpListener,
    link: TcpLink<'a, HostRuntime>,
    case: &Case<'_>,
    wrong: &mut Told,
) {
    let mut played = LinkRows {
        rt,
        listener: Some(listener),
        link,
        far: None,
        sent: 0,
    };
    play_rows(case, &mut played, wrong);
}

// A link, its far end, and the listener at its port.
#[derive(Drop)]
struct LinkRows<'a> {
    rt: &'a HostRuntime,
    // `None`: nobody listens any more.
    listener: Option<TcpListener>,
    link: TcpLink<'a, HostRuntime>,
    // The far end of the connection that was accepted last. `None`: none was, or it went away.
    far: Option<TcpStream>,
    // How many bytes of the last put that was to stall were sent; 0 before the first.
    sent: usize,
}

impl<'a> Rows for LinkRows<'a> {
    // Plays a row by its word: here, or in devices.rt.
    fn play(&mut self, row: Row<'_>, came: &mut Told) {
        match row.word {
            "open" => came.either(self.link.open().is_ok(), "open", "shut"),
            "close" => self.link.close(),
            "put" => self.put(row.bytes, came),
            "stall" => self.stall(came),
            "read" => self.read(&mut [0; 2], 1000, came),
            "look" => self.read(&mut [0; 16], 1, came),
            "wait" => self.wait(row.what, came),
            "hear" => self.hear(came),
            "accept" => self.far = self.accept(),
            "far" => self.write_far(row.bytes, came),
            "go" => self.far = None,
            "deaf" => self.listener = None,
            word => tell_outcome(self.rt, word, came),
        }
    }
}

impl<'a> LinkRows<'a> {
    // Puts bytes on the link, and reports whether all were sent, or after how many bytes the put was cut; or that there is
    // nothing to put.
    fn put(&mut self, bytes: &[u8], came: &mut Told) {
        if bytes.is_empty() {
            return came.text("nothing to put");
        }
        match self.link.put(bytes) {
            Ok(()) => came.text("sent"),
            Err(sent) => came.titled("cut behind ", &sent),
        }
    }

    // Puts sixteen million bytes, which is more than a connection takes while nobody reads, and reports what came of the put. If
    // memory runs out for the bytes, `came` notes that it lacks a part.
    fn stall(&mut self, came: &mut Told) {
        match dots(self.rt.alloc(), 16_000_000) {
            Ok(much) => self.put_much(much.as_slice(), came),
            Err(_) => came.lack(),
        }
    }

    // Puts `much`, more than a connection takes while nobody reads, and stores in `sent` how many of its bytes were sent. If that
    // is a part of it, and the put took less than two seconds, reports `a part, in its time`; else how many bytes were sent in
    // how many milliseconds. If the clock can't be read, it reports `no clock`.
    fn put_much(&mut self, much: &[u8], came: &mut Told) {
        let begun = elapsed(&mut self.link);
        let sent = put_counted(&mut self.link, much);
        let ended = elapsed(&mut self.link);
        self.sent = sent;
        let (Some(begun), Some(ended)) = (begun, ended) else {
            return came.text("no clock");
        };
        let waited = ended.saturating_sub(begun);
        if waited >= 2000 || sent == 0 || sent >= much.len() {
            came.counted(&sent, " bytes in ");
            return came.counted(&waited, " milliseconds");
        }
        came.text("a part, in its time")
    }

    // Reads at most as many bytes as `buf` has room for, within this many milliseconds, and reports what came.
    fn read(&mut self, buf: &mut [u8], millis: u64, came: &mut Told)
        requires { 0 < length buf.old }
    {
        let read = self.link.read(buf, millis);
        tell_came(read, buf, came)
    }

    // Waits until the link was silent for as many milliseconds as `what` says. Reports that the link was silent so long, in less
    // than a second, or else for how many milliseconds it was silent, as `await_silence` says.
    fn wait(&mut self, what: &str, came: &mut Told) {
        let millis = came.number_in(what);
        let waited = await_silence(&mut self.link, millis);
        if waited < millis || waited >= 1000 {
            return came.counted(&waited, " milliseconds of silence");
        }
        came.text("silence, in its time")
    }

    // Reports what the far end heard until the end of its connection, or that there is no far end.
    fn hear(&mut self, came: &mut Told) {
        match &mut self.far {
            Some(far) => tell_far_heard(far, self.sent, came),
            None => came.text("no far end"),
        }
    }

    // The far end writes these bytes. Reports only if it can't.
    fn write_far(&mut self, bytes: &[u8], came: &mut Told) {
        came.text_if(!write_all(&mut self.far, bytes), "it can't be written");
    }

    // Accepts the connection that the link made, and returns its far end. It waits for ever if none was made. `None`: nobody
    // listens any more, or the system can't accept it or bound its reads.
    fn accept(&self) -> Option<TcpStream> {
        accepted(self.listener.as_ref()?).ok()
    }
}

// Writes bytes at the far end, and returns whether that could be done. Without a far end it can't.
fn write_all(far: &mut Option<TcpStream>, bytes: &[u8]) -> bool {
    match far {
        Some(far) => far.write_all(bytes).is_ok(),
        None => false,
    }
}

// Reads what the far end hears until its connection is shut, and reports it as `tell_far_bytes` says. `sent` is how many bytes
// the stalled put sent.
fn tell_far_heard(far: &mut TcpStream, sent: usize, came: &mut Told) {
    let mut bytes = Vec::new(came.alloc);
    let is_end = hear(far, &mut bytes);
    tell_far_bytes(is_end, bytes.as_slice(), sent, came);
}

// Reports what a far end heard: `bytes` until its connection was shut, or `open` if it wasn't heard to that end (`is_end` is
// false). Of a hundred bytes or more only the number is reported, or `that part` if the number is `sent`, as many as the stalled
// put sent.
fn tell_far_bytes(is_end: bool, bytes: &[u8], sent: usize, came: &mut Told) {
    if !is_end {
        return came.text("open");
    }
    if bytes.len() < 100 {
        return tell_end_behind(bytes, came);
    }
    if bytes.len() == sent {
        return came.text("the end behind that part");
    }
    came.titled("the end behind ", &bytes.len());
    came.text(" bytes");
}

/// This many dots, as bytes to put. `Err`: memory ran out.
pub fn dots(alloc: Global, count: usize) -> Result<Vec<u8>, AllocError> {
    Ok(vec![in alloc; b'.'; count]?)
}

// The moment by a link's clock for deadlines, in milliseconds. `None`: the clock can't be read.
fn elapsed<L: Link>(link: &mut L) -> Option<u64> {
    match link.now() {
        Ok(moment) => Some(moment.elapsed),
        Err(_) => None,
    }
}

/// Puts bytes, and returns how many of them were sent.
pub fn put_counted<L: Link>(link: &mut L, bytes: &[u8]) -> usize {
    if bytes.is_empty() {
        return 0;
    }
    match link.put(bytes) {
        Ok(()) => bytes.len(),
        Err(sent) => sent,
    }
}

// Reports the result `read` of a read into `buf`: the bytes that came, or their moment if that isn't after `YEAR_2023`; if none
// came, a word.
fn tell_came(read: Came, buf: &[u8], came: &mut Told) {
    match read {
        Came::Bytes(n, moment) if moment.utc > YEAR_2023 => {
            came.bytes(buf.get(..n).unwrap_or(b""))
        }
        Came::Bytes(_, moment) => came.titled("bytes at ", &moment.utc),
        Came::Silence(_) => came.text("silence"),
        Came::End => came.text("end"),
        Came::Failure => came.text("failure"),
        Came::NoMoment => came.text("no moment"),
    }
}

/// Reads a link until it was silent for `millis` milliseconds, and returns for how many milliseconds it was: 0 if something else
/// came or the clock couldn't be read, and fewer than `millis` if a thousand reads, each of which may end early, were too few.
pub fn await_silence<L: Link>(link: &mut L, millis: u64) -> u64 {
    let Some(begun) = elapsed(link) else {
        return 0;
    };
    let mut buf = [0; 2];
    let mut waited = 0;
    for _ in 0..1000 {
        if waited >= millis {
            break;
        }
        match link.read(&mut buf, millis - waited) {
            Came::Silence(moment) => waited = moment.elapsed.saturating_sub(begun),
            _ => return 0,
        }
    }
    waited
}
