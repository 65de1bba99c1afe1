//! Links over devices and connections that are there already: a pseudo terminal's controlling end, which is a terminal, too, an
//! address that doesn't answer, and a socket that leads to itself.

use crate::ports::links::{await_silence, dots, put_counted};
use crate::ports::rig::{Done, Rig, rigged};
use gc_links::{Came, Link, Place, PlacedLink, TcpLink, Unusable};
use gc_probes::{CaseRuntime, Told};
use std::cell::RefCell;
use std::fs::{File, OpenOptions};
use std::net::{SocketAddr, TcpStream, UdpSocket};
use std::os::fd::OwnedFd;
use std::os::unix::net::UnixStream;
use std::time::Duration;
use std::{io, thread};

/// Reports what the link of the row with this word comes to: `device`, `pulled`, `second_address` or `own_connection`. Any other
/// word is reported as unknown.
pub fn tell_outcome(rt: &HostRuntime, word: &str, came: &mut Told) {
    match word {
        "device" => tell_device(rt, came),
        "pulled" => came.text(pulled_outcome(rt).text()),
        "second_address" => came.text(second_address_outcome(rt).text()),
        "own_connection" => came.text(own_connection_outcome(rt).text()),
        _ => came.text("an unknown word"),
    }
}

// The path by whose opening the system makes a pseudo terminal, and gives its controlling end.
const TERMINAL: &str = "/dev/ptmx";

// A terminal that nobody reads or writes at the other end, opened for reading and writing. `None`: this machine has none, or it
// can't be opened.
fn terminal(rt: &HostRuntime) -> Option<File> {
    OpenOptions::new()
        .read(true)
        .write(true)
        .open(rt, TERMINAL)
        .ok()
}

// Such a terminal, opened for writing alone, so that each read of it fails.
fn unreadable_terminal(rt: &HostRuntime) -> Option<File> {
    OpenOptions::new().write(true).open(rt, TERMINAL).ok()
}

// What a link came to.
#[derive(Clone, Copy)]
enum Outcome {
    // The connections or the clock that the link needs couldn't be had.
    Nothing,
    // No link to the device could be had in four seconds, as where another program holds it.
    Held,
    // A second link to the device wasn't refused as held.
    Shared,
    // It couldn't be opened, or not all bytes of a put were sent.
    Shut,
    // It could be opened and closed again, and a put was sent.
    Open,
    // Something else than silence came, or the silence was too short.
    Unquiet,
    // All bytes of a put were sent, or none, though it was to be cut after a part of them.
    Uncut,
    // A read failed, as it should, or there is no device whose reads would fail.
    Failure,
    // A read that was to fail didn't.
    NoFailure,
    // All is as it should be of a device that nobody reads or writes, or there is no such device.
    Device,
}

impl Outcome {
    // The outcome as a case has it.
    fn text(self) -> &'static str {
        match self {
            Outcome::Nothing => "it can't be had",
            Outcome::Held => "held by another program",
            Outcome::Shared => "not held",
            Outcome::Shut => "shut",
            Outcome::Open => "open",
            Outcome::Unquiet => "not silent in its time",
            Outcome::Uncut => "not cut in a put",
            Outcome::Failure => "failure",
            Outcome::NoFailure => "no failure",
            Outcome::Device => "held for a second link, silent in its time, cut in a put",
        }
    }
}

// Reports what a link over a device comes to. If memory runs out for the bytes to put, `came` notes that it lacks a part.
fn tell_device(rt: &HostRuntime, came: &mut Told) {
    match dots(rt.alloc(), 1_000_000) {
        Ok(much) => came.text(device_outcome(rt, much.as_slice()).text()),
        Err(_) => came.lack(),
    }
}

// What a link over a device comes to; `much` is more bytes than the system takes. It should be `Device`: a second link is refused
// the device, a read takes its time if nothing comes, and a put is cut once the system takes no more. Where no two such devices
// can be opened, as on a machine without them, that counts as right.
fn device_outcome(rt: &HostRuntime, much: &[u8]) -> Outcome {
    match (terminal(rt), terminal(rt)) {
        (Some(one), Some(other)) => opened_twice_outcome(rt, [one, other].as_slice(), much),
        _ => Outcome::Device,
    }
}

// What a link comes to over a device that was opened twice (`devices`): `Held` if none can be had, `Shared` if a second link,
// over the other opening, isn't refused then, and otherwise what the first link's acts come to.
fn opened_twice_outcome(rt: &HostRuntime, devices: &[File], much: &[u8]) -> Outcome {
    let done = RefCell::new(Done::nothing());
    let rig = rigged(devices, &[], &done);
    let Some(mut link) = device_link(rt, &rig) else {
        return Outcome::Held;
    };
    if !is_held(&rig) {
        return Outcome::Shared;
    }
    device_acts_outcome(&mut link, much)
}

// Whether a link over a rig's second opening of a device is refused as held, while another link has the first opening.
fn is_held(rig: &CaseRuntime<Rig<'_, '_, '_>>) -> bool {
    matches!(
        PlacedLink::new(rig, Place::Device("/dev/1")),
        Err(Some(Unusable::Held))
    )
}

// What an opening of this link, reads until it is silent, and a put of the bytes `much` come to: `Device` if all is as it should
// be, and otherwise `Shut`, `Unquiet` or `Uncut`.
fn device_acts_outcome<L: Link>(link: &mut L, much: &[u8]) -> Outcome {
    if link.open().is_err() {
        return Outcome::Shut;
    }
    if await_silence(link, 100) < 100 {
        return Outcome::Unquiet;
    }
    let sent = put_counted(link, much);
    if sent == 0 || sent >= much.len() {
        return Outcome::Uncut;
    }
    Outcome::Device
}

// A link to the first device of a rig. All such terminals have one lock, so another run of these cases may hold it for a moment:
// it is tried every 20 milliseconds. `None`: none could be had within four seconds.
fn device_link<'a, 'b, 'c, 'd>(
    rt: &HostRuntime,
    rig: &'a CaseRuntime<Rig<'b, 'c, 'd>>,
) -> Option<PlacedLink<'a, CaseRuntime<Rig<'b, 'c, 'd>>>> {
    for _ in 0..200 {
        match PlacedLink::new(rig, Place::Device("/dev/0")) {
            Ok(link) => return Some(link),
            Err(_) => thread::sleep(rt, Duration::from_millis(20)),
        }
    }
    None
}

// What a link comes to over a device of which each read fails, as of one that was pulled out. It should be `Failure`. Where no
// such device can be opened, as on a machine without them, that counts as right.
fn pulled_outcome(rt: &HostRuntime) -> Outcome {
    let Some(device) = unreadable_terminal(rt) else {
        return Outcome::Failure;
    };
    let devices = [device];
    let done = RefCell::new(Done::nothing());
    let rig = rigged(devices.as_slice(), &[], &done);
    match device_link(rt, &rig) {
        Some(mut link) => failure_outcome(&mut link),
        None => Outcome::Held,
    }
}

// Opens this link, and reads. Returns `Failure` if the read fails, `NoFailure` if it doesn't, and `Shut` if the link can't be
// opened.
fn failure_outcome<L: Link>(link: &mut L) -> Outcome {
    if link.open().is_err() {
        return Outcome::Shut;
    }
    let mut buf = [0; 8];
    match link.read(&mut buf, 100) {
        Came::Failure => Outcome::Failure,
        _ => Outcome::NoFailure,
    }
}

// Opens this link, puts bytes and closes it. Returns `Open` if it could be opened and all bytes were sent, and otherwise `Shut`.
fn opening_outcome<L: Link>(link: &mut L) -> Outcome {
    if link.open().is_err() || link.put(b"abc").is_err() {
        return Outcome::Shut;
    }
    link.close();
    Outcome::Open
}

// What a link to a name with two addresses comes to, if its attempts to connect make these connections, in their order.
// `Nothing`: the link can't be made.
fn named_outcome(connections: &[Option<TcpStream>]) -> Outcome {
    let done = RefCell::new(Done::nothing());
    let rig = rigged(&[], connections, &done);
    match TcpLink::to_host(&rig, "station:4001") {
        Ok(mut link) => opening_outcome(&mut link),
        Err(_) => Outcome::Nothing,
    }
}

// What a link comes to whose name has a first address that doesn't answer and a second one that does. It should be `Open`.
// `Nothing`: there are no sockets for it, or no link.
fn second_address_outcome(rt: &HostRuntime) -> Outcome {
    match UnixStream::pair(rt) {
        Ok((near, _far)) => {
            named_outcome([None, Some(TcpStream::from(OwnedFd::from(near)))].as_slice())
        }
        Err(_) => Outcome::Nothing,
    }
}

// What a link comes to whose first connection leads to itself, and whose name has no other that can be made. It should be `Shut`,
// because such a connection counts as none. `Nothing`: there is no such connection, or no link.
fn own_connection_outcome(rt: &HostRuntime) -> Outcome {
    match own_socket(rt) {
        Ok(own) => named_outcome([Some(TcpStream::from(OwnedFd::from(own)))].as_slice()),
        Err(_) => Outcome::Nothing,
    }
}

// A UDP socket of this machine that is connected to itself. `Err`: the system gives none.
fn own_socket(rt: &HostRuntime) -> io::Result<UdpSocket> {
    let own = UdpSocket::bind(rt, SocketAddr::from(([127, 0, 0, 1], 0)))?;
    own.connect(own.local_addr()?)?;
    Ok(own)
}
