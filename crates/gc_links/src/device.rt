//! A serial device: opened so that no call waits in the system, and held against other programs.

ghost use Rattle.std.specs.Prelude.{◌≤◌, length, IfOk, IfSome};
ghost use Rattle.std.specs.Io.{WritesAtMost};
ghost use Rattle.gc_links.specs.Acts.{GivesAtMost};

use crate::connection::PATIENCE;
use std::fs::{File, OpenOptions, TryLockError};
use std::io::{self, ErrorKind, IsTerminal, Read, Write};
use std::net::TcpStream;
use std::os::fd::AsFd;
use std::rt::Files;
use std::thread;
use std::time::{Clock, Duration};

/// How long to rest where nothing has come, or nothing can go, yet, in milliseconds. At 19,200 baud a byte takes half a
/// millisecond.
pub(crate) const REST: u64 = 2;

/// Why a path can't be used as the device of a link.
#[derive(Clone, Copy)]
pub enum Unusable {
    /// The path leads to something that is no terminal, or doesn't answer as one.
    NoTerminal,
    /// Another program, or another opening of this one, holds the device.
    Held,
    /// The system doesn't let this program read and write it.
    Forbidden,
}

/// Opens a device for reading and writing, and locks it, so that no second program of this kind gets it. No read or write of it
/// waits. Where one would have to, the system answers `WouldBlock`; a read of a device that `stty` has set to `min 0` gives no
/// bytes, which is an end. Without `clocal` the opening itself may wait for the carrier.
///
/// `None` as the reason: the device isn't there now, or it can't be opened, locked or set up for a reason without a name.
pub(crate) fn open_device<R: Files<File = File>>(
    rt: &R,
    path: &str,
) -> Result<File, Option<Unusable>> {
    let file = match OpenOptions::new().read(true).write(true).open(rt, path) {
        Ok(file) => file,
        Err(error) => return Err(reason_of(error.kind())),
    };
    if !file.is_terminal() {
        return Err(Some(Unusable::NoTerminal));
    }
    match file.try_lock() {
        Ok(()) => {}
        Err(TryLockError::WouldBlock) => return Err(Some(Unusable::Held)),
        Err(TryLockError::Error(_)) => return Err(None),
    }
    match set_nonblocking(&file) {
        Ok(()) => Ok(file),
        Err(_) => Err(None),
    }
}

// Why a device can't be opened, by the error of the opening. `None`: the error has no name in [`Unusable`], or the device isn't
// there now.
fn reason_of(kind: ErrorKind) -> Option<Unusable> {
    match kind {
        ErrorKind::PermissionDenied => Some(Unusable::Forbidden),
        ErrorKind::ResourceBusy => Some(Unusable::Held),
        ErrorKind::IsADirectory => Some(Unusable::NoTerminal),
        _ => None,
    }
}

// Sets a device so that no read or write of it waits. `File` has no call for that. So the call is made on a second descriptor of
// the same open file, which is taken for a socket: the system keeps the setting with the open file, for both descriptors.
fn set_nonblocking(file: &File) -> io::Result<()> {
    let other = TcpStream::from(file.as_fd().try_clone_to_owned()?);
    other.set_nonblocking(true)
}

// Whether an error of a read or a write says only that nothing has come, or nothing can go, yet, or that the call was
// interrupted: it is to be made again after a rest.
fn is_not_ready(kind: ErrorKind) -> bool {
    matches!(kind, ErrorKind::WouldBlock | ErrorKind::Interrupted)
}

/// Reads what has come over a device, and returns how many bytes that is: 0 where the device has ended. `None`: nothing has come
/// yet, or the read was interrupted.
pub(crate) fn read_some(file: &File, buf: &mut [u8]) -> io::Result<Option<usize>>
    ensures { GivesAtMost result buf.new }
{
    let mut file = file;
    match file.read(buf) {
        Ok(n) => Ok(Some(n)),
        Err(error) if is_not_ready(error.kind()) => Ok(None),
        Err(error) => Err(error),
    }
}

// How many of a write's rests last [`REST`] milliseconds. The others are long ones: a sleep lasts longer than it was asked to, on a
// loaded machine by milliseconds, so that thousands of short ones would last for a multiple of [`PATIENCE`].
const SHORT_RESTS: u64 = 50;

// How long the others last, in milliseconds.
const LONG_REST: u64 = 20;

/// How often a write rests at most while its device isn't ready: its rests ([`rest_of`]) last [`PATIENCE`] together.
pub(crate) const MOST_RESTS: u64 = SHORT_RESTS + (PATIENCE - SHORT_RESTS * REST) / LONG_REST;

/// How long the next rest of a write lasts that has rested so often, in milliseconds.
pub(crate) fn rest_of(rests: u64) -> u64 {
    if rests < SHORT_RESTS { REST } else { LONG_REST }
}

/// Sleeps for [`REST`] milliseconds, before the next read of a device.
pub(crate) fn rest<R: Clock>(rt: &R) {
    thread::sleep(rt, Duration::from_millis(REST));
}

/// Writes a front of these bytes, as many as a device takes at once, and returns how many it took: 0 where the write succeeded and
/// took none. `None`: the device isn't ready, or the write was interrupted.
pub(crate) fn write_once(file: &File, bytes: &[u8]) -> io::Result<Option<usize>>
    ensures { IfOk result (λ taken. IfSome taken (λ n. n ≤ length bytes.now)) }
{
    let mut file = file;
    match file.write(bytes) {
        Ok(n) => Ok(Some(n)),
        Err(error) if is_not_ready(error.kind()) => Ok(None),
        Err(error) => Err(error),
    }
}

/// Writes as [`write_once`] does, and rests and tries again while the device isn't ready. Once the rests together last
/// [`PATIENCE`], it fails with `TimedOut`.
pub(crate) fn write_some<R: Clock>(rt: &R, file: &File, bytes: &[u8]) -> io::Result<usize>
    ensures { WritesAtMost result bytes.now }
{
    for rests in 0..MOST_RESTS {
        match write_once(file, bytes) {
            Ok(Some(n)) => return Ok(n),
            Ok(None) => thread::sleep(rt, Duration::from_millis(rest_of(rests))),
            Err(error) => return Err(error),
        }
    }
    Err(io::Error::from(ErrorKind::TimedOut))
}
