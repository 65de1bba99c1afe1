//! Connections whose reads may wait without a deadline, for `ask` and `serve`.

ghost use Rattle.std.specs.Io.{ReadsAtMost, WritesAtMost};
ghost use Rattle.gc_links.specs.Acts.{GivesAtMost};

use crate::connection::{PATIENCE, Peer, connect};
use crate::device::{REST, Unusable, open_device, read_some, rest, write_some};
use crate::place::Place;
use crate::system::{System, read_timed};
use std::fs::File;
use std::io::{self, ErrorKind, Read, Write};
use std::net::{Net, TcpListener, TcpStream};
use std::rt::Files;
use std::time::{Clock, Duration};

// The system's number of the error of a device that was pulled out: EIO.
const PULLED_OUT: i32 = 5;

/// An open connection, over TCP or over a device.
#[derive(Drop)]
pub enum Wire<'a, R> {
    /// Over TCP.
    Tcp(TcpStream),
    /// Over a device, with the runtime whose clock times the rests between two tries.
    Device(&'a R, File),
}

/// Connects to a place, or opens it where it is a device, as [`wire_on`] does. For a port, and for each address of a host, it
/// waits ten seconds at most; how long the look-up of a host's name takes is up to the system. `None` as the reason: no
/// connection could be made, or the device isn't there now, or it can't be opened, locked or set up for a reason without a
/// name.
pub fn wire_to<'a, R: Net<Listener = TcpListener, Stream = TcpStream> + Files<File = File>>(
    rt: &'a R,
    place: Place<'_>,
) -> Result<Wire<'a, R>, Option<Unusable>> {
    let peer = match place {
        Place::Port(port) => Peer::Port(port),
        Place::Host(host) => Peer::Host(host),
        Place::Device(path) => return wire_on(rt, path),
    };
    let mut system = System::new(rt);
    match connect(&mut system, peer, Duration::from_millis(PATIENCE)) {
        Ok(wired) => Ok(Wire::Tcp(wired.into_stream())),
        Err(_) => Err(None),
    }
}

/// Opens a device. Without `clocal` this may wait for the carrier. A read of the device waits until something comes, as a
/// read over TCP does. `None` as the reason: the device isn't there now, or it can't be opened, locked or set up for a reason
/// without a name.
pub fn wire_on<'a, R: Files<File = File>>(
    rt: &'a R,
    path: &str,
) -> Result<Wire<'a, R>, Option<Unusable>> {
    Ok(Wire::Device(rt, open_device(rt, path)?))
}

impl<'a, R: Clock> Wire<'a, R> {
    /// Reads as `read` does, but waits no longer than about `millis` milliseconds, where 0 counts as 1. `None`: nothing came in
    /// that time, or a read over TCP was interrupted. The first look at a device is at once, and there is one every 2
    /// milliseconds; what comes after the last look is left for the next read.
    pub fn read_within(&self, buf: &mut [u8], millis: u64) -> io::Result<Option<usize>>
        ensures { GivesAtMost result buf.new }
    {
        match self {
            Wire::Tcp(stream) => read_stream_within(stream, buf, millis, None),
            Wire::Device(rt, file) => read_device_within(*rt, file, buf, millis),
        }
    }
}

// A read waits until something comes, or the connection ends or fails.
impl<'a, R: Clock> Read for &Wire<'a, R> {
    fn read(&mut self, buf: &mut [u8]) -> io::Result<usize> {
        match *self {
            Wire::Tcp(stream) => read_from(stream, buf),
            Wire::Device(rt, file) => read_device(*rt, file, buf),
        }
    }
}

// A write over TCP waits until the system takes something, or the connection fails. One over a device waits about ten seconds
// at most, and then fails with `TimedOut`. Each is sent at once, so there is nothing to flush.
impl<'a, R: Clock> Write for &Wire<'a, R> {
    fn write(&mut self, buf: &[u8]) -> io::Result<usize> {
        match *self {
            Wire::Tcp(stream) => write_stream(stream, buf),
            Wire::Device(rt, file) => write_some(*rt, file, buf),
        }
    }

    fn flush(&mut self) -> io::Result<()> {
        Ok(())
    }
}

// Reads from a connection over TCP.
fn read_from(stream: &TcpStream, buf: &mut [u8]) -> io::Result<usize>
    ensures { ReadsAtMost result buf.new }
{
    let mut stream = stream;
    stream.read(buf)
}

/// Writes to a connection over TCP, as much as it takes at once, and returns how many bytes that is.
pub fn write_stream(stream: &TcpStream, buf: &[u8]) -> io::Result<usize>
    ensures { WritesAtMost result buf.now }
{
    let mut stream = stream;
    stream.write(buf)
}

/// Reads what comes over a connection within `millis` milliseconds, where 0 counts as 1, and returns how many bytes came, 0
/// at the end of the stream. `None`: nothing came in that time, or the read was interrupted. The reads after this one may
/// each wait as long as `longest` says, which isn't zero, and for ever where that is `None`. It also fails where the system
/// can't set how long a read may wait; what had come may be lost then, and the reads after this one may then wait no longer
/// than this one did.
pub fn read_stream_within(
    stream: &TcpStream,
    buf: &mut [u8],
    millis: u64,
    longest: Option<Duration>,
) -> io::Result<Option<usize>>
    ensures { GivesAtMost result buf.new }
{
    let read = read_timed(stream, buf, millis);
    stream.set_read_timeout(longest)?;
    read
}

// Reads what has come over a device, and rests for about `millis` milliseconds at most until something has. `None`: nothing had
// come by the last look, after which it rested once more. A device that was pulled out is at its end.
fn read_device_within<R: Clock>(
    rt: &R,
    file: &File,
    buf: &mut [u8],
    millis: u64,
) -> io::Result<Option<usize>>
    ensures { GivesAtMost result buf.new }
{
    for _ in 0..millis / REST + 1 {
        match read_some(file, buf) {
            Ok(None) => rest(rt),
            Err(error) if error.raw_os_error() == Some(PULLED_OUT) => return Ok(Some(0)),
            ended => return ended,
        }
    }
    Ok(None)
}

// Reads what has come over a device, and rests until something has. A device that was pulled out is at its end.
fn read_device<R: Clock>(rt: &R, file: &File, buf: &mut [u8]) -> io::Result<usize>
    ensures { ReadsAtMost result buf.new }
{
    match read_device_within(rt, file, buf, u64::MAX) {
        Ok(Some(n)) => Ok(n),
        // Never in practice: 2^63 reads that gave nothing.
        Ok(None) => Err(io::Error::from(ErrorKind::TimedOut)),
        Err(error) => Err(error),
    }
}
