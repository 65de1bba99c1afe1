//! The system's connections over TCP.

ghost use Rattle.std.specs.Prelude.{◌≡◌, [], ◌∷◌, ◌++◌, IfOk};
ghost use Rattle.gc_links.specs.Acts.{GivesAtMost};
ghost use Rattle.gc_links.specs.Calls.{Address, Dropped};
ghost use Rattle.gc_links.specs.CallNoted.{call_of};
ghost use Rattle.gc_links.specs.Answered.{look_up_call, connect_call, write_call, read_call, IsWithin, TakesAtMost, wired_end};

use super::System;
use crate::calls::{CallNote, FarEnd};
use std::io::{self, ErrorKind, Read, Write};
use std::net::{HostAddrs, Net, SocketAddr, TcpListener, TcpStream, ToSocketAddrs};
use std::time::Duration;

/// A connection over TCP that [`System::connect`] made.
#[derive(Drop)]
pub(crate) struct Wired {
    stream: TcpStream,
    // The address that it is to.
    address: SocketAddr,
}

/// What a write did.
#[derive(Clone, Copy)]
pub(crate) enum Written {
    /// It took this many bytes.
    Took(usize),
    /// It was interrupted, or the connection had no room yet. It took none.
    TookNone,
    /// It failed.
    Failed,
}

/// What a read did.
#[derive(Clone, Copy)]
pub(crate) enum Heard {
    /// It gave this many bytes: none where the other end has closed the connection.
    Came(usize),
    /// It gave nothing in its time, or was interrupted.
    CameNone,
    /// It failed, or couldn't be given its time.
    Failed,
}

impl Wired {
    /// The connection as the system knows it, for what notes no calls.
    pub(crate) fn into_stream(self) -> TcpStream {
        self.stream
    }

    /// Sets how long a write may wait, which isn't zero. It fails where the system can't do that. It is not noted.
    pub(crate) fn set_patience(&self, patience: Duration) -> io::Result<()> {
        self.stream.set_write_timeout(Some(patience))
    }
}

impl<'a, R: Net<Listener = TcpListener, Stream = TcpStream>> System<'a, R> {
    /// Looks up a name with its port. How long that takes is up to the system.
    pub(crate) fn look_up(&mut self, name: &str) -> io::Result<HostAddrs>
        ensures { self.new.calls.made ≡ self.old.calls.made ++ look_up_call name.now result ∷ [] }
    {
        let found = name.to_socket_addrs(self.rt);
        let note = match &found {
            Ok(addresses) => CallNote::Found(name, addresses),
            Err(_) => CallNote::NotFound(name),
        };
        self.note(&note);
        found
    }

    /// Connects to one address, and waits for it no longer than `patience`, which isn't zero. A connection to itself counts as
    /// none: the system can make one at a port where nobody listens.
    pub(crate) fn connect(&mut self, address: SocketAddr, patience: Duration) -> io::Result<Wired>
        ensures tells { self.new.calls.made ≡ self.old.calls.made ++ connect_call address result ∷ [] }
        ensures there { IfOk result (λ wired. wired.address ≡ address) }
    {
        let made = connect_to(self.rt, &address, patience);
        let note = match &made {
            Ok(_) => CallNote::Reached(FarEnd::Address(address)),
            Err(_) => CallNote::NotReached(FarEnd::Address(address)),
        };
        self.note(&note);
        Ok(Wired {
            stream: made?,
            address,
        })
    }
}

impl<'a, R> System<'a, R> {
    /// Writes a front of these bytes, as many as the connection takes at once.
    pub(crate) fn write(&mut self, wired: &Wired, bytes: &[u8]) -> Written
        ensures tells { self.new.calls.made ≡ self.old.calls.made ++ write_call (wired_end wired.now) bytes.now result ∷ [] }
        ensures within { TakesAtMost result bytes.now }
    {
        let mut stream = &wired.stream;
        let written = match stream.write(bytes) {
            Ok(n) => Written::Took(n),
            Err(error) if error.kind() == ErrorKind::Interrupted => Written::TookNone,
            Err(_) => Written::Failed,
        };
        let end = FarEnd::Address(wired.address);
        let note = match written {
            Written::Took(n) => CallNote::Took(end, bytes, n),
            Written::TookNone => CallNote::TookNone(end, bytes),
            Written::Failed => CallNote::NotTaken(end, bytes),
        };
        self.note(&note);
        written
    }

    /// Reads some bytes, as [`read_timed`] does.
    pub(crate) fn read(&mut self, wired: &Wired, buf: &mut [u8], millis: u64) -> Heard
        ensures tells { self.new.calls.made ≡ self.old.calls.made ++ read_call (wired_end wired.now) result buf.new ∷ [] }
        ensures within { IsWithin result buf.new }
    {
        let heard = match read_timed(&wired.stream, buf, millis) {
            Ok(Some(n)) => Heard::Came(n),
            Ok(None) => Heard::CameNone,
            Err(_) => Heard::Failed,
        };
        self.note(&note_of_read(wired.address, heard, buf));
        heard
    }

    /// Drops a connection.
    pub(crate) fn hang_up(&mut self, wired: Wired)
        ensures { self.new.calls.made ≡ self.old.calls.made ++ Dropped (wired_end wired) ∷ [] }
    {
        let Wired { stream, address } = wired;
        drop(stream);
        self.note(&CallNote::Dropped(FarEnd::Address(address)));
    }
}

// The note of a read from this address, by what it did and the buffer after it.
fn note_of_read<'a>(address: SocketAddr, heard: Heard, buf: &'a [u8]) -> CallNote<'a>
    requires { IsWithin heard buf.now }
    ensures { call_of result ≡ read_call (Address address) heard buf.now }
{
    let end = FarEnd::Address(address);
    match heard {
        Heard::Came(n) => CallNote::Came(end, &buf[..n]),
        Heard::CameNone => CallNote::CameNone(end),
        Heard::Failed => CallNote::NotCome(end),
    }
}

// Connects to one address, and waits for it no longer than `patience`. A connection to itself is refused.
fn connect_to<R: Net<Listener = TcpListener, Stream = TcpStream>>(
    rt: &R,
    address: &SocketAddr,
    patience: Duration,
) -> io::Result<TcpStream> {
    let stream = TcpStream::connect_timeout(rt, address, patience)?;
    if is_to_itself(&stream) {
        return Err(io::Error::from(ErrorKind::ConnectionRefused));
    }
    send_at_once(&stream);
    Ok(stream)
}

// Whether a connection is one to itself: both of its ends have one address. `false` where the system doesn't say them.
fn is_to_itself(stream: &TcpStream) -> bool {
    match (stream.local_addr(), stream.peer_addr()) {
        (Ok(near), Ok(far)) => near == far,
        _ => false,
    }
}

/// Makes a connection send each line as soon as it is written (no delay by Nagle's algorithm). Where the system can't do that,
/// lines only arrive later, so there is no error.
pub(crate) fn send_at_once(stream: &TcpStream) {
    let _ = stream.set_nodelay(true);
}

/// Reads a connection, and returns how many bytes came, 0 at the end of the stream. It waits for them `millis` milliseconds at
/// most, where 0 counts as 1, but the system may end the wait too late. `None`: nothing came in that time, or the read was
/// interrupted. It also fails where the system can't set how long a read may wait. Later reads wait no longer than this one.
pub(crate) fn read_timed(
    stream: &TcpStream,
    buf: &mut [u8],
    millis: u64,
) -> io::Result<Option<usize>>
    ensures { GivesAtMost result buf.new }
{
    let mut stream = stream;
    // A timeout of zero would be an error, and without one the read would wait for ever.
    stream.set_read_timeout(Some(Duration::from_millis(millis.max(1))))?;
    match stream.read(buf) {
        Ok(n) => Ok(Some(n)),
        Err(error) if is_silence(error.kind()) => Ok(None),
        Err(error) => Err(error),
    }
}

// Whether an error of a read counts as silence: nothing came in its time, the read was interrupted, or the system gave the
// connection up because the other end answered nothing (`TimedOut`).
fn is_silence(kind: ErrorKind) -> bool {
    matches!(
        kind,
        ErrorKind::WouldBlock | ErrorKind::TimedOut | ErrorKind::Interrupted
    )
}
