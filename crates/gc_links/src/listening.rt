//! Ports of this machine: listening at one, accepting its connections, and connecting to one. Where no address is named they are
//! those of 127.0.0.1.

use crate::connection::{PATIENCE, Peer, connect, here};
use crate::system::{System, send_at_once};
use std::io;
use std::net::{Net, TcpListener, TcpStream};
use std::time::Duration;

/// Listens at a port of 127.0.0.1. Port 0 stands for any free one. It fails where the port can't be listened at.
pub fn listen<R: Net<Listener = TcpListener, Stream = TcpStream>>(
    rt: &R,
    port: u16,
) -> io::Result<TcpListener> {
    TcpListener::bind(rt, here(port))
}

/// Listens at an address of this machine, which a word names with its port: `HOST:PORT`. It is the first of the name's
/// addresses at which that can be done. It fails where the name can't be looked up, and where none of its addresses can be
/// listened at.
pub fn listen_at<R: Net<Listener = TcpListener, Stream = TcpStream>>(
    rt: &R,
    host: &str,
) -> io::Result<TcpListener> {
    TcpListener::bind(rt, host)
}

/// Waits for the next connection, and has it send each line as it is written, if the system can do that. It fails where the
/// system can't accept one.
pub fn accept(listener: &TcpListener) -> io::Result<TcpStream> {
    let (stream, _) = listener.accept()?;
    send_at_once(&stream);
    Ok(stream)
}

/// Connects to a port of 127.0.0.1. It fails where no connection is made within ten seconds; one to itself counts as none.
pub fn connect_here<R: Net<Listener = TcpListener, Stream = TcpStream>>(
    rt: &R,
    port: u16,
) -> io::Result<TcpStream> {
    let mut system = System::new(rt);
    let wired = connect(
        &mut system,
        Peer::Port(port),
        Duration::from_millis(PATIENCE),
    )?;
    Ok(wired.into_stream())
}

/// Both ends of one connection of this machine to itself: the one that connected, and the one that was accepted. If another
/// program connects to the free port in between, its connection is the one that is accepted. It fails where no port can be
/// listened at, the system doesn't say which port it is, or the connection can't be made or accepted.
pub fn both_ends<R: Net<Listener = TcpListener, Stream = TcpStream>>(
    rt: &R,
) -> io::Result<(TcpStream, TcpStream)> {
    let listener = listen(rt, 0)?;
    let near = connect_here(rt, listener.local_addr()?.port())?;
    let far = accept(&listener)?;
    Ok((near, far))
}
