//! The making of connections over TCP, which is done here and nowhere else.

ghost use Rattle.gc_links.specs.Calls.{Makes};
ghost use Rattle.gc_links.specs.Connecting.{Connects, ConnectsFirst, IsHere};
ghost use Rattle.std.specs.Net.ToAddrs.{host_addrs};

use crate::system::{System, Wired};
use std::io::{self, ErrorKind};
use std::net::{HostAddrs, Net, SocketAddr, TcpListener, TcpStream};
use std::time::Duration;

/// How long the making of a connection (at each address of a name), or one write, may wait for the other end, in milliseconds. A
/// radio modem takes a request line in less than a second. Over TCP a put of a link that needs more than one write may wait this
/// long for each. A write of a `Wire` over TCP has no such bound.
pub(crate) const PATIENCE: u64 = 10_000;

/// The other end of a connection over TCP.
#[derive(Clone, Copy)]
pub(crate) enum Peer<'a> {
    // A port of 127.0.0.1.
    Port(u16),
    // An address or a name with its port, as `HOST:PORT`.
    Host(&'a str),
}

/// Connects to a peer, at the first of its addresses where that can be done. It waits for each address no longer than `patience`,
/// which isn't zero. How long the look-up of a name takes is up to the system.
///
/// It fails where the name can't be looked up, and where none of its addresses can be connected to. A connection to itself
/// counts as failed: the system can make one at a port where nobody listens.
pub(crate) fn connect<R: Net<Listener = TcpListener, Stream = TcpStream>>(
    system: &mut System<'_, R>,
    peer: Peer<'_>,
    patience: Duration,
) -> io::Result<Wired>
    ensures { Makes system.old.calls.made system.new.calls.made (Connects peer.entry result) }
{
    match peer {
        Peer::Port(port) => system.connect(here(port), patience),
        Peer::Host(name) => match system.look_up(name) {
            Ok(addresses) => connect_first(system, addresses, patience),
            Err(error) => Err(error),
        },
    }
}

// Connects to the first of these addresses where that can be done.
fn connect_first<R: Net<Listener = TcpListener, Stream = TcpStream>>(
    system: &mut System<'_, R>,
    addresses: HostAddrs,
    patience: Duration,
) -> io::Result<Wired>
    ensures { Makes system.old.calls.made system.new.calls.made (ConnectsFirst (host_addrs addresses) result) }
{
    let mut failed = io::Error::from(ErrorKind::NotFound);
    for address in addresses {
        match system.connect(address, patience) {
            Ok(wired) => return Ok(wired),
            Err(error) => failed = error,
        }
    }
    Err(failed)
}

/// The address of a port of 127.0.0.1.
pub(crate) fn here(port: u16) -> SocketAddr
    ensures { IsHere port result }
{
    SocketAddr::from(([127, 0, 0, 1], port))
}
