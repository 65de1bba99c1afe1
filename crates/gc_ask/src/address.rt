//! Where callers over TCP are listened for.

use gc_links::{listen, listen_at};
use std::io;
use std::net::{Net, TcpListener, TcpStream};

/// An address of this machine, and a port there.
#[derive(Clone, Copy)]
pub enum Address<'a> {
    /// A port of 127.0.0.1. Port 0 stands for any free one.
    Here(u16),
    /// `HOST:PORT`, an address of this machine or a name for one.
    Named(&'a str),
}

impl<'a> Address<'a> {
    /// Binds the address and listens at it. `Err`: no address could be listened at, or the name couldn't be looked up.
    pub(crate) fn listen<R: Net<Listener = TcpListener, Stream = TcpStream>>(
        self,
        rt: &R,
    ) -> io::Result<TcpListener> {
        match self {
            Address::Here(port) => listen(rt, port),
            Address::Named(host) => listen_at(rt, host),
        }
    }
}
