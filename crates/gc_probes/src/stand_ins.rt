//! What players share: the errors that a case's runtime returns (`runtime.rt`), and the port of a listener.

use std::io::{self, ErrorKind};
use std::net::TcpListener;

/// A result, always the error of a file, a folder or an address that isn't there.
pub fn not_found<T>() -> io::Result<T> {
    Err(io::Error::from(ErrorKind::NotFound))
}

/// A result, always the error of a call that comes while another one is still running.
pub fn in_use<T>() -> io::Result<T> {
    Err(io::Error::from(ErrorKind::ResourceBusy))
}

/// The port of a listener; 0 if the system doesn't say.
pub fn port_of(listener: &TcpListener) -> u16 {
    match listener.local_addr() {
        Ok(address) => address.port(),
        Err(_) => 0,
    }
}
