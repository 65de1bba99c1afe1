//! Ends of connections within this machine.

use gc_links::listen;
use gc_probes::Told;
use std::io::{self, Read};
use std::net::{TcpListener, TcpStream};
use std::time::Duration;

/// Listens at 1024, the lowest port that any user may listen at. A call that took 1024 in place of a lower port would then
/// connect, where the case expects a failure. `Err`: the system doesn't let it listen there, as where another program does.
pub fn listener_at_1024(rt: &HostRuntime) -> io::Result<TcpListener> {
    listen(rt, 1024)
}

// How long a read of a stream waits at most, in milliseconds.
const READ_PATIENCE: u64 = 200;

/// The same stream, of which each read waits for at most `READ_PATIENCE` from now on. `Err`: the system can't bound them.
pub fn bounded(stream: TcpStream) -> io::Result<TcpStream> {
    stream.set_read_timeout(Some(Duration::from_millis(READ_PATIENCE)))?;
    Ok(stream)
}

/// Accepts the next connection to this listener, and returns its end here, of which each read waits for at most `READ_PATIENCE`.
/// It waits for ever if none is made. `Err`: the system can't accept one, or can't bound its reads.
pub fn accepted(listener: &TcpListener) -> io::Result<TcpStream> {
    let (stream, _) = listener.accept()?;
    bounded(stream)
}

/// Appends the bytes that a stream gives until its end, and returns whether the end came: `false` if a read failed or gave
/// nothing in its time, or memory ran out. The bytes that came before that may be appended.
pub fn hear(stream: &mut TcpStream, bytes: &mut Vec<u8>) -> bool {
    stream.read_to_end(bytes).is_ok()
}

/// Reports that a connection was at its end, and the bytes that came before it, if there were any.
pub fn tell_end_behind(bytes: &[u8], came: &mut Told) {
    came.either(bytes.is_empty(), "the end", "the end behind ");
    came.bytes(bytes);
}
