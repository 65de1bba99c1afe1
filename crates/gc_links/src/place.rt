//! Where an instrument is, as a word of the command line names it.

ghost use Rattle.std.specs.Prelude.{IfSome};
ghost use Rattle.gc_links.specs.Places.{IsPort, NamesPlace};

use gc_values::read_whole;
use memchr::{memchr, memrchr};
use std::fmt::{self, Display, Formatter};

/// Where an instrument is.
#[derive(Clone, Copy, Debug)]
pub enum Place<'a> {
    /// A port of 127.0.0.1.
    Port(u16),
    /// An address or a name, and its port: `HOST:PORT`, or `[ADDRESS]:PORT` where colons are in the address.
    Host(&'a str),
    /// The path of a device.
    Device(&'a str),
}

impl<'a> Display for Place<'a> {
    // Writes the place as a word, a port with its address in front.
    fn fmt<W: fmt::Write>(&self, f: &mut Formatter<W>) -> fmt::Result {
        match self {
            Place::Port(port) => write!(f, "127.0.0.1:{port}"),
            Place::Host(word) | Place::Device(word) => write!(f, "{word}"),
        }
    }
}

/// The place that a word names. A word with a slash is the path of a device; `://`, as in a URL, is refused. Any other word
/// is a port from 1 to 65535, or `HOST:PORT` with such a port. A host with colons (an IPv6 address) is in brackets, and no
/// other host is. `None`: the word is none of the three. No clause says which words are none, nor what brackets and `://`
/// mean.
pub fn place_of(word: &str) -> Option<Place<'_>>
    ensures { IfSome result (λ place. NamesPlace word.now place) }
{
    let bytes = word.as_bytes();
    if memchr(b'/', bytes).is_some() {
        return if is_url(bytes) {
            None
        } else {
            Some(Place::Device(word))
        };
    }
    let Some(at) = memrchr(b':', bytes) else {
        return Some(Place::Port(read_port(bytes)?));
    };
    if at == 0 || !is_host(&bytes[..at]) {
        return None;
    }
    read_port(&bytes[at + 1..])?;
    Some(Place::Host(word))
}

// Whether `://` is in a word.
fn is_url(word: &[u8]) -> bool {
    word.windows(3).any(|part| part == b"://".as_slice())
}

// Whether this names a host: an address with colons in brackets, or something without colons and brackets.
fn is_host(host: &[u8]) -> bool {
    match within_brackets(host) {
        Some(address) => has_colon(address) && !has_bracket(address),
        None => !has_colon(host) && !has_bracket(host),
    }
}

// The text between a host's brackets. `None`: the host doesn't begin with `[` and end with `]`.
fn within_brackets(host: &[u8]) -> Option<&[u8]> {
    host.strip_prefix(b"[")?.strip_suffix(b"]")
}

// Whether a colon is in a text.
fn has_colon(text: &[u8]) -> bool {
    memchr(b':', text).is_some()
}

// Whether `[` or `]` is in a text.
fn has_bracket(text: &[u8]) -> bool {
    text.iter().any(|b| matches!(*b, b'[' | b']'))
}

// The port that digits write, from 1 to 65535. `None`: they write no such port.
fn read_port(digits: &[u8]) -> Option<u16>
    ensures { IfSome result (λ port. IsPort digits.now port) }
{
    match read_whole(digits, 65535) {
        Ok(0) | Err(_) => None,
        Ok(port) => Some(port as u16),
    }
}
