//! Connections: what a link is, the links over TCP and over a device, both ends of a line as they are read and written, and the
//! ports that are listened at.
#![tactic(auto)]

mod calls;
mod connection;
mod device;
mod device_link;
mod history;
pub mod laws;
mod link;
mod listening;
mod moments;
mod noting;
mod place;
mod placed;
mod serial;
mod signals;
mod slot;
mod system;
mod tcp;
mod telling;
mod timer;
mod watched;
mod wire;
mod wiring;

pub use calls::Calls;
pub use device::Unusable;
pub use device_link::DeviceLink;
pub use history::{History, Note};
pub use link::{Came, Link, Moment};
pub use listening::{accept, both_ends, connect_here, listen, listen_at};
pub use place::{Place, place_of};
pub use placed::PlacedLink;
pub use signals::Signals;
pub use tcp::TcpLink;
pub use telling::Telling;
pub use timer::millis_of;
pub use watched::{LinkRecord, ValueFiles, Watched};
pub use wire::{Wire, read_stream_within, wire_on, wire_to, write_stream};
