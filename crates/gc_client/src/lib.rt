//! The client: what a monitoring station embeds. It reads no clock and opens no port.
#![tactic(auto)]

mod beginning;
mod client;
mod ending;
mod heard;
pub mod laws;
mod pending;
mod ring;
mod settlement;
mod slots;
mod window;

pub use beginning::{Beginning, WORD};
pub use client::{Client, WindowFull};
pub use heard::{Heard, Hearing};
pub use pending::Pending;
pub use ring::{Ring, RingOf};
pub use settlement::{Outcome, Settlement};
pub use slots::{Slots, SlotsOf};
pub use window::{IDS, WINDOW, Window};
