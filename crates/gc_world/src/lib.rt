//! The world: a client and an instrument with a line between them that loses, repeats and delays, event by event.
#![tactic(auto)]

mod direction;
mod entries;
mod event;
mod executing;
mod feeding;
pub mod laws;
mod parts;
mod playing;
mod queue;
mod report;
pub mod scene_laws;
mod side;
mod stage;

pub use direction::Direction;
pub use entries::Entries;
pub use event::Event;
pub use playing::{play, play_scene, play_width};
pub use report::{Made, Report, Sent};
