//! The instrument of a scene with rules: faults, hidden and moving targets, noise, replies to procedures that aren't in the table, ways
//! of real instruments, replies that take time, and starts at some requests. It uses the execution table of `gc_instrument`, and in a scene without rules it
//! does what the instrument there does.
#![tactic(auto)]

mod acting;
mod clock;
mod delay;
mod instrument;
pub mod laws;
mod replying;
mod rules;
mod ruling;
mod serving;
mod shifting;
mod slow;
mod starting;
mod ways;

pub use delay::Delay;
pub use instrument::SceneInstrument;
pub use rules::{Fault, Noise, Offset, Prism, SceneRules, Scripted};
pub use serving::serve_scene;
pub use slow::SlowInstrument;
pub use ways::{Way, Ways};
