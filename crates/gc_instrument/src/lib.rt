//! A simulated instrument: its state, what each call does to it, and its replies to lines.
#![tactic(auto)]

mod codes;
mod face;
mod instrument;
pub mod laws;
mod measurement;
mod pointing;
mod replies;
mod serving;
mod simulator;
mod target;

pub use codes::{INVALID_PARAMETER, NO_DISTANCE, NO_TARGET, UNKNOWN_PROCEDURE, WRONG_PARAMETERS};
pub use face::Face;
pub use gc_lines::{ServeFault, Served};
pub use instrument::{Instrument, Kept, SceneFull};
pub use measurement::{first_at, is_at};
pub use pointing::Pointing;
pub use replies::{Replies, answer_frame, reply_to_line};
pub use serving::serve;
pub use simulator::{SIMULATOR_SERIAL, simulator_name};
pub use target::Target;
