//! A session with an instrument over any number of connections, without a port and without a clock.
#![tactic(auto)]

mod choices;
mod deciding;
mod exchange;
pub mod laws;
mod lines;
mod load;
mod next;
mod session;
mod settings;
mod standing;

pub use choices::Choices;
pub use exchange::{Exchange, hold_left, later};
pub use lines::{calls_for_renewal, heard_reply, is_reply, raises_doubt};
pub use load::{Load, width_within};
pub use next::Next;
pub use session::{NotTaken, OWN, Session};
pub use settings::{Act, Settings, Want};
pub use standing::{Phase, Standing};
