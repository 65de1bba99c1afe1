//! A station: commands sent over a link with deadlines, cycle after cycle, and each request's end recorded.
#![tactic(auto)]

mod book;
mod busy;
mod cause;
mod counters;
mod deciding;
mod described;
mod doubting;
mod due;
mod firsts;
mod kept;
pub mod laws;
mod mark;
mod overdue;
mod pace;
mod plan;
mod progress;
mod progressing;
pub mod record_laws;
mod recorded;
mod run;
mod station;
mod tally;
mod watching;
mod writing;

pub use book::{Book, LinkHealth};
pub use cause::Cause;
pub use due::is_turn;
pub use firsts::FIRSTS;
pub use kept::Kept;
pub use plan::Plan;
pub use run::run_station;
pub use tally::Tally;
pub use watching::{Watch, Watches};
pub use writing::is_well;
