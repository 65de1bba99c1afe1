//! Rehearsals: a station measures over a line in memory, night after night, in simulated time. Each row that says that a reply came is
//! compared with the truth.
//!
//! The line is [`Rehearsed`], a [`Link`](gc_links::Link) as a socket is, so that a station runs over it unchanged. At its other end the
//! instrument of a scene is. A [`Chance`] decides what happens to each line. Whatever it decides, lines keep their order, and each is
//! lost whole or arrives whole, once or more times directly one after the other; unless the link was made as one that alters bytes, or
//! whose instrument sends replies late, of which nothing is claimed.
//!
//! In a rehearsal the rules of a text ([`Rules`]) and the draws of a seed ([`Draws`]) decide.
#![tactic(auto)]

mod altering;
mod askable;
mod book;
mod carried;
mod chance;
mod claim;
mod counts;
mod deadlines;
mod draw;
mod explained;
mod fate;
mod flight;
mod frequency;
mod halt;
mod late;
pub mod laws;
mod line_state;
mod nights;
mod quotient;
mod reading;
mod receivers;
mod rehearsal;
mod rehearsed;
mod report;
mod rule;
mod rule_fault;
mod rules;
mod seeded;
mod share;
mod spaced;
mod summary;
mod truth;

pub use altering::alter;
pub use askable::commands_are_askable;
pub use chance::{Altered, Chance, Fate};
pub use claim::{Claim, first_false};
pub use counts::Counts;
pub use draw::{Draws, among};
pub use fate::{LineFate, fate_of, restarts_at};
pub use frequency::Frequency;
pub use reading::{Refusal, read_rules};
pub use rehearsal::rehearse;
pub use rehearsed::Rehearsed;
pub use rule::{RuleFault, Word};
pub use rules::Rules;
pub use truth::Truth;
