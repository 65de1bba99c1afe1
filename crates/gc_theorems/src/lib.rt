//! Theorems alone: clients, sessions and stations over lines of many connections, with an instrument at the other end. Whatever the lines lose
//! or repeat, and however often the instrument starts again, each answer is its own request's ([`laws`]). Over a line that also alters
//! lines ([`damage`]), each answer of fresh sends is its own request's, or its line is damaged; [`client_damage`] has that of the client's
//! rule alone, with a model of the line that needs no instrument.
#![tactic(auto)]

pub mod beginning;
pub mod client_damage;
pub mod damage;
pub mod laws;
pub mod scenes;
