//! The instrument of a scene for C, C++ and Python: a static library over `gc_scenes`, with the names of
//! `library/include/geocom.h`. It is asked within the program that tests with it, without a port or a process. The memory of an
//! instrument is the caller's, and so is the clock; a call takes memory of its own only while it reads a scene, and gives it
//! back. No call waits, starts a thread or opens anything.
#![tactic(auto)]

mod bench;
mod exports;
mod header;
mod replied;
mod setting;

pub use bench::GeocomInstrument;
pub use exports::{
    geocom_instrument_feed, geocom_instrument_init, geocom_instrument_restart,
    geocom_instrument_size,
};
pub use header::instrument_numbers_are_the_headers;
pub use replied::{GeocomMade, GeocomReplied};
