//! Laws alone: from the instrument that executes a request to the fields of the row that a station writes of it, from the words of a
//! command line to such rows, and from what happens on the line of a rehearsal to the answers that its runs record.
#![tactic(auto)]

pub mod laws;
