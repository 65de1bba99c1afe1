//! The lines of the GeoCOM ASCII protocol: ports, line assembly, requests and replies.
//!
//! Bytes come from a [`Source`] and go to a [`Sink`]. An [`Assembler`] makes lines of what was read, however it is cut: a
//! line that is whole in what was read is lent from there, and only a cut one is put together. A line is read as a
//! [`Request`] or a [`Reply`] and written again. Nothing here allocates.
#![tactic(auto)]

mod answering;
mod assembler;
mod fault;
mod frame;
mod from_reader;
mod header;
pub mod laws;
mod lengths;
mod line;
mod number;
mod ports;
mod read_ahead;
mod reply;
mod request;
mod served;
mod session;
mod to_writer;
mod writing;

pub use answering::{Answers, Outgoing, answer_frames};
pub use assembler::Assembler;
pub use fault::LineFault;
pub use frame::{Frame, Lent};
pub use from_reader::FromReader;
pub use line::{Line, append, bytes_from, is_plain, line_from, with_end};
pub use ports::{Durable, PortFailed, Sink, Source};
pub use read_ahead::ReadAhead;
pub use reply::{Reply, push_reply, read_reply, write_reply};
pub use request::{Request, begin_request, push_request, read_request, write_request};
pub use served::{READ_FAILED, READS_SPENT, ServeFault, Served, WRITE_FAILED};
pub use to_writer::ToWriter;
pub use writing::{write_line, write_whole};
