//! Calls and answers and their lines. A procedure is a variant of `Call`, and a row each in `reading`, `writing` and
//! `names`; everything else is written and proved once, over kinds of parameters.
#![tactic(auto)]

mod answer;
mod asked;
mod asking;
mod calendar;
mod call;
mod fault;
pub mod laws;
mod names;
mod raw;
mod raw_text;
mod reading;
mod replies;
mod requests;
mod taking;
mod writing;

pub use answer::{Answer, Reading};
pub use asked::{Asked, decode_asked, decode_asked_into, encode_asked, encode_asked_onto};
pub use asking::Asking;
pub use calendar::{is_leap, month_days};
pub use call::{Call, DateTime, Station};
pub use fault::CallFault;
pub use names::{parameter_count, procedure_name};
pub use raw::{RawCall, RawFault, raw_call};
pub use raw_text::{RAW_BYTES, RawText};
pub use replies::{decode_answer, decode_answer_into, encode_answer, encode_answer_onto};
pub use requests::{decode_call, decode_call_into, encode_call, encode_call_onto};
