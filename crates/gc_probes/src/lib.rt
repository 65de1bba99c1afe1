//! What tests are made of: ports that give and take bytes in small pieces, and fail where a test says so; and cases that are data.
//!
//! In a text of cases a line `== NAME` begins a case, up to the next one. Each other line is a key and, after a space, its value. A
//! line that is empty or begins with `#` says nothing. In a value `\n`, `\r`, `\t`, `\\` and `\xHH` (two hexadecimal digits) stand
//! for bytes.
//!
//! What came of a case is appended to a `Told`: a text whose calls return no error where memory runs out, so that a player has none
//! to pass on.
#![tactic(auto)]

mod case;
mod escapes;
mod input;
mod pipe;
mod playing;
mod rows;
mod runtime;
mod sink;
mod source;
mod stand_ins;
mod telling;
mod told;

pub use case::Case;
pub use escapes::{bytes_of, push_bytes_of};
pub use input::input_of;
pub use pipe::{Pipe, PipeSink, PipeSource};
pub use playing::{Player, names_of, play_folder};
pub use rows::{Row, Rows, cut_word, play_rows};
pub use runtime::{CaseRuntime, StandIn};
pub use sink::PieceSink;
pub use source::PieceSource;
pub use stand_ins::{in_use, not_found, port_of};
pub use told::{Told, text_of};
