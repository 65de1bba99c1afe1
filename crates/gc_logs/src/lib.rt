//! Messages and logs: how an end is reported, with the system's reason; what is noticed of a line, of its connection and of files; the standard
//! streams, and what went through one, as proofs see it. A file of rows is followed at its path, over moves and changes of date; the
//! files that it leaves last ([`laws::earlier_files_last`]).
//!
//! [`Logged`] is a link over any other, whose log has each line that went or came, and what became of the connection, each with its
//! moment. Its acts are those of the link inside, and each call says which lines of the log it wrote for its act.
//! [`laws::log_keeps_all`]: the log and what isn't written yet have all bytes of each direction, in order. [`Rolling`] is a sink for a log
//! in two files of a bounded size, [`FilesAt`] are its files on the disk, and [`laws::logs_keep_the_newest`]: both together have the
//! newest lines, each whole.
#![tactic(auto)]

mod blanks;
mod ending;
mod files;
mod files_at;
mod following;
mod heard;
mod hours;
pub mod laws;
mod logged;
mod logging;
mod lossy;
mod noting;
mod oddity;
mod opening;
mod rate_limit;
mod rolling;
mod short_text;
mod standard;
mod streams;
mod told;
mod transcript;
mod turns;
mod unasked;

pub use blanks::report_blanks;
pub use ending::{
    refuse, refuse_at, refuse_date, refuse_numbers, refuse_place, refuse_stale, refuse_unit,
    report_end, report_end_at, report_served, tell_place,
};
pub use files::{FilesNews, FilesSeen, FilesTold, LogSeen, MINUTE, report_copied, report_torn};
pub use files_at::FilesAt;
pub use following::Followed;
pub use heard::{Heard, hear_text};
pub use logged::Logged;
pub use lossy::Lossy;
pub use noting::Noting;
pub use oddity::{Noticed, Noticing, Oddities, note_files};
pub use rate_limit::RateLimit;
pub use rolling::{Rolling, Rolls};
pub use short_text::ShortText;
pub use standard::{Places, Standard};
pub use streams::Streams;
pub use told::Told;
pub use transcript::{Piece, Transcript};
pub use turns::report_odd_angles;
pub use unasked::{report_unasked, report_unused_names, report_unwatched};
