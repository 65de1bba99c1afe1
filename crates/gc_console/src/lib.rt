//! The program `geocom`: a command line over standard streams. Which subcommand the words ask for, and for each but `station` and
//! `rehearse` its words and the function that runs it. Main items of the crates below have a name here, too.
#![tactic(auto)]

pub mod ask;
mod asked;
mod asking;
pub mod check;
pub mod drill;
pub mod exec;
pub mod looped;
mod program;
mod reads;
mod refusal;
mod said;
mod scene;
pub mod serve;
mod system;
mod traces;
mod words;

pub use gc_ask::{ask_at, ask_tcp, loop_tcp, run_ask, run_loop, serve_tcp};
pub use gc_filters::{read_schedule, run_check, run_drill, run_drill_width, run_exec};
pub use gc_instrument::{ServeFault, Served};
pub use gc_links::{Link, Place};
pub use gc_logs::{FilesSeen, LogSeen, Noticed, Oddities, Standard, Streams};
pub use gc_measuring::{Spot, Stop, laws, plan_of, run_station_text};
pub use gc_options::{Choice, Layout, Settings, Watch};
pub use gc_rows::Form;
pub use gc_station::Tally;
pub use gc_texts::{Command, RunFault, Trouble, read_commands};
pub use program::run_program;
pub use said::Said;
pub use traces::{Acted, Traces};
pub use words::{ClientJob, Job, Subcommand, job_of};
