//! A station over its ports: its text, its records and their file, its log, and the messages that it writes while it measures.
#![tactic(auto)]

mod angles;
mod bound;
mod checking;
mod codes;
mod counts;
mod describing;
mod doubts;
mod expecting;
mod labels;
pub mod laws;
mod logging;
mod measure;
mod odd;
mod plan;
mod recording;
mod reporter;
mod row;
mod sendings;
mod signs;
mod spot;
mod starts;
mod station;
mod stop;
mod task_text;
mod unanswered;
mod unwell;
mod value_count;
mod values;
mod wanted;

pub use checking::{check_task_text, write_target};
pub use counts::{write_judged_counts, write_main_counts, write_other_counts};
pub use labels::Labels;
pub use measure::run_station_text;
pub use plan::{commands_per_cycle, plan_of};
pub use recording::{Appended, append_at, append_text_at};
pub use row::write_station_row;
pub use spot::Spot;
pub use station::{measure_at, measure_text_at, record_of};
pub use stop::Stop;
pub use task_text::{read_task_text, watches_of};
