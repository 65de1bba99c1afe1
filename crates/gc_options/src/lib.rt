//! The words of the command line: arguments as tables, with their help, and what those of `station` and `rehearse` say.
#![tactic(auto)]

mod arguments;
mod choice;
mod given;
pub mod help;
mod layout;
mod limit;
mod rehearsal;
mod settings;
mod shared;
mod site;
mod unit;
mod version;

pub use arguments::{Argument, FLAG, PLACE, SCENE, Takes, command_of, named_place};
pub use choice::{Choice, Watch, station_command, station_of};
pub use given::{byte_in, byte_or, has_flag, text_in, u32_in, u32_or, u64_in, u64_or};
pub use layout::Layout;
pub use limit::{Limit, missing_limit};
pub use rehearsal::{DAY, Rehearsal, rehearsal_of, rehearse_command};
pub use settings::Settings;
pub use site::{LogPlace, Recording, Site, log_of, recording_of, signals_of};
pub use unit::{Unit, unit_of};
pub use version::VERSION;
