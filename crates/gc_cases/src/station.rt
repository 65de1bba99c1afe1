//! Runs of a station, and the files of a log, played.

mod ends;
mod fixed_text;
mod kept;
mod log_files;
mod logs;
mod running;
mod script;
mod setting;
mod stations;
mod telling;
mod words;

use gc_probes::play_folder;
use log_files::LogFiles;
use stations::Stations;
use std::io;

/// Plays all files of a folder that end in `.stations`, and then those in `.logs`, and returns whether all cases came to what they
/// expect. `Err`: that of `play_folder`; no further file is played then.
pub fn play_station(rt: &HostRuntime, folder: &str) -> io::Result<bool> {
    let mut are_right = play_folder(rt, folder, ".stations", &Stations)?;
    are_right &= play_folder(rt, folder, ".logs", &LogFiles)?;
    Ok(are_right)
}
