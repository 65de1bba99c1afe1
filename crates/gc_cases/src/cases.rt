//! The cases, played: tests that are data. Each file of a folder is played by the player of its ending.

mod counting;
mod engines;
mod failing;
mod outcome;
mod records;
mod scene_runs;
mod setup;
mod single_bytes;
mod sink;
mod texts;
mod world;

use engines::Engines;
pub use engines::first_differing_recut;
use failing::Failing;
use gc_probes::play_folder;
use records::Records;
pub use setup::{Engine, Setup};
use std::io;
use texts::Texts;
use world::World;

/// Plays the cases of a folder, as `play_folder` does for each of the five endings, and returns whether all came to what they
/// expect. Files with other endings are ignored. `Err`: as `play_folder`, and no further file is played.
pub fn play_cases(rt: &HostRuntime, folder: &str) -> io::Result<bool> {
    let mut are_right = play_folder(rt, folder, ".engines", &Engines)?;
    are_right &= play_folder(rt, folder, ".failing", &Failing)?;
    are_right &= play_folder(rt, folder, ".texts", &Texts)?;
    are_right &= play_folder(rt, folder, ".records", &Records)?;
    are_right &= play_folder(rt, folder, ".world", &World)?;
    Ok(are_right)
}
