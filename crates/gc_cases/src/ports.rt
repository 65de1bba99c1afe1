//! Cases of real connections, played: what a link reports of a socket and of a device, and how callers are served.

mod callers;
mod devices;
mod ends;
mod links;
mod rig;
mod streams;

use callers::CallersPlayer;
use gc_probes::play_folder;
use links::LinksPlayer;
use std::io;

/// Plays the files of links and of callers in a folder, and returns whether all cases came to what they expect. `Err`: that of
/// `play_folder`; if it comes of the links, no callers are played.
pub fn play_ports(rt: &HostRuntime, folder: &str) -> io::Result<bool> {
    let mut are_right = play_folder(rt, folder, ".links", &LinksPlayer)?;
    are_right &= play_folder(rt, folder, ".callers", &CallersPlayer)?;
    Ok(are_right)
}
