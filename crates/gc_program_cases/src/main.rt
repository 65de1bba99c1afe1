//! Cases of the program, played: tests that are data, and no part of the product. The files of the folder it runs in are played,
//! which has the scenes that their words name, too.
#![tactic(auto)]

mod far_end;
mod parts;
mod program;
mod room;
mod said;
mod site;

use gc_probes::play_folder;
use program::Program;
use std::io;
use std::process::ExitCode;

// Plays the files of cases. The status is 1 if a case came to something else than it expects. `Err`: that of `play_folder`.
fn main(rt: HostRuntime) -> io::Result<ExitCode> {
    let are_right = play_folder(&rt, ".", ".program", &Program)?;
    Ok(ExitCode::from(u8::from(!are_right)))
}
