//! A station of one's own, played over a simulated line on which some things go wrong: the example that `docs/LIBRARY.md` names.
//! `rt try -- own_station` plays it alone.

mod line;
mod station;

use gc_catalogue::{Asked, Call, Reading};
use gc_client::Outcome;
use gc_session::Settings;
use line::Lossy;
use station::OwnStation;
use std::io;

/// Asks for the instrument's number ten times, and prints how each request ended. It returns `true`: what has to be printed is in the
/// crate's `stdout`. `Err`: a line can't be printed.
pub fn play_own_station(rt: &HostRuntime) -> io::Result<bool> {
    let mut link = Lossy::link(rt.alloc());
    let mut station = OwnStation::new(Settings {
        width: 1,
        timeout: 2_000,
        quiet: 500,
    });
    for target in 0..10 {
        let call = Asked::Table(Call::InstrumentNo);
        match station.ask(&mut link, target, &call, 2_000) {
            Some(Outcome::Answered(Reading::Value(value), _)) => println!(rt;
                "{target}: {value:?}"
            )?,
            Some(ended) => println!(rt; "{target}: {ended:?}")?,
            None => println!(rt; "{target}: not sent")?,
        }
    }
    Ok(true)
}
