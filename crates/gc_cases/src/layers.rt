//! Plays the cases of the layers up to the instrument, and of files of rows. The cases of a layer are in a file of their own,
//! `layers.NAME`, and are played by the file of this module for that layer (`measuring.rt` for `stations`).
//!
//! A case is a list of rows, `do WORD WHAT -> CAME` (`play_rows` of gc_probes). A `Row` has WORD, WHAT as it is (`what`), and the
//! bytes for which WHAT stands (`bytes`). What a function reports is appended to `came`, a text that is then compared with CAME.

mod beginning;
mod calls;
mod client;
mod embedded;
mod files;
mod instrument;
mod lines;
mod measuring;
mod ports;
mod twice;
mod values;

use beginning::Beginnings;
use calls::Calls;
use client::play_clients;
use files::Files;
use gc_probes::{Case, Player, Told, play_folder, play_rows};
use instrument::Instruments;
use lines::Lines;
use measuring::Stations;
use ports::Ports;
use std::io;
use values::Values;

// The layers, each with cases in a file of its own.
#[derive(Drop)]
enum Layer {
    Lines,
    Ports,
    Values,
    Calls,
    Client,
    Beginning,
    Stations,
    Instrument,
    Files,
}

impl Player for Layer {
    // Plays a case of the layer. There is never an error.
    fn play(&self, _rt: &HostRuntime, case: &Case<'_>, wrong: &mut Told) -> io::Result<()> {
        self.play_case(case, wrong);
        Ok(())
    }
}

impl Layer {
    // Plays a case of the layer. What came otherwise than the case expects is appended to `wrong`.
    fn play_case(&self, case: &Case<'_>, wrong: &mut Told) {
        match self {
            Layer::Lines => play_rows(case, &mut Lines::new(), wrong),
            Layer::Ports => play_rows(case, &mut Ports, wrong),
            Layer::Values => play_rows(case, &mut Values, wrong),
            Layer::Calls => play_rows(case, &mut Calls, wrong),
            Layer::Client => play_clients(case, wrong),
            Layer::Beginning => play_rows(case, &mut Beginnings::new(), wrong),
            Layer::Stations => play_rows(case, &mut Stations::new(wrong.alloc), wrong),
            Layer::Instrument => play_rows(case, &mut Instruments::new(wrong.alloc), wrong),
            Layer::Files => play_rows(case, &mut Files::new(), wrong),
        }
    }
}

/// Plays the cases of all layers, from the files of a folder, and returns whether all came to what they expect. `Err`: that of
/// `play_folder`; no further file is played then.
pub fn play_layers(rt: &HostRuntime, folder: &str) -> io::Result<bool> {
    let mut are_right = play_folder(rt, folder, "lines", &Layer::Lines)?;
    are_right &= play_folder(rt, folder, "ports", &Layer::Ports)?;
    are_right &= play_folder(rt, folder, "values", &Layer::Values)?;
    are_right &= play_folder(rt, folder, "calls", &Layer::Calls)?;
    are_right &= play_folder(rt, folder, "client", &Layer::Client)?;
    are_right &= play_folder(rt, folder, "beginning", &Layer::Beginning)?;
    are_right &= play_folder(rt, folder, "stations", &Layer::Stations)?;
    are_right &= play_folder(rt, folder, "instrument", &Layer::Instrument)?;
    are_right &= play_folder(rt, folder, "files", &Layer::Files)?;
    Ok(are_right)
}
