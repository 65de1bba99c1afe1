//! The gate's cases and worked examples, played, all but those of the program itself (gc_program_cases): no part of the product.
//! Each part is a module, and what it plays is in the folder where the program runs:
//!
//!     layers        the layers up to the instrument, and files of rows: cases in the folder `layers`
//!     station       runs of a station, and the files of a log: the folder `station`
//!     ports         real connections, devices, callers that are served: the folder `ports`
//!     own_station   a station of one's own, over a simulated line
//!     examples      worked examples through their engines: the files of the folder itself; then each once more
//!     once          each example once, and nothing else of them: a run that can be refused memory
//!     cases         the layers above the instrument, but for a station's runs: the folder `cases`
//!     columns       the list of columns: the file `columns.csv`
//!
//! The word after the program's name is the part to play. Without a word all are played but `once`, in this order.
#![tactic(auto)]

mod cases;
mod examples;
mod layers;
mod own_station;
mod ports;
mod station;

use cases::play_cases;
use examples::{play_columns, play_examples, play_examples_once};
use layers::play_layers;
use own_station::play_own_station;
use ports::play_ports;
use station::play_station;
use std::process::ExitCode;
use std::{env, io};

// Plays the part that the first word after the program's name says, or all if there is none. The status is 0 if all came to what
// it has to, and otherwise 1. `Err`: a word isn't UTF-8, a folder or a file can't be read, a line can't be printed, or memory ran
// out for the words, a name or a file.
fn main(rt: HostRuntime) -> io::Result<ExitCode> {
    let words: Vec<String> = env::args(&rt)?.collect(rt.alloc())?;
    let part = words.get(1).map_or("", |word| word.as_str());
    let is_right = play_part(&rt, part)?;
    Ok(ExitCode::from(u8::from(!is_right)))
}

// Plays a part, or all if the word is empty, and returns whether all came to what it has to; `false` if no part has this name.
// `Err`: that of the part.
fn play_part(rt: &HostRuntime, part: &str) -> io::Result<bool> {
    match part {
        "" => play_all(rt),
        "layers" => play_layers(rt, part),
        "station" => play_station(rt, part),
        "ports" => play_ports(rt, part),
        "own_station" => play_own_station(rt),
        "examples" => play_examples(rt),
        "once" => play_examples_once(rt),
        "cases" => play_cases(rt, part),
        "columns" => play_columns(rt),
        _ => refuse_part(rt, part),
    }
}

// Prints that no part has this name, and returns `false`. `Err`: the line can't be printed.
fn refuse_part(rt: &HostRuntime, part: &str) -> io::Result<bool> {
    println!(rt; "no part {part}")?;
    Ok(false)
}

// Plays all parts, and returns whether all came to what it has to. `Err`: that of a part; then no further part is played.
fn play_all(rt: &HostRuntime) -> io::Result<bool> {
    let mut is_right = play_layers(rt, "layers")?;
    is_right &= play_station(rt, "station")?;
    is_right &= play_ports(rt, "ports")?;
    is_right &= play_own_station(rt)?;
    is_right &= play_examples(rt)?;
    is_right &= play_cases(rt, "cases")?;
    is_right &= play_columns(rt)?;
    Ok(is_right)
}
