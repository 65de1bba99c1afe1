//! The examples, played. Each stream of requests goes through `exec`, that of a scene through the scene's instrument, each
//! recording through `check` and each schedule through `drill --totals`, on the scene's instrument if there is one: whole, in single
//! bytes, and cut in two at every place. What is written must be the file of the expected output each time. The folder in which the
//! program runs is read whole, so that no example is forgotten. Then each is played once more, with some that have no files.

mod client;
mod columns;
mod example;
mod links;
mod once;
mod outcome;

pub use columns::play_columns;
use example::Example;
use gc_probes::names_of;
use once::play_once;
use std::io;

/// Plays the examples whole and in all cuts, and then each once, prints a line for each, and returns whether each gave what was
/// expected. `Err`: a folder or a file can't be read, a line can't be printed, or memory ran out for a name or a file.
pub fn play_examples(rt: &HostRuntime) -> io::Result<bool> {
    let names = names_of(rt, ".", "")?;
    let are_cuts_right = play_cuts(rt, names.as_slice())?;
    let is_once_right = play_once(rt, names.as_slice())?;
    Ok(are_cuts_right && is_once_right)
}

/// Plays the examples once, as `play_once` does. `Err`: that of `play_examples`.
pub fn play_examples_once(rt: &HostRuntime) -> io::Result<bool> {
    let names = names_of(rt, ".", "")?;
    play_once(rt, names.as_slice())
}

// Plays each example among these files of the folder whole and in all cuts, prints a line for each, and returns whether each gave
// what was expected. Files that aren't the input of an example are passed over. `Err`: a file can't be read, a line can't be
// printed, or memory ran out for a file or its name; then no further example is played.
fn play_cuts(rt: &HostRuntime, names: &[String]) -> io::Result<bool> {
    let mut is_right = true;
    for name in names {
        if let Some(example) = Example::find(rt, name.as_str())? {
            is_right &= print_cuts(rt, name.as_str(), example.fault())?;
        }
    }
    Ok(is_right)
}

// Prints the line of an example. `fault` is what `Example::fault` says of it: empty if the example gave what was expected in all
// cuts. Returns whether `fault` is empty.
fn print_cuts(rt: &HostRuntime, name: &str, fault: &str) -> io::Result<bool> {
    if fault.is_empty() {
        println!(rt; "{name}: as expected, whole and in all cuts")?;
        return Ok(true);
    }
    println!(rt; "{name}: another output{fault}")?;
    Ok(false)
}
