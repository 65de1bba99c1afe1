//! The files of a folder, played: each of their cases is run, and what came is compared with what the case expects. Where these
//! differ, a line with what came is appended to the text `wrong`.

use crate::case::{Case, cut_case};
use crate::told::{Told, text_of};
use std::alloc::{AllocError, Global};
use std::{fs, io};

/// Plays the cases of files.
pub trait Player {
    /// Plays a case, and appends a line to `wrong` for each key or row where something else came than the case expects
    /// (`Case::compare`, `play_rows`). `Err`: an error of the system; the case counts as one that came to something else.
    fn play(&self, rt: &HostRuntime, case: &Case<'_>, wrong: &mut Told) -> io::Result<()>;
}

// How many cases a file has, and how many of them came to what they expect.
#[derive(Clone, Copy)]
struct Counts {
    cases: u64,
    right: u64,
}

/// Plays each file of a folder whose name has this ending, as `.stations`, in the order of their names. For each it prints what
/// differs from what its cases expect, and a line with the counts. It returns whether all cases of all files came to what they
/// expect, and `true` where there is no such file. Where memory runs out for what came of a case, the case counts as one that
/// came to something else; where it runs out for a line of what differs, so does each later case of the file. `Err`: the folder
/// or a file can't be read, a file isn't UTF-8, a line can't be printed, or memory ran out for the names or a file's text; then
/// no further file is played.
pub fn play_folder<P: Player>(
    rt: &HostRuntime,
    folder: &str,
    ending: &str,
    player: &P,
) -> io::Result<bool> {
    let names = names_of(rt, folder, ending)?;
    play_files(rt, folder, names.as_slice(), player)
}

/// The names in a folder that have an ending, in order, of files and of folders in it; all of them if the ending is empty. `Err`:
/// the folder can't be read, or memory ran out.
pub fn names_of(rt: &HostRuntime, folder: &str, ending: &str) -> io::Result<Vec<String>> {
    let mut names = Vec::new(rt.alloc());
    add_names(rt, folder, ending, &mut names)?;
    names.sort()?;
    Ok(names)
}

// Appends the names in a folder that have an ending, in the order in which the system lists them. `Err`: the folder can't be
// read, or memory ran out; some names may be appended.
fn add_names(
    rt: &HostRuntime,
    folder: &str,
    ending: &str,
    names: &mut Vec<String>,
) -> io::Result<()> {
    for entry in fs::read_dir(rt, folder)? {
        add_name(rt.alloc(), entry?.file_name(), ending, names)?;
    }
    Ok(())
}

// Appends a name, if it has the ending. `Err`: memory ran out, and nothing was appended.
fn add_name(
    alloc: Global,
    name: &str,
    ending: &str,
    names: &mut Vec<String>,
) -> Result<(), AllocError> {
    if name.ends_with(ending) {
        names.push(String::from_str(alloc, name)?)?;
    }
    Ok(())
}

// Plays these files of a folder, and returns whether all their cases came to what they expect. `Err`: that of `play_file`; no
// further file is played then.
fn play_files<P: Player>(
    rt: &HostRuntime,
    folder: &str,
    names: &[String],
    player: &P,
) -> io::Result<bool> {
    let mut are_right = true;
    for name in names {
        are_right &= play_file(rt, folder, name.as_str(), player)?;
    }
    Ok(are_right)
}

// Plays a file of a folder, prints how it went, and returns whether all its cases came to what they expect. Where what differs
// isn't UTF-8, `no text` is printed in its place. `Err`: the file can't be read or isn't UTF-8, memory ran out for its text, or
// how it went can't be printed.
fn play_file<P: Player>(
    rt: &HostRuntime,
    folder: &str,
    name: &str,
    player: &P,
) -> io::Result<bool> {
    let text = text_of_file(rt, folder, name)?;
    let mut wrong = Told::new(rt.alloc());
    let counts = play_text(rt, text.as_str(), player, &mut wrong);
    tell_file(rt, name, counts, text_of(wrong.as_bytes()))
}

// Reads the text of a file of a folder. `Err`: the file can't be read or isn't UTF-8, or memory ran out.
fn text_of_file(rt: &HostRuntime, folder: &str, name: &str) -> io::Result<String> {
    let path = format!(in rt.alloc(); "{folder}/{name}")?;
    fs::read_to_string(rt, path.as_str())
}

// Prints `wrong`, the text of what differs from what a file's cases expect, and a line with the counts. It returns whether all
// cases came to what they expect. `Err`: it can't be printed.
fn tell_file(rt: &HostRuntime, name: &str, counts: Counts, wrong: &str) -> io::Result<bool> {
    let Counts { cases, right } = counts;
    let otherwise = cases.saturating_sub(right);
    println!(rt; "{wrong}{name}: {right} as expected, {otherwise} otherwise")?;
    Ok(otherwise == 0)
}

// Plays the cases of a text, and returns how many there are, and how many came to what they expect. A text has no more cases than
// bytes.
fn play_text<P: Player>(rt: &HostRuntime, text: &str, player: &P, wrong: &mut Told) -> Counts {
    let mut cases = 0u64;
    let mut right = 0u64;
    let mut rest = text;
    for _ in 0..text.len() {
        let Some((case, behind)) = cut_case(rest) else {
            break;
        };
        rest = behind;
        cases = cases.saturating_add(1);
        if play_case(rt, player, &case, wrong) {
            right = right.saturating_add(1);
        }
    }
    Counts { cases, right }
}

// Plays a case, and returns whether it came to what it expects: nothing was appended to `wrong`, and `wrong` lacks no part
// afterwards. Once memory ran out for a line of a case, `wrong` lacks a part, and so `false` is returned for each later case. A
// line is appended where the player returns an error, too.
fn play_case<P: Player>(rt: &HostRuntime, player: &P, case: &Case<'_>, wrong: &mut Told) -> bool {
    let before = wrong.as_bytes().len();
    if player.play(rt, case, wrong).is_err() {
        case.tell_wrong("end", b"an error of the system", wrong);
    }
    !wrong.is_lacking() && wrong.as_bytes().len() == before
}
