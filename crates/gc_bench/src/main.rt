//! A measuring aid, and no part of the product: it does one thing COUNT times, so that an instruction counter at COUNT
//! and at twice COUNT shows what the thing costs once.
#![tactic(auto)]

mod decimals;
mod rows;
mod sending;

use gc_client::{Ring, Slots};
use std::process::ExitCode;
use std::{env, io};

// Does what the words of the command line ask for: what, how often, and for rows in which file. The sum is printed so that the
// compiler can't leave out any work as useless. The status is 2 where `sum_of` gives none, and otherwise 0. `Err`: a word isn't
// UTF-8, memory ran out for the words, or the sum can't be printed.
fn main(rt: HostRuntime) -> io::Result<ExitCode> {
    let words: Vec<String> = env::args(&rt)?.collect(rt.alloc())?;
    match sum_of(&rt, words.as_slice()) {
        Some(sum) => {
            println!(rt; "checksum {sum}")?;
            Ok(ExitCode::SUCCESS)
        }
        None => Ok(ExitCode::from(2)),
    }
}

// Does what the words ask for, and returns the sum of what was done. `None`: the words aren't `read`, `write`, `send-ring` or
// `send-slots` with a count, or `rows` or `rows-sync` with a count and a file; or a ring got no memory.
fn sum_of(rt: &HostRuntime, words: &[String]) -> Option<u64> {
    let thing = words.get(1)?.as_str();
    let count = words.get(2)?.as_str().parse::<u32>().ok()?;
    match thing {
        "read" => Some(decimals::read(count)),
        "write" => Some(decimals::write(count)),
        "send-ring" => Some(sending::send(Ring::new(rt.alloc()).ok()?, count)),
        "send-slots" => Some(sending::send(Slots::new(), count)),
        "rows" => Some(rows::append(rt, words.get(3)?.as_str(), count, false)),
        "rows-sync" => Some(rows::append(rt, words.get(3)?.as_str(), count, true)),
        _ => None,
    }
}
