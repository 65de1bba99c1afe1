//! The program `geocom`: it checks which standard streams are open, and hands these, its words and the system to `gc_console`.
#![tactic(auto)]

use gc_console::{Standard, Streams, run_program};
use std::process::ExitCode;
use std::{env, io};

// Runs the program with the system's words, over its streams, net, clock and files, and returns the exit status. `Err`: as
// `run_program` says.
fn main(rt: HostRuntime) -> io::Result<ExitCode> {
    // What is noted of the run is for proofs alone.
    let (ended, _) = run_program(
        &rt,
        rt.alloc(),
        Standard::look(&rt.stdin(), &rt.stdout(), &rt.stderr()),
        env::args(&rt),
        Streams {
            input: rt.reader(),
            output: rt.stdout(),
            messages: rt.stderr(),
        },
    );
    ended
}
