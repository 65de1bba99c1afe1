//! Runs whose port fails at its call k, for each k from 0 until a run ends well. A case has the engine, its input and the port.
//! It expects groups of runs in a row that came to the same: how many they are, how they ended, and what was written. In its text
//! `a part` stands for the first k bytes of what a run without a fault writes, and `byte +` for a number of bytes that is 0 in
//! the first run of a group and one more in each further one.

use crate::cases::engines::push_single;
use crate::cases::outcome::{End, RunOutcome};
use crate::cases::setup::{Port, Setup, port_named};
use gc_probes::{Case, Player, Told};
use std::alloc::{AllocError, Global};
use std::io;

/// Plays `.failing`.
pub struct Failing;

// The most calls at which a port fails in turn. No run has so many.
const MOST_CALLS: u64 = 1000;

// The keys under which a case has its groups, in their order.
const KEYS: [&str; 5] = ["first", "second", "third", "fourth", "fifth"];

impl Player for Failing {
    // Sets a run up as the case says, with the input in single bytes, and plays it with a port that fails at each call in turn.
    // If memory runs out for the set-up, `wrong` notes that it lacks a part.
    fn play(&self, rt: &HostRuntime, case: &Case<'_>, wrong: &mut Told) -> io::Result<()> {
        let mut setup = Setup::unset(rt.alloc());
        match take_in_single_bytes(case, &mut setup) {
            Ok(()) => play_port(case, &mut setup, wrong),
            Err(_) => wrong.lack(),
        }
        Ok(())
    }
}

// Takes the set-up that a case says, with the input in single bytes after the sizes that the case names. `Err`: memory ran out.
fn take_in_single_bytes(case: &Case<'_>, setup: &mut Setup) -> Result<(), AllocError> {
    setup.take(case)?;
    push_single(&mut setup.sizes, setup.input.as_slice())
}

// Plays a set-up with the port that the case names failing at each call in turn; if it names none, only that is reported.
fn play_port(case: &Case<'_>, setup: &mut Setup, wrong: &mut Told) {
    match port_named(case.value("port")) {
        Some(port) => play_calls(case, port, setup, wrong),
        None => case.tell_wrong("port", b"none", wrong),
    }
}

// Runs a set-up with this port failing at call k, for each k from 0 until a run ends well, at most `MOST_CALLS` times, and
// compares the groups of runs with those that the case expects.
fn play_calls(case: &Case<'_>, port: Port, setup: &mut Setup, wrong: &mut Told) {
    let whole = setup.run(&[]);
    let mut groups = Groups::new(setup.alloc, *case, port, whole);
    for k in 0..MOST_CALLS {
        setup.fail_at(port, k);
        if groups.play_call(setup, k, wrong) {
            break;
        }
    }
    groups.finish(wrong);
}

// Appends how a run with a failing call ended, and what it wrote (`output`). `place` is the run's place in its group, counted
// from 0: a number of bytes that equals it is appended as `byte +`, so that the text is the same for each run of the group.
fn append_run(end: &End, output: &Told, place: u64, text: &mut Told) {
    text.append(&end.text);
    match end.bytes {
        Some(bytes) if bytes as u64 == place => text.text(" byte +"),
        Some(bytes) => text.titled(" byte ", &bytes),
        None => {}
    }
    text.text(": ");
    text.append(output);
}

// The groups of runs of a case that, in a row, came to the same. Only the last one is kept: each earlier one was compared as it
// ended.
#[derive(Drop)]
struct Groups<'a> {
    case: Case<'a>,
    // The port that fails.
    port: Port,
    // What the run without a fault came to.
    whole: RunOutcome,
    // How many groups have ended.
    ended: usize,
    // What each run of the last group came to.
    text: Told,
    // How many runs the last group has. 0: there is no group yet.
    count: u64,
}

impl<'a> Groups<'a> {
    // No group yet.
    fn new(alloc: Global, case: Case<'a>, port: Port, whole: RunOutcome) -> Groups<'a> {
        Groups {
            case,
            port,
            whole,
            ended: 0,
            text: Told::new(alloc),
            count: 0,
        }
    }

    // Plays the run that is set up, whose port fails at call k, adds it to the groups, and returns whether it went well. Where a
    // group ends that isn't what the case expects, a line is appended to `wrong`.
    fn play_call(&mut self, setup: &Setup, k: u64, wrong: &mut Told) -> bool {
        let came = setup.run(setup.sizes.as_slice());
        let mut output = Told::new(wrong.alloc);
        self.append_output(&came, k, &mut output);
        self.add(&came.end, &output, wrong);
        came.end.is_done
    }

    // Appends what was written by the run whose port failed at call k. If the port is the output, and the run wrote the first k
    // bytes of what the run without a fault wrote, it appends `a part` instead.
    fn append_output(&self, came: &RunOutcome, k: u64, output: &mut Told) {
        let written = came.output.taken();
        if matches!(self.port, Port::Output) && self.whole.begins_with(written, k) {
            output.text("a part");
        } else {
            output.escaped(written);
        }
    }

    // Adds a run to the last group, if it came to the same, or begins another one with it.
    fn add(&mut self, end: &End, output: &Told, wrong: &mut Told) {
        let mut text = Told::new(wrong.alloc);
        append_run(end, output, self.count, &mut text);
        if self.count > 0 && text.as_bytes() == self.text.as_bytes() {
            self.count = self.count.saturating_add(1);
        } else {
            self.begin(end, output, wrong);
        }
    }

    // Ends the last group, if there is one, and begins another one with this run.
    fn begin(&mut self, end: &End, output: &Told, wrong: &mut Told) {
        self.close(wrong);
        self.text.clear();
        append_run(end, output, 0, &mut self.text);
        self.count = 1;
    }

    // Ends the last group, if it has a run: compares it with what the case expects, and counts it.
    fn close(&mut self, wrong: &mut Told) {
        if self.count > 0 {
            self.compare(wrong);
            self.ended = self.ended.saturating_add(1);
        }
    }

    // Compares the last group, how many runs it has and what they came to, with what the case has under the group's key. A
    // sixth or later group has none, and is compared with the value under `?`.
    fn compare(&self, wrong: &mut Told) {
        let mut told = Told::new(wrong.alloc);
        told.counted(&self.count, " calls: ");
        told.append(&self.text);
        let key = KEYS.get(self.ended).copied().unwrap_or("?");
        self.case.compare_told(key, &told, wrong);
    }

    // Ends the last group, if it has a run, and compares an empty text with the value under each later key, so that no group
    // which the case expects is missed.
    fn finish(&mut self, wrong: &mut Told) {
        self.close(wrong);
        for key in KEYS.iter().skip(self.ended) {
            self.case.compare(key, b"", wrong);
        }
    }
}
