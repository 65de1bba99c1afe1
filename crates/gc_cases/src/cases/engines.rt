//! Runs of the engines. A case has the engine and its input, and after how many calls each port fails, if it does; it expects how
//! the run ends, what it writes, what is sent over a link, and the sizes of its writes if the case has them. If it names no sizes
//! of the input's pieces, the input comes whole and in single bytes; and if it says `cuts each`, also cut in two at every place.

use crate::cases::outcome::{Recut, RunOutcome};
use crate::cases::setup::Setup;
use gc_probes::{Case, Player, Told};
use std::alloc::AllocError;
use std::io;

/// Plays `.engines`.
pub struct Engines;

impl Player for Engines {
    // Sets a run up as the case says, and compares what it comes to with what the case expects. If memory runs out for the
    // set-up, `wrong` notes that it lacks a part.
    fn play(&self, rt: &HostRuntime, case: &Case<'_>, wrong: &mut Told) -> io::Result<()> {
        let mut setup = Setup::unset(rt.alloc());
        match setup.take(case) {
            Ok(()) => play_setup(case, &setup, wrong),
            Err(_) => wrong.lack(),
        }
        Ok(())
    }
}

// Runs a set-up, and compares what came of it with what the case expects. If the set-up gives no sizes of pieces, the run is
// repeated with the input in single bytes, and, if the case says `cuts each`, cut in two at each place, until a run comes to
// something else. If one does, the words of that way are appended to how the run ended.
fn play_setup(case: &Case<'_>, setup: &Setup, wrong: &mut Told) {
    let whole = setup.run(setup.sizes.as_slice());
    let differs = if setup.sizes.is_empty() {
        first_differing_recut(setup, &whole, case.is("cuts", "each"))
    } else {
        None
    };
    whole.compare(case, differs, wrong);
}

/// The first way of cutting the input in which the run comes to something else than `whole`, to which it came in as few pieces as
/// the reads allow: single bytes or, if `cuts_in_two` is true, two pieces. `None`: no way does. Memory that runs out for the
/// sizes of single bytes counts as something else.
pub fn first_differing_recut(
    setup: &Setup,
    whole: &RunOutcome,
    cuts_in_two: bool,
) -> Option<Recut> {
    if !setup.is_same_in_single_bytes(whole) {
        return Some(Recut::SingleBytes);
    }
    if cuts_in_two && !setup.is_same_cut_in_two(whole) {
        return Some(Recut::CutInTwo);
    }
    None
}

/// Appends the size 1 for each byte of an input, so that it comes in single bytes. `Err`: memory ran out, and some of them may be
/// appended.
pub fn push_single(sizes: &mut Vec<usize>, input: &[u8]) -> Result<(), AllocError> {
    for _ in input {
        sizes.push(1)?;
    }
    Ok(())
}
