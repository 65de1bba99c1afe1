//! Draws: the outputs of the generator splitmix64, each found by its place. What is drawn for a line depends on the seed, the line's
//! direction and its number alone, whatever came before it. All arithmetic on seeds is here.

ghost use Rattle.std.specs.Prelude.{◌≡◌, ◌<◌, ◌≤◌, ◌^◌};
ghost use Rattle.gc_rehearsal.specs.Draws.{output_at, start_of_ups, start_of_downs, start_of_kills, draw_at, happens, among};

use crate::share::WHOLE;
use rand_core::{Rng, SeedableRng};
use rand_xoshiro::SplitMix64;

// What splitmix64 adds to its state at each step.
const GOLDEN: u64 = 0x9e37_79b9_7f4a_7c15;

// How many draws a line has.
const DRAWS: u64 = 16;

// The next output of splitmix64 in this state.
fn output_of_state(state: u64) -> u64
    ensures { result ≡ output_at state }
{
    let mut generator = SplitMix64::seed_from_u64(state);
    generator.next_u64()
}

/// The draws of a seed for the lines of one direction, or for kills of the station.
#[derive(Clone, Copy)]
pub struct Draws {
    /// The state of splitmix64 before the first draw of line 1.
    pub start: u64,
}

impl Draws {
    /// The draws of this seed for lines towards the instrument.
    pub fn of_ups(seed: u64) -> Draws
        ensures { result.start ≡ start_of_ups seed }
    {
        Draws {
            start: output_of_state(seed),
        }
    }

    /// The draws of this seed for lines towards the station.
    pub fn of_downs(seed: u64) -> Draws
        ensures { result.start ≡ start_of_downs seed }
    {
        Draws {
            start: output_of_state(seed.wrapping_add(GOLDEN)),
        }
    }

    /// The draws of this seed for kills of the station, each of which counts as a line.
    pub fn of_kills(seed: u64) -> Draws
        ensures { result.start ≡ start_of_kills seed }
    {
        Draws {
            start: output_of_state(seed.wrapping_add(GOLDEN.wrapping_mul(2))),
        }
    }

    /// The draw with number `place`, 1 to 16, of line number `line`, counted from 1. A `line` or a `place` of 0 counts as 1, and
    /// draw 17 of a line is draw 1 of the next one.
    pub fn draw(self, line: u64, place: u64) -> u64
        ensures { result ≡ draw_at self.start line place }
    {
        let before = DRAWS
            .wrapping_mul(line.saturating_sub(1))
            .wrapping_add(place.saturating_sub(1));
        output_of_state(self.start.wrapping_add(GOLDEN.wrapping_mul(before)))
    }
}

// Whether something that happens to `share` of 100,000 lines happens by this draw: the upper 32 bits of the draw decide.
pub(crate) fn happens(draw: u64, share: u32) -> bool
    ensures { result ≡ happens draw share }
{
    let upper = draw / 4_294_967_296;
    upper * WHOLE / 4_294_967_296 < u64::from(share)
}

/// The number from `least` to `most` that a draw gives: the lower 32 bits of the draw decide. If `most` is below `least`, the
/// number is `least`.
pub fn among(draw: u64, least: u32, most: u32) -> u64
    ensures { result ≡ among draw least most }
{
    let lower = draw % 4_294_967_296;
    let count = u64::from(most.saturating_sub(least)) + 1;
    u64::from(least) + (u128::from(lower) * u128::from(count) / 4_294_967_296) as u64
}
