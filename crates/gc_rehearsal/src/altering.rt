//! Altering: what becomes of the bytes of a line of which some are altered. A byte is changed in one bit, is lost, or another one
//! is put in before it.

ghost use Rattle.std.specs.Prelude.{◌≡◌, ◌+◌, ◌*◌, ◌≤◌, ◌<◌, ◌++◌, [], length};
ghost use Rattle.arrayvec.specs.ArrayVec.{array_vec_len};
ghost use Rattle.gc_rehearsal.specs.Altering.{altered, altered_byte, altered_from, becomes};

use crate::chance::Altered;
use crate::draw::{Draws, among, happens};
use crate::rule::Word;
use crate::rules::Rules;
use gc_lines::append;

// The draw of a line with which the draws for its bytes begin, two for each.
const ALTER_DRAW: u64 = 15;

// Appends what becomes of a byte that is altered: with `kind` 0 the byte with one bit changed, which the draw gives; with 1 nothing,
// as the byte is lost; and else a byte that the draw gives, and then this byte.
fn put_changed(out: &mut Altered, kind: u64, draw: u64, byte: u8)
    requires { array_vec_len out.old + 2 ≤ 1028 }
    ensures { out.new.items ≡ out.old.items ++ becomes kind draw byte }
{
    match kind {
        0 => append(out, &[byte ^ (1u8 << among(draw, 0, 7))]),
        1 => {}
        _ => append(out, &[among(draw, 0, 255) as u8, byte]),
    }
}

// Appends what becomes of a byte by its two draws, if a byte is altered in `share` of 100,000 cases.
fn put_byte(out: &mut Altered, share: u32, first: u64, second: u64, byte: u8)
    requires { array_vec_len out.old + 2 ≤ 1028 }
    ensures { out.new.items ≡ out.old.items ++ altered_byte share first second byte }
{
    if happens(first, share) {
        put_changed(out, among(first, 0, 2), second, byte);
    } else {
        append(out, &[byte]);
    }
}

// The bytes of a line after some were altered, each in `share` of 100,000 cases. The draws for its bytes begin with those of
// `draws` for line 1.
fn alter_by(draws: Draws, share: u32, bytes: &[u8]) -> Altered
    requires { length bytes.now ≤ 514 }
    ensures { result.items ≡ altered_from draws.start share 1 bytes.now }
{
    let mut out = Altered::new();
    let mut left = bytes;
    let mut place = 1u64;
    while let Some((byte, rest)) = left.split_first() {
        let first = draws.draw(1, 2 * place - 1);
        let second = draws.draw(1, 2 * place);
        put_byte(&mut out, share, first, second, *byte);
        left = rest;
        place += 1;
    }
    out
}

/// What becomes of the bytes of a line of one direction, counted from 1, by these rules and draws: the same bytes if the rules
/// alter none.
pub fn alter(rules: &Rules, draws: Draws, line: u64, bytes: &[u8]) -> Altered
    requires { length bytes.now ≤ 514 }
    ensures { result.items ≡ altered rules.now draws.start line bytes.now }
{
    match rules.frequency(Word::Alter) {
        Some(frequency) => {
            let start = draws.draw(line, ALTER_DRAW);
            alter_by(Draws { start }, frequency.share, bytes)
        }
        None => {
            let mut same = Altered::new();
            append(&mut same, bytes);
            same
        }
    }
}
