//! Fates: what happens to one line.

ghost use Rattle.std.specs.Prelude.{◌≡◌, ◌<◌, ◌≤◌, Option};
ghost use Rattle.gc_rehearsal.specs.Fates.{hits, drawn, drawn_if, fate_of};

use crate::draw::{Draws, among, happens};
use crate::frequency::Frequency;
use crate::rule::Word;
use crate::rules::Rules;

// The number of the draw of `lose` among a line's draws, counted from 1; those of the other words follow. `docs/BAD-LINES.md` lists
// them all. The word `kill` is about no line, and has none; `alter` is in `altering.rt`.
const LOSE_DRAW: u64 = 1;

const REPEAT_DRAW: u64 = 2;

const DELAY_DRAW: u64 = 3;

const HOLD_DRAW: u64 = 4;

const CLOSE_DRAW: u64 = 5;

const REFUSE_DRAW: u64 = 6;

const RESTART_DRAW: u64 = 8;

// The end is a reset if the lower 32 bits of the draw of `close` are at least this, which is half of their range.
const LEAST_OF_RESET: u64 = 2_147_483_648;

/// What happens to a line. Times are in milliseconds.
#[derive(Clone, Copy)]
pub struct LineFate {
    /// How long it is on the way at least. A hold or a line before it may keep it longer.
    pub wait: u64,
    /// Whether it is lost on the way. A line in whose place the connection ends (`closes`) isn't lost.
    pub is_lost: bool,
    /// Whether a second copy directly follows it.
    pub is_repeated: bool,
    /// For how long from its setting out on neither it nor any line that sets out later arrives, in either direction; 0 if it holds
    /// nothing up.
    pub hold: u64,
    /// Whether the connection ends in place of its arrival.
    pub closes: bool,
    /// Whether the connection ends by a reset. `false` if it doesn't end.
    pub is_reset: bool,
    /// For how long connections are refused after that end, from the next attempt to connect on; 0 if the connection doesn't end or
    /// none is refused.
    pub refuse: u64,
    /// Whether the instrument restarts at it, whether it arrives or not.
    pub restarts: bool,
}

// Whether what a word names happens by this draw. `None`: the text doesn't have the word, and it never happens.
fn hits(frequency: Option<Frequency>, draw: u64) -> bool
    ensures { result ≡ hits frequency draw }
{
    match frequency {
        Some(frequency) => happens(draw, frequency.share),
        None => false,
    }
}

// The number that a word draws. `None`: the text doesn't have the word, and the number is 0.
fn drawn(frequency: Option<Frequency>, draw: u64) -> u64
    ensures { result ≡ drawn frequency draw }
{
    match frequency {
        Some(frequency) => among(draw, frequency.least, frequency.most),
        None => 0,
    }
}

// The number that a word draws if what it names happens (`hit`), else 0.
fn drawn_if(hit: bool, frequency: Option<Frequency>, draw: u64) -> u64
    ensures { result ≡ drawn_if hit frequency draw }
{
    if hit { drawn(frequency, draw) } else { 0 }
}

/// Whether the instrument restarts at a line, counted from 1: the field `restarts` of `fate_of`, without the draws of the others.
pub fn restarts_at(rules: &Rules, draws: Draws, line: u64) -> bool
    ensures { result ≡ (fate_of rules.now draws.start line).restarts }
{
    hits(
        rules.frequency(Word::Restart),
        draws.draw(line, RESTART_DRAW),
    )
}

/// What happens by these rules and draws to a line of one direction, counted from 1. Each word but `kill`, which is about no
/// line, has a draw of its own.
///
/// The connection doesn't end in place of a lost line. Neither a lost line nor one in whose place the connection ends is
/// repeated, but either may hold up what follows it, and the instrument may restart at either. Connections may be refused only
/// after such an end. The end is a reset if the lower 32 bits of the draw of `close` are in the upper half of their range.
pub fn fate_of(rules: &Rules, draws: Draws, line: u64) -> LineFate
    ensures { result ≡ fate_of rules.now draws.start line }
{
    let is_lost = hits(rules.frequency(Word::Lose), draws.draw(line, LOSE_DRAW));
    let end = draws.draw(line, CLOSE_DRAW);
    let closes = !is_lost && hits(rules.frequency(Word::Close), end);
    let repeats = hits(rules.frequency(Word::Repeat), draws.draw(line, REPEAT_DRAW));
    let hold = draws.draw(line, HOLD_DRAW);
    let refuse = draws.draw(line, REFUSE_DRAW);
    LineFate {
        wait: drawn(rules.frequency(Word::Delay), draws.draw(line, DELAY_DRAW)),
        is_lost,
        is_repeated: !is_lost && !closes && repeats,
        hold: drawn_if(
            hits(rules.frequency(Word::Hold), hold),
            rules.frequency(Word::Hold),
            hold,
        ),
        closes,
        is_reset: closes && end % 4_294_967_296 >= LEAST_OF_RESET,
        refuse: drawn_if(
            closes && hits(rules.frequency(Word::Refuse), refuse),
            rules.frequency(Word::Refuse),
            refuse,
        ),
        restarts: restarts_at(rules, draws, line),
    }
}
