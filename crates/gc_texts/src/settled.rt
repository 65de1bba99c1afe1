//! The lines of settlements, one for each. A line is made in a fixed buffer, without allocation.

ghost use Rattle.std.specs.Prelude.{◌≡◌, ℕ, ◌+◌, ◌^◌, ◌≤◌, ◌++◌, length, map, OnOk};
ghost use Rattle.gc_client.specs.Settlements.{settlement_seen};
ghost use Rattle.gc_lines.specs.Ports.{FailsWith};
ghost use Rattle.gc_texts.specs.Settlements.{settlement_line, settlement_lines, WroteSettlements};

use crate::fault::RunFault;
use arrayvec::ArrayVec;
use gc_catalogue::Call;
use gc_client::{Outcome, Settlement};
use gc_lines::{Sink, append, write_whole};
use itoa::Buffer;
use std::alloc::AllocError;

/// Appends the lines of settlements, numbered from place 0. Fails if memory was refused for a line: then the lines before that one were
/// appended, and nothing else. (The contract doesn't say so.)
pub fn append_settlements(
    text: &mut Vec<u8>,
    settlements: &[Settlement<Call>],
) -> Result<(), AllocError>
    ensures { OnOk result (text.new.items ≡ text.old.items ++ settlement_lines (map settlement_seen settlements.now)) }
{
    let mut line = ArrayVec::new();
    for (place, settlement) in settlements.iter().enumerate() {
        append_settlement(text, &mut line, place, settlement)?;
    }
    Ok(())
}

// Appends the line of a settlement to `text`, with `place` as its number. `line` is a buffer for it, whose old content is
// discarded. Fails if memory was refused: then nothing was appended. (The contract doesn't say so.)
fn append_settlement(
    text: &mut Vec<u8>,
    line: &mut ArrayVec<u8, LINE_ROOM>,
    place: usize,
    settlement: &Settlement<Call>,
) -> Result<(), AllocError>
    ensures { OnOk result (text.new.items ≡ text.old.items ++ settlement_line place (settlement_seen settlement.now)) }
{
    settlement_line_into(line, place, settlement);
    text.extend_from_slice(line.as_slice())
}

/// Writes the lines of settlements, numbered from `place` on, each in one write if the sink takes all of it. Returns `Output` if the
/// sink failed: it has then taken the whole lines of the earlier settlements, and of the next line some first bytes, or none.
pub fn write_settlements<K: Sink>(
    sink: &mut K,
    place: usize,
    settlements: &[Settlement<Call>],
) -> Result<(), RunFault>
    requires { place + length settlements.now ≤ 2 ^ 64 }
    ensures failed { FailsWith result (K.failed sink.old) (K.failed sink.new) }
    ensures wrote { WroteSettlements place (map settlement_seen settlements.now) (K.taken sink.old) (K.taken sink.new) result }
{
    let mut line = ArrayVec::new();
    for (i, settlement) in settlements.iter().enumerate() {
        settlement_line_into(&mut line, place + i, settlement);
        if let Err(_) = write_whole(sink, line.as_slice()) {
            return Err(RunFault::Output);
        }
    }
    Ok(())
}

// The most bytes of a settlement's line: a place and a target, the words, and the reply's line.
const LINE_ROOM: usize = 20 + 1 + 10 + 10 + 512 + 1;

// Writes into `line` the line of this settlement, with this place as its number, and discards what `line` held before.
fn settlement_line_into(
    line: &mut ArrayVec<u8, LINE_ROOM>,
    place: usize,
    settlement: &Settlement<Call>,
)
    ensures { line.new.items ≡ settlement_line place (settlement_seen settlement.now) }
{
    let mut digits = Buffer::new();
    line.clear();
    append(line, digits.format(place).as_bytes());
    append(line, b" ");
    append(line, digits.format(settlement.target).as_bytes());
    match &settlement.outcome {
        Outcome::Answered(_, reply) => {
            append(line, b" answered ");
            append(line, reply);
        }
        Outcome::Late => append(line, b" late"),
        Outcome::Lost => append(line, b" lost"),
    }
    append(line, b"\n");
}
