//! The text of a report: the lines of its settlements, and the line of totals.

ghost use Rattle.std.specs.Prelude.{◌≡◌, ◌++◌, length, map, OnOk, IfOk};
ghost use Rattle.std.specs.Fmt.{decimal};
ghost use Rattle.gc_client.specs.Settlements.{settlement_seen};
ghost use Rattle.gc_filters.specs.Reports.{totals_line, run_text, report_text};

use gc_catalogue::Call;
use gc_client::Settlement;
use gc_texts::append_settlements;
use gc_world::Report;
use itoa::Buffer;
use std::alloc::{AllocError, Global};

// The six counts of the line of totals.
#[derive(Clone, Copy)]
struct Totals {
    sent: usize,
    executed: usize,
    made: usize,
    settled: usize,
    refused: usize,
    idle: usize,
}

/// The lines of a report's settlements, and with `totals` the line of totals after them. `Err`: memory was refused.
pub(crate) fn text_of<I>(
    alloc: Global,
    report: &Report<I>,
    totals: bool,
) -> Result<Vec<u8>, AllocError>
    ensures { IfOk result (λ text. text.items ≡ report_text report.now totals) }
{
    let counts = Totals {
        sent: report.sent.len(),
        executed: report.executed.len(),
        made: report.made.len(),
        settled: report.settled.len(),
        refused: report.refused_sends,
        idle: report.idle_events,
    };
    run_text(alloc, report.settled.as_slice(), counts, totals)
}

// The lines of these settlements, and with `totals` the line of totals after them, which has these counts. `Err`: memory was
// refused.
fn run_text(
    alloc: Global,
    settled: &[Settlement<Call>],
    counts: Totals,
    totals: bool,
) -> Result<Vec<u8>, AllocError>
    ensures { IfOk result (λ text. text.items ≡ run_text (map settlement_seen settled.now) counts totals) }
{
    let mut text = Vec::new(alloc);
    append_settlements(&mut text, settled)?;
    if totals {
        append_totals(&mut text, counts)?;
    }
    Ok(text)
}

// Appends the line of totals: six counts, each after its word. `Err`: memory was refused.
fn append_totals(text: &mut Vec<u8>, counts: Totals) -> Result<(), AllocError>
    ensures { OnOk result (text.new.items ≡ text.old.items ++ totals_line counts) }
{
    append_number(text, b"sent ", counts.sent)?;
    append_number(text, b" executed ", counts.executed)?;
    append_number(text, b" made ", counts.made)?;
    append_number(text, b" settled ", counts.settled)?;
    append_number(text, b" refused ", counts.refused)?;
    append_number(text, b" idle ", counts.idle)?;
    text.extend_from_slice(b"\n")
}

// Appends a word and a number in decimal after it. `Err`: memory was refused.
fn append_number(text: &mut Vec<u8>, word: &[u8], n: usize) -> Result<(), AllocError>
    ensures { OnOk result (text.new.items ≡ text.old.items ++ (word.now ++ decimal n)) }
{
    let mut digits = Buffer::new();
    text.extend_from_slice(word)?;
    text.extend_from_slice(digits.format(n).as_bytes())
}
