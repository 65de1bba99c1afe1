//! The records of settlements: how a request ended, in plain fields.

ghost use Rattle.std.specs.Prelude.{◌≡◌, ◌≤◌, [], length};
ghost use Rattle.gc_catalogue.specs.Asked.{procedure_of, IsAskedReading};
ghost use Rattle.gc_client.specs.Settlements.{AreReadBy, IsReadBy, settlement_seen};
ghost use Rattle.geocom_c.specs.Rooms.{WritesWithin};
ghost use Rattle.geocom_c.specs.Settled.{AreLost, AreRecords, IsKind, IsListingOf, IsRecord, RecordsNoAnswer, ListsAnswer, ListsAnswers, RecordsReading};

use crate::header::{ANSWERED, COM_FAULT, LATE, LOST, NONE, REFUSED, UNREADABLE, VALUE};
use crate::listed::{GeocomItem, ListedLine, NOWHERE};
use gc_catalogue::{Asked, Reading};
use gc_client::{Outcome, Settlement};
use gc_lines::Line;
use gc_values::MOST_ITEMS;

/// How a request ended.
#[repr(C)]
#[derive(Clone, Copy)]
pub struct GeocomSettlement {
    /// Whom the request was for, as it was handed to `geocom_client_send` or `geocom_client_send_raw`.
    pub target: u32,
    /// The procedure that was asked for.
    pub procedure: u16,
    /// The return code of a refusal, the communication code of a fault of communication, or the number of what is wrong with
    /// the parameters; otherwise 0.
    pub code: u16,
    /// How many bytes at the front of the feed's text are the answer's line; 0 if there is no answer.
    pub line_length: u16,
    /// How many items the answer's value has, or the parameters of an answer to a raw request; 0 for every other reading.
    pub items: u16,
    /// Where these items are in the text: the first `items` places.
    pub places: [GeocomItem; MOST_ITEMS],
    /// [`ANSWERED`], [`LATE`] or [`LOST`].
    pub outcome: u8,
    /// What the answer says: [`NONE`] to [`UNREADABLE`].
    pub reading: u8,
}

// The record of a request that ended with this outcome, without an answer.
fn unanswered(settlement: &Settlement<Asked>, outcome: u8) -> GeocomSettlement
    ensures target { result.target ≡ settlement.now.target }
    ensures procedure { result.procedure ≡ procedure_of settlement.now.call }
    ensures unanswered { RecordsNoAnswer result outcome }
{
    GeocomSettlement {
        target: settlement.target,
        procedure: settlement.call.number(),
        code: 0,
        line_length: 0,
        items: 0,
        places: [NOWHERE; MOST_ITEMS],
        outcome,
        reading: NONE,
    }
}

// The number of a reading's kind, and its code: 0 for a value, else that of the refusal or of the fault.
pub(crate) fn kind_of(reading: &Reading) -> (u8, u16)
    ensures { IsKind reading.now result.0 result.1 }
{
    match reading {
        Reading::Value(_) => (VALUE, 0),
        Reading::Refused(code) => (REFUSED, *code),
        Reading::ComFault(code) => (COM_FAULT, *code),
        Reading::Unreadable(fault) => (UNREADABLE, u16::from(fault.number())),
    }
}

// The record of a request that was answered by this line, which reads as `reading`. `told` is the text of the line.
fn answered(
    settlement: &Settlement<Asked>,
    reading: &Reading,
    line: &Line,
    told: &ListedLine,
) -> GeocomSettlement
    requires { IsListingOf told.now line.now.items }
    ensures target { result.target ≡ settlement.now.target }
    ensures procedure { result.procedure ≡ procedure_of settlement.now.call }
    ensures answered { RecordsReading result told.now.text.items settlement.now.call line.now.items reading.now }
{
    let (kind, code) = kind_of(reading);
    GeocomSettlement {
        target: settlement.target,
        procedure: settlement.call.number(),
        code,
        line_length: line.len() as u16,
        items: if kind == VALUE { told.items } else { 0 },
        places: told.places,
        outcome: ANSWERED,
        reading: kind,
    }
}

// The record of a settlement. `told` is the text of the line that settled it.
fn record_of(settlement: &Settlement<Asked>, told: &ListedLine) -> GeocomSettlement
    requires { ListsAnswer told.now settlement.now }
    ensures { IsReadBy IsAskedReading settlement.now.call settlement.now.outcome
        → IsRecord told.now.text.items result (settlement_seen settlement.now) }
{
    match &settlement.outcome {
        Outcome::Answered(reading, line) => answered(settlement, reading, line, told),
        Outcome::Late => unanswered(settlement, LATE),
        Outcome::Lost => unanswered(settlement, LOST),
    }
}

// Writes the records of settlements to the front of `records`. `told` is the text of the line that settled them.
pub(crate) fn put_records(
    records: &mut [GeocomSettlement],
    settled: &[Settlement<Asked>],
    told: &ListedLine,
)
    requires room { length settled.now ≤ length records.old }
    requires told { ListsAnswers told.now settled.now }
    requires read { AreReadBy IsAskedReading settled.now }
    ensures records { AreRecords told.now.text.items records.new settled.now }
    ensures written { WritesWithin (length settled.now) records.old records.new }
{
    for k in 0..settled.len() {
        records[k] = record_of(&settled[k], told);
    }
}

// Writes to the front of `records` a record for each of these requests, which are lost.
pub(crate) fn put_lost(records: &mut [GeocomSettlement], settled: &[Settlement<Asked>])
    requires room { length settled.now ≤ length records.old }
    requires lost { AreLost settled.now }
    ensures records { AreRecords [] records.new settled.now }
    ensures written { WritesWithin (length settled.now) records.old records.new }
{
    for k in 0..settled.len() {
        records[k] = unanswered(&settled[k], LOST);
    }
}
