//! Procedures that a text describes: whether it describes one, what it says of it, and whether a request's parameters are as it says. The
//! rules are gc_texts'.

ghost use Rattle.std.specs.Prelude.{◌≡◌, IfOk, IfErr};
ghost use Rattle.gc_texts.specs.Descriptions.{IsDescription, description_seen};
ghost use Rattle.geocom_c.specs.Describing.{ChecksParams, DescribesNothing, IsNoDescription, ReadsDescription, Tells, reading_effect};

use crate::columns::{GeocomColumn, put_columns};
use crate::header::{IN_TABLE, NO_DESCRIPTION, NO_ROOM};
use gc_catalogue::procedure_name;
use gc_texts::{Description, before, read_description, u16_of};
use gc_values::MOST_ITEMS;

/// What a text says of a procedure: a fault or 0, and after a fault all other fields are 0.
#[repr(C)]
#[derive(Clone, Copy)]
pub struct GeocomDescription {
    pub fault: u32,
    /// The procedure's number.
    pub procedure: u32,
    /// How many parameters it has, at most 16.
    pub parameters: u32,
    /// How many columns the values of its answer have, at most 16.
    pub columns: u32,
    /// 1 if an answer may have further values; otherwise 0.
    pub more: u32,
}

// Why a text that describes nothing doesn't: what is before its first space is the number of a procedure of the table, or not.
fn no_description(text: &[u8]) -> u32
    ensures { IsNoDescription text.now result }
{
    let Some(rpc) = u16_of(before(b' ', text)) else {
        return NO_DESCRIPTION;
    };
    let is_in_table = procedure_name(rpc).is_some();
    if is_in_table {
        IN_TABLE
    } else {
        NO_DESCRIPTION
    }
}

/// What a text says of a procedure. `Err`: the number of the fault for which it describes none.
pub(crate) fn described(text: &[u8]) -> Result<Description, u32>
    ensures found { IfOk result (λ d. IsDescription text.now (description_seen d)) }
    ensures fault { IfErr result (λ e. DescribesNothing text.now e) }
{
    match read_description(text) {
        Some(description) => Ok(description),
        None => Err(no_description(text)),
    }
}

// The fault of a text that says nothing; all other fields are 0.
fn told_nothing(fault: u32) -> GeocomDescription
    ensures { result ≡ record { fault = fault; procedure = 0; parameters = 0; columns = 0; more = 0 } }
{
    GeocomDescription {
        fault,
        procedure: 0,
        parameters: 0,
        columns: 0,
        more: 0,
    }
}

// What a description says, in plain fields.
fn told(description: &Description) -> GeocomDescription
    ensures { Tells result (description_seen description.now) }
{
    GeocomDescription {
        fault: 0,
        procedure: u32::from(description.rpc),
        parameters: description.params.len() as u32,
        columns: description.values.len() as u32,
        more: u32::from(description.more),
    }
}

/// Reads a description of a procedure that isn't in the table: `RPC NAME KIND .. -> COLUMN KIND ..`, with one space between two words, and
/// `..` as a last word if an answer may have further values. Writes the columns of an answer's values, `columns` of them, and nothing
/// after these.
///
/// Faults: 62, `columns` has fewer than 16 places; 68, the number is that of a procedure of the table; 71, the text has no such form. After a
/// fault nothing is written.
#[unsafe(no_mangle)]
pub extern "C" fn geocom_description_read(
    text: &[u8],
    columns: &mut [GeocomColumn],
) -> GeocomDescription
    ensures { ReadsDescription text.now (reading_effect columns.old columns.new result) }
{
    if columns.len() < MOST_ITEMS {
        return told_nothing(NO_ROOM);
    }
    match described(text) {
        Ok(description) => {
            put_columns(columns, description.values.as_slice());
            told(&description)
        }
        Err(fault) => told_nothing(fault),
    }
}

/// Whether a request's parameters are as a description says: 0, or a fault. They are checked as those of a procedure of the table. Send them
/// with `geocom_client_send_raw`.
///
/// Faults: 68 and 71, as of `geocom_description_read`; 11 to 15, as of `geocom_client_send`.
#[unsafe(no_mangle)]
pub extern "C" fn geocom_description_params(text: &[u8], params: &[u8]) -> u32
    ensures { ChecksParams text.now params.now result }
{
    match described(text) {
        Ok(description) => match description.asks().fault(params) {
            Some(fault) => u32::from(fault.number()),
            None => 0,
        },
        Err(fault) => fault,
    }
}
