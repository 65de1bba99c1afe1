//! Procedures that aren't in the table: which may be asked for, and with which parameters. The rules are this project's own.

ghost use Rattle.std.specs.Prelude.{◌≡◌, ◌≤◌, length, IsOk, IfOk, IfErr, IfSome, IfNone, Ok};
ghost use Rattle.gc_values.specs.declared.fault.ValueFault.{ValueFault};
ghost use Rattle.gc_catalogue.specs.RawProps.{IsRawCall-prop};
ghost use Rattle.gc_catalogue.specs.RawTexts.{raw_bytes};
ghost use Rattle.gc_catalogue.specs.Raws.{AreFewItems, IsItemsRefusal, IsRawCall, IsRawRefusal};

use crate::names::procedure_name;
use crate::raw_text::RawText;
use gc_lines::{Request, is_plain, write_request};
use gc_values::{ValueFault, split};

/// A request for a procedure that isn't in the table, with its parameters exactly as they are.
#[derive(Clone, Copy, Debug, PartialEq, Eq)]
pub struct RawCall {
    rpc: u16,
    params: RawText,
    // This number may be asked for with these parameters.
    pub ghost is: { IsRawCall rpc (raw_bytes params) } by { IsRawCall-prop rpc (raw_bytes params) },
}

/// Why a number and parameters may not be asked for as they are.
#[derive(Clone, Copy, PartialEq, Eq)]
pub enum RawFault {
    /// The number is that of a procedure of the table.
    InTable,
    /// A CR or LF is among the parameters.
    NotPlain,
    /// The request's line would have more than 512 bytes with an id.
    TooLong,
    /// The number of double quotes is odd.
    OpenQuote,
    /// There are more than 16 parameters.
    TooMany,
}

/// The fault of a list of parameters, whatever their kinds are: `OpenQuote` for an odd number of double quotes, and else
/// `TooMany` for more than 16 items. `None`: the number of double quotes is even, and there are at most 16 items.
pub(crate) fn items_fault(params: &[u8]) -> Option<ValueFault>
    ensures found { IfSome result (λ e. IsItemsRefusal params.now e) }
    ensures none { IfNone result (AreFewItems params.now) }
{
    split(params).err()
}

// The first fault, in the order of `RawFault`, for which this number may not be asked for with these parameters. `None`: it may.
fn raw_fault(rpc: u16, params: &[u8]) -> Option<RawFault>
    ensures found { IfSome result (λ e. IsRawRefusal rpc params.now e) }
    ensures none { IfNone result (IsRawCall rpc params.now) }
{
    let is_in_table = procedure_name(rpc).is_some();
    if is_in_table {
        return Some(RawFault::InTable);
    }
    if !is_plain(params) {
        return Some(RawFault::NotPlain);
    }
    let longest = Request {
        rpc,
        id: Some(0),
        params,
    };
    let is_too_long = write_request(&longest).is_err();
    if is_too_long {
        return Some(RawFault::TooLong);
    }
    match items_fault(params) {
        Some(ValueFault::OpenQuote) => Some(RawFault::OpenQuote),
        // `items_fault` has only one other fault.
        Some(_) => Some(RawFault::TooMany),
        None => None,
    }
}

/// Makes the request for a procedure that isn't in the table. The parameters are the bytes after the colon of its line, exactly as they
/// are. If the procedure may not be asked for so, the result is the first fault that holds, in this order: `InTable`, `NotPlain`,
/// `TooLong`, `OpenQuote`, `TooMany`.
pub fn raw_call(rpc: u16, params: &[u8]) -> Result<RawCall, RawFault>
    ensures found { IfOk result (λ raw. (raw.rpc ≡ rpc) × (raw_bytes raw.params ≡ params.now)) }
    ensures allowed { IsRawCall rpc params.now → IsOk result }
    ensures only { (raw : RawCall) → raw.rpc ≡ rpc → raw_bytes raw.params ≡ params.now → result ≡ Ok raw }
    ensures fault { IfErr result (λ e. IsRawRefusal rpc params.now e) }
    ensures exactly { (e : RawFault) → IsRawRefusal rpc params.now e → result ≡ Err e }
{
    match raw_fault(rpc, params) {
        Some(fault) => Err(fault),
        None => Ok(RawCall {
            rpc,
            params: RawText::new(params),
        }),
    }
}

impl RawCall {
    ghost use Rattle.gc_catalogue.specs.RawAgain.{with_params};

    /// The procedure's number, which no procedure of the table has.
    pub fn number(&self) -> u16
        ensures { result ≡ self.now.rpc }
    {
        self.rpc
    }

    /// The parameters, exactly as they are after the colon of the request's line.
    pub fn params(&self) -> &[u8]
        ensures bytes { result.now ≡ raw_bytes self.now.params }
        ensures few { length (raw_bytes self.now.params) ≤ 503 }
    {
        self.params.as_bytes()
    }

    /// The request for the same procedure with these parameters. `None`: it may not be asked for so (`raw_call`).
    pub fn with_params(&self, params: &[u8]) -> Option<RawCall>
        ensures { result ≡ with_params self.now params.now }
    {
        raw_call(self.rpc, params).ok()
    }
}
