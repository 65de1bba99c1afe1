//! The names of the procedures, as the manual's tables have them, and how many parameters each has.

ghost use Rattle.std.specs.Prelude.{◌≡◌, Some, IfSome, IfNone, length, option_map};
ghost use Rattle.gc_catalogue.specs.Calls.{call_fields, IsNoProcedure, IsParameterCount, IsProcedure};
ghost use Rattle.gc_catalogue.specs.Names.{call_name};
ghost use Rattle.gc_catalogue.specs.declared.call.Call.{Call};

use crate::call::Call;
use crate::reading::read_row;
use gc_values::Quick;

impl Call {
    /// The name of the call's procedure, as the manual's tables have it.
    pub fn name(&self) -> &'static str
        ensures { result.now ≡ call_name self.now }
    {
        match self {
            Call::NullProc => "COM_NullProc",
            Call::SetPrecision(_) => "COM_SetDoublePrecision",
            Call::GetPrecision => "COM_GetDoublePrecision",
            Call::ComVersion => "COM_GetSWVersion",
            Call::InstrumentNo => "CSV_GetInstrumentNo",
            Call::InstrumentName => "CSV_GetInstrumentName",
            Call::SetDate(_) => "CSV_SetDateTime",
            Call::GetDate => "CSV_GetDateTime",
            Call::IntTemp => "CSV_GetIntTemp",
            Call::CsvVersion => "CSV_GetSWVersion",
            Call::DoMeasure { .. } => "TMC_DoMeasure",
            Call::GetStation => "TMC_GetStation",
            Call::SetStation(_) => "TMC_SetStation",
            Call::GetHeight => "TMC_GetHeight",
            Call::SetHeight(_) => "TMC_SetHeight",
            Call::GetFace => "TMC_GetFace",
            Call::GetAngle { .. } => "TMC_GetAngle",
            Call::SimpleMea { .. } => "TMC_GetSimpleMea",
            Call::QuickDist => "TMC_QuickDist",
            Call::SetPrism(_) => "BAP_SetPrismType",
            Call::GetPrism => "BAP_GetPrismType",
            Call::MeasDistance { .. } => "BAP_MeasDistanceAngle",
            Call::Position { .. } => "AUT_MakePositioning",
            Call::ChangeFace { .. } => "AUT_ChangeFace",
            Call::FineAdjust { .. } => "AUT_FineAdjust",
        }
    }

    // How many values the call has, one for each parameter of its procedure.
    fn value_count(&self) -> u8
        ensures { result ≡ length (call_fields self.now).values }
    {
        match self {
            Call::SetPrecision(_)
            | Call::SetHeight(_)
            | Call::GetAngle { .. }
            | Call::SetPrism(_)
            | Call::MeasDistance { .. } => 1,
            Call::DoMeasure { .. } | Call::SimpleMea { .. } => 2,
            Call::ChangeFace { .. } | Call::FineAdjust { .. } => 3,
            Call::SetStation(_) => 4,
            Call::Position { .. } => 5,
            Call::SetDate(_) => 6,
            _ => 0,
        }
    }
}

// A call of the procedure with this number; its parameters don't matter. `None`: no procedure of the table has this number.
fn call_with_number(rpc: u16) -> Option<Call>
    ensures found { IfSome result (λ call. (call_fields call).number ≡ rpc) }
    ensures none { IfNone result (IsNoProcedure rpc) }
{
    let mut call = Call::NullProc;
    if read_row(rpc, &mut Quick::new(b""), &mut call) {
        Some(call)
    } else {
        None
    }
}

/// The manual's name of the procedure with this number. `None`: no procedure of the table has this number.
pub fn procedure_name(rpc: u16) -> Option<&'static str>
    ensures name { (call : Call) → (call_fields call).number ≡ rpc → option_map (λ name. name.now) result ≡ Some (call_name call) }
    ensures known { IfSome result (λ _. IsProcedure rpc) }
    ensures none { IfNone result (IsNoProcedure rpc) }
{
    let call = call_with_number(rpc)?;
    Some(call.name())
}

/// How many parameters the procedure with this number has; 0 where no procedure of the table has this number.
pub fn parameter_count(rpc: u16) -> u8
    ensures count { IsParameterCount rpc result }
    ensures none { IsNoProcedure rpc → result ≡ 0 }
{
    match call_with_number(rpc) {
        Some(call) => call.value_count(),
        None => 0,
    }
}
