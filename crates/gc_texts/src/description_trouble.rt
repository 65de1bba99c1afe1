//! What is at fault in a faulty line `procedure`.

ghost use Rattle.gc_texts.specs.Troubles.{BeginsOutside, IsDescriptionTrouble, IsOutsideTrouble};

use crate::cuts::before;
use crate::description::read_description;
use crate::procedure::u16_of;
use crate::trouble::Trouble;
use gc_catalogue::procedure_name;

// What is at fault in what follows a line's word `procedure`, if it begins with a procedure's number that isn't in the table.
fn outside_trouble(text: &[u8]) -> Trouble
    requires { BeginsOutside text.now }
    ensures { IsOutsideTrouble text.now result }
{
    match read_description(text) {
        Some(_) => Trouble::Procedure,
        None => Trouble::ProcedureForm,
    }
}

/// What is at fault in what follows a line's word `procedure`: the number, if it is none or the table has it, and else the form, or the
/// columns. `Procedure`: it reads.
pub(crate) fn description_trouble(text: &[u8]) -> Trouble
    ensures { IsDescriptionTrouble text.now result }
{
    let Some(rpc) = u16_of(before(b' ', text)) else {
        return Trouble::ProcedureNumber;
    };
    let is_in_table = procedure_name(rpc).is_some();
    if is_in_table {
        return Trouble::ProcedureInTable(rpc);
    }
    outside_trouble(text)
}
