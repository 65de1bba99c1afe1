//! The values of an answer to a described procedure, as its description reads them.

ghost use Rattle.std.specs.Prelude.{◌≡◌, option_map};
ghost use Rattle.gc_rows.specs.DescribedCells.{answer_kinds};
ghost use Rattle.gc_rows.specs.ValueReading.{values_read};
ghost use Rattle.gc_texts.specs.Descriptions.{description_seen};

use arrayvec::ArrayVec;
use gc_texts::Description;
use gc_values::{MOST_ITEMS, Value};

/// The most columns that a text's descriptions add.
pub(crate) const MOST_COLUMNS: usize = 64;

/// The values of an answer to a procedure that is described so, of which the reply's line wrote `came`: one for each column of the
/// description. `None`: they aren't of the description's kinds.
pub(crate) fn described_values(
    description: &Description,
    came: &[u8],
) -> Option<ArrayVec<Value, MOST_ITEMS>>
    ensures { option_map (λ vs. vs.items) result ≡ values_read (answer_kinds (description_seen description.now)) came.now }
{
    match description.answers().read(came) {
        Ok(values) => Some(values),
        Err(_) => None,
    }
}
