//! Lists of kinds, and whether a list of parameters has values of these kinds.

ghost use Rattle.std.specs.Prelude.{◌≡◌, ◌≤◌, length};

use crate::field::Field;
use arrayvec::ArrayVec;
use gc_values::{Items, Kind, MOST_ITEMS, Value, ValueFault, split};

/// The kinds of a described procedure's parameters, or of its answer's values: at most 16.
#[derive(Clone, Copy)]
pub struct Kinds {
    // The kinds, and the one of a Boolean in the places after them.
    kinds: [Kind; MOST_ITEMS],
    // How many there are.
    len: usize,
    // Whether a list may have more items than kinds.
    more: bool,
    pub ghost few: { len ≤ 16 },
    pub ghost long: { length kinds ≡ 16 },
}

impl Kinds {
    ghost use Rattle.std.specs.Prelude.{◌↔◌, List, map, IfOk, IfErr, IfSome, IfNone, IsTrue};
    ghost use Rattle.gc_texts.specs.Fields.{field_seen};
    ghost use Rattle.gc_texts.specs.KindLists.{AreOfKinds, HaveValues, IsItemsMisfit, IsKindsFault, SuitsCount, kinds_of, kinds_of_fields, kinds_seen};
    ghost use Rattle.gc_values.specs.declared.value.Value.{Value};

    // Whether a list of so many items may have values of so many kinds.
    fn suits_count(more: bool, items: usize, kinds: usize) -> bool
        ensures { IsTrue result ↔ SuitsCount more items kinds }
    {
        if more { kinds <= items } else { items == kinds }
    }

    /// The kinds of these fields; `more` says whether more items may follow.
    pub(crate) fn of(fields: &[Field], more: bool) -> Kinds
        requires { length fields.now ≤ 16 }
        ensures kinds { (kinds_seen result).kinds ≡ kinds_of_fields (map field_seen fields.now) }
        ensures also { (kinds_seen result).more ≡ more }
        ensures is { result ≡ kinds_of (map field_seen fields.now) more }
    {
        let mut kinds = [Kind::Bool; MOST_ITEMS];
        for (k, field) in fields.iter().enumerate() {
            kinds[k] = field.kind;
        }
        Kinds {
            kinds,
            len: fields.len(),
            more,
        }
    }

    /// How many kinds there are.
    pub(crate) fn count(&self) -> usize
        ensures { result ≡ self.now.len }
    {
        self.len
    }

    // As `read`, of a list's items.
    fn read_items(&self, items: &Items<'_>) -> Result<ArrayVec<Value, MOST_ITEMS>, ValueFault>
        ensures values { IfOk result (λ values. HaveValues (kinds_seen self.now) items.now values.items) }
        ensures fault { IfErr result (λ e. IsItemsMisfit (kinds_seen self.now) items.now e) }
    {
        if !Kinds::suits_count(self.more, items.len(), self.len) {
            return Err(ValueFault::Count);
        }
        let mut values = ArrayVec::new();
        for (k, kind) in self.kinds[..self.len].iter().enumerate() {
            match Value::read(*kind, items.get(k)) {
                Ok(value) => values.push(value),
                Err(fault) => return Err(fault),
            }
        }
        Ok(values)
    }

    /// Reads a list of parameters as values of these kinds, one for each kind. The faults come in the order of a procedure of the table: an
    /// odd number of double quotes, more than 16 items, another number of items than kinds (fewer, if more may follow), and the fault of the first
    /// item from the left that isn't a value of its kind.
    pub fn read(&self, params: &[u8]) -> Result<ArrayVec<Value, MOST_ITEMS>, ValueFault>
        ensures values { IfOk result (λ values. AreOfKinds (kinds_seen self.now) params.now values.items) }
        ensures fault { IfErr result (λ e. IsKindsFault (kinds_seen self.now) params.now e) }
    {
        match split(params) {
            Ok(items) => self.read_items(&items),
            Err(fault) => Err(fault),
        }
    }

    /// As [`Kinds::read`], but the fault alone. `None`: the list has values of these kinds.
    pub fn fault(&self, params: &[u8]) -> Option<ValueFault>
        ensures found { IfSome result (λ e. IsKindsFault (kinds_seen self.now) params.now e) }
        ensures none { IfNone result ((vs : List Value) × AreOfKinds (kinds_seen self.now) params.now vs) }
    {
        match self.read(params) {
            Ok(_) => None,
            Err(fault) => Some(fault),
        }
    }
}
