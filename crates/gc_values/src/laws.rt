//! The laws of items and of parameter lists, which the crates above cite. Each is the contract of a
//! function that does nothing.

ghost use Rattle.std.specs.Prelude.{◌≡◌, ◌≢◌, ◌↔◌, ◌<◌, ◌≤◌, ℕ, ℤ, List, All, length, map};
ghost use Rattle.gc_values.specs.Item.{kind_of, IsItem, IsItemFault, IsValue, text};
ghost use Rattle.gc_values.specs.Lists.{AreValues, IsListReadOrFaulty};
ghost use Rattle.gc_values.specs.Params.{IsParams, joined};
ghost use Rattle.gc_values.specs.Whole.{NamesWhole, signed_text};
ghost use Rattle.gc_values.specs.WrittenForm.{HasWholeForm};
ghost use Rattle.gc_values.specs.declared.fault.ValueFault.{ValueFault};
ghost use Rattle.gc_values.specs.declared.value.Kind.{Kind};
ghost use Rattle.gc_values.specs.declared.value.Value.{Value};

/// The written text of a value in its kind's range reads as that value.
pub fn written_is_read()
    ensures { (v : Value) → IsValue v → IsItem (text v) v }
{}

/// A whole number's written text is the one text that names it and has the form: an optional minus and no
/// plus, no leading zero, and no minus on zero.
pub fn one_whole_text_has_the_form()
    ensures { (z : ℤ) (text : List ℕ) → (text ≡ signed_text z)
        ↔ (HasWholeForm text × NamesWhole text z) }
{}

/// An item is at most one value of a kind.
pub fn one_value()
    ensures { (v w : Value) (item : List ℕ) → kind_of v ≡ kind_of w
        → IsItem item v → IsItem item w → v ≡ w }
{}

/// An item has at most one fault for a kind.
pub fn one_fault()
    ensures { (k : Kind) (item : List ℕ) (e f : ValueFault)
        → IsItemFault k item e → IsItemFault k item f → e ≡ f }
{}

/// An item that is read as a value has no fault for the value's kind.
pub fn item_has_no_fault()
    ensures { (v : Value) (item : List ℕ) (e : ValueFault)
        → IsItem item v → IsItemFault (kind_of v) item e → ⊥ }
{}

/// A text splits into at most one list of items.
pub fn one_list()
    ensures { (bytes : List ℕ) (xs ys : List (List ℕ))
        → IsParams bytes xs → IsParams bytes ys → xs ≡ ys }
{}

/// The written texts of values in their kinds' ranges, joined by commas, split back into these texts.
pub fn joined_splits()
    ensures { (vs : List Value) → AreValues vs → IsParams (joined (map text vs)) (map text vs) }
{}

/// The written text of a value in its kind's range has no CR and no LF.
pub fn text_is_plain()
    ensures { (v : Value) → IsValue v → All (λ b. (b ≢ 10) × (b ≢ 13)) (text v) }
{}

/// The written text of a value in its kind's range has 1 to 66 bytes.
pub fn text_is_short()
    ensures some { (v : Value) → 0 < length (text v) }
    ensures few { (v : Value) → IsValue v → length (text v) ≤ 66 }
{}

/// A value that an item is read as lies in its kind's range.
pub fn item_is_a_value()
    ensures { (v : Value) (item : List ℕ) → IsItem item v → IsValue v }
{}

/// Each list of parameters is read as values of the kinds that are asked for, or has a fault.
pub fn each_list_is_read_or_faulty()
    ensures { (kinds : List Kind) (params : List ℕ) → IsListReadOrFaulty kinds params }
{}
