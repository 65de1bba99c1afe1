//! What holds of all decimals and all texts, whatever the code does: each function is one law, and its
//! clause states it. The rules that the words stand for are in `specs/`.

ghost use Rattle.std.specs.Prelude.{◌≡◌, ◌↔◌, IsTrue, ◌≤◌, ℕ, List};
ghost use Rattle.std.specs.Ordering.{MatchOrdering};
ghost use Rattle.gc_values.specs.Decimals.{SpellsDecimal, decimal_text, fraction, rounded, decimal_eq, decimal_cmp, is_within};
ghost use Rattle.gc_values.specs.Directions.{NearIsWithinTheTolerance};
ghost use Rattle.gc_values.specs.NearExamples.{NearByExample};
ghost use Rattle.gc_values.specs.Fraction.{Fraction, SameValue, IsRounded, IsBelow, IsWithin};
ghost use Rattle.gc_values.specs.Spelling.{NamesFraction, SpellsBeyond, SpellsNothing};
ghost use Rattle.gc_values.specs.WrittenForm.{HasDecimalForm};
ghost use Rattle.gc_values.specs.declared.decimal.Decimal.{Decimal};

/// A text names one fraction at most.
pub fn text_names_one_fraction()
    ensures { (text : List ℕ) (p q : Fraction) → NamesFraction text p → NamesFraction text q → p ≡ q }
{}

/// A text spells one decimal at most.
pub fn text_spells_one_decimal()
    ensures { (text : List ℕ) (d e : Decimal) → SpellsDecimal text d → SpellsDecimal text e → d ≡ e }
{}

/// A text that spells a decimal has no fault.
pub fn spelled_text_has_no_fault()
    ensures range { (text : List ℕ) (d : Decimal) → SpellsDecimal text d → SpellsBeyond text → ⊥ }
    ensures spelling { (text : List ℕ) (d : Decimal) → SpellsDecimal text d → SpellsNothing text → ⊥ }
{}

/// A text has one fault at most.
pub fn text_has_one_fault()
    ensures { (text : List ℕ) → SpellsBeyond text → SpellsNothing text → ⊥ }
{}

/// A decimal's written text spells it.
pub fn written_text_spells()
    ensures { (d : Decimal) → SpellsDecimal (decimal_text d) d }
{}

/// A decimal's written text is the one text that spells it and has the form: an optional minus and no plus, a
/// digit on each side of the point, at most 24 places, no other zero at either end, no minus on zero, and no
/// exponent.
pub fn one_text_has_the_form()
    ensures { (d : Decimal) (text : List ℕ) → (text ≡ decimal_text d) ↔ (HasDecimalForm text × SpellsDecimal text d) }
{}

/// Two decimals are equal exactly if their written texts are.
pub fn equal_texts_are_equal_decimals()
    ensures { (d e : Decimal) → (decimal_text d ≡ decimal_text e) ↔ (d ≡ e) }
{}

/// Two decimals are equal exactly if their values are.
pub fn equal_values_are_equal_decimals()
    ensures { (d e : Decimal) → SameValue d.digits d.scale e.digits e.scale ↔ (d ≡ e) }
{}

/// A fraction rounds to one decimal at most for each number of places.
pub fn rounding_is_unique()
    ensures { (q : Fraction) (p : ℕ) (d e : Decimal) → IsRounded q p d.digits d.scale
        → IsRounded q p e.digits e.scale → d ≡ e }
{}

/// The decimal that `rounded` computes is the value rounded to the given number of places.
pub fn rounded_is_the_rounding()
    ensures { (d : Decimal) (p : ℕ)
        → IsRounded (fraction d) p (rounded d p).digits (rounded d p).scale }
{}

/// The order of decimals is that of their values.
pub fn order_is_that_of_the_values()
    ensures { (a b : Decimal) → MatchOrdering (decimal_cmp a b)
        (IsBelow (fraction a) (fraction b)) (a ≡ b) (IsBelow (fraction b) (fraction a)) }
{}

/// `is_within` says exactly whether two values are at most `area` apart.
pub fn is_within_is_the_distance()
    ensures { (a b area : Decimal)
        → IsTrue (is_within a b area) ↔ IsWithin (fraction a) (fraction b) (fraction area) }
{}

/// `==` answers whether two decimals are equal.
pub fn equality_is_that_of_decimals()
    ensures { (a b : Decimal) → IsTrue (decimal_eq a b) ↔ (a ≡ b) }
{}

/// `is_near` says exactly whether a direction is near a place: both of its angles, as face I has them, are at most the tolerance
/// away from the place's, the horizontal one after at most two whole turns either way.
pub fn near_is_within_the_tolerance()
    ensures { NearIsWithinTheTolerance }
{}

/// Examples of directions that the definition calls near, and of some that it doesn't: on the circle, in face II, near by one angle alone,
/// and at the bound.
pub fn near_by_example()
    ensures { NearByExample }
{}
