//! A number's text, cut into its parts.

ghost use Rattle.std.proofs.Props.{props};
ghost use Rattle.gc_values.specs.Digits.{AreDigits};

/// The parts of a number's text.
#[derive(Clone, Copy)]
pub struct Numeral<'a> {
    /// Whether the sign is a minus.
    pub negative: bool,
    /// The digits before the point, or all of them without a point. They may be none, where some follow the point.
    pub whole: &'a [u8],
    /// The digits after the point; none without a point.
    pub fraction: &'a [u8],
    /// How many times the exponent multiplies by ten; 0 without one, or where it has a minus.
    pub up: u16,
    /// How many times the exponent divides by ten; 0 without one, or where it has no minus.
    pub down: u16,
    pub ghost whole_are_digits: { AreDigits whole.now } by { Prim.hlevel props },
    pub ghost fraction_are_digits: { AreDigits fraction.now } by { Prim.hlevel props },
}
