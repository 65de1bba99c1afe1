//! A target of a scene.

ghost use Rattle.std.specs.Prelude.{◌≡◌};

use gc_values::Decimal;

/// A prism that the instrument can find and measure: its horizontal direction and vertical angle in
/// radians, and its slope distance in metres.
#[derive(Clone, Copy)]
pub struct Target {
    pub hz: Decimal,
    pub v: Decimal,
    pub distance: Decimal,
}

impl Default for Target {
    ghost use Rattle.gc_instrument.specs.Targets.{nowhere};

    ghost is_default = { λ t. t ≡ nowhere };

    /// A target of zeros: the value in the unused places of a scene.
    fn default() -> Target {
        Target {
            hz: Decimal::zero(),
            v: Decimal::zero(),
            distance: Decimal::zero(),
        }
    }
}
