//! Where a telescope points.

use gc_values::Decimal;

/// The horizontal direction and the vertical angle of the telescope, in radians. They aren't
/// reduced to one turn.
#[derive(Clone, Copy)]
pub struct Pointing {
    pub hz: Decimal,
    pub v: Decimal,
}
