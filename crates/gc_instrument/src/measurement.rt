//! Which target of a scene the instrument measures or finds: the first in the scene's order.

ghost use Rattle.std.specs.Prelude.{◌≡◌, find, option_map};
ghost use Rattle.gc_instrument.specs.Targets.{is_at, is_within_areas, first_at, first_within};

use crate::pointing::Pointing;
use crate::target::Target;
use gc_values::Decimal;

/// Whether the target lies exactly where the telescope points.
pub fn is_at(pointing: &Pointing, target: &Target) -> bool
    ensures { result ≡ is_at pointing.now target.now }
{
    target.hz == pointing.hz && target.v == pointing.v
}

// Whether both angles of the target differ from the telescope's by at most these areas, in radians. Full turns aren't taken off.
fn is_within_areas(
    pointing: &Pointing,
    area_hz: &Decimal,
    area_v: &Decimal,
    target: &Target,
) -> bool
    ensures { result ≡ is_within_areas pointing.now area_hz.now area_v.now target.now }
{
    target.hz.within(&pointing.hz, area_hz) && target.v.within(&pointing.v, area_v)
}

/// The first target of a scene that lies exactly where the telescope points. `None`: no target does.
pub fn first_at<'a>(pointing: &Pointing, scene: &'a [Target]) -> Option<&'a Target>
    ensures { option_map (λ t. t.now) result ≡ first_at pointing.now scene.now }
{
    scene.iter().find(|target| is_at(pointing, target))
}

/// The first target of a scene whose angles differ from the telescope's by at most these areas, in radians. Full turns aren't taken
/// off the differences. `None`: no target lies so near.
pub(crate) fn first_within<'a>(
    pointing: &Pointing,
    area_hz: &Decimal,
    area_v: &Decimal,
    scene: &'a [Target],
) -> Option<&'a Target>
    ensures { option_map (λ t. t.now) result ≡ first_within pointing.now area_hz.now area_v.now scene.now }
{
    scene.iter().find(|target| is_within_areas(pointing, area_hz, area_v, target))
}
