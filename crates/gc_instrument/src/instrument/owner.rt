//! What an owner of an instrument sets without a call: its targets, where it points, its face, and that it has no distance.

ghost use Rattle.std.specs.Prelude.{◌≡◌};
ghost use Rattle.gc_instrument.specs.Execution.{pointed, unmeasured};

use super::Instrument;
use crate::face::Face;
use crate::target::Target;
use arrayvec::ArrayVec;
use gc_values::Decimal;

impl Instrument {
    /// Puts these targets in place of the scene's. The distance stays.
    pub fn set_scene(&mut self, targets: &ArrayVec<Target, 32>)
        ensures { self.new ≡ record self.old { scene = targets.now.items } }
    {
        self.scene.clear();
        // There is room, since the scene holds as many.
        let _ = self.scene.try_extend_from_slice(targets.as_slice());
    }

    /// The targets of the scene.
    pub fn scene(&self) -> &[Target]
        ensures { result.now ≡ self.now.scene }
    {
        self.scene.as_slice()
    }

    /// Turns the telescope to these angles, in radians, which clears the distance.
    pub fn turn_to(&mut self, hz: &Decimal, v: &Decimal)
        ensures { self.new ≡ pointed self.old hz.now v.now }
    {
        self.settings.turn_to(hz, v);
    }

    /// Sets the face of the telescope. Angles and distance stay.
    pub fn set_face(&mut self, face: Face)
        ensures { self.new ≡ record self.old { face = face } }
    {
        self.settings.face = face;
    }

    /// Clears the distance.
    pub fn clear_distance(&mut self)
        ensures { self.new ≡ unmeasured self.old }
    {
        self.settings.distance = None;
    }
}
