//! The values of an instrument that calls set, and those that it starts with.

use crate::face::Face;
use crate::pointing::Pointing;
use gc_catalogue::{DateTime, Station};
use gc_values::Decimal;

/// The part of an instrument that calls change. Lengths are in metres, angles in radians.
#[derive(Clone, Copy)]
pub struct Settings {
    /// The number of places to which doubles are rounded in replies, 0 to 15.
    pub precision: u8,
    pub station: Station,
    /// The height of the reflector.
    pub height: Decimal,
    pub face: Face,
    pub pointing: Pointing,
    /// The slope distance that was measured last. `None`: none was measured, or it was cleared.
    pub distance: Option<Decimal>,
    pub date: DateTime,
    /// The type of the prism.
    pub prism: i32,
}

impl Settings {
    ghost use Rattle.std.specs.Prelude.{◌≡◌, None, pos};
    ghost use Rattle.gc_values.specs.Decimals.{zero};
    ghost use Rattle.gc_instrument.specs.State.{origin, first_pointing, first_date};
    ghost use Rattle.gc_instrument.specs.declared.face.Face.TheVariants.{Normal};

    /// The settings at the start, with this precision: zeros, the normal face, no distance, the date 1996-07-25 16:19:47, prism type 0.
    pub fn opening(precision: u8) -> Settings
        ensures { result ≡ record {
          precision = precision;
          station = origin;
          height = zero;
          face = Normal;
          pointing = first_pointing;
          distance = None;
          date = first_date;
          prism = pos 0;
        } }
    {
        let zero = Decimal::zero();
        Settings {
            precision,
            station: Station {
                e0: zero,
                n0: zero,
                h0: zero,
                hi: zero,
            },
            height: zero,
            face: Face::Normal,
            pointing: Pointing { hz: zero, v: zero },
            distance: None,
            date: DateTime {
                year: 1996,
                month: 7,
                day: 25,
                hour: 16,
                minute: 19,
                second: 47,
            },
            prism: 0,
        }
    }

    /// Turns the telescope to these angles, which clears the distance.
    #[inline]
    pub fn turn_to(&mut self, hz: &Decimal, v: &Decimal)
        ensures { self.new ≡ record self.old { pointing = record { hz = hz.now; v = v.now }; distance = None } }
    {
        self.pointing = Pointing { hz: *hz, v: *v };
        self.distance = None;
    }
}
