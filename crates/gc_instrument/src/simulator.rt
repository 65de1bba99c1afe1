//! The serial number, the name and the scene of the simulator.

ghost use Rattle.std.specs.Prelude.{◌≡◌, codes};
ghost use Rattle.gc_instrument.specs.State.{simulator_scene};

use crate::target::Target;
use gc_values::{Decimal, Text};

/// The simulator's serial number.
pub const SIMULATOR_SERIAL: i32 = 123456;

/// The simulator's name, `GEOCOM SIM`.
pub fn simulator_name() -> Text
    ensures { result ≡ codes "GEOCOM SIM" }
{
    // Every byte of this name is allowed, and they are few enough.
    match Text::new(b"GEOCOM SIM") {
        Ok(name) => name,
        Err(_) => unreachable!(),
    }
}

/// The three targets of the simulator. `Decimal::literal(25_125, 3)` is 25.125.
pub fn simulator_scene() -> [Target; 3]
    ensures { result ≡ simulator_scene }
{
    [
        Target {
            hz: Decimal::literal(5, 1),
            v: Decimal::literal(15, 1),
            distance: Decimal::literal(25_125, 3),
        },
        Target {
            hz: Decimal::literal(225, 2),
            v: Decimal::literal(1_625, 3),
            distance: Decimal::literal(1_100_625, 4),
        },
        Target {
            hz: Decimal::literal(4, 0),
            v: Decimal::literal(15, 1),
            distance: Decimal::literal(485, 1),
        },
    ]
}
