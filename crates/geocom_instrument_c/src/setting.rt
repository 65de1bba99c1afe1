//! Setting up the instrument of a scene's text.

ghost use Rattle.std.specs.Prelude.{◌≡◌};
ghost use Rattle.geocom_instrument_c.specs.Setting.{IsSetUp, faulty_line};

use crate::bench::{Bench, GeocomInstrument};
use crate::replied::GeocomMade;
use gc_filters::{TimedForm, read_scene};
use gc_scenes::SlowInstrument;
use gc_texts::RunFault;
use std::alloc::Global;

impl GeocomInstrument {
    /// Sets up the instrument of a scene's text, in its opening state. If the scene is refused, no instrument is there
    /// afterwards, and the result has the fault, and the number of the scene's line that it names, from 1 on, or 0 if it names
    /// none.
    pub(crate) fn set_up(&mut self, alloc: Global, scene: &[u8]) -> GeocomMade
        ensures { IsSetUp scene.now self.new result }
    {
        match read_scene::<TimedForm, SlowInstrument>(alloc, scene) {
            Ok(slow) => {
                self.bench = Some(Bench::new(slow));
                GeocomMade { fault: 0, line: 0 }
            }
            Err(fault) => {
                self.bench = None;
                GeocomMade {
                    fault: u32::from(fault.number()),
                    line: faulty_line(fault),
                }
            }
        }
    }
}

// The number of the scene's line that a fault names; 0 if it names none.
fn faulty_line(fault: RunFault) -> u32
    ensures { result ≡ faulty_line fault }
{
    match fault {
        RunFault::Schedule { line } => line,
        _ => 0,
    }
}
