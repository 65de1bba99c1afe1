//! The simulated instrument: its parts, how it starts, and the values that its owner can read.

ghost use Rattle.std.specs.Prelude.{◌≡◌, ◌<◌, ◌≤◌, ◌↔◌, length, IfOk, IsErr};
ghost use Rattle.gc_instrument.specs.State.{IsFittingState, kept_id, opening, restarted, simulator_opening};

mod execution;
mod kept;
mod owner;
mod replying;
mod settings;

use crate::face::Face;
use crate::pointing::Pointing;
use crate::simulator::{SIMULATOR_SERIAL, simulator_name, simulator_scene};
use crate::target::Target;
use arrayvec::ArrayVec;
use gc_catalogue::{DateTime, Station};
use gc_values::{Decimal, Text};
pub use kept::Kept;
use settings::Settings;
use std::error::Error;
use std::fmt;
use std::marker::Model;

/// The precision of a new instrument: the number of places to which doubles are rounded in replies.
const OPENING_PRECISION: u8 = 15;

/// A scene has more than 32 targets.
#[derive(Clone, Copy, Debug)]
pub struct SceneFull;

impl SceneFull {
    /// The fault's number, 41.
    pub fn number(self) -> u8
        ensures { result ≡ 41 }
    {
        41
    }
}

impl fmt::Display for SceneFull {
    ghost use Rattle.std.specs.Prelude.{Some, codes};

    ghost output = { λ full. Some (codes "a scene has more than 32 targets") };

    fn fmt<W: fmt::Write>(&self, f: &mut fmt::Formatter<W>) -> fmt::Result {
        f.write_str("a scene has more than 32 targets")
    }
}

impl Error for SceneFull {}

/// A simulated total station: its serial number, its name, a scene of at most 32 targets, what calls
/// have set, and the id and the reply of the last request that carried an id and was executed since
/// the instrument was made or restarted, if there was one. It holds no allocated memory.
#[derive(Drop)]
pub struct Instrument {
    serial: i32,
    name: Text,
    scene: ArrayVec<Target, 32>,
    settings: Settings,
    kept: Kept,
}

impl Model for Instrument {
    ghost use Rattle.gc_instrument.specs.State.{State};

    ghost Value = { State };

    ghost use Rattle.gc_instrument.specs.Seen.{state_of, IsSound};

    ghost view = { state_of };

    ghost invariant = { IsSound };
}

impl Instrument {
    ghost use Rattle.gc_instrument.specs.Targets.{nowhere};

    /// Makes an instrument with this serial number, name and scene, in the opening state, which is this project's own: precision 15, the
    /// station, the reflector's height and the pointing 0.0, the normal face, no distance, the date 1996-07-25 16:19:47, prism type 0, and
    /// no stored reply. A scene of more than 32 targets is refused.
    pub fn new(serial: i32, name: Text, scene: &[Target]) -> Result<Instrument, SceneFull>
        ensures opening { IfOk result (λ i. i ≡ opening serial name scene.now) }
        ensures fits { IfOk result (λ i. IsFittingState i) }
        ensures full { IsErr result ↔ (32 < length scene.now) }
    {
        let mut targets = ArrayVec::new();
        if targets.try_extend_from_slice(scene).is_err() {
            return Err(SceneFull);
        }
        Ok(Instrument {
            serial,
            name,
            scene: targets,
            settings: Settings::opening(OPENING_PRECISION),
            kept: Kept::nothing(),
        })
    }

    /// Brings back the opening state, but leaves the precision as it is. The stored reply is discarded;
    /// the serial number, the name and the scene stay.
    pub fn restart(&mut self)
        ensures state { self.new ≡ restarted self.old }
        ensures fits { IsFittingState self.new }
    {
        self.settings = Settings::opening(self.settings.precision);
        self.kept.forget();
    }

    /// Makes the simulator, in the opening state of `new`: serial number 123456, name `GEOCOM SIM`, and three targets.
    pub fn simulator() -> Instrument
        ensures state { result ≡ simulator_opening }
        ensures fits { IsFittingState result }
    {
        // The scene has three targets, so it is never refused.
        match Instrument::new(SIMULATOR_SERIAL, simulator_name(), &simulator_scene()) {
            Ok(instrument) => instrument,
            Err(_) => unreachable!(),
        }
    }

    /// The number of places to which doubles are rounded in replies, 0 to 15.
    pub fn precision(&self) -> u8
        ensures value { result ≡ self.now.precision }
        ensures fits { IsFittingState self.now }
    {
        self.settings.precision
    }

    /// The station's coordinates and the height of the instrument over it, in metres.
    pub fn station(&self) -> Station
        ensures { result ≡ self.now.station }
    {
        self.settings.station
    }

    /// The height of the reflector, in metres.
    pub fn height(&self) -> Decimal
        ensures { result ≡ self.now.height }
    {
        self.settings.height
    }

    /// The face of the telescope.
    pub fn face(&self) -> Face
        ensures { result ≡ self.now.face }
    {
        self.settings.face
    }

    /// Where the telescope points, in radians.
    pub fn pointing(&self) -> Pointing
        ensures { result ≡ self.now.pointing }
    {
        self.settings.pointing
    }

    /// The slope distance that was measured last, in metres. `None`: none was measured, the last measurement met no target, or a call or a
    /// restart has cleared the distance.
    pub fn distance(&self) -> Option<Decimal>
        ensures { result ≡ self.now.distance }
    {
        self.settings.distance
    }

    /// The id of the last request that carried one and was executed since the instrument was made or restarted. A request that
    /// names any call and carries this id gets the stored reply. `None`: no request with an id was executed since then.
    pub fn kept_id(&self) -> Option<u8>
        ensures { result ≡ kept_id self.now.kept }
    {
        self.kept.id()
    }

    /// The date and time that were set last since the instrument was made or restarted, or else 1996-07-25 16:19:47. No clock runs.
    pub fn date(&self) -> DateTime
        ensures { result ≡ self.now.date }
    {
        self.settings.date
    }

    /// The prism type that was set last since the instrument was made or restarted, or else 0.
    pub fn prism(&self) -> i32
        ensures { result ≡ self.now.prism }
    {
        self.settings.prism
    }
}
