//! What each call does to an instrument, and what the instrument answers: this project's own, after
//! the procedures of the GeoCOM manual.

ghost use Rattle.std.specs.Prelude.{◌≡◌};
ghost use Rattle.gc_instrument.specs.Numbers.{temperature};
ghost use Rattle.gc_instrument.specs.Execution.{Gives, Executes, done, measured_outcome, is_date, commanded, measured, pointed, turned_over, searched};

use super::Instrument;
use crate::codes::{INVALID_PARAMETER, NO_DISTANCE, NO_TARGET};
use crate::measurement::{first_at, first_within};
use crate::pointing::Pointing;
use gc_catalogue::{Answer, Call, DateTime, Station};
use gc_values::Decimal;

impl Instrument {
    ghost use Rattle.gc_catalogue.specs.declared.call.Call.TheVariants.{SetPrecision, SetDate, SetStation, SetHeight, GetAngle, SimpleMea, QuickDist, SetPrism, MeasDistance};
    ghost use Rattle.gc_catalogue.specs.declared.answer.Answer.TheVariants.{Nothing, Name, Place, Angles};

    /// Carries out a call, and returns the return code and the answer. The code is 0, 2 for a value that isn't allowed, 1285 if no
    /// distance is known, or 8710 if no target is found. With a code other than 0 the answer is `Answer::Nothing`, and nothing changes,
    /// except that a measurement that met no target has cleared the distance. Values are stored with all their places, whatever the
    /// precision. The stored reply is neither given nor changed.
    pub fn execute(&mut self, call: &Call) -> (u16, Answer)
        ensures { Executes self.old call.now self.new result.0 result.1 }
    {
        let mut answer = Answer::Nothing;
        let rc = self.carry_out(call, &mut answer);
        (rc, answer)
    }

    // As `execute`, but the answer is written into `answer`, which has to be `Answer::Nothing` before, and the return code alone is
    // returned. A call that sets values, has several outcomes or has a large answer is carried out by a method of its own, below.
    #[inline(always)]
    #[tactic(auto, unfolding(crate::specs::Execution::exec))]
    pub(super) fn carry_out(&mut self, call: &Call, answer: &mut Answer) -> u16
        requires { answer.old ≡ Nothing }
        ensures { Executes self.old call.now self.new result answer.new }
    {
        match call {
            Call::NullProc => 0,
            Call::SetPrecision(places) => self.set_precision(*places),
            Call::GetPrecision => {
                *answer = Answer::Short(i16::from(self.settings.precision));
                0
            }
            Call::ComVersion => {
                *answer = Answer::Version(1, 0, 0);
                0
            }
            Call::InstrumentNo => {
                *answer = Answer::Long(self.serial);
                0
            }
            Call::InstrumentName => self.answer_name(answer),
            Call::SetDate(date) => self.set_date(*date),
            Call::GetDate => {
                *answer = Answer::Date(self.settings.date);
                0
            }
            Call::IntTemp => {
                *answer = Answer::Temperature(temperature());
                0
            }
            Call::CsvVersion => {
                *answer = Answer::Version(1, 2, 0);
                0
            }
            Call::DoMeasure { command, .. } => self.do_measure(*command),
            Call::GetStation => self.answer_station(answer),
            Call::SetStation(station) => self.set_station(station),
            Call::GetHeight => {
                *answer = Answer::Height(self.settings.height);
                0
            }
            Call::SetHeight(height) => self.set_height(height),
            Call::GetFace => {
                *answer = Answer::Long(self.settings.face.number());
                0
            }
            Call::GetAngle { .. } => self.answer_angles(answer),
            Call::SimpleMea { .. } => self.answer_measured(answer),
            Call::QuickDist => self.measure_and_answer(answer),
            Call::SetPrism(prism) => self.set_prism(*prism),
            Call::GetPrism => {
                *answer = Answer::Long(self.settings.prism);
                0
            }
            Call::MeasDistance { mode } => self.measure_in_mode(*mode, answer),
            Call::Position { hz, v, .. } => self.position(hz, v),
            Call::ChangeFace { .. } => self.change_face(),
            Call::FineAdjust {
                area_hz,
                area_v,
                ..
            } => self.fine_adjust(area_hz, area_v),
        }
    }

    // Sets the precision, 0 to 15 places. Another number is refused with code 2, and nothing changes.
    #[tactic(auto, unfolding(crate::specs::Execution::exec))]
    fn set_precision(&mut self, places: i16) -> u16
        ensures { Executes self.old (SetPrecision places) self.new result Nothing }
    {
        if 0 <= places && places <= 15 {
            self.settings.precision = places as u8;
            0
        } else {
            INVALID_PARAMETER
        }
    }

    // Sets the date and time, if they pass `is_date`. Others are refused with code 2, and nothing changes.
    #[tactic(auto, unfolding(crate::specs::Execution::exec))]
    #[inline(never)]
    fn set_date(&mut self, date: DateTime) -> u16
        ensures { Executes self.old (SetDate date) self.new result Nothing }
    {
        if is_date(&date) {
            self.settings.date = date;
            0
        } else {
            INVALID_PARAMETER
        }
    }

    // Answers the instrument's name.
    #[inline(never)]
    fn answer_name(&self, answer: &mut Answer) -> u16
        ensures { Gives (done self.now (Name self.now.name)) self.now result answer.new }
    {
        *answer = Answer::Name(self.name);
        0
    }

    // Answers the station's coordinates and the height of the instrument over it.
    #[inline(never)]
    fn answer_station(&self, answer: &mut Answer) -> u16
        ensures { Gives (done self.now (Place self.now.station)) self.now result answer.new }
    {
        *answer = Answer::Place(self.settings.station);
        0
    }

    // Sets the station's coordinates and the height of the instrument over it.
    #[tactic(auto, unfolding(crate::specs::Execution::exec))]
    #[inline(never)]
    fn set_station(&mut self, station: &Station) -> u16
        ensures { Executes self.old (SetStation station.now) self.new result Nothing }
    {
        self.settings.station = *station;
        0
    }

    // Sets the height of the reflector, with all its places.
    #[tactic(auto, unfolding(crate::specs::Execution::exec))]
    fn set_height(&mut self, height: &Decimal) -> u16
        ensures { Executes self.old (SetHeight height.now) self.new result Nothing }
    {
        self.settings.height = *height;
        0
    }

    // Carries out a command of TMC_DoMeasure: 0 does nothing, 1 measures (with code 0, even if no target is met), 3 clears the distance.
    // Another command is refused with code 2, and nothing changes.
    #[inline(never)]
    fn do_measure(&mut self, command: i32) -> u16
        ensures { Gives (commanded self.old command) self.new result Nothing }
    {
        match command {
            0 => 0,
            1 => {
                self.measure();
                0
            }
            3 => {
                self.settings.distance = None;
                0
            }
            _ => INVALID_PARAMETER,
        }
    }

    // Stores the distance of the first target that lies exactly where the telescope points. If there is no such target, the stored
    // distance is cleared.
    fn measure(&mut self)
        ensures { self.new ≡ measured self.old }
    {
        let target = first_at(&self.settings.pointing, self.scene.as_slice());
        self.settings.distance = target.map(|target| target.distance);
    }

    // Answers the horizontal direction and the vertical angle.
    #[inline(never)]
    fn answer_angles(&self, answer: &mut Answer) -> u16
        ensures { Gives (done self.now (Angles self.now.pointing.hz self.now.pointing.v))
            self.now result answer.new }
    {
        let Pointing { hz, v } = self.settings.pointing;
        *answer = Answer::Angles { hz, v };
        0
    }

    // Answers the angles and the stored distance. Where none is stored, the code is 1285, without an answer.
    #[inline(never)]
    fn answer_measured(&self, answer: &mut Answer) -> u16
        requires { answer.old ≡ Nothing }
        ensures { Gives (measured_outcome self.now self.now) self.now result answer.new }
    {
        let Some(distance) = self.settings.distance else {
            return NO_DISTANCE;
        };
        let Pointing { hz, v } = self.settings.pointing;
        *answer = Answer::Measured { hz, v, distance };
        0
    }

    // Measures the distance, and answers the angles and the distance. Where no target is met, the code is 1285, without an answer, and the
    // distance is cleared.
    #[tactic(auto, unfolding(crate::specs::Execution::exec))]
    #[inline(never)]
    fn measure_and_answer(&mut self, answer: &mut Answer) -> u16
        requires { answer.old ≡ Nothing }
        ensures { Executes self.old QuickDist self.new result answer.new }
    {
        self.measure();
        self.answer_measured(answer)
    }

    // Sets the prism type, at least 0. A negative one is refused with code 2, and nothing changes.
    #[tactic(auto, unfolding(crate::specs::Execution::exec))]
    fn set_prism(&mut self, prism: i32) -> u16
        ensures { Executes self.old (SetPrism prism) self.new result Nothing }
    {
        if prism < 0 {
            return INVALID_PARAMETER;
        }
        self.settings.prism = prism;
        0
    }

    // As `measure_and_answer`, but the answer also gives this mode, which has no other effect.
    #[tactic(auto, unfolding(crate::specs::Execution::exec))]
    #[inline(never)]
    fn measure_in_mode(&mut self, mode: i32, answer: &mut Answer) -> u16
        requires { answer.old ≡ Nothing }
        ensures { Executes self.old (MeasDistance mode) self.new result answer.new }
    {
        self.measure();
        let Some(distance) = self.settings.distance else {
            return NO_DISTANCE;
        };
        let Pointing { hz, v } = self.settings.pointing;
        *answer = Answer::MeasuredMode {
            hz,
            v,
            distance,
            mode,
        };
        0
    }

    // Turns the telescope to these angles, which clears the distance.
    #[inline(never)]
    fn position(&mut self, hz: &Decimal, v: &Decimal) -> u16
        ensures { Gives (done (pointed self.old hz.now v.now) Nothing) self.new result Nothing }
    {
        self.settings.turn_to(hz, v);
        0
    }

    // Changes the face, which clears the distance. The angles stay.
    #[inline(never)]
    fn change_face(&mut self) -> u16
        ensures { Gives (done (turned_over self.old) Nothing) self.new result Nothing }
    {
        self.settings.face = self.settings.face.turned();
        self.settings.distance = None;
        0
    }

    // Turns the telescope to the first target whose angles differ from the telescope's by at most these areas, which clears the distance.
    // A negative area is refused with code 2, and where there is no such target the code is 8710; in both cases nothing changes.
    #[inline(never)]
    fn fine_adjust(&mut self, area_hz: &Decimal, area_v: &Decimal) -> u16
        ensures { Gives (searched self.old area_hz.now area_v.now) self.new result Nothing }
    {
        if area_hz.digits() < 0 || area_v.digits() < 0 {
            return INVALID_PARAMETER;
        }
        match first_within(
            &self.settings.pointing,
            area_hz,
            area_v,
            self.scene.as_slice(),
        ) {
            Some(target) => {
                self.settings.turn_to(&target.hz, &target.v);
                0
            }
            None => NO_TARGET,
        }
    }
}

// The temperature inside every instrument: 21 degrees Celsius.
fn temperature() -> Decimal
    ensures { result ≡ temperature }
{
    Decimal::literal(21, 0)
}

// Whether the clock can be set to this date and time: each value is in its range, with 31 days in every month.
fn is_date(date: &DateTime) -> bool
    ensures { result ≡ is_date date.now }
{
    1 <= date.year
        && date.year <= 9999
        && 1 <= date.month
        && date.month <= 12
        && 1 <= date.day
        && date.day <= 31
        && date.hour <= 23
        && date.minute <= 59
        && date.second <= 59
}
