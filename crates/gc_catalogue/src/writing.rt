//! The rows for writing: the number, the values and the answer's shape of each procedure, and the values of each answer.

ghost use Rattle.std.specs.Prelude.{◌≡◌, ◌≤◌, []};
ghost use Rattle.gc_lines.specs.Headers.{MayBeId};
ghost use Rattle.gc_catalogue.specs.Answers.{answer_fields};
ghost use Rattle.gc_catalogue.specs.Calls.{call_fields};
ghost use Rattle.gc_catalogue.specs.Lists.{TakesValues, shown_values};
ghost use Rattle.gc_catalogue.specs.Structs.{date_values, station_values};

use crate::answer::{Answer, Shape};
use crate::call::{Call, DateTime, Station};
use crate::taking::{NumberAlone, Taker};

impl Call {
    /// Hands over the call's number with the request's id, 0 to 7, if there is one, and then the call's values, in their order on the
    /// line. It returns the shape of the call's answers. This is the code's table of procedures, a row for each; the specification's is
    /// `call_fields`.
    pub(crate) fn write_row<T: Taker>(&self, id: Option<u8>, to: &mut T) -> Shape
        requires room { 7 ≤ T.room to.old }
        requires id { MayBeId id }
        ensures takes { (t : T) → T.takes to.new [] t → T.begins to.old id (call_fields self.now).number (call_fields self.now).values t }
        ensures answer { result ≡ (call_fields self.now).answer }
    {
        match self {
            // COM_NullProc
            Call::NullProc => {
                to.number(0, id);
                Shape::Nothing
            },
            // COM_SetDoublePrecision
            Call::SetPrecision(places) => {
                to.number(107, id);
                to.short(*places);
                Shape::Nothing
            },
            // COM_GetDoublePrecision
            Call::GetPrecision => {
                to.number(108, id);
                Shape::Short
            },
            // COM_GetSWVersion
            Call::ComVersion => {
                to.number(110, id);
                Shape::Version
            },
            // CSV_GetInstrumentNo
            Call::InstrumentNo => {
                to.number(5003, id);
                Shape::Long
            },
            // CSV_GetInstrumentName
            Call::InstrumentName => {
                to.number(5004, id);
                Shape::Name
            },
            // CSV_SetDateTime
            Call::SetDate(date) => {
                to.number(5007, id);
                date.hand_over(to);
                Shape::Nothing
            },
            // CSV_GetDateTime
            Call::GetDate => {
                to.number(5008, id);
                Shape::Date
            },
            // CSV_GetIntTemp
            Call::IntTemp => {
                to.number(5011, id);
                Shape::Temperature
            },
            // CSV_GetSWVersion
            Call::CsvVersion => {
                to.number(5034, id);
                Shape::Version
            },
            // TMC_DoMeasure
            Call::DoMeasure { command, mode } => {
                to.number(2008, id);
                to.long(*command);
                to.long(*mode);
                Shape::Nothing
            },
            // TMC_GetStation
            Call::GetStation => {
                to.number(2009, id);
                Shape::Place
            },
            // TMC_SetStation
            Call::SetStation(station) => {
                to.number(2010, id);
                station.hand_over(to);
                Shape::Nothing
            },
            // TMC_GetHeight
            Call::GetHeight => {
                to.number(2011, id);
                Shape::Height
            },
            // TMC_SetHeight
            Call::SetHeight(height) => {
                to.number(2012, id);
                to.double(height);
                Shape::Nothing
            },
            // TMC_GetFace
            Call::GetFace => {
                to.number(2026, id);
                Shape::Long
            },
            // TMC_GetAngle
            Call::GetAngle { mode } => {
                to.number(2107, id);
                to.long(*mode);
                Shape::Angles
            },
            // TMC_GetSimpleMea
            Call::SimpleMea { wait, mode } => {
                to.number(2108, id);
                to.long(*wait);
                to.long(*mode);
                Shape::Measured
            },
            // TMC_QuickDist
            Call::QuickDist => {
                to.number(2117, id);
                Shape::Measured
            },
            // BAP_SetPrismType
            Call::SetPrism(prism) => {
                to.number(17008, id);
                to.long(*prism);
                Shape::Nothing
            },
            // BAP_GetPrismType
            Call::GetPrism => {
                to.number(17009, id);
                Shape::Long
            },
            // BAP_MeasDistanceAngle
            Call::MeasDistance { mode } => {
                to.number(17017, id);
                to.long(*mode);
                Shape::MeasuredMode
            },
            // AUT_MakePositioning
            Call::Position {
                hz,
                v,
                pos_mode,
                atr_mode,
                dummy,
            } => {
                to.number(9027, id);
                to.double(hz);
                to.double(v);
                to.long(*pos_mode);
                to.long(*atr_mode);
                to.boolean(*dummy);
                Shape::Nothing
            },
            // AUT_ChangeFace
            Call::ChangeFace {
                pos_mode,
                atr_mode,
                dummy,
            } => {
                to.number(9028, id);
                to.long(*pos_mode);
                to.long(*atr_mode);
                to.boolean(*dummy);
                Shape::Nothing
            },
            // AUT_FineAdjust
            Call::FineAdjust {
                area_hz,
                area_v,
                dummy,
            } => {
                to.number(9037, id);
                to.double(area_hz);
                to.double(area_v);
                to.boolean(*dummy);
                Shape::Nothing
            },
        }
    }

    /// The shape of the call's answers.
    pub(crate) fn shape(&self) -> Shape
        ensures { result ≡ (call_fields self.now).answer }
    {
        self.write_row(None, &mut NumberAlone { rpc: 0 })
    }

    /// The number of the call's procedure.
    pub fn number(&self) -> u16
        ensures { result ≡ (call_fields self.now).number }
    {
        let mut alone = NumberAlone { rpc: 0 };
        self.write_row(None, &mut alone);
        alone.rpc
    }
}

impl Station {
    // Hands over the station's coordinates and the instrument's height, each with all its places.
    fn hand_over<T: Taker>(&self, to: &mut T)
        requires { 4 ≤ T.room to.old }
        ensures { TakesValues T.takes to.old to.new (station_values self.now) }
    {
        to.double(&self.e0);
        to.double(&self.n0);
        to.double(&self.h0);
        to.double(&self.hi);
    }
}

impl DateTime {
    // Hands over the year and the five bytes from the month to the second.
    fn hand_over<T: Taker>(&self, to: &mut T)
        requires { 6 ≤ T.room to.old }
        ensures { TakesValues T.takes to.old to.new (date_values self.now) }
    {
        to.short(self.year);
        to.byte(self.month);
        to.byte(self.day);
        to.byte(self.hour);
        to.byte(self.minute);
        to.byte(self.second);
    }
}

impl Answer {
    /// Hands over the answer's values, in their order on the line, with doubles rounded to `places` places, at most 15. This is the
    /// code's table of answers; the specification's is `answer_fields`.
    pub(crate) fn write_row<T: Taker>(&self, places: u8, to: &mut T)
        requires places { places ≤ 15 }
        requires room { 6 ≤ T.room to.old }
        ensures { (t : T) → T.takes to.new [] t → T.takes to.old (shown_values places (answer_fields self.now).values) t }
    {
        match self {
            Answer::Nothing => {},
            Answer::Short(n) => to.short(*n),
            Answer::Version(release, version, subversion) => {
                to.short(*release);
                to.short(*version);
                to.short(*subversion);
            },
            Answer::Long(n) => to.long(*n),
            Answer::Name(name) => to.text(name),
            Answer::Date(date) => date.hand_over(to),
            Answer::Temperature(degrees) => to.rounded(degrees, places),
            Answer::Place(station) => {
                to.rounded(&station.e0, places);
                to.rounded(&station.n0, places);
                to.rounded(&station.h0, places);
                to.rounded(&station.hi, places);
            },
            Answer::Height(height) => to.rounded(height, places),
            Answer::Angles { hz, v } => {
                to.rounded(hz, places);
                to.rounded(v, places);
            },
            Answer::Measured { hz, v, distance } => {
                to.rounded(hz, places);
                to.rounded(v, places);
                to.rounded(distance, places);
            },
            Answer::MeasuredMode {
                hz,
                v,
                distance,
                mode,
            } => {
                to.rounded(hz, places);
                to.rounded(v, places);
                to.rounded(distance, places);
                to.long(*mode);
            },
        }
    }
}
