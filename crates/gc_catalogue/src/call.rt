//! Calls: one variant for each procedure.

use gc_values::Decimal;

/// A station's coordinates and the instrument's height over it, in metres.
#[derive(Clone, Copy, Debug, PartialEq, Eq)]
pub struct Station {
    /// The easting.
    pub e0: Decimal,
    /// The northing.
    pub n0: Decimal,
    /// The height of the station.
    pub h0: Decimal,
    /// The instrument's height over the station.
    pub hi: Decimal,
}

/// A date and a time of day of the instrument's clock. That they exist in a calendar isn't checked.
#[derive(Clone, Copy, Debug, PartialEq, Eq)]
pub struct DateTime {
    pub year: i16,
    pub month: u8,
    pub day: u8,
    pub hour: u8,
    pub minute: u8,
    pub second: u8,
}

/// What a request asks for: a procedure with its parameters. The numbers and names of the procedures are those of the
/// GeoCOM manual's tables; which parameters each has is this project's own choice after them. Angles are in radians,
/// lengths in metres. `dummy` is a parameter without a meaning, as in the manual.
#[derive(Clone, Copy, Debug, PartialEq, Eq)]
pub enum Call {
    /// COM_NullProc: does nothing; its reply shows that the line works.
    NullProc,
    /// COM_SetDoublePrecision: how many digits right of the point the instrument's doubles have.
    SetPrecision(i16),
    /// COM_GetDoublePrecision.
    GetPrecision,
    /// COM_GetSWVersion.
    ComVersion,
    /// CSV_GetInstrumentNo: the serial number.
    InstrumentNo,
    /// CSV_GetInstrumentName.
    InstrumentName,
    /// CSV_SetDateTime.
    SetDate(DateTime),
    /// CSV_GetDateTime.
    GetDate,
    /// CSV_GetIntTemp: the internal temperature, in degrees Celsius.
    IntTemp,
    /// CSV_GetSWVersion.
    CsvVersion,
    /// TMC_DoMeasure: starts (command 1), stops (0) or clears (3) a distance measurement.
    DoMeasure {
        command: i32,
        mode: i32,
    },
    /// TMC_GetStation.
    GetStation,
    /// TMC_SetStation.
    SetStation(Station),
    /// TMC_GetHeight: the reflector's height, in metres.
    GetHeight,
    /// TMC_SetHeight: the reflector's height, in metres.
    SetHeight(Decimal),
    /// TMC_GetFace.
    GetFace,
    /// TMC_GetAngle, horizontal and vertical angle only.
    GetAngle {
        mode: i32,
    },
    /// TMC_GetSimpleMea: angles, and the distance measured before. `wait` is in milliseconds.
    SimpleMea {
        wait: i32,
        mode: i32,
    },
    /// TMC_QuickDist: measures a distance, and gives it with the angles.
    QuickDist,
    /// BAP_SetPrismType: which type of prism the targets have.
    SetPrism(i32),
    /// BAP_GetPrismType.
    GetPrism,
    /// BAP_MeasDistanceAngle: measures a distance, and gives it with the angles and the mode.
    MeasDistance {
        mode: i32,
    },
    /// AUT_MakePositioning: turns to these angles.
    Position {
        hz: Decimal,
        v: Decimal,
        pos_mode: i32,
        atr_mode: i32,
        dummy: bool,
    },
    /// AUT_ChangeFace: turns to the other face.
    ChangeFace {
        pos_mode: i32,
        atr_mode: i32,
        dummy: bool,
    },
    /// AUT_FineAdjust: points at the target that is within these angles of the pointing.
    FineAdjust {
        area_hz: Decimal,
        area_v: Decimal,
        dummy: bool,
    },
}
