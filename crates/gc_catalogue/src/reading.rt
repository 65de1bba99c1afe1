//! The rows for reading: of which kinds the parameters of each procedure are, and the values of each shape of answer. A row reads
//! them one by one, in their order on the line.

ghost use Rattle.std.specs.Prelude.{◌≡◌, IsTrue, IsFalse};
ghost use Rattle.gc_catalogue.specs.Answers.{answer_fields};
ghost use Rattle.gc_catalogue.specs.Calls.{call_fields, IsNoProcedure};
ghost use Rattle.gc_catalogue.specs.Rows.{ReadsAnswer, ReadsCall, ReadsRow};
ghost use Rattle.gc_catalogue.specs.Structs.{date_values, station_values};
ghost use Rattle.gc_catalogue.specs.declared.answer.Shape.TheVariants as shape;

use crate::answer::{Answer, Shape};
use crate::call::{Call, DateTime, Station};
use gc_values::Parameters;

/// Reads the parameters of the procedure with this number, and makes a call of them in `call`. It returns `false` if no procedure
/// has the number; `call` may then be any call. Otherwise it returns `true`, also if a parameter couldn't be read: the call has a
/// zero of its kind (or `false`) then. `Quick::is_done` or `Listed::finish` says afterwards whether all parameters were read, and
/// none is left.
pub(crate) fn read_row<P: Parameters>(rpc: u16, params: &mut P, call: &mut Call) -> bool
    ensures found { IsTrue result → (call_fields call.new).number ≡ rpc }
    ensures row { IsTrue result → ReadsRow P.Parameters params.old params.new (call_fields call.new).values }
    ensures none { IsFalse result → IsNoProcedure rpc }
{
    match rpc {
        0 => *call = Call::NullProc,
        107 => *call = Call::SetPrecision(params.short()),
        108 => *call = Call::GetPrecision,
        110 => *call = Call::ComVersion,
        5003 => *call = Call::InstrumentNo,
        5004 => *call = Call::InstrumentName,
        5007 => read_set_date(params, call),
        5008 => *call = Call::GetDate,
        5011 => *call = Call::IntTemp,
        5034 => *call = Call::CsvVersion,
        2008 => {
            *call = Call::DoMeasure {
                command: params.long(),
                mode: params.long(),
            }
        }
        2009 => *call = Call::GetStation,
        2010 => read_set_station(params, call),
        2011 => *call = Call::GetHeight,
        2012 => read_set_height(params, call),
        2026 => *call = Call::GetFace,
        2107 => {
            *call = Call::GetAngle {
                mode: params.long(),
            }
        }
        2108 => {
            *call = Call::SimpleMea {
                wait: params.long(),
                mode: params.long(),
            }
        }
        2117 => *call = Call::QuickDist,
        17008 => *call = Call::SetPrism(params.long()),
        17009 => *call = Call::GetPrism,
        17017 => {
            *call = Call::MeasDistance {
                mode: params.long(),
            }
        }
        9027 => read_position(params, call),
        9028 => {
            *call = Call::ChangeFace {
                pos_mode: params.long(),
                atr_mode: params.long(),
                dummy: params.boolean(),
            }
        }
        9037 => read_fine_adjust(params, call),
        _ => return false,
    }
    true
}

// The rows with large values are in functions of their own, so that the stack frames of `read_row` and `read_answer_row` stay
// small.

// The row of CSV_SetDateTime: a date and a time of day.
#[inline(never)]
fn read_set_date<P: Parameters>(params: &mut P, call: &mut Call)
    ensures { ReadsCall P.Parameters 5007 params.old params.new call.new }
{
    *call = Call::SetDate(read_date(params));
}

// The row of TMC_SetStation: a station's coordinates and the instrument's height.
#[inline(never)]
fn read_set_station<P: Parameters>(params: &mut P, call: &mut Call)
    ensures { ReadsCall P.Parameters 2010 params.old params.new call.new }
{
    *call = Call::SetStation(read_station(params));
}

// The row of TMC_SetHeight: the reflector's height.
#[inline(never)]
fn read_set_height<P: Parameters>(params: &mut P, call: &mut Call)
    ensures { ReadsCall P.Parameters 2012 params.old params.new call.new }
{
    *call = Call::SetHeight(params.double());
}

// The row of AUT_MakePositioning: two angles, two modes and a Boolean.
#[inline(never)]
fn read_position<P: Parameters>(params: &mut P, call: &mut Call)
    ensures { ReadsCall P.Parameters 9027 params.old params.new call.new }
{
    *call = Call::Position {
        hz: params.double(),
        v: params.double(),
        pos_mode: params.long(),
        atr_mode: params.long(),
        dummy: params.boolean(),
    };
}

// The row of AUT_FineAdjust: the two angles of the search area and a Boolean.
#[inline(never)]
fn read_fine_adjust<P: Parameters>(params: &mut P, call: &mut Call)
    ensures { ReadsCall P.Parameters 9037 params.old params.new call.new }
{
    *call = Call::FineAdjust {
        area_hz: params.double(),
        area_v: params.double(),
        dummy: params.boolean(),
    };
}

/// Reads the values of an answer of this shape, and makes an answer of them in `answer`. As in `read_row`, the answer has a zero
/// (or an empty string) for each value that couldn't be read, and `Quick::is_done` or `Listed::finish` says afterwards whether all
/// were, and none is left.
pub(crate) fn read_answer_row<P: Parameters>(shape: Shape, params: &mut P, answer: &mut Answer)
    ensures found { (answer_fields answer.new).shape ≡ shape }
    ensures row { ReadsRow P.Parameters params.old params.new (answer_fields answer.new).values }
{
    match shape {
        Shape::Nothing => *answer = Answer::Nothing,
        Shape::Short => *answer = Answer::Short(params.short()),
        Shape::Version => {
            *answer = Answer::Version(params.short(), params.short(), params.short());
        }
        Shape::Long => *answer = Answer::Long(params.long()),
        Shape::Name => read_name(params, answer),
        Shape::Date => read_date_answer(params, answer),
        Shape::Temperature => read_temperature(params, answer),
        Shape::Place => read_place(params, answer),
        Shape::Height => read_height(params, answer),
        Shape::Angles => read_angles(params, answer),
        Shape::Measured => read_measured(params, answer),
        Shape::MeasuredMode => read_measured_mode(params, answer),
    }
}

// The answer `Name`: a string.
#[inline(never)]
fn read_name<P: Parameters>(params: &mut P, answer: &mut Answer)
    ensures { ReadsAnswer P.Parameters shape.Name params.old params.new answer.new }
{
    *answer = Answer::Name(params.text());
}

// The answer `Date`: a date and a time of day.
#[inline(never)]
fn read_date_answer<P: Parameters>(params: &mut P, answer: &mut Answer)
    ensures { ReadsAnswer P.Parameters shape.Date params.old params.new answer.new }
{
    *answer = Answer::Date(read_date(params));
}

// The answer `Temperature`, in degrees Celsius.
#[inline(never)]
fn read_temperature<P: Parameters>(params: &mut P, answer: &mut Answer)
    ensures { ReadsAnswer P.Parameters shape.Temperature params.old params.new answer.new }
{
    *answer = Answer::Temperature(params.double());
}

// The answer `Place`: a station's coordinates and the instrument's height.
#[inline(never)]
fn read_place<P: Parameters>(params: &mut P, answer: &mut Answer)
    ensures { ReadsAnswer P.Parameters shape.Place params.old params.new answer.new }
{
    *answer = Answer::Place(read_station(params));
}

// The answer `Height`: the reflector's height.
#[inline(never)]
fn read_height<P: Parameters>(params: &mut P, answer: &mut Answer)
    ensures { ReadsAnswer P.Parameters shape.Height params.old params.new answer.new }
{
    *answer = Answer::Height(params.double());
}

// The answer `Angles`: the horizontal direction and the vertical angle.
#[inline(never)]
fn read_angles<P: Parameters>(params: &mut P, answer: &mut Answer)
    ensures { ReadsAnswer P.Parameters shape.Angles params.old params.new answer.new }
{
    *answer = Answer::Angles {
        hz: params.double(),
        v: params.double(),
    };
}

// The answer `Measured`: two angles and a distance.
#[inline(never)]
fn read_measured<P: Parameters>(params: &mut P, answer: &mut Answer)
    ensures { ReadsAnswer P.Parameters shape.Measured params.old params.new answer.new }
{
    *answer = Answer::Measured {
        hz: params.double(),
        v: params.double(),
        distance: params.double(),
    };
}

// The answer `MeasuredMode`: two angles, a distance and its mode.
#[inline(never)]
fn read_measured_mode<P: Parameters>(params: &mut P, answer: &mut Answer)
    ensures { ReadsAnswer P.Parameters shape.MeasuredMode params.old params.new answer.new }
{
    *answer = Answer::MeasuredMode {
        hz: params.double(),
        v: params.double(),
        distance: params.double(),
        mode: params.long(),
    };
}

// Reads the six parameters of a date and time of day, and makes a `DateTime` of them. As in `read_row`, zeros stand for those not
// read.
fn read_date<P: Parameters>(params: &mut P) -> DateTime
    ensures row { ReadsRow P.Parameters params.old params.new (date_values result) }
{
    DateTime {
        year: params.short(),
        month: params.byte(),
        day: params.byte(),
        hour: params.byte(),
        minute: params.byte(),
        second: params.byte(),
    }
}

// Reads the four parameters of a station, and makes a station of them. As in `read_row`, zeros stand for those not read.
fn read_station<P: Parameters>(params: &mut P) -> Station
    ensures row { ReadsRow P.Parameters params.old params.new (station_values result) }
{
    Station {
        e0: params.double(),
        n0: params.double(),
        h0: params.double(),
        hi: params.double(),
    }
}
