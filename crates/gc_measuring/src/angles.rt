//! Angles as `--check` shows them: in radians, as the text has them, or in gon or degrees, rounded to the last place that is shown. The
//! arithmetic is exact, in whole numbers of 10^-24 radians.

ghost use Rattle.std.specs.Prelude.{◌≡◌, ◌*◌, ◌^◌, ◌≤◌};
ghost use Rattle.gc_lines.specs.Ports.{WritesIfOk};
ghost use Rattle.gc_measuring.specs.Angles.{agree_end_text, agree_text, angle_in, angle_text, angles_text, direction_text, front_text, half, in_places, last_places, place_text, places_of, range_text, scale_of, tolerance_text, turned_text, unit_text};
ghost use Rattle.gc_values.specs.Nearest.{half_up};

use gc_catalogue::{Asked, Call};
use gc_options::Unit;
use gc_texts::{Agree, Near, Range};
use gc_values::Decimal;
use std::io::{self, Write};

// Half a turn, pi to 24 places, in units of 10^-24 radians.
const HALF_TURN: u128 = 3_141_592_653_589_793_238_462_643;

// How many units of the last place that is shown half a turn is: 200 gon with 5 places, or 180 degrees with 6.
fn scale_of(unit: Unit) -> u128
    ensures is { result ≡ scale_of unit }
    ensures bound { result ≤ 180000000 }
{
    match unit {
        Unit::Gon => 20_000_000,
        Unit::Degree => 180_000_000,
    }
}

// The whole number nearest to `angle * scale` half turns, and of two that are equally near the greater one. Whole half turns of the
// angle are taken apart, so that what is left fits in 128 bits once it is multiplied.
fn scaled(angle: u128, scale: u128) -> u128
    requires angle { angle ≤ 10 ^ 37 }
    requires scale { scale ≤ 180000000 }
    ensures { result ≡ half_up (angle * scale) half }
{
    let whole = angle / HALF_TURN;
    let rest = angle % HALF_TURN;
    whole * scale + (2 * (rest * scale) + HALF_TURN) / (2 * HALF_TURN)
}

// The magnitude of an angle in units of the last place that is shown of it.
fn last_places(unit: Unit, angle: u128) -> u128
    requires { angle ≤ 10 ^ 37 }
    ensures { result ≡ last_places unit angle }
{
    scaled(angle, scale_of(unit))
}

// Ten to the number of places that an angle is shown with.
fn one_of(unit: Unit) -> u128
    ensures is { result ≡ 10 ^ places_of unit }
    ensures bound { result ≤ 1000000 }
{
    match unit {
        Unit::Gon => 100_000,
        Unit::Degree => 1_000_000,
    }
}

// Writes the front of an angle, of which `number` units of the last place are shown: with a minus if it is `below` zero, up to the
// point. `Err`: `out` couldn't be written.
fn write_ones<W: Write>(unit: Unit, below: bool, number: u128, out: &mut W) -> io::Result<()>
    ensures { WritesIfOk W.contents out.old out.new result (front_text (places_of unit) below number) }
{
    let sign = if below && number > 0 { "-" } else { "" };
    let ones = number / one_of(unit);
    write!(out, "{sign}{ones}.")
}

// Writes the places of an angle. `Err`: `out` couldn't be written.
fn write_part<W: Write>(unit: Unit, part: u64, out: &mut W) -> io::Result<()>
    ensures { WritesIfOk W.contents out.old out.new result (in_places (places_of unit) part) }
{
    match unit {
        Unit::Gon => write!(out, "{part:05}"),
        Unit::Degree => write!(out, "{part:06}"),
    }
}

// Writes an angle in a unit, which isn't named. `Err`: `out` couldn't be written.
fn write_in<W: Write>(unit: Unit, angle: Decimal, out: &mut W) -> io::Result<()>
    ensures { WritesIfOk W.contents out.old out.new result (angle_in unit angle) }
{
    let units = angle.units();
    let number = last_places(unit, units.unsigned_abs());
    let part = number % one_of(unit);
    write_ones(unit, units < 0, number, out)?;
    write_part(unit, part as u64, out)
}

// Writes an angle without its unit: in radians if no unit is asked for. `Err`: `out` couldn't be written.
fn write_angle<W: Write>(unit: Option<Unit>, angle: Decimal, out: &mut W) -> io::Result<()>
    ensures { WritesIfOk W.contents out.old out.new result (angle_text unit angle) }
{
    match unit {
        None => write!(out, "{angle}"),
        Some(unit) => write_in(unit, angle, out),
    }
}

// Writes two angles with this text between them. `Err`: `out` couldn't be written.
fn write_angles<W: Write>(
    unit: Option<Unit>,
    between: &str,
    first: Decimal,
    second: Decimal,
    out: &mut W,
) -> io::Result<()>
    ensures { WritesIfOk W.contents out.old out.new result (angles_text unit between.now first second) }
{
    write_angle(unit, first, out)?;
    write!(out, "{between}")?;
    write_angle(unit, second, out)
}

// What the unit is called.
fn unit_text<'a>(unit: Option<Unit>) -> &'a str
    ensures { result.now ≡ unit_text unit }
{
    match unit {
        None => "rad",
        Some(Unit::Gon) => "gon",
        Some(Unit::Degree) => "degrees",
    }
}

// Writes a direction with its unit. `Err`: `out` couldn't be written.
fn write_direction<W: Write>(
    unit: Option<Unit>,
    hz: Decimal,
    v: Decimal,
    out: &mut W,
) -> io::Result<()>
    ensures { WritesIfOk W.contents out.old out.new result (direction_text unit hz v) }
{
    let name = unit_text(unit);
    write_angles(unit, " ", hz, v, out)?;
    write!(out, " {name}")
}

/// Writes where a positioning turns to, if a unit is asked for; nothing of any other command. `Err`: `out` couldn't be written.
pub(crate) fn write_turned<W: Write>(
    unit: Option<Unit>,
    asked: Asked,
    out: &mut W,
) -> io::Result<()>
    ensures { WritesIfOk W.contents out.old out.new result (turned_text unit asked) }
{
    match (unit, asked) {
        (Some(_), Asked::Table(Call::Position { hz, v, .. })) => {
            write!(out, " to ")?;
            write_direction(unit, hz, v, out)
        }
        _ => out.write_all(b""),
    }
}

// Writes the end of what `write_agree` writes: the unit of angles, and how far apart distances may be. `Err`: `out` couldn't be written.
fn write_agree_end<W: Write>(unit: Option<Unit>, distance: Decimal, out: &mut W) -> io::Result<()>
    ensures { WritesIfOk W.contents out.old out.new result (agree_end_text unit distance) }
{
    let name = unit_text(unit);
    write!(out, " {name} and {distance} m;")
}

/// Writes how far apart the answers of two sendings may be. `Err`: `out` couldn't be written.
pub(crate) fn write_agree<W: Write>(unit: Option<Unit>, agree: Agree, out: &mut W) -> io::Result<()>
    ensures { WritesIfOk W.contents out.old out.new result (agree_text unit agree) }
{
    write!(out, " twice, to agree within ")?;
    write_angles(unit, " and ", agree.hz, agree.v, out)?;
    write_agree_end(unit, agree.distance, out)
}

// Writes how far away a target is, if the text says so. `Err`: `out` couldn't be written.
fn write_range<W: Write>(range: Option<Range>, out: &mut W) -> io::Result<()>
    ensures { WritesIfOk W.contents out.old out.new result (range_text range) }
{
    match range {
        None => out.write_all(b""),
        Some(
            Range {
                distance,
                tolerance,
            },
        ) => write!(out, ", at {distance} within {tolerance} m"),
    }
}

// Writes how far from its direction a target may be. `Err`: `out` couldn't be written.
fn write_tolerance<W: Write>(unit: Option<Unit>, tolerance: Decimal, out: &mut W) -> io::Result<()>
    ensures { WritesIfOk W.contents out.old out.new result (tolerance_text unit tolerance) }
{
    write!(out, " within ")?;
    write_angle(unit, tolerance, out)
}

/// Writes where a target is. `Err`: `out` couldn't be written.
pub(crate) fn write_place<W: Write>(unit: Option<Unit>, near: &Near, out: &mut W) -> io::Result<()>
    ensures { WritesIfOk W.contents out.old out.new result (place_text unit near.now) }
{
    write_direction(unit, near.place.hz, near.place.v, out)?;
    write_tolerance(unit, near.tolerance, out)?;
    write_range(near.range, out)
}
