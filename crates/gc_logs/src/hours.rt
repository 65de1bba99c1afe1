//! The hour in which a line of a log was written, by its moment.

ghost use Rattle.std.specs.Prelude.{◌≡◌, IfSome, take};
ghost use Rattle.gc_texts.specs.Stamps.{stamp_text};

use gc_catalogue::{is_leap, month_days};
use gc_texts::stamp_text;

/// How many bytes of a line of a log are its date and hour, as `2026-11-22T23`.
pub(crate) const HOUR: usize = 13;

// An hour and a day, in milliseconds.
const HOUR_MILLIS: u64 = 3_600_000;

const DAY_MILLIS: u64 = 86_400_000;

/// A moment of the hour in which a line was written, in milliseconds since 1970, UTC: its text begins with the same date and hour. `None`: the
/// line doesn't begin with a date and an hour from 1970 to 9999.
pub(crate) fn hour_of(line: &[u8]) -> Option<u64>
    ensures { IfSome result (λ utc. take 13 (stamp_text utc) ≡ take 13 line.now) }
{
    if line.len() < HOUR {
        return None;
    }
    let front = &line[..HOUR];
    let days = days_before_year(number(&front[..4]))
        .saturating_add(days_before_month(number(&front[..4]), number(&front[5..7])))
        .saturating_add(number(&front[8..10]).saturating_sub(1));
    let utc = days
        .saturating_mul(DAY_MILLIS)
        .saturating_add(number(&front[11..]).saturating_mul(HOUR_MILLIS));
    // Only a moment whose text begins with this date and hour is one of that hour.
    let text = stamp_text(utc);
    if text.len() < HOUR || &text[..HOUR] != front {
        return None;
    }
    Some(utc)
}

// The number of these digits; of other bytes any number.
fn number(digits: &[u8]) -> u64 {
    let mut n = 0u64;
    for digit in digits {
        n = n
            .saturating_mul(10)
            .saturating_add(u64::from(digit.saturating_sub(b'0')));
    }
    n
}

// How many days are from the beginning of 1970 to that of this year.
fn days_before_year(year: u64) -> u64 {
    let mut days = 0u64;
    for earlier in 1970..year {
        days = days.saturating_add(if is_leap(earlier) { 366 } else { 365 });
    }
    days
}

// How many days are from the beginning of this year to that of this month.
fn days_before_month(year: u64, month: u64) -> u64 {
    let mut days = 0u64;
    for earlier in 1..month {
        days = days.saturating_add(month_days(year, earlier));
    }
    days
}
