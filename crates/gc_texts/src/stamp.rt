//! Moments: when a command was sent and ended, and a moment as text, UTC by the Gregorian calendar, to the millisecond.

ghost use Rattle.std.specs.Prelude.{◌≡◌, ℕ, ◌+◌, ◌^◌, ◌<◌, ◌≤◌, ◌++◌, if◌then◌else◌};
ghost use Rattle.arrayvec.specs.ArrayVec.{array_vec_len};
ghost use Rattle.gc_texts.specs.Stamps.{year_days, days_after, date_of, two_digits, three_digits, date_at, date_text, hours_at, since_midnight, time_text, stamp_text, date_time};

use crate::turn::Turn;
use arrayvec::ArrayVec;
use gc_catalogue::{DateTime, is_leap, month_days};
use gc_lines::append;
use itoa::Buffer;

/// When a command was sent and ended, in milliseconds since 1970-01-01, UTC, with which id its request went out, and which command of its
/// run it was.
#[derive(Clone, Copy)]
pub struct Stamp {
    /// The last moment that the clock gave before its request went out. `None`: it was never sent.
    pub sent: Option<u64>,
    /// The id of its request, 0 to 7; 0 if it was never sent.
    pub id: u8,
    /// The last moment that the clock had given when it ended. Of a command of a missed cycle, the moment at which that cycle was due.
    pub utc: u64,
    /// The cycle, counted from 1; 0 for a command of the setup.
    pub cycle: u64,
    /// The place of its task among all tasks, counted from 0: those of the setup are before those of a cycle.
    pub place: usize,
    /// Which command of the text it was, and in which attempt of its chain or, for a command of the setup, of the setup.
    pub turn: Turn,
}

// A day, in milliseconds.
const DAY: u64 = 86_400_000;

// The most bytes of a date as text: a year of at most 20 digits, and a `-` and two digits for each of the month and the day.
const DATE_ROOM: usize = 20 + 3 + 3;

// How many bytes a time of day has as text: two digits for each of the hour, the minute and the second, three for the milliseconds,
// and three marks.
const TIME_ROOM: usize = 2 + 2 + 2 + 3 + 3;

// A day of the Gregorian calendar.
#[derive(Clone, Copy)]
pub(crate) struct Date {
    pub(crate) year: u64,
    // 1 to 12.
    pub(crate) month: u64,
    // From 1 on.
    pub(crate) day: u64,
}

// How many days a year has.
fn year_days(year: u64) -> u64
    ensures { result ≡ year_days year }
{
    if is_leap(year) { 366 } else { 365 }
}

// The date `days` days after 1 January 1970.
fn date_of(days: u64) -> Date
    requires { days < 2 ^ 63 }
    ensures date { result ≡ date_of days }
    ensures month { result.month ≤ 12 }
    ensures day { result.day ≤ 31 }
{
    let mut year = 1970;
    let mut left = days;
    while left >= year_days(year) {
        left -= year_days(year);
        year += 1;
    }
    date_in_year(year, left)
}

// The date of a day of this year, where `days` days of the year come before it.
fn date_in_year(year: u64, days: u64) -> Date
    requires { days < year_days year }
    ensures date { result ≡ days_after days (record { year = year; month = 1; day = 1 }) }
    ensures month { result.month ≤ 12 }
    ensures day { result.day ≤ 31 }
{
    let mut month = 1;
    let mut left = days;
    while left >= month_days(year, month) {
        left -= month_days(year, month);
        month += 1;
    }
    Date {
        year,
        month,
        day: left + 1,
    }
}

// A number below 100, in two ASCII digits.
pub(crate) fn two_digits(n: u64) -> [u8; 2]
    requires { n < 100 }
    ensures { result ≡ two_digits n }
{
    [b'0' + (n / 10) as u8, b'0' + (n % 10) as u8]
}

// A number below 1000, in three ASCII digits.
fn three_digits(n: u64) -> [u8; 3]
    requires { n < 1000 }
    ensures { result ≡ three_digits n }
{
    let [tens, ones] = two_digits(n % 100);
    [b'0' + (n / 100) as u8, tens, ones]
}

// A date as text, as 2026-11-22.
fn date_text(date: Date) -> ArrayVec<u8, DATE_ROOM>
    requires month { date.month < 100 }
    requires day { date.day < 100 }
    ensures { result.items ≡ date_text date }
{
    let mut digits = Buffer::new();
    let mut text = ArrayVec::new();
    append(&mut text, digits.format(date.year).as_bytes());
    append(&mut text, b"-");
    append(&mut text, &two_digits(date.month));
    append(&mut text, b"-");
    append(&mut text, &two_digits(date.day));
    text
}

// The time of day that is `millis` milliseconds after midnight, as 23:08:27.123.
fn time_text(millis: u64) -> ArrayVec<u8, TIME_ROOM>
    requires { millis < 86400000 }
    ensures { result.items ≡ time_text millis }
{
    let mut text = ArrayVec::new();
    append(&mut text, &two_digits(millis / 3_600_000));
    append(&mut text, b":");
    append(&mut text, &two_digits(millis / 60_000 % 60));
    append(&mut text, b":");
    append(&mut text, &two_digits(millis / 1_000 % 60));
    append(&mut text, b".");
    append(&mut text, &three_digits(millis % 1_000));
    text
}

// The first moment of 1970, as a date and a time of day.
pub(crate) const FIRST_MOMENT: DateTime = DateTime {
    year: 1970,
    month: 1,
    day: 1,
    hour: 0,
    minute: 0,
    second: 0,
};

// The greatest year that a `DateTime` holds, in its `i16`.
const YEAR_MAX: u64 = 32767;

/// The moment `utc` milliseconds after the beginning of 1970, cut to seconds, as a date and a time of day. The years from
/// 32767 on are all given as 32767.
pub fn date_time(utc: u64) -> DateTime
    ensures { result ≡ date_time utc }
{
    let date = date_of(utc / DAY);
    let millis = utc % DAY;
    DateTime {
        year: date.year.min(YEAR_MAX) as i16,
        month: date.month as u8,
        day: date.day as u8,
        hour: (millis / 3_600_000) as u8,
        minute: (millis / 60_000 % 60) as u8,
        second: (millis / 1_000 % 60) as u8,
    }
}

// The date and the hour of the day at the moment `utc` milliseconds after the beginning of 1970.
pub(crate) fn date_and_hour(utc: u64) -> (Date, u64)
    ensures date { result.0 ≡ date_at utc }
    ensures month { result.0.month ≤ 12 }
    ensures day { result.0.day ≤ 31 }
    ensures hour { result.1 ≡ hours_at (since_midnight utc) }
    ensures hours { result.1 < 24 }
{
    (date_of(utc / DAY), utc % DAY / 3_600_000)
}

/// Room for the bytes of a moment as text (`stamp_text`): a date, `T`, a time and `Z`.
pub const STAMP_ROOM: usize = DATE_ROOM + 1 + TIME_ROOM + 1;

/// The moment `utc` milliseconds after the beginning of 1970, as 2026-11-22T23:08:27.123Z.
pub fn stamp_text(utc: u64) -> ArrayVec<u8, STAMP_ROOM>
    ensures { result.items ≡ stamp_text utc }
{
    let mut text = ArrayVec::new();
    append(&mut text, &date_text(date_of(utc / DAY)));
    append(&mut text, b"T");
    append(&mut text, &time_text(utc % DAY));
    append(&mut text, b"Z");
    text
}
