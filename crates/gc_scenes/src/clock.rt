//! A clock that runs from the date that it was set to, by the Gregorian calendar. All of this crate's arithmetic on dates
//! is here.

ghost use Rattle.std.specs.Prelude.{◌≡◌, ◌≤◌, unsigned_abs};
ghost use Rattle.gc_scenes.specs.Clocks.{next_year, next_day, days_on, second_of, at_second, seconds_on, shown_at};

use gc_catalogue::{DateTime, month_days};

// The seconds of a day.
const DAY: u64 = 86_400;

/// A clock that runs: the date that it was set to, and the moment at which it was set, in milliseconds of the program's clock.
#[derive(Clone, Copy)]
pub struct Clock {
    pub set: DateTime,
    pub at: u64,
}

impl Clock {
    /// What the clock shows at this moment: the date that it was set to, plus the whole seconds since it was set. A moment before
    /// the clock was set counts as the one at which it was set. At the end of the year 9999 that year begins again.
    pub(crate) fn shown_at(&self, moment: u64) -> DateTime
        ensures { result ≡ shown_at moment self.now }
    {
        seconds_on(moment.saturating_sub(self.at) / 1000, &self.set)
    }
}

// The next year; from 9999 on a year is followed by itself.
fn next_year(year: i16) -> i16
    ensures { result ≡ next_year year }
{
    if 9999 <= year { year } else { year + 1 }
}

// The next day, at the same time of day. A day past the end of its month counts as its last.
fn next_day(date: DateTime) -> DateTime
    ensures { result ≡ next_day date }
{
    let mut after = date;
    if u64::from(date.day)
        < month_days(u64::from(date.year.unsigned_abs()), u64::from(date.month))
    {
        after.day = date.day + 1;
    } else if date.month < 12 {
        after.day = 1;
        after.month = date.month + 1;
    } else {
        after.day = 1;
        after.month = 1;
        after.year = next_year(date.year);
    }
    after
}

// The date this many days later, at the same time of day. It is counted day by day.
fn days_on(days: u64, date: &DateTime) -> DateTime
    ensures { result ≡ days_on days date.now }
{
    let mut day = *date;
    for passed in 0..days {
        day = next_day(day);
    }
    day
}

// The seconds since midnight.
fn second_of(date: &DateTime) -> u64
    ensures value { result ≡ second_of date.now }
    ensures few { result ≤ 1000000 }
{
    u64::from(date.hour) * 3600 + u64::from(date.minute) * 60 + u64::from(date.second)
}

// The same day, this many seconds after midnight.
fn at_second(second: u64, date: DateTime) -> DateTime
    requires { second ≤ 86399 }
    ensures { result ≡ at_second second date }
{
    DateTime {
        year: date.year,
        month: date.month,
        day: date.day,
        hour: (second / 3600) as u8,
        minute: (second / 60 % 60) as u8,
        second: (second % 60) as u8,
    }
}

// The date and time this many seconds later. The bound on the seconds is that of a time in milliseconds in 64 bits.
fn seconds_on(seconds: u64, date: &DateTime) -> DateTime
    requires { seconds ≤ 18446744073709551 }
    ensures { result ≡ seconds_on seconds date.now }
{
    let all = second_of(date) + seconds;
    at_second(all % DAY, days_on(all / DAY, date))
}
