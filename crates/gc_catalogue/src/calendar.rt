//! Years and months of the Gregorian calendar, for all crates that count days.

ghost use Rattle.std.specs.Prelude.{◌≡◌, ◌≤◌};
ghost use Rattle.gc_catalogue.specs.Calendar.{is_leap, month_days};

/// Whether a year of the Gregorian calendar has a 29th of February.
pub fn is_leap(year: u64) -> bool
    ensures { result ≡ is_leap year }
{
    year % 4 == 0 && (year % 100 != 0 || year % 400 == 0)
}

/// How many days a month of a year has. Months count from 1; a number that is no month counts as one of 31 days.
pub fn month_days(year: u64, month: u64) -> u64
    ensures value { result ≡ month_days year month }
    ensures few { result ≤ 31 }
{
    match month {
        2 if is_leap(year) => 29,
        2 => 28,
        4 | 6 | 9 | 11 => 30,
        _ => 31,
    }
}
