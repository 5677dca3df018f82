//! Years, months and days of the Gregorian calendar.

ghost use Rattle.std.specs.Prelude.{◌≡◌};
ghost use Rattle.lapd_zone.specs.Calendar.{date_of};

use jiff_core::civil;

/// The days of 400 years, after which the calendar repeats.
const CYCLE: u64 = 146_097;

/// The days from the first one of `jiff_core`, 1 January -9999, to 1 January 1970.
const BEFORE_1970: u32 = 4_371_587;

/// A day of the Gregorian calendar.
#[derive(Clone, Copy, Debug, PartialEq, Eq)]
pub struct Date {
    /// The year, from 1970 on.
    pub year: u64,
    /// The month, 1 to 12.
    pub month: u64,
    /// The day of the month, from 1 on.
    pub day: u64,
}

/// The date of a day, counted from 1 January 1970, which is 0.
pub fn date_of(days: u64) -> Date
    ensures { result ≡ date_of days }
{
    let date = civil::Date::from_days_since_min((days % CYCLE) as u32 + BEFORE_1970);
    Date {
        year: days / CYCLE * 400 + u64::from(date.year.unsigned_abs()),
        month: u64::from(date.month),
        day: u64::from(date.day),
    }
}
