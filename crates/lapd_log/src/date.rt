//! Days of the calendar.

ghost use Rattle.std.specs.Prelude.{◌≡◌};
ghost use Rattle.lapd_log.specs.Dates.{day_number};

use jiff_core::civil::Date;

/// The days from 1 January 1970 to this day, of a year from 1970 to 9999. A day up to 31 that its
/// month does not have is one of the next month.
pub(crate) fn day_number(year: u64, month: u64, day: u64) -> Option<u64>
    ensures { result ≡ day_number year month day }
{
    if year < 1970 || year > 9999 || month < 1 || month > 12 || day < 1 || day > 31 {
        return None;
    }
    let first = Date::constrain(year as i16, month as u8, 1).to_unix_epoch_day();
    Some(u64::from(first.unsigned_abs()) + day - 1)
}
