//! The time of a line of a log.

use crate::date::day_number;
use crate::text::{digits_behind, digits_len, is_digit, is_hex_digit, number_at};
use lapd_cli_script::{first_line, is_word, number_of};

/// A leap year, which has each day of a date without a year.
const LEAP_YEAR: u64 = 1972;

const SECOND: u64 = 1_000_000;

const DAY: u64 = 86_400;

/// The time of a line of a log.
#[derive(Clone, Copy, Debug, PartialEq, Eq)]
pub struct Stamp {
    /// Microseconds since 1970, in UTC. A time without a zone is taken as UTC, and one without a
    /// date as of 1 January 1970.
    pub micros: u64,
    /// How much of the date the line has.
    pub date: StampDate,
    /// Whether the line has the zone of the time too, or a number of seconds since 1970.
    pub has_zone: bool,
}

/// How much of the date a line of a log has.
#[derive(Clone, Copy, Debug, PartialEq, Eq)]
pub enum StampDate {
    /// Nothing: it has the time of day alone.
    Missing,
    /// The month and the day, without the year.
    Yearless,
    /// All.
    Whole,
}

/// A year, a month and a day; none of them if they are not known.
#[derive(Clone, Copy)]
struct Date {
    year: Option<u64>,
    month: u64,
    day: u64,
}

/// The time that a line of a log has: the first time of day in it, with the date before it; or at
/// its beginning the seconds since 1970, or digits of date and time. A date without a year is taken
/// as of this one.
pub fn stamp_in(line: &[u8], year: u64) -> Option<Stamp> {
    let front = line.trim_ascii_start();
    let front = front.strip_prefix(b"[").unwrap_or(front);
    if let Some(stamp) = epoch_at(front) {
        return Some(stamp);
    }
    if let Some(stamp) = digits_at(front) {
        return Some(stamp);
    }
    let mut passed = 0usize;
    let mut rest = line;
    for _octet in 0..line.len() {
        let [_, next @ ..] = rest else {
            return None;
        };
        let (before, _) = line.split_at(passed.min(line.len()));
        if !ends_in_number(before) {
            if let Some((seconds, behind)) = clock_at(rest) {
                return Some(stamp_of(seconds, before, behind, year));
            }
        }
        passed = passed.saturating_add(1);
        rest = next;
    }
    None
}

/// Whether a whole line of a text has a time.
pub fn has_stamp(text: &[u8]) -> bool {
    let mut rest = text;
    for _octet in 0..text.len() {
        let Some((line, behind)) = first_line(rest) else {
            return false;
        };
        if stamp_in(line, LEAP_YEAR).is_some() {
            return true;
        }
        rest = behind;
    }
    false
}

// Whether a text ends within a number, or within octets with colons between them.
fn ends_in_number(text: &[u8]) -> bool {
    match text {
        [.., last] => is_digit(*last) || *last == b':',
        [] => false,
    }
}

// Whether a text goes on with a digit, or with another octet behind a colon.
fn is_in_number(text: &[u8]) -> bool {
    match text {
        [b':', next, ..] => is_hex_digit(*next),
        [next, ..] => is_digit(*next),
        [] => false,
    }
}

// The seconds since 1970 at the beginning of a text, with a fraction.
fn epoch_at(text: &[u8]) -> Option<Stamp> {
    let length = digits_len(text);
    if length < 9 || length > 11 {
        return None;
    }
    let (digits, behind) = text.split_at(length);
    match behind {
        [b'.', fraction @ ..] if starts_with_digit(fraction) => {
            let seconds = number_of(digits)?;
            let micros = seconds
                .saturating_mul(SECOND)
                .saturating_add(micros_of(fraction));
            Some(Stamp {
                micros,
                date: StampDate::Whole,
                has_zone: true,
            })
        }
        _ => None,
    }
}

fn starts_with_digit(text: &[u8]) -> bool {
    match text {
        [first, ..] => is_digit(*first),
        [] => false,
    }
}

// The digits of year, month, day, hour, minute, second and millisecond, as Osmocom prints them.
fn digits_at(text: &[u8]) -> Option<Stamp> {
    if digits_len(text) != 17 {
        return None;
    }
    let (year, rest) = number_of_first(4, text)?;
    let (month, rest) = number_of_first(2, rest)?;
    let (day, rest) = number_of_first(2, rest)?;
    let (hour, rest) = number_of_first(2, rest)?;
    let (minute, rest) = number_of_first(2, rest)?;
    let (second, rest) = number_of_first(2, rest)?;
    let days = day_number(year, month, day)?;
    if hour > 23 || minute > 59 || second > 60 {
        return None;
    }
    let clock = seconds_of(hour, minute, second);
    let seconds = days.saturating_mul(DAY).saturating_add(clock);
    let micros = seconds
        .saturating_mul(SECOND)
        .saturating_add(micros_of(rest));
    Some(Stamp {
        micros,
        date: StampDate::Whole,
        has_zone: false,
    })
}

// The number of so many digits at the beginning of a text, and the text behind them.
fn number_of_first(count: usize, text: &[u8]) -> Option<(u64, &[u8])> {
    if text.len() < count {
        return None;
    }
    let (digits, rest) = text.split_at(count);
    let number = number_of(digits)?;
    Some((number, rest))
}

// The time of day at the beginning of a text, in seconds, as `HH:MM:SS`, and the text behind it.
fn clock_at(text: &[u8]) -> Option<(u64, &[u8])> {
    let (hour, rest) = number_of_first(2, text)?;
    let rest = rest.strip_prefix(b":")?;
    let (minute, rest) = number_of_first(2, rest)?;
    let rest = rest.strip_prefix(b":")?;
    let (second, rest) = number_of_first(2, rest)?;
    if hour > 23 || minute > 59 || second > 60 || is_in_number(rest) {
        return None;
    }
    Some((seconds_of(hour, minute, second), rest))
}

fn seconds_of(hour: u64, minute: u64, second: u64) -> u64 {
    hour.saturating_mul(3600)
        .saturating_add(minute.saturating_mul(60))
        .saturating_add(second)
}

// The time of these seconds of a day, between these texts. A date without a year is of this one.
fn stamp_of(seconds: u64, before: &[u8], behind: &[u8], other_year: u64) -> Stamp {
    let (micros, behind) = fraction_at(behind);
    let date = date_before(before);
    let year = match date {
        Some(date) => match date.year {
            Some(year) => Some(year),
            None => year_behind(behind),
        },
        None => None,
    };
    let days = match date {
        Some(date) => day_number(year.unwrap_or(other_year), date.month, date.day),
        None => None,
    };
    let seconds = days
        .unwrap_or(0)
        .saturating_mul(DAY)
        .saturating_add(seconds);
    let zone = zone_at(behind);
    let seconds = in_zone(seconds, zone);
    Stamp {
        micros: seconds.saturating_mul(SECOND).saturating_add(micros),
        date: match (days, year) {
            (None, _) => StampDate::Missing,
            (Some(_), None) => StampDate::Yearless,
            (Some(_), Some(_)) => StampDate::Whole,
        },
        has_zone: zone.is_some(),
    }
}

// The fraction of a second at the beginning of a text, in microseconds, and the text behind it.
fn fraction_at(text: &[u8]) -> (u64, &[u8]) {
    match text {
        [b'.' | b',', digits @ ..] if starts_with_digit(digits) => {
            (micros_of(digits), digits_behind(digits))
        }
        _ => (0, text),
    }
}

// The microseconds of the digits behind a point.
fn micros_of(digits: &[u8]) -> u64 {
    let mut micros = 0u64;
    let mut rest = digits;
    for _place in 0..6 {
        micros = micros.saturating_mul(10);
        match rest {
            [digit, behind @ ..] if is_digit(*digit) => {
                micros = micros.saturating_add(u64::from(digit.saturating_sub(b'0')));
                rest = behind;
            }
            _ => rest = &[],
        }
    }
    micros
}

// A zone: whether it is ahead of UTC, and by how many seconds, or behind it.
#[derive(Clone, Copy)]
struct ZoneOffset {
    is_ahead: bool,
    seconds: u64,
}

// The zone behind a time, as `Z`, ` UTC`, `+01:00`, `+0100` or `+01`.
fn zone_at(behind: &[u8]) -> Option<ZoneOffset> {
    match behind {
        [b'Z', ..] | [b' ', b'U', b'T', b'C', ..] => Some(ZoneOffset {
            is_ahead: true,
            seconds: 0,
        }),
        [b'+', zone @ ..] | [b' ', b'+', zone @ ..] => offset_of(true, zone),
        [b'-', zone @ ..] | [b' ', b'-', zone @ ..] => offset_of(false, zone),
        _ => None,
    }
}

// The seconds in UTC of a time in a zone.
fn in_zone(seconds: u64, zone: Option<ZoneOffset>) -> u64 {
    match zone {
        None => seconds,
        Some(zone) if zone.is_ahead => seconds.saturating_sub(zone.seconds),
        Some(zone) => seconds.saturating_add(zone.seconds),
    }
}

// The offset of a zone, as `HH:MM`, `HHMM` or `HH`.
fn offset_of(is_ahead: bool, zone: &[u8]) -> Option<ZoneOffset> {
    let (hours, rest) = number_of_first(2, zone)?;
    let rest = rest.strip_prefix(b":").unwrap_or(rest);
    let minutes = match number_of_first(2, rest) {
        Some((minutes, _)) => minutes,
        None if starts_with_digit(rest) => return None,
        None => 0,
    };
    if hours > 14 || minutes > 59 {
        return None;
    }
    Some(ZoneOffset {
        is_ahead,
        seconds: seconds_of(hours, minutes, 0),
    })
}

// The year behind a time, as ctime prints it.
fn year_behind(behind: &[u8]) -> Option<u64> {
    let text = behind.strip_prefix(b" ")?;
    if digits_len(text) != 4 {
        return None;
    }
    number_at(text)
}

// The date at the end of a text.
fn date_before(text: &[u8]) -> Option<Date> {
    let text = text.strip_suffix(b"T").unwrap_or(text).trim_ascii_end();
    let (before, word) = last_word(text);
    if let Some(date) = written_date(word) {
        return Some(date);
    }
    let number = number_of(word)?;
    if word.len() == 4 {
        let (before, day) = last_word(before);
        return named_date(Some(number), before, number_of(day)?);
    }
    named_date(None, before, number)
}

// The date of this day, of the month whose name a text ends with.
fn named_date(year: Option<u64>, before: &[u8], day: u64) -> Option<Date> {
    let (_, name) = before.split_at(before.len().saturating_sub(3));
    let month = month_of(name)?;
    Some(Date { year, month, day })
}

// The last word of a text, and the text before it without spaces at its end.
fn last_word(text: &[u8]) -> (&[u8], &[u8]) {
    let mut start = 0usize;
    for place in 0..text.len() {
        if matches!(text[place], b' ' | b'\t' | b'[' | b'(') {
            start = place + 1;
        }
    }
    let (before, word) = text.split_at(start.min(text.len()));
    (before.trim_ascii_end(), word)
}

// The date `YYYY-MM-DD` or `DD.MM.YYYY`.
fn written_date(word: &[u8]) -> Option<Date> {
    if word.len() != 10 {
        return None;
    }
    match digits_behind(word) {
        [b'-', rest @ ..] => {
            let rest_behind = digits_behind(rest).strip_prefix(b"-")?;
            Some(Date {
                year: number_at(word),
                month: number_at(rest)?,
                day: number_of(rest_behind)?,
            })
        }
        [b'.', rest @ ..] => {
            let rest_behind = digits_behind(rest).strip_prefix(b".")?;
            Some(Date {
                year: number_of(rest_behind),
                month: number_at(rest)?,
                day: number_at(word)?,
            })
        }
        _ => None,
    }
}

// The number of the month with this name.
fn month_of(name: &[u8]) -> Option<u64> {
    const NAMES: &[u8; 36] = b"JanFebMarAprMayJunJulAugSepOctNovDec";
    let mut rest = NAMES.as_slice();
    let mut month = 1u64;
    for _month in 0..12 {
        let [a, b, c, next @ ..] = rest else {
            return None;
        };
        if is_word(name, &[*a, *b, *c]) {
            return Some(month);
        }
        month = month.saturating_add(1);
        rest = next;
    }
    None
}
