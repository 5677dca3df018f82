//! The times of a log, line by line.

use crate::stamp::{Stamp, StampDate, stamp_in};

/// The year of the first time without a year: a leap year, so that it has each day.
const FIRST_YEAR: u64 = 1972;

/// The last of the years of times without a year.
const LAST_YEAR: u64 = 1979;

const DAY: u64 = 86_400_000_000;

/// How far a time without a date goes back if the next day has begun: at least half a day.
const NEXT_DAY: u64 = DAY / 2;

/// How far a time without a year goes back if the next year has begun: at least half a year.
const NEXT_YEAR: u64 = 183 * DAY;

/// The times of the lines of a log so far.
#[derive(Clone, Copy)]
pub(crate) struct LogClock {
    /// The year of the next time without one.
    year: u64,
    /// The offset of times without a date: whole days, in microseconds.
    days: u64,
    /// The last time, in microseconds since 1970.
    last: Option<u64>,
    /// How many times were before the one above them.
    gone_back: u64,
    /// The most of a date that a time had so far.
    date: StampDate,
}

impl LogClock {
    /// Before the first line.
    pub(crate) const NEW: LogClock = LogClock {
        year: FIRST_YEAR,
        days: 0,
        last: None,
        gone_back: 0,
        date: StampDate::Missing,
    };

    /// The last time, in microseconds since 1970.
    pub(crate) fn last(&self) -> Option<u64> {
        self.last
    }

    /// How many times were before the one above them.
    pub(crate) fn gone_back(&self) -> u64 {
        self.gone_back
    }

    /// The time that a line has. If one without a date goes back by half a day, the next day has
    /// begun, and if one without a year goes back by half a year, the next year. A time with less of
    /// a date than one before is part of a text.
    pub(crate) fn stamp_in(&mut self, line: &[u8]) -> Option<Stamp> {
        let stamp = stamp_in(line, self.year)?;
        if rank(stamp.date) < rank(self.date) {
            return None;
        }
        self.date = stamp.date;
        match stamp.date {
            StampDate::Whole => Some(stamp),
            StampDate::Missing => {
                if self.goes_back(stamp.micros.saturating_add(self.days), NEXT_DAY) {
                    self.days = self.days.saturating_add(DAY);
                }
                Some(Stamp {
                    micros: stamp.micros.saturating_add(self.days),
                    ..stamp
                })
            }
            StampDate::Yearless => {
                if self.goes_back(stamp.micros, NEXT_YEAR) && self.year < LAST_YEAR {
                    self.year = self.year.saturating_add(1);
                    return stamp_in(line, self.year);
                }
                Some(stamp)
            }
        }
    }

    /// Takes the time of a line, in microseconds since 1970.
    pub(crate) fn take(&mut self, micros: u64) {
        if self.goes_back(micros, 1) {
            self.gone_back = self.gone_back.saturating_add(1);
        }
        self.last = Some(micros);
    }

    // Whether a time is before the last one, by so many microseconds or more.
    fn goes_back(&self, micros: u64, least: u64) -> bool {
        match self.last {
            None => false,
            Some(last) => micros.saturating_add(least) <= last,
        }
    }
}

// How much of a date this is.
fn rank(date: StampDate) -> u8 {
    match date {
        StampDate::Missing => 0,
        StampDate::Yearless => 1,
        StampDate::Whole => 2,
    }
}
