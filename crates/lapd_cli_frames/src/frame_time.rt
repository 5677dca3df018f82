//! The time before a trace line.

ghost use Rattle.std.specs.Prelude.{◌≡◌, ◌++◌, Some, IfOk, OnOk};
ghost use Rattle.std.specs.String.{string_bytes};
ghost use Rattle.lapd_cli_frames.specs.Time.{date_digits, date_text, day_digits, day_text, either, front_text, known_text, since, time_of, time_text, time_width, two_digits, zone_time};

use crate::style::Style;
use lapd_follow::Seconds;
use lapd_zone::{Date, Zone, date_of};
use std::alloc::{AllocError, Global};
use std::fmt;

/// The time before the trace line of a frame of a capture.
#[derive(Clone, Copy, Debug, PartialEq, Eq)]
pub enum FrameTime {
    /// None.
    Hidden,
    /// The seconds since 1970.
    Absolute,
    /// The seconds since the first printed frame.
    Relative,
    /// The seconds since the printed frame before.
    Delta,
    /// The time of day, of the time zone UTC.
    Day,
    /// The date and the time of day, of a time zone that is named besides. A moment before 1980 has
    /// no year, and one before 1972 no date: logs have such times.
    Date,
}

impl FrameTime {
    /// The time of a frame that was captured at this moment, in microseconds. `first` and `last`
    /// are the moments of the first and the last frame that was printed, and a date is that of the
    /// zone.
    pub(crate) fn of(
        self,
        zone: &Zone,
        first: Option<u64>,
        last: Option<u64>,
        moment: Option<u64>,
    ) -> Option<u64>
        ensures { result ≡ time_of self zone.now first last moment }
    {
        match self {
            FrameTime::Hidden => None,
            FrameTime::Absolute | FrameTime::Day => moment,
            FrameTime::Relative => since(first, moment),
            FrameTime::Delta => since(last, moment),
            FrameTime::Date => zone_time(zone, moment),
        }
    }

    /// Puts a time before a line of this style, if it is a trace line.
    ///
    /// # Errors
    ///
    /// `AllocError` if an allocation fails.
    pub(crate) fn put_before(
        self,
        alloc: Global,
        style: Style,
        time: Option<u64>,
        line: &mut String,
    ) -> Result<(), AllocError>
        ensures { OnOk result (string_bytes line.new
            ≡ front_text style self time ++ string_bytes line.old) }
    {
        match style {
            Style::Plain | Style::Named | Style::Brief => {
                self.put_before_trace(alloc, time, line)
            }
            Style::Json | Style::NamedJson => Ok(()),
        }
    }

    /// The columns of these times in a ladder, with the space behind them.
    pub(crate) fn width(self) -> usize
        ensures { result ≡ time_width self }
    {
        match self {
            FrameTime::Hidden => 0,
            FrameTime::Absolute => 18,
            FrameTime::Relative | FrameTime::Delta => 13,
            FrameTime::Day => 16,
            FrameTime::Date => 27,
        }
    }

    /// A time and a space; nothing if times are hidden.
    ///
    /// # Errors
    ///
    /// `AllocError` if an allocation fails.
    pub(crate) fn words(self, alloc: Global, time: Option<u64>) -> Result<String, AllocError>
        ensures { IfOk result (λ text. string_bytes text ≡ time_text self time) }
    {
        match self {
            FrameTime::Hidden => Ok(String::new(alloc)),
            FrameTime::Absolute | FrameTime::Relative | FrameTime::Delta => {
                known_text(alloc, time)
            }
            FrameTime::Day => day_text(alloc, time),
            FrameTime::Date => date_text(alloc, time),
        }
    }

    /// Puts a time before a trace line.
    fn put_before_trace(
        self,
        alloc: Global,
        time: Option<u64>,
        line: &mut String,
    ) -> Result<(), AllocError>
        ensures { OnOk result (string_bytes line.new
            ≡ time_text self time ++ string_bytes line.old) }
    {
        match self {
            FrameTime::Hidden => Ok(()),
            FrameTime::Absolute
            | FrameTime::Relative
            | FrameTime::Delta
            | FrameTime::Day
            | FrameTime::Date => {
                let mut text = self.words(alloc, time)?;
                text.push_str(line.as_str())?;
                *line = text;
                Ok(())
            }
        }
    }
}

/// The first of two moments that is known.
pub(crate) fn either(moment: Option<u64>, other: Option<u64>) -> Option<u64>
    ensures { result ≡ either moment other }
{
    match moment {
        None => other,
        Some(moment) => Some(moment),
    }
}

/// The time since an earlier moment; 0 if there is none, or if the clock ran back.
fn since(earlier: Option<u64>, moment: Option<u64>) -> Option<u64>
    ensures { result ≡ since earlier moment }
{
    match (earlier, moment) {
        (_, None) => None,
        (None, Some(_)) => Some(0),
        (Some(earlier), Some(moment)) => Some(moment.saturating_sub(earlier)),
    }
}

/// The time that a clock in the zone shows at a moment.
fn zone_time(zone: &Zone, moment: Option<u64>) -> Option<u64>
    ensures { result ≡ zone_time zone.now moment }
{
    match moment {
        None => None,
        Some(moment) => Some(zone.local(moment)),
    }
}

/// A time and a space; `-` if it is not known.
fn known_text(alloc: Global, time: Option<u64>) -> Result<String, AllocError>
    ensures { IfOk result (λ text. string_bytes text ≡ known_text time) }
{
    match time {
        None => {
            let mut text = String::new(alloc);
            text.push_str("- ")?;
            Ok(text)
        }
        Some(time) => {
            let seconds = Seconds { time };
            format!(in alloc; "{seconds} ")
        }
    }
}

/// A time of day and a space; `-` if it is not known.
fn day_text(alloc: Global, time: Option<u64>) -> Result<String, AllocError>
    ensures { IfOk result (λ text. string_bytes text ≡ day_text time) }
{
    match time {
        None => {
            let mut text = String::new(alloc);
            text.push_str("- ")?;
            Ok(text)
        }
        Some(time) => {
            let day = TimeOfDay { time };
            format!(in alloc; "{day} ")
        }
    }
}

/// A date, a time of day and a space; `-` if they are not known.
fn date_text(alloc: Global, time: Option<u64>) -> Result<String, AllocError>
    ensures { IfOk result (λ text. string_bytes text ≡ date_text time) }
{
    match time {
        None => {
            let mut text = String::new(alloc);
            text.push_str("- ")?;
            Ok(text)
        }
        Some(time) => {
            let date = ShownDate {
                date: date_of(time / 86_400_000_000),
            };
            let day = TimeOfDay { time };
            format!(in alloc; "{date}{day} ")
        }
    }
}

/// A date and a space, such as `2026-11-30 `; without its year before 1980, and nothing before 1972.
#[derive(Clone, Copy)]
struct ShownDate {
    date: Date,
}

impl fmt::Display for ShownDate {
    ghost output = { λ shown. Some (date_digits shown.date) };

    fn fmt<W: fmt::Write>(&self, f: &mut fmt::Formatter<W>) -> fmt::Result {
        let year = self.date.year;
        let month = TwoDigits {
            number: self.date.month,
        };
        let day = TwoDigits {
            number: self.date.day,
        };
        if year < 1972 {
            write!(f, "")
        } else if year < 1980 {
            write!(f, "{month}-{day} ")
        } else {
            write!(f, "{year}-{month}-{day} ")
        }
    }
}

/// Microseconds since 1970, shown as the time of day (UTC), such as `09:05:07.000000`.
#[derive(Clone, Copy)]
struct TimeOfDay {
    time: u64,
}

impl fmt::Display for TimeOfDay {
    ghost output = { λ shown. Some (day_digits shown.time) };

    fn fmt<W: fmt::Write>(&self, f: &mut fmt::Formatter<W>) -> fmt::Result {
        let hour = TwoDigits {
            number: self.time / 3_600_000_000 % 24,
        };
        let minute = TwoDigits {
            number: self.time / 60_000_000 % 60,
        };
        let ten_seconds = self.time / 10_000_000 % 6;
        let seconds = Seconds {
            time: self.time % 10_000_000,
        };
        write!(f, "{hour}:{minute}:{ten_seconds}{seconds}")
    }
}

/// A number below 100, shown with two digits.
#[derive(Clone, Copy)]
struct TwoDigits {
    number: u64,
}

impl fmt::Display for TwoDigits {
    ghost output = { λ shown. Some (two_digits shown.number) };

    fn fmt<W: fmt::Write>(&self, f: &mut fmt::Formatter<W>) -> fmt::Result {
        let tens = self.number / 10;
        let ones = self.number % 10;
        write!(f, "{tens}{ones}")
    }
}
