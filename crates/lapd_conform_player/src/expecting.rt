//! Expecting frames of the stack.

use crate::compared::{is_poll, values_after};
use crate::expectation::{Expectation, pattern_of};
use crate::player::Player;
use crate::reason::{Reason, Stop};
use crate::station::Station;
use lapd_conform_suite::Line;
use lapd_timers::Timer;

/// The greatest number of lines that belong to an expectation.
const MOST_ALTERNATIVES: usize = 64;

impl<'s> Player<'s> {
    /// Expects what this line and those that belong to it say.
    pub fn expect<S: Station>(&mut self, station: &mut S, line: Line<'s>) -> Result<(), Stop> {
        let mut expected = Expectation {
            frames: Vec::new(self.alloc),
            all: false,
            timer: None,
            within: None,
        };
        expected.frames.extend_from_slice(&[line])?;
        self.collect(&mut expected)?;
        if expected.all {
            self.expect_all(station, &mut expected)
        } else if let Some(timer) = expected.timer {
            self.expect_at(station, &expected, timer)
        } else {
            self.expect_one(station, &expected)
        }
    }

    /// Adds the lines that belong to the expectation.
    fn collect(&mut self, expected: &mut Expectation<'s>) -> Result<(), Stop> {
        for _turn in 0..MOST_ALTERNATIVES {
            let Some(line) = self.lines.peek() else {
                return Ok(());
            };
            if !expected.add(line)? {
                return Ok(());
            }
            self.lines.skip();
        }
        Ok(())
    }

    /// The moment this much time after the last frame or request, in milliseconds.
    fn after_mark(&self, time: u64) -> u64 {
        self.timing.mark.saturating_add(time)
    }

    /// Expects one of several frames, or nothing.
    fn expect_one<S: Station>(
        &mut self,
        station: &mut S,
        expected: &Expectation<'_>,
    ) -> Result<(), Stop> {
        let limit = match expected.within {
            Some(span) => self.values.span(span),
            None => (self.duration(Timer::T200).saturating_mul(8) / 10).max(400),
        };
        let slack = self.slack(station);
        let nothing = expected.may_be_nothing();
        let wait = if nothing {
            slack
        } else {
            self.patience(station)
        };
        let due = self.after_mark(limit.saturating_add(slack));
        let until = self.after_mark(limit.saturating_add(wait));
        match self.next(station, until)? {
            Some(place) if !self.is_idle_poll(place) => {
                self.compare(expected, place)?;
                let at = self.record.moment(place);
                self.timing.arrive(at, due);
                Ok(())
            }
            _ if nothing => Ok(()),
            _ => Err(Stop::Missed(Reason::Missing)),
        }
    }

    /// Whether the frame is a poll of T203, which ends a wait as silence does.
    fn is_idle_poll(&self, place: usize) -> bool {
        let since = self.record.moment(place).saturating_sub(self.timing.mark);
        let idle = self.duration(Timer::T203).saturating_mul(9) / 10;
        match self.frame(place) {
            Some(frame) => is_poll(&frame) && since > idle && idle > self.duration(Timer::T200),
            None => false,
        }
    }

    /// The index of the first expected frame that the frame at this place fits, or an error if there
    /// is none. Keeps the values that the expected frame names.
    fn compare(&mut self, expected: &Expectation<'_>, place: usize) -> Result<usize, Stop> {
        for index in 0..expected.frames.len() {
            let line = expected.frames[index];
            if let Some(pattern) = pattern_of(line.step)
                && let Some(values) = values_after(
                    &self.values,
                    pattern,
                    line.text,
                    self.record.octets(place),
                )
            {
                self.values = values;
                return Ok(index);
            }
        }
        Err(Stop::Missed(Reason::Unexpected))
    }

    /// Expects a frame when a timer expires.
    fn expect_at<S: Station>(
        &mut self,
        station: &mut S,
        expected: &Expectation<'_>,
        timer: Timer,
    ) -> Result<(), Stop> {
        let due = self.duration(timer);
        let slack = self.slack(station);
        let early = (due / 10)
            .saturating_add(20)
            .saturating_add(u64::from(self.values.stack.delay))
            .saturating_add(station.lateness());
        let wait = due
            .saturating_add(slack)
            .saturating_add(self.patience(station));
        let until = self.after_mark(wait);
        match self.next(station, until)? {
            Some(place) => {
                self.compare(expected, place)?;
                let at = self.record.moment(place);
                if at < self.after_mark(due.saturating_sub(early)) {
                    return Err(Stop::Missed(Reason::Early));
                }
                let latest = due.saturating_add(due / 3).saturating_add(slack);
                let latest = self.after_mark(latest);
                self.timing.arrive(at, latest);
                Ok(())
            }
            None if expected.may_be_nothing() => Ok(()),
            None => Err(Stop::Missed(Reason::Missing)),
        }
    }

    /// Expects several frames, in any order.
    fn expect_all<S: Station>(
        &mut self,
        station: &mut S,
        expected: &mut Expectation<'_>,
    ) -> Result<(), Stop> {
        for _turn in 0..MOST_ALTERNATIVES {
            if expected.frames.is_empty() {
                return Ok(());
            }
            let until = self.after_mark(self.patience(station));
            let Some(place) = self.next(station, until)? else {
                return Err(Stop::Missed(Reason::Missing));
            };
            let index = self.compare(expected, place)?;
            expected.remove(index);
            let at = self.record.moment(place);
            self.timing.arrive(at, until);
        }
        Ok(())
    }
}
