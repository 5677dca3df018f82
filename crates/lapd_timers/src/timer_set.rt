ghost use Rattle.std.specs.Prelude.{◌≡◌, is_some, None, Some};
ghost use Rattle.lapd_timers.specs.Durations.{length_of};
ghost use Rattle.lapd_timers.specs.Due.{all_stopped, deadline_of, with_deadline, with_durations, deadline_from, sooner, timer_of, IsDue};

use crate::{Durations, Timer};
use std::marker::Model;

/// The timers of one link, or of TEI management: which of them run, and until when. A moment is a
/// number of milliseconds; the caller's clock defines its origin.
#[derive(Clone, Copy, Debug, PartialEq, Eq)]
pub struct TimerSet {
    durations: Durations,
    t200: Option<u64>,
    t201: Option<u64>,
    t202: Option<u64>,
    t203: Option<u64>,
}

impl Model for TimerSet {
    ghost use Rattle.lapd_timers.specs.Due.{Timers};

    ghost Value = { Timers };

    ghost view = { λ s. record {
      durations = s.durations;
      t200 = s.t200;
      t201 = s.t201;
      t202 = s.t202;
      t203 = s.t203;
    } };

    ghost inverse = { λ s. record {
      durations = s.durations;
      t200 = s.t200;
      t201 = s.t201;
      t202 = s.t202;
      t203 = s.t203;
    } };
}

/// A timer with its deadline, a moment in milliseconds.
#[derive(Clone, Copy)]
struct TimerDeadline {
    deadline: u64,
    timer: Timer,
}

impl TimerSet {
    /// Makes timers with these durations. None runs yet.
    pub fn new(durations: Durations) -> TimerSet
        ensures { result ≡ all_stopped durations }
    {
        TimerSet {
            durations,
            t200: None,
            t201: None,
            t202: None,
            t203: None,
        }
    }

    /// How long each timer runs when it is started.
    pub fn durations(&self) -> Durations
        ensures { result ≡ self.now.durations }
    {
        self.durations
    }

    /// Sets how long each timer runs when it is started from then on. A running timer keeps its
    /// deadline.
    pub fn set_durations(&mut self, durations: Durations)
        ensures { self.new ≡ with_durations durations self.old }
    {
        self.durations = durations;
    }

    /// Starts or restarts the timer at the moment `now`. Its deadline is `now` plus its duration,
    /// at most the greatest `u64`.
    pub fn start(&mut self, timer: Timer, now: u64)
        ensures { self.new ≡ with_deadline timer (Some
            (deadline_from now (length_of timer self.old.durations))) self.old }
    {
        let duration = self.durations.of(timer);
        self.set_deadline(timer, Some(now.saturating_add(u64::from(duration))));
    }

    /// Stops the timer, if it runs.
    pub fn stop(&mut self, timer: Timer)
        ensures { self.new ≡ with_deadline timer None self.old }
    {
        self.set_deadline(timer, None);
    }

    /// Whether the timer runs. After its deadline it still runs, until it is stopped or started.
    pub fn running(&self, timer: Timer) -> bool
        ensures { result ≡ is_some (deadline_of timer self.now) }
    {
        self.deadline(timer).is_some()
    }

    /// The deadline of the timer; `None` if it does not run.
    pub fn deadline(&self, timer: Timer) -> Option<u64>
        ensures { result ≡ deadline_of timer self.now }
    {
        match timer {
            Timer::T200 => self.t200,
            Timer::T201 => self.t201,
            Timer::T202 => self.t202,
            Timer::T203 => self.t203,
        }
    }

    /// The timer that is due at the moment `now`: among those that run with a deadline at most
    /// `now`, the one with the least deadline; if several have the same, the first of T200, T201,
    /// T202, T203. The caller then handles its expiry, and stops or restarts it.
    pub fn due(&self, now: u64) -> Option<Timer>
        ensures { IsDue now self.now result }
    {
        let least = sooner(None, Timer::T200, self.t200, now);
        let least = sooner(least, Timer::T201, self.t201, now);
        let least = sooner(least, Timer::T202, self.t202, now);
        let least = sooner(least, Timer::T203, self.t203, now);
        timer_of(least)
    }

    fn set_deadline(&mut self, timer: Timer, deadline: Option<u64>)
        ensures { self.new ≡ with_deadline timer deadline self.old }
    {
        match timer {
            Timer::T200 => self.t200 = deadline,
            Timer::T201 => self.t201 = deadline,
            Timer::T202 => self.t202 = deadline,
            Timer::T203 => self.t203 = deadline,
        }
    }
}

/// The lesser of the least pair so far and this timer's pair, if the timer runs and its deadline is
/// at most `now`.
fn sooner(
    least: Option<TimerDeadline>,
    timer: Timer,
    deadline: Option<u64>,
    now: u64,
) -> Option<TimerDeadline>
    ensures { result ≡ sooner now timer deadline least }
{
    match (deadline, least) {
        (None, least) => least,
        (Some(deadline), least) if deadline > now => least,
        (Some(deadline), Some(least)) if least.deadline <= deadline => Some(least),
        (Some(deadline), _) => Some(TimerDeadline { deadline, timer }),
    }
}

/// The timer of a pair.
fn timer_of(least: Option<TimerDeadline>) -> Option<Timer>
    ensures { result ≡ timer_of least }
{
    match least {
        Some(expiry) => Some(expiry.timer),
        None => None,
    }
}
