ghost use Rattle.std.specs.Prelude.{◌≡◌, ◌≤◌};
ghost use Rattle.lapd_timers.specs.Durations.{is_length, lengths_of, standard_lengths, length_of};

use crate::Timer;
use std::marker::Model;

/// The greatest duration of a timer, in milliseconds: an hour.
const LONGEST: u32 = 3_600_000;

/// How long each timer runs, in milliseconds (Q.921 5.9).
#[derive(Clone, Copy, Debug, PartialEq, Eq)]
pub struct Durations {
    t200: u32,
    t201: u32,
    t202: u32,
    t203: u32,
}

impl Model for Durations {
    ghost use Rattle.lapd_timers.specs.Durations.{Lengths, AreInRange};

    ghost Value = { Lengths };

    ghost view = { λ d. record { t200 = d.t200; t201 = d.t201; t202 = d.t202; t203 = d.t203 } };

    ghost invariant = { λ d. AreInRange (record {
      t200 = d.t200;
      t201 = d.t201;
      t202 = d.t202;
      t203 = d.t203;
    }) };

    ghost inverse = { λ l. record { t200 = l.t200; t201 = l.t201; t202 = l.t202; t203 = l.t203 } };
}

impl Durations {
    /// These durations in milliseconds, each from 1 to 3,600,000. `None` if one is out of range.
    pub fn new(t200: u32, t201: u32, t202: u32, t203: u32) -> Option<Durations>
        ensures { result ≡ lengths_of t200 t201 t202 t203 }
    {
        if is_in_range(t200) && is_in_range(t201) && is_in_range(t202) && is_in_range(t203) {
            Some(Durations {
                t200,
                t201,
                t202,
                t203,
            })
        } else {
            None
        }
    }

    /// The defaults of Q.921 5.9: one second for T200 and T201, two for T202, ten for T203.
    pub fn standard() -> Durations
        ensures { result ≡ standard_lengths }
    {
        Durations {
            t200: 1_000,
            t201: 1_000,
            t202: 2_000,
            t203: 10_000,
        }
    }

    /// How long this timer runs, in milliseconds, 1 to 3,600,000.
    pub fn of(&self, timer: Timer) -> u32
        ensures same { result ≡ length_of timer self.now }
        ensures low { 1 ≤ result }
        ensures high { result ≤ LONGEST }
    {
        match timer {
            Timer::T200 => self.t200,
            Timer::T201 => self.t201,
            Timer::T202 => self.t202,
            Timer::T203 => self.t203,
        }
    }
}

/// Whether this is a valid duration of a timer.
fn is_in_range(duration: u32) -> bool
    ensures { result ≡ is_length duration }
{
    1 <= duration && duration <= LONGEST
}
