ghost use Rattle.std.specs.Prelude.{◌≡◌, Some};
ghost use Rattle.lapd_timers.specs.Timer.{timer_name};

use std::fmt;

/// A timer (Q.921 5.9, Table 9).
#[derive(Clone, Copy, Debug, PartialEq, Eq)]
pub enum Timer {
    /// How long to wait for a response before a frame is retransmitted (Q.921 5.9.1).
    T200,
    /// The least time between two TEI identity checks (Q.921 5.9.6).
    T201,
    /// The least time between two TEI identity requests (Q.921 5.9.7).
    T202,
    /// The longest time without an exchange of frames on an established link (Q.921 5.9.8).
    T203,
}

impl Timer {
    /// Its name, as in `T200`.
    pub fn name(self) -> &'static str
        ensures { result.now ≡ timer_name self }
    {
        match self {
            Timer::T200 => "T200",
            Timer::T201 => "T201",
            Timer::T202 => "T202",
            Timer::T203 => "T203",
        }
    }
}

impl fmt::Display for Timer {
    ghost output = { λ timer. Some (timer_name timer) };

    fn fmt<W: fmt::Write>(&self, f: &mut fmt::Formatter<W>) -> fmt::Result {
        f.write_str(self.name())
    }
}
