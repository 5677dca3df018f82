ghost use Rattle.std.specs.Prelude.{Some};
ghost use Rattle.lapd_follow.specs.Texts.{seconds_digits};

use std::fmt;

/// Microseconds, shown as seconds with six digits after the point.
#[derive(Clone, Copy)]
pub struct Seconds {
    /// The number of microseconds.
    pub time: u64,
}

impl fmt::Display for Seconds {
    ghost output = { λ shown. Some (seconds_digits shown.time) };

    fn fmt<W: fmt::Write>(&self, f: &mut fmt::Formatter<W>) -> fmt::Result {
        let seconds = self.time / 1_000_000;
        let first = self.time / 100_000 % 10;
        let second = self.time / 10_000 % 10;
        let third = self.time / 1_000 % 10;
        let fourth = self.time / 100 % 10;
        let fifth = self.time / 10 % 10;
        let sixth = self.time % 10;
        write!(f, "{seconds}.{first}{second}{third}{fourth}{fifth}{sixth}")
    }
}
