ghost use Rattle.std.specs.Prelude.{◌≡◌, ◌≤◌, Some};
ghost use Rattle.std.specs.Fmt.{decimal};
ghost use Rattle.lapd_field.specs.Address.{number_at};

use std::fmt;
use std::marker::Model;

/// A sequence number of a frame, N(S) or N(R): 0 to 127 (Q.921 3.5.2.1).
#[derive(Clone, Copy, Debug, PartialEq, Eq)]
pub struct Number {
    value: u8,
}

impl Model for Number {
    ghost use Rattle.std.specs.Prelude.{ℕ, ◌≤◌};

    ghost Value = { ℕ };

    ghost view = { λ n. n.value };

    ghost invariant = { λ n. n.value ≤ 127 };

    ghost inverse = { λ n. record { value = n } };
}

impl Number {
    /// The sequence number with this value; `None` above 127.
    pub fn new(value: u8) -> Option<Number>
        ensures { result ≡ number_at value }
    {
        if value <= 127 {
            Some(Number { value })
        } else {
            None
        }
    }

    /// Its value, 0 to 127.
    pub fn value(self) -> u8
        ensures value { result ≡ self }
        ensures range { result ≤ 127 }
    {
        self.value
    }
}

impl fmt::Display for Number {
    ghost output = { λ number. Some (decimal number) };

    fn fmt<W: fmt::Write>(&self, f: &mut fmt::Formatter<W>) -> fmt::Result {
        let value = self.value;
        write!(f, "{value}")
    }
}
