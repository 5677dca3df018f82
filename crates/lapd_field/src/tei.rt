ghost use Rattle.std.specs.Prelude.{◌≡◌, ◌≤◌, Some};
ghost use Rattle.std.specs.Fmt.{decimal};
ghost use Rattle.lapd_field.specs.Address.{number_at};

use std::fmt;
use std::marker::Model;

/// A terminal endpoint identifier, 0 to 127 (Q.921 3.3.4). 0 to 63 are assigned by the user, 64 to
/// 126 by the network, and 127 is the group TEI for broadcast.
#[derive(Clone, Copy, Debug, PartialEq, Eq)]
pub struct Tei {
    value: u8,
}

impl Model for Tei {
    ghost use Rattle.std.specs.Prelude.{ℕ, ◌≤◌};

    ghost Value = { ℕ };

    ghost view = { λ t. t.value };

    ghost invariant = { λ t. t.value ≤ 127 };

    ghost inverse = { λ n. record { value = n } };
}

impl Tei {
    /// The group TEI, for broadcast to every terminal.
    pub fn group() -> Tei
        ensures { result ≡ 127 }
    {
        Tei { value: 127 }
    }

    /// The TEI with this number; `None` above 127.
    pub fn new(value: u8) -> Option<Tei>
        ensures { result ≡ number_at value }
    {
        if value <= 127 {
            Some(Tei { value })
        } else {
            None
        }
    }

    /// Its number, 0 to 127.
    pub fn value(self) -> u8
        ensures value { result ≡ self }
        ensures range { result ≤ 127 }
    {
        self.value
    }
}

impl fmt::Display for Tei {
    ghost output = { λ tei. Some (decimal tei) };

    fn fmt<W: fmt::Write>(&self, f: &mut fmt::Formatter<W>) -> fmt::Result {
        let value = self.value;
        write!(f, "{value}")
    }
}
