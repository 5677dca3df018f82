ghost use Rattle.std.specs.Prelude.{◌≡◌, Some};
ghost use Rattle.std.specs.Fmt.{decimal};
ghost use Rattle.lapd_field.specs.Address.{sapi_value, sapi_at};

use std::fmt;

/// A service access point identifier that is served (Q.921 3.3.3, Table 2).
#[derive(Clone, Copy, Debug, PartialEq, Eq)]
pub enum Sapi {
    /// 0: call control procedures.
    Call,
    /// 16: packet communication by X.25 level 3 procedures.
    Packet,
    /// 63: layer 2 management procedures.
    Management,
}

impl Sapi {
    /// The served service access point with this number; `None` if the number is not 0, 16 or 63.
    #[inline(always)]
    pub fn new(value: u8) -> Option<Sapi>
        ensures { result ≡ sapi_at value }
    {
        match value {
            0 => Some(Sapi::Call),
            16 => Some(Sapi::Packet),
            63 => Some(Sapi::Management),
            _ => None,
        }
    }

    /// Its number: 0, 16 or 63.
    pub fn value(self) -> u8
        ensures { result ≡ sapi_value self }
    {
        match self {
            Sapi::Call => 0,
            Sapi::Packet => 16,
            Sapi::Management => 63,
        }
    }
}

impl fmt::Display for Sapi {
    ghost output = { λ sapi. Some (decimal (sapi_value sapi)) };

    fn fmt<W: fmt::Write>(&self, f: &mut fmt::Formatter<W>) -> fmt::Result {
        let value = self.value();
        write!(f, "{value}")
    }
}
