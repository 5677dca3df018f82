ghost use Rattle.std.specs.Prelude.{◌≡◌, Some};
ghost use Rattle.lapd_tei.specs.Message.{tei_fault_name};

use std::fmt;
use thiserror::Error;

/// Why octets do not form a TEI message. A message with a fault is ignored.
#[derive(Clone, Copy, Debug, PartialEq, Eq, Error)]
pub enum TeiFault {
    /// M1: the first octet is not the management entity, or is missing (Q.921 5.3.6.2).
    NotManagement,
    /// M2: not five octets.
    BadLength,
    /// M3: no message type has this number (Q.921 Table 8).
    BadKind,
    /// M4: the extension bit of the action indicator is 0, or the action indicator is the group TEI
    /// in a message that must name one terminal (Q.921 5.3.6.5).
    BadAi,
}

impl TeiFault {
    /// The number and name, as in `M1 NotManagement`.
    pub fn name(self) -> &'static str
        ensures { result.now ≡ tei_fault_name self }
    {
        match self {
            TeiFault::NotManagement => "M1 NotManagement",
            TeiFault::BadLength => "M2 BadLength",
            TeiFault::BadKind => "M3 BadKind",
            TeiFault::BadAi => "M4 BadAi",
        }
    }
}

impl fmt::Display for TeiFault {
    ghost output = { λ fault. Some (tei_fault_name fault) };

    fn fmt<W: fmt::Write>(&self, f: &mut fmt::Formatter<W>) -> fmt::Result {
        f.write_str(self.name())
    }
}
