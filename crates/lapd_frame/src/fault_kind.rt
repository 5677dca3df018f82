ghost use Rattle.std.specs.Prelude.{◌≡◌, Some};
ghost use Rattle.lapd_frame.specs.Fault.{fault_name, is_for_link, kind_of};

use lapd_field::FieldFault;
use std::fmt;
use thiserror::Error;

/// A fault of octets that do not form a valid frame. The faults are listed in the order in which
/// they are checked.
// Its text is printed by hand: what `thiserror` prints has no contract.
#[derive(Clone, Copy, Debug, PartialEq, Eq, Error)]
pub enum FaultKind {
    /// F1: too few octets (Q.921 2.9 b).
    TooShort,
    /// F2: an address extension bit is wrong (Q.921 2.9 e).
    BadAddress,
    /// F3: the service access point is not served (Q.921 2.9 f).
    SapiNotServed,
    /// F4: an undefined control field, a reserved bit that is set, or a command sent as a response
    /// or a response as a command (Q.921 3.6.1).
    Undefined,
    /// F5: information in a SABME, DISC, DM or UA frame (Q.921 3.6.11).
    InfoNotPermitted,
    /// F6: an S frame that does not have 4 octets, or a FRMR frame that does not have 5 octets of
    /// information (Q.921 3.6.11).
    WrongSize,
    /// F7: more than 260 octets of information, N201, in an I, UI or XID frame (Q.921 5.9.3).
    InfoTooLong,
}

impl FaultKind {
    /// Whether a fault is for a link (F4 to F7), which reports it (Q.921 5.8.5). Octets with any
    /// other fault are discarded (Q.921 2.9).
    pub fn is_for_link(self) -> bool
        ensures { result ≡ is_for_link self }
    {
        match self {
            FaultKind::TooShort | FaultKind::BadAddress | FaultKind::SapiNotServed => false,
            FaultKind::Undefined
            | FaultKind::InfoNotPermitted
            | FaultKind::WrongSize
            | FaultKind::InfoTooLong => true,
        }
    }

    /// Its number and name, as in `F1 TooShort`.
    pub fn name(self) -> &'static str
        ensures { result.now ≡ fault_name self }
    {
        match self {
            FaultKind::TooShort => "F1 TooShort",
            FaultKind::BadAddress => "F2 BadAddress",
            FaultKind::SapiNotServed => "F3 SapiNotServed",
            FaultKind::Undefined => "F4 Undefined",
            FaultKind::InfoNotPermitted => "F5 InfoNotPermitted",
            FaultKind::WrongSize => "F6 WrongSize",
            FaultKind::InfoTooLong => "F7 InfoTooLong",
        }
    }
}

impl fmt::Display for FaultKind {
    ghost output = { λ kind. Some (fault_name kind) };

    fn fmt<W: fmt::Write>(&self, f: &mut fmt::Formatter<W>) -> fmt::Result {
        f.write_str(self.name())
    }
}

impl From<FieldFault> for FaultKind {
    ghost from_gives = { λ fault kind. kind ≡ kind_of fault };

    fn from(fault: FieldFault) -> FaultKind {
        match fault {
            FieldFault::TooShort => FaultKind::TooShort,
            FieldFault::BadAddress => FaultKind::BadAddress,
            FieldFault::SapiNotServed => FaultKind::SapiNotServed,
            FieldFault::Undefined => FaultKind::Undefined,
        }
    }
}
