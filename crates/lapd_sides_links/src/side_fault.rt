//! Why a side refuses a call.

ghost use Rattle.std.specs.Prelude.{◌≡◌, Some};
ghost use Rattle.lapd_sides_links.specs.Texts.{kind_text};

use lapd_link::LinkFault;
use std::fmt;
use thiserror::Error;

/// Why a side refuses a call. The side is unchanged.
// Its text, and that of `SideFault`, are printed by hand: what `thiserror` prints has no contract.
#[derive(Clone, Copy, Debug, PartialEq, Eq, Error)]
pub enum SideKind {
    /// B1: no link has this id.
    NoLink,
    /// B3: a link to be added could not be allocated.
    Memory,
    /// L1 to L5: the link refuses.
    Link(LinkFault),
}

/// A refusal, with the message or unit data that the caller passed, unchanged.
#[derive(Debug, Drop, Error)]
pub struct SideFault {
    /// The reason.
    pub kind: SideKind,
    /// The octets of the message or unit data; `None` if the call passed neither.
    pub message: Option<Vec<u8>>,
}

impl fmt::Display for SideKind {
    ghost output = { λ kind. Some (kind_text kind) };

    fn fmt<W: fmt::Write>(&self, f: &mut fmt::Formatter<W>) -> fmt::Result {
        match self {
            SideKind::NoLink => write!(f, "B1 NoLink"),
            SideKind::Memory => write!(f, "B3 Memory"),
            SideKind::Link(fault) => write!(f, "{}", fault.name()),
        }
    }
}

impl fmt::Display for SideFault {
    ghost output = { λ fault. Some (kind_text fault.kind) };

    fn fmt<W: fmt::Write>(&self, f: &mut fmt::Formatter<W>) -> fmt::Result {
        let kind = self.kind;
        write!(f, "{kind}")
    }
}

/// Builds a refusal that returns the message.
pub fn refused(kind: SideKind, message: Vec<u8>) -> SideFault
    ensures kind { result.kind ≡ kind }
    ensures message { result.message ≡ Some message }
{
    let message = Some(message);
    SideFault { kind, message }
}
