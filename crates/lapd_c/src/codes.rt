//! The codes that calls return to C, as in c/lapd.h: 0 to 5 of the call itself, 11 and 13 for B1
//! and B3, and 21 to 25 for L1 to L5.

ghost use Rattle.std.specs.Prelude.{◌≡◌};
ghost use Rattle.lapd_c.specs.Codes.{code_of, code_of_kind, code_of_link_fault};

use lapd_sides::{LinkFault, SideFault, SideKind};

/// The call succeeded.
pub(crate) const DONE: u32 = 0;

/// The handle owns no side: it is new or freed.
pub(crate) const NO_SIDE: u32 = 1;

/// Too many frames or primitives wait to be fetched.
pub(crate) const PENDING: u32 = 2;

/// A number is out of its range, or a buffer is too small.
pub(crate) const OUT_OF_RANGE: u32 = 3;

/// A TEI is to be checked while another check is in progress.
pub(crate) const CHECK_RUNS: u32 = 4;

/// Counters are requested of a side that does not count.
pub(crate) const NOT_COUNTING: u32 = 5;

/// B1: the link does not exist.
pub(crate) const NO_LINK: u32 = 11;

/// B3: an allocation failed.
pub(crate) const MEMORY: u32 = 13;

/// The code for the result of a side's call.
pub(crate) fn code_of(answer: Result<(), SideFault>) -> u32
    ensures { result ≡ code_of answer }
{
    match answer {
        Ok(()) => DONE,
        Err(fault) => code_of_kind(fault.kind),
    }
}

/// The code of a side's refusal: B1, B3, or that of its link.
fn code_of_kind(kind: SideKind) -> u32
    ensures { result ≡ code_of_kind kind }
{
    match kind {
        SideKind::NoLink => NO_LINK,
        SideKind::Memory => MEMORY,
        SideKind::Link(fault) => code_of_link_fault(fault),
    }
}

/// The code of a link's refusal, L1 to L5.
fn code_of_link_fault(fault: LinkFault) -> u32
    ensures { result ≡ code_of_link_fault fault }
{
    match fault {
        LinkFault::NotEstablished => 21,
        LinkFault::QueueFull => 22,
        LinkFault::TooLong => 23,
        LinkFault::Releasing => 24,
        LinkFault::LayerThreeEstablishing => 25,
    }
}
