use crate::FaultKind;
use lapd_field::Address;
use thiserror::Error;

/// Why octets do not form a valid frame, and the link that they are for, if it is known.
#[derive(Clone, Copy, Debug, PartialEq, Eq, Error)]
#[error("{kind}")]
pub struct FrameFault {
    /// The first fault of the octets.
    pub kind: FaultKind,
    /// The address, for F4 to F7. Octets with F1 to F3 are for no link, and are discarded (Q.921
    /// 2.9).
    pub address: Option<Address>,
}
