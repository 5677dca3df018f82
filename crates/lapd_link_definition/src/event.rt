ghost use Rattle.std.specs.Prelude.{◌≡◌, Some};
ghost use Rattle.lapd_link_definition.specs.Refusal.{refusal_name};

use lapd_frame::{FaultKind, Frame};
use std::fmt;
use thiserror::Error;

/// An event of an end.
#[derive(Debug, Drop)]
pub enum Event<'a> {
    /// A frame of the peer was received, with the link's service access point and terminal
    /// endpoint.
    Heard(&'a Frame<'a>),
    /// Octets with the link's address were received that do not form a valid frame, by one of F4 to
    /// F7.
    Fault(FaultKind),
    /// T200 expires. Ignored if it does not run.
    T200,
    /// T203 expires. Ignored if it does not run.
    T203,
    /// Layer 3 requests the link to be established (DL-ESTABLISH request).
    Establish,
    /// Layer 3 requests the link to be released (DL-RELEASE request).
    Release,
    /// This end can accept no more messages (own receiver busy, Q.921 5.6.6).
    BusyOn,
    /// This end can accept messages again.
    BusyOff,
    /// Layer 3 requests unit data of this many octets to be sent (DL-UNIT DATA request).
    Unit(usize),
}

/// Why a request is refused. The link is unchanged.
#[derive(Clone, Copy, Debug, PartialEq, Eq, Error)]
pub enum LinkFault {
    /// L1: a message for a link that is not established.
    NotEstablished,
    /// L2: the I queue is full.
    QueueFull,
    /// L3: a message of more than 260 octets.
    TooLong,
    /// L4: the link is being released.
    Releasing,
    /// L5: layer 3 is establishing the link.
    LayerThreeEstablishing,
}

/// A message that was refused, returned unchanged.
#[derive(Debug, Drop, Error)]
#[error("{fault}")]
pub struct Refused {
    /// Why it was refused.
    pub fault: LinkFault,
    /// The message.
    pub message: Vec<u8>,
}

impl LinkFault {
    /// Its number and name, as in `L1 NotEstablished`.
    pub fn name(self) -> &'static str
        ensures { result.now ≡ refusal_name self }
    {
        match self {
            LinkFault::NotEstablished => "L1 NotEstablished",
            LinkFault::QueueFull => "L2 QueueFull",
            LinkFault::TooLong => "L3 TooLong",
            LinkFault::Releasing => "L4 Releasing",
            LinkFault::LayerThreeEstablishing => "L5 LayerThreeEstablishing",
        }
    }
}

impl fmt::Display for LinkFault {
    ghost output = { λ fault. Some (refusal_name fault) };

    fn fmt<W: fmt::Write>(&self, f: &mut fmt::Formatter<W>) -> fmt::Result {
        f.write_str(self.name())
    }
}
