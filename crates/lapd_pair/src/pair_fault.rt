ghost use Rattle.std.specs.Prelude.{◌≡◌};
ghost use Rattle.lapd_pair.specs.PairFault.{is_memory};

use lapd_frame::Side;
use lapd_link::LinkFault;
use thiserror::Error;

/// Why the pair refused a move or could not make it. The pair is unchanged.
#[derive(Clone, Copy, Debug, PartialEq, Eq, Error)]
pub enum PairFault {
    /// P1: no such frame is in transit.
    #[error("P1 NothingThere")]
    NothingThere,
    /// P2: the timer does not run.
    #[error("P2 NotRunning")]
    NotRunning,
    /// P3: T200 may not expire yet. A command with P=1 from its end, or a response with F=1 to its
    /// end, is in transit to the named side, at the index that follows, from 0.
    #[error("P3 NotYet {0} {1}")]
    NotYet(Side, usize),
    /// P4: the link refuses the request.
    #[error("{0}")]
    Refused(LinkFault),
    /// P5: an allocation failed.
    #[error("P5 Memory")]
    Memory,
}

impl PairFault {
    /// Whether an allocation failed. Every other fault refuses the move itself.
    pub fn is_memory(self) -> bool
        ensures { result ≡ is_memory self }
    {
        match self {
            PairFault::Memory => true,
            PairFault::NothingThere
            | PairFault::NotRunning
            | PairFault::NotYet(_, _)
            | PairFault::Refused(_) => false,
        }
    }
}

/// A run that stopped because an allocation failed. The moves made before it remain in effect.
#[derive(Clone, Copy, Debug, PartialEq, Eq, Error)]
#[error("no memory for move {at}")]
pub struct RunFault {
    /// The index of the move whose allocation failed, from 0.
    pub at: usize,
}
