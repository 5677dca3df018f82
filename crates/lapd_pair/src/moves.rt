ghost use Rattle.std.specs.Prelude.{◌≡◌};
ghost use Rattle.lapd_pair.specs.Moves.{move_of};

use lapd_frame::Side;

/// Something that one side does or that happens to it.
#[derive(Debug, Drop)]
pub enum Move {
    /// Layer 3 submits a message.
    Give(Side, Vec<u8>),
    /// Layer 3 requests establishment of the link.
    Establish(Side),
    /// Layer 3 requests release of the link.
    Release(Side),
    /// The first frame in transit to this side is delivered.
    Deliver(Side),
    /// One frame in transit to this side is lost: the one at this index, from 0.
    Lose(Side, usize),
    /// T200 expires.
    Expire200(Side),
    /// T203 expires.
    Expire203(Side),
    /// The side becomes own busy, or stops being own busy (Q.921 5.6.6).
    Busy(Side, bool),
    /// Layer 3 sends unit data.
    Unit(Side, Vec<u8>),
    /// The side restarts in state 4. Its I queue and all frames in transit in both directions are
    /// dropped.
    Restart(Side),
}

impl Move {
    /// The side that makes this move.
    pub fn side(&self) -> Side
        ensures { result ≡ (move_of self.now).side }
    {
        match self {
            Move::Give(side, _)
            | Move::Establish(side)
            | Move::Release(side)
            | Move::Deliver(side)
            | Move::Lose(side, _)
            | Move::Expire200(side)
            | Move::Expire203(side)
            | Move::Busy(side, _)
            | Move::Unit(side, _)
            | Move::Restart(side) => *side,
        }
    }
}
