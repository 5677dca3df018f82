//! Why a case was not played to its end.

use crate::station::Lost;
use lapd_conform_suite::{Need, Preamble};
use std::alloc::AllocError;

/// Why the purpose of a case was not reached.
#[derive(Clone, Copy)]
pub enum Reason {
    /// The stack sent another frame: the last one that was received.
    Unexpected,
    /// The stack sent nothing.
    Missing,
    /// A timer of the stack expired too early.
    Early,
    /// A frame arrived late, or a timer expired late.
    Late,
    /// The preamble did not lead the stack into this state.
    NotReached(Preamble),
    /// The stack sent more frames than the player examines.
    TooManyFrames,
}

/// Why a case does not apply to a stack.
#[derive(Clone, Copy)]
pub enum Lacks {
    /// The case is for the other end.
    End,
    /// The stack does not meet this need.
    Need(Need),
    /// This state cannot be reached without an upper tester.
    State(Preamble),
}

/// Why a case ended before its last line.
#[derive(Clone, Copy)]
pub(crate) enum Stop {
    /// The stack is out of reach.
    Lost(Lost),
    /// The purpose was not reached.
    Missed(Reason),
}

impl From<AllocError> for Stop {
    fn from(_error: AllocError) -> Stop {
        Stop::Lost(Lost::Memory)
    }
}

impl From<Lost> for Stop {
    fn from(lost: Lost) -> Stop {
        Stop::Lost(lost)
    }
}
