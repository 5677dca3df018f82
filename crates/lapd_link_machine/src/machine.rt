//! The variables of a link, and the effect of each action and row of the state table on them.

ghost use Rattle.std.specs.Prelude.{◌≡◌, ◌<◌, ◌+◌, [], ◌∷◌, ◌++◌};
ghost use Rattle.arrayvec.specs.ArrayVec.{array_vec_len};

use arrayvec::ArrayVec;
use lapd_frame::Control;
use lapd_link_definition::{Out, Params, State};
use lapd_queue::IQueue;
use lapd_supervision::Window;

mod awaiting_establishment;
mod awaiting_release;
mod begins;
mod dispatcher;
mod end_of_step;
mod established;
mod given;
mod predicted;
mod procedures;
mod refusals;
mod step;
mod tei_assigned;
mod timer_recovery;

pub use given::{GivenOuts, SendEffect};
pub use predicted::{NrEffect, PredictedOuts};

/// The most outputs of a step: seven, and 127 messages with the start and stop of a timer.
pub const MOST_OUTPUTS: usize = 136;

/// The outputs of one step, in order.
pub type Outs = ArrayVec<Out, MOST_OUTPUTS>;

/// The variables of an end (Q.921 Annex B).
#[derive(Drop)]
pub struct Machine {
    pub params: Params,
    pub state: State,
    /// RC: in states 5 and 6, the retransmissions of the SABME or DISC; in state 8, how often T200
    /// has expired.
    pub rc: u8,
    /// V(S), V(A), V(R) and the conditions.
    pub window: Window,
    /// Layer 3 initiated the establishment.
    pub layer3_initiated: bool,
    /// A release is pending until the response to the SABME.
    pub release_pending: bool,
    pub t200: bool,
    pub t203: bool,
    /// The messages neither acknowledged nor dropped.
    pub queue: IQueue,
}

/// Adds an output.
fn push(outs: &mut Outs, out: Out)
    requires { array_vec_len outs.old < MOST_OUTPUTS }
    ensures items { outs.new.items ≡ outs.old.items ++ out ∷ [] }
    ensures len { array_vec_len outs.new ≡ array_vec_len outs.old + 1 }
{
    // The checker finds the type of the fields in an output by this name.
    let _none: Option<Control> = None;
    outs.push(out);
}
