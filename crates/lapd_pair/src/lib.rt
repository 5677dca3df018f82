//! Both ends of one ITU-T Q.921 (09/97) data link, and the line between them, which keeps frames in
//! order and may lose any of them.
//!
//! Start with [`Pair`]. [`Pair::apply`] makes one [`Move`], for example submits a message or
//! delivers or loses a frame; [`Pair::run`] makes a list of moves. Frames cross the line as octets,
//! which real links ([`lapd_link::Link`]) write and read. A pair records what each side received
//! ([`Received`]) and the [`Fate`] of each message submitted. After every call these histories are
//! safe in both directions: a side receives only messages that the other side submitted, in order
//! and at most once each; within one establishment it skips none; and each message that the sender
//! counts as acknowledged was received.
#![tactic(auto)]

mod act;
mod fate;
mod laws;
mod line;
mod log;
mod marks;
mod moves;
mod pair;
mod pair_fault;
mod received;
mod recorded_link;
mod settled;

pub use fate::{Ending, Fate};
pub use lapd_link::{Link, LinkFault, Out, Outs, Params, Side};
pub use laws::sent_outputs_of_moves_have_frames;
pub use moves::Move;
pub use pair::Pair;
pub use pair_fault::{PairFault, RunFault};
pub use received::Received;
pub use settled::Settled;
