//! Counters and conditions of multiple frame operation of the ISDN D channel, after ITU-T Q.921
//! (09/97), clauses 5.5 to 5.9 and Annex B: which I frames may be sent, which are accepted, and
//! which supervisory frames answer.
//!
//! Begin with [`Window`]: V(S), V(A) and V(R) with four conditions: peer busy, own busy, rejecting
//! and acknowledgement pending. Each call takes the window by value. A call that changes it returns
//! the new window and what to do: a [`Receipt`] for a received I frame, an [`Advance`] for a
//! received N(R), or the control field of the frame to send. No call allocates. Timers, messages
//! and the state of the link are not part of this crate.
//!
//! Each call is an action of `specs/StateVariables.antt`, which is defined for numbers without a
//! bound and for tags from 0 to 127; the code uses tags.
#![tactic(auto)]

mod advance;
pub mod laws;
mod receipt;
mod window;

pub use advance::Advance;
pub use lapd_field::{Control, Number};
pub use lapd_mod128::Seq;
pub use receipt::Receipt;
pub use window::Window;
