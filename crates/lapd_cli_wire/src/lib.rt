//! The surroundings of a side that runs in real time: the line to the other side, and a clock.
//!
//! [`Outside`] is their interface; connections implement it, and so does a line in memory in tests.
//! A [`Tapped`] line passes each frame to a [`Tap`], such as a capture (specs/Passed.antt). An
//! [`Impaired`] line loses and delays frames on purpose (specs/Delays.antt).
#![tactic(auto)]

mod delays;
mod impaired;
mod impairment;
mod laws;
mod outside;
mod tapped;

pub use impaired::Impaired;
pub use impairment::Impairment;
pub use laws::long_frames_keep_their_fault;
pub use outside::{Incident, Lines, MOST_RECEIVED, Outside, Sending, Woken, is_reached};
pub use tapped::{Tap, Tapped};
