//! Frames of the ISDN D channel (ITU-T Q.921) as lines of text, and a history of the last lines.
//!
//! Begin with [`line`]: it takes any octets and who sent them, and returns the text of the frame,
//! or of the first fault if they do not form a valid frame. [`push_line`] appends this line to a
//! text, and [`push_line_of`] does so for octets that were already read. [`line_of`] returns the
//! line of a [`lapd_frame::Frame`]. [`push_octets`] appends the digits of any octets. [`History`]
//! keeps the last lines of a trace in room that is allocated once, and [`Lines`] iterates over
//! them, oldest first. `lapd_link_tests` has tables of lines for every frame and fault.
#![tactic(auto)]

mod history;
mod lines;
mod trace;

pub use history::History;
pub use lapd_frame::Side;
pub use lines::Lines;
pub use trace::{line, line_of, push_line, push_line_of, push_octets};
