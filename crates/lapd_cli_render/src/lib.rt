//! Shows frames of the ISDN D channel (ITU-T Q.921), and what a side reports to layer 3, to people
//! and to programs: in words after a trace line, or as JSON objects for `jq` and scripts.
//!
//! **JSON.** Begin with [`line`]: it takes any octets and the side that sent them, and returns the
//! frame's fields by the names that they have in a trace line, or the first fault if the octets do
//! not form a valid frame. [`line_of`] does so for octets that were already read. [`named_line`]
//! also says which message the frame carries. [`packet_line`] and [`named_packet_line`] do the same
//! for octets in a [`Packet`] of a capture.
//!
//! **Words.** [`push_names`] names a message of TEI management (ITU-T Q.921 5.3.6) with its
//! numbers, and a message of Q.931 (ITU-T Q.931 4.4, Table 4-2) with its call reference (4.3) and
//! some of its information elements (4.5). [`CallMessage`] is the head of the latter.
#![tactic(auto)]

mod call_message;
mod channel;
mod elements;
mod lines;
mod members;
mod names;
mod packet;

pub use call_message::{CallMessage, CallReference};
pub use lapd_frame::Side;
pub use lines::{line, line_of, named_line, put_octets};
pub use members::{Members, text_line};
pub use names::push_names;
pub use packet::{Packet, named_packet_line, packet_line};
