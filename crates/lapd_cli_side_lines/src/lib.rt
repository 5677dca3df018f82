//! The request lines of the commands `net` and `user`, and the lines that these commands print.
//!
//! [`read_line`] parses a request line; `request_of_line` in specs/LineRequests.antt defines its
//! meaning. [`side_request`] is what the first word of a line requests of a side, with the script's
//! clock or the real clock. [`push_frame`] and [`push_primitives`] append the lines of the frames
//! and primitives that a side's call returned. [`put_refused`] prints why a request is refused.
//! Lines are printed in words or as JSON objects ([`LineStyle`]); specs/SideTexts.antt defines the
//! text of each. [`primitive_object`] makes the JSON object of a primitive (specs/Primitives.antt).
#![tactic(auto)]

mod frame_lines;
mod laws;
mod line_style;
mod primitives;
mod side_lines;
mod side_texts;

pub use frame_lines::{push_frame, push_frame_of, push_trace_of};
pub use laws::each_form_has_a_request;
pub use line_style::LineStyle;
pub use primitives::primitive_object;
pub use side_lines::{SideLine, link_of, read_line, side_request};
pub use side_texts::{push_primitive, push_primitives, put_refusal, put_refused};
