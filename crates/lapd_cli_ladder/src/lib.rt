//! Draws the frames of data links (ITU-T Q.921) as a ladder: two upright lines, the user at the
//! left and the network at the right, and an arrow for each frame. Beside them is what a listener
//! of `lapd_follow` knows of both ends of the frame's link, and below each arrow the remarks on it.
//!
//! [`push_head`] appends the line above the first frame, [`push_rung`] the line of a
//! [`FrameToDraw`], and [`push_notes`] the lines below it. A frame whose sender is not known is a line without a head.
//! [`push_arrival`] and [`push_note`] are for a caller that knows both ends, and which frames are
//! lost. [`push_picture_part`] draws the same as SVG, between [`PICTURE_BEGIN`] and
//! [`PICTURE_END`]. [`push_control`] appends the name and the numbers of any frame, and [`known_words`]
//! says what is known of an end.
#![tactic(auto)]

mod columns;
mod ends;
mod frame_to_draw;
mod ladder;
mod notes;
mod parts;
mod picture;
mod picture_notes;
mod words;

pub use ends::known_words;
pub use frame_to_draw::FrameToDraw;
pub use ladder::{LadderStyle, push_arrival, push_head, push_rung};
pub use lapd_cli_render::Packet;
pub use lapd_frame::Side;
pub use notes::{push_note, push_notes};
pub use parts::{name_of, nr_of, ns_of};
pub use picture::{PICTURE_BEGIN, PICTURE_END, push_picture_part};
pub use words::{known_role, push_control, reading_of, said_beside};
