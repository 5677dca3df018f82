//! Printing frames: as trace lines, as JSON objects, or drawn.
//!
//! A [`FramePrinter`] prints the frames that a [`FrameStyle`] requests, one after the other, each in a
//! [`Style`]. If links are followed, it prints the remarks of a listener of `lapd_follow` behind each
//! frame, and at the end a table of each link. With [`Layout::Drawn`] the frames are drawn as a
//! ladder, as a picture, as the rows of a page, or as the records of a pcap file. A [`FrameDrawer`]
//! draws the same ladder of the frames of a line, when they are sent or received.
//! [`sender_by_kind`] finds the sender of a frame by its octets.
#![tactic(auto)]

mod any_sapi;
mod call_filter;
mod color;
mod drawn;
mod frame_printer;
mod frame_style;
mod frame_time;
mod laws;
mod live_ladder;
mod missing;
mod record;
mod remarked;
mod senders;
mod shown;
mod shown_object;
mod shown_text;
mod style;
mod tables;

pub use frame_printer::{Follow, FramePrinter, Origin};
pub use frame_style::{Drawing, FrameStyle, Layout};
pub use frame_time::FrameTime;
pub use lapd_cli_render::Packet;
pub use lapd_filter::Filter;
pub use lapd_frame::Side;
pub use lapd_zone::Zone;
pub use laws::{both_draw_alike, both_read_alike, sender_is_found};
pub use live_ladder::{FrameDrawer, ladder_head};
pub use missing::Missing;
pub use senders::named_or_by_kind;
pub use style::Style;
