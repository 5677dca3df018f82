//! The command `decode`: it reads frames from lines of several forms and from captures, and prints
//! them with `lapd_cli_frames`.
//!
//! [`decode`] executes a script of strict lines, and prints the trace line of each frame.
//! [`decode_lines`] does the same in any [`Style`]. [`decode_good_lines`] reports and skips invalid
//! lines. [`print_lines`] reads lines of any [`LineForm`] and prints the frames that a
//! [`FrameStyle`] requests, and [`decode_capture`] those of a capture of `lapd_capture`. If links
//! are followed, which [`follow_capture`] does for a capture, the remarks of a listener of
//! `lapd_follow` are printed behind each frame, and a table of each link at the end. With
//! [`Layout::Drawn`] the frames are drawn as a ladder, as a picture between [`PICTURE_BEGIN`] and
//! [`PICTURE_END`], as a page between [`PAGE_BEGIN`] and [`PAGE_END`], or as the records of a pcap
//! file.
#![tactic(auto)]

mod capture_lines;
mod dump_line;
mod joined_dumps;
mod line_decoder;
mod line_form;
mod line_sender;
mod live_laws;
mod loose;
mod printed_lines;
mod timed;

pub use capture_lines::{
    CaptureStop, CaptureStyle, Seen, decode_capture, decode_capture_in, follow_capture,
};
pub use joined_dumps::JoinedDumps;
pub use lapd_capture::{CaptureFault, CaptureReader, FILE_HEADER, PacketFault, ReadFault};
pub use lapd_cli_frames::{
    Drawing, Filter, Follow, FrameDrawer, FrameStyle, FrameTime, Layout, Missing, Side, Style,
    Zone, both_read_alike, ladder_head, sender_is_found,
};
pub use lapd_cli_ladder::{PICTURE_BEGIN, PICTURE_END};
pub use lapd_cli_page::{PAGE_BEGIN, PAGE_END};
pub use line_decoder::{decode, decode_good_lines, decode_lines};
pub use line_form::LineForm;
pub use live_laws::ladder_is_decoded;
pub use printed_lines::{LinesStyle, print_lines};
