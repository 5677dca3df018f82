//! Frames of data links (ITU-T Q.921) as a page for a browser: one HTML file that loads nothing.
//!
//! A page is [`PAGE_BEGIN`], the rows of its frames, and [`PAGE_END`]. [`push_page_part`] appends the
//! row of a frame: its packet, time, sender and octets, its words, what a listener of `lapd_follow`
//! knows of both ends after it, its message and the remarks on it. [`push_missing_row`] appends a row
//! about frames that a capture lacks. The rows are JSON (RFC 8259). Their texts are escaped, so that
//! no octet of a frame ends a text or the element that has the rows.
//!
//! The script of the page draws the rows as a ladder, chooses and folds them. It also names the
//! fields of a frame by its octets; that is not proved.
#![tactic(auto)]

mod page_begin;
mod page_end;
mod row;

pub use lapd_cli_ladder::Packet;
pub use lapd_frame::Side;
pub use page_begin::PAGE_BEGIN;
pub use page_end::PAGE_END;
pub use row::{push_missing_row, push_page_part};
