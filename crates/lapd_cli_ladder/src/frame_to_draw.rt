//! A frame to draw.

use lapd_cli_render::Packet;
use lapd_follow::{Listener, Remarks};
use lapd_frame::Side;

/// A frame to draw, with what a listener says of it and knows after it.
#[derive(Clone, Copy)]
pub struct FrameToDraw<'a> {
    /// The packet that it was captured in.
    pub packet: Packet,
    /// The text of its time, with a space behind it; empty without times.
    pub time: &'a [u8],
    /// Its sender, if it is known.
    pub from: Option<Side>,
    /// Its octets.
    pub octets: &'a [u8],
    /// The remarks on it, if its link is followed.
    pub said: &'a Option<Remarks>,
    /// The listener after it, if links are followed.
    pub listener: &'a Option<Listener>,
}
