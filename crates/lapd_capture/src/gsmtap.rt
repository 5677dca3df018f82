//! GSMTAP datagrams.

ghost use Rattle.std.specs.Prelude.{◌≡◌, ◌≤◌, ◌<◌, ◌+◌, length};
ghost use Rattle.lapd_capture.specs.Packet.{IsWithin, gsmtap, gsmtap_frame, gsmtap_sender, is_uplink};

use crate::item::{CaptureItem, PacketFault, Span};
use crate::order::Order;
use lapd_field::Side;

/// The least length of a GSMTAP header, in octets.
const LEAST_HEADER: usize = 16;

/// The GSMTAP type of E1 and T1 lines.
const LINE_TYPE: u8 = 0x13;

/// The GSMTAP subtype of LAPD on them.
const LAPD_SUBTYPE: u8 = 1;

const CUT: CaptureItem = CaptureItem::Unreadable(PacketFault::CutHeader);

/// The frame after a GSMTAP header of version 2, if it is a LAPD frame.
pub(crate) fn gsmtap(start: usize, kept: usize, end: usize, octets: &[u8]) -> CaptureItem
    requires order { start ≤ kept }
    requires cut { kept ≤ end }
    requires within { kept ≤ length octets.now }
    ensures exact { result ≡ gsmtap start kept end octets.now }
    ensures within { IsWithin (length octets.now) result }
{
    if end - start < LEAST_HEADER {
        return CaptureItem::NotGsmtap;
    }
    if kept - start < LEAST_HEADER {
        return CUT;
    }
    if octets[start] != 2 {
        return CaptureItem::NotGsmtap;
    }
    if octets[start + 2] != LINE_TYPE {
        return CaptureItem::Other;
    }
    if octets[start + 12] != LAPD_SUBTYPE {
        return CaptureItem::Other;
    }
    let header = usize::from(octets[start + 1]) * 4;
    gsmtap_frame(header, start, kept, end, octets)
}

/// The frame after a GSMTAP header of this length.
fn gsmtap_frame(header: usize, start: usize, kept: usize, end: usize, octets: &[u8]) -> CaptureItem
    requires order { start ≤ kept }
    requires cut { kept ≤ end }
    requires within { kept ≤ length octets.now }
    ensures exact { result ≡ gsmtap_frame header start kept end octets.now }
    ensures within { IsWithin (length octets.now) result }
{
    if header < LEAST_HEADER {
        return CaptureItem::NotGsmtap;
    }
    if end - start < header {
        return CaptureItem::NotGsmtap;
    }
    if kept - start < header {
        return CUT;
    }
    let uplink = is_uplink(Order::Big.u16_at(start + 4, octets));
    CaptureItem::Frame(Span {
        from: Some(gsmtap_sender(uplink)),
        is_sure: uplink,
        start: start + header,
        end: kept,
        is_cut: kept < end,
    })
}

/// Whether the uplink bit of a channel number is set.
fn is_uplink(channel: usize) -> bool
    ensures { result ≡ is_uplink channel }
{
    channel / 0x4000 % 2 == 1
}

/// Who sent a frame, by this uplink bit.
fn gsmtap_sender(uplink: bool) -> Side
    ensures { result ≡ gsmtap_sender uplink }
{
    if uplink { Side::User } else { Side::Network }
}
