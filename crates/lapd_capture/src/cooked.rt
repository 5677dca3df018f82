//! The headers of captures of all interfaces of Linux (`tcpdump -i any`).

ghost use Rattle.std.specs.Prelude.{◌≡◌, ◌≤◌, ◌+◌, length};
ghost use Rattle.lapd_capture.specs.Packet.{IsWithin, by_protocol, by_protocol2, cooked, cooked2, is_lapd, lapd2};

use crate::ethernet::typed;
use crate::item::{CaptureItem, PacketFault, Span};
use crate::order::Order;
use crate::packet::{PROTOCOL, capturing_side, is_named, linux_lapd, sent_by_type};

/// The length of the header of link type 113, in octets.
const HEADER: usize = 16;

/// The length of the header of link type 276, in octets.
const HEADER_2: usize = 20;

const BAD_LENGTH: CaptureItem = CaptureItem::Unreadable(PacketFault::BadLength);

const CUT: CaptureItem = CaptureItem::Unreadable(PacketFault::CutHeader);

/// The content after the header of link type 113.
pub(crate) fn cooked(start: usize, kept: usize, end: usize, octets: &[u8]) -> CaptureItem
    requires order { start ≤ kept }
    requires cut { kept ≤ end }
    requires within { kept ≤ length octets.now }
    ensures exact { result ≡ cooked start kept end octets.now }
    ensures within { IsWithin (length octets.now) result }
{
    if end - start < HEADER {
        return BAD_LENGTH;
    }
    if kept - start < HEADER {
        return CUT;
    }
    by_protocol(
        Order::Big.u16_at(start + 14, octets),
        start,
        kept,
        end,
        octets,
    )
}

/// The content after a header of link type 113 with this protocol.
fn by_protocol(protocol: usize, start: usize, kept: usize, end: usize, octets: &[u8]) -> CaptureItem
    requires order { start + HEADER ≤ kept }
    requires cut { kept ≤ end }
    requires within { kept ≤ length octets.now }
    ensures exact { result ≡ by_protocol protocol start kept end octets.now }
    ensures within { IsWithin (length octets.now) result }
{
    if is_lapd(protocol) {
        linux_lapd(start, kept, end, octets)
    } else {
        typed(protocol, start + HEADER, kept, end, octets)
    }
}

/// The content after the header of link type 276.
pub(crate) fn cooked2(start: usize, kept: usize, end: usize, octets: &[u8]) -> CaptureItem
    requires order { start ≤ kept }
    requires cut { kept ≤ end }
    requires within { kept ≤ length octets.now }
    ensures exact { result ≡ cooked2 start kept end octets.now }
    ensures within { IsWithin (length octets.now) result }
{
    if end - start < HEADER_2 {
        return BAD_LENGTH;
    }
    if kept - start < HEADER_2 {
        return CUT;
    }
    by_protocol2(Order::Big.u16_at(start, octets), start, kept, end, octets)
}

/// The content after a header of link type 276 with this protocol.
fn by_protocol2(
    protocol: usize,
    start: usize,
    kept: usize,
    end: usize,
    octets: &[u8],
) -> CaptureItem
    requires order { start + HEADER_2 ≤ kept }
    requires cut { kept ≤ end }
    requires within { kept ≤ length octets.now }
    ensures exact { result ≡ by_protocol2 protocol start kept end octets.now }
    ensures within { IsWithin (length octets.now) result }
{
    if is_lapd(protocol) {
        lapd2(start, kept, end, octets)
    } else {
        typed(protocol, start + HEADER_2, kept, end, octets)
    }
}

/// The frame after the header of link type 276.
fn lapd2(start: usize, kept: usize, end: usize, octets: &[u8]) -> CaptureItem
    requires order { start + HEADER_2 ≤ kept }
    requires cut { kept ≤ end }
    requires within { kept ≤ length octets.now }
    ensures exact { result ≡ lapd2 start kept end octets.now }
    ensures within { IsWithin (length octets.now) result }
{
    let packet_type = usize::from(octets[start + 10]);
    let length = usize::from(octets[start + 11]);
    let first = octets[start + 12];
    CaptureItem::Frame(Span {
        from: sent_by_type(packet_type, capturing_side(first)),
        is_sure: is_named(packet_type, length, first),
        start: start + HEADER_2,
        end: kept,
        is_cut: kept < end,
    })
}

/// Whether this is the protocol number of LAPD.
fn is_lapd(protocol: usize) -> bool
    ensures { result ≡ is_lapd protocol }
{
    protocol == PROTOCOL
}
