//! The content of a packet of a capture, by the link type of its interface.

ghost use Rattle.std.specs.Prelude.{◌≡◌, ◌≤◌, ◌<◌, ◌+◌, ◌^◌, length};
ghost use Rattle.lapd_capture.specs.Packet.{linux_lapd, capturing_side, captured_packet_at, is_named, sent_by_type, packet_at, IsWithin};

use crate::cooked::{cooked, cooked2};
use crate::ethernet::ethernet;
use crate::internet::{any_ip, loopback};
use crate::item::{CaptureItem, PacketFault, Span};
use crate::link_type::LinkType;
use crate::order::Order;
use lapd_field::Side;

/// The length of the header before a frame of link type 177, in octets.
const LINUX_HEADER: usize = 16;

/// The protocol number of LAPD in this header, ETH_P_LAPD.
pub(crate) const PROTOCOL: usize = 0x0030;

/// The content of a packet of this original length, captured from `start` to `kept`. A frame in it
/// is what was captured of it.
pub(crate) fn captured_packet_at(
    original: usize,
    link: LinkType,
    start: usize,
    kept: usize,
    octets: &[u8],
) -> CaptureItem
    requires fits { original < 2 ^ 32 }
    requires order { start ≤ kept }
    requires within { kept ≤ length octets.now }
    ensures exact { result ≡ captured_packet_at original link start kept octets.now }
    ensures within { IsWithin (length octets.now) result }
{
    packet_at(link, start, kept, kept.max(start + original), octets)
}

/// The content of a packet from `start` to `end`, captured up to `kept`, on an interface with this
/// link type.
fn packet_at(link: LinkType, start: usize, kept: usize, end: usize, octets: &[u8]) -> CaptureItem
    requires order { start ≤ kept }
    requires cut { kept ≤ end }
    requires within { kept ≤ length octets.now }
    ensures exact { result ≡ packet_at link start kept end octets.now }
    ensures within { IsWithin (length octets.now) result }
{
    match link {
        LinkType::LinuxLapd => linux_lapd(start, kept, end, octets),
        LinkType::Lapd => CaptureItem::Frame(Span {
            from: None,
            is_sure: true,
            start,
            end: kept,
            is_cut: kept < end,
        }),
        LinkType::Ethernet => ethernet(start, kept, end, octets),
        LinkType::Ip => any_ip(start, kept, end, octets),
        LinkType::Loopback => loopback(start, kept, end, octets),
        LinkType::Cooked => cooked(start, kept, end, octets),
        LinkType::Cooked2 => cooked2(start, kept, end, octets),
        LinkType::NotServed(_) => CaptureItem::Other,
    }
}

/// The frame after the header of link type 177.
pub(crate) fn linux_lapd(start: usize, kept: usize, end: usize, octets: &[u8]) -> CaptureItem
    requires order { start ≤ kept }
    requires cut { kept ≤ end }
    requires within { kept ≤ length octets.now }
    ensures exact { result ≡ linux_lapd start kept end octets.now }
    ensures within { IsWithin (length octets.now) result }
{
    if end - start < LINUX_HEADER {
        return CaptureItem::Unreadable(PacketFault::BadLength);
    }
    if kept - start < LINUX_HEADER {
        return CaptureItem::Unreadable(PacketFault::CutHeader);
    }
    if Order::Big.u16_at(start + 14, octets) != PROTOCOL {
        return CaptureItem::Unreadable(PacketFault::BadHeader);
    }
    let packet_type = Order::Big.u16_at(start, octets);
    let length = Order::Big.u16_at(start + 4, octets);
    let first = octets[start + 6];
    CaptureItem::Frame(Span {
        from: sent_by_type(packet_type, capturing_side(first)),
        is_sure: is_named(packet_type, length, first),
        start: start + LINUX_HEADER,
        end: kept,
        is_cut: kept < end,
    })
}

/// The side that captured, by the first octet of the address.
pub(crate) fn capturing_side(first: u8) -> Side
    ensures { result ≡ capturing_side first }
{
    match first {
        0 => Side::User,
        _ => Side::Network,
    }
}

/// Whether a header with this packet type, this length of the address and its first octet names the
/// sender for certain. Wireshark and Osmocom write the octet with the length 0; `text2pcap` writes 0
/// for all three, whoever sent the frame.
pub(crate) fn is_named(packet_type: usize, length: usize, first: u8) -> bool
    ensures { result ≡ is_named packet_type length first }
{
    length != 0 || first != 0 || packet_type != 0
}

/// Who sent a frame that this side captured, by the packet type.
pub(crate) fn sent_by_type(packet_type: usize, side: Side) -> Option<Side>
    ensures { result ≡ sent_by_type packet_type side }
{
    match packet_type {
        0..=2 => Some(side.other()),
        3 => Some(Side::User),
        4 => Some(side),
        _ => None,
    }
}
