//! IPv4 and IPv6 packets with UDP.

ghost use Rattle.std.specs.Prelude.{◌≡◌, ◌≤◌, ◌<◌, ◌+◌, length};
ghost use Rattle.lapd_capture.specs.Packet.{IsWithin, any_ip, ip, ip6, ip6_payload, ip_payload, loopback, udp};

use crate::gsmtap::gsmtap;
use crate::item::{CaptureItem, PacketFault};
use crate::order::Order;

/// The protocol number of UDP.
const UDP: u8 = 17;

/// The UDP port of GSMTAP.
const PORT: usize = 4729;

/// The length of an IPv6 header, in octets.
const HEADER_6: usize = 40;

/// The length of a protocol family, in octets.
const FAMILY: usize = 4;

const BAD_LENGTH: CaptureItem = CaptureItem::Unreadable(PacketFault::BadLength);

const CUT: CaptureItem = CaptureItem::Unreadable(PacketFault::CutHeader);

/// The content behind a protocol family.
pub(crate) fn loopback(start: usize, kept: usize, end: usize, octets: &[u8]) -> CaptureItem
    requires order { start ≤ kept }
    requires cut { kept ≤ end }
    requires within { kept ≤ length octets.now }
    ensures exact { result ≡ loopback start kept end octets.now }
    ensures within { IsWithin (length octets.now) result }
{
    if end - start < FAMILY {
        return BAD_LENGTH;
    }
    if kept - start < FAMILY {
        return CUT;
    }
    any_ip(start + FAMILY, kept, end, octets)
}

/// The content of a packet of IPv4 or IPv6.
pub(crate) fn any_ip(start: usize, kept: usize, end: usize, octets: &[u8]) -> CaptureItem
    requires order { start ≤ kept }
    requires cut { kept ≤ end }
    requires within { kept ≤ length octets.now }
    ensures exact { result ≡ any_ip start kept end octets.now }
    ensures within { IsWithin (length octets.now) result }
{
    if end - start < 1 {
        return BAD_LENGTH;
    }
    if kept - start < 1 {
        return CUT;
    }
    if octets[start] / 16 == 6 {
        ip6(start, kept, end, octets)
    } else {
        ip(start, kept, end, octets)
    }
}

/// The content of an IPv6 packet, if it carries UDP behind no other header.
#[tactic(auto, unfolding(crate::specs::Packet::ip6))]
pub(crate) fn ip6(start: usize, kept: usize, end: usize, octets: &[u8]) -> CaptureItem
    requires order { start ≤ kept }
    requires cut { kept ≤ end }
    requires within { kept ≤ length octets.now }
    ensures exact { result ≡ ip6 start kept end octets.now }
    ensures within { IsWithin (length octets.now) result }
{
    if end - start < HEADER_6 {
        return BAD_LENGTH;
    }
    if kept - start < HEADER_6 {
        return CUT;
    }
    if octets[start] / 16 != 6 {
        return CaptureItem::Other;
    }
    if octets[start + 6] != UDP {
        return CaptureItem::Other;
    }
    let total = Order::Big.u16_at(start + 4, octets);
    ip6_payload(total, start + HEADER_6, kept, end, octets)
}

/// The content of a payload of this length.
fn ip6_payload(total: usize, start: usize, kept: usize, end: usize, octets: &[u8]) -> CaptureItem
    requires order { start ≤ kept }
    requires cut { kept ≤ end }
    requires within { kept ≤ length octets.now }
    ensures exact { result ≡ ip6_payload total start kept end octets.now }
    ensures within { IsWithin (length octets.now) result }
{
    if total < 8 {
        return BAD_LENGTH;
    }
    if end - start < total {
        return BAD_LENGTH;
    }
    udp(start, kept.min(start + total), start + total, octets)
}

/// The content of an IPv4 packet, if it is no fragment and carries UDP.
pub(crate) fn ip(start: usize, kept: usize, end: usize, octets: &[u8]) -> CaptureItem
    requires order { start ≤ kept }
    requires cut { kept ≤ end }
    requires within { kept ≤ length octets.now }
    ensures exact { result ≡ ip start kept end octets.now }
    ensures within { IsWithin (length octets.now) result }
{
    if end - start < 20 {
        return BAD_LENGTH;
    }
    if kept - start < 20 {
        return CUT;
    }
    if octets[start] / 16 != 4 {
        return CaptureItem::Other;
    }
    if octets[start + 9] != UDP {
        return CaptureItem::Other;
    }
    if Order::Big.u16_at(start + 6, octets) % 0x4000 != 0 {
        return CaptureItem::Other;
    }
    let header = usize::from(octets[start] % 16) * 4;
    let total = Order::Big.u16_at(start + 2, octets);
    ip_payload(header, total, start, kept, end, octets)
}

/// The content after an IPv4 header of this length, in a packet of this total length.
fn ip_payload(
    header: usize,
    total: usize,
    start: usize,
    kept: usize,
    end: usize,
    octets: &[u8],
) -> CaptureItem
    requires header { header < 64 }
    requires order { start ≤ kept }
    requires cut { kept ≤ end }
    requires within { kept ≤ length octets.now }
    ensures exact { result ≡ ip_payload header total start kept end octets.now }
    ensures within { IsWithin (length octets.now) result }
{
    if header < 20 {
        return BAD_LENGTH;
    }
    if total < header + 8 {
        return BAD_LENGTH;
    }
    if end - start < total {
        return BAD_LENGTH;
    }
    if kept - start < header {
        return CUT;
    }
    udp(
        start + header,
        kept.min(start + total),
        start + total,
        octets,
    )
}

/// The content of a UDP datagram, if it is sent to the port of GSMTAP.
fn udp(start: usize, kept: usize, end: usize, octets: &[u8]) -> CaptureItem
    requires order { start ≤ kept }
    requires cut { kept ≤ end }
    requires within { kept ≤ length octets.now }
    ensures exact { result ≡ udp start kept end octets.now }
    ensures within { IsWithin (length octets.now) result }
{
    if kept - start < 8 {
        return CUT;
    }
    if Order::Big.u16_at(start + 2, octets) != PORT {
        return CaptureItem::Other;
    }
    let count = Order::Big.u16_at(start + 4, octets);
    if count < 8 {
        return BAD_LENGTH;
    }
    if end - start < count {
        return BAD_LENGTH;
    }
    gsmtap(start + 8, kept.min(start + count), start + count, octets)
}
