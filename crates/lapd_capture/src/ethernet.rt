//! Ethernet, and its types in other headers.

ghost use Rattle.std.specs.Prelude.{◌≡◌, ◌≤◌, length};
ghost use Rattle.lapd_capture.specs.Packet.{IsWithin, ethernet, first_tag, is_tag, last_tag, typed, untagged};

use crate::internet::{ip, ip6};
use crate::item::{CaptureItem, PacketFault};
use crate::order::Order;

/// The EtherType of IPv4.
const IP: usize = 0x0800;

/// The EtherType of IPv6.
const IP_6: usize = 0x86dd;

/// The EtherType of a VLAN tag of a customer (IEEE 802.1Q).
const CUSTOMER_TAG: usize = 0x8100;

/// The EtherType of a VLAN tag of a provider.
const PROVIDER_TAG: usize = 0x88a8;

/// The length of a VLAN tag with the EtherType after it, in octets.
const TAG: usize = 4;

const BAD_LENGTH: CaptureItem = CaptureItem::Unreadable(PacketFault::BadLength);

const CUT: CaptureItem = CaptureItem::Unreadable(PacketFault::CutHeader);

/// The content of an Ethernet frame.
pub(crate) fn ethernet(start: usize, kept: usize, end: usize, octets: &[u8]) -> CaptureItem
    requires order { start ≤ kept }
    requires cut { kept ≤ end }
    requires within { kept ≤ length octets.now }
    ensures exact { result ≡ ethernet start kept end octets.now }
    ensures within { IsWithin (length octets.now) result }
{
    if end - start < 14 {
        return BAD_LENGTH;
    }
    if kept - start < 14 {
        return CUT;
    }
    typed(
        Order::Big.u16_at(start + 12, octets),
        start + 14,
        kept,
        end,
        octets,
    )
}

/// The content after this EtherType.
pub(crate) fn typed(
    kind: usize,
    start: usize,
    kept: usize,
    end: usize,
    octets: &[u8],
) -> CaptureItem
    requires order { start ≤ kept }
    requires cut { kept ≤ end }
    requires within { kept ≤ length octets.now }
    ensures exact { result ≡ typed kind start kept end octets.now }
    ensures within { IsWithin (length octets.now) result }
{
    if is_tag(kind) {
        first_tag(start, kept, end, octets)
    } else {
        untagged(kind, start, kept, end, octets)
    }
}

/// The content after the EtherType of a VLAN tag. There may be a second tag.
fn first_tag(start: usize, kept: usize, end: usize, octets: &[u8]) -> CaptureItem
    requires order { start ≤ kept }
    requires cut { kept ≤ end }
    requires within { kept ≤ length octets.now }
    ensures exact { result ≡ first_tag start kept end octets.now }
    ensures within { IsWithin (length octets.now) result }
{
    if end - start < TAG {
        return BAD_LENGTH;
    }
    if kept - start < TAG {
        return CUT;
    }
    let kind = Order::Big.u16_at(start + 2, octets);
    if is_tag(kind) {
        last_tag(start + TAG, kept, end, octets)
    } else {
        untagged(kind, start + TAG, kept, end, octets)
    }
}

/// The content after the EtherType of the last VLAN tag.
fn last_tag(start: usize, kept: usize, end: usize, octets: &[u8]) -> CaptureItem
    requires order { start ≤ kept }
    requires cut { kept ≤ end }
    requires within { kept ≤ length octets.now }
    ensures exact { result ≡ last_tag start kept end octets.now }
    ensures within { IsWithin (length octets.now) result }
{
    if end - start < TAG {
        return BAD_LENGTH;
    }
    if kept - start < TAG {
        return CUT;
    }
    untagged(
        Order::Big.u16_at(start + 2, octets),
        start + TAG,
        kept,
        end,
        octets,
    )
}

/// The content after this EtherType, which is not that of a VLAN tag.
fn untagged(kind: usize, start: usize, kept: usize, end: usize, octets: &[u8]) -> CaptureItem
    requires order { start ≤ kept }
    requires cut { kept ≤ end }
    requires within { kept ≤ length octets.now }
    ensures exact { result ≡ untagged kind start kept end octets.now }
    ensures within { IsWithin (length octets.now) result }
{
    if kind == IP {
        return ip(start, kept, end, octets);
    }
    if kind == IP_6 {
        return ip6(start, kept, end, octets);
    }
    CaptureItem::Other
}

/// Whether a VLAN tag follows this EtherType.
fn is_tag(kind: usize) -> bool
    ensures { result ≡ is_tag kind }
{
    matches!(kind, CUSTOMER_TAG | PROVIDER_TAG)
}
