//! A frame as the record of a pcap file.

ghost use Rattle.std.specs.Prelude.{◌≡◌, ◌++◌, ◌≤◌, ◌<◌, ◌^◌, length, min, take, OnOk};
ghost use Rattle.lapd_cli_frames.specs.Record.{kept_length, line_header, original_length, packet_type, record_header, record_text, seconds_of};

use byteorder::{BigEndian, ByteOrder};
use lapd_cli_render::Packet;
use lapd_frame::Side;
use std::alloc::AllocError;

/// The most octets of a frame in a record: readers of captures accept packets of 262,144 octets, and
/// 16 of them precede the frame.
const MOST: usize = 262_128;

/// Appends the record of octets in this packet, of this sender if it is known, as a pcap file of
/// link type 177 in big endian has it, with microseconds.
///
/// # Errors
///
/// `AllocError` if an allocation fails. A part may have been appended.
pub(crate) fn push_record(
    text: &mut Vec<u8>,
    packet: Packet,
    from: Option<Side>,
    octets: &[u8],
) -> Result<(), AllocError>
    ensures { OnOk result (text.new.items
        ≡ text.old.items ++ record_text packet from octets.now) }
{
    let count = kept_length(octets);
    let original = original_length(packet.is_cut, octets);
    text.extend_from_slice(&record_header(
        packet.moment.unwrap_or(0),
        16 + count as u32,
        original,
    ))?;
    text.extend_from_slice(&line_header(from))?;
    text.extend_from_slice(&octets[..count])
}

/// How many octets of a frame are written.
fn kept_length(octets: &[u8]) -> usize
    ensures value { result ≡ kept_length octets.now }
    ensures bound { result ≤ MOST }
    ensures within { result ≤ length octets.now }
{
    octets.len().min(MOST)
}

/// The length of the packet, one more if not all of it is written.
fn original_length(is_cut: bool, octets: &[u8]) -> u32
    ensures { result ≡ original_length is_cut octets.now }
{
    let count = 16 + kept_length(octets) as u32;
    if is_cut || MOST < octets.len() {
        count + 1
    } else {
        count
    }
}

/// The octets before a packet of these lengths, captured at this moment in microseconds.
fn record_header(moment: u64, count: u32, original: u32) -> [u8; 16]
    ensures { result ≡ record_header moment count original }
{
    let mut header = [0u8; 16];
    BigEndian::write_u32(&mut header, seconds_of(moment));
    BigEndian::write_u32(&mut header[4..], (moment % 1_000_000) as u32);
    BigEndian::write_u32(&mut header[8..], count);
    BigEndian::write_u32(&mut header[12..], original);
    header
}

/// The seconds of a moment in microseconds, without those that 32 bits do not have.
fn seconds_of(moment: u64) -> u32
    ensures { result ≡ seconds_of moment }
{
    (moment / 1_000_000 % 0x1_0000_0000) as u32
}

/// The header of link type 177, as the network side captures.
fn line_header(from: Option<Side>) -> [u8; 16]
    ensures { result ≡ line_header from }
{
    [
        0,
        packet_type(from),
        0x20,
        0xfd,
        0,
        1,
        1,
        0,
        0,
        0,
        0,
        0,
        0,
        0,
        0,
        0x30,
    ]
}

/// The packet type: of a frame to this side, from it, or of neither.
fn packet_type(from: Option<Side>) -> u8
    ensures { result ≡ packet_type from }
{
    match from {
        Some(Side::User) => 0,
        Some(Side::Network) => 4,
        None => 5,
    }
}
