//! The octets that are written for frames.

ghost use Rattle.std.specs.Prelude.{◌≡◌, ◌≤◌, ◌∷◌, ◌++◌, length, [], ◌/◌, ◌%◌, ◌*◌, ◌+◌, ◌^◌, ◌<◌};
ghost use Rattle.byteorder.specs.Endian.{big_bytes};
ghost use Rattle.arrayvec.specs.ArrayVec.{array_vec_len};
ghost use Rattle.lapd_capture.specs.Written.{packet_type, side_octet, linux_header, record_header, record_octets, channel_octet, gsmtap_octets};

use arrayvec::ArrayVec;
use byteorder::{BigEndian, ByteOrder};
use lapd_field::Side;

/// The head of a pcap file of link type 177, in big endian, with microseconds.
pub const FILE_HEADER: [u8; 24] = [
    0xa1, 0xb2, 0xc3, 0xd4, 0, 2, 0, 4, 0, 0, 0, 0, 0, 0, 0, 0, 0, 4, 0, 0, 0, 0, 0, 177,
];

/// The greatest length of a frame that is written, in octets: one more than the longest valid frame
/// has, 4 + N201 (Q.921 5.9.3). Of a longer frame the first octets are written.
pub const MOST_FRAME: usize = 265;

/// The record of a frame in a pcap file of link type 177: the side `own` captured it and the side
/// `from` sent it, at a moment in milliseconds. The frame has at most 265 octets.
pub fn record_of(own: Side, from: Side, moment: u64, frame: &[u8]) -> ArrayVec<u8, 297>
    requires { length frame.now ≤ MOST_FRAME }
    ensures { result.items ≡ record_octets own from moment frame.now }
{
    let count = 16 + frame.len() as u32;
    let mut record = ArrayVec::new();
    put(&mut record, &record_header(moment, count));
    put(&mut record, &linux_header(own, from));
    put(&mut record, frame);
    record
}

/// A GSMTAP header and a frame that the side `from` sent, the content of one UDP datagram. The
/// frame has at most 265 octets.
pub fn gsmtap_of(from: Side, frame: &[u8]) -> ArrayVec<u8, 281>
    requires { length frame.now ≤ MOST_FRAME }
    ensures { result.items ≡ gsmtap_octets from frame.now }
{
    let header = [
        2,
        4,
        0x13,
        0,
        channel_octet(from),
        0,
        0,
        0,
        0,
        0,
        0,
        0,
        1,
        0,
        0,
        0,
    ];
    let mut datagram = ArrayVec::new();
    put(&mut datagram, &header);
    put(&mut datagram, frame);
    datagram
}

/// Appends octets to `out`.
pub(crate) fn put<const N: usize>(out: &mut ArrayVec<u8, N>, octets: &[u8])
    requires { array_vec_len out.old + length octets.now ≤ N }
    ensures items { out.new.items ≡ out.old.items ++ octets.now }
    ensures len { array_vec_len out.new ≡ array_vec_len out.old + length octets.now }
{
    let Ok(()) = out.try_extend_from_slice(octets) else {
        unreachable!()
    };
}

/// The header of a record: seconds, microseconds, and the packet's length twice.
fn record_header(moment: u64, count: u32) -> [u8; 16]
    ensures { result ≡ record_header moment count }
{
    let mut header = [0u8; 16];
    let seconds = (moment / 1000 % 0x1_0000_0000) as u32;
    BigEndian::write_u32(&mut header, seconds);
    BigEndian::write_u32(&mut header[4..], (moment % 1000) as u32 * 1000);
    BigEndian::write_u32(&mut header[8..], count);
    BigEndian::write_u32(&mut header[12..], count);
    header
}

/// The header of link type 177.
pub(crate) fn linux_header(own: Side, from: Side) -> [u8; 16]
    ensures { result ≡ linux_header own from }
{
    let (kind, side) = (packet_type(own, from), side_octet(own));
    [
        0, kind, 0x20, 0xfd, 0, 1, side, 0, 0, 0, 0, 0, 0, 0, 0, 0x30,
    ]
}

/// The packet type: 4 if the capturing side sent the frame, 0 if it received it.
fn packet_type(own: Side, from: Side) -> u8
    ensures { result ≡ packet_type own from }
{
    match (own, from) {
        (Side::Network, Side::Network) | (Side::User, Side::User) => 4,
        (Side::Network, Side::User) | (Side::User, Side::Network) => 0,
    }
}

/// The first octet of the address: the capturing side.
fn side_octet(own: Side) -> u8
    ensures { result ≡ side_octet own }
{
    match own {
        Side::Network => 1,
        Side::User => 0,
    }
}

/// The high octet of GSMTAP's channel number: the uplink bit is set if the user sent the frame.
fn channel_octet(from: Side) -> u8
    ensures { result ≡ channel_octet from }
{
    match from {
        Side::Network => 0x00,
        Side::User => 0x40,
    }
}
