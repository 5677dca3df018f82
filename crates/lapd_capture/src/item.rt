use lapd_field::Side;
use thiserror::Error;

/// The place of a frame in a capture, and who sent it.
#[derive(Clone, Copy, Debug, PartialEq, Eq)]
pub struct Span {
    /// Who sent it, if the capture says so.
    pub from: Option<Side>,
    /// Whether that is certain. A GSMTAP packet without the uplink bit names the network, but some
    /// programs never set this bit. So does a header of link type 177 that is 0 but for its
    /// protocol, as some programs write it for each frame.
    pub is_sure: bool,
    /// The place of its first octet.
    pub start: usize,
    /// The place after its last octet that was captured.
    pub end: usize,
    /// Whether it has further octets, which were not captured.
    pub is_cut: bool,
}

/// The next item in a capture.
#[derive(Clone, Copy, Debug, PartialEq, Eq)]
pub enum CaptureItem {
    /// A frame.
    Frame(Span),
    /// A packet or block without a LAPD frame.
    Other,
    /// A datagram to the port of GSMTAP that is not GSMTAP of version 2. Anybody can send one.
    NotGsmtap,
    /// A packet that can't be read. Reading can continue after it.
    Unreadable(PacketFault),
    /// The end of the capture.
    End,
}

/// Why a packet can't be read.
#[derive(Clone, Copy, Debug, PartialEq, Eq, Error)]
pub enum PacketFault {
    /// A length in it is greater than the octets of the packet, or it is shorter than its headers.
    #[error("packet: bad length")]
    BadLength,
    /// Its header of link type 177 has a protocol other than LAPD.
    #[error("packet: not LAPD")]
    BadHeader,
    /// No block describes its interface.
    #[error("packet: unknown interface")]
    NoInterface,
    /// It was cut within the headers before its frame.
    #[error("packet: cut within its headers")]
    CutHeader,
}
