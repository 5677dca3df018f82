use std::io::ErrorKind;
use thiserror::Error;

/// Why a capture can't be read further.
#[derive(Clone, Copy, Debug, PartialEq, Eq, Error)]
pub enum CaptureFault {
    /// Neither a pcap nor a pcapng file, or a section has an unknown byte order.
    #[error("not a pcap or pcapng file")]
    NotACapture,
    /// A file compressed by gzip.
    #[error("compressed by gzip; pipe it through zcat to --pcap -")]
    Gzip,
    /// Frames can't be read from the link type of a pcap file, which has this number.
    #[error("unsupported link type {0}")]
    LinkNotServed(usize),
    /// It ends within a header, a packet or a block.
    #[error("cut short")]
    Cut,
    /// An invalid length: of a packet above 262,144 octets in pcap; in pcapng below the least
    /// length of the block, not a multiple of 4, or different at the end of the block.
    #[error("bad length")]
    BadLength,
    /// More than 64 interfaces in one section.
    #[error("more than 64 interfaces")]
    TooManyInterfaces,
}

/// Why reading a capture stopped.
#[derive(Clone, Copy, Debug, PartialEq, Eq)]
pub enum ReadFault {
    /// The capture can't be read further.
    Capture(CaptureFault),
    /// A read failed.
    Device(ErrorKind),
    /// An allocation failed.
    Memory,
}
