//! Captures of frames of the ISDN D channel, as tcpdump and Wireshark write and read them.
//!
//! Begin with [`CaptureReader`]: it reads the frames of a pcap or pcapng file from any reader,
//! record by record, in either byte order. It supports the link types LINUX_LAPD (177) and LAPD
//! (203), and GSMTAP over UDP in Ethernet (1), in IPv4 (101 and 228) or behind the headers of
//! `tcpdump -i any` (113 and 276), which may also have frames as LINUX_LAPD has them. A
//! [`CaptureWriter`] writes a pcap file of link type 177: a [`FILE_HEADER`], and a [`record_of`]
//! each frame. A pcapng file is [`BLOCKS_HEADER`] and a [`block_of`] each frame, which can say how many
//! frames are missing before it. [`gsmtap_of`] makes the GSMTAP packet of a frame. [`kind_of_file`] says whether a
//! file is a capture, and [`take_front`] reads the octets that this depends on.
//!
//! No length in a capture is trusted: of one record or block at most 262,160 octets are kept. The
//! content of frames is not checked here.
#![tactic(auto)]

mod blocks;
mod capture_reader;
mod capture_writer;
mod cooked;
mod ethernet;
mod fault;
mod file_kind;
mod format;
mod gsmtap;
mod interface;
mod internet;
mod item;
mod laws;
mod link_type;
mod order;
mod packet;
mod taking;
mod written;

pub use blocks::{BLOCKS_HEADER, MOST_BLOCK, block_of};
pub use capture_reader::CaptureReader;
pub use capture_writer::CaptureWriter;
pub use fault::{CaptureFault, ReadFault};
pub use file_kind::{FileKind, KIND_OCTETS, kind_of_file, take_front};
pub use interface::Interface;
pub use item::{CaptureItem, PacketFault, Span};
pub use lapd_field::Side;
pub use laws::written_is_read;
pub use link_type::LinkType;
pub use order::Order;
pub use written::{FILE_HEADER, MOST_FRAME, gsmtap_of, record_of};
