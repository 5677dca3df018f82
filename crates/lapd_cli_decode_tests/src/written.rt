//! The octets written for frames, by the definitions of the formats.

use lapd_capture::{
    BLOCKS_HEADER, CaptureWriter, FILE_HEADER, Side, block_of, gsmtap_of, record_of,
};
use lapd_test_text::all_hold;
use std::alloc::Global;
use std::io;
use std::test::Fail;

const HEAD: &str = "a1b2c3d400020004000000000000000000040000000000b1";

const RECORD: &str = "00000001000007d00000001300000013000020fd00010100000000000000003000817f";

const CAPTURE: &str = "a1b2c3d400020004000000000000000000040000000000b1\
    00000001000007d00000001300000013000420fd00010000000000000000003000817f\
    00000002000000000000001300000013000020fd000100000000000000000030008173";

const BLOCKS_HEAD: &str = "0a0d0d0a1c0000004d3c2b1a01000000ffffffffffffffff1c000000\
    0100000014000000b10000000000000014000000";

const BLOCK: &str = "06000000340000000000000000000000104a0f001300000013000000\
    000020fd00010100000000000000003000817f0034000000";

// Three frames are missing before it, and its microseconds have more than 32 bits.
const HOLE_BLOCK: &str = "06000000440000000000000051610600d013bdd71300000013000000\
    000020fd00010100000000000000003000817f00\
    04000800030000000000000000000000\
    44000000";

const DATAGRAM: &str = "0204130040000000000000000100000000817f";

// Whether these digits spell these octets.
fn are_octets(alloc: Global, octets: &[u8], digits: &str) -> bool {
    match hex::decode(alloc, digits.as_bytes()) {
        Ok(written) => written.as_slice() == octets,
        Err(_) => false,
    }
}

fn is_record(alloc: Global) -> bool {
    let record = record_of(Side::Network, Side::User, 1002, b"\x00\x81\x7f");
    are_octets(alloc, record.as_slice(), RECORD)
}

fn is_block(alloc: Global, moment: u64, missing: u64, digits: &str) -> bool {
    let block = block_of(Side::Network, Side::User, moment, missing, b"\x00\x81\x7f");
    are_octets(alloc, block.as_slice(), digits)
}

fn is_datagram(alloc: Global) -> bool {
    let datagram = gsmtap_of(Side::User, b"\x00\x81\x7f");
    are_octets(alloc, datagram.as_slice(), DATAGRAM)
}

// A capture of two frames.
fn capture_of(alloc: Global) -> io::Result<Vec<u8>> {
    let mut writer = CaptureWriter::new(Side::User, Vec::new(alloc))?;
    writer.write(Side::User, 1002, b"\x00\x81\x7f")?;
    writer.write(Side::Network, 2000, b"\x00\x81\x73")?;
    Ok(writer.into_inner())
}

fn is_capture(alloc: Global) -> bool {
    match capture_of(alloc) {
        Ok(capture) => are_octets(alloc, capture.as_slice(), CAPTURE),
        Err(_) => false,
    }
}

#[test]
fn octets_are_written(rt: HostRuntime) -> Result<(), Fail> {
    let alloc = rt.alloc();
    let what = "its octets";
    all_hold(&[
        (
            are_octets(alloc, FILE_HEADER.as_slice(), HEAD),
            "head",
            what,
        ),
        (
            are_octets(alloc, BLOCKS_HEADER.as_slice(), BLOCKS_HEAD),
            "head of pcapng",
            what,
        ),
        (is_block(alloc, 1002, 0, BLOCK), "block", what),
        (
            is_block(alloc, 1_795_854_000_002, 3, HOLE_BLOCK),
            "block behind a hole",
            what,
        ),
        (is_record(alloc), "record", what),
        (is_capture(alloc), "capture", what),
        (is_datagram(alloc), "datagram", what),
    ])
}
