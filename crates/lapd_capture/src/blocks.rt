//! The octets that are written for frames in pcapng, which can say how many frames are missing.

ghost use Rattle.std.specs.Prelude.{◌≡◌, ◌≤◌, ◌<◌, ◌++◌, ◌+◌, ◌^◌, length};
ghost use Rattle.arrayvec.specs.ArrayVec.{array_vec_len};
ghost use Rattle.byteorder.specs.Endian.{little_bytes};
ghost use Rattle.lapd_capture.specs.Blocks.{block_header, block_length, block_octets, filler, filler_length, options_length, options_octets};

use crate::written::{MOST_FRAME, linux_header, put};
use arrayvec::ArrayVec;
use byteorder::{ByteOrder, LittleEndian};
use lapd_field::Side;

/// The head of a pcapng file with one interface of link type 177, in little endian, with
/// microseconds: its section header and its interface description.
pub const BLOCKS_HEADER: [u8; 48] = [
    0x0a, 0x0d, 0x0d, 0x0a, 28, 0, 0, 0, 0x4d, 0x3c, 0x2b, 0x1a, 1, 0, 0, 0, 0xff, 0xff, 0xff,
    0xff, 0xff, 0xff, 0xff, 0xff, 28, 0, 0, 0, 1, 0, 0, 0, 20, 0, 0, 0, 177, 0, 0, 0, 0, 0, 0, 0,
    20, 0, 0, 0,
];

/// The greatest length of a block that is written, in octets.
pub const MOST_BLOCK: usize = 352;

/// The block of a frame in a pcapng file that begins with [`BLOCKS_HEADER`]: the side `own`
/// captured it and the side `from` sent it, at a moment in milliseconds. Before it this many frames
/// are missing, which the option epb_dropcount says. The frame has at most [`MOST_FRAME`] octets.
pub fn block_of(
    own: Side,
    from: Side,
    moment: u64,
    missing: u64,
    frame: &[u8],
) -> ArrayVec<u8, MOST_BLOCK>
    requires { length frame.now ≤ MOST_FRAME }
    ensures { result.items ≡ block_octets own from moment missing frame.now }
{
    let count = 16 + frame.len() as u32;
    let mut block = ArrayVec::new();
    put(&mut block, &block_header(moment, missing, count));
    put(&mut block, &linux_header(own, from));
    put(&mut block, frame);
    put(&mut block, filler(count));
    put_options(&mut block, missing);
    put(&mut block, &number_of(block_length(missing, count)));
    block
}

/// The first octets of a block, before its packet of this length.
fn block_header(moment: u64, missing: u64, count: u32) -> [u8; 28]
    requires { count < 2 ^ 16 }
    ensures { result ≡ block_header moment missing count }
{
    let mut header = [0u8; 28];
    let microseconds = moment.saturating_mul(1000);
    header[0] = 6;
    LittleEndian::write_u32(&mut header[4..], block_length(missing, count));
    LittleEndian::write_u32(&mut header[12..], (microseconds / 0x1_0000_0000) as u32);
    LittleEndian::write_u32(&mut header[16..], (microseconds % 0x1_0000_0000) as u32);
    LittleEndian::write_u32(&mut header[20..], count);
    LittleEndian::write_u32(&mut header[24..], count);
    header
}

/// The length of a block with a packet of this length.
fn block_length(missing: u64, count: u32) -> u32
    requires { count < 2 ^ 16 }
    ensures { result ≡ block_length missing count }
{
    32 + count + filler_length(count) + options_length(missing)
}

/// How many octets fill a packet of this length to a multiple of 4.
fn filler_length(count: u32) -> u32
    ensures value { result ≡ filler_length count }
    ensures bound { result < 4 }
{
    (4 - count % 4) % 4
}

/// The octets that fill a packet of this length to a multiple of 4.
fn filler(count: u32) -> &'static [u8]
    ensures value { result.now ≡ filler count }
    ensures bound { length result.now < 4 }
{
    &[0, 0, 0][..filler_length(count) as usize]
}

/// The length of the options of a block.
fn options_length(missing: u64) -> u32
    ensures value { result ≡ options_length missing }
    ensures bound { result ≤ 16 }
{
    if missing == 0 { 0 } else { 16 }
}

/// Appends the options of a block, if some frames are missing before its own.
fn put_options(block: &mut ArrayVec<u8, MOST_BLOCK>, missing: u64)
    requires { array_vec_len block.old + 16 ≤ MOST_BLOCK }
    ensures items { block.new.items ≡ block.old.items ++ options_octets missing }
    ensures len { array_vec_len block.new ≤ array_vec_len block.old + 16 }
{
    if missing == 0 {
        return;
    }
    let mut options = [0u8; 16];
    options[0] = 4;
    options[2] = 8;
    LittleEndian::write_u64(&mut options[4..], missing);
    put(block, &options);
}

/// A number in four octets.
fn number_of(number: u32) -> [u8; 4]
    ensures { result ≡ little_bytes 4 number }
{
    let mut octets = [0u8; 4];
    LittleEndian::write_u32(&mut octets, number);
    octets
}
