//! The ladder of a line, and the capture of the same frames.

use crate::read::{are_lines, parts_of};
use lapd_capture::{CaptureWriter, MOST_FRAME};
use lapd_cli_decode::{
    CaptureReader, CaptureStyle, Drawing, Follow, FrameDrawer, FrameStyle, FrameTime, Layout, Side,
    follow_capture,
};
use lapd_test_text::all_hold;
use std::alloc::Global;
use std::io;
use std::test::Fail;

// Who sent each frame, its moment in milliseconds since 1970, and its octets.
const FRAMES: &[(Side, u64, &[u8])] = &[
    (Side::User, 1_795_854_000_002, &[0x00, 0x81, 0x7f]),
    (Side::Network, 1_795_854_000_025, &[0x00, 0x81, 0x73]),
    (
        Side::User,
        1_795_854_001_000,
        &[0x00, 0x81, 0x00, 0x00, 0x08, 0x01],
    ),
    (Side::Network, 1_795_854_011_003, &[0xff, 0xff]),
];

const LADDER: &str = "\
packet         time       user |                                    | network\
/     1     0.000000 SABME sent |-- 0 64 SABME P=1 ----------------->| -\
/     2     0.023000      S0 R0 |<-- 0 64 UA F=1 --------------------| S0 R0\
/                               |  begins establishment 1            |\
/                               |  answers packet 1 in 0.023000 s    |\
/     3     0.998000      S1 R0 |-- 0 64 I N(S)=0 N(R)=0 P=0 inf.. ->| S0 R0\
/     4    11.001000            |<-- F1 TooShort ffff ---------------|";

#[test]
fn lines_are_drawn_as_their_captures(rt: HostRuntime) -> Result<(), Fail> {
    let alloc = rt.alloc();
    let mut drawn = Vec::new(alloc);
    let mut captured = Vec::new(alloc);
    let mut decoded = Vec::new(alloc);
    let is_drawn = draw(alloc, &mut drawn).is_ok();
    let is_captured = capture(&mut captured).is_ok();
    let is_decoded = decodes(alloc, captured.as_slice(), &mut decoded);
    all_hold(&[
        (is_drawn, "a line", "its end"),
        (are_lines(drawn.as_slice(), LADDER), LADDER, "its lines"),
        (is_captured, "a capture", "its end"),
        (is_decoded, "a capture", "its frames"),
        (are_lines(decoded.as_slice(), LADDER), LADDER, "its lines"),
    ])
}

// Draws the frames as those of a line.
fn draw(alloc: Global, out: &mut Vec<u8>) -> io::Result<()> {
    let mut drawer = FrameDrawer::new(alloc, out)?;
    for (from, moment, octets) in FRAMES {
        drawer.draw(*from, *moment, octets)?;
    }
    Ok(())
}

// Writes the frames as the network side's capture. None of them is longer than a frame may be.
fn capture(out: &mut Vec<u8>) -> io::Result<()> {
    let mut writer = CaptureWriter::new(Side::Network, out)?;
    for (from, moment, octets) in FRAMES {
        if octets.len() <= MOST_FRAME {
            writer.write(*from, *moment, octets)?;
        }
    }
    Ok(())
}

// Prints the ladder of a capture. Returns whether it had frames.
fn decodes(alloc: Global, octets: &[u8], out: &mut Vec<u8>) -> bool {
    let how = CaptureStyle {
        frames: FrameStyle {
            layout: Layout::Drawn(Drawing::Ladder),
            time: FrameTime::Relative,
            ..FrameStyle::PLAIN
        },
        sender: None,
        keeps_going: false,
    };
    let Ok(mut reader) = CaptureReader::new(alloc, parts_of(octets, 7)) else {
        return false;
    };
    let mut reported = Vec::new(alloc);
    let follow = Follow { k: None };
    match follow_capture(alloc, &mut reader, out, &mut reported, how, follow) {
        Ok(seen) => seen.any,
        Err(_) => false,
    }
}
