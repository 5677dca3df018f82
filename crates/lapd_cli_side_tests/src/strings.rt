//! Hostile octets as a stream. A port must read strings of any length unchanged if a frame may have
//! that length; a shorter or longer one is a bad length.

use lapd_port::{FromRead, FromWrite, Port, PortFault};
use lapd_test_text::Parts;
use rand_core::{Rng, SeedableRng};
use rand_pcg::Pcg32;
use std::alloc::{AllocError, Global};
use std::io;
use std::test::Fail;

/// The most octets of a random string.
const MOST: usize = 300;

/// Appends octets to a stream, after their length.
fn put(stream: &mut Vec<u8>, octets: &[u8]) -> Result<(), AllocError> {
    let len = u16::try_from(octets.len()).unwrap_or(u16::MAX);
    stream.extend_from_slice(&len.to_be_bytes())?;
    stream.extend_from_slice(octets)
}

/// Whether a port reads each string of a stream that may be a frame, and reports S2 at the first
/// other one, or S1 at the end. The source returns at most `most` octets per read.
fn is_read(stream: &[u8], most: usize) -> bool {
    let source = Parts {
        octets: stream,
        most,
        fault: None,
    };
    let mut port = Port::new(FromRead::new(source), FromWrite::new(io::sink()));
    let mut left = stream;
    for _ in 0..stream.len() {
        let mut frame = [0xee; 264];
        let answer = port.read_frame(&mut frame);
        let [high, low, rest @ ..] = left else {
            return answer == Err(PortFault::End) && port.source().get_ref().octets.is_empty();
        };
        let len = usize::from(u16::from_be_bytes([*high, *low]));
        if !(3..=264).contains(&len) {
            return answer == Err(PortFault::BadLength);
        }
        if answer != Ok(len) || rest.get(..len) != frame.get(..len) {
            return false;
        }
        left = rest.get(len..).unwrap_or(b"");
    }
    true
}

/// Whether each single octet, and each pair, is a bad length. They follow frames of TEI 64 that
/// have two octets after their address.
fn pairs_are_read(stream: &mut Vec<u8>) -> Result<bool, AllocError> {
    for number in 0..=u16::MAX {
        let both = number.to_be_bytes();
        let [first, second] = both;
        stream.clear();
        put(stream, &[0x00, 0x81, first, second])?;
        put(stream, &[0x02, 0x81, first, second])?;
        put(stream, both.get(usize::from(first == 0)..).unwrap_or(b""))?;
        if !is_read(stream.as_slice(), 7) {
            return Ok(false);
        }
    }
    Ok(true)
}

/// Whether streams of ten strings are read. The first string has each length once, the others are
/// random.
fn drawn_are_read(stream: &mut Vec<u8>) -> Result<bool, AllocError> {
    let mut random = Pcg32::seed_from_u64(921);
    for number in 0..100_000 {
        let mut octets = [0; MOST];
        random.fill_bytes(&mut octets);
        let drawn = random.next_u32() as usize;
        let len = if number % 10 == 0 { number / 10 } else { drawn } % (MOST + 1);
        put(stream, octets.get(..len).unwrap_or(b""))?;
        if number % 10 == 9 {
            if !is_read(stream.as_slice(), drawn % MOST + 1) {
                return Ok(false);
            }
            stream.clear();
        }
    }
    Ok(true)
}

#[test]
fn strings_are_printed(rt: HostRuntime) -> Result<(), Fail> {
    let mut stream = Vec::new(rt.alloc());
    let pairs = pairs_are_read(&mut stream)?;
    stream.clear();
    let drawn = drawn_are_read(&mut stream)?;
    if pairs && drawn {
        Ok(())
    } else {
        Err(Fail::new(format_args!("pairs {pairs}, drawn {drawn}: another frame, or not S1 or S2")))
    }
}
