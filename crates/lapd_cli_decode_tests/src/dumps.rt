//! Hex dumps of several lines, as other programs print them, joined to one line each.

use crate::read::parts_of;
use lapd_cli_decode::JoinedDumps;
use lapd_test_text::wants;
use std::alloc::Global;
use std::io::Read;
use std::test::Fail;

// Texts and the same with joined dumps; a slash is a line feed. The dumps were printed by xxd,
// hexdump -C, od -tx1, od -Ad -tx1z, tcpdump -xx and tshark -x.
const DUMPS: &str = "\
00000000: 0081 0000 0802 0101 0504 0380 90a3 1803  ................/00000010: a983 81                                  .../~/0000  00 81 00 00 08 02 01 01 05 04 03 80 90 a3 18 03 a9 83 81 /
00000000  00 81 00 00 08 02 01 01  05 04 03 80 90 a3 18 03  |......::........|/00000010  a9 83 81                                          |...|/00000013/~//0000  00 81 00 00 08 02 01 01 05 04 03 80 90 a3 18 03 a9 83 81 /
0000000 00 81 00 00 08 02 01 01 05 04 03 80 90 a3 18 03/0000020 a9 83 81/0000023/~//0000  00 81 00 00 08 02 01 01 05 04 03 80 90 a3 18 03 a9 83 81 /
0000000 00 81 00 00 08 02 01 01 05 04 03 80 90 a3 18 03  >................</0000016 a9 83 81                                         >...</0000019/~//0000  00 81 00 00 08 02 01 01 05 04 03 80 90 a3 18 03 a9 83 81 /
\t0x0000:  0081 0000 0802 0101 0504 0380 90a3 1803/\t0x0010:  a983 81~/0000  00 81 00 00 08 02 01 01 05 04 03 80 90 a3 18 03 a9 83 81 /
0000  00 81 00 00 08 02 01 01 05 04 03 80 90 a3 18 03   ................/0010  a9 83 81                                          ...//0000  00 81 7f                                          .../~/0000  00 81 00 00 08 02 01 01 05 04 03 80 90 a3 18 03 a9 83 81 //0000  00 81 7f /
0000  00 81 7f   .../0000  00 81 73   .../hello/~0000  00 81 7f /0000  00 81 73 /hello/
0010  a9 83 81   .../00817f/> [ 00 81 7f ]/00000000/00 81 7f~0010  a9 83 81   .../00817f/> [ 00 81 7f ]/00000000/00 81 7f
0000  00 81 7f   .../0010  a9 83 81   .../~0000  00 81 7f /0010  a9 83 81   .../
000000 00 81 7f/0000  00 8g/0000  00 8/~000000 00 81 7f/0000  00 8g/0000  00 8/
~";

#[test]
fn dumps_are_joined(rt: HostRuntime) -> Result<(), Fail> {
    for row in DUMPS.split('\n') {
        let (text, joined) = row.split_once('~').unwrap_or((row, ""));
        let so = row_holds(rt.alloc(), text, joined);
        wants(so, row, "its joined lines")?;
    }
    Ok(())
}

// Whether the text is joined so, read at once and octet by octet.
fn row_holds(alloc: Global, text: &str, joined: &str) -> bool {
    match (
        text.replace(alloc, "/", "\n"),
        joined.replace(alloc, "/", "\n"),
    ) {
        (Ok(text), Ok(joined)) => {
            is_joined(alloc, text.as_bytes(), joined.as_bytes(), usize::MAX)
                && is_joined(alloc, text.as_bytes(), joined.as_bytes(), 1)
        }
        _ => false,
    }
}

fn is_joined(alloc: Global, text: &[u8], joined: &[u8], most: usize) -> bool {
    let mut reader = JoinedDumps::new(alloc, parts_of(text, most));
    let mut found = Vec::new(alloc);
    match reader.read_to_end(&mut found) {
        Ok(_) => found.as_slice() == joined,
        Err(_) => false,
    }
}
