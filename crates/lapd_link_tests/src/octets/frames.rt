//! Octets, the frames in them, and the first fault of octets that do not form a valid frame (Q.921
//! 2.9, 3.3 to 3.6, Table 5), as lines of text.

use crate::text::with_octets;
use lapd_frame::{
    Address, Control, FaultKind, Frame, FrameFault, MOST_OCTETS, N201, Role, Side, one_frame,
    one_spelling, read, read_as_spelled, write,
};
use lapd_test_text::{Subject, Text, split, wrong_row};
use lapd_trace::line;
use std::alloc::Global;

/// Octets in hexadecimal, and their lines, which begin with who sent them; the line of a fault for
/// a link is followed by its address. First each control field with each role and each value of the
/// P/F bit.
const LINES: &str = "\
00810204 | U>N SAPI 0 TEI 64 C I N(S)=1 N(R)=2 P=0
0081feff | U>N SAPI 0 TEI 64 C I N(S)=127 N(R)=127 P=1
00810100 | U>N SAPI 0 TEI 64 C RR N(R)=0 P=0
00810101 | U>N SAPI 0 TEI 64 C RR N(R)=0 P=1
02810114 | U>N SAPI 0 TEI 64 R RR N(R)=10 F=0
02810101 | U>N SAPI 0 TEI 64 R RR N(R)=0 F=1
00810502 | U>N SAPI 0 TEI 64 C RNR N(R)=1 P=0
00810503 | U>N SAPI 0 TEI 64 C RNR N(R)=1 P=1
028105c8 | U>N SAPI 0 TEI 64 R RNR N(R)=100 F=0
028105c9 | U>N SAPI 0 TEI 64 R RNR N(R)=100 F=1
00810912 | U>N SAPI 0 TEI 64 C REJ N(R)=9 P=0
00810913 | U>N SAPI 0 TEI 64 C REJ N(R)=9 P=1
028109c6 | U>N SAPI 0 TEI 64 R REJ N(R)=99 F=0
028109c7 | U>N SAPI 0 TEI 64 R REJ N(R)=99 F=1
00816f | U>N SAPI 0 TEI 64 C SABME P=0
00817f | U>N SAPI 0 TEI 64 C SABME P=1
02810f | U>N SAPI 0 TEI 64 R DM F=0
02811f | U>N SAPI 0 TEI 64 R DM F=1
008103 | U>N SAPI 0 TEI 64 C UI P=0
008113 | U>N SAPI 0 TEI 64 C UI P=1
008143 | U>N SAPI 0 TEI 64 C DISC P=0
008153 | U>N SAPI 0 TEI 64 C DISC P=1
028163 | U>N SAPI 0 TEI 64 R UA F=0
028173 | U>N SAPI 0 TEI 64 R UA F=1
0281877f00020401 | U>N SAPI 0 TEI 64 R FRMR F=0 info=7f00020401
0281977f00020401 | U>N SAPI 0 TEI 64 R FRMR F=1 info=7f00020401
0081affe | U>N SAPI 0 TEI 64 C XID P=0 info=fe
0081bf | U>N SAPI 0 TEI 64 C XID P=1
0281af | U>N SAPI 0 TEI 64 R XID F=0
0281bf | U>N SAPI 0 TEI 64 R XID F=1
401302040802 | U>N SAPI 16 TEI 9 C I N(S)=1 N(R)=2 P=0 info=0802
42010101 | U>N SAPI 16 TEI 0 R RR N(R)=0 F=1
fcff030f1234ff81 | U>N SAPI 63 TEI 127 C UI P=0 info=0f1234ff81
02810204 | N>U SAPI 0 TEI 64 C I N(S)=1 N(R)=2 P=0
0281feff | N>U SAPI 0 TEI 64 C I N(S)=127 N(R)=127 P=1
02810100 | N>U SAPI 0 TEI 64 C RR N(R)=0 P=0
02810101 | N>U SAPI 0 TEI 64 C RR N(R)=0 P=1
00810114 | N>U SAPI 0 TEI 64 R RR N(R)=10 F=0
00810101 | N>U SAPI 0 TEI 64 R RR N(R)=0 F=1
02810502 | N>U SAPI 0 TEI 64 C RNR N(R)=1 P=0
02810503 | N>U SAPI 0 TEI 64 C RNR N(R)=1 P=1
008105c8 | N>U SAPI 0 TEI 64 R RNR N(R)=100 F=0
008105c9 | N>U SAPI 0 TEI 64 R RNR N(R)=100 F=1
02810912 | N>U SAPI 0 TEI 64 C REJ N(R)=9 P=0
02810913 | N>U SAPI 0 TEI 64 C REJ N(R)=9 P=1
008109c6 | N>U SAPI 0 TEI 64 R REJ N(R)=99 F=0
008109c7 | N>U SAPI 0 TEI 64 R REJ N(R)=99 F=1
02816f | N>U SAPI 0 TEI 64 C SABME P=0
02817f | N>U SAPI 0 TEI 64 C SABME P=1
00810f | N>U SAPI 0 TEI 64 R DM F=0
00811f | N>U SAPI 0 TEI 64 R DM F=1
028103 | N>U SAPI 0 TEI 64 C UI P=0
028113 | N>U SAPI 0 TEI 64 C UI P=1
028143 | N>U SAPI 0 TEI 64 C DISC P=0
028153 | N>U SAPI 0 TEI 64 C DISC P=1
008163 | N>U SAPI 0 TEI 64 R UA F=0
008173 | N>U SAPI 0 TEI 64 R UA F=1
0081877f00020401 | N>U SAPI 0 TEI 64 R FRMR F=0 info=7f00020401
0081977f00020401 | N>U SAPI 0 TEI 64 R FRMR F=1 info=7f00020401
0281affe | N>U SAPI 0 TEI 64 C XID P=0 info=fe
0281bf | N>U SAPI 0 TEI 64 C XID P=1
0081af | N>U SAPI 0 TEI 64 R XID F=0
0081bf | N>U SAPI 0 TEI 64 R XID F=1
42c713 | N>U SAPI 16 TEI 99 C UI P=1
40010909 | N>U SAPI 16 TEI 0 R REJ N(R)=4 F=1
feff030f12340281 | N>U SAPI 63 TEI 127 C UI P=0 info=0f12340281

# Numbers and the P bit at their edges, in each field of two octets.
00810000 | U>N SAPI 0 TEI 64 C I N(S)=0 N(R)=0 P=0
00810200 | U>N SAPI 0 TEI 64 C I N(S)=1 N(R)=0 P=0
0081fe00 | U>N SAPI 0 TEI 64 C I N(S)=127 N(R)=0 P=0
00810500 | U>N SAPI 0 TEI 64 C RNR N(R)=0 P=0
00810900 | U>N SAPI 0 TEI 64 C REJ N(R)=0 P=0
00810001 | U>N SAPI 0 TEI 64 C I N(S)=0 N(R)=0 P=1
00810201 | U>N SAPI 0 TEI 64 C I N(S)=1 N(R)=0 P=1
0081fe01 | U>N SAPI 0 TEI 64 C I N(S)=127 N(R)=0 P=1
00810501 | U>N SAPI 0 TEI 64 C RNR N(R)=0 P=1
00810901 | U>N SAPI 0 TEI 64 C REJ N(R)=0 P=1
00810002 | U>N SAPI 0 TEI 64 C I N(S)=0 N(R)=1 P=0
00810202 | U>N SAPI 0 TEI 64 C I N(S)=1 N(R)=1 P=0
0081fe02 | U>N SAPI 0 TEI 64 C I N(S)=127 N(R)=1 P=0
00810102 | U>N SAPI 0 TEI 64 C RR N(R)=1 P=0
00810902 | U>N SAPI 0 TEI 64 C REJ N(R)=1 P=0
00810003 | U>N SAPI 0 TEI 64 C I N(S)=0 N(R)=1 P=1
00810203 | U>N SAPI 0 TEI 64 C I N(S)=1 N(R)=1 P=1
0081fe03 | U>N SAPI 0 TEI 64 C I N(S)=127 N(R)=1 P=1
00810103 | U>N SAPI 0 TEI 64 C RR N(R)=1 P=1
00810903 | U>N SAPI 0 TEI 64 C REJ N(R)=1 P=1
008100fe | U>N SAPI 0 TEI 64 C I N(S)=0 N(R)=127 P=0
008102fe | U>N SAPI 0 TEI 64 C I N(S)=1 N(R)=127 P=0
0081fefe | U>N SAPI 0 TEI 64 C I N(S)=127 N(R)=127 P=0
008101fe | U>N SAPI 0 TEI 64 C RR N(R)=127 P=0
008105fe | U>N SAPI 0 TEI 64 C RNR N(R)=127 P=0
008109fe | U>N SAPI 0 TEI 64 C REJ N(R)=127 P=0
008100ff | U>N SAPI 0 TEI 64 C I N(S)=0 N(R)=127 P=1
008102ff | U>N SAPI 0 TEI 64 C I N(S)=1 N(R)=127 P=1
008101ff | U>N SAPI 0 TEI 64 C RR N(R)=127 P=1
008105ff | U>N SAPI 0 TEI 64 C RNR N(R)=127 P=1
008109ff | U>N SAPI 0 TEI 64 C REJ N(R)=127 P=1

# Information, and other addresses.
00810500 | N>U SAPI 0 TEI 64 R RNR N(R)=0 F=0
00810900 | N>U SAPI 0 TEI 64 R REJ N(R)=0 F=0
008100000801 | U>N SAPI 0 TEI 64 C I N(S)=0 N(R)=0 P=0 info=0801
fcff030f123401ff | U>N SAPI 63 TEI 127 C UI P=0 info=0f123401ff
fc81af | N>U SAPI 63 TEI 64 R XID F=0
fc8103 | U>N SAPI 63 TEI 64 C UI P=0
428103 | N>U SAPI 16 TEI 64 C UI P=0
428173 | U>N SAPI 16 TEI 64 R UA F=1
000103 | U>N SAPI 0 TEI 0 C UI P=0
000303 | U>N SAPI 0 TEI 1 C UI P=0
00ff03 | U>N SAPI 0 TEI 127 C UI P=0

# Fewer octets than an address and a control field have, first with wrong extension bits; then half a field of two octets.
 | U>N F1 TooShort
00 | U>N F1 TooShort 00
0081 | U>N F1 TooShort 0081
0180 | U>N F1 TooShort 0180
008100 | U>N F1 TooShort 008100
008102 | U>N F1 TooShort 008102
0081fe | U>N F1 TooShort 0081fe
008101 | U>N F1 TooShort 008101
008105 | U>N F1 TooShort 008105
008109 | U>N F1 TooShort 008109
00810d | U>N F1 TooShort 00810d
008111 | U>N F1 TooShort 008111
028100 | U>N F1 TooShort 028100
048100 | U>N F1 TooShort 048100

# A wrong extension bit, also before half a field and before the service access point.
01817f | U>N F2 BadAddress 01817f
01817f | N>U F2 BadAddress 01817f
00807f | U>N F2 BadAddress 00807f
03807f | U>N F2 BadAddress 03807f
04807f | U>N F2 BadAddress 04807f
05817f | U>N F2 BadAddress 05817f
058100 | U>N F2 BadAddress 058100

# A service access point that is not served, before the control field and the information.
04817f | U>N F3 SapiNotServed 04817f
04817f | N>U F3 SapiNotServed 04817f
3c817f | U>N F3 SapiNotServed 3c817f
44817f | U>N F3 SapiNotServed 44817f
faff7f | U>N F3 SapiNotServed faff7f
04811100 | U>N F3 SapiNotServed 04811100
04817f00 | U>N F3 SapiNotServed 04817f00

# No such S frame, then reserved bits of RR, RNR and REJ.
00810d00 | U>N F4 Undefined 00810d00 | SAPI 0 TEI 64 C
00811100 | U>N F4 Undefined 00811100 | SAPI 0 TEI 64 C
00812100 | U>N F4 Undefined 00812100 | SAPI 0 TEI 64 C
00814100 | U>N F4 Undefined 00814100 | SAPI 0 TEI 64 C
00818100 | U>N F4 Undefined 00818100 | SAPI 0 TEI 64 C
00811500 | U>N F4 Undefined 00811500 | SAPI 0 TEI 64 C
00811900 | U>N F4 Undefined 00811900 | SAPI 0 TEI 64 C
0081f100 | U>N F4 Undefined 0081f100 | SAPI 0 TEI 64 C

# No such U frame, alone and with an octet behind it.
008107 | U>N F4 Undefined 008107 | SAPI 0 TEI 64 C
00810b | U>N F4 Undefined 00810b | SAPI 0 TEI 64 C
008123 | U>N F4 Undefined 008123 | SAPI 0 TEI 64 C
00812f | U>N F4 Undefined 00812f | SAPI 0 TEI 64 C
008147 | U>N F4 Undefined 008147 | SAPI 0 TEI 64 C
00816b | U>N F4 Undefined 00816b | SAPI 0 TEI 64 C
008183 | U>N F4 Undefined 008183 | SAPI 0 TEI 64 C
0081e3 | U>N F4 Undefined 0081e3 | SAPI 0 TEI 64 C
0081ff | U>N F4 Undefined 0081ff | SAPI 0 TEI 64 C
00810700 | U>N F4 Undefined 00810700 | SAPI 0 TEI 64 C
0281ff00 | U>N F4 Undefined 0281ff00 | SAPI 0 TEI 64 R
40c900c9 | N>U F4 Undefined 40c900c9 | SAPI 16 TEI 100 R

# Commands sent as responses, then responses sent as commands.
02817f | U>N F4 Undefined 02817f | SAPI 0 TEI 64 R
00817f | N>U F4 Undefined 00817f | SAPI 0 TEI 64 R
02810000 | U>N F4 Undefined 02810000 | SAPI 0 TEI 64 R
028103 | U>N F4 Undefined 028103 | SAPI 0 TEI 64 R
02815300 | U>N F4 Undefined 02815300 | SAPI 0 TEI 64 R
008163 | U>N F4 Undefined 008163 | SAPI 0 TEI 64 C
008173 | U>N F4 Undefined 008173 | SAPI 0 TEI 64 C
02811f00 | N>U F4 Undefined 02811f00 | SAPI 0 TEI 64 C
02819700 | N>U F4 Undefined 02819700 | SAPI 0 TEI 64 C

# Information in SABME, DISC, DM and UA.
00817f00 | U>N F5 InfoNotPermitted 00817f00 | SAPI 0 TEI 64 C
00816f01 | U>N F5 InfoNotPermitted 00816f01 | SAPI 0 TEI 64 C
00814300 | U>N F5 InfoNotPermitted 00814300 | SAPI 0 TEI 64 C
02811f00 | U>N F5 InfoNotPermitted 02811f00 | SAPI 0 TEI 64 R
028173abcdef | U>N F5 InfoNotPermitted 028173abcdef | SAPI 0 TEI 64 R
00817300 | N>U F5 InfoNotPermitted 00817300 | SAPI 0 TEI 64 R

# An S frame of five octets; a frame reject with none, one, four and six octets of information.
0081010000 | U>N F6 WrongSize 0081010000 | SAPI 0 TEI 64 C
0081010100 | U>N F6 WrongSize 0081010100 | SAPI 0 TEI 64 C
028197 | U>N F6 WrongSize 028197 | SAPI 0 TEI 64 R
008187 | N>U F6 WrongSize 008187 | SAPI 0 TEI 64 R
00819700 | N>U F6 WrongSize 00819700 | SAPI 0 TEI 64 R
0281977f000204 | U>N F6 WrongSize 0281977f000204 | SAPI 0 TEI 64 R
008197010203040506 | N>U F6 WrongSize 008197010203040506 | SAPI 0 TEI 64 R

# N201 octets of information are a frame, and one more is F7.
008113+260*aa | U>N SAPI 0 TEI 64 C UI P=1 info=+260*aa
0081af+260*aa | U>N SAPI 0 TEI 64 C XID P=0 info=+260*aa
0281bf+260*aa | U>N SAPI 0 TEI 64 R XID F=1 info=+260*aa
00810200+260*aa | U>N SAPI 0 TEI 64 C I N(S)=1 N(R)=0 P=0 info=+260*aa
008113aa+260*aa | U>N F7 InfoTooLong 008113aa+260*aa | SAPI 0 TEI 64 C
0081afaa+260*aa | U>N F7 InfoTooLong 0081afaa+260*aa | SAPI 0 TEI 64 C
0281bfaa+260*aa | U>N F7 InfoTooLong 0281bfaa+260*aa | SAPI 0 TEI 64 R
00810200aa+260*aa | U>N F7 InfoTooLong 00810200aa+260*aa | SAPI 0 TEI 64 C
00810204+100000*aa | U>N F7 InfoTooLong 00810204+100000*aa | SAPI 0 TEI 64 C

# A fault of the field or of the information is looked for before the length.
028113aa+260*aa | U>N F4 Undefined 028113aa+260*aa | SAPI 0 TEI 64 R
00817faa+260*aa | U>N F5 InfoNotPermitted 00817faa+260*aa | SAPI 0 TEI 64 C
028197aa+260*aa | U>N F6 WrongSize 028197aa+260*aa | SAPI 0 TEI 64 R
00810100aa+260*aa | U>N F6 WrongSize 00810100aa+260*aa | SAPI 0 TEI 64 C
";

/// The octets of a row, and the expected text.
#[derive(Drop)]
struct Octets {
    alloc: Global,
}

impl Subject for Octets {
    fn preserves(&mut self, row: &'static str, made: &mut Text) -> bool {
        let (mark, count) = if row.contains("+100000*aa") {
            ("+100000*aa", 100_000)
        } else {
            ("+260*aa", 260)
        };
        match with_octets(self.alloc, row, mark, count) {
            Some(row) => is_so(self.alloc, row.as_str(), made),
            None => false,
        }
    }
}

/// Whether the line of octets is the text of a row after ` | `.
fn is_so(alloc: Global, row: &str, made: &mut Text) -> bool {
    let (digits, reported) = split(row, " | ");
    match hex::decode(alloc, digits) {
        Ok(octets) => are_so(alloc, octets.as_slice(), reported, made),
        Err(_) => false,
    }
}

/// Whether the line of these octets is this text, and they are read as a frame, or as a fault with
/// the address after ` | `.
fn are_so(alloc: Global, octets: &[u8], reported: &str, made: &mut Text) -> bool {
    let (text, address) = split(reported, " | ");
    let from = if text.starts_with("U") {
        Side::User
    } else {
        Side::Network
    };
    if !prints(alloc, from, octets, text, made) {
        return false;
    }
    let so = is_read(octets, from, address);
    if !so {
        made.put_first("other fields, or another address");
    }
    so
}

/// Whether the line of these octets is this text, and is allocated once.
fn prints(alloc: Global, from: Side, octets: &[u8], text: &str, made: &mut Text) -> bool {
    match line(alloc, from, octets) {
        Ok(printed) => {
            let room = octets.len().wrapping_mul(2).wrapping_add(43);
            let so = printed.as_str() == text && printed.capacity() == room;
            if !so {
                made.put_first(printed.as_str());
            }
            so
        }
        Err(_) => false,
    }
}

/// Whether these octets are a frame that is written as the same octets, as is the frame made of its
/// fields; or have a fault with this address, and no frame is made of their fields.
fn is_read(octets: &[u8], from: Side, address: &str) -> bool {
    match (read(octets, from), made(octets, from)) {
        (Ok(frame), Some(Ok(made))) => {
            is_written(&frame, from, octets) && is_written(&made, from, octets)
        }
        (Err(fault), Some(Err(kind))) => fault.kind == kind && has_address(&fault, address),
        (Err(fault), None) => has_address(&fault, address),
        _ => false,
    }
}

/// Whether the frame is written as these octets, and the octets after them are unchanged.
fn is_written(frame: &Frame<'_>, from: Side, octets: &[u8]) -> bool {
    let mut out = [0x5a; MOST_OCTETS];
    let length = write(frame, from, &mut out);
    out.get(..length) == Some(octets) && out.get(length..) == [0x5a; MOST_OCTETS].get(length..)
}

/// The frame made of the fields in these octets, or its fault; `None` if they do not have both an
/// address and a control field.
fn made<'a>(octets: &'a [u8], from: Side) -> Option<Result<Frame<'a>, FaultKind>> {
    match octets {
        [first, second, behind @ ..] => {
            match (
                Address::read([*first, *second], from),
                Control::read(behind),
            ) {
                (Ok(address), Ok((control, length))) => {
                    let info = behind.get(length..).unwrap_or(&[]);
                    Some(Frame::new(address, control, info))
                }
                (Err(fault), Ok(_)) | (Ok(_), Err(fault)) => Some(Err(FaultKind::from(fault))),
                _ => None,
            }
        }
        _ => None,
    }
}

/// Whether a fault has this address, or no address if the text is empty.
fn has_address(fault: &FrameFault, wanted: &str) -> bool {
    let mut text = Text::new();
    if let Some(address) = fault.address {
        text.shown("SAPI ", &address.sapi);
        text.shown(" TEI ", &address.tei);
        text.put(if address.role == Role::Command {
            " C"
        } else {
            " R"
        });
    }
    text.is(wanted)
}

/// The first wrong row of frames.
pub(crate) fn wrong(alloc: Global, made: &mut Text) -> Option<&'static str> {
    read_as_spelled();
    one_spelling();
    one_frame();
    if N201 != 260 || MOST_OCTETS != 264 {
        return Some("N201: its value");
    }
    wrong_row(&mut Octets { alloc }, LINES, made)
}
