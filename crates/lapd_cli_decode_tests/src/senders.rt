//! Captures that do not name the senders of their frames, and frames of all SAPIs.

use crate::read::{are_lines, are_separated, parts_of};
use lapd_cli_decode::{
    CaptureReader, CaptureStop, CaptureStyle, Drawing, FrameStyle, Layout, LineForm, LinesStyle,
    ReadFault, Seen, Side, Style, decode_capture, print_lines,
};
use lapd_cli_script::ScriptFault;
use lapd_test_text::{all_hold, wants};
use std::alloc::Global;
use std::io;
use std::test::Fail;

// A name, a capture of link type 203, of GSMTAP or of link type 177 with addresses of the length 0,
// and the printed lines, separated by tildes.
const ROWS: &str = "\
kinds|d4c3b2a102000400000000000000000000000400cb00000001000000d0070000030000000300000000817f01000000d0070000030000000300000000817301000000d0070000060000000600000000810000080101000000d007000004000000040000000081010201000000d0070000060000000600000002810002080701000000d007000004000000040000000281050301000000d007000004000000040000000281090201000000d007000004000000040000000081afaa01000000d0070000030000000300000040ff0301000000d00700000400000004000000fefd030101000000d0070000030000000300000002810f01000000d0070000030000000300000000811f01000000d0070000030000000300000002815301000000d0070000080000000800000002819701020304ff01000000d0070000030000000300000000818701000000d0070000040000000400000000817f0001000000d007000003000000030000000081ff01000000d00700000500000005000000008101020001000000d0070000030000000300000001817f01000000d00700000200000002000000008101000000d0070000030000000300000006817f|U>N SAPI 0 TEI 64 C SABME P=1~N>U SAPI 0 TEI 64 R UA F=1~U>N SAPI 0 TEI 64 C I N(S)=0 N(R)=0 P=0 info=0801~?>? SAPI 0 TEI 64 ? RR N(R)=1 P/F=0~N>U SAPI 0 TEI 64 C I N(S)=0 N(R)=1 P=0 info=0807~?>? SAPI 0 TEI 64 ? RNR N(R)=1 P/F=1~?>? SAPI 0 TEI 64 ? REJ N(R)=1 P/F=0~?>? SAPI 0 TEI 64 ? XID P/F=0 info=aa~U>N SAPI 16 TEI 127 C UI P=0~N>U SAPI 63 TEI 126 C UI P=0 info=01~U>N SAPI 0 TEI 64 R DM F=0~N>U SAPI 0 TEI 64 R DM F=1~N>U SAPI 0 TEI 64 C DISC P=1~U>N SAPI 0 TEI 64 R FRMR F=1 info=01020304ff~N>U F6 WrongSize 008187~U>N F5 InfoNotPermitted 00817f00~?>? F4 Undefined 0081ff~?>? F6 WrongSize 0081010200~?>? F2 BadAddress 01817f~?>? F1 TooShort 0081~N>U F3 SapiNotServed 06817f
cut|d4c3b2a102000400000000000000000000000400cb00000001000000d0070000040000000900000000810102|?>? SAPI 0 TEI 64 ? RR N(R)=1 P/F=0 [cut]
GSMTAP|d4c3b2a102000400000000000000000000000400e400000001000000d00700002f0000002f0000004500002f12340000ff1100000a0101010a02020212791279001b00000204130000000000000000000100000000817f01000000d00700002f0000002f0000004500002f12340000ff1100000a0101010a02020212791279001b00000204130000000000000000000100000000817301000000d007000030000000300000004500003012340000ff1100000a0101010a02020212791279001c0000020413000000000000000000010000000081010201000000d007000030000000300000004500003012340000ff1100000a0101010a02020212791279001c0000020413004000000000000000010000000081010301000000d007000030000000300000004500003012340000ff1100000a0101010a02020212791279001c0000020413000000000000000000010000000081010301000000d00700002f0000002f0000004500002f12340000ff1100000a0101010a02020212791279001b00000204130000000000000000000100000000817f|U>N SAPI 0 TEI 64 C SABME P=1~N>U SAPI 0 TEI 64 R UA F=1~?>? SAPI 0 TEI 64 ? RR N(R)=1 P/F=0~U>N SAPI 0 TEI 64 C RR N(R)=1 P=1~N>U SAPI 0 TEI 64 R RR N(R)=1 F=1~N>U F4 Undefined 00817f
Wireshark, the user|d4c3b2a102000400000000000000000000000400b100000001000000d00700001400000014000000000000000000000000000000000000300081010201000000d00700001400000014000000000400000000000000000000000000300081010201000000d007000014000000140000000000000000000000000000000000003000810102|?>? SAPI 0 TEI 64 ? RR N(R)=1 P/F=0~U>N SAPI 0 TEI 64 C RR N(R)=1 P=0~N>U SAPI 0 TEI 64 R RR N(R)=1 F=0";

// The same as objects.
const OBJECTS: &str =
    r#"objects|d4c3b2a102000400000000000000000000000400cb00000001000000d007000004000000040000000081010201000000d007000004000000090000000281050301000000d007000004000000040000000081afaa01000000d007000003000000030000000081ff01000000d00700000300000003000000008173|{"frame":"RR","nr":1,"packet":1,"pf":0,"sapi":0,"tei":64,"time":"1.002000"}~{"cut":true,"frame":"RNR","nr":1,"packet":2,"pf":1,"sapi":0,"tei":64,"time":"1.002000"}~{"frame":"XID","info":"aa","packet":3,"pf":0,"sapi":0,"tei":64,"time":"1.002000"}~{"fault":"F4 Undefined","octets":"0081ff","packet":4,"time":"1.002000"}~{"direction":"N>U","f":1,"frame":"UA","packet":5,"role":"response","sapi":0,"tei":64,"time":"1.002000"}"#;

// The same if --sender names the network.
const SENT: &str = "\
the network|d4c3b2a102000400000000000000000000000400cb00000001000000d007000004000000040000000081010201000000d0070000030000000300000000817f01000000d00700000300000003000000008173|N>U SAPI 0 TEI 64 R RR N(R)=1 F=0~N>U F4 Undefined 00817f~N>U SAPI 0 TEI 64 R UA F=1
GSMTAP|d4c3b2a102000400000000000000000000000400e400000001000000d007000030000000300000004500003012340000ff1100000a0101010a02020212791279001c0000020413000000000000000000010000000081010201000000d00700002f0000002f0000004500002f12340000ff1100000a0101010a02020212791279001b00000204130040000000000000000100000000817f|N>U SAPI 0 TEI 64 R RR N(R)=1 F=0~U>N SAPI 0 TEI 64 C SABME P=1";

// The same, if each header names the sender.
const NAMED: &str = "\
Wireshark, the network|d4c3b2a102000400000000000000000000000400b100000001000000d00700001400000014000000000000000000010000000000000000300081010201000000d007000014000000140000000004000000000100000000000000003000810102|U>N SAPI 0 TEI 64 C RR N(R)=1 P=0~N>U SAPI 0 TEI 64 R RR N(R)=1 F=0";

/// The report that a capture does not name a sender.
pub(crate) const NOTE: &[u8] =
    b"the capture does not name each sender: it is taken from the kind and C/R bit of the frame, or printed as ?; --sender names it\n";

#[test]
fn unnamed_senders_are_taken_from_kinds(rt: HostRuntime) -> Result<(), Fail> {
    let plain = CaptureStyle {
        frames: FrameStyle::PLAIN,
        sender: None,
        keeps_going: false,
    };
    let objects = CaptureStyle {
        frames: FrameStyle {
            style: Style::Json,
            ..FrameStyle::PLAIN
        },
        ..plain
    };
    let sent = CaptureStyle {
        sender: Some(Side::Network),
        ..plain
    };
    rows_hold(rt.alloc(), ROWS, plain, NOTE)?;
    rows_hold(rt.alloc(), OBJECTS, objects, NOTE)?;
    rows_hold(rt.alloc(), SENT, sent, b"")?;
    rows_hold(rt.alloc(), NAMED, plain, b"")
}

/// Whether captures are printed so, with this report.
pub(crate) fn rows_hold(
    alloc: Global,
    rows: &str,
    how: CaptureStyle,
    report: &[u8],
) -> Result<(), Fail> {
    for row in rows.lines() {
        let mut fields = row.split('|');
        let _name = fields.next();
        let digits = fields.next().unwrap_or("");
        let lines = fields.next().unwrap_or("");
        let so = row_holds(alloc, digits, how, lines, report);
        wants(so, row, "its lines, or its report")?;
    }
    Ok(())
}

fn row_holds(alloc: Global, digits: &str, how: CaptureStyle, lines: &str, report: &[u8]) -> bool {
    let mut printed = Vec::new(alloc);
    let mut reported = Vec::new(alloc);
    let ended = print_capture(alloc, digits, &mut printed, &mut reported, how);
    ended.is_ok() && are_separated(printed.as_slice(), lines, '~') && reported.as_slice() == report
}

// How printing a capture ends.
fn print_capture(
    alloc: Global,
    digits: &str,
    printed: &mut Vec<u8>,
    reported: &mut Vec<u8>,
    how: CaptureStyle,
) -> Result<Seen, CaptureStop> {
    let octets = hex::decode(alloc, digits.as_bytes()).map_err(|_| CaptureStop::Memory)?;
    match CaptureReader::new(alloc, parts_of(octets.as_slice(), 7)) {
        Ok(mut capture) => decode_capture(alloc, &mut capture, printed, reported, how),
        Err(ReadFault::Capture(fault)) => Err(CaptureStop::Capture(fault, 0)),
        Err(ReadFault::Device(kind)) => Err(CaptureStop::Input(kind)),
        Err(ReadFault::Memory) => Err(CaptureStop::Memory),
    }
}

// A capture of link type 203, and its ladder, with tildes between the lines.
const DRAWN_CAPTURE: &str =
    "d4c3b2a102000400000000000000000000000400cb00000001000000d0070000030000000300000000817f01000000d007000004000000040000000081010201000000d0070000030000000300000000817301000000d007000003000000030000000081ff01000000d007000004000000040000000081afaa";

const LADDER: &str = "\
packet       user |                                                | network\
~     1            |-- 0 64 SABME P=1 ----------------------------->|\
~     2            |?- 0 64 RR N(R)=1 P/F=0 -----------------------?|\
~     3            |<-- 0 64 UA F=1 --------------------------------|\
~     4            |?- F4 Undefined 0081ff ------------------------?|\
~     5            |?- 0 64 XID P/F=0 info=aa ---------------------?|";

// One more, and its picture without the beginning and the end.
const PICTURED_CAPTURE: &str =
    "d4c3b2a102000400000000000000000000000400cb00000001000000d0070000040000000400000000810102";

const PICTURE: &str =
    r##"<style>svg{height:1000px}</style><g transform="translate(0 0000)"><rect width="940" height="1000" class="page"/><text x="60" y="40" class="end">packet</text><text x="190" y="40" class="end">time</text><text x="310" y="40" class="middle">user</text><text x="810" y="40" class="middle">network</text><text x="470" y="990" class="middle">1</text></g>~<g transform="translate(0 0000)"><g transform="translate(0 80)"><path d="M310-20v36M810-20v36M326 0H794"/><text x="315" y="4">?</text><text x="798" y="4">?</text><text x="60" class="end">1</text><text x="190" class="end"></text><text x="300" class="end"></text><text x="820"></text><text x="560" y="-5" class="middle">0 64 RR N(R)=1 P/F=0</text><text x="560" y="12" class="middle note"></text></g></g>"##;

#[test]
fn frames_of_unknown_senders_are_lines_without_heads(rt: HostRuntime) -> Result<(), Fail> {
    let ladder = draws(rt.alloc(), Drawing::Ladder, DRAWN_CAPTURE, LADDER);
    let picture = draws(rt.alloc(), Drawing::Picture, PICTURED_CAPTURE, PICTURE);
    all_hold(&[
        (ladder, "--ladder", "its lines"),
        (picture, "--svg", "its picture"),
    ])
}

// Whether a capture is drawn so.
fn draws(alloc: Global, drawing: Drawing, digits: &str, lines: &str) -> bool {
    let how = CaptureStyle {
        frames: FrameStyle {
            layout: Layout::Drawn(drawing),
            ..FrameStyle::PLAIN
        },
        sender: None,
        keeps_going: false,
    };
    row_holds(alloc, digits, how, lines, NOTE)
}

// Lines with SAPIs that are served and others, and their printed lines.
const SCRIPT: &str = "\
net 06817f
user 04810102
user fc810102
net 04817f
user 0581
user
net f6ff000408010203
";

const ANY_LINES: &str = "\
N>U SAPI 1 TEI 64 C SABME P=1/U>N SAPI 1 TEI 64 C RR N(R)=1 P=0/U>N SAPI 63 TEI 64 C RR N(R)=1 P=0\
/N>U F4 Undefined 04817f/U>N F1 TooShort 0581/U>N F1 TooShort\
/N>U SAPI 61 TEI 127 C I N(S)=0 N(R)=2 P=0 info=08010203";

const ANY_OBJECTS: &str =
    r#"{"direction":"N>U","frame":"SABME","p":1,"role":"command","sapi":1,"tei":64}/{"direction":"U>N","frame":"RR","nr":1,"p":0,"role":"command","sapi":1,"tei":64}/{"direction":"U>N","frame":"RR","nr":1,"p":0,"role":"command","sapi":63,"tei":64}/{"direction":"N>U","fault":"F4 Undefined","octets":"04817f"}/{"direction":"U>N","fault":"F1 TooShort","octets":"0581"}/{"direction":"U>N","fault":"F1 TooShort"}/{"direction":"N>U","frame":"I","info":"08010203","nr":2,"ns":0,"p":0,"role":"command","sapi":61,"tei":127}"#;

#[test]
fn frames_of_any_sapi_are_printed(rt: HostRuntime) -> Result<(), Fail> {
    let named = prints(rt.alloc(), Style::Named, ANY_LINES);
    let objects = prints(rt.alloc(), Style::NamedJson, ANY_OBJECTS);
    all_hold(&[
        (named, "--any-sapi", "its lines"),
        (objects, "--any-sapi --json", "its objects"),
    ])
}

// Whether the script is printed so.
fn prints(alloc: Global, style: Style, lines: &str) -> bool {
    let mut printed = Vec::new(alloc);
    let ended = print_script(alloc, style, &mut printed);
    ended == Ok(false) && are_lines(printed.as_slice(), lines)
}

fn print_script(alloc: Global, style: Style, printed: &mut Vec<u8>) -> Result<bool, ScriptFault> {
    let how = LinesStyle {
        form: LineForm::Strict,
        frames: FrameStyle {
            style,
            any_sapi: true,
            ..FrameStyle::PLAIN
        },
        keeps_going: false,
        follow: None,
    };
    let mut script = SCRIPT.as_bytes();
    print_lines(alloc, &mut script, printed, how, io::sink())
}
