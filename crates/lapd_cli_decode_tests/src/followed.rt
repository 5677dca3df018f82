//! Captures and lines whose links are followed.

use crate::read::{are_lines, parts_of};
use lapd_cli_decode::{
    CaptureReader, CaptureStop, CaptureStyle, Drawing, Follow, FrameStyle, FrameTime, Layout,
    LineForm, LinesStyle, ReadFault, Seen, Side, Style, follow_capture, print_lines,
};
use lapd_cli_script::ScriptFault;
use lapd_test_text::all_hold;
use std::alloc::Global;
use std::test::Fail;

// A SABME and, 23 ms later, its UA; then an RNR and, 1.25 s later, an RR.
const CAPTURE: &str = "\
d4c3b2a102000400000000000000000000000400b1000000\
01000000d00700001300000013000000000420fd00010000000000000000003000817f\
01000000a86100001300000013000000000020fd000100000000000000000030008173\
01000000307500001400000014000000000020fd00010000000000000000003000810500\
02000000c04504001400000014000000000020fd00010000000000000000003000810100";

// The same, but the UA has an octet that was not captured.
const CUT_CAPTURE: &str = "\
d4c3b2a102000400000000000000000000000400b1000000\
01000000d00700001300000013000000000420fd00010000000000000000003000817f\
01000000a86100001300000014000000000020fd000100000000000000000030008173";

// The same SABME and UA, then four polls that are answered after 5, 12, 14.5 and 120 ms.
const POLLED_CAPTURE: &str = "\
d4c3b2a102000400000000000000000000000400b1000000\
01000000d00700001300000013000000000420fd00010000000000000000003000817f\
01000000a86100001300000013000000000020fd000100000000000000000030008173\
02000000000000001400000014000000000420fd00010000000000000000003000810101\
02000000881300001400000014000000000020fd00010000000000000000003000810101\
03000000000000001400000014000000000420fd00010000000000000000003000810101\
03000000e02e00001400000014000000000020fd00010000000000000000003000810101\
04000000000000001400000014000000000420fd00010000000000000000003000810101\
04000000a43800001400000014000000000020fd00010000000000000000003000810101\
05000000000000001400000014000000000420fd00010000000000000000003000810101\
05000000c0d401001400000014000000000020fd00010000000000000000003000810101";

// A SABME and its UA, an I frame, an RR before which six frames are missing, and an I frame before
// which one is; as editcap of Wireshark 4.0 writes such a pcapng file.
const HOLES: &str = "\
0a0d0d0a6c0000004d3c2b1a01000000ffffffffffffffff0400450045646974636170202857697265736861\
726b2920342e302e313720284769742076342e302e3137207061636b6167656420617320342e302e31372d30\
2b6465623132753329000000000000006c0000000100000014000000b1000000000000001400000006000000\
340000000000000000000000104a0f001300000013000000000020fd00010100000000000000003000817f00\
3400000006000000340000000000000000000000e8a30f001300000013000000000420fd0001010000000000\
0000003000817300340000000600000038000000000000000000000080841e001600000016000000000020fd\
00010100000000000000003000810000080100003800000006000000440000000000000000000000c0c62d00\
1400000014000000000420fd0001010000000000000000300081010804000800060000000000000000000000\
4400000006000000480000000000000000000000e06735001600000016000000000020fd0001010000000000\
0000003000810800080100000400080001000000000000000000000048000000";

const LINES: &str = "\
U>N SAPI 0 TEI 64 C SABME P=1/N>U SAPI 0 TEI 64 R UA F=1; begins establishment 1; answers packet 1 in 0.023000 s\
/N>U SAPI 0 TEI 64 R RNR N(R)=0 F=0/N>U SAPI 0 TEI 64 R RR N(R)=0 F=0\
/SAPI 0 TEI 64: establishments 1\
/  U>N I 0, RR 0, RNR 0, REJ 0, SABME 1, DISC 0, UA 0, DM 0, UI 0, FRMR 0, XID 0\
/  U>N messages 0, octets 0, repeated 0, polls 1\
/  N>U I 0, RR 1, RNR 1, REJ 0, SABME 0, DISC 0, UA 1, DM 0, UI 0, FRMR 0, XID 0\
/  N>U messages 0, octets 0, repeated 0, polls 0, answers 1 after 0.023000 to 0.023000 s, middle 0.023000 to 0.023000 s, mean 0.023000 s, busy 1.250000 s";

const CUT_LINES: &str = "\
U>N SAPI 0 TEI 64 C SABME P=1/N>U SAPI 0 TEI 64 R UA F=1 [cut]; begins establishment 1; answers packet 1 in 0.023000 s\
/SAPI 0 TEI 64: establishments 1\
/  U>N I 0, RR 0, RNR 0, REJ 0, SABME 1, DISC 0, UA 0, DM 0, UI 0, FRMR 0, XID 0\
/  U>N messages 0, octets 0, repeated 0, polls 1\
/  N>U I 0, RR 0, RNR 0, REJ 0, SABME 0, DISC 0, UA 1, DM 0, UI 0, FRMR 0, XID 0\
/  N>U messages 0, octets 0, repeated 0, polls 0, answers 1 after 0.023000 to 0.023000 s, middle 0.023000 to 0.023000 s, mean 0.023000 s";

const POLLED_LINES: &str = "\
U>N SAPI 0 TEI 64 C SABME P=1/N>U SAPI 0 TEI 64 R UA F=1; begins establishment 1; answers packet 1 in 0.023000 s\
/U>N SAPI 0 TEI 64 C RR N(R)=0 P=1/N>U SAPI 0 TEI 64 R RR N(R)=0 F=1; answers packet 3 in 0.005000 s\
/U>N SAPI 0 TEI 64 C RR N(R)=0 P=1/N>U SAPI 0 TEI 64 R RR N(R)=0 F=1; answers packet 5 in 0.012000 s\
/U>N SAPI 0 TEI 64 C RR N(R)=0 P=1/N>U SAPI 0 TEI 64 R RR N(R)=0 F=1; answers packet 7 in 0.014500 s\
/U>N SAPI 0 TEI 64 C RR N(R)=0 P=1/N>U SAPI 0 TEI 64 R RR N(R)=0 F=1; answers packet 9 in 0.120000 s\
/SAPI 0 TEI 64: establishments 1\
/  U>N I 0, RR 4, RNR 0, REJ 0, SABME 1, DISC 0, UA 0, DM 0, UI 0, FRMR 0, XID 0\
/  U>N messages 0, octets 0, repeated 0, polls 5\
/  N>U I 0, RR 4, RNR 0, REJ 0, SABME 0, DISC 0, UA 1, DM 0, UI 0, FRMR 0, XID 0\
/  N>U messages 0, octets 0, repeated 0, polls 0, answers 5 after 0.005000 to 0.120000 s, middle 0.010000 to 0.020000 s, mean 0.034900 s";

const HOLES_LINES: &str = "\
U>N SAPI 0 TEI 64 C SABME P=1/N>U SAPI 0 TEI 64 R UA F=1; begins establishment 1; answers packet 1 in 0.023000 s\
/U>N SAPI 0 TEI 64 C I N(S)=0 N(R)=0 P=0 info=0801/6 frames are missing here\
/N>U SAPI 0 TEI 64 R RR N(R)=4 F=0/1 frame is missing here\
/U>N SAPI 0 TEI 64 C I N(S)=4 N(R)=0 P=0 info=0801\
/SAPI 0 TEI 64: establishments 1\
/  U>N I 2, RR 0, RNR 0, REJ 0, SABME 1, DISC 0, UA 0, DM 0, UI 0, FRMR 0, XID 0\
/  U>N messages 1, octets 4, repeated 0, polls 1, not followed 1\
/  N>U I 0, RR 1, RNR 0, REJ 0, SABME 0, DISC 0, UA 1, DM 0, UI 0, FRMR 0, XID 0\
/  N>U messages 0, octets 0, repeated 0, polls 0, answers 1 after 0.023000 to 0.023000 s, middle 0.023000 to 0.023000 s, mean 0.023000 s";

const HOLES_LADDER: &str = "\
packet         time       user |                                    | network\
/     1     0.000000 SABME sent |-- 0 64 SABME P=1 ----------------->| -\
/     2     0.023000      S0 R0 |<-- 0 64 UA F=1 --------------------| S0 R0\
/                               |  begins establishment 1            |\
/                               |  answers packet 1 in 0.023000 s    |\
/     3     0.998000      S1 R0 |-- 0 64 I N(S)=0 N(R)=0 P=0 inf.. ->| S0 R0\
/6 frames are missing here\
/     4     1.998000          - |<-- 0 64 RR N(R)=4 F=0 -------------| -\
/1 frame is missing here\
/     5     2.498000          - |-- 0 64 I N(S)=4 N(R)=0 P=0 inf.. ->| -";

// docs/call.pcap without its SABME and UA.
const MIDDLE: &str = "\
a1b2c3d400020004000000000000000000040000000000b1\
6b076f78000e7ef00000001e0000001e000420fd00010000000000000000003000810000080201010504038090a3\
6b076f78000e8e900000001400000014000020fd00010000000000000000003000810102\
6b076f7900018e700000001c0000001c000020fd00010000000000000000003002810002080281010218018a\
6b076f79000196400000001400000014000420fd00010000000000000000003002810102";

// A SABME and its UA, a DISC and its UA, and a DM.
const RELEASE: &str = "\
d4c3b2a102000400000000000000000000000400b1000000\
01000000000000001300000013000000000420fd00010000000000000000003000817f\
01000000204e00001300000013000000000020fd000100000000000000000030008173\
02000000000000001300000013000000000420fd000100000000000000000030008153\
02000000204e00001300000013000000000020fd000100000000000000000030008173\
03000000000000001300000013000000000020fd00010000000000000000003000810f";

const MIDDLE_LADDER: &str = "\
packet         time       user |                                    | network\
/     1     0.000000          - |-- 0 64 I N(S)=0 N(R)=0 P=0 inf.. ->| -\
/     2     0.004000          - |<-- 0 64 RR N(R)=1 F=0 -------------| -\
/     3     0.152000          - |<-- 0 64 I N(S)=0 N(R)=1 P=0 inf.. -| -\
/     4     0.154000      S1 R1 |-- 0 64 RR N(R)=1 F=0 ------------->| S1 R1\
/                               |  numbers known from here on        |";

const RELEASE_LADDER: &str = "\
packet         time       user |                                    | network\
/     1     0.000000 SABME sent |-- 0 64 SABME P=1 ----------------->| -\
/     2     0.020000      S0 R0 |<-- 0 64 UA F=1 --------------------| S0 R0\
/                               |  begins establishment 1            |\
/                               |  answers packet 1 in 0.020000 s    |\
/     3     1.000000  DISC sent |-- 0 64 DISC P=1 ------------------>| -\
/     4     1.020000          - |<-- 0 64 UA F=1 --------------------| -\
/                               |  ends establishment 1              |\
/                               |  answers packet 3 in 0.020000 s    |\
/     5     2.000000          - |<-- 0 64 DM F=0 --------------------| -";

const LADDER: &str = "\
packet         time       user |                                    | network\
/     1     0.000000 SABME sent |-- 0 64 SABME P=1 ----------------->| -\
/     2     0.023000      S0 R0 |<-- 0 64 UA F=1 --------------------| S0 R0\
/                               |  [cut]                             |\
/                               |  begins establishment 1            |\
/                               |  answers packet 1 in 0.023000 s    |";

const WIDE_LADDER: &str = "\
packet              time       user |                                    | network\
/     1          1.002000 SABME sent |-- 0 64 SABME P=1 ----------------->| -\
/     2          1.025000      S0 R0 |<-- 0 64 UA F=1 --------------------| S0 R0\
/                                    |  [cut]                             |\
/                                    |  begins establishment 1            |\
/                                    |  answers packet 1 in 0.023000 s    |";

const OBJECTS: &str =
    r#"{"direction":"U>N","frame":"SABME","p":1,"packet":1,"role":"command","sapi":0,"tei":64,"time":"1.002000","remarks":[]}/{"direction":"N>U","f":1,"frame":"UA","packet":2,"role":"response","sapi":0,"tei":64,"time":"1.025000","remarks":[{"class":"normal","clause":"5.5.1.2","text":"begins establishment 1"},{"class":"normal","clause":"3.5.1","text":"answers packet 1 in 0.023000 s"}]}/{"direction":"N>U","f":0,"frame":"RNR","nr":0,"packet":3,"role":"response","sapi":0,"tei":64,"time":"1.030000","remarks":[]}/{"direction":"N>U","f":0,"frame":"RR","nr":0,"packet":4,"role":"response","sapi":0,"tei":64,"time":"2.280000","remarks":[]}/{"establishments":1,"network":{"answers":{"count":1,"greatest":23000,"least":23000,"mean":23000,"middle":[23000,23000]},"busy":1250000,"disc":0,"dm":0,"frmr":0,"i":0,"messages":0,"octets":0,"polls":0,"rej":0,"repeated":0,"rnr":1,"rr":1,"sabme":0,"ua":1,"ui":0,"xid":0},"sapi":0,"tei":64,"user":{"disc":0,"dm":0,"frmr":0,"i":0,"messages":0,"octets":0,"polls":1,"rej":0,"repeated":0,"rnr":0,"rr":0,"sabme":1,"ua":0,"ui":0,"xid":0}}"#;

#[test]
fn captures_are_followed(rt: HostRuntime) -> Result<(), Fail> {
    let alloc = rt.alloc();
    all_hold(&[
        (
            prints(alloc, CAPTURE, Style::Plain, LINES),
            LINES,
            "its end, or its lines",
        ),
        (
            prints(alloc, CUT_CAPTURE, Style::Plain, CUT_LINES),
            CUT_LINES,
            "its end, or its lines",
        ),
        (
            prints(alloc, POLLED_CAPTURE, Style::Plain, POLLED_LINES),
            POLLED_LINES,
            "its end, or its lines",
        ),
        (
            prints(alloc, HOLES, Style::Plain, HOLES_LINES),
            HOLES_LINES,
            "its end, or its lines",
        ),
        (
            draws(alloc, HOLES, FrameTime::Relative, HOLES_LADDER),
            HOLES_LADDER,
            "its end, or its lines",
        ),
        (
            prints(alloc, CAPTURE, Style::Json, OBJECTS),
            OBJECTS,
            "its end, or its lines",
        ),
        (
            draws(alloc, CUT_CAPTURE, FrameTime::Relative, LADDER),
            LADDER,
            "its end, or its lines",
        ),
        (
            draws(alloc, MIDDLE, FrameTime::Relative, MIDDLE_LADDER),
            MIDDLE_LADDER,
            "its end, or its lines",
        ),
        (
            draws(alloc, RELEASE, FrameTime::Relative, RELEASE_LADDER),
            RELEASE_LADDER,
            "its end, or its lines",
        ),
        (
            draws(alloc, CUT_CAPTURE, FrameTime::Absolute, WIDE_LADDER),
            WIDE_LADDER,
            "its end, or its lines",
        ),
    ])
}

// Whether a capture is printed so in this style.
fn prints(alloc: Global, capture: &str, style: Style, lines: &str) -> bool {
    let frames = FrameStyle {
        style,
        ..FrameStyle::PLAIN
    };
    prints_so(alloc, capture, frames, lines)
}

// Whether a capture is drawn so, with these times.
fn draws(alloc: Global, capture: &str, time: FrameTime, lines: &str) -> bool {
    let frames = FrameStyle {
        layout: Layout::Drawn(Drawing::Ladder),
        time,
        ..FrameStyle::PLAIN
    };
    prints_so(alloc, capture, frames, lines)
}

// Whether a capture is printed so.
fn prints_so(alloc: Global, capture: &str, frames: FrameStyle, lines: &str) -> bool {
    match hex::decode(alloc, capture.as_bytes()) {
        Ok(octets) => {
            let mut printed = Vec::new(alloc);
            let ended = print_capture(alloc, octets.as_slice(), &mut printed, frames);
            is_heard(&ended) && are_lines(printed.as_slice(), lines)
        }
        Err(_) => false,
    }
}

// Whether a capture ended, with frames and with no violation.
fn is_heard(ended: &Result<Seen, CaptureStop>) -> bool {
    match ended {
        Ok(seen) => seen.any && !seen.is_violated,
        Err(_) => false,
    }
}

fn print_capture(
    alloc: Global,
    octets: &[u8],
    printed: &mut Vec<u8>,
    frames: FrameStyle,
) -> Result<Seen, CaptureStop> {
    let how = CaptureStyle {
        frames,
        sender: Some(Side::User),
        keeps_going: false,
    };
    let mut reported = Vec::new(alloc);
    match CaptureReader::new(alloc, parts_of(octets, 7)) {
        Ok(mut capture) => {
            let follow = Follow { k: Some(7) };
            follow_capture(alloc, &mut capture, printed, &mut reported, how, follow)
        }
        Err(ReadFault::Capture(fault)) => Err(CaptureStop::Capture(fault, 0)),
        Err(ReadFault::Device(kind)) => Err(CaptureStop::Input(kind)),
        Err(ReadFault::Memory) => Err(CaptureStop::Memory),
    }
}

// A UA for which there is no cause, and a bad line before it.
const LOOSE: &str = "\
> [ 00 81 7f ]
< [ 00 81 73 ]
hello
< [ 00 81 73 ]
";

const FOLLOWED: &str = "\
U>N SAPI 0 TEI 64 C SABME P=1/N>U SAPI 0 TEI 64 R UA F=1; begins establishment 1; answers packet 1\
/N>U SAPI 0 TEI 64 R UA F=1; violation: UA without SABME or DISC\
/SAPI 0 TEI 64: establishments 1\
/  U>N I 0, RR 0, RNR 0, REJ 0, SABME 1, DISC 0, UA 0, DM 0, UI 0, FRMR 0, XID 0\
/  U>N messages 0, octets 0, repeated 0, polls 1\
/  N>U I 0, RR 0, RNR 0, REJ 0, SABME 0, DISC 0, UA 2, DM 0, UI 0, FRMR 0, XID 0\
/  N>U messages 0, octets 0, repeated 0, polls 0";

#[test]
fn loose_lines_are_followed(rt: HostRuntime) -> Result<(), Fail> {
    let mut printed = Vec::new(rt.alloc());
    let mut reported = Vec::new(rt.alloc());
    let ended = follow_loose(rt.alloc(), &mut printed, &mut reported);
    all_hold(&[
        (ended == Ok(true), LOOSE, "its end"),
        (are_lines(printed.as_slice(), FOLLOWED), LOOSE, "its lines"),
        (
            reported.as_slice() == b"skipped: hello\n".as_slice(),
            LOOSE,
            "what is reported",
        ),
    ])
}

fn follow_loose(
    alloc: Global,
    printed: &mut Vec<u8>,
    reported: &mut Vec<u8>,
) -> Result<bool, ScriptFault> {
    let how = LinesStyle {
        form: LineForm::Loose(Some(Side::User)),
        frames: FrameStyle::PLAIN,
        keeps_going: true,
        follow: Some(Follow { k: None }),
    };
    let mut script = LOOSE.as_bytes();
    print_lines(alloc, &mut script, printed, how, &mut *reported)
}
