//! Lines in colors.

use crate::read::are_lines;
use crate::senders::{NOTE, rows_hold};
use lapd_cli_decode::{CaptureStyle, Follow, FrameStyle, LineForm, LinesStyle, Style, print_lines};
use lapd_cli_script::ScriptFault;
use lapd_test_text::all_hold;
use std::alloc::Global;
use std::io;
use std::test::Fail;

// The last UA has no cause.
const SCRIPT: &str = "\
user 00817f
net 008173
net 008173
";

const LINES: &str = "\
\x1b[36mU>N SAPI 0 TEI 64 C SABME P=1\x1b[0m\
/\x1b[32mN>U SAPI 0 TEI 64 R UA F=1; begins establishment 1; answers packet 1\x1b[0m\
/\x1b[31mN>U SAPI 0 TEI 64 R UA F=1; violation: UA without SABME or DISC\x1b[0m\
/SAPI 0 TEI 64: establishments 1\
/  U>N I 0, RR 0, RNR 0, REJ 0, SABME 1, DISC 0, UA 0, DM 0, UI 0, FRMR 0, XID 0\
/  U>N messages 0, octets 0, repeated 0, polls 1\
/  N>U I 0, RR 0, RNR 0, REJ 0, SABME 0, DISC 0, UA 2, DM 0, UI 0, FRMR 0, XID 0\
/  N>U messages 0, octets 0, repeated 0, polls 0";

const OBJECTS: &str =
    r#"{"direction":"U>N","frame":"SABME","p":1,"role":"command","sapi":0,"tei":64}/{"direction":"N>U","f":1,"frame":"UA","role":"response","sapi":0,"tei":64}/{"direction":"N>U","f":1,"frame":"UA","role":"response","sapi":0,"tei":64}"#;

// A capture of link type 203.
const CAPTURE: &str = "\
link type 203|d4c3b2a102000400000000000000000000000400cb00000001000000d007000004000000040000000081010201000000d00700000300000003000000008173|\x1b[33m?>? SAPI 0 TEI 64 ? RR N(R)=1 P/F=0\x1b[0m~\x1b[32mN>U SAPI 0 TEI 64 R UA F=1\x1b[0m";

const COLORED: FrameStyle = FrameStyle {
    is_colored: true,
    ..FrameStyle::PLAIN
};

#[test]
fn lines_are_printed_in_colors(rt: HostRuntime) -> Result<(), Fail> {
    let follow = Some(Follow { k: None });
    let lines = prints(rt.alloc(), Style::Named, follow, LINES);
    let objects = prints(rt.alloc(), Style::Json, None, OBJECTS);
    all_hold(&[
        (lines, "--color always", "its lines"),
        (objects, "--color always --json", "its objects"),
    ])?;
    let how = CaptureStyle {
        frames: COLORED,
        sender: None,
        keeps_going: false,
    };
    rows_hold(rt.alloc(), CAPTURE, how, NOTE)
}

// Whether the script is printed so.
fn prints(alloc: Global, style: Style, follow: Option<Follow>, lines: &str) -> bool {
    let mut printed = Vec::new(alloc);
    let ended = print_script(alloc, style, follow, &mut printed);
    ended == Ok(follow.is_some()) && are_lines(printed.as_slice(), lines)
}

fn print_script(
    alloc: Global,
    style: Style,
    follow: Option<Follow>,
    printed: &mut Vec<u8>,
) -> Result<bool, ScriptFault> {
    let how = LinesStyle {
        form: LineForm::Strict,
        frames: FrameStyle { style, ..COLORED },
        keeps_going: false,
        follow,
    };
    let mut script = SCRIPT.as_bytes();
    print_lines(alloc, &mut script, printed, how, io::sink())
}
