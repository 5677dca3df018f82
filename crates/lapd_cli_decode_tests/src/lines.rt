//! Lines of loose forms and their output, and lines that are skipped.

use crate::read::are_separated;
use lapd_cli_decode::{
    FrameStyle, LineForm, LinesStyle, Side, Style, decode_good_lines, decode_lines, print_lines,
};
use lapd_cli_script::ScriptFault;
use lapd_test_text::{all_hold, wants};
use std::alloc::Global;
use std::test::Fail;

// A loose line printed by the user side, and its trace line; nothing if it has no frame and is
// skipped, and `bad` if it is a bad line.
const LINES: &str = "\
user 00817f|U>N SAPI 0 TEI 64 C SABME P=1
user 00 81 7f|U>N SAPI 0 TEI 64 C SABME P=1
net 00:81:73|N>U SAPI 0 TEI 64 R UA F=1
user  00\t81 7f\r|U>N SAPI 0 TEI 64 C SABME P=1
user|U>N F1 TooShort
> [ 00 81 7f ]|U>N SAPI 0 TEI 64 C SABME P=1
< [ 00 81 73 ]|N>U SAPI 0 TEI 64 R UA F=1
> [ 02 81 01 01 ]|U>N SAPI 0 TEI 64 R RR N(R)=0 F=1
> 0x00|U>N F1 TooShort 00
net 0x00 0x81 0X73|N>U SAPI 0 TEI 64 R UA F=1
userx 00|
user 00 8|
user 00-81|
user 0x0x00|
nobody 00|
 user 00|";

// Lines of the logs of Asterisk and FreeSWITCH, and what else is in such logs.
const LOGS: &str = "\
PRI Span: 1 > [ 00 81 7f ]|U>N SAPI 0 TEI 64 C SABME P=1
[Nov 28 01:02:03] VERBOSE[42] chan_dahdi.c: PRI Span: 1 < [ 00 81 73 ]|N>U SAPI 0 TEI 64 R UA F=1
2026-11-28 01:02:03.4 [DEBUG] ftmod_libpri.c:9 [s1c16][1:16] > [ 00 81 7f ]|U>N SAPI 0 TEI 64 C SABME P=1
1 > [ 00 81 7f ]\r|U>N SAPI 0 TEI 64 C SABME P=1
user: 1 < [ 00 81 73 ] from [ 1 ]|N>U SAPI 0 TEI 64 R UA F=1
> [ 00 81 7f ] SABME|U>N SAPI 0 TEI 64 C SABME P=1
> [ 00 81 7f ] ff|U>N F5 InfoNotPermitted 00817fff
1 > [ 00 81 7f ] < [ 00 81 73 ]|U>N SAPI 0 TEI 64 C SABME P=1
a -> [x] b <- [] > [ 1 ] < [ 00 81 73 ]|N>U SAPI 0 TEI 64 R UA F=1
1 > [ 00 > [ 00 81 7f ]|U>N SAPI 0 TEI 64 C SABME P=1
0010  1 > [ 00 81 7f ]|U>N SAPI 0 TEI 64 C SABME P=1
1 > [ ]|
1 > [ 00 81 7f|
1 >[ 00 81 7f ]|
1 [ 00 81 7f ]|
1 > [00 81 7f]|
> [04 03 80 90 a3]|
<                     ]|
>]|
PRI Span: 1 < [18 03 a9 83 81]|
>[ 00 81 7f ]|U>N SAPI 0 TEI 64 C SABME P=1
> SAPI: 00  C/R: 0 EA: 0|
>  TEI: 000        EA: 1|
> 0 bytes of data|
PRI Span: 1 > Protocol Discriminator: Q.931 (8)  len=5|";

// Lines of logs and dumps whose printer is not chosen, here separated by slashes, and their trace
// lines, here separated by tildes: of both sides of libpri, and of lines without a mark.
const INFERRED: &str = "\
> [ 00 01 7f ]/< [ 00 01 73 ]/> [ 00 01 01 01 ]|U>N SAPI 0 TEI 0 C SABME P=1~N>U SAPI 0 TEI 0 R UA F=1~U>N SAPI 0 TEI 0 C RR N(R)=0 P=1
< [ 00 01 7f ]/> [ 00 01 73 ]/< [ 00 01 01 01 ]|U>N SAPI 0 TEI 0 C SABME P=1~N>U SAPI 0 TEI 0 R UA F=1~U>N SAPI 0 TEI 0 C RR N(R)=0 P=1
> [ 02 01 01 01 ]/> [ 00 01 00 00 08 ]/< [ 00 01 01 02 ]|?>? SAPI 0 TEI 0 ? RR N(R)=0 P/F=1~U>N SAPI 0 TEI 0 C I N(S)=0 N(R)=0 P=0 info=08~N>U SAPI 0 TEI 0 R RR N(R)=1 F=0
> [ 00 01 7f ]/< [ 00 01 7f ]/> [ 00 01 01 02 ]|U>N SAPI 0 TEI 0 C SABME P=1~N>U F4 Undefined 00017f~U>N SAPI 0 TEI 0 C RR N(R)=1 P=0
00 81 7f/00 81 01 01/user 00 81 01 01|U>N SAPI 0 TEI 64 C SABME P=1~?>? SAPI 0 TEI 64 ? RR N(R)=0 P/F=1~U>N SAPI 0 TEI 64 C RR N(R)=0 P=1
0000  00 81 73/00000000: 0281 7f|N>U SAPI 0 TEI 64 R UA F=1~N>U SAPI 0 TEI 64 C SABME P=1";

// Hex dumps of one line, as xxd, Wireshark and tcpdump print them, and octets alone.
const DUMPS: &str = "\
00000000: 0081 7f                                  ...|U>N SAPI 0 TEI 64 C SABME P=1
00000000: 00 81 7f                                         ...|U>N SAPI 0 TEI 64 C SABME P=1
00000000: 0081 0000 0801 0105 0403 8090 a218 03a9  ................|U>N SAPI 0 TEI 64 C I N(S)=0 N(R)=0 P=0 info=0801010504038090a21803a9
00000000: 0081 7f  ab|U>N SAPI 0 TEI 64 C SABME P=1
00000000: 0081 7f|U>N SAPI 0 TEI 64 C SABME P=1
0000  00 81 7f|U>N SAPI 0 TEI 64 C SABME P=1
0000   00 81 7f   ...|U>N SAPI 0 TEI 64 C SABME P=1
0000  00 81 00 00 08 01 01 05  04 03 80 90 a2 18 03 a9   ................|U>N SAPI 0 TEI 64 C I N(S)=0 N(R)=0 P=0 info=0801010504038090a21803a9
\t0x0000:  0081 7f                                  ...|U>N SAPI 0 TEI 64 C SABME P=1
00000010: 0081 7f                                  ...|bad
0010  00 81 7f|bad
\t0x0010:  0081 7f|bad
00g0: 00 81 7f|
0000  00 81 7f  ...|
00817f|U>N SAPI 0 TEI 64 C SABME P=1
 00 81 7f |U>N SAPI 0 TEI 64 C SABME P=1
00:81:7F|U>N SAPI 0 TEI 64 C SABME P=1
[ 00 81 7f ]|U>N SAPI 0 TEI 64 C SABME P=1
0x00817f|U>N SAPI 0 TEI 64 C SABME P=1
0x00 0x81 0x7f|U>N SAPI 0 TEI 64 C SABME P=1
0000 00 81 7f|U>N F2 BadAddress 000000817f
0081 7f SABME|
00 81 7|
0x|
: 00|";

#[test]
fn loose_lines_are_decoded(rt: HostRuntime) -> Result<(), Fail> {
    loose_rows_hold(rt.alloc(), LINES, Some(Side::User))?;
    loose_rows_hold(rt.alloc(), LOGS, Some(Side::User))?;
    loose_rows_hold(rt.alloc(), DUMPS, Some(Side::User))
}

#[test]
fn senders_of_loose_lines_are_found(rt: HostRuntime) -> Result<(), Fail> {
    for row in INFERRED.lines() {
        let so = is_inferred(rt.alloc(), row);
        wants(so, row, "its senders")?;
    }
    Ok(())
}

fn is_inferred(alloc: Global, row: &str) -> bool {
    let (lines, printed) = row.split_once('|').unwrap_or((row, ""));
    match lines.replace(alloc, "/", "\n") {
        Ok(lines) => prints_loose(alloc, lines.as_str(), None, Ok(false), printed),
        Err(_) => false,
    }
}

fn loose_rows_hold(alloc: Global, rows: &str, chosen: Option<Side>) -> Result<(), Fail> {
    for row in rows.split('\n') {
        let (line, printed) = row.split_once('|').unwrap_or((row, ""));
        let so = match printed {
            "bad" => prints_loose(alloc, line, chosen, Err(ScriptFault::BadLine(1)), ""),
            printed => prints_loose(alloc, line, chosen, Ok(false), printed),
        };
        wants(so, row, "its end, or what is printed")?;
    }
    Ok(())
}

// Whether loose lines end so, and are printed as these lines, here separated by tildes.
fn prints_loose(
    alloc: Global,
    lines: &str,
    chosen: Option<Side>,
    end: Result<bool, ScriptFault>,
    wanted: &str,
) -> bool {
    let mut printed = Vec::new(alloc);
    let mut reported = Vec::new(alloc);
    let ended = print_loose(alloc, lines, chosen, &mut printed, &mut reported);
    ended == end && are_separated(printed.as_slice(), wanted, '~')
}

fn print_loose(
    alloc: Global,
    lines: &str,
    chosen: Option<Side>,
    printed: &mut Vec<u8>,
    reported: &mut Vec<u8>,
) -> Result<bool, ScriptFault> {
    let how = LinesStyle {
        form: LineForm::Loose(chosen),
        frames: FrameStyle::PLAIN,
        keeps_going: false,
        follow: None,
    };
    let mut script = lines.as_bytes();
    print_lines(alloc, &mut script, printed, how, &mut *reported)
}

const NOTED: &str = "\
the lines do not name each sender: it is taken from the kind and C/R bit of the frame, or printed \
as ?; --sender names the side that printed the lines
";

// The reports of lines without a frame.
fn reports(alloc: Global, lines: &str, chosen: Option<Side>, wanted: &[&str]) -> bool {
    let mut printed = Vec::new(alloc);
    let mut reported = Vec::new(alloc);
    let ended = print_loose(alloc, lines, chosen, &mut printed, &mut reported);
    let mut rest = reported.as_slice();
    for part in wanted {
        let Some(behind) = rest.strip_prefix(part.as_bytes()) else {
            return false;
        };
        rest = behind;
    }
    ended == Ok(false) && rest.is_empty()
}

#[test]
fn skipped_lines_are_counted(rt: HostRuntime) -> Result<(), Fail> {
    let one = "hello\n> [ 00 81 7f ]\n";
    let two = "hello\n> [ 00 81 7f ]\n\nyou\nuser 00817f\n";
    let none = "hello\nyou\n";
    let user = Some(Side::User);
    let alloc = rt.alloc();
    all_hold(&[
        (
            reports(alloc, one, user, &["skipped 1 line without a frame\n"]),
            one,
            "its report",
        ),
        (
            reports(
                alloc,
                two,
                None,
                &[NOTED, "skipped 2 lines without a frame\n"],
            ),
            two,
            "its report",
        ),
        (
            reports(alloc, none, None, &["0 of 2 lines have a frame\n"]),
            none,
            "its report",
        ),
    ])
}

/// Each row is a strict line and its output without the line feed; nothing if the line is bad.
pub(crate) fn rows_hold(alloc: Global, rows: &str, style: Style) -> Result<(), Fail> {
    for row in rows.split('\n') {
        let so = row_holds(alloc, row, style);
        wants(so, row, "its end, or what is printed")?;
    }
    Ok(())
}

fn row_holds(alloc: Global, row: &str, style: Style) -> bool {
    let (line, printed) = row.split_once('|').unwrap_or((row, ""));
    let end = if printed.is_empty() {
        Err(ScriptFault::BadLine(1))
    } else {
        Ok(())
    };
    prints(alloc, line, style, end, printed)
}

fn prints(
    alloc: Global,
    line: &str,
    style: Style,
    end: Result<(), ScriptFault>,
    wanted: &str,
) -> bool {
    let mut printed = Vec::new(alloc);
    let mut script = line.as_bytes();
    let ended = decode_lines(alloc, &mut script, &mut printed, style);
    ended == end && is_line(printed.as_slice(), wanted)
}

// Whether this line was printed, or nothing if it is empty.
fn is_line(printed: &[u8], line: &str) -> bool {
    match printed.strip_suffix(b"\n") {
        Some(text) => !line.is_empty() && text == line.as_bytes(),
        None => line.is_empty() && printed.is_empty(),
    }
}

const PASSED_OVER: &str = "user 00817f\nuser  00817f\n\nnet 008173\n";

// Whether the valid lines are printed, and the other one is reported.
fn passes_over(
    alloc: Global,
    printed: &mut Vec<u8>,
    lines_printed: &mut Vec<u8>,
) -> Result<(), Fail> {
    let mut script = PASSED_OVER.as_bytes();
    let ended = decode_good_lines(
        alloc,
        &mut script,
        printed,
        Style::Plain,
        &mut *lines_printed,
    );
    let text = b"U>N SAPI 0 TEI 64 C SABME P=1\nN>U SAPI 0 TEI 64 R UA F=1\n".as_slice();
    let passed = b"skipped: user  00817f\n".as_slice();
    all_hold(&[
        (ended == Ok(()), PASSED_OVER, "its end"),
        (printed.as_slice() == text, PASSED_OVER, "its text"),
        (
            lines_printed.as_slice() == passed,
            PASSED_OVER,
            "what is told",
        ),
    ])
}

#[test]
fn bad_lines_are_passed_over(rt: HostRuntime) -> Result<(), Fail> {
    let mut printed = Vec::new(rt.alloc());
    let mut lines_printed = Vec::new(rt.alloc());
    passes_over(rt.alloc(), &mut printed, &mut lines_printed)
}
