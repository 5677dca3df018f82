//! Logs of other programs, rewritten in the forms that `decode` reads.

use crate::read::{are_separated, parts_of};
use lapd_cli_decode::{
    Follow, FrameStyle, FrameTime, JoinedDumps, LineForm, LinesStyle, Zone, print_lines,
};
use lapd_log::{LogReader, LogStyle, LogTimes};
use lapd_test_text::wants;
use std::alloc::Global;
use std::io::{self, Read};
use std::test::Fail;

// The lines of a log, the span that is chosen if there is one, the same lines rewritten, and the
// lines of other spans. A tilde is a line feed.
const LOGS: &str = r#"
Jan  3 14:52:24.475: ISDN BR0: RX <-  IDASSN  ri = 85  ai = 92~ISDN BR0: TX ->  SABMEp sapi = 0  tei = 92~ISDN BR0: TX ->  INFOc sapi = 0  tei = 92  ns = 0  nr = 0  i = 0x08007B~ISDN BR0: RX <-  RRr sapi = 0  tei = 92  nr = 1||@63298344475000 net feff030f005502b9~@63298344475000 user 00b97f~@63298344475000 user 00b9000008007b~@63298344475000 net 00b90102|
*Mar  1 00:07:58.899: ISDN Se0/0/0:15 Q921: Net TX -> RRp sapi=0 tei=0 nr=5~ISDN Se0/0/0:15 Q921: Net RX <- RR sapi=0 tei=0 nr=7~ISDN Se0/0/0:15 Q921: Net TX -> UAf sapi=0 tei=0~ISDN Se0/0/0:15 Q921: User RX <- 0x00817F||@68256478899000 net 0201010b~@68256478899000 user 0201010e~@68256478899000 net 000173~@68256478899000 net 0x00817F|
TX -> FRMR sapi=0 tei=0~TX -> INFO sapi=0 tei=0~TX -> RRx sapi=0 tei=0 nr=1~TX -> SABMEp sapi=7 tei=0~TX -> SABMEp sapi=0 tei=128||TX -> FRMR sapi=0 tei=0~TX -> INFO sapi=0 tei=0~TX -> RRx sapi=0 tei=0 nr=1~TX -> SABMEp sapi=7 tei=0~TX -> SABMEp sapi=0 tei=128|
20261130025838123 DLLAPD DEBUG lapd.c:521 (0x55) TX 3: 00 81 7f ~RX: 00 81 73~RX: 00 81 7~RX bytes: 12~0000000 8100 007f~0000  00 81 7f||@1796007518123000 > 00 81 7f ~@1796007518123000 < 00 81 73~@1796007518123000 RX: 00 81 7~@1796007518123000 RX bytes: 12~~0000  00 81 7f|
[Nov 30 02:58:38] PRI Span: 1 > [ 00 01 7f ]~[2026-11-30 02:58:38.5] a > [ 00 01 7f ]~2026-11-30T02:58:38.123456+01:00 b~1796007518.25 < [ 00 01 73 ]~Mon Nov 30 02:58:38 2026 c~30.11.2026 02:58:38.000001 d~25:00:00 e||@91940318000000 [Nov 30 02:58:38] PRI Span: 1 > [ 00 01 7f ]~@1796007518500000 [2026-11-30 02:58:38.5] a > [ 00 01 7f ]~@1796003918123456 2026-11-30T02:58:38.123456+01:00 b~@1796007518250000 1796007518.25 < [ 00 01 73 ]~@1796007518000000 Mon Nov 30 02:58:38 2026 c~@1796007518000001 30.11.2026 02:58:38.000001 d~@1796007518000001 25:00:00 e|
00-81-7f~0x00, 0x81, 0x7f~"\x00\x81\x7f"~user 00,81,7f~net {0x00,0x81,0x73}~2026-11-30~00:81-7~#00-81||00 81 7f~ 00   81   7f~   00  81  7f ~user 00 81 7f~net   00  81  73 ~2026-11-30~00:81-7~#00-81|
a[] = {~  0x00, 0x81, 0x00, 0x00, 0x08, 0x02, 0x01, 0x01, 0x05, 0x04, 0x03, 0x80,~  0x90, 0xa3~};||a[] = {~~   00   81   00   00   08   02   01   01   05   04   03   80    90   a3~};|
008100000802010105040380a218039a21803a9838100000000000000000~0102~~008100000802010105040380a218039a21803a9838100000000000000000~0102~0304~||~008100000802010105040380a218039a21803a98381000000000000000000102~~008100000802010105040380a218039a21803a9838100000000000000000~0102~0304~|
 00 81 00 00 08 02 01 01 05 04 03 80 90 a3 18 03~ a9 83 81~ 00 81 7f||~ 00 81 00 00 08 02 01 01 05 04 03 80 90 a3 18 03 a9 83 81~ 00 81 7f|
U>N SAPI 0 TEI 64 C SABME P=1~0.250000 N>U SAPI 0 TEI 64 R UA F=1; begins establishment 1; answers packet 1~net U>N SAPI 0 TEI 64 C I N(S)=127 N(R)=0 P=1 info=0801 SETUP cr=1~U>N SAPI 16 TEI 0 R RR N(R)=3 F=1~U>N SAPI 0 TEI 64 C RNR N(R)=0 P=0~N>U SAPI 0 TEI 64 R REJ N(R)=1 F=0~N>U SAPI 63 TEI 127 C UI P=0 info=0f005502b9 identity assigned Ri=0055 Ai=92~N>U SAPI 0 TEI 64 C DISC P=1~U>N SAPI 0 TEI 64 R DM F=1~U>N F1 TooShort 00; violation~U>N F1 TooShort||user 00817f~net 008173~user 0081fe010801~user 42010107~user 00810500~net 00810902~net feff030f005502b9~net 028153~user 02811f~user 00~user |
?>? SAPI 0 TEI 64 ? RR N(R)=1 P/F=1~U>N SAPI 0 TEI 64 C I N(S)=0 P=0~U>N SAPI 7 TEI 64 C UA P=0~U>N SAPI 0 TEI 64 C UA P=0~  U>N I 1, RR 0, RNR 0~U>N SAPI 0 TEI 64 C SABME||?>? SAPI 0 TEI 64 ? RR N(R)=1 P/F=1~U>N SAPI 0 TEI 64 C I N(S)=0 P=0~U>N SAPI 7 TEI 64 C UA P=0~U>N SAPI 0 TEI 64 C UA P=0~  U>N I 1, RR 0, RNR 0~U>N SAPI 0 TEI 64 C SABME|
PRI Span: 1 > [ 00 01 7f ]~PRI Span: 2 > [ 00 01 7f ]~more~PRI Span: 1 < [ 00 01 73 ]||PRI Span: 1 > [ 00 01 7f ]~~~PRI Span: 1 < [ 00 01 73 ]|PRI Span: 2 > [ 00 01 7f ]~more~
PRI Span: 1 > [ 00 01 7f ]~PRI Span: 2 > [ 00 01 7f ]~[PRI Span: 2 D-Channel: 1] b|2|~PRI Span: 2 > [ 00 01 7f ]~[PRI Span: 2 D-Channel: 1] b|
[PRI Span: 1 D-Channel: 0] a~[PRI Span: 1 D-Channel: 1] b~[s3c16][3:16] c||[PRI Span: 1 D-Channel: 0] a~~|[PRI Span: 1 D-Channel: 1] b~[s3c16][3:16] c~"#;

// The printed time, the lines of a log, the printed lines, and how many times go back. A tilde is a
// line feed. Local times are those of Central Europe.
const TIMED: &str = "\
relative|a~user 00817f~[Nov 30 02:58:38] PRI Span: 1 > [ 00 01 7f ]~[Nov 30 02:58:40] < [ 00 01 73 ]~0000  00 01 01 01~[Nov 30 02:58:41] x|- U>N SAPI 0 TEI 64 C SABME P=1~0.000000 U>N SAPI 0 TEI 0 C SABME P=1~2.000000 N>U SAPI 0 TEI 0 R UA F=1~2.000000 ?>? SAPI 0 TEI 0 ? RR N(R)=0 P/F=1|0
absolute|[Nov 30 02:58:38] > [ 00 01 7f ]~2026-11-30T02:58:38.5+01:00 < [ 00 01 73 ]|- U>N SAPI 0 TEI 0 C SABME P=1~1796003918.500000 N>U SAPI 0 TEI 0 R UA F=1|0
day|[Nov 30 02:58:38] > [ 00 01 7f ]~2026-11-30 02:58:38.5 +0100 < [ 00 01 73 ]|02:58:38.000000 U>N SAPI 0 TEI 0 C SABME P=1~01:58:38.500000 N>U SAPI 0 TEI 0 R UA F=1|0
utc|[Nov 30 02:58:38] > [ 00 01 7f ]~[Dec 31 23:59:59] > [ 00 01 7f ]~[Jan  1 00:00:01] > [ 00 01 7f ]~2026-11-30 02:58:38.5 > [ 00 01 7f ]|11-30 02:58:38.000000 U>N SAPI 0 TEI 0 C SABME P=1~12-31 23:59:59.000000 U>N SAPI 0 TEI 0 C SABME P=1~01-01 00:00:01.000000 U>N SAPI 0 TEI 0 C SABME P=1~2026-11-30 02:58:38.500000 U>N SAPI 0 TEI 0 C SABME P=1|0
delta|[Nov 30 02:58:38] > [ 00 01 7f ]~[Dec 31 23:59:59] > [ 00 01 7f ]~[Jan  1 00:00:01] > [ 00 01 7f ]~[Jan  1 00:00:00] > [ 00 01 7f ]|0.000000 U>N SAPI 0 TEI 0 C SABME P=1~2754081.000000 U>N SAPI 0 TEI 0 C SABME P=1~2.000000 U>N SAPI 0 TEI 0 C SABME P=1~0.000000 U>N SAPI 0 TEI 0 C SABME P=1|1
relative|23:59:59.5 > [ 00 01 7f ]~00:00:01 > [ 00 01 7f ]~12:00:00 > [ 00 01 7f ]~11:59:59 > [ 00 01 7f ]|0.000000 U>N SAPI 0 TEI 0 C SABME P=1~1.500000 U>N SAPI 0 TEI 0 C SABME P=1~43200.500000 U>N SAPI 0 TEI 0 C SABME P=1~43199.500000 U>N SAPI 0 TEI 0 C SABME P=1|1
local|23:59:59.5 > [ 00 01 7f ]~[Nov 30 02:58:38] > [ 00 01 7f ]~2026-11-30 02:58:38 > [ 00 01 7f ]~2026-07-30T02:58:38Z > [ 00 01 7f ]~1796007518.25 > [ 00 01 7f ]|23:59:59.500000 U>N SAPI 0 TEI 0 C SABME P=1~11-30 02:58:38.000000 U>N SAPI 0 TEI 0 C SABME P=1~2026-11-30 02:58:38.000000 U>N SAPI 0 TEI 0 C SABME P=1~2026-07-30 04:58:38.000000 U>N SAPI 0 TEI 0 C SABME P=1~2026-11-30 03:58:38.250000 U>N SAPI 0 TEI 0 C SABME P=1|1
relative|[Nov 30 02:58:38] > [ 00 01 7f ]~call since 01:00:00 > [ 00 01 7f ]~[Nov 30 02:58:39] user 02:01:01:01 < [ 00 01 73 ]~02:01:01:01|0.000000 U>N SAPI 0 TEI 0 C SABME P=1~0.000000 U>N SAPI 0 TEI 0 C SABME P=1~1.000000 N>U SAPI 0 TEI 0 R UA F=1~1.000000 ?>? SAPI 0 TEI 0 ? RR N(R)=0 P/F=1|0
delta|> [ 00 01 7f ]~02:01:01:01|- U>N SAPI 0 TEI 0 C SABME P=1~- ?>? SAPI 0 TEI 0 ? RR N(R)=0 P/F=1|0
answer|10:00:00.1 > [ 00 81 7f ]~10:00:00.35 < [ 00 81 73 ]|U>N SAPI 0 TEI 64 C SABME P=1~N>U SAPI 0 TEI 64 R UA F=1; begins establishment 1; answers packet 1 in 0.250000 s|0";

#[test]
fn logs_are_printed_with_their_times(rt: HostRuntime) -> Result<(), Fail> {
    for row in TIMED.lines() {
        let so = is_timed(rt.alloc(), row);
        wants(so, row, "its lines")?;
    }
    Ok(())
}

// Whether a log is printed so.
fn is_timed(alloc: Global, row: &str) -> bool {
    let Ok(text) = row.replace(alloc, "~", "\n") else {
        return false;
    };
    let mut fields = text.as_str().split('|');
    let time = fields.next().unwrap_or("");
    let log = fields.next().unwrap_or("");
    let wanted = row.split('|').nth(2).unwrap_or("");
    let gone_back = row.split('|').nth(3).unwrap_or("").parse::<u64>();
    let mut printed = Vec::new(alloc);
    match print_log(alloc, time, log, &mut printed) {
        Some(count) => gone_back == Ok(count) && begins_with(printed.as_slice(), wanted),
        None => false,
    }
}

// Whether these lines, here separated by tildes, are the first printed ones.
fn begins_with(printed: &[u8], wanted: &str) -> bool {
    let count = wanted.split('~').count();
    let mut length = 0usize;
    let mut lines = 0usize;
    for octet in printed {
        if lines < count {
            length = length.saturating_add(1);
            if *octet == b'\n' {
                lines = lines.saturating_add(1);
            }
        }
    }
    let (front, _) = printed.split_at(length.min(printed.len()));
    are_separated(front, wanted, '~')
}

// Prints a log with this time. Returns how many times go back.
fn print_log(alloc: Global, time: &str, log: &str, printed: &mut Vec<u8>) -> Option<u64> {
    let zone = Zone::of_text(b"CET-1CEST,M3.5.0,M10.5.0/3")?;
    print_log_in(alloc, times_of(time, &zone), time, log, printed)
}

fn print_log_in(
    alloc: Global,
    times: LogTimes<'_>,
    time: &str,
    log: &str,
    printed: &mut Vec<u8>,
) -> Option<u64> {
    let style = LogStyle {
        printer: None,
        span: None,
        times,
    };
    let Ok(mut reader) = LogReader::new(alloc, log.as_bytes(), style) else {
        return None;
    };
    let follow = if time == "answer" {
        Some(Follow { k: None })
    } else {
        None
    };
    let how = LinesStyle {
        form: LineForm::Timed(None),
        frames: FrameStyle {
            time: frame_time(time),
            ..FrameStyle::PLAIN
        },
        keeps_going: false,
        follow,
    };
    if is_printed(alloc, &mut reader, printed, how) {
        Some(reader.times_gone_back())
    } else {
        None
    }
}

fn is_printed<L: Read>(alloc: Global, log: &mut L, printed: &mut Vec<u8>, how: LinesStyle) -> bool {
    let mut joined = JoinedDumps::new(alloc, log);
    print_lines(alloc, &mut joined, printed, how, io::sink()).is_ok()
}

fn times_of<'a>(time: &str, zone: &'a Zone) -> LogTimes<'a> {
    match time {
        "absolute" => LogTimes::Dated,
        "local" => LogTimes::Local(zone),
        _ => LogTimes::All,
    }
}

fn frame_time(time: &str) -> FrameTime {
    match time {
        "absolute" => FrameTime::Absolute,
        "relative" => FrameTime::Relative,
        "delta" => FrameTime::Delta,
        "day" => FrameTime::Day,
        "utc" | "local" => FrameTime::Date,
        _ => FrameTime::Hidden,
    }
}

#[test]
fn logs_are_rewritten(rt: HostRuntime) -> Result<(), Fail> {
    for row in LOGS.lines() {
        let so = row.is_empty() || row_holds(rt.alloc(), row);
        wants(so, row, "its lines")?;
    }
    Ok(())
}

// Whether a log is rewritten so, read at once and octet by octet.
fn row_holds(alloc: Global, row: &str) -> bool {
    let Ok(row) = row.replace(alloc, "~", "\n") else {
        return false;
    };
    let mut fields = row.as_str().split('|');
    let text = fields.next().unwrap_or("");
    let span = fields.next().unwrap_or("");
    let wanted = fields.next().unwrap_or("");
    let others = fields.next().unwrap_or("");
    is_rewritten(alloc, text, span, wanted, others, usize::MAX)
        && is_rewritten(alloc, text, span, wanted, others, 1)
}

// The lines of a log, a chosen span, whether a line names it, and the last span that a line names.
const SPANS: &str = "\
Span: 1 > [ 00 ]~Span: 2 < [ 00 ]~|1|yes|2
Span: 1 > [ 00 ]~|3|no|1
[PRI Span: 1 D-Channel: 2] > [ 00 ]~|1|yes|1 D-Channel 2
> [ 00 ]~|1|no|
";

#[test]
fn spans_are_named(rt: HostRuntime) -> Result<(), Fail> {
    for row in SPANS.lines() {
        wants(row_names_spans(rt.alloc(), row), row, "its spans")?;
    }
    Ok(())
}

fn row_names_spans(alloc: Global, row: &str) -> bool {
    let Ok(row) = row.replace(alloc, "~", "\n") else {
        return false;
    };
    let mut fields = row.as_str().split('|');
    let text = fields.next().unwrap_or("");
    let style = LogStyle {
        printer: None,
        span: fields.next(),
        times: LogTimes::Hidden,
    };
    let is_named = fields.next() == Some("yes");
    let last = fields.next().unwrap_or("");
    let Ok(mut reader) = LogReader::new(alloc, text.as_bytes(), style) else {
        return false;
    };
    let mut found = Vec::new(alloc);
    if reader.read_to_end(&mut found).is_err() || reader.has_span() != is_named {
        return false;
    }
    match reader.last_span() {
        Ok(name) => name.as_str() == last,
        Err(_) => false,
    }
}

fn is_rewritten(
    alloc: Global,
    text: &str,
    span: &str,
    wanted: &str,
    others: &str,
    most: usize,
) -> bool {
    let style = LogStyle {
        printer: None,
        span: if span.is_empty() { None } else { Some(span) },
        times: LogTimes::All,
    };
    let Ok(mut reader) = LogReader::new(alloc, parts_of(text.as_bytes(), most), style) else {
        return false;
    };
    let mut found = Vec::new(alloc);
    let is_read = reader.read_to_end(&mut found).is_ok();
    is_read
        && found.as_slice().trim_ascii_end() == wanted.as_bytes().trim_ascii_end()
        && reader.others().as_slice() == others.as_bytes()
}
