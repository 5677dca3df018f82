//! Captures of which not all frames are printed, or that are printed with times.

use crate::read::result_is;
use lapd_cli_decode::{CaptureStyle, Filter, FrameStyle, FrameTime, Layout, Side, Style};
use lapd_test_text::wants;
use std::alloc::Global;
use std::test::Fail;

// A SABME, its UA, an I frame, an RR, and an RR with F=1 that was captured 100 microseconds before.
const CAPTURE: &str = "\
d4c3b2a102000400000000000000000000000400b1000000\
01000000d00700001300000013000000000420fd00010000000000000000003000817f\
01000000a86100001300000013000000000020fd000100000000000000000030008173\
010000003f420f001600000016000000000420fd000100000000000000000030008100000801\
02000000f40100001400000014000000000020fd00010000000000000000003000810102\
02000000900100001400000014000000000020fd00010000000000000000003000810103";

// The time, the kinds and the most frames that are printed; and the printed lines.
const ROWS: &str = "\
none i,s,u 9|U>N SAPI 0 TEI 64 C SABME P=1/N>U SAPI 0 TEI 64 R UA F=1/U>N SAPI 0 TEI 64 C I N(S)=0 N(R)=0 P=0 info=0801/N>U SAPI 0 TEI 64 R RR N(R)=1 F=0/N>U SAPI 0 TEI 64 R RR N(R)=1 F=1
absolute i,s,u 9|1.002000 U>N SAPI 0 TEI 64 C SABME P=1/1.025000 N>U SAPI 0 TEI 64 R UA F=1/1.999999 U>N SAPI 0 TEI 64 C I N(S)=0 N(R)=0 P=0 info=0801/2.000500 N>U SAPI 0 TEI 64 R RR N(R)=1 F=0/2.000400 N>U SAPI 0 TEI 64 R RR N(R)=1 F=1
relative i,s,u 9|0.000000 U>N SAPI 0 TEI 64 C SABME P=1/0.023000 N>U SAPI 0 TEI 64 R UA F=1/0.997999 U>N SAPI 0 TEI 64 C I N(S)=0 N(R)=0 P=0 info=0801/0.998500 N>U SAPI 0 TEI 64 R RR N(R)=1 F=0/0.998400 N>U SAPI 0 TEI 64 R RR N(R)=1 F=1
delta i,s,u 9|0.000000 U>N SAPI 0 TEI 64 C SABME P=1/0.023000 N>U SAPI 0 TEI 64 R UA F=1/0.974999 U>N SAPI 0 TEI 64 C I N(S)=0 N(R)=0 P=0 info=0801/0.000501 N>U SAPI 0 TEI 64 R RR N(R)=1 F=0/0.000000 N>U SAPI 0 TEI 64 R RR N(R)=1 F=1
day u 1|00:00:01.002000 U>N SAPI 0 TEI 64 C SABME P=1
delta i,s 9|0.000000 U>N SAPI 0 TEI 64 C I N(S)=0 N(R)=0 P=0 info=0801/0.000501 N>U SAPI 0 TEI 64 R RR N(R)=1 F=0/0.000000 N>U SAPI 0 TEI 64 R RR N(R)=1 F=1
relative s 9|0.000000 N>U SAPI 0 TEI 64 R RR N(R)=1 F=0/0.000000 N>U SAPI 0 TEI 64 R RR N(R)=1 F=1
none u 9|U>N SAPI 0 TEI 64 C SABME P=1/N>U SAPI 0 TEI 64 R UA F=1
none i,s,u 2|U>N SAPI 0 TEI 64 C SABME P=1/N>U SAPI 0 TEI 64 R UA F=1
none s 1|N>U SAPI 0 TEI 64 R RR N(R)=1 F=0";

// The last moment of 29 November 2026 (UTC), and a frame 9 hours, 5 minutes and 7 seconds later.
const NIGHT: &str = "\
d4c3b2a102000400000000000000000000000400b1000000\
7fbc0c6b3f420f001300000013000000000420fd00010000000000000000003000817f\
433c0d6b000000001300000013000000000020fd000100000000000000000030008173";

const NIGHT_LINES: &str = "\
23:59:59.999999 U>N SAPI 0 TEI 64 C SABME P=1/09:05:07.000000 N>U SAPI 0 TEI 64 R UA F=1";

#[test]
fn times_of_day_are_of_utc(rt: HostRuntime) -> Result<(), Fail> {
    let how = CaptureStyle {
        frames: style_of("day i,s,u 9"),
        sender: Some(Side::User),
        keeps_going: false,
    };
    let so = result_is(rt.alloc(), NIGHT, how, "", NIGHT_LINES);
    wants(so, NIGHT_LINES, "its end, or its lines")
}

#[test]
fn chosen_frames_of_a_capture_are_printed(rt: HostRuntime) -> Result<(), Fail> {
    for row in ROWS.lines() {
        let so = row_holds(rt.alloc(), row);
        wants(so, row, "its end, or its lines")?;
    }
    Ok(())
}

fn row_holds(alloc: Global, row: &str) -> bool {
    let (words, lines) = row.split_once('|').unwrap_or((row, ""));
    let how = CaptureStyle {
        frames: style_of(words),
        sender: Some(Side::User),
        keeps_going: false,
    };
    result_is(alloc, CAPTURE, how, "", lines)
}

// How frames are printed by these words.
fn style_of(words: &str) -> FrameStyle {
    let mut words = words.split(' ');
    let time = match words.next() {
        Some("absolute") => FrameTime::Absolute,
        Some("relative") => FrameTime::Relative,
        Some("delta") => FrameTime::Delta,
        Some("day") => FrameTime::Day,
        _ => FrameTime::Hidden,
    };
    let kinds = words.next().unwrap_or("");
    FrameStyle {
        layout: Layout::Lines,
        style: Style::Plain,
        time,
        filter: Some(Filter {
            sapi: Some(0),
            tei: Some(64),
            i: kinds.contains('i'),
            s: kinds.contains('s'),
            u: kinds.contains('u'),
            polls: true,
            call: None,
            only_violations: false,
        }),
        once: false,
        any_sapi: false,
        is_colored: false,
        count: words.next().unwrap_or("").parse().ok(),
    }
}
