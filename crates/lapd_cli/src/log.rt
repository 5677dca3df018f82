//! The command `decode` for a log.

use crate::ending::Stop;
use crate::job::time_of;
use crate::local_zone::zone_of;
use lapd_cli_console::Escaped;
use lapd_cli_decode::{
    Drawing, FrameStyle, JoinedDumps, Layout, LineForm, LinesStyle, Side, Zone, print_lines,
};
use lapd_cli_options::{DecodeOptions, Invocation, PrintedLayout, PrintedTime};
use lapd_cli_script::ScriptFault;
use lapd_log::{LogReader, LogStyle, LogTimes, has_stamp, span_name};
use std::io::{Cursor, Read, Write};

/// The report of a dump of words of 16 bits.
const WORDS: &str = "\
skipped a dump of words of 16 bits, whose octets may be exchanged; print octets: hexdump -C, od \
-tx1, or xxd";

/// The note on a capture of times without a year.
const YEARLESS: &str = "\
the times have no year: those of the capture are of 1972, or of 1970 if they have no date";

/// The most octets of a log that decide whether a drawing of it has times.
const MOST_FRONT: usize = 4096;

/// How a log is printed, and how its times are read.
#[derive(Clone, Copy)]
struct SpanStyle<'a, 'z> {
    log: LogStyle<'a, 'z>,
    lines: LinesStyle,
    /// Whether times were requested by name.
    wants_times: bool,
    /// Whether the frames are written as a capture, in which a time has a year.
    is_written: bool,
}

/// Prints the frames of a log: those of the chosen span, or of each span by itself, one after the
/// other. The first one needs no heading. A drawing has times if none are requested, and if a line
/// among the first octets has one.
///
/// # Errors
///
/// `Violated` if a frame violates Q.921 and `--strict` is present, and the faults of a script.
pub fn run_log<R: Read, W: Write>(
    rt: &HostRuntime,
    chosen: &Invocation<'_>,
    script: &mut R,
    out: &mut W,
    how: LinesStyle,
    options: DecodeOptions,
) -> Result<(), Stop> {
    if !is_guessed(options) {
        let time = options.time;
        return run_spans(rt, chosen, script, out, how, options, time);
    }
    let mut octets = [0; MOST_FRONT];
    let Ok(count) = script.read(&mut octets) else {
        return Err(Stop::Script(ScriptFault::Device));
    };
    let time = if has_stamp(&octets[..count]) {
        options.time_in_capture()
    } else {
        options.time
    };
    let front = Cursor::new(octets).take(count as u64);
    run_spans(rt, chosen, front.chain(script), out, how, options, time)
}

// Whether the log itself decides if times are printed.
fn is_guessed(options: DecodeOptions) -> bool {
    matches!(options.time, PrintedTime::Hidden)
        && matches!(
            options.layout,
            PrintedLayout::Ladder | PrintedLayout::Picture
        )
}

// Prints the frames of each span of these lines, with this time.
fn run_spans<L: Read + Drop, W: Write>(
    rt: &HostRuntime,
    chosen: &Invocation<'_>,
    lines: L,
    out: &mut W,
    how: LinesStyle,
    options: DecodeOptions,
    time: PrintedTime,
) -> Result<(), Stop> {
    let zone = zone_of(rt, time);
    let style = style_of(chosen, how, options, time, &zone);
    let (mut ended, mut rest) = run_span(rt, chosen.strict, lines, out, style);
    for _span in 0..u64::MAX {
        if rest.is_empty() || matches!(ended, Err(Stop::Script(_))) {
            return ended;
        }
        let Ok(name) = span_name(rt.alloc(), rest.as_slice()) else {
            return Err(Stop::Script(ScriptFault::Memory));
        };
        if !has_headings(how.frames.layout) {
            let name = name.as_str();
            let _ = eprintln!(rt; "the output has one span; --span {name} picks another");
            return ended;
        }
        if !put_heading(options.json, name.as_str(), out) {
            return Err(Stop::Script(ScriptFault::Device));
        }
        let text = rest;
        let (next, others) = run_span(rt, chosen.strict, text.as_slice(), out, style);
        ended = match (next, ended) {
            (Ok(()), ended) => ended,
            (Err(stop), _) => Err(stop),
        };
        rest = others;
    }
    ended
}

// How a log is printed with this time. Times are read if they are shown, or if a drawing or the
// remarks need them.
fn style_of<'a, 'z>(
    chosen: &Invocation<'a>,
    how: LinesStyle,
    options: DecodeOptions,
    time: PrintedTime,
    zone: &'z Zone,
) -> SpanStyle<'a, 'z> {
    let printer = printer_of(how.form);
    let times = match time {
        PrintedTime::Hidden if how.follow.is_none() && how.frames.layout == Layout::Lines => {
            LogTimes::Hidden
        }
        PrintedTime::Absolute => LogTimes::Dated,
        PrintedTime::Local => LogTimes::Local(zone),
        _ => LogTimes::All,
    };
    SpanStyle {
        log: LogStyle {
            printer,
            span: chosen.span,
            times,
        },
        lines: LinesStyle {
            form: if matches!(times, LogTimes::Hidden) {
                LineForm::Loose(printer)
            } else {
                LineForm::Timed(printer)
            },
            frames: FrameStyle {
                time: time_of(time),
                ..how.frames
            },
            ..how
        },
        wants_times: !matches!(options.time, PrintedTime::Hidden),
        is_written: options.layout == PrintedLayout::Capture,
    }
}

// Prints the frames of the first span of these lines, and returns the lines of the others.
fn run_span<L: Read + Drop, W: Write>(
    rt: &HostRuntime,
    strict: bool,
    lines: L,
    out: &mut W,
    style: SpanStyle<'_, '_>,
) -> (Result<(), Stop>, Vec<u8>) {
    let Ok(mut log) = LogReader::new(rt.alloc(), lines, style.log) else {
        return (Err(Stop::Script(ScriptFault::Memory)), Vec::new(rt.alloc()));
    };
    let ended = match print_joined(rt, &mut log, out, style.lines) {
        Ok(is_violated) if strict && is_violated => Err(Stop::Violated),
        Ok(_) => Ok(()),
        Err(fault) => Err(Stop::Script(fault)),
    };
    if log.has_words() {
        let _ = eprintln!(rt; "{WORDS}");
    }
    note_span(rt, &log, style.log.span);
    note_times(rt, &log, style);
    let rest = log.others();
    (ended, rest)
}

// Reports that no line names the chosen span.
fn note_span<L: Read + Drop>(rt: &HostRuntime, log: &LogReader<'_, '_, L>, chosen: Option<&str>) {
    let Some(span) = chosen else {
        return;
    };
    if log.has_span() {
        return;
    }
    let span = Escaped(span);
    let Ok(last) = log.last_span() else {
        return;
    };
    let _ = if last.is_empty() {
        eprintln!(rt; "no line names a span: all lines are read")
    } else {
        eprintln!(rt; "no line is of span {span}; the last that names a span is of {last}")
    };
}

// Reports that times are missing, go back or have no year, where that matters.
fn note_times<L: Read + Drop>(
    rt: &HostRuntime,
    log: &LogReader<'_, '_, L>,
    style: SpanStyle<'_, '_>,
) {
    if matches!(style.log.times, LogTimes::Hidden) {
        return;
    }
    if style.wants_times && !log.has_times() {
        let _ = match style.log.times {
            LogTimes::Dated => eprintln!(rt; "no line has a time with its year"),
            _ => eprintln!(rt; "no line has a time"),
        };
    }
    match log.times_gone_back() {
        0 => {}
        1 => {
            let _ = eprintln!(rt; "1 line has a time before that of the line above it");
        }
        count => {
            let _ = eprintln!(rt; "{count} lines have a time before that of the line above them");
        }
    }
    if style.is_written && log.is_yearless() {
        let _ = eprintln!(rt; "{YEARLESS}");
    }
}

// Prints the frames of lines whose dumps are joined. Returns whether one violates Q.921.
fn print_joined<L: Read, W: Write>(
    rt: &HostRuntime,
    log: &mut L,
    out: &mut W,
    how: LinesStyle,
) -> Result<bool, ScriptFault> {
    let mut joined = JoinedDumps::new(rt.alloc(), log);
    print_lines(rt.alloc(), &mut joined, out, how, rt.stderr())
}

// Whether the frames of several spans can be printed one after the other.
fn has_headings(layout: Layout) -> bool {
    matches!(layout, Layout::Lines | Layout::Drawn(Drawing::Ladder))
}

// The side that printed the lines, if it is chosen.
fn printer_of(form: LineForm) -> Option<Side> {
    match form {
        LineForm::Loose(printer) | LineForm::Timed(printer) => printer,
        LineForm::Strict => None,
    }
}

// Prints the heading of a span. Returns whether the writer did not fail.
fn put_heading<W: Write>(json: bool, name: &str, out: &mut W) -> bool {
    let printed = if json {
        writeln!(out, "{{\"span\":\"{name}\"}}")
    } else {
        writeln!(out, "==> span {name} <==")
    };
    printed.is_ok()
}
