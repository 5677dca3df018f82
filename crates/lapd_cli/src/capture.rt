//! The command `decode` for a capture.

use crate::ending::{print_memory, print_violation};
use crate::job::{follow_of, frames_of};
use crate::local_zone::zone_of;
use crate::output::{Output, Text, begin_text, close_output, end_text};
use lapd_cli_console::{Escaped, READER_GONE, Watched, is_reader_gone};
use lapd_cli_decode::{
    CaptureReader, CaptureStop, CaptureStyle, Follow, ReadFault, Seen, Zone, decode_capture_in,
};
use lapd_cli_options::DecodeOptions;
use lapd_cli_script::{KindReason, Reason, ScriptFault};
use std::fmt::Display;
use std::fs::File;
use std::io::{BufWriter, ErrorKind, Read, Write};
use std::process::ExitCode;

/// The exit status after a file that could not be read to its end.
pub const UNREADABLE: u8 = 1;

/// The name of standard input as a file.
pub const STANDARD_INPUT: &str = "-";

/// Prints the frames of the capture in this file, or of standard input, and reports how that ended.
pub fn run_capture(
    rt: &HostRuntime,
    file: &str,
    options: DecodeOptions,
    strict: bool,
    output: Output<'_>,
) -> ExitCode {
    if file == STANDARD_INPUT {
        return read_capture(rt, "standard input", rt.stdin(), options, strict, output);
    }
    match File::open(rt, file) {
        Ok(source) => read_capture(rt, file, source, options, strict, output),
        Err(error) => print_no_file(rt, file, &Reason(&error)),
    }
}

/// Prints the frames of the capture in this reader, which reads this file.
pub fn read_capture<R: Read + Drop>(
    rt: &HostRuntime,
    file: &str,
    source: R,
    options: DecodeOptions,
    strict: bool,
    output: Output<'_>,
) -> ExitCode {
    match CaptureReader::new(rt.alloc(), source) {
        Ok(mut capture) => print_capture(rt, file, &mut capture, options, strict, output),
        Err(ReadFault::Capture(fault)) => {
            print_stop(rt, file, CaptureStop::Capture(fault, 0), None, output.name)
        }
        Err(ReadFault::Device(kind)) => print_no_file(rt, file, &KindReason(kind)),
        Err(ReadFault::Memory) => print_memory(rt),
    }
}

// Prints the frames of a capture.
fn print_capture<R: Read>(
    rt: &HostRuntime,
    file: &str,
    capture: &mut CaptureReader<R>,
    options: DecodeOptions,
    strict: bool,
    output: Output<'_>,
) -> ExitCode {
    let Output { writer, text, name } = output;
    let how = CaptureStyle {
        frames: frames_of(rt, options, options.time_in_capture()),
        sender: options.sender,
        keeps_going: options.keep_going,
    };
    let Ok(mut out) = BufWriter::new(rt.alloc(), Watched::new(writer)) else {
        return print_memory(rt);
    };
    let zone = zone_of(rt, options.time);
    let ended = print_framed(rt, capture, text, &mut out, how, follow_of(options), zone);
    // Text that a failed writer did not accept is dropped.
    let (watched, _left) = out.into_parts();
    let is_read = ended.is_ok();
    let status = match ended {
        Ok(seen) => {
            print_none(rt, seen, capture.packets(), capture.unserved());
            if strict && seen.is_violated {
                print_violation(rt)
            } else {
                ExitCode::SUCCESS
            }
        }
        Err(stop) => print_stop(rt, file, stop, watched.fault(), name),
    };
    close_output(rt, watched.into_inner(), text, name, is_read, status)
}

// Prints the frames of a capture, between the beginning and the end of their text.
fn print_framed<R: Read, W: Write>(
    rt: &HostRuntime,
    capture: &mut CaptureReader<R>,
    text: Text,
    out: &mut W,
    how: CaptureStyle,
    follow: Option<Follow>,
    zone: Zone,
) -> Result<Seen, CaptureStop> {
    if !begin_text(text, out) {
        return Err(CaptureStop::Device);
    }
    let errors = &mut rt.stderr();
    let ended = decode_capture_in(rt.alloc(), zone, capture, out, errors, how, follow);
    let is_written = end_text(text, out) && out.flush().is_ok();
    match ended {
        Ok(_) if !is_written => Err(CaptureStop::Device),
        ended => ended,
    }
}

// Reports that a capture had no frame, and a link type from which none can be read.
fn print_none(rt: &HostRuntime, seen: Seen, packets: u64, unserved: Option<usize>) {
    if seen.any {
        return;
    }
    let _ = match unserved {
        Some(number) => eprintln!(rt;
            "0 of {packets} packets are LAPD; unsupported link type {number}"
        ),
        None => eprintln!(rt; "0 of {packets} packets are LAPD"),
    };
}

/// Reports why a file could not be read or created.
pub fn print_no_file<D: Display>(rt: &HostRuntime, file: &str, reason: &D) -> ExitCode {
    let _ = eprintln!(rt; "{}", ScriptFault::Device);
    let _ = eprintln!(rt; "{}: {reason}", Escaped(file));
    ExitCode::from(ScriptFault::Device.status())
}

// Reports why a capture was not printed to its end.
fn print_stop(
    rt: &HostRuntime,
    file: &str,
    stop: CaptureStop,
    output: Option<ErrorKind>,
    output_name: &str,
) -> ExitCode {
    match (stop, output) {
        (CaptureStop::Memory, _) => return print_memory(rt),
        (CaptureStop::Capture(..) | CaptureStop::Packet(..), _) => {
            let _ = eprintln!(rt; "{}: {stop}", Escaped(file));
            return ExitCode::from(UNREADABLE);
        }
        (CaptureStop::Input(kind), _) => return print_no_file(rt, file, &KindReason(kind)),
        (CaptureStop::Device, kind) if is_reader_gone(output_name, kind) => {
            return ExitCode::from(READER_GONE);
        }
        (CaptureStop::Device, Some(kind)) => {
            let _ = eprintln!(rt; "{stop}");
            let name = Escaped(output_name);
            let _ = eprintln!(rt; "{name}: {}", KindReason(kind));
        }
        (CaptureStop::Device, None) => {
            let _ = eprintln!(rt; "{stop}");
        }
    }
    ExitCode::from(ScriptFault::Device.status())
}
