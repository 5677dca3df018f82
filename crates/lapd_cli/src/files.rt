//! The command `decode` for files of any kind.

use crate::capture::{STANDARD_INPUT, UNREADABLE, print_no_file, read_capture};
use crate::ending::{COMMAND_LINE, print_memory};
use crate::output::{Output, printed_output};
use crate::run_script;
use lapd_capture::{FileKind, KIND_OCTETS, ReadFault, kind_of_file, take_front};
use lapd_cli_console::Escaped;
use lapd_cli_options::{DecodeOptions, Invocation, Job, PrintedTime};
use lapd_cli_script::{KindReason, Reason, first_line, is_passed_over};
use lapd_log::is_script_line;
use std::fs::File;
use std::io::Read;
use std::process::ExitCode;

/// The forms of files that can be read.
const WANTED: &str = "\
decode reads captures (pcap, pcapng), lines such as user 00817f, and with --loose logs and hex dumps";

/// How many octets of a text are read at a time.
const PART: usize = 512;

/// The most octets of a text that decide whether it is a script.
const MOST_FRONT: usize = 4096;

/// Prints the frames of these files, one file after the other, and reports how that ended. The
/// status is that of the first file that failed. One file is printed to this output, and each of
/// several by itself.
pub fn run_files(
    rt: &HostRuntime,
    chosen: &Invocation<'_>,
    files: &[&str],
    options: DecodeOptions,
    output: Output<'_>,
) -> ExitCode {
    if let [file] = files {
        return run_file(rt, chosen, file, options, output);
    }
    let mut status = ExitCode::SUCCESS;
    for file in files {
        if !options.json {
            let _ = println!(rt; "==> {} <==", Escaped(file));
        }
        let ended = run_file(rt, chosen, file, options, printed_output(rt, chosen));
        if status == ExitCode::SUCCESS {
            status = ended;
        }
    }
    status
}

// Prints the frames of a file, or of standard input.
fn run_file(
    rt: &HostRuntime,
    chosen: &Invocation<'_>,
    file: &str,
    options: DecodeOptions,
    output: Output<'_>,
) -> ExitCode {
    if file == STANDARD_INPUT {
        return read_file(rt, chosen, "standard input", rt.stdin(), options, output);
    }
    match File::open(rt, file) {
        Ok(source) => read_file(rt, chosen, file, source, options, output),
        Err(error) => print_no_file(rt, file, &Reason(&error)),
    }
}

// Prints the frames of this reader, which reads this file, by its content.
fn read_file<R: Read + Drop>(
    rt: &HostRuntime,
    chosen: &Invocation<'_>,
    file: &str,
    source: R,
    options: DecodeOptions,
    output: Output<'_>,
) -> ExitCode {
    let mut source = source;
    let mut front = [0; KIND_OCTETS];
    let count = match take_front(&mut source, &mut front) {
        Ok(count) => count,
        Err(ReadFault::Device(kind)) => return print_no_file(rt, file, &KindReason(kind)),
        Err(_) => return print_memory(rt),
    };
    let front = &front[..count];
    if let Some(reason) = unread_form(front) {
        return print_unread(rt, file, reason);
    }
    match kind_of_file(front) {
        FileKind::Capture if chosen.span.is_some() => print_no_log(rt, file, "a capture"),
        FileKind::Capture => read_capture(
            rt,
            file,
            front.chain(source),
            options,
            chosen.strict,
            output,
        ),
        FileKind::Text => read_text(rt, chosen, file, front.chain(source), options, output),
        FileKind::Gzip => print_unread(
            rt,
            file,
            "compressed by gzip; pipe it: zcat FILE | lapd decode -",
        ),
        FileKind::Other => print_unread(rt, file, "neither a pcap or pcapng file nor text"),
        FileKind::Empty => print_unread(rt, file, "the file is empty"),
    }
}

// The form of a file with these first octets, if it has to be changed before it can be read.
fn unread_form(front: &[u8]) -> Option<&'static str> {
    match front {
        [b'B', b'Z', b'h', ..] => {
            Some("compressed by bzip2; pipe it: bzcat FILE | lapd decode -")
        }
        [0xfd, b'7', b'z', b'X', ..] => {
            Some("compressed by xz; pipe it: xzcat FILE | lapd decode -")
        }
        [0x28, 0xb5, 0x2f, 0xfd, ..] => {
            Some("compressed by zstd; pipe it: zstdcat FILE | lapd decode -")
        }
        [0xff, 0xfe, ..] | [0xfe, 0xff, ..] => {
            Some("text in UTF-16; pipe it: iconv -f UTF-16 -t UTF-8 FILE | lapd decode --loose -")
        }
        _ => None,
    }
}

// Prints the frames of the lines of this reader, which reads this file. A text that does not begin
// as a script is read as a log.
fn read_text<R: Read + Drop>(
    rt: &HostRuntime,
    chosen: &Invocation<'_>,
    file: &str,
    source: R,
    options: DecodeOptions,
    output: Output<'_>,
) -> ExitCode {
    let mut source = source;
    let mut front = Vec::new(rt.alloc());
    match take_first_line(&mut source, &mut front) {
        Ok(()) => {}
        Err(ReadFault::Device(kind)) => return print_no_file(rt, file, &KindReason(kind)),
        Err(_) => return print_memory(rt),
    }
    let is_script = !options.loose && is_script(rt, front.as_slice());
    let source = front.as_slice().chain(source);
    if options.loose {
        return run_script(rt, chosen, Some(file), source, output);
    }
    if !is_script {
        let _ = eprintln!(rt; "{}: read as a log (--loose)", Escaped(file));
        return run_script(rt, &as_log(rt, chosen, options), Some(file), source, output);
    }
    if chosen.span.is_some() {
        return print_no_log(rt, file, "a script");
    }
    match options.time {
        PrintedTime::Hidden => run_script(rt, chosen, Some(file), source, output),
        _ => {
            let file = Escaped(file);
            let _ = eprintln!(rt;
                "error: --time requires a capture or a log, and {file} is a script"
            );
            ExitCode::from(COMMAND_LINE)
        }
    }
}

/// Reports that `--span` is present, and that this file is not a log but of this kind.
pub fn print_no_log(rt: &HostRuntime, file: &str, kind: &str) -> ExitCode {
    let file = Escaped(file);
    let _ = eprintln!(rt; "error: --span requires a log, and {file} is {kind}");
    ExitCode::from(COMMAND_LINE)
}

// Reads octets of a text until they have a line that a script does not skip, at most a number of
// octets.
fn take_first_line<R: Read>(source: &mut R, front: &mut Vec<u8>) -> Result<(), ReadFault> {
    let mut part = [0; PART];
    for _read in 0..MOST_FRONT {
        if first_unskipped(front.as_slice()).1 || front.len() >= MOST_FRONT {
            return Ok(());
        }
        let count = match source.read(&mut part) {
            Ok(0) => return Ok(()),
            Ok(count) => count,
            Err(error) => return Err(ReadFault::Device(error.kind())),
        };
        if front.extend_from_slice(&part[..count]).is_err() {
            return Err(ReadFault::Memory);
        }
    }
    Ok(())
}

// The first line of a text that a script does not skip, and whether it has its line feed. The last
// line if a script skips all.
fn first_unskipped<'a>(text: &'a [u8]) -> (&'a [u8], bool) {
    let mut rest = text;
    for _octet in 0..text.len() {
        let Some((line, behind)) = first_line(rest) else {
            return (rest, false);
        };
        if !is_passed_over(line) {
            return (line, true);
        }
        rest = behind;
    }
    (rest, false)
}

// Whether a text begins as a script: its first line that a script does not skip is a line of one, or
// there is no such line.
fn is_script(rt: &HostRuntime, text: &[u8]) -> bool {
    let (line, _has_feed) = first_unskipped(text);
    is_passed_over(line) || is_script_line(rt.alloc(), line)
}

// The chosen job with the lines of a log.
fn as_log<'a>(rt: &HostRuntime, chosen: &Invocation<'a>, options: DecodeOptions) -> Invocation<'a> {
    Invocation {
        job: Job::Decode(DecodeOptions {
            loose: true,
            ..options
        }),
        address: chosen.address,
        files: Vec::new(rt.alloc()),
        pcap: chosen.pcap,
        svg: chosen.svg,
        html: chosen.html,
        write: chosen.write,
        span: chosen.span,
        clock: chosen.clock,
        is_clock_open: chosen.is_clock_open,
        json: chosen.json,
        strict: chosen.strict,
    }
}

// Reports that a file has no frames that can be read, and which files have.
fn print_unread(rt: &HostRuntime, file: &str, reason: &str) -> ExitCode {
    let _ = eprintln!(rt; "{}: {reason}", Escaped(file));
    let _ = eprintln!(rt; "{WANTED}");
    ExitCode::from(UNREADABLE)
}
