//! How the program ends: its exit status, and its report on standard error. The first line names
//! the fault, the second the reason. Failed writes to standard error are ignored.

ghost use Rattle.std.specs.Prelude.{◌≡◌, ◌&&◌, IfNone, IfSome, if◌then◌else◌};
ghost use Rattle.lapd_cli_script.specs.Script.{status_of as status_of_fault};

use lapd_cli_console::{
    Escaped, EscapedLines, FaultReport, OUTPUT_NAME, READER_GONE, Script, is_reader_gone,
};
use lapd_cli_options::{Clock, NoInvocation, WordsFault};
use lapd_cli_outputs::{NoFile, NoTaps, Protection};
use lapd_cli_script::{KindReason, Reason, ScriptFault};
use std::alloc::AllocError;
use std::fmt::Display;
use std::io::{self, ErrorKind};
use std::process::ExitCode;

/// The exit status after a fault in the command line.
pub const COMMAND_LINE: u8 = 2;

/// The exit status after a script with a refused line, or with a frame that violates Q.921, under
/// `--strict`, and after `expect` has failed.
const REFUSED: u8 = 5;

/// The reason if a text does not have the form of an address.
const NO_ADDRESS: &str = "expected HOST:PORT, such as 127.0.0.1:4000";

/// What to do about a bad line of `decode`.
const LOOSE: &str = "--loose reads logs, hex dumps and octets alone";

/// Why a script did not run to its end.
#[derive(Drop)]
pub enum Stop {
    /// The connection could not be established.
    NoConnection(io::Error),
    /// The command ended with this fault.
    Script(ScriptFault),
    /// An expected line was not printed in time.
    Unmet,
    /// A frame that was followed violates Q.921, under `--strict`.
    Violated,
    /// The capture, the ladder or the GSMTAP socket could not be opened.
    NoTaps(NoTaps),
}

impl From<AllocError> for Stop {
    fn from(_error: AllocError) -> Stop {
        Stop::Script(ScriptFault::Memory)
    }
}

/// The facts that are known when a script has ended.
#[derive(Clone, Copy)]
pub struct Ending<'a> {
    /// The file of the script; standard input if `None`.
    pub file: Option<&'a str>,
    /// Whether lines of more forms were read (`decode --loose`). Then a bad line continues a dump.
    pub is_loose: bool,
    /// The facts that the report of a fault needs.
    pub report: FaultReport<'a>,
    /// The clock of the command.
    pub clock: Clock<'a>,
    /// The address of `net` or `user`; empty for other commands.
    pub address: &'a str,
    /// Whether the exit status reports refused lines (`--strict`).
    pub strict: bool,
    /// The printed text of the first refused line; empty if no line was refused, or without
    /// `--strict`.
    pub refusal: &'a [u8],
}

/// Reports how a script ended, and returns the exit status.
pub fn print_ending(rt: &HostRuntime, ending: &Ending<'_>, ended: &Result<(), Stop>) -> ExitCode {
    let fault = match ended {
        Ok(()) => {
            print_refusal(rt, ending);
            None
        }
        Err(Stop::NoConnection(error)) => {
            print_no_connection(rt, ending, error);
            Some(ScriptFault::Device)
        }
        Err(Stop::NoTaps(taps)) => return print_no_taps(rt, ending, taps),
        Err(Stop::Script(fault)) if ending.report.is_reader_gone(*fault) => {
            return ExitCode::from(READER_GONE);
        }
        Err(Stop::Script(fault)) => {
            print_script_fault(rt, ending, *fault);
            Some(*fault)
        }
        Err(Stop::Unmet) => {
            let _ = eprintln!(rt; "an expected line was not printed in time");
            return ExitCode::from(REFUSED);
        }
        Err(Stop::Violated) => return print_violation(rt),
    };
    ExitCode::from(status_of(fault, ending.strict, !ending.refusal.is_empty()))
}

// Reports the fault of a script, and its file.
fn print_script_fault(rt: &HostRuntime, ending: &Ending<'_>, fault: ScriptFault) {
    match (ending.file, fault, ending.report.input) {
        (Some(file), ScriptFault::Device, Some(kind)) => {
            let _ = eprintln!(rt; "{fault}");
            let _ = eprintln!(rt; "{}: {}", Escaped(file), KindReason(kind));
        }
        (Some(file), ScriptFault::BadLine(_), _) => {
            let _ = eprint!(rt; "{}: ", Escaped(file));
            print_bad_line(rt, ending, fault);
        }
        _ => print_bad_line(rt, ending, fault),
    }
}

// Reports the fault of a script, with its reason.
fn print_bad_line(rt: &HostRuntime, ending: &Ending<'_>, fault: ScriptFault) {
    match fault {
        ScriptFault::BadLine(_) if ending.is_loose => {
            let _ = eprintln!(rt; "{fault}");
            let _ = eprintln!(rt;
                "the line continues a hex dump, and the octets before it are missing"
            );
        }
        _ => {
            ending.report.print(rt, fault);
            if matches!(
                (ending.report.script, fault),
                (Script::Decode, ScriptFault::BadLine(_))
            ) {
                let _ = eprintln!(rt; "{LOOSE}");
            }
        }
    }
}

// The exit status after a script, by the fault that ended it, if any, and whether a line was
// refused.
fn status_of(fault: Option<ScriptFault>, strict: bool, is_refused: bool) -> u8
    ensures done { IfNone fault (result ≡ (if strict && is_refused then 5 else 0)) }
    ensures fault { IfSome fault (λ fault. result ≡ status_of_fault fault) }
{
    match fault {
        Some(fault) => fault.status(),
        None if strict && is_refused => REFUSED,
        None => 0,
    }
}

/// Reports that a frame violates Q.921, under `--strict`.
pub fn print_violation(rt: &HostRuntime) -> ExitCode {
    let _ = eprintln!(rt; "a frame violates Q.921");
    ExitCode::from(REFUSED)
}

// Reports which line was refused first, under `--strict`.
fn print_refusal(rt: &HostRuntime, ending: &Ending<'_>) {
    if ending.strict && !ending.refusal.is_empty() {
        let _ = eprintln!(rt; "a line of the script was refused");
        let _ = eprintln!(rt; "first refusal: {}", text_of(ending.refusal));
    }
}

// Reports why the connection could not be established.
fn print_no_connection(rt: &HostRuntime, ending: &Ending<'_>, error: &io::Error) {
    let (what, whom) = match ending.report.script {
        Script::Net | Script::LiveNet => ("listen on", ending.address),
        Script::User | Script::LiveUser => ("connect to", ending.address),
        _ => ("connect to", "itself"),
    };
    print_unreachable(rt, what, whom, error);
}

// Reports a device fault of an address, and why. The system's calls themselves refuse a text that
// does not have the form of an address.
fn print_unreachable(rt: &HostRuntime, what: &str, address: &str, error: &io::Error) {
    if error.kind() == ErrorKind::InvalidInput && error.raw_os_error().is_none() {
        print_impossible(rt, what, address, &NO_ADDRESS);
    } else {
        print_impossible(rt, what, address, &Reason(error));
    }
}

// Reports a device fault: what could not be done, with which file or address, and why.
fn print_impossible<D: Display>(rt: &HostRuntime, what: &str, whom: &str, reason: &D) {
    let _ = eprintln!(rt; "{}", ScriptFault::Device);
    let _ = eprintln!(rt; "cannot {what} {}: {reason}", Escaped(whom));
}

// Reports why the capture, the ladder or the GSMTAP socket could not be opened.
fn print_no_taps(rt: &HostRuntime, ending: &Ending<'_>, taps: &NoTaps) -> ExitCode {
    let (pcap, ladder, gsmtap) = match ending.clock {
        Clock::Real(options) => (options.pcap, options.ladder, options.gsmtap),
        Clock::Script => (None, None, None),
    };
    match taps {
        NoTaps::Capture(fault) => {
            return print_no_output(rt, "pcap", pcap.unwrap_or(""), fault);
        }
        NoTaps::Ladder(fault) => {
            return print_no_output(rt, "ladder", ladder.unwrap_or(""), fault);
        }
        NoTaps::SameFile => return print_same_file(rt, ladder.unwrap_or("")),
        NoTaps::Socket(error) => print_unreachable(rt, "send to", gsmtap.unwrap_or(""), error),
        NoTaps::Memory => return print_memory(rt),
    }
    ExitCode::from(ScriptFault::Device.status())
}

// Reports why the file of this option is not written.
fn print_no_output(rt: &HostRuntime, option: &str, file: &str, fault: &NoFile) -> ExitCode {
    match fault {
        NoFile::Device(error) => {
            print_impossible(rt, "write", file, &Reason(error));
            ExitCode::from(ScriptFault::Device.status())
        }
        NoFile::Protected(protection) => print_protected(rt, option, file, *protection),
    }
}

// Reports that the capture and the ladder have the same file.
fn print_same_file(rt: &HostRuntime, file: &str) -> ExitCode {
    let file = Escaped(file);
    let _ = eprintln!(rt; "error: --pcap and --ladder name the same file {file}; name two files");
    ExitCode::from(COMMAND_LINE)
}

/// Reports that the file of this option must not be overwritten, and what to do.
pub fn print_protected(
    rt: &HostRuntime,
    option: &str,
    file: &str,
    protection: Protection,
) -> ExitCode {
    let file = Escaped(file);
    let _ = eprint!(rt; "error: --{option} would overwrite ");
    let _ = match protection {
        Protection::Input => eprintln!(rt; "its input {file}; name another file"),
        Protection::Stream(stream) => {
            eprintln!(rt; "{stream}, the file {file}; name another file")
        }
        Protection::Capture if option == "svg" => eprintln!(rt;
            "the capture {file}; name the picture first: --svg FILE.svg {file}"
        ),
        Protection::Capture => eprintln!(rt; "the capture {file}; name another file"),
        Protection::NotText => eprintln!(rt; "{file}, which is not text; name another file"),
        Protection::NotCapture => {
            eprintln!(rt; "{file}, which is not a capture; name another file")
        }
    };
    ExitCode::from(COMMAND_LINE)
}

// A printed line as text; empty if it is not UTF-8.
fn text_of(line: &[u8]) -> &str {
    str::from_utf8(line).unwrap_or("")
}

/// Reports that an allocation failed before the script began.
pub fn print_memory(rt: &HostRuntime) -> ExitCode {
    let _ = eprintln!(rt; "{}", ScriptFault::Memory);
    ExitCode::from(ScriptFault::Memory.status())
}

/// Reports why the program's words could not be read.
pub fn print_words_fault(rt: &HostRuntime, fault: WordsFault) -> ExitCode {
    if fault == WordsFault::Memory {
        return print_memory(rt);
    }
    let _ = eprintln!(rt; "{fault}");
    ExitCode::from(COMMAND_LINE)
}

/// Prints the requested help or version, or reports what is wrong with the words.
pub fn print_no_invocation(rt: &HostRuntime, unchosen: &NoInvocation<'_>) -> ExitCode {
    match unchosen {
        NoInvocation::Shown(text) => show(rt, text.as_str()),
        NoInvocation::Memory => print_memory(rt),
        _ => {
            let Ok(text) = format!(in rt.alloc(); "{unchosen}") else {
                return print_memory(rt);
            };
            let _ = eprint!(rt; "{}", EscapedLines(text.as_str()));
            ExitCode::from(COMMAND_LINE)
        }
    }
}

// Prints a text on standard output.
fn show(rt: &HostRuntime, text: &str) -> ExitCode {
    let Err(error) = print!(rt; "{text}") else {
        return ExitCode::SUCCESS;
    };
    print_no_output_text(rt, error.kind())
}

/// Reports that standard output could not be written, unless its reader has ended.
pub fn print_no_output_text(rt: &HostRuntime, kind: ErrorKind) -> ExitCode {
    if is_reader_gone(OUTPUT_NAME, Some(kind)) {
        return ExitCode::from(READER_GONE);
    }
    let _ = eprintln!(rt; "{}", ScriptFault::Device);
    let _ = eprintln!(rt; "{OUTPUT_NAME}: {}", KindReason(kind));
    ExitCode::from(ScriptFault::Device.status())
}
