//! The program `lapd`. Depending on its command, it
//!
//! - executes a script on one end of a link of the ISDN D channel (ITU-T Q.921),
//! - simulates two ends and the line between them, also over a socket,
//! - runs a whole side of an interface over a socket,
//! - assigns TEIs on a bus of terminals,
//! - prints octets as trace lines, or
//! - tests the conformance of another stack.
//!
//! The program reads a script on standard input, a line for each event, and writes the output of
//! each line to standard output before it reads more. The commands are in `lapd_cli_link_commands`
//! and `lapd_cli_side_commands`, the execution of a script in `lapd_cli_script`, the command line
//! in `lapd_cli_options`, and the messages to people about a script in `lapd_cli_console`.
#![tactic(auto)]

mod capture;
mod conform;
mod console_notes;
mod ending;
mod files;
mod greeting;
mod job;
mod line_ladder;
mod live;
mod local_zone;
mod log;
mod output;

use capture::run_capture;
use conform::run_conform;
use ending::{
    COMMAND_LINE, Ending, Stop, print_ending, print_memory, print_no_invocation, print_words_fault,
};
use files::{print_no_log, run_files};
use greeting::Greeting;
use job::{run_job, script_of};
use lapd_cli_console::{FaultReport, PrintedAnswers, RecentLines, Refusals, Session, Watched};
use lapd_cli_options::{Chosen, Clock, DecodeOptions, Invocation, Job, parse_words, words};
use lapd_cli_script::ScriptFault;
use output::{Output, Text, begin_text, close_output, end_text, output_of};
use std::io::{BufWriter, IsTerminal, Read, Write};
use std::process::ExitCode;

fn main(rt: HostRuntime) -> ExitCode {
    let words = match words(rt.alloc(), &rt) {
        Ok(words) => words,
        Err(fault) => return print_words_fault(&rt, fault),
    };
    match parse_words(rt.alloc(), words.as_slice()) {
        Ok(Chosen::Script(chosen)) => run_chosen(&rt, &for_input(&rt, chosen)),
        Ok(Chosen::Conform(conformance)) => run_conform(&rt, &conformance),
        Err(unchosen) => print_no_invocation(&rt, &unchosen),
    }
}

// The chosen job. At a terminal `net` and `user` use the real clock if no clock is named.
fn for_input<'a>(rt: &HostRuntime, chosen: Invocation<'a>) -> Invocation<'a> {
    if rt.stdin().is_terminal() {
        chosen.typed()
    } else {
        chosen
    }
}

// Runs the chosen job. Its output is written to standard output, or to a file.
fn run_chosen(rt: &HostRuntime, chosen: &Invocation<'_>) -> ExitCode {
    match output_of(rt, chosen) {
        Ok(output) => run_output(rt, chosen, output),
        Err(status) => status,
    }
}

// Runs the chosen job with this output.
fn run_output(rt: &HostRuntime, chosen: &Invocation<'_>, output: Output<'_>) -> ExitCode {
    match &chosen.job {
        Job::Decode(options) => run_decode(rt, chosen, *options, output),
        _ => run_lines(rt, chosen, output),
    }
}

// Runs `decode` over its files, its capture or standard input.
fn run_decode(
    rt: &HostRuntime,
    chosen: &Invocation<'_>,
    options: DecodeOptions,
    output: Output<'_>,
) -> ExitCode {
    match (chosen.files.as_slice(), chosen.pcap) {
        ([], Some(file)) if chosen.span.is_some() => print_no_log(rt, file, "a capture"),
        ([], None) if chosen.span.is_some() && !options.loose => {
            let _ = eprintln!(rt; "error: --span requires a log: FILE, or --loose");
            ExitCode::from(COMMAND_LINE)
        }
        ([], Some(file)) => run_capture(rt, file, options, chosen.strict, output),
        ([], None) => run_lines(rt, chosen, output),
        (files, _) => run_files(rt, chosen, files, options, output),
    }
}

// Runs the chosen job over standard input. At a terminal, a bad line is reported and the next one
// awaited.
fn run_lines(rt: &HostRuntime, chosen: &Invocation<'_>, output: Output<'_>) -> ExitCode {
    if rt.stdin().is_terminal() && has_forms(chosen) {
        let script = script_of(&chosen.job, &chosen.clock);
        let answers = PrintedAnswers::new(rt.stderr());
        let session = Session::new(rt.alloc(), script, rt.reader(), answers);
        run_script(
            rt,
            chosen,
            None,
            Greeting::new(session, rt.stderr()),
            output,
        )
    } else {
        run_script(rt, chosen, None, rt.stdin(), output)
    }
}

// Whether a session at a terminal knows the forms of the job's lines. With the real clock a side
// has its own session.
fn has_forms(chosen: &Invocation<'_>) -> bool {
    match &chosen.job {
        Job::Decode(options) => !options.loose,
        _ => matches!(chosen.clock, Clock::Script),
    }
}

/// Runs the chosen job over a script from this reader, and reports how it ended. The reader is
/// standard input if `file` is `None`.
pub fn run_script<R: Read + Drop>(
    rt: &HostRuntime,
    chosen: &Invocation<'_>,
    file: Option<&str>,
    reader: R,
    destination: Output<'_>,
) -> ExitCode {
    let Output { writer, text, name } = destination;
    let mut recent = RecentLines::new(reader);
    let watched = Watched::new(Refusals::new(writer, chosen.strict));
    let Ok(mut out) = BufWriter::new(rt.alloc(), watched) else {
        return print_memory(rt);
    };
    let ended = run_framed(rt, chosen, text, &mut recent, &mut out);
    // Text that a failed writer did not accept is dropped.
    let (watched, _left) = out.into_parts();
    let output = watched.fault();
    let refusals = watched.into_inner();
    let ending = Ending {
        file,
        is_loose: is_loose(&chosen.job),
        report: FaultReport {
            script: script_of(&chosen.job, &chosen.clock),
            line: bad_line(&recent, &ended),
            input: recent.fault(),
            output,
            output_name: name,
        },
        clock: chosen.clock,
        address: chosen.address.unwrap_or(""),
        strict: chosen.strict,
        refusal: refusals.first().unwrap_or(&[]),
    };
    let status = print_ending(rt, &ending, &ended);
    let is_read = matches!(ended, Ok(()) | Err(Stop::Violated));
    close_output(rt, refusals.into_inner(), text, name, is_read, status)
}

// Whether the job reads lines of more forms.
fn is_loose(job: &Job) -> bool {
    match job {
        Job::Decode(options) => options.loose,
        _ => false,
    }
}

// Runs the chosen job, between the beginning and the end of its text.
fn run_framed<R: Read, W: Write>(
    rt: &HostRuntime,
    chosen: &Invocation<'_>,
    text: Text,
    script: &mut R,
    out: &mut W,
) -> Result<(), Stop> {
    if !begin_text(text, out) {
        return Err(Stop::Script(ScriptFault::Device));
    }
    let ended = run_job(rt, chosen, script, out);
    if !end_text(text, out) && ended.is_ok() {
        return Err(Stop::Script(ScriptFault::Device));
    }
    ended
}

// The bad line; empty if no line was bad, or if it is no longer kept.
fn bad_line<'a, R: Read>(lines: &'a RecentLines<R>, ended: &Result<(), Stop>) -> &'a [u8] {
    match ended {
        Err(Stop::Script(ScriptFault::BadLine(number))) => lines.line(*number).unwrap_or(&[]),
        _ => &[],
    }
}
