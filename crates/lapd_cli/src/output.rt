//! The output of a job: standard output, a file, or the table of the calls in its frames.

use crate::capture::{STANDARD_INPUT, print_no_file};
use crate::ending::{print_memory, print_no_output_text, print_protected};
use lapd_cli_calls::RecordCalls;
use lapd_cli_console::{Escaped, OUTPUT_NAME};
use lapd_cli_decode::{FILE_HEADER, PAGE_BEGIN, PAGE_END, PICTURE_BEGIN, PICTURE_END};
use lapd_cli_notes::PictureFile;
use lapd_cli_options::{Invocation, Job, PrintedLayout};
use lapd_cli_outputs::{Content, Protection, protection_of};
use lapd_cli_script::Reason;
use std::io::{self, BufWriter, Stdout, Write};
use std::process::ExitCode;

/// The name of standard output as a file.
const STANDARD_OUTPUT: &str = "-";

/// The destination of a job's text, what it is, and its name in messages.
#[derive(Drop)]
pub struct Output<'a> {
    /// The destination.
    pub writer: Destination<'a>,
    /// What the text is.
    pub text: Text,
    /// Its name: standard output, or the file.
    pub name: &'a str,
}

/// What a job's text is.
#[derive(Clone, Copy, PartialEq, Eq)]
pub enum Text {
    /// Lines.
    Lines,
    /// A picture.
    Picture,
    /// A page for a browser.
    Page,
    /// A capture.
    Capture,
}

impl Text {
    /// The octets before its frames.
    fn begin(self) -> &'static [u8] {
        match self {
            Text::Lines => &[],
            Text::Picture => PICTURE_BEGIN.as_bytes(),
            Text::Page => PAGE_BEGIN.as_bytes(),
            Text::Capture => &FILE_HEADER,
        }
    }

    /// The octets after its frames.
    fn end(self) -> &'static [u8] {
        match self {
            Text::Lines | Text::Capture => &[],
            Text::Picture => PICTURE_END.as_bytes(),
            Text::Page => PAGE_END.as_bytes(),
        }
    }

    /// The number of octets without a frame.
    fn blank(self) -> u64 {
        (self.begin().len() as u64).saturating_add(self.end().len() as u64)
    }

    /// The option of its file.
    fn option(self) -> &'static str {
        match self {
            Text::Lines | Text::Picture => "svg",
            Text::Page => "html",
            Text::Capture => "write",
        }
    }

    /// What its file may replace.
    fn content(self) -> Content {
        match self {
            Text::Lines | Text::Picture | Text::Page => Content::Drawing,
            Text::Capture => Content::Capture,
        }
    }
}

/// The destination of a job's text.
#[derive(Drop)]
pub enum Destination<'a> {
    /// Standard output.
    Standard(Stdout),
    /// A file.
    File(PictureFile<'a>),
    /// The table of the calls in these records, which is printed at the end.
    Calls(RecordCalls),
}

impl Write for Destination<'_> {
    fn write(&mut self, octets: &[u8]) -> io::Result<usize> {
        match self {
            Destination::Standard(out) => out.write(octets),
            Destination::File(file) => file.write(octets),
            Destination::Calls(calls) => calls.write(octets),
        }
    }

    fn flush(&mut self) -> io::Result<()> {
        match self {
            Destination::Standard(out) => out.flush(),
            Destination::File(file) => file.flush(),
            Destination::Calls(calls) => calls.flush(),
        }
    }
}

/// Standard output as the output of a job, or the table of the calls in its frames.
pub fn printed_output(rt: &HostRuntime, chosen: &Invocation<'_>) -> Output<'static> {
    let writer = match layout_of(chosen) {
        PrintedLayout::Calls => Destination::Calls(RecordCalls::new(rt.alloc())),
        _ => Destination::Standard(rt.stdout()),
    };
    Output {
        writer,
        text: Text::Lines,
        name: OUTPUT_NAME,
    }
}

// The layout of the chosen job.
fn layout_of(chosen: &Invocation<'_>) -> PrintedLayout {
    match &chosen.job {
        Job::Decode(options) => options.layout,
        _ => PrintedLayout::Lines,
    }
}

/// The output of the chosen job: its file, or what is printed. The status if the file must not be
/// overwritten, which is reported.
pub fn output_of<'a>(
    rt: &'a HostRuntime,
    chosen: &'a Invocation<'_>,
) -> Result<Output<'a>, ExitCode> {
    match (chosen.svg, chosen.html, chosen.write) {
        (Some(name), _, _) => file_output(rt, chosen, Text::Picture, name),
        (None, Some(name), _) => file_output(rt, chosen, Text::Page, name),
        (None, None, Some(name)) => file_output(rt, chosen, Text::Capture, name),
        (None, None, None) => Ok(printed_output(rt, chosen)),
    }
}

// This text in this file, or on standard output.
fn file_output<'a>(
    rt: &'a HostRuntime,
    chosen: &'a Invocation<'_>,
    text: Text,
    name: &'a str,
) -> Result<Output<'a>, ExitCode> {
    if name == STANDARD_OUTPUT {
        return Ok(Output {
            writer: Destination::Standard(rt.stdout()),
            text,
            name: OUTPUT_NAME,
        });
    }
    match protection_by_inputs(rt, chosen, text, name) {
        Ok(None) => Ok(Output {
            writer: Destination::File(PictureFile::new(rt, name)),
            text,
            name,
        }),
        Ok(Some(protection)) => Err(print_protected(rt, text.option(), name, protection)),
        Err(error) => Err(print_no_file(rt, name, &Reason(&error))),
    }
}

// Why this text of the chosen job must not overwrite this file.
fn protection_by_inputs(
    rt: &HostRuntime,
    chosen: &Invocation<'_>,
    text: Text,
    name: &str,
) -> io::Result<Option<Protection>> {
    let files = chosen.files.as_slice();
    if files.is_empty() {
        let input = chosen.pcap.unwrap_or(STANDARD_INPUT);
        protection_of(rt, name, text.content(), &[input])
    } else {
        protection_of(rt, name, text.content(), files)
    }
}

/// Writes the beginning of a text, and so makes its file. Returns whether the writer did not fail.
pub fn begin_text<W: Write>(text: Text, out: &mut W) -> bool {
    text == Text::Lines || out.write_all(text.begin()).is_ok() && out.flush().is_ok()
}

/// Writes the end of a text. Returns whether the writer did not fail.
pub fn end_text<W: Write>(text: Text, out: &mut W) -> bool {
    text == Text::Lines || out.write_all(text.end()).is_ok() && out.flush().is_ok()
}

/// Ends the output of this text after a job that ended with this status. A file replaces another
/// only if the input was read to its end, and if it has a frame; else that is reported.
pub fn close_output(
    rt: &HostRuntime,
    writer: Destination<'_>,
    text: Text,
    name: &str,
    is_read: bool,
    status: ExitCode,
) -> ExitCode {
    match writer {
        Destination::Standard(_) => status,
        Destination::File(file) => close_file(rt, file, text, name, is_read, status),
        Destination::Calls(calls) => print_calls(rt, &calls, status),
    }
}

// Ends the file of a text.
fn close_file(
    rt: &HostRuntime,
    file: PictureFile<'_>,
    text: Text,
    name: &str,
    is_read: bool,
    status: ExitCode,
) -> ExitCode {
    let has_begun = 0 < file.written();
    let is_blank = file.written() == text.blank();
    match file.finish(is_read && !is_blank) {
        Ok(is_made) => {
            if !is_made && has_begun {
                print_kept(rt, text, name, is_read && is_blank);
            }
            status
        }
        Err(error) => print_no_file(rt, name, &Reason(&error)),
    }
}

// Reports that a text did not replace this file.
fn print_kept(rt: &HostRuntime, text: Text, name: &str, is_blank: bool) {
    let name = Escaped(name);
    let _ = match (is_blank, text) {
        (false, _) => eprintln!(rt; "{name} is unchanged"),
        (true, Text::Capture) => eprintln!(rt; "{name} is unchanged: no frame is written"),
        (true, _) => eprintln!(rt; "{name} is unchanged: no frame is drawn"),
    };
}

// Prints the table of the calls.
fn print_calls(rt: &HostRuntime, calls: &RecordCalls, status: ExitCode) -> ExitCode {
    let Ok(mut out) = BufWriter::new(rt.alloc(), rt.stdout()) else {
        return print_memory(rt);
    };
    let table = calls.table();
    if table.is_empty() {
        let _ = eprintln!(rt; "the frames have no call of Q.931");
    }
    match table.write(&mut out) {
        Ok(()) => match out.flush() {
            Ok(()) => status,
            Err(error) => print_no_output_text(rt, error.kind()),
        },
        Err(error) => print_no_output_text(rt, error.kind()),
    }
}
