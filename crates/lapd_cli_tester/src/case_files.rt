//! The files of a case that failed: a capture, its frames as lines for `decode`, and a script of
//! `answer`.

ghost use Rattle.std.specs.Prelude.{◌≤◌, length};

use crate::refused::{print_memory, print_no_file};
use lapd_capture::{FILE_HEADER, MOST_FRAME, record_of};
use lapd_cli_conform::{CaseReport, Happening, Played, Stack, What, push_answer_script, push_line};
use lapd_conform::request_word;
use lapd_frame::Side;
use std::alloc::{AllocError, Global};
use std::fs::{self, File};
use std::io::{self, ErrorKind, Write};
use std::time::{SystemTime, UNIX_EPOCH};

/// A folder for the files of cases that fail.
#[derive(Drop)]
pub(crate) struct CaseFiles<'a> {
    rt: &'a HostRuntime,
    stack: &'a Stack,
    folder: &'a str,
    /// The time of moment 0, in milliseconds since 1970.
    start: u64,
}

impl<'a> CaseFiles<'a> {
    /// Files in this folder, which is made if it does not exist.
    ///
    /// # Errors
    ///
    /// The exit status if there is no such folder, which is reported.
    pub fn new(
        rt: &'a HostRuntime,
        stack: &'a Stack,
        folder: &'a str,
    ) -> Result<CaseFiles<'a>, u8> {
        match made(rt, folder) {
            Ok(()) => Ok(CaseFiles {
                rt,
                stack,
                folder,
                start: milliseconds_now(rt),
            }),
            Err(error) => Err(print_no_file(rt, folder, &error)),
        }
    }

    /// Writes the files of a case.
    ///
    /// # Errors
    ///
    /// The exit status if a file is not written, which is reported.
    pub fn write(&self, report: &CaseReport<'_>, source: &[u8], played: &Played) -> Result<(), u8> {
        let alloc = self.rt.alloc();
        let happenings = played.happenings.as_slice();
        let side = self.stack.side;
        let Ok(capture) = capture_of(alloc, side, self.start, happenings) else {
            return Err(print_memory(self.rt));
        };
        self.write_file(report.name, "pcap", capture.as_slice())?;
        let Ok(text) = frames_of(alloc, side, report, source, played) else {
            return Err(print_memory(self.rt));
        };
        self.write_file(report.name, "txt", text.as_slice())?;
        if tests_link(report.name) {
            self.write_script(report.name, happenings)
        } else {
            Ok(())
        }
    }

    /// Writes a script of `lapd answer`, which prints what our link does in the place of the stack.
    fn write_script(&self, name: &[u8], happenings: &[Happening]) -> Result<(), u8> {
        let mut text = Vec::new(self.rt.alloc());
        let file = str::from_utf8(name).unwrap_or("case");
        match push_answer_script(self.rt.alloc(), &mut text, self.stack, file, happenings) {
            Ok(()) => self.write_file(name, "answer", text.as_slice()),
            Err(_) => Err(print_memory(self.rt)),
        }
    }

    /// Writes the file of this case with this ending.
    fn write_file(&self, name: &[u8], ending: &str, text: &[u8]) -> Result<(), u8> {
        let name = str::from_utf8(name).unwrap_or("case");
        let folder = self.folder;
        let Ok(path) = format!(in self.rt.alloc(); "{folder}/{name}.{ending}") else {
            return Err(print_memory(self.rt));
        };
        match written(self.rt, path.as_str(), text) {
            Ok(()) => Ok(()),
            Err(error) => Err(print_no_file(self.rt, path.as_str(), &error)),
        }
    }
}

/// Whether the case with this name tests a link.
fn tests_link(name: &[u8]) -> bool {
    matches!(name, [b'4'..=b'8', ..])
}

/// Makes a folder, unless it exists.
fn made(rt: &HostRuntime, folder: &str) -> io::Result<()> {
    match fs::metadata(rt, folder) {
        Ok(found) if found.is_dir() => Ok(()),
        Ok(_) => Err(io::Error::from(ErrorKind::NotADirectory)),
        Err(_) => fs::create_dir_all(rt, folder),
    }
}

fn written(rt: &HostRuntime, path: &str, text: &[u8]) -> io::Result<()> {
    let mut file = File::create(rt, path)?;
    file.write_all(text)
}

/// The time of the system's clock, in milliseconds since 1970; 0 if it can't be read.
fn milliseconds_now(rt: &HostRuntime) -> u64 {
    let Ok(now) = SystemTime::now(rt) else {
        return 0;
    };
    match now.duration_since(UNIX_EPOCH) {
        Ok(passed) => u64::try_from(passed.as_millis()).unwrap_or(u64::MAX),
        Err(_) => 0,
    }
}

/// The other side.
fn peer_of(side: Side) -> Side {
    match side {
        Side::Network => Side::User,
        Side::User => Side::Network,
    }
}

/// The sender of a frame. `None` for a request.
fn sender_of(side: Side, what: What) -> Option<Side> {
    match what {
        What::Sent => Some(peer_of(side)),
        What::Received => Some(side),
        What::Requested(_) => None,
    }
}

/// A pcap file of the frames. Of a frame that is too long for a capture of LAPD the first octets.
fn capture_of(
    alloc: Global,
    side: Side,
    start: u64,
    happenings: &[Happening],
) -> Result<Vec<u8>, AllocError> {
    let mut capture = Vec::new(alloc);
    capture.extend_from_slice(&FILE_HEADER)?;
    for happening in happenings {
        if let Some(from) = sender_of(side, happening.what) {
            let moment = start.saturating_add(happening.at);
            let frame = happening.octets.as_slice();
            push_record(
                &mut capture,
                peer_of(side),
                from,
                moment,
                &frame[..frame.len().min(MOST_FRAME)],
            )?;
        }
    }
    Ok(capture)
}

/// Appends the record of a frame.
fn push_record(
    capture: &mut Vec<u8>,
    own: Side,
    from: Side,
    moment: u64,
    frame: &[u8],
) -> Result<(), AllocError>
    requires { length frame.now ≤ MOST_FRAME }
{
    let record = record_of(own, from, moment, frame);
    capture.extend_from_slice(record.as_slice())
}

/// The frames as lines that `decode` reads. The result, the case, the moments and the requests are
/// comments.
fn frames_of(
    alloc: Global,
    side: Side,
    report: &CaseReport<'_>,
    source: &[u8],
    played: &Played,
) -> Result<Vec<u8>, AllocError> {
    let mut text = Vec::new(alloc);
    text.extend_from_slice(b"# ")?;
    push_line(&mut text, report)?;
    text.extend_from_slice(b"#\n# The case:\n")?;
    push_comments(&mut text, source)?;
    text.extend_from_slice(b"#\n# Its frames, with moments. `lapd decode FILE` prints them.\n")?;
    let start = match played.happenings.as_slice().first() {
        Some(first) => first.at,
        None => 0,
    };
    for place in 0..played.happenings.len() {
        if played.refused == Some(place) {
            text.extend_from_slice(b"# The state table does not allow the next frame.\n")?;
        }
        if let Some(happening) = played.happenings.get(place) {
            push_happening(alloc, &mut text, side, happening, start)?;
        }
    }
    Ok(text)
}

/// Appends lines, each as a comment.
fn push_comments(text: &mut Vec<u8>, source: &[u8]) -> Result<(), AllocError> {
    let mut is_begun = false;
    for octet in source {
        if !is_begun {
            text.extend_from_slice(b"#   ")?;
            is_begun = true;
        }
        text.push(*octet)?;
        if *octet == b'\n' {
            is_begun = false;
        }
    }
    if is_begun {
        text.push(b'\n')?;
    }
    Ok(())
}

/// Appends a frame or a request, after its moment.
fn push_happening(
    alloc: Global,
    text: &mut Vec<u8>,
    side: Side,
    happening: &Happening,
    start: u64,
) -> Result<(), AllocError> {
    let moment = happening.at.saturating_sub(start);
    let line = match happening.what {
        What::Requested(request) => {
            let word = request_word(request);
            format!(in alloc; "# {moment} ms: the upper tester: {word}\n")?
        }
        _ => format!(in alloc; "# {moment} ms\n")?,
    };
    text.extend_from_slice(line.as_bytes())?;
    match sender_of(side, happening.what) {
        Some(from) => push_frame(alloc, text, from, happening.octets.as_slice()),
        None => Ok(()),
    }
}

/// Appends the line of a frame, as `decode` reads it.
fn push_frame(
    alloc: Global,
    text: &mut Vec<u8>,
    from: Side,
    octets: &[u8],
) -> Result<(), AllocError> {
    let word = match from {
        Side::Network => "net",
        Side::User => "user",
    };
    text.extend_from_slice(word.as_bytes())?;
    let mut gap = " ";
    for octet in octets {
        let digits = format!(in alloc; "{gap}{octet:02x}")?;
        text.extend_from_slice(digits.as_bytes())?;
        gap = "";
    }
    text.push(b'\n')?;
    Ok(())
}
