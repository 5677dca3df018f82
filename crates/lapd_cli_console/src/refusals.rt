//! A writer that notes the first refusal.

ghost use Rattle.std.specs.Prelude.{◌≡◌};

use arrayvec::ArrayVec;
use lapd_cli_script::first_line;
use memchr::memchr;
use std::io::{self, Write};

/// The beginning of a line that reports a refusal.
const REFUSED: &[u8] = b"refused ";

/// The beginning of a line that reports a refusal of the network side of a bus.
const NET_REFUSED: &[u8] = b"net refused ";

/// The beginning of a JSON object that reports a refusal.
const REFUSED_OBJECT: &[u8] = b"{\"refused\":";

/// The number of noted octets of a line.
const NOTED: usize = 256;

/// A writer that passes text to another writer, and notes the first refusal if requested. A refusal
/// is a line that begins with `refused `, with a time or a terminal's number and `refused `, or
/// with `net refused `, or an object whose first member is `refused`.
#[derive(Drop)]
pub struct Refusals<W> {
    writer: W,
    noted: Noted,
    is_wanted: bool,
}

impl<W: Write> Refusals<W> {
    /// Passes text to this writer, and notes the first refusal if `is_wanted`. Otherwise it does
    /// not search the text.
    pub fn new(writer: W, is_wanted: bool) -> Refusals<W>
        ensures { result.writer ≡ writer }
    {
        Refusals {
            writer,
            noted: Noted::new(),
            is_wanted,
        }
    }

    /// The first complete line that is a refusal, without its line feed and cut to 256 octets.
    /// Returns `None` if there is none, or if noting was not requested.
    pub fn first(&self) -> Option<&[u8]> {
        self.noted.refusal()
    }

    /// The writer.
    pub fn into_inner(self) -> W
        ensures { result ≡ self.writer }
    {
        self.writer
    }
}

impl<W: Write> Write for Refusals<W> {
    ghost contents = { λ refusals. W.contents refusals.writer };

    fn write(&mut self, octets: &[u8]) -> io::Result<usize> {
        let count = self.writer.write(octets)?;
        if self.is_wanted && !self.noted.is_refused {
            self.noted.note(&octets[..count]);
        }
        Ok(count)
    }

    fn flush(&mut self) -> io::Result<()> {
        self.writer.flush()
    }
}

/// The noted part of a text that is written in parts.
#[derive(Drop)]
struct Noted {
    // The beginning of the current line; once there is a refusal, that line.
    line: ArrayVec<u8, NOTED>,
    is_refused: bool,
}

impl Noted {
    /// No text yet.
    fn new() -> Noted {
        Noted {
            line: ArrayVec::new(),
            is_refused: false,
        }
    }

    /// The first complete line that is a refusal.
    fn refusal(&self) -> Option<&[u8]> {
        if self.is_refused {
            Some(self.line.as_slice())
        } else {
            None
        }
    }

    /// Searches text up to the first refusal.
    fn note(&mut self, octets: &[u8]) {
        let mut rest = octets;
        while let Some((line, left)) = first_line(rest) {
            self.note_end(line);
            rest = left;
        }
        self.lengthen(rest);
    }

    /// Notes the end of a line. Most lines are written whole and are not refusals; they are not
    /// copied at all.
    fn note_end(&mut self, end: &[u8]) {
        if !self.line.is_empty() || is_refusal(end) {
            self.lengthen(end);
            self.end_line();
        }
    }

    /// Appends as many of these octets to the current line as there is room for, unless there is a
    /// refusal.
    fn lengthen(&mut self, octets: &[u8]) {
        if !self.is_refused {
            let room = self.line.remaining_capacity();
            let front = &octets[..octets.len().min(room)];
            let _ = self.line.try_extend_from_slice(front);
        }
    }

    /// Ends the line, which is kept if it is the first refusal.
    fn end_line(&mut self) {
        if is_refusal(self.line.as_slice()) {
            self.is_refused = true;
        } else {
            self.line.clear();
        }
    }
}

/// Whether a line is a refusal. The first octet rules out most lines.
fn is_refusal(line: &[u8]) -> bool {
    match line {
        [b'r', ..] => line.starts_with(REFUSED),
        [b'n', ..] => line.starts_with(NET_REFUSED),
        [b'{', ..] => line.starts_with(REFUSED_OBJECT),
        [octet, ..] => octet.is_ascii_digit() && behind_moment(line).starts_with(REFUSED),
        [] => false,
    }
}

/// The rest of a line after its leading decimal digits and a space. Empty if no space follows the
/// digits.
fn behind_moment(line: &[u8]) -> &[u8] {
    let Some(end) = memchr(b' ', line) else {
        return &[];
    };
    let (moment, behind) = line.split_at(end);
    if moment.iter().all(u8::is_ascii_digit) {
        &behind[1..]
    } else {
        &[]
    }
}
