//! A scenario: the calls of a command's reader, writer and port, line by line. The command must
//! read, print and send exactly this, in this order.
//!
//! A line of a scenario is one of these:
//!
//! - a line of the script;
//! - a printed line, indented by four spaces;
//! - octets on the port, in hexadecimal digits: `<` before the octets of one read, `>` before the
//!   octets of one write;
//! - `.` alone: the end of the script, if something is printed after it;
//! - `!` and a fault, or nothing: the result of the command. This line is the last; nothing may be
//!   read or written after it.
//!
//! At a `*` the call fails, and at a `%` it is interrupted.

ghost use Rattle.std.specs.Prelude.{◌≤◌, IfOk, length};

use lapd_cli_script::ScriptFault;
use memchr::memchr2;
use std::alloc::Global;
use std::cell::Cell;
use std::io::{self, ErrorKind, Read, Write};

/// The rest of a scenario that is running.
#[derive(Drop)]
pub struct Scenario<'a> {
    /// The rest of it, from the beginning of the current line.
    line: Cell<&'a [u8]>,
    /// The rest of it.
    pub(crate) left: Cell<&'a [u8]>,
    /// The most octets per call.
    most: usize,
    /// The kind of the last failure of the script's reader or of the writer.
    pub(crate) fault: Cell<Option<ErrorKind>>,
}

/// The beginnings of lines that are not lines of the script.
const MARKS: &[&[u8]] = &[b"    ", b"<", b">", b".", b"!"];

/// The kinds of failures, which the scenario uses in turn.
const KINDS: &[ErrorKind] = &[
    ErrorKind::WouldBlock,
    ErrorKind::BrokenPipe,
    ErrorKind::PermissionDenied,
];

/// The rest of a scenario after a call that was not expected.
const WRONG: &[u8] = b"!?";

/// The mark at the beginning of a line.
pub(crate) fn mark_of(line: &[u8]) -> &'static [u8] {
    for mark in MARKS {
        if line.starts_with(mark) {
            return mark;
        }
    }
    b""
}

/// The front of the rest that one call may move: up to the octet `stop`, or to the line feed, which
/// is included.
fn part_of(left: &[u8], stop: u8) -> &[u8] {
    let end = memchr2(b'\n', stop, left).unwrap_or(left.len());
    match left.get(end) {
        Some(b'\n') => left.get(..end.saturating_add(1)).unwrap_or(left),
        _ => left.get(..end).unwrap_or(left),
    }
}

impl<'a> Scenario<'a> {
    /// A scenario at its beginning.
    pub fn new(text: &'a str, most: usize) -> Scenario<'a> {
        Scenario {
            line: Cell::new(text.as_bytes()),
            left: Cell::new(text.as_bytes()),
            most,
            fault: Cell::new(None),
        }
    }

    /// Makes every further call unexpected.
    fn wrong(&self) -> io::Error {
        self.line.set(WRONG);
        self.left.set(WRONG);
        io::Error::from(ErrorKind::Other)
    }

    /// The octets that one call moves of a line with this mark, up to the octet `stop`.
    fn due(&self, mark: &'static [u8], stop: u8) -> io::Result<&'a [u8]> {
        if mark_of(self.line.get()) != mark {
            return Err(self.wrong());
        }
        let left = self.left.get();
        // A printed line may continue with the spaces that mark its beginning.
        let left = if mark == b"    ".as_slice() && self.is_within_line() {
            left
        } else {
            left.strip_prefix(mark).unwrap_or(left)
        };
        self.left.set(left);
        match left {
            [b'*', ..] => Err(self.failure(stop)),
            [b'%', b'\n', ..] => Err(self.interruption(2)),
            [b'%', ..] => Err(self.interruption(1)),
            _ => Ok(part_of(left, stop)),
        }
    }

    /// Makes the call fail.
    fn failure(&self, stop: u8) -> io::Error {
        let left = self.left.get();
        let kind = KINDS
            .get(left.len() % 3)
            .copied()
            .unwrap_or(ErrorKind::Other);
        if stop == b'*' {
            self.fault.set(Some(kind));
        }
        self.advance(2);
        io::Error::from(kind)
    }

    /// Makes the call fail as interrupted; its mark has `count` octets.
    fn interruption(&self, count: usize) -> io::Error {
        self.advance(count);
        io::Error::from(ErrorKind::Interrupted)
    }

    /// Removes `count` octets from the rest.
    fn advance(&self, count: usize) {
        let left = self.left.get();
        let (gone, left) = left.split_at_checked(count).unwrap_or((b"", WRONG));
        self.left.set(left);
        if gone.ends_with(b"\n") {
            self.line.set(left);
        }
    }

    /// Writes the octets that one call moves through the port into `octets`, and returns their
    /// number.
    fn octets(&self, mark: &'static [u8], stop: u8, octets: &mut [u8]) -> io::Result<usize>
        ensures { IfOk result (λ count. count ≤ length octets.new) }
    {
        let part = match self.due(mark, stop) {
            Ok(part) => part,
            Err(error) => return Err(error),
        };
        let digits = part.trim_ascii_end();
        let count = self.most.min(digits.len() / 2);
        if octets.len() < count {
            return Err(self.wrong());
        }
        let digits = digits.get(..2 * count).unwrap_or(digits);
        let Ok(()) = hex::decode_to_slice(digits, &mut octets[..count]) else {
            return Err(self.wrong());
        };
        let is_part = self.most < part.len() / 2;
        self.advance(if is_part { 2 * count } else { part.len() });
        Ok(count)
    }

    /// Whether the scenario is complete, and ends with this result.
    pub fn ends(&self, alloc: Global, ended: Result<(), ScriptFault>) -> bool {
        let left = self.left.get();
        match ended {
            Ok(()) => left.is_empty() || left == b"!\n".as_slice(),
            Err(fault) => match format!(in alloc; "! {fault}\n") {
                Ok(text) => left == text.as_bytes(),
                Err(_) => false,
            },
        }
    }

    /// The mark of the current line, or of the next one.
    pub fn mark(&self) -> &'static [u8] {
        mark_of(self.line.get())
    }

    /// Whether the current line is incomplete.
    pub fn is_within_line(&self) -> bool {
        self.line.get().len() != self.left.get().len()
    }
}

/// The script's reader and the writer of a scenario.
#[derive(Drop)]
pub struct Console<'b, 'a>(pub &'b Scenario<'a>);

impl Read for Console<'_, '_> {
    fn read(&mut self, octets: &mut [u8]) -> io::Result<usize> {
        if self.0.line.get().starts_with(b".\n") {
            self.0.advance(2);
            return Ok(0);
        }
        let part = self.0.due(b"", b'*')?;
        let count = part.len().min(self.0.most).min(octets.len());
        octets[..count].copy_from_slice(&part[..count]);
        self.0.advance(count);
        Ok(count)
    }
}

impl Write for Console<'_, '_> {
    fn write(&mut self, octets: &[u8]) -> io::Result<usize> {
        let part = self.0.due(b"    ", b'*')?;
        let count = part.len().min(self.0.most).min(octets.len());
        if part[..count] != octets[..count] {
            return Err(self.0.wrong());
        }
        self.0.advance(count);
        Ok(count)
    }

    fn flush(&mut self) -> io::Result<()> {
        Ok(())
    }
}

/// The port of a scenario.
#[derive(Drop)]
pub struct Line<'b, 'a>(pub &'b Scenario<'a>);

impl Read for Line<'_, '_> {
    fn read(&mut self, octets: &mut [u8]) -> io::Result<usize> {
        self.0.octets(b"<", b'<', octets)
    }
}

impl Write for Line<'_, '_> {
    fn write(&mut self, octets: &[u8]) -> io::Result<usize> {
        let mut due = [0; 266];
        let count = self.0.octets(b">", b'>', &mut due)?;
        if count <= octets.len() && octets[..count] == due[..count] {
            Ok(count)
        } else {
            Err(self.0.wrong())
        }
    }

    fn flush(&mut self) -> io::Result<()> {
        Ok(())
    }
}
