//! Hex dumps of several lines, joined to one line each.

ghost use Rattle.std.specs.Prelude.{◌≤◌, length};

use crate::dump_line::{DumpLine, push_dump};
use std::alloc::{AllocError, Global};
use std::io::{self, ErrorKind, Read};

/// How many octets are read at a time.
const PART: usize = 4096;

/// The most octets of a line that may belong to a dump.
const MOST_LINE: usize = 1024;

/// The most octets of a dump.
const MOST_DUMP: usize = 4096;

/// A reader of text that joins the lines of each hex dump of another reader's text to one line: a
/// dump begins with the offset 0, and each further line has the offset behind the line before. The
/// forms are those of `xxd`, `hexdump -C`, `od -tx1`, `tcpdump -x` and `tshark -x`. A joined line
/// follows empty lines, so that the lines keep their numbers. Other lines are unchanged.
///
/// A dump is passed on when the line after it was read. Its memory is bounded.
#[derive(Drop)]
pub struct JoinedDumps<R> {
    alloc: Global,
    reader: R,
    /// The line that is being read.
    line: Vec<u8>,
    /// Whether the beginning of this line was passed on, since it is longer than a line of a dump.
    is_long: bool,
    /// The octets of the dump that is being read.
    dump: Vec<u8>,
    /// How many lines it has so far.
    lines: u64,
    /// The text to be passed on, of which so much was.
    ready: Vec<u8>,
    passed: usize,
    is_ended: bool,
}

impl<R: Read> JoinedDumps<R> {
    /// Joins the dumps in the text of this reader.
    pub fn new(alloc: Global, reader: R) -> JoinedDumps<R> {
        JoinedDumps {
            alloc,
            reader,
            line: Vec::new(alloc),
            is_long: false,
            dump: Vec::new(alloc),
            lines: 0,
            ready: Vec::new(alloc),
            passed: 0,
            is_ended: false,
        }
    }

    // Passes on text that is ready. Returns how many octets.
    fn pass(&mut self, octets: &mut [u8]) -> usize
        ensures { result ≤ length octets.new }
    {
        let left = behind(self.passed, self.ready.as_slice());
        let count = left.len().min(octets.len());
        octets[..count].copy_from_slice(&left[..count]);
        self.passed = self.passed.saturating_add(count);
        count
    }

    // Takes octets that were read; none at the end.
    fn take(&mut self, octets: &[u8]) -> Result<(), AllocError> {
        self.ready.clear();
        self.passed = 0;
        if octets.is_empty() {
            self.is_ended = true;
            if !self.line.is_empty() {
                self.end_line(&[])?;
            }
            return self.end_dump();
        }
        for octet in octets {
            self.take_octet(*octet)?;
        }
        Ok(())
    }

    // Takes an octet of a line, or the line feed behind it.
    fn take_octet(&mut self, octet: u8) -> Result<(), AllocError> {
        if octet == b'\n' {
            return self.end_line(b"\n");
        }
        if self.line.len() >= MOST_LINE {
            self.end_dump()?;
            self.is_long = true;
            self.ready.extend_from_slice(self.line.as_slice())?;
            self.line.clear();
        }
        self.line.push(octet)?;
        Ok(())
    }

    // Ends a line with this line feed, or at the end without one.
    fn end_line(&mut self, feed: &[u8]) -> Result<(), AllocError> {
        if self.is_long || !self.join_line()? {
            self.end_dump()?;
            self.ready.extend_from_slice(self.line.as_slice())?;
            self.ready.extend_from_slice(feed)?;
        }
        self.is_long = false;
        self.line.clear();
        Ok(())
    }

    // Joins the line to a dump. Returns whether it belongs to one.
    fn join_line(&mut self) -> Result<bool, AllocError> {
        let Some(read) = DumpLine::read(self.alloc, self.line.as_slice())? else {
            return Ok(false);
        };
        let is_next = self.lines > 0 && read.is_at(self.dump.len());
        if !is_next && (read.octets.is_empty() || !read.is_at(0)) {
            return Ok(false);
        }
        if self.dump.len() > MOST_DUMP {
            return Ok(false);
        }
        let octets = read.octets;
        if !is_next {
            self.end_dump()?;
        }
        self.dump.extend_from_slice(octets.as_slice())?;
        self.lines = self.lines.saturating_add(1);
        Ok(true)
    }

    // Ends the dump, if there is one.
    fn end_dump(&mut self) -> Result<(), AllocError> {
        if self.lines == 0 {
            return Ok(());
        }
        for _line in 1..self.lines {
            self.ready.push(b'\n')?;
        }
        push_dump(&mut self.ready, self.dump.as_slice())?;
        self.dump.clear();
        self.lines = 0;
        Ok(())
    }
}

impl<R: Read> Read for JoinedDumps<R> {
    fn read(&mut self, octets: &mut [u8]) -> io::Result<usize> {
        let mut part = [0; PART];
        for _read in 0..u64::MAX {
            let count = self.pass(octets);
            if count > 0 || self.is_ended || octets.is_empty() {
                return Ok(count);
            }
            let count = self.reader.read(&mut part)?;
            if self.take(&part[..count]).is_err() {
                return Err(io::Error::from(ErrorKind::OutOfMemory));
            }
        }
        Err(io::Error::from(ErrorKind::Interrupted))
    }
}

// The octets after the first `count`; none if there are no more.
fn behind(count: usize, octets: &[u8]) -> &[u8] {
    if count < octets.len() {
        &octets[count..]
    } else {
        &[]
    }
}
