//! Lines of input that arrive in parts, and a person who types them.

use lapd_cli_live::Console;
use std::alloc::{AllocError, Global};
use std::cell::Cell;
use std::io::{self, ErrorKind, Read};

/// A counter of reads of the input.
#[derive(Drop)]
pub(crate) struct Reads {
    count: Cell<u64>,
}

impl Reads {
    /// No read yet.
    pub(crate) fn new() -> Reads {
        Reads {
            count: Cell::new(0),
        }
    }

    /// The number of reads.
    pub(crate) fn count(&self) -> u64 {
        self.count.get()
    }
}

/// Input that is read in parts, each up to the next `|`. The read of a part `%` is interrupted, and
/// that of a part `*` fails.
#[derive(Drop)]
pub(crate) struct Keys<'s> {
    rest: &'s str,
    reads: &'s Reads,
}

impl<'s> Keys<'s> {
    /// Unread input that counts its reads in `reads`.
    pub(crate) fn new(text: &'s str, reads: &'s Reads) -> Keys<'s> {
        Keys { rest: text, reads }
    }
}

impl Read for Keys<'_> {
    fn read(&mut self, octets: &mut [u8]) -> io::Result<usize> {
        let (part, rest) = self.rest.split_once('|').unwrap_or((self.rest, ""));
        self.rest = rest;
        self.reads.count.set(self.reads.count().saturating_add(1));
        match part {
            "%" => Err(io::Error::from(ErrorKind::Interrupted)),
            "*" => Err(io::Error::from(ErrorKind::Other)),
            _ => {
                let part = part.as_bytes();
                let count = part.len().min(octets.len());
                octets[..count].copy_from_slice(&part[..count]);
                Ok(count)
            }
        }
    }
}

/// A person who records the reports, one a line: `greet`, `help` and `refuse LINE`.
#[derive(Drop)]
pub(crate) struct Reader {
    alloc: Global,
    pub(crate) lines_printed: String,
}

impl Reader {
    /// A person without reports.
    pub(crate) fn new(alloc: Global) -> Reader {
        Reader {
            alloc,
            lines_printed: String::new(alloc),
        }
    }

    /// Records a refused line.
    fn record(&mut self, line: &[u8]) -> Result<(), AllocError> {
        let line = String::from_utf8_lossy(self.alloc, line)?;
        let line = line.as_str();
        write!(self.lines_printed, "refuse {line}\n")
    }
}

impl Console for Reader {
    fn greet(&mut self) {
        let _ = self.lines_printed.push_str("greet\n");
    }

    fn tidied(&self, line: &[u8]) -> Result<Vec<u8>, AllocError> {
        line.trim_ascii().to_vec(self.alloc)
    }

    fn refuse_line(&mut self, line: &[u8]) {
        let _ = self.record(line);
    }

    fn help(&mut self) {
        let _ = self.lines_printed.push_str("help\n");
    }
}
