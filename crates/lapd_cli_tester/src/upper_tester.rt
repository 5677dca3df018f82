//! The upper tester of a stack: a connection that takes requests as lines, and answers each.

use lapd_cli_script::{KindReason, first_line};
use lapd_conform::{Request, request_word};
use std::alloc::{AllocError, Global};
use std::fmt;
use std::io::{self, ErrorKind, Read, Write};
use std::net::TcpStream;
use std::time::{Duration, Instant};

/// How long an answer may take, in milliseconds.
const PATIENCE: u64 = 10_000;

/// The most octets of an answer.
const MOST_ANSWER: usize = 1_000;

/// The answer to a request that was processed.
const DONE: &[u8] = b"done";

/// Why the upper tester did not confirm a request.
#[derive(Clone, Copy)]
pub enum UpperFault {
    /// It did not answer in time.
    Silent,
    /// It answered with another line.
    Refused,
    /// It closed the connection.
    Closed,
    /// A read or a write failed.
    Failed(ErrorKind),
    /// An allocation failed.
    Memory,
}

impl fmt::Display for UpperFault {
    fn fmt<W: fmt::Write>(&self, f: &mut fmt::Formatter<W>) -> fmt::Result {
        match self {
            UpperFault::Silent => write!(f, "the upper tester did not answer within {PATIENCE} ms"),
            UpperFault::Refused => f.write_str("the upper tester did not answer `done`"),
            UpperFault::Closed => f.write_str("the upper tester closed the connection"),
            UpperFault::Failed(kind) => {
                write!(f, "the upper tester's connection: {}", KindReason(*kind))
            }
            UpperFault::Memory => f.write_str("out of memory"),
        }
    }
}

impl From<AllocError> for UpperFault {
    fn from(_error: AllocError) -> UpperFault {
        UpperFault::Memory
    }
}

/// A connection to an upper tester.
#[derive(Drop)]
pub struct UpperTester {
    stream: TcpStream,
    /// The octets that were read and not taken.
    text: Vec<u8>,
}

impl UpperTester {
    /// The upper tester behind this connection.
    pub fn new(alloc: Global, stream: TcpStream) -> UpperTester {
        UpperTester {
            stream,
            text: Vec::new(alloc),
        }
    }

    /// Makes a request for this TEI, and waits until it is answered.
    ///
    /// # Errors
    ///
    /// It was not answered by `done` within 10 seconds, the connection failed, or an allocation
    /// failed.
    pub fn ask(&mut self, rt: &HostRuntime, request: Request, tei: u16) -> Result<(), UpperFault> {
        let line = request_line(rt.alloc(), request, tei)?;
        let mut writer = &self.stream;
        if let Err(error) = writer.write_all(line.as_bytes()) {
            return Err(UpperFault::Failed(error.kind()));
        }
        self.await_answer(rt)
    }

    fn await_answer(&mut self, rt: &HostRuntime) -> Result<(), UpperFault> {
        let start = match Instant::now(rt) {
            Ok(start) => start,
            Err(error) => return Err(UpperFault::Failed(error.kind())),
        };
        for _read in 0..u64::MAX {
            if let Some(is_done) = self.take_answer() {
                return if is_done {
                    Ok(())
                } else {
                    Err(UpperFault::Refused)
                };
            }
            let passed = passed_since(rt, &start);
            if PATIENCE <= passed {
                return Err(UpperFault::Silent);
            }
            self.read_part(PATIENCE - passed)?;
        }
        Err(UpperFault::Silent)
    }

    /// Whether the next answer is `done`. `None` if it has not arrived.
    fn take_answer(&mut self) -> Option<bool> {
        let (line, behind) = match first_line(self.text.as_slice()) {
            Some((line, behind)) => (line, behind.len()),
            None => return None,
        };
        let is_done = without_return(line) == DONE;
        let count = self.text.len().saturating_sub(behind);
        let _ = self.text.drain(..count);
        Some(is_done)
    }

    /// Reads once, for at most so many milliseconds.
    fn read_part(&mut self, time: u64) -> Result<(), UpperFault> {
        match read_for(&self.stream, time, &mut self.text) {
            Ok(true) if self.text.len() <= MOST_ANSWER => Ok(()),
            Ok(true) => Err(UpperFault::Refused),
            Ok(false) => Err(UpperFault::Closed),
            Err(error) => Err(UpperFault::Failed(error.kind())),
        }
    }
}

/// Milliseconds since a moment; 0 if there is no clock.
pub(crate) fn passed_since(rt: &HostRuntime, start: &Instant) -> u64 {
    match start.elapsed(rt) {
        Ok(passed) => u64::try_from(passed.as_millis()).unwrap_or(u64::MAX),
        Err(_) => 0,
    }
}

/// The most octets per read.
const PART: usize = 4096;

/// Reads once, for at least one and at most so many milliseconds, and appends the octets. Returns
/// whether more may arrive.
///
/// # Errors
///
/// The system's error, or out of memory.
pub(crate) fn read_for(stream: &TcpStream, time: u64, text: &mut Vec<u8>) -> io::Result<bool> {
    let mut part = [0; PART];
    stream.set_read_timeout(Some(Duration::from_millis(time.max(1))))?;
    let mut reader = stream;
    match reader.read(&mut part) {
        Ok(0) => Ok(false),
        Ok(count) => {
            text.extend_from_slice(&part[..count])?;
            Ok(true)
        }
        Err(error) => match error.kind() {
            ErrorKind::WouldBlock | ErrorKind::TimedOut | ErrorKind::Interrupted => Ok(true),
            _ => Err(error),
        },
    }
}

/// A line without the carriage return that some programs end it by.
fn without_return(line: &[u8]) -> &[u8] {
    line.strip_suffix(b"\r").unwrap_or(line)
}

/// The line of a request, with its line feed.
fn request_line(alloc: Global, request: Request, tei: u16) -> Result<String, AllocError> {
    let word = request_word(request);
    match request {
        Request::Ask => format!(in alloc; "{word}\n"),
        _ => format!(in alloc; "{word} {tei}\n"),
    }
}
