//! The stack under test over TCP.

use crate::frame_text::{Front, first_frame, front_of, taken};
use crate::origin::Origin;
use crate::upper_tester::{UpperFault, UpperTester, passed_since, read_for};
use lapd_cli_script::KindReason;
use lapd_conform::{Lost, Request, Station};
use std::fmt;
use std::io::{self, ErrorKind, Write};
use std::net::{Shutdown, TcpStream};
use std::time::{Duration, Instant};

/// How long a write may take, in milliseconds.
const WRITE_PATIENCE: u64 = 10_000;

/// How many reads wait for the end of an old connection.
const END_READS: u32 = 20;

/// How long each of them waits, in milliseconds.
const END_PATIENCE: u64 = 20;

/// Why the stack is out of reach.
#[derive(Clone, Copy)]
pub enum StationFault {
    /// The stack closed the connection.
    Closed,
    /// The stack sent a length of 0, which breaks the framing.
    BadLength,
    /// A read or a write failed.
    Failed(ErrorKind),
    /// A frame of the suite has so many octets, more than a length can say.
    TooLong(usize),
    /// The upper tester did not confirm a request.
    Upper(UpperFault),
}

impl fmt::Display for StationFault {
    fn fmt<W: fmt::Write>(&self, f: &mut fmt::Formatter<W>) -> fmt::Result {
        match self {
            StationFault::Closed => f.write_str("the stack has closed the connection"),
            StationFault::BadLength => f.write_str("the stack sent a frame length of 0"),
            StationFault::Failed(kind) => write!(f, "the connection: {}", KindReason(*kind)),
            StationFault::TooLong(count) => {
                write!(
                    f,
                    "a frame of {count} octets is too long for the connection"
                )
            }
            StationFault::Upper(fault) => fault.fmt(f),
        }
    }
}

/// The stack under test, behind a TCP connection on which each frame follows its length, a number
/// of two octets, the high one first.
#[derive(Drop)]
pub struct TcpStation<'a> {
    rt: &'a HostRuntime,
    start: Instant,
    stream: TcpStream,
    /// The octets that were read and not taken.
    text: Vec<u8>,
    upper: Option<UpperTester>,
    /// The source of further connections, if each case begins with one.
    origin: Option<Origin<'a>>,
    /// Nothing was sent or received over the connection.
    is_new: bool,
    /// By how much waits have overrun at most, in milliseconds.
    lateness: u64,
    fault: Option<StationFault>,
}

impl<'a> TcpStation<'a> {
    /// The stack behind this connection, with its upper tester if it has one. With an origin, each
    /// case begins with a new connection, and the stack with it. The clock begins.
    ///
    /// # Errors
    ///
    /// The system's error.
    pub(crate) fn new(
        rt: &'a HostRuntime,
        stream: TcpStream,
        upper: Option<UpperTester>,
        origin: Option<Origin<'a>>,
    ) -> io::Result<TcpStation<'a>> {
        stream.set_write_timeout(Some(Duration::from_millis(WRITE_PATIENCE)))?;
        Ok(TcpStation {
            rt,
            start: Instant::now(rt)?,
            stream,
            text: Vec::new(rt.alloc()),
            upper,
            origin,
            is_new: true,
            lateness: 0,
            fault: None,
        })
    }

    /// Why the stack is out of reach, if it is.
    pub fn fault(&self) -> Option<StationFault> {
        self.fault
    }

    /// The connection to the stack.
    pub fn into_stream(self) -> TcpStream {
        let TcpStation { stream, .. } = self;
        stream
    }

    fn lose(&mut self, fault: StationFault) -> Lost {
        self.fault = Some(fault);
        Lost::Closed
    }

    /// Takes the first frame that has arrived whole, if there is one.
    fn take_frame(&mut self, octets: &mut Vec<u8>) -> Result<bool, Lost> {
        match front_of(self.text.as_slice()) {
            Front::Part => Ok(false),
            Front::BadLength => Err(self.lose(StationFault::BadLength)),
            Front::Whole(count) => {
                if octets
                    .extend_from_slice(first_frame(self.text.as_slice(), count))
                    .is_err()
                {
                    return Err(Lost::Memory);
                }
                let end = taken(count).min(self.text.len());
                let _ = self.text.drain(..end);
                Ok(true)
            }
        }
    }

    /// Reads once, until this moment at most.
    fn read_until(&mut self, until: u64) -> Result<(), Lost> {
        let time = until.saturating_sub(self.now());
        match read_for(&self.stream, time, &mut self.text) {
            Ok(true) => Ok(()),
            Ok(false) => Err(self.lose(StationFault::Closed)),
            Err(error) if error.kind() == ErrorKind::OutOfMemory => Err(Lost::Memory),
            Err(error) => Err(self.lose(StationFault::Failed(error.kind()))),
        }
    }

    /// Notes that a wait until this moment has ended now.
    fn measure(&mut self, until: u64) {
        self.lateness = self.lateness.max(self.now().saturating_sub(until));
    }

    /// Writes a frame after its length.
    fn write_frame(&mut self, octets: &[u8], length: u16) -> Result<(), Lost> {
        let mut text = Vec::new(self.rt.alloc());
        let is_made = text.extend_from_slice(&length.to_be_bytes()).is_ok()
            && text.extend_from_slice(octets).is_ok();
        if !is_made {
            return Err(Lost::Memory);
        }
        let mut writer = &self.stream;
        match writer.write_all(text.as_slice()) {
            Ok(()) => Ok(()),
            Err(error) => Err(self.lose(StationFault::Failed(error.kind()))),
        }
    }

    /// Ends the connection, and makes the next one.
    fn renew(&mut self) -> Result<(), Lost> {
        self.end_connection();
        let Some(origin) = &self.origin else {
            return Ok(());
        };
        match renewed(self.rt, origin) {
            Ok(stream) => {
                self.stream = stream;
                self.text.clear();
                self.is_new = true;
                Ok(())
            }
            Err(error) => Err(self.lose(StationFault::Failed(error.kind()))),
        }
    }

    /// Ends the sending direction, and reads until the stack has closed the connection, for less
    /// than half a second.
    fn end_connection(&mut self) {
        if self.stream.shutdown(Shutdown::Write).is_err() {
            return;
        }
        for _read in 0..END_READS {
            self.text.clear();
            match read_for(&self.stream, END_PATIENCE, &mut self.text) {
                Ok(true) => {}
                _ => return,
            }
        }
    }

    /// Asks the upper tester, if there is one.
    fn ask(&mut self, request: Request, tei: u16) -> Result<(), UpperFault> {
        match &mut self.upper {
            Some(upper) => upper.ask(self.rt, request, tei),
            None => Ok(()),
        }
    }
}

fn renewed(rt: &HostRuntime, origin: &Origin<'_>) -> io::Result<TcpStream> {
    let stream = origin.next(rt)?;
    stream.set_write_timeout(Some(Duration::from_millis(WRITE_PATIENCE)))?;
    Ok(stream)
}

impl Station for TcpStation<'_> {
    fn now(&self) -> u64 {
        passed_since(self.rt, &self.start)
    }

    fn send(&mut self, octets: &[u8]) -> Result<(), Lost> {
        self.is_new = false;
        match u16::try_from(octets.len()) {
            Ok(length) => self.write_frame(octets, length),
            Err(_) => Err(self.lose(StationFault::TooLong(octets.len()))),
        }
    }

    fn receive(&mut self, until: u64, octets: &mut Vec<u8>) -> Result<bool, Lost> {
        let begun = self.now();
        self.is_new = false;
        for _read in 0..u64::MAX {
            if self.take_frame(octets)? {
                return Ok(true);
            }
            self.read_until(until)?;
            if self.now() >= until && front_of(self.text.as_slice()) == Front::Part {
                self.measure(until.max(begun));
                return Ok(false);
            }
        }
        Ok(false)
    }

    fn request(&mut self, request: Request, tei: u16) -> Result<(), Lost> {
        let begun = self.now();
        match self.ask(request, tei) {
            Ok(()) => {
                self.measure(begun);
                Ok(())
            }
            Err(UpperFault::Memory) => Err(Lost::Memory),
            Err(fault) => Err(self.lose(StationFault::Upper(fault))),
        }
    }

    fn restart(&mut self) -> Result<bool, Lost> {
        if self.origin.is_none() {
            return Ok(false);
        }
        if !self.is_new {
            self.renew()?;
        }
        Ok(true)
    }

    fn lateness(&self) -> u64 {
        self.lateness
    }
}
