//! A TCP connection that carries frames, each after its length. Its calls never block.

ghost use Rattle.std.specs.Prelude.{◌≡◌, ◌≤◌, length, IfOk, IfSome};
ghost use Rattle.lapd_port.specs.SocketText.{IsFrameLength};

use crate::lost::Lost;
use lapd_cli_wire::MOST_RECEIVED;
use lapd_port::{MOST_OCTETS, PortFault};
use mio::net::TcpStream;
use mio::{Interest, Poll, Token};
use std::io::{self, ErrorKind, Read, Write};
use std::net::{Shutdown, SocketAddr};

/// The number of octets in a length.
const LENGTH_OCTETS: usize = 2;

/// The most octets per read.
const PART: usize = 4096;

/// The most reads in a row while arriving octets are dropped.
const MOST_DROPPED: u32 = 64;

/// A connection, and the octets that arrived over it and were not taken yet.
#[derive(Drop)]
pub struct FrameStream {
    stream: TcpStream,
    peer: SocketAddr,
    /// The octets that were read and not taken yet, each frame after its length.
    text: Vec<u8>,
    /// The number of octets of the first frame that were dropped, behind its first 265.
    dropped: usize,
    /// The octets of the last read. They are reused, because a new buffer would have to be cleared
    /// for each read.
    part: Vec<u8>,
    /// Whether there may be unread octets, or a frame that was not taken yet.
    is_ready: bool,
    /// Whether the other side has stopped sending and everything it sent was read.
    is_ended: bool,
    /// Whether the connection did not accept a whole frame. Nothing more is sent then.
    is_stuck: bool,
}

impl FrameStream {
    /// This connection to this peer. It must be non-blocking.
    ///
    /// # Errors
    ///
    /// Out of memory.
    pub fn new(rt: &HostRuntime, stream: TcpStream, peer: SocketAddr) -> io::Result<FrameStream> {
        Ok(FrameStream {
            stream,
            peer,
            text: Vec::with_capacity(rt.alloc(), PART)?,
            dropped: 0,
            part: Vec::from_array(rt.alloc(), [0; PART])?,
            is_ready: true,
            is_ended: false,
            is_stuck: false,
        })
    }

    /// The address of the other side.
    pub fn peer(&self) -> SocketAddr {
        self.peer
    }

    /// Registers the connection with the poll, which then reports by this token that octets can be
    /// read.
    ///
    /// # Errors
    ///
    /// The system's error.
    pub fn register(&mut self, poll: &Poll, token: Token) -> io::Result<()> {
        poll.registry()
            .register(&mut self.stream, token, Interest::READABLE)
    }

    /// Records that there may be octets to read.
    pub fn wake(&mut self) {
        self.is_ready = true;
    }

    /// Whether [`FrameStream::next_frame`] may return a frame or a loss that it has not returned
    /// before.
    pub fn is_ready(&self) -> bool {
        self.is_ready
    }

    /// Takes the first frame that has arrived whole, and returns its number of octets, or 265 if it
    /// is longer: the octets behind these are dropped. Returns `None` if everything was read and
    /// holds no whole frame. It then returns `None` until [`FrameStream::wake`] is called.
    ///
    /// # Errors
    ///
    /// The connection is lost. All frames that arrived whole were taken before.
    pub fn next_frame(&mut self, frame: &mut [u8; MOST_RECEIVED]) -> Result<Option<usize>, Lost>
        ensures { IfOk result (λ count. IfSome count (λ count. count ≤ MOST_RECEIVED)) }
    {
        for _read in 0..u64::MAX {
            if let Some(count) = self.take_frame(frame)? {
                return Ok(Some(count));
            }
            if let Some(lost) = self.loss() {
                self.is_ready = false;
                return Err(lost);
            }
            if !self.is_ready {
                return Ok(None);
            }
            if self.read_part().is_err() {
                return Err(Lost::Port(PortFault::Device));
            }
        }
        Err(Lost::Port(PortFault::TooManyTurns))
    }

    /// Takes the first frame from the octets read, if it is whole. A length of 0 breaks the framing:
    /// two flags of a line side by side enclose no frame (Q.921 2.2).
    fn take_frame(&mut self, frame: &mut [u8; MOST_RECEIVED]) -> Result<Option<usize>, Lost>
        ensures { IfOk result (λ count. IfSome count (λ count. count ≤ MOST_RECEIVED)) }
    {
        let Some(count) = self.first_length() else {
            return Ok(None);
        };
        if count == 0 {
            return Err(Lost::Port(PortFault::BadLength));
        }
        self.drop_surplus(usize::from(count));
        if !self.is_whole(count) {
            return Ok(None);
        }
        let kept = usize::from(count).min(MOST_RECEIVED);
        let Some(octets) = self
            .text
            .as_slice()
            .get(LENGTH_OCTETS..LENGTH_OCTETS + kept)
        else {
            return Ok(None);
        };
        frame[..kept].copy_from_slice(octets);
        let _ = self.text.drain(..LENGTH_OCTETS + kept);
        self.dropped = 0;
        Ok(Some(kept))
    }

    /// The length of the first frame, if it has arrived.
    fn first_length(&self) -> Option<u16> {
        let (length, _behind) = self.text.as_slice().split_first_chunk::<LENGTH_OCTETS>()?;
        Some(u16::from_be_bytes(*length))
    }

    /// Drops the octets that have arrived of the first frame, of this length, behind its first 265.
    fn drop_surplus(&mut self, count: usize) {
        let start = LENGTH_OCTETS + MOST_RECEIVED;
        let missing = count
            .saturating_sub(MOST_RECEIVED)
            .saturating_sub(self.dropped);
        let surplus = self.text.len().saturating_sub(start).min(missing);
        if 0 < surplus {
            let _ = self.text.drain(start..start + surplus);
            self.dropped = self.dropped.saturating_add(surplus);
        }
    }

    /// Whether the first frame, of this length, has arrived whole.
    fn is_whole(&self, count: u16) -> bool {
        let arrived = self.text.len().saturating_add(self.dropped);
        LENGTH_OCTETS + usize::from(count) <= arrived
    }

    /// Why the connection is lost, if it is and no whole frame is left.
    fn loss(&self) -> Option<Lost> {
        if self.is_ended && self.text.is_empty() {
            Some(Lost::Port(PortFault::End))
        } else if self.is_ended {
            Some(Lost::Port(PortFault::Cut))
        } else if self.is_stuck && !self.is_ready {
            Some(Lost::NotTaken)
        } else {
            None
        }
    }

    /// Reads once, and keeps the octets.
    fn read_part(&mut self) -> io::Result<()> {
        match self.stream.read(self.part.as_mut_slice()) {
            Ok(0) => self.is_ended = true,
            Ok(count) => self.text.extend_from_slice(&self.part[..count])?,
            Err(error) => match error.kind() {
                ErrorKind::Interrupted => {}
                ErrorKind::WouldBlock => self.is_ready = false,
                _ => return Err(error),
            },
        }
        Ok(())
    }

    /// Sends a frame of 3 to 264 octets, in one write with its length. If the connection does not
    /// accept all of it at once, nothing more is sent; the connection is reported as lost once
    /// everything that arrived over it was taken.
    ///
    /// # Errors
    ///
    /// The connection does not accept the frame, or did not accept an earlier one.
    pub fn send(&mut self, frame: &[u8]) -> Result<(), Lost>
        requires { IsFrameLength (length frame.now) }
    {
        if self.is_stuck {
            return Err(Lost::NotTaken);
        }
        let mut room = [0; LENGTH_OCTETS + MOST_OCTETS];
        let text = &mut room[..LENGTH_OCTETS + frame.len()];
        let (length, octets) = text.split_at_mut(LENGTH_OCTETS);
        length.copy_from_slice(&(frame.len() as u16).to_be_bytes());
        octets.copy_from_slice(frame);
        match self.stream.write(text) {
            Ok(count) if count == text.len() => Ok(()),
            _ => {
                self.is_stuck = true;
                self.is_ready = true;
                Err(Lost::NotTaken)
            }
        }
    }

    /// Ends the sending direction. Frames that were sent still arrive there, and then the end.
    pub fn end_sending(&mut self) {
        self.is_stuck = true;
        self.is_ready = true;
        if self.stream.shutdown(Shutdown::Write).is_err() {
            self.is_ended = true;
        }
    }

    /// Reads and drops what has arrived. Returns whether more may arrive.
    pub fn drop_arrived(&mut self) -> bool {
        for _read in 0..MOST_DROPPED {
            if self.is_ended || !self.is_ready {
                break;
            }
            self.text.clear();
            if self.read_part().is_err() {
                self.is_ended = true;
            }
        }
        !self.is_ended
    }

    /// Whether the other side has closed the connection and all frames that it sent were taken.
    pub fn is_closed(&self) -> bool {
        let mut octet = [0u8];
        !self.has_frame() && matches!(self.stream.peek(&mut octet), Ok(0))
    }

    /// Whether a whole frame has arrived and was not taken yet.
    fn has_frame(&self) -> bool {
        match self.first_length() {
            Some(count) => 0 < count && self.is_whole(count),
            None => false,
        }
    }
}
