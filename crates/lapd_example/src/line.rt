//! A TCP connection in place of a D channel and its driver. Each frame follows its length: two
//! octets, high first.

use anyhow::Result;
use std::io::{ErrorKind, Read, Write};
use std::net::TcpStream;
use std::time::Duration;

/// A connection, and what has arrived over it.
#[derive(Drop)]
pub struct Line<'s> {
    stream: &'s TcpStream,
    /// The octets that are not taken yet. The last ones may be part of a frame.
    received: Vec<u8>,
}

impl<'s> Line<'s> {
    pub fn new(rt: &HostRuntime, stream: &'s TcpStream) -> Result<Self> {
        stream.set_nonblocking(true)?;
        let received = Vec::new(rt.alloc());
        Ok(Line { stream, received })
    }

    /// Takes the next frame that has arrived whole, without waiting. `None`: none had arrived when
    /// the call looked.
    pub fn next_frame(&mut self, rt: &HostRuntime) -> Result<Option<Vec<u8>>> {
        for _ in 0..u64::MAX {
            if let Some((length, behind)) = self.received.as_slice().split_first_chunk::<2>() {
                let count = usize::from(u16::from_be_bytes(*length));
                if let Some(octets) = behind.get(..count) {
                    let frame = octets.to_vec(rt.alloc())?;
                    let _ = self.received.drain(..2 + count);
                    return Ok(Some(frame));
                }
            }
            let mut part = [0; 4096];
            match self.stream.read(&mut part) {
                Ok(0) => break,
                Ok(count) => self.received.extend_from_slice(&part[..count])?,
                Err(error) if error.kind() == ErrorKind::WouldBlock => break,
                Err(error) if error.kind() == ErrorKind::Interrupted => {}
                Err(error) => return Err(error.into()),
            }
        }
        Ok(None)
    }

    /// Sends a frame. If the connection does not take it at once, that is an error.
    pub fn send(&mut self, rt: &HostRuntime, frame: &[u8]) -> Result<()> {
        let length = u16::try_from(frame.len())?;
        let mut octets = length.to_be_bytes().to_vec(rt.alloc())?;
        octets.extend_from_slice(frame)?;
        Ok(self.stream.write_all(&octets)?)
    }

    /// Waits until octets arrive, for so long at most. `false`: the other side has hung up.
    pub fn wait(&self, most: Option<Duration>) -> Result<bool> {
        self.stream.set_read_timeout(most)?;
        self.stream.set_nonblocking(false)?;
        let peeked = self.stream.peek(&mut [0]);
        self.stream.set_nonblocking(true)?;
        match peeked {
            Ok(count) => Ok(count == 1),
            Err(error) => match error.kind() {
                ErrorKind::WouldBlock | ErrorKind::Interrupted => Ok(true),
                _ => Err(error.into()),
            },
        }
    }
}
