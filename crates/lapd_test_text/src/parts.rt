//! Octets that arrive in parts.

use std::io::{self, ErrorKind, Read};

/// A reader that returns at most `most` octets per read, and at the end nothing or this fault.
#[derive(Drop)]
pub struct Parts<'a> {
    /// The octets that are left.
    pub octets: &'a [u8],
    /// The most octets per read.
    pub most: usize,
    /// The fault at the end, if any.
    pub fault: Option<ErrorKind>,
}

impl Read for Parts<'_> {
    fn read(&mut self, buf: &mut [u8]) -> io::Result<usize> {
        let count = self.octets.len().min(self.most).min(buf.len());
        let (part, rest) = self.octets.split_at(count);
        buf[..count].copy_from_slice(part);
        self.octets = rest;
        match self.fault {
            Some(kind) if count == 0 => Err(io::Error::from(kind)),
            _ => Ok(count),
        }
    }
}
