//! Standard input, which is read by lines while a side is running.

use mio::unix::SourceFd;
use mio::{Interest, Poll, Token};
use std::io::{self, ErrorKind};
use std::os::fd::RawFd;

/// The descriptor of standard input.
const STANDARD_INPUT: RawFd = 0;

/// The state of standard input.
#[derive(Clone, Copy)]
pub enum Input {
    /// It can always be read, because it is a regular file.
    Free,
    /// A poll will report when it can be read.
    Watched,
    /// It can be read.
    Ready,
    /// It was read since the last report. The next report must be requested.
    Read,
}

impl Input {
    /// Registers standard input with the poll, by this token. A regular file can't be polled, so it
    /// is never reported.
    ///
    /// # Errors
    ///
    /// The system has no room for a further polled descriptor.
    pub fn register(poll: &Poll, token: Token) -> io::Result<Input> {
        let mut input = SourceFd(&STANDARD_INPUT);
        match poll
            .registry()
            .register(&mut input, token, Interest::READABLE)
        {
            Ok(()) => Ok(Input::Watched),
            Err(error) => match error.kind() {
                ErrorKind::OutOfMemory | ErrorKind::StorageFull => Err(error),
                _ => Ok(Input::Free),
            },
        }
    }

    /// Records that the poll has reported input.
    pub fn wake(&mut self) {
        *self = Input::Ready;
    }

    /// If the input was read since the last report, requests another report: the read may have left
    /// octets.
    ///
    /// # Errors
    ///
    /// The system's error.
    pub fn request(&mut self, poll: &Poll, token: Token) -> io::Result<()> {
        if matches!(self, Input::Read) {
            let mut input = SourceFd(&STANDARD_INPUT);
            let registry = poll.registry();
            registry.reregister(&mut input, token, Interest::READABLE)?;
            *self = Input::Watched;
        }
        Ok(())
    }

    /// Whether it can be read without blocking.
    pub fn is_ready(self) -> bool {
        matches!(self, Input::Free | Input::Ready)
    }

    /// Records that the caller will read once.
    pub fn pass_on(&mut self) {
        if matches!(self, Input::Ready) {
            *self = Input::Read;
        }
    }
}
