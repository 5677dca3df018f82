//! Whether a descriptor can be written to without blocking.

use mio::unix::SourceFd;
use mio::{Events, Interest, Poll, Token};
use std::io;
use std::os::fd::RawFd;
use std::time::Duration;

/// Checks whether a descriptor can be written to: a pipe, a socket or a terminal. A descriptor that
/// is reported as writable has room for 4,096 octets.
#[derive(Drop)]
pub struct Watch {
    poll: Poll,
    events: Events,
    descriptor: RawFd,
}

impl Watch {
    /// Watches this descriptor, which stays open.
    ///
    /// # Errors
    ///
    /// The descriptor is a regular file, which is always ready, or the system's error.
    pub fn new(rt: &HostRuntime, descriptor: RawFd) -> io::Result<Watch> {
        let watch = Watch {
            poll: Poll::new(rt)?,
            events: Events::with_capacity(rt.alloc(), 1)?,
            descriptor,
        };
        let mut source = SourceFd(&descriptor);
        let registry = watch.poll.registry();
        registry.register(&mut source, Token(0), Interest::WRITABLE)?;
        Ok(watch)
    }

    /// Whether the descriptor can be written to, or a write fails at once.
    pub fn is_ready(&mut self) -> bool {
        let mut source = SourceFd(&self.descriptor);
        let registry = self.poll.registry();
        match registry.reregister(&mut source, Token(0), Interest::WRITABLE) {
            Ok(()) => self.is_reported(),
            Err(_) => false,
        }
    }

    fn is_reported(&mut self) -> bool {
        match self.poll.poll(&mut self.events, Some(Duration::ZERO)) {
            Ok(()) => self.events.iter().next().is_some(),
            Err(_) => false,
        }
    }
}
