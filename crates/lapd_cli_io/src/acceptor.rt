//! A listener that accepts connections when there is room for them.

use mio::net::{TcpListener, TcpStream};
use mio::{Interest, Poll, Token};
use std::io::{self, ErrorKind};
use std::net::SocketAddr;

/// The milliseconds before the next attempt after the system refused to accept a connection.
const AGAIN_AFTER: u64 = 1000;

/// A listener, and the state of the connections that wait there.
#[derive(Drop)]
pub struct Acceptor {
    listener: TcpListener,
    /// Whether connections may wait.
    is_waiting: bool,
    /// The moment of the next attempt, in milliseconds, if the system refused the last one.
    again: Option<u64>,
    /// Whether the last attempt was refused.
    is_refused: bool,
}

impl Acceptor {
    /// Registers the listener with the poll, by this token. The listener must be non-blocking.
    ///
    /// # Errors
    ///
    /// The system's error.
    pub fn new(poll: &Poll, token: Token, mut listener: TcpListener) -> io::Result<Acceptor> {
        poll.registry()
            .register(&mut listener, token, Interest::READABLE)?;
        Ok(Acceptor {
            listener,
            is_waiting: true,
            again: None,
            is_refused: false,
        })
    }

    /// Records that the poll has reported a connection.
    pub fn wake(&mut self) {
        self.is_waiting = true;
    }

    /// Allows the next attempt at once, because a descriptor has become free.
    pub fn retry(&mut self) {
        self.again = None;
    }

    /// The moment of the next attempt, if a connection may wait. `None` if none does.
    pub fn next_attempt(&self) -> Option<u64> {
        if self.is_waiting {
            Some(self.again.unwrap_or(0))
        } else {
            None
        }
    }

    /// Accepts a waiting connection, at a moment in milliseconds. Returns `None` if no connection
    /// waits, or if it is too early for another attempt.
    ///
    /// # Errors
    ///
    /// The system's error, unless it refused the attempt before as well. Refused connections keep
    /// waiting.
    pub fn accept(&mut self, now: u64) -> io::Result<Option<(TcpStream, SocketAddr)>> {
        match self.next_attempt() {
            Some(moment) if moment <= now => {}
            _ => return Ok(None),
        }
        match self.listener.accept() {
            Ok(accepted) => {
                self.again = None;
                self.is_refused = false;
                Ok(Some(accepted))
            }
            Err(error) => self.put_off(now, error),
        }
    }

    /// Schedules the next attempt after a connection could not be accepted.
    fn put_off(
        &mut self,
        now: u64,
        error: io::Error,
    ) -> io::Result<Option<(TcpStream, SocketAddr)>> {
        match error.kind() {
            ErrorKind::WouldBlock => {
                self.is_waiting = false;
                Ok(None)
            }
            ErrorKind::Interrupted | ErrorKind::ConnectionAborted => Ok(None),
            _ => {
                self.again = Some(now.saturating_add(AGAIN_AFTER));
                let is_known = self.is_refused;
                self.is_refused = true;
                if is_known { Ok(None) } else { Err(error) }
            }
        }
    }
}
