//! Reconnecting to the address of a lost connection, without blocking.

use mio::net::TcpStream;
use mio::{Interest, Poll, Token};
use std::io::{self, ErrorKind};
use std::net::SocketAddr;

/// The milliseconds from a loss to the first attempt.
const FIRST_PAUSE: u64 = 100;

/// The most milliseconds between two attempts.
const MOST_PAUSE: u64 = 5000;

/// The milliseconds after which an unanswered attempt is abandoned.
const ATTEMPT: u64 = 5000;

/// Connects again and again, with pauses that double, until a connection is established.
#[derive(Drop)]
pub struct Dialler {
    address: SocketAddr,
    /// The milliseconds before the next attempt.
    pause: u64,
    state: Dialling,
}

/// The state of reconnecting.
#[derive(Drop)]
enum Dialling {
    /// The connection exists.
    Idle,
    /// The next attempt begins at this moment, in milliseconds.
    Pausing(u64),
    /// An attempt is under way; it is abandoned at this moment, in milliseconds.
    Begun(TcpStream, u64),
}

/// The result of an attempt.
#[derive(Drop)]
pub enum Attempt {
    /// No attempt is due, or one is under way.
    Open,
    /// The connection is established, and not registered with a poll.
    Made(TcpStream),
    /// The attempt failed. The next attempt follows after this many milliseconds.
    Failed(io::Error, u64),
}

impl Dialler {
    /// Reconnects to this address. A connection exists now.
    pub fn new(address: SocketAddr) -> Dialler {
        Dialler {
            address,
            pause: FIRST_PAUSE,
            state: Dialling::Idle,
        }
    }

    /// The address of the other side.
    pub fn address(&self) -> SocketAddr {
        self.address
    }

    /// Begins to reconnect, after the connection was lost at this moment in milliseconds. Returns
    /// the milliseconds until the first attempt.
    pub fn begin(&mut self, now: u64) -> u64 {
        self.pause = FIRST_PAUSE;
        self.put_off(now)
    }

    /// The next moment at which to call [`Dialler::advance`], in milliseconds, unless an attempt
    /// ends earlier. `None` if there is nothing to do.
    pub fn next_moment(&self) -> Option<u64> {
        match &self.state {
            Dialling::Idle => None,
            Dialling::Pausing(moment) | Dialling::Begun(_, moment) => Some(*moment),
        }
    }

    /// Does what is due at this moment, in milliseconds. A poll reports the end of an attempt by
    /// this token.
    pub fn advance(&mut self, rt: &HostRuntime, poll: &Poll, token: Token, now: u64) -> Attempt {
        match self.take_state() {
            Dialling::Pausing(moment) if moment <= now => match self.connect(rt, poll, token) {
                Ok(stream) => self.wait_for(stream, now.saturating_add(ATTEMPT)),
                Err(error) => self.fail(now, error),
            },
            Dialling::Begun(stream, end) => self.finish(poll, now, stream, end),
            state => {
                self.state = state;
                Attempt::Open
            }
        }
    }

    /// Takes the state out, and leaves it idle.
    fn take_state(&mut self) -> Dialling {
        std::mem::replace(&mut self.state, Dialling::Idle)
    }

    /// Schedules the next attempt after the pause, which it returns.
    fn put_off(&mut self, now: u64) -> u64 {
        let pause = self.pause;
        self.state = Dialling::Pausing(now.saturating_add(pause));
        self.pause = pause.saturating_add(pause).min(MOST_PAUSE);
        pause
    }

    fn wait_for(&mut self, stream: TcpStream, end: u64) -> Attempt {
        self.state = Dialling::Begun(stream, end);
        Attempt::Open
    }

    fn fail(&mut self, now: u64, error: io::Error) -> Attempt {
        let pause = self.put_off(now);
        Attempt::Failed(error, pause)
    }

    /// Begins an attempt.
    fn connect(&self, rt: &HostRuntime, poll: &Poll, token: Token) -> io::Result<TcpStream> {
        let mut stream = TcpStream::connect(rt, self.address)?;
        let interest = Interest::READABLE | Interest::WRITABLE;
        poll.registry().register(&mut stream, token, interest)?;
        Ok(stream)
    }

    /// Ends an attempt if it has succeeded, failed or lasted for too long.
    fn finish(&mut self, poll: &Poll, now: u64, mut stream: TcpStream, end: u64) -> Attempt {
        match is_made(&stream) {
            Ok(true) => match poll.registry().deregister(&mut stream) {
                Ok(()) => Attempt::Made(stream),
                Err(error) => self.fail(now, error),
            },
            Ok(false) if end <= now => self.fail(now, io::Error::from(ErrorKind::TimedOut)),
            Ok(false) => self.wait_for(stream, end),
            Err(error) => self.fail(now, error),
        }
    }
}

/// Whether an attempt has succeeded. `false` while it is under way.
fn is_made(stream: &TcpStream) -> io::Result<bool> {
    if let Some(error) = stream.take_error()? {
        return Err(error);
    }
    match stream.peer_addr() {
        // TCP can connect a port to itself if nobody listens on it.
        Ok(peer) if peer == stream.local_addr()? => Err(io::Error::from(
            ErrorKind::ConnectionRefused,
        )),
        Ok(_) => Ok(true),
        Err(error) if error.kind() == ErrorKind::NotConnected => Ok(false),
        Err(error) => Err(error),
    }
}
