//! How connections to the stack under test are made.

use lapd_cli_notes::{Notes, connection};
use mio::{Events, Poll};
use std::io::{self, ErrorKind};
use std::net::{TcpListener, TcpStream};
use std::time::Duration;

/// How often a refused connection is tried again.
const TRIES: u32 = 500;

/// The pause between two tries, in milliseconds.
const PAUSE: u64 = 20;

/// How the stack under test is reached.
#[derive(Clone, Copy)]
pub enum Address<'a> {
    /// It listens at this address.
    Connect(&'a str),
    /// It connects to this address.
    Listen(&'a str),
}

/// The source of connections to the stack.
#[derive(Drop)]
pub(crate) enum Origin<'a> {
    /// They are made to this address.
    Dialled(&'a str),
    /// They are accepted.
    Accepted(TcpListener),
}

impl<'a> Origin<'a> {
    /// The connections of this address. Listens, if the stack connects.
    ///
    /// # Errors
    ///
    /// The system's error.
    pub fn new(
        rt: &HostRuntime,
        notes: &Notes<'_>,
        address: Address<'a>,
    ) -> io::Result<Origin<'a>> {
        match address {
            Address::Connect(text) => Ok(Origin::Dialled(text)),
            Address::Listen(text) => {
                Ok(Origin::Accepted(connection::listening(rt, notes, text)?))
            }
        }
    }

    /// The first connection, which is noted.
    ///
    /// # Errors
    ///
    /// The system's error.
    pub fn first(&self, rt: &HostRuntime, notes: &Notes<'_>) -> io::Result<TcpStream> {
        match self {
            Origin::Dialled(address) => connection::made(rt, notes, address),
            Origin::Accepted(listener) => {
                let (stream, _from) = connection::next(notes, listener)?;
                Ok(stream)
            }
        }
    }

    /// A further connection. One that is refused is tried again for 10 seconds.
    ///
    /// # Errors
    ///
    /// The system's error.
    pub fn next(&self, rt: &HostRuntime) -> io::Result<TcpStream> {
        let stream = match self {
            Origin::Dialled(address) => dialled(rt, address)?,
            Origin::Accepted(listener) => {
                let (stream, _from) = listener.accept()?;
                stream
            }
        };
        stream.set_nodelay(true)?;
        Ok(stream)
    }
}

fn dialled(rt: &HostRuntime, address: &str) -> io::Result<TcpStream> {
    for _turn in 0..TRIES {
        match TcpStream::connect(rt, address) {
            Err(error) if error.kind() == ErrorKind::ConnectionRefused => pause(rt)?,
            made => return made,
        }
    }
    TcpStream::connect(rt, address)
}

/// Waits: no event is registered.
fn pause(rt: &HostRuntime) -> io::Result<()> {
    let mut poll = Poll::new(rt)?;
    let mut events = Events::with_capacity(rt.alloc(), 1)?;
    poll.poll(&mut events, Some(Duration::from_millis(PAUSE)))
}
