//! The source of a side's further connections.

use crate::acceptor::Acceptor;
use crate::dialler::{Attempt, Dialler};
use crate::lost::Lost;
use lapd_cli_notes::Notes;
use lapd_cli_script::Reason;
use mio::net::TcpStream;
use mio::{Poll, Token};
use std::io;
use std::net::SocketAddr;

/// The token of the listener.
pub const INCOMING: Token = Token(1001);

/// The token of a connection that is being established.
const DIALLED: Token = Token(1002);

/// The source of further connections.
#[derive(Drop)]
pub enum NextConnections {
    /// None: the side uses only its first connection.
    Nowhere,
    /// Connections are accepted when there is room for them.
    Acceptor(Acceptor),
    /// The first connection is established again when it is lost.
    Dialler(Dialler),
}

/// A further connection.
#[derive(Drop)]
pub struct Incoming {
    pub stream: TcpStream,
    /// The address of the other side.
    pub peer: SocketAddr,
    /// The words of its note, before the address.
    pub words: &'static str,
}

impl NextConnections {
    /// Whether there is only the first connection.
    pub fn is_nowhere(&self) -> bool {
        matches!(self, NextConnections::Nowhere)
    }

    /// Records that the poll has reported an incoming connection.
    pub fn wake(&mut self) {
        if let NextConnections::Acceptor(acceptor) = self {
            acceptor.wake();
        }
    }

    /// The next moment at which there is something to do, in milliseconds. `None` if there is
    /// nothing to do.
    pub fn next_moment(&self) -> Option<u64> {
        match self {
            NextConnections::Nowhere => None,
            NextConnections::Acceptor(acceptor) => acceptor.next_attempt(),
            NextConnections::Dialler(dialler) => dialler.next_moment(),
        }
    }

    /// The next connection, if there is one at this moment, in milliseconds. If the system refuses,
    /// notes the reason.
    pub fn next(
        &mut self,
        rt: &HostRuntime,
        poll: &Poll,
        notes: &Notes<'_>,
        now: u64,
    ) -> Option<Incoming> {
        match self {
            NextConnections::Nowhere => None,
            NextConnections::Acceptor(acceptor) => accepted(acceptor.accept(now), notes),
            NextConnections::Dialler(dialler) => {
                let peer = dialler.address();
                made(dialler.advance(rt, poll, DIALLED, now), peer, notes)
            }
        }
    }

    /// Records that a connection is lost at this moment, in milliseconds, so its descriptor is
    /// free. Notes it, and what happens next.
    pub fn lose(
        &mut self,
        peer: SocketAddr,
        why: Lost,
        is_alone: bool,
        now: u64,
        notes: &Notes<'_>,
    ) {
        match self {
            NextConnections::Nowhere => {}
            NextConnections::Acceptor(acceptor) => {
                acceptor.retry();
                if is_alone {
                    notes.print(format_args!("connection lost: {why}; waiting for the next one"));
                } else {
                    notes.print(format_args!("{peer}: {why}"));
                }
            }
            NextConnections::Dialler(dialler) => {
                let pause = dialler.begin(now);
                notes.print(format_args!("connection lost: {why}; connecting again in {pause} ms"));
            }
        }
    }

    /// Records that a connection could not be added at this moment, in milliseconds. Notes it, and
    /// what happens next.
    pub fn miss(&mut self, peer: SocketAddr, why: &io::Error, now: u64, notes: &Notes<'_>) {
        let why = Reason(why);
        match self {
            NextConnections::Nowhere | NextConnections::Acceptor(_) => notes.print(format_args!(
                "{peer}: {why}"
            )),
            NextConnections::Dialler(dialler) => {
                let pause = dialler.begin(now);
                notes.print(format_args!("cannot connect: {why}; connecting again in {pause} ms"));
            }
        }
    }
}

/// The result of accepting a connection.
fn accepted(
    accepted: io::Result<Option<(TcpStream, SocketAddr)>>,
    notes: &Notes<'_>,
) -> Option<Incoming> {
    match accepted {
        Ok(Some((stream, peer))) => Some(Incoming {
            stream,
            peer,
            words: "connected by",
        }),
        Ok(None) => None,
        Err(error) => {
            notes.print(format_args!("cannot accept connections: {}", Reason(&error)));
            None
        }
    }
}

/// The result of connecting to this address.
fn made(attempt: Attempt, peer: SocketAddr, notes: &Notes<'_>) -> Option<Incoming> {
    match attempt {
        Attempt::Open => None,
        Attempt::Made(stream) => Some(Incoming {
            stream,
            peer,
            words: "connected to",
        }),
        Attempt::Failed(error, pause) => {
            let why = Reason(&error);
            notes.print(format_args!("cannot connect: {why}; connecting again in {pause} ms"));
            None
        }
    }
}
