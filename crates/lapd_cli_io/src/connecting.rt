//! How the connections of a side with the real clock are made.

use crate::connections::Connections;
use crate::shared_bus::BusSetup;
use lapd_cli_notes::{Notes, connection};
use lapd_frame::Side;
use mio::net::{TcpListener, TcpStream};
use std::io;
use std::net::{self, SocketAddr};

/// The note about an address that other hosts can reach.
const OPEN_TO_ALL: &str = "anybody who can reach this address can connect as a terminal";

/// How a side gets its connections.
#[derive(Clone, Copy)]
pub struct ConnectionSetup<'a> {
    /// The address that it listens on or connects to.
    pub address: &'a str,
    /// How many terminals a network side serves, 1 to 127.
    pub terminals: u8,
    /// Whether the interface is one at primary rate.
    pub is_primary: bool,
    /// Whether a connection that is lost is replaced.
    pub keep: bool,
    /// How many milliseconds a connection may send no whole frame, if that is limited.
    pub idle_limit: Option<u64>,
    /// How a network side at basic access serves a bus, if it accepts several connections.
    pub bus: BusSetup,
}

/// Makes the connections of a side, and starts its clock when the first of them is made.
///
/// # Errors
///
/// Those of the system, and out of memory.
pub fn connect_side<'a>(
    rt: &'a HostRuntime,
    notes: &'a Notes<'a>,
    side: Side,
    setup: &ConnectionSetup<'_>,
) -> io::Result<Connections<'a>> {
    match side {
        Side::Network => accepted(rt, notes, setup),
        Side::User => made(rt, notes, setup),
    }
}

/// Accepts the first connection to the address of a network side. With `--keep`, or with several
/// terminals, later connections are accepted too.
fn accepted<'a>(
    rt: &'a HostRuntime,
    notes: &'a Notes<'a>,
    setup: &ConnectionSetup<'_>,
) -> io::Result<Connections<'a>> {
    let listener = connection::listening(rt, notes, setup.address)?;
    if !listener.local_addr()?.ip().is_loopback() {
        notes.print(OPEN_TO_ALL);
    }
    let (stream, peer) = connection::next(notes, &listener)?;
    let mut connections = Connections::new(
        rt,
        notes,
        Side::Network,
        setup.terminals,
        setup.is_primary,
    )?;
    add(&mut connections, stream, peer)?;
    if setup.keep || 1 < setup.terminals {
        listener.set_nonblocking(true)?;
        connections.accept_from(TcpListener::from_std(listener))?;
        if !setup.is_primary {
            connections.serve_bus(setup.bus);
        }
    }
    connections.limit_idle(setup.idle_limit);
    Ok(connections)
}

/// Makes the connection of a user side to its address, and makes it again with `--keep`.
fn made<'a>(
    rt: &'a HostRuntime,
    notes: &'a Notes<'a>,
    setup: &ConnectionSetup<'_>,
) -> io::Result<Connections<'a>> {
    let stream = connection::made(rt, notes, setup.address)?;
    let peer = stream.peer_addr()?;
    let mut connections = Connections::new(rt, notes, Side::User, 1, setup.is_primary)?;
    add(&mut connections, stream, peer)?;
    if setup.keep {
        connections.dial(peer);
    }
    connections.limit_idle(setup.idle_limit);
    Ok(connections)
}

/// Makes a connection non-blocking, and adds it.
fn add(
    connections: &mut Connections<'_>,
    stream: net::TcpStream,
    peer: SocketAddr,
) -> io::Result<()> {
    stream.set_nonblocking(true)?;
    connections.add(TcpStream::from_std(stream), peer)
}
