//! The TCP connections of the program, and their notes on standard error.

use crate::notes::Notes;
use lapd_cli_script::port_reason;
use lapd_port::PortFault;
use std::io::{self, ErrorKind, Read};
use std::net::{Shutdown, SocketAddr, TcpListener, TcpStream};
use std::time::{Duration, Instant};

/// How long a closing side reads what still arrives, in milliseconds at most.
pub const LINGER: u64 = 1000;

/// The most octets per read while a connection is closed.
const PART: usize = 4096;

/// Both ends of a new connection of the process to itself, over the loopback interface. The second
/// end reads what is written to the first, each frame without delay.
///
/// # Errors
///
/// The system's error, or `ConnectionRefused` if another process connected first.
pub fn to_itself(rt: &HostRuntime) -> io::Result<(TcpStream, TcpStream)> {
    let listener = TcpListener::bind(rt, "127.0.0.1:0")?;
    let near = TcpStream::connect(rt, listener.local_addr()?)?;
    let far = far_end(&listener, &near)?;
    near.set_nodelay(true)?;
    Ok((near, far))
}

// The other end of this connection, which must be the first one that the listener accepts.
fn far_end(listener: &TcpListener, near: &TcpStream) -> io::Result<TcpStream> {
    let (far, from) = listener.accept()?;
    if from == near.local_addr()? {
        Ok(far)
    } else {
        Err(io::Error::from(ErrorKind::ConnectionRefused))
    }
}

/// Listens on this address and accepts the first connection, with notes as from [`listening`] and
/// [`next`].
///
/// # Errors
///
/// The system's error.
pub fn accepted(rt: &HostRuntime, notes: &Notes<'_>, address: &str) -> io::Result<TcpStream> {
    let listener = listening(rt, notes, address)?;
    let (stream, _from) = next(notes, &listener)?;
    Ok(stream)
}

/// Listens on this address, and notes the address with its port.
///
/// # Errors
///
/// The system's error.
pub fn listening(rt: &HostRuntime, notes: &Notes<'_>, address: &str) -> io::Result<TcpListener> {
    let listener = TcpListener::bind(rt, address)?;
    let own = listener.local_addr()?;
    notes.print(format_args!("listening on {own}"));
    Ok(listener)
}

/// Accepts the next connection, and notes its peer's address.
///
/// # Errors
///
/// The system's error.
pub fn next(notes: &Notes<'_>, listener: &TcpListener) -> io::Result<(TcpStream, SocketAddr)> {
    let (stream, from) = listener.accept()?;
    notes.print(format_args!("connected by {from}"));
    stream.set_nodelay(true)?;
    Ok((stream, from))
}

/// Connects to this address, and notes the connection.
///
/// # Errors
///
/// The system's error.
pub fn made(rt: &HostRuntime, notes: &Notes<'_>, address: &str) -> io::Result<TcpStream> {
    let stream = TcpStream::connect(rt, address)?;
    let peer = stream.peer_addr()?;
    notes.print(format_args!("connected to {peer}"));
    stream.set_nodelay(true)?;
    Ok(stream)
}

/// Closes a connection. Unless a fault of it is reported, notes before if the other side has closed
/// it and everything it sent was read. The sending direction is ended first. Then what arrives is
/// read and dropped until the other side has closed too, for a second at most: octets that were not
/// read would make the system reset the connection, and the other side might lose the last frames.
pub fn close(rt: &HostRuntime, notes: &Notes<'_>, stream: TcpStream, is_reported: bool) {
    if !is_reported && is_closed(&stream) {
        notes.print(port_reason(PortFault::End));
    }
    let _ = linger(rt, &stream);
}

// Ends the sending direction, and reads and drops what arrives until the other side has closed, for
// a second at most.
fn linger(rt: &HostRuntime, stream: &TcpStream) -> io::Result<()> {
    stream.shutdown(Shutdown::Write)?;
    stream.set_nonblocking(false)?;
    let start = Instant::now(rt)?;
    let mut reader = stream;
    let mut part = [0; PART];
    for _read in 0..u64::MAX {
        let passed = u64::try_from(start.elapsed(rt)?.as_millis()).unwrap_or(u64::MAX);
        if LINGER <= passed {
            break;
        }
        stream.set_read_timeout(Some(Duration::from_millis(LINGER - passed)))?;
        if reader.read(&mut part)? == 0 {
            break;
        }
    }
    Ok(())
}

// Whether the other side has closed the connection and everything was read. Neither reads nor
// waits.
fn is_closed(stream: &TcpStream) -> bool {
    let mut octet = [0u8];
    match stream.set_nonblocking(true) {
        Ok(()) => matches!(stream.peek(&mut octet), Ok(0)),
        Err(_) => false,
    }
}
