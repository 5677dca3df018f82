//! Connections of the process to itself.

use std::io;
use std::net::{TcpListener, TcpStream};

/// Both ends of a new connection of the process to itself.
pub fn to_itself(rt: &HostRuntime) -> io::Result<(TcpStream, TcpStream)> {
    let listener = TcpListener::bind(rt, "127.0.0.1:0")?;
    let near = TcpStream::connect(rt, listener.local_addr()?)?;
    let (far, _) = listener.accept()?;
    Ok((near, far))
}
