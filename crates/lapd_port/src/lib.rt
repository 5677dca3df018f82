//! Frames of the ISDN D channel over a stream of octets, such as a socket: each frame's length in
//! two octets, high octet first, followed by the frame's octets.
//!
//! Begin with [`Port`], which reads frames from a [`Source`] and writes them to a [`Sink`]. A
//! source or sink (a device) reads or writes some octets a call, and may fail. [`FromRead`] and
//! [`FromWrite`] make them from any reader and writer of std. If a port can't read or write a
//! frame, it returns a [`PortFault`], S1 to S6. No call allocates.
//!
//! The content of a frame is not checked here: a frame is any 3 to 264 octets.
#![tactic(auto)]

mod device_error;
mod from_read;
mod from_write;
mod limits;
mod port;
mod port_fault;
mod reading;
mod sink;
mod source;
mod writing;

pub use device_error::DeviceError;
pub use from_read::FromRead;
pub use from_write::FromWrite;
pub use limits::{LEAST_OCTETS, MOST_OCTETS, MOST_TURNS};
pub use port::Port;
pub use port_fault::PortFault;
pub use sink::Sink;
pub use source::Source;
