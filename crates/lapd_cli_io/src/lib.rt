//! The program's connections: TCP streams of frames, and one wait for all streams, standard input
//! and the clock.
//!
//! Begin with [`connect_side`]. It makes the [`Connections`] of a side with the real clock, by
//! which the side sends and receives frames, reads the clock and waits. The functions of
//! [`connection`] make the one stream of a side with the script's clock.
#![tactic(auto)]

mod acceptor;
mod auditor;
mod clock;
mod connecting;
mod connections;
mod dialler;
mod discards;
mod frame_stream;
mod input;
mod lost;
mod next_connections;
mod peers;
mod repeated;
mod shared_bus;
mod ties;

pub use connecting::{ConnectionSetup, connect_side};
pub use connections::Connections;
pub use shared_bus::BusSetup;
