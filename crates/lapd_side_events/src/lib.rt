//! The events of sides, after ITU-T Q.921 (09/97): definitions, over which the laws of two sides and
//! of a bus are stated.
//!
//! Nothing here runs. The definitions, in the order of specs/:
//!
//! - `SideView`: a side as a program sees it: the primitives that it delivered, the messages that
//!   it accepted, and the octets in transit to it and from it. An event of a side is one of five:
//!   it takes the first octets in transit to it, some of these are lost, a running timer expires
//!   (due or not), it executes a request, or it overhears octets of someone else, which are not in
//!   transit to it here. The network side of a bus so takes octets of other terminals.
//! - `Interface`: both sides with the octets between them. A move is an event of one of them, and a
//!   run is a list of moves. The line keeps order, and repeats and alters nothing. All else is
//!   open: which octets are lost, when timers expire, which requests are made when, and what a side
//!   overhears.
//! - `Bus`: a network side, and the terminals with their lines. Each frame of the network goes to
//!   all terminals. Each terminal has a line of its own in each direction, which keeps order, and
//!   repeats and alters nothing; each terminal may lose octets that others receive. An event of a
//!   bus is an event of a terminal, or of the network with the line of a terminal. A terminal may
//!   also be replaced by a new one, and the network may restart. `interface_of` is what the network
//!   and one terminal see of the bus, and `moves_along` are the moves of this interface that events
//!   of the bus are.
//! - `Calls`, `BusCalls`: which event a call of a side in code is.
//!
//! The laws:
//!
//! - [`calls_are_events`]: `take`, `tick` and `request` of both sides are events, by their
//!   contracts.
//! - [`calls_are_bus_events`]: the calls of n + 1 sides in code are events of a bus.
#![tactic(auto)]

mod laws;

pub use laws::{calls_are_bus_events, calls_are_events};
