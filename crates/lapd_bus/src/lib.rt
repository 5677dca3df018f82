//! A bus of sides to run: one network side and any number of terminals on one line (Q.921 5.3).
//!
//! A [`SideBus`] holds the sides and the octets in transit between them. The network's frames are in
//! transit to every terminal, a terminal's frames to the network alone. [`SideBus::apply`] makes one
//! [`BusMove`]: a side takes or loses octets, a timer of it expires, or it executes a request. So a
//! program chooses which receiver loses which octets, and in which order lines deliver.
//!
//! Each move is one event of the bus of `lapd_side_events`, or none (specs/Moves.antt). So the laws on
//! the TEIs and the links of a bus (`lapd_bus_laws`) hold for a `SideBus`, under their premises, from
//! the moment at which all terminals are connected: [`SideBus::connect`] is no event.
#![tactic(auto)]

mod bus_move;
mod line;
mod side_bus;
mod terminal;

pub use bus_move::{BusMove, NewTerminal, Outcome, Station};
pub use side_bus::SideBus;
