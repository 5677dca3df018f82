//! The command `bus --links` of the program `lapd`, over any reader and writer: a network side and
//! terminals on one bus, each a whole side of an interface, and the octets in transit between them.
//!
//! [`bus_links`] executes a script. `lapd_cli_grammar` has the forms of its lines, and
//! `lapd_bus` the bus. A line says which side takes or loses octets, advances the clock, or
//! makes a request of a side. The command prints what the sides take, send and report, or draws it
//! ([`BusLayout`]).
#![tactic(auto)]

mod bus_line;
mod bus_runner;
mod drawing;
mod ladder;
mod listing;
mod report;
mod words;

pub use bus_runner::bus_links;
pub use lapd_cli_script::ScriptFault;
pub use report::BusLayout;
