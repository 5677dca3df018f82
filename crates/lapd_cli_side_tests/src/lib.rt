//! Tests of `net`, `user` and `bus --links`.
//!
//! - Scenarios are scripts with their output and the octets on the port, in order. Their prefixes
//!   are tested with a failing stream after them, and the dialogue in the help over a connection.
//! - Lines of each command, some of them random, have a reported reason exactly if the command
//!   refuses them.
//! - Hostile octets arrive at a port.
//!
//! `lapd_cli_live_tests` has the tests of sides in real time.
#![tactic(auto)]

#[cfg(test)]
mod connections;
#[cfg(test)]
mod examples;
#[cfg(test)]
mod memory;
#[cfg(test)]
mod reasons;
#[cfg(test)]
mod run;
#[cfg(test)]
mod scenarios;
#[cfg(test)]
mod strings;
