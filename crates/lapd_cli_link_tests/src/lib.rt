//! Tests of `answer`, `pair`, `loop` and `bus`.
//!
//! - Scenarios are scripts with their output and, for `loop`, the octets on the port, in order.
//!   Their prefixes are tested with a failing stream after them, and scenarios of `loop` over a
//!   connection.
//! - Lines of each command, some of them random, have a reported reason exactly if the command
//!   refuses them.
//! - The failures of standard streams are reported.
//!
//! The tests are crates of their own so that each crate is proved once. Contracts are not tested
//! again. A row shows that the definitions have the intended meaning, that a call can succeed, and
//! what is printed.
#![tactic(auto)]

#[cfg(test)]
mod connections;
#[cfg(test)]
mod examples;
#[cfg(test)]
mod memory;
#[cfg(test)]
mod reasons;
#[cfg(test)]
mod run;
#[cfg(test)]
mod scenarios;
#[cfg(test)]
mod streams;
