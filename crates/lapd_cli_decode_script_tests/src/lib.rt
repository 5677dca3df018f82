//! Tests of `decode` over scripts of octets.
//!
//! - Scenarios are scripts with their output, in order. Their prefixes are tested with a failing
//!   stream after them.
//! - Lines, some of them random, have a reported reason exactly if the command refuses them.
//!
//! `lapd_cli_decode_tests` has the tests of captures and logs.
#![tactic(auto)]

#[cfg(test)]
mod memory;
#[cfg(test)]
mod reasons;
#[cfg(test)]
mod run;
#[cfg(test)]
mod scenarios;
