//! The help texts of the program `lapd`.
//!
//! This crate is separate from the command line so that tests can run the examples without the
//! parser.
#![tactic(auto)]

pub mod command_help;
pub mod conform_help;
pub mod decode_help;
pub mod help;
pub mod side_help;
