//! Scenarios: scripts of commands, with what they print and the octets on the port, in order.
//!
//! Each crate of tests of commands implements [`Commands`] and passes its tables to
//! [`scenarios_hold`]. [`lines_hold`] checks that a command refuses exactly the lines that have a
//! reason, and [`survives`] what a failed allocation leads to.
//!
//! The words of a command are read by [`CommandWords`] and not by the parser of the command line,
//! so that these crates do not depend on it. `lapd_cli_options_tests` tests what words choose.
#![tactic(auto)]

mod command_words;
mod commands;
mod connections;
mod examples;
mod lines;
mod memory;
mod reasons;
mod scenario;
mod tables;
mod trial;

pub use command_words::CommandWords;
pub use commands::{Commands, Run};
pub use connections::to_itself;
pub use examples::{Example, example_holds, example_passes};
pub use memory::survives;
pub use reasons::{lines_hold, typed_lines_hold};
pub use scenario::{Console, Line, Scenario};
pub use tables::scenarios_hold;
pub use trial::{Trial, row_passes};
