//! Tests of the crates below, as tables: octets, rows of the state table, counters and queues, each
//! with the expected result; and links that random events drive, compared with the state table as
//! text; and a listener on the line, with its remarks on each frame of handwritten dialogues.
//! `lapd_pair_tests` has the tests of the commands and of two ends.
//!
//! They are a crate of their own so that each crate below is proved only once. No test repeats a
//! contract. A row shows that the definitions say what is meant, that a call can succeed, and how a
//! value prints. `none_is_wrong` fails a test with the name of the row.
#![tactic(auto)]

#[cfg(test)]
mod bites;
#[cfg(test)]
mod counters;
#[cfg(test)]
mod links;
#[cfg(test)]
mod octets;
#[cfg(test)]
mod queues;
#[cfg(test)]
mod reports;
#[cfg(test)]
mod rows;
#[cfg(test)]
mod text;
#[cfg(test)]
mod values;
#[cfg(test)]
mod wants;
#[cfg(test)]
mod windows;
