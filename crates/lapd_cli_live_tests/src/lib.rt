//! Tests of sides that run in real time, with their surroundings in memory and a clock that advances
//! while they wait; and of the audits of a bus, call by call.
//!
//! The tests are a crate of their own so that each crate below is proved only once. Contracts are
//! not tested again.
#![tactic(auto)]

#[cfg(test)]
mod audits;
#[cfg(test)]
mod bad_lines;
#[cfg(test)]
mod dialogues;
#[cfg(test)]
mod failures;
#[cfg(test)]
mod made;
#[cfg(test)]
mod scenario_run;
#[cfg(test)]
mod sessions;
#[cfg(test)]
mod stalls;
#[cfg(test)]
mod typed;
