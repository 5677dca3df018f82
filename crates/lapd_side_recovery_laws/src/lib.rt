//! Links of two sides that recover by the clock, after ITU-T Q.921 (09/97).
//!
//! The law of recovery in milliseconds (`every_world_comes_back_in_time` of `lapd_recovery_laws`)
//! is about two ends and their line. Here it is applied to a link of two sides, with their clock
//! (`lapd_clock_laws`), their other links and their TEI management. Nothing here runs. The
//! definitions, in the order of specs/:
//!
//! - `Reached`: the interfaces that two newly created sides reach, and the link on them.
//! - `Quiet`: the premises on the moves while a link recovers.
//! - `Counts`: the messages that are left, the frames in transit, T203s that expire while the ends
//!   are not in step, and the time that suffices.
//! - `Agreement`: the ends of the link agree.
//! - `Runs`: worked runs.
//!
//! The laws:
//!
//! - [`links_of_two_sides_come_back_in_time`]: every link recovers within a number of milliseconds.
//! - [`requests_for_others_leave_a_link`]: requests for other links meet its premise on requests.
//! - [`recovery_of_sides_is_computed`], [`each_premise_of_recovery_is_needed`]: worked runs.
#![tactic(auto)]

mod laws;
mod runs;

pub use laws::{links_of_two_sides_come_back_in_time, requests_for_others_leave_a_link};
pub use runs::{each_premise_of_recovery_is_needed, recovery_of_sides_is_computed};
