//! Links of a bus, and links of sides that restart, by the clock, after ITU-T Q.921 (09/97).
//!
//! The laws of a bus (`lapd_bus_laws`) and of two sides that restart (`lapd_restart_laws`) have the
//! premise that T200 of a link does not expire while a command with P=1 from its side, or a
//! response with F=1 to it, is in transit. Here it follows from a bound on the time of a frame, as
//! in `lapd_clock_laws`, whose clock and premises these laws share. Nothing here runs. The
//! definitions, in the order of specs/:
//!
//! - `Buses`: the premises of a bus that are not about the clock, and a worked run.
//! - `Across`: the premises if sides restart, and a worked run.
//!
//! The laws:
//!
//! - [`each_link_of_a_bus_in_time_is_safe`]: each link of a bus is safe.
//! - [`each_link_in_time_is_safe_across_restarts`]: and each link of two sides that restart.
//! - [`bus_premises_in_time_can_be_met`], [`restart_premises_in_time_can_be_met`]: worked runs.
#![tactic(auto)]

mod buses;
mod restarts;

pub use buses::{bus_premises_in_time_can_be_met, each_link_of_a_bus_in_time_is_safe};
pub use restarts::{
    each_link_in_time_is_safe_across_restarts, restart_premises_in_time_can_be_met,
};
