//! Links of two sides by the clock, after ITU-T Q.921 (09/97): T200 exceeds the time in which a
//! frame and its answer are in transit.
//!
//! The laws of two sides (`lapd_two_side_laws`) have the premise that T200 of a link does not
//! expire while a command with P=1 from its side, or a response with F=1 to it, is in transit.
//! Nobody can see that on a line. Here it follows from a bound on the time of a frame
//! (Q.921 5.9.1); `lapd_clock_bus_laws` has the same of a bus and across restarts. Nothing here
//! runs. The definitions, in the order of specs/:
//!
//! - `Clock`: the octets in transit, each with the moment at which it was sent, and the moment of
//!   the latest event. A clock goes on with each event.
//! - `InTime`: the premises on one event of a link (`IsInTime`) and on all moves of a run
//!   (`AreInTime`): frames are in transit for at most `longest` milliseconds, a side takes frames
//!   that have arrived before it expires a timer, and timers expire only when they are due. T200 is
//!   at least twice `longest` (`IsLongEnough`).
//! - `Runs`: worked runs.
//!
//! The laws:
//!
//! - [`every_run_in_time_is_timely`]: the premise on T200 follows, with losses or without.
//! - [`each_link_in_time_is_safe`]: so each link of two sides is safe.
//! - [`ticks_are_when_due`]: the code expires a timer only when it is due.
//! - [`half_of_t200_is_reached`], [`each_clock_premise_is_needed`]: worked runs.
#![tactic(auto)]

mod laws;
mod runs;

pub use laws::{each_link_in_time_is_safe, every_run_in_time_is_timely, ticks_are_when_due};
pub use runs::{each_clock_premise_is_needed, half_of_t200_is_reached};
