//! A bus of sides that also restart while frames are in transit, after ITU-T Q.921 (09/97).
//! Nothing here runs.
//!
//! `lapd_bus_laws` has one network side and any number of terminals. Its laws of one link exclude
//! that the network restarts, or that the link's terminal is replaced. `lapd_restart_laws` has such
//! restarts, for two sides. Here both come together. The definitions, in the order of specs/:
//!
//! - `BusAcross`: the events of a bus, where a side that restarts counts on, and the changes of a
//!   terminal's interface that these events are;
//! - `LinksAcross`: the premises on one link (`KeepsLink`);
//! - `HoldingsAcross`: the holding of a TEI, from its assignment to the next
//!   (`KeepsHoldingAcross`);
//! - `OldFrames`: the premise on a terminal that restarts while old frames are in transit to it,
//!   and a run that shows that it is needed;
//! - `RunsAcross`: worked runs.
//!
//! The laws:
//!
//! - [`each_run_across_restarts_is_one_of_two_sides`]: the network and one terminal of a bus are
//!   two sides that restart.
//! - [`new_sides_restart_on_a_bus`]: code that represents a newly created side represents one of a bus
//!   that restarts.
//! - [`each_link_of_a_bus_is_safe_across_restarts`]: so the link of each terminal is safe, from any
//!   moment at which it is new, and no other terminal delivers anything about it.
//! - [`every_holding_is_safe_across_restarts`]: the links of a TEI are safe from its assignment to
//!   the next.
//! - [`each_fixed_tei_is_safe_across_restarts`]: the same from the first event on, for fixed TEIs.
//! - [`every_holding_is_safe_behind_old_frames`],
//!   [`every_holding_is_safe_behind_old_frames_across_restarts`]: all primitives of a link are
//!   right even if old frames of it are in transit to the terminal at the assignment.
//! - [`old_frame_premise_is_needed`]: with restarts one more premise is needed for that.
//! - [`restarts_on_a_bus_are_computed`], [`each_restart_premise_is_needed_on_a_bus`]: worked runs.
#![tactic(auto)]

mod holdings;
mod laws;
mod old_frames;
mod runs;

pub use holdings::{each_fixed_tei_is_safe_across_restarts, every_holding_is_safe_across_restarts};
pub use laws::{
    each_link_of_a_bus_is_safe_across_restarts, each_run_across_restarts_is_one_of_two_sides,
    new_sides_restart_on_a_bus,
};
pub use old_frames::{
    every_holding_is_safe_behind_old_frames,
    every_holding_is_safe_behind_old_frames_across_restarts, old_frame_premise_is_needed,
};
pub use runs::{each_restart_premise_is_needed_on_a_bus, restarts_on_a_bus_are_computed};
