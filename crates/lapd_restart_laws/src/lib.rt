//! Laws of two sides of which one or both restart while frames are in transit, after ITU-T Q.921
//! (09/97). Nothing here runs.
//!
//! `lapd_two_side_laws` has no restart among its events. Here a side may also start anew with its
//! TEIs, and the octets in transit stay there. Begin with [`each_link_is_safe_across_restarts`],
//! and read specs/ in this order:
//!
//! - `Exchanges`: SABME and DISC, and the UA and DM that answer them, in the octets in transit;
//! - `Restarts`: a side that restarts, and runs of moves and restarts;
//! - `RestartPremises`, for one link: no exchange of the side that restarts is in transit, and a
//!   removed link does not exist again;
//! - `SafeAcross`: what holds of the link after such a run;
//! - `RestartRuns`: worked runs.
#![tactic(auto)]

mod restarts;

pub use restarts::{
    each_link_is_safe_across_restarts, each_restart_premise_is_needed, new_sides_restart,
    restarts_are_computed,
};
