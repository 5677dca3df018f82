//! Laws of a data link that recovers by itself, after ITU-T Q.921 (09/97), on the definitions of
//! `lapd_pair_laws`. Nothing here runs.
//!
//! Whatever happened before, the line's own moves lead to a world in which both ends agree. Begin
//! with [`every_world_comes_back`] and [`every_wanted_line_comes_up`].
//! Read specs/ in this order:
//!
//! - `Own`, the moves that the line makes by itself; `Agreed`, the world that they lead to;
//!   `Deliveries`, by which the line runs empty; `EveryWorld`, the worlds from which own moves lead
//!   to agreement; `Losses`, own moves while frames are still lost; `EarlyTimers`, timers that expire
//!   beside frames in transit; and `KeptAgreement`, T203 of ends that agree;
//! - `FreeTimers` and `InTime`, bounds that do not count T200;
//! - `LoneLine`, `ReleasedLine` and `WantedLine`, kinds of such worlds of which more is known; and
//!   `FewLosses`, losses that drop no message;
//! - `Timers`, the timers between two moves; and `Recovered`, `Rounds` and `Untimely`, worlds that
//!   try the moves.
//!
//! `QuickRestart` is about another subject: an end restarts, and the frames in transit stay there.
//! Begin with [`every_run_with_quick_restarts_is_safe`].
#![tactic(auto)]

mod quick_restarts;
mod recovery;

pub use quick_restarts::{
    a_restart_may_drop_all_frames, both_restarts_respond_alike,
    every_run_with_quick_restarts_is_safe, quick_restart_is_computed,
    quick_restart_premise_is_needed, quick_restarts_keep_the_invariant,
};
pub use recovery::{
    early_timers_are_computed, every_agreement_is_kept, every_line_runs_empty,
    every_lone_line_comes_up, every_released_line_comes_down, every_wanted_line_comes_up,
    every_world_comes_back, every_world_comes_back_despite_early_timers,
    every_world_comes_back_despite_losses, every_world_comes_back_in_time,
    every_world_comes_back_whenever_timers_expire, few_losses_drop_nothing, recovery_is_computed,
    rounds_are_computed, runs_in_any_time_are_computed, timers_of_states_run,
};
