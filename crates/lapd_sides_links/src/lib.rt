//! The data links of one side of an ISDN D channel interface, each with its timers (Q.921 clause
//! 5).
//!
//! Begin with [`LinkSet`], the links of a side. [`Acts`] collects the frames and primitives of a
//! call.
#![tactic(auto)]

mod acts;
mod at_once;
mod config;
mod deadlines;
mod delivery;
mod frame_octets;
mod link_set;
mod link_timers;
mod lone_timers;
mod many_timers;
mod octets;
mod predicted;
mod primitive;
mod running_timer;
mod side_fault;
mod timer_places;
mod tournament;
mod written_over;

pub use acts::Acts;
pub use at_once::AtOnce;
pub use config::Config;
pub use deadlines::{due, next_deadline};
pub use frame_octets::FrameOctets;
pub use lapd_link::{Letter, LinkFault, Params, Sapi, Side, Tei};
pub use lapd_table::{LinkId, LinkTable};
pub use lapd_tei::{TeiMessage, TeiOut};
pub use lapd_timers::{Durations, Timer, TimerSet};
pub use link_set::LinkSet;
pub use octets::Octets;
pub use primitive::{Primitive, What};
pub use running_timer::RunningTimer;
pub use side_fault::{SideFault, SideKind, refused};
