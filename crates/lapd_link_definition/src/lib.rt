//! The state table of a data link, after ITU-T Q.921 (09/97), Annex B: its types, its definition,
//! and the laws that follow from it.
//!
//! [`Event`] is an event of one end of a link, [`Out`] an output of its step, [`State`] its state,
//! [`Params`] its parameters, and [`LinkFault`] the reason why a request is refused. The table
//! itself is defined in specs/, state by state; the crate `lapd_link_machine` implements it. Only
//! functions that read these types run in this crate.
#![tactic(auto)]

mod event;
mod laws;
mod out;
mod params;
mod recovery;
mod state;

pub use event::{Event, LinkFault, Refused};
pub use lapd_frame::{
    Address, Control, FaultKind, Frame, FrameFault, Number, Role, Sapi, Side, Tei,
};
pub use lapd_timers::Timer;
pub use laws::{
    all_sent_are_outstanding, establishments_are_counted, messages_are_counted, numbers_stay,
    numbers_within_are_near, parameters_stay, reports_are_expected, sent_frames_are_in_the_grammar,
    sent_messages_are_there, tags_decide, timers_follow_outputs,
};
pub use out::{Letter, Out};
pub use params::Params;
pub use recovery::Recovery;
pub use state::State;
