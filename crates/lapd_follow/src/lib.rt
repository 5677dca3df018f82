//! Follows the data links of the ISDN D channel by the frames on the line alone, after ITU-T Q.921
//! (09/97), clause 5.
//!
//! Begin with [`Follower`], or [`LinkFollower`] for one link: it takes frames in the order in which
//! they are seen, at either end or between, and returns [`Remarks`] on each: a repeated I frame, an
//! N(R) out of range, the poll that a response answers, a TEI that is assigned twice. Each
//! [`Remark`] has a [`Class`]. A violation is a frame that two ends which follow the standard never
//! send, whatever frames are lost, if T200 exceeds the time until an answer (Q.921 5.9.1), and if
//! the listener sees one of two messages that free a TEI (Q.921 5.3.4). [`Tally`] counts the frames
//! of one end. [`Listener`] follows all links of a line and counts their frames.
#![tactic(auto)]

mod busy_time;
mod classes;
mod dialogue;
mod end;
mod follower;
mod holder;
mod identity;
mod laws;
mod learned;
mod learning_laws;
mod link_follower;
mod link_table;
mod link_tally;
mod listener;
mod noted;
mod numbering;
mod packet;
mod polls;
mod reference;
mod remark;
mod remarks;
mod seconds;
mod senders;
mod tally;
mod teis;
mod unacknowledged;

pub use busy_time::BusyTime;
pub use classes::Middle;
pub use end::Busy;
pub use follower::Follower;
pub use identity::Identity;
pub use laws::{
    identities_are_computed, middle_is_between, middles_are_computed, remarks_are_computed,
};
pub use learning_laws::{
    known_numbers_give_no_violation, learned_links_are_in_step,
    learned_numbers_are_those_of_the_ends, premises_of_learning_are_needed,
};
pub use link_follower::LinkFollower;
pub use link_tally::LinkTally;
pub use listener::Listener;
pub use numbering::Numbering;
pub use packet::Packet;
pub use polls::Polls;
pub use remark::{Class, Remark};
pub use remarks::Remarks;
pub use seconds::Seconds;
pub use senders::sender_by_kind;
pub use tally::{Kinds, Tally, Times};
