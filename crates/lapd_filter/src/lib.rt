//! Which frames are printed: a [`Filter`] chooses them by their octets.
#![tactic(auto)]

mod filter;

pub use filter::Filter;
