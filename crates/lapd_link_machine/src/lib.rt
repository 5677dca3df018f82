//! The machine of a data link, after ITU-T Q.921 (09/97), Annex B: the variables of an end, and the
//! effect of each row of the state table on them.
//!
//! [`Machine`] holds the variables of a link. [`Machine::step`] makes the step of an event that
//! [`Machine::refuses`] does not refuse. A message joins the queue by [`Machine::queue_up`], and
//! [`Machine::end_step`] ends its step. Programs use `lapd_link`, which adds the link's address.
#![tactic(auto)]

mod machine;

pub use machine::{GivenOuts, MOST_OUTPUTS, Machine, NrEffect, Outs, PredictedOuts, SendEffect};
