//! The timers of a data link and of its management, after ITU-T Q.921 (09/97), clause 5.9.
//!
//! Begin with [`TimerSet`]: it says which timers run and which is due. [`Timer`] names the four
//! timers, and [`Durations`] says how long each runs. There is no clock here: the caller passes the
//! moment, in milliseconds.
#![tactic(auto)]

mod durations;
mod laws;
mod moments;
mod timer;
mod timer_set;

pub use durations::Durations;
pub use laws::one_is_due;
pub use moments::earlier;
pub use timer::Timer;
pub use timer_set::TimerSet;
