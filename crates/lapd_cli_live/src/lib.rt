//! A side served in real time: what `net` and `user` do with the real clock.
//!
//! A [`LiveSide`] is a side with its surroundings, an implementation of [`Outside`]: connections
//! and a clock, or a line in memory. [`LiveSide::serve`] runs it step by step. A step receives
//! every frame that has arrived, then expires every timer that is due, and then waits once, until
//! the next deadline. So no timer expires if its response has arrived: *before you expire timers
//! for a moment, pass in every frame that had arrived by then.* specs/Steps.antt defines a step,
//! and specs/Entries.antt what is printed and counted.
//!
//! [`live_script`] runs a side on a script, and [`live_session`] on typed lines.
//! specs/Sessions.antt defines which lines are executed, in which order, and what ends them. A
//! [`Tapped`] line passes each frame to a [`Tap`], and an [`Impaired`] line loses and delays frames
//! on purpose.
#![tactic(auto)]

mod executed;
mod fault;
mod input;
mod laws;
mod live_lines;
mod live_side;
mod printer;
mod recent_output;
mod service;
mod style;
mod typed_lines;

pub use executed::Executed;
pub use fault::LiveFault;
pub use input::{Console, LiveStop, live_script, live_session};
pub use lapd_cli_side_lines::LineStyle;
pub use lapd_cli_wire::{
    Impaired, Impairment, Incident, Lines, MOST_RECEIVED, Outside, Sending, Tap, Tapped, Woken,
};
pub use laws::{
    expect_finds_what_is_printed, no_service_ends_early, no_timer_expires_early,
    prompt_lines_are_computed,
};
pub use live_side::{LiveSide, frames_of_step};
pub use printer::Printer;
pub use service::{EndReason, Service, Until};
pub use style::Style;
