//! One end of a data link, after ITU-T Q.921 (09/97), clause 5 and Annex B: its states and what it
//! does for each event.
//!
//! Begin with [`Link`], the end. It has no clock and no socket, and it never sees octets: a program
//! passes in frames and expired timers, and the link returns what to send, which timer to start or
//! stop, and what to report to layer 3. `lapd_sides` does all of the following for the links of a
//! whole interface, with their timers and TEIs. A program with timers of its own uses a link like
//! this:
//!
//! 1. It makes the link with its side, SAPI, TEI and [`Params`]. The link is in state 4.
//! 2. It reads octets of the line by `lapd_frame::read`. A frame with the link's SAPI and TEI
//!    ([`Link::is_for`]) is passed to [`Link::handle`] as [`Event::Heard`], and a fault of F4 to F7
//!    with its address as [`Event::Fault`].
//! 3. Requests of layer 3 are events too. Its messages are passed to [`Link::give`], which returns
//!    a message that it refuses.
//! 4. Each step returns a list of [`Out`], at most [`MOST_OUTPUTS`], which the program executes in
//!    order. [`Link::frame`] makes the frame of an output that is sent, before the next call, and
//!    `lapd_frame::write` writes its octets. `Start` and `Stop` are for T200 and T203. The others
//!    are for layer 3, at most six of them; `Up` delivers the information of the frame that was
//!    just received.
//! 5. When a timer that was started expires, the program passes [`Event::T200`] or [`Event::T203`].
//!    Before you expire timers for a moment, pass in every frame that had arrived by then. So it
//!    reads the clock before it looks for a frame, and expires timers for that moment only if no
//!    frame has arrived.
//!
//! ```text
//! let mut link = Link::new(alloc, Side::User, Sapi::Call, tei, Params::basic(Sapi::Call))?;
//! let outs = link.handle(Event::Establish)?;
//! for out in outs.as_slice() {
//!     match out {
//!         Out::Start(timer) => start(*timer),
//!         Out::Stop(timer) => stop(*timer),
//!         out => match link.frame(out, &[]) {
//!             Some(frame) => send(&frame),
//!             None => report(out),
//!         },
//!     }
//! }
//! ```
//!
//! `handle_into` and `give_into` fill a list that the caller lends, and save a copy of some 1,100
//! octets a step.
#![tactic(auto)]

mod laws;
mod link;
mod sent_frame;

pub use lapd_frame::{
    Address, Control, FaultKind, Frame, FrameFault, MessageField, Number, PredictedKind, Response,
    Role, Sapi, Side, Tei,
};
pub use lapd_link_definition::{Event, Letter, LinkFault, Out, Params, Recovery, Refused, State};
pub use lapd_link_machine::{GivenOuts, MOST_OUTPUTS, NrEffect, Outs, PredictedOuts, SendEffect};
pub use lapd_queue::IQueue;
pub use lapd_supervision::{Seq, Window};
pub use lapd_timers::Timer;
pub use laws::sent_outputs_have_frames;
pub use link::Link;
