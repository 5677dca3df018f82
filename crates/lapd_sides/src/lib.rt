//! A whole side of an ISDN D channel interface, after ITU-T Q.921 (09/97): the data links of its
//! TEIs, its TEI management and their timers.
//!
//! [`NetSide`] is the network side, [`UserSide`] a user side, and [`EitherSide`] either of them. A
//! side has no socket, clock or thread: the caller passes octets, requests and times, and receives
//! frames and primitives. Times are milliseconds of the caller's clock, which must never go
//! backwards. A program uses a side like this:
//!
//! 1. Create the side with a [`Config`], and one [`Acts`], which every call empties and then fills.
//! 2. Pass octets from the line, without flags and check sequence, to `take`. Its only error is B3,
//!    if the links of a TEI cannot be allocated; the frame may then be passed again.
//! 3. Pass the requests of layer 3 to `request`, as a [`Request`]. An error is a [`SideFault`],
//!    which returns the message; the side is unchanged. `give` submits a message by its octets: it
//!    copies them into the room of an acknowledged message if the link keeps one.
//! 4. After each successful call, send the octets of `Acts::frames`, 3 to 264 each, in order, and
//!    process `Acts::primitives`. A [`Primitive`] prints in words, as `0 64 established`.
//! 5. Before you expire timers for a moment, pass in every frame that had arrived by then. To do
//!    so, read the clock and take a frame without waiting, repeatedly, until no frame has arrived.
//!    Then call `tick` with the time that was read before that last attempt, until `tick` returns
//!    `false`. Do step 4 after each `take` and each `true`. A flood of frames must not stop the
//!    timers, so take at most some thousand frames before you call `tick`.
//! 6. Sleep until `next_deadline`, or until octets or a request arrive: before that moment `tick`
//!    has nothing to do. If it is `None`, no timer runs.
//!
//! A program that calls again before it has processed the results holds a [`QueuedSide`] instead,
//! which appends the results of each call to those that wait.
//!
//! ```text
//! let mut side = EitherSide::User(UserSide::new(alloc, config, Some(tei))?);
//! let mut acts = Acts::new(alloc)?;
//! side.request(Request::Establish(id), clock(), &mut acts)?;
//! send_and_report(&acts);
//! loop {
//!     let mut now = clock();
//!     while let Some(octets) = octets_arrived() {
//!         side.take(octets, now, &mut acts)?;
//!         send_and_report(&acts);
//!         now = clock();
//!     }
//!     while side.tick(now, &mut acts) { send_and_report(&acts); }
//!     sleep_until(side.next_deadline());
//! }
//! ```
//!
//! The contracts prove that a side keeps to the standard, as the definitions in specs/ state it.
//! They do not cover the clock. The guarantees between two ends have these premises:
//!
//! - T200 never expires after its answer has arrived, which step 5 ensures, or while the answer is
//!   in transit. So T200 must be longer than the transit times of a frame and its answer together.
//! - A side that is created anew finds nothing in transit from before.
//! - The line keeps order, and repeats and alters nothing. Nobody else sends for the link.
//! - The link's TEI is not assigned again after it was removed. If it is, its links are new ones.
//!
//! When a TEI is removed, each of its links reports at most its release (`Released` or
//! `ReleaseConfirm`). Messages that still waited are not reported as `Dropped`. A caller that has
//! to know counts, for each link, the messages accepted less those acknowledged or dropped.
#![tactic(auto)]

mod all_teis;
mod backlog;
mod either_side;
mod laws;
mod links_and_timer;
mod managed_side;
mod management;
mod net_side;
mod pending_establishments;
mod queued_side;
mod references;
mod request;
mod terminal_management;
mod user_side;
mod waiting_lists;

pub use either_side::EitherSide;
pub use lapd_sides_links::{
    Acts, Config, Durations, FrameOctets, Letter, LinkFault, LinkId, LinkTable, Octets, Params,
    Primitive, RunningTimer, Sapi, Side, SideFault, SideKind, Tei, TeiMessage, TeiOut, Timer,
    TimerSet, What,
};
pub use lapd_tei::{Assigner, Terminal};
pub use laws::{
    all_teis_are_checked_and_removed, assignments_make_links, discarded_frames_are_counted,
    freed_teis_lose_their_links, pending_establishments_are_done, releases_leave_other_links,
    removed_teis_lose_their_links, vain_requests_are_released,
};
pub use managed_side::ManagedSide;
pub use management::{Management, Represented};
pub use net_side::NetSide;
pub use queued_side::QueuedSide;
pub use request::Request;
pub use terminal_management::TerminalManagement;
pub use user_side::UserSide;
