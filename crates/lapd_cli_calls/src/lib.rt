//! The calls of a D channel (ITU-T Q.931), by the messages in its frames.
//!
//! A [`CallTable`] takes the frames of a line one after the other, and writes a line for each call:
//! its call reference and link, the words of its information elements, when it was set up and
//! answered, how long it lasted and how it ended. [`Stage::after`] says which message answers a call,
//! and which ends it. [`cause_words`] names the causes of Q.850. [`RecordCalls`] is a writer that makes the
//! table of the records of a capture.
//!
//! It is proved that no input causes a fault, and how each message changes the stage of a call. The
//! lines of the table are only tested.
#![tactic(auto)]

mod call;
mod call_table;
mod cause;
mod record_calls;
mod stage;

pub use call::{Call, CallKey};
pub use call_table::CallTable;
pub use cause::cause_words;
pub use lapd_frame::Side;
pub use record_calls::RecordCalls;
pub use stage::{Clearing, Stage};
