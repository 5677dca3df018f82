//! The program's outputs beside standard output: captures, ladders and GSMTAP; and which files an
//! output may overwrite.
//!
//! Begin with [`Taps`], which records each frame of a side with the real clock. Its caller chooses
//! the [`Ladder`]. [`protection_of`] returns what keeps a file from being overwritten.
#![tactic(auto)]

mod capture_file;
mod growing_file;
mod ladder;
mod ladder_file;
mod losses;
mod protection;
mod record_file;
mod taps;

pub use growing_file::NoFile;
pub use ladder::Ladder;
pub use protection::{Content, Protection, protection_of};
pub use taps::{NoTaps, TapSetup, Taps};
