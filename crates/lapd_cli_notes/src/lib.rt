//! Notes on standard error, TCP connections of one stream each, and files that are replaced when
//! they are complete.
//!
//! Begin with [`Notes`], which never blocks: a [`Watch`] reports whether a descriptor takes a note.
#![tactic(auto)]

pub mod connection;
mod notes;
mod picture_file;
mod watch;

pub use notes::Notes;
pub use picture_file::PictureFile;
pub use watch::Watch;
