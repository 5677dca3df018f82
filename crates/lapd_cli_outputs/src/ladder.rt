//! A ladder of the frames of a line.

use lapd_frame::Side;
use std::alloc::{AllocError, Global};
use std::io;

/// A ladder of the frames of a line, as text.
pub trait Ladder: Drop + Sized {
    /// Begins a ladder.
    ///
    /// # Errors
    ///
    /// `AllocError` if an allocation fails.
    fn begin(alloc: Global) -> Result<Self, AllocError>;

    /// The line above the first frame, for a reader who begins to read later.
    ///
    /// # Errors
    ///
    /// `AllocError` if an allocation fails.
    fn head(alloc: Global) -> Result<Vec<u8>, AllocError>;

    /// The line that says how many frames are missing.
    ///
    /// # Errors
    ///
    /// `AllocError` if an allocation fails.
    fn missing(alloc: Global, count: u64) -> Result<String, AllocError>;

    /// Draws a frame that `from` sent at a moment in milliseconds since 1970. Returns its lines.
    ///
    /// # Errors
    ///
    /// `OutOfMemory` if an allocation fails.
    fn draw(&mut self, from: Side, moment: u64, frame: &[u8]) -> io::Result<Vec<u8>>;
}
