//! The ladder of the frames of a side with the real clock.

use lapd_cli_decode::{FrameDrawer, Missing, ladder_head};
use lapd_cli_outputs::Ladder;
use lapd_sides::Side;
use std::alloc::{AllocError, Global};
use std::{io, mem};

/// A ladder that `decode` would draw of the same frames.
#[derive(Drop)]
pub struct LineLadder {
    alloc: Global,
    drawer: FrameDrawer<Vec<u8>>,
}

impl Ladder for LineLadder {
    fn begin(alloc: Global) -> Result<LineLadder, AllocError> {
        let drawer = FrameDrawer::new(alloc, Vec::new(alloc))?;
        Ok(LineLadder { alloc, drawer })
    }

    fn head(alloc: Global) -> Result<Vec<u8>, AllocError> {
        ladder_head(alloc)
    }

    fn missing(alloc: Global, count: u64) -> Result<String, AllocError> {
        let missing = Missing { count };
        format!(in alloc; "{missing}\n")
    }

    fn draw(&mut self, from: Side, moment: u64, frame: &[u8]) -> io::Result<Vec<u8>> {
        self.drawer.draw(from, moment, frame)?;
        Ok(mem::replace(self.drawer.writer(), Vec::new(self.alloc)))
    }
}
