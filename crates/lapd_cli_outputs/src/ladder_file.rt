//! The file of a ladder.

use crate::ladder::Ladder;
use crate::record_file::{Place, RecordFile};
use lapd_frame::Side;
use std::alloc::AllocError;
use std::io::{self, Write};

/// The file of a ladder. Dropped frames are counted as packets and followed, and a line says how
/// many are missing.
#[derive(Drop)]
pub(crate) struct LadderFile<'rt, L> {
    rt: &'rt HostRuntime,
    file: RecordFile<'rt>,
    ladder: L,
}

impl<'rt, L: Ladder> LadderFile<'rt, L> {
    /// Begins a ladder in this file.
    ///
    /// # Errors
    ///
    /// `AllocError` if an allocation fails.
    pub(crate) fn begin(
        rt: &'rt HostRuntime,
        file: RecordFile<'rt>,
    ) -> Result<LadderFile<'rt, L>, AllocError> {
        let ladder = L::begin(rt.alloc())?;
        Ok(LadderFile { rt, file, ladder })
    }

    /// Draws a frame that `from` sent at a moment in milliseconds since 1970, or drops it.
    ///
    /// # Errors
    ///
    /// The system's error, or `OutOfMemory` if an allocation fails.
    pub(crate) fn record(&mut self, from: Side, moment: u64, frame: &[u8]) -> io::Result<()> {
        if let Some(place) = self.file.next(moment) {
            self.begin_at(place)?;
        }
        let lines = self.ladder.draw(from, moment, frame)?;
        self.file.write_all(lines.as_slice())
    }

    /// Notes how many dropped frames no note was about yet.
    pub(crate) fn close(&mut self) {
        self.file.close();
    }

    /// Writes the head of the ladder before the next frame, if its reader is new, and how many
    /// frames are missing before it.
    fn begin_at(&mut self, place: Place) -> io::Result<()> {
        if place.is_new {
            let head = L::head(self.rt.alloc())?;
            self.file.begin_with(head.as_slice())?;
        }
        if place.missing != 0 {
            let line = L::missing(self.rt.alloc(), place.missing)?;
            self.file.begin_with(line.as_bytes())?;
        }
        Ok(())
    }
}
