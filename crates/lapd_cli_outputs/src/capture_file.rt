//! The file of a capture: pcap in a regular file, and pcapng in a named pipe, since its reader may
//! pause, and pcapng can say how many frames are missing.

ghost use Rattle.std.specs.Prelude.{◌≤◌, length};

use crate::record_file::RecordFile;
use lapd_capture::{BLOCKS_HEADER, CaptureWriter, MOST_FRAME, block_of};
use lapd_frame::Side;
use std::io::{self, Write};

/// The file of a capture.
#[derive(Drop)]
pub(crate) enum CaptureFile<'rt> {
    /// pcap: no frame is ever missing in a regular file.
    Pcap(CaptureWriter<RecordFile<'rt>>),
    /// pcapng, of which a reader may pause.
    Pcapng(BlockFile<'rt>),
}

/// A file of blocks.
#[derive(Drop)]
pub(crate) struct BlockFile<'rt> {
    /// The side that captures.
    own: Side,
    file: RecordFile<'rt>,
}

impl<'rt> CaptureFile<'rt> {
    /// Begins the capture of this side in this file.
    ///
    /// # Errors
    ///
    /// The system's error.
    pub(crate) fn begin(own: Side, mut file: RecordFile<'rt>) -> io::Result<CaptureFile<'rt>> {
        if file.has_reader() {
            file.begin(&BLOCKS_HEADER)?;
            return Ok(CaptureFile::Pcapng(BlockFile { own, file }));
        }
        let writer = CaptureWriter::new(own, file)?;
        Ok(CaptureFile::Pcap(writer))
    }

    /// Records a frame that `from` sent at a moment in milliseconds since 1970, or drops it.
    ///
    /// # Errors
    ///
    /// The system's error.
    pub(crate) fn record(&mut self, from: Side, moment: u64, frame: &[u8]) -> io::Result<()>
        requires { length frame.now ≤ MOST_FRAME }
    {
        match self {
            CaptureFile::Pcap(writer) => writer.write(from, moment, frame),
            CaptureFile::Pcapng(blocks) => blocks.record(from, moment, frame),
        }
    }

    /// Notes how many dropped frames no note was about yet.
    pub(crate) fn close(&mut self) {
        match self {
            CaptureFile::Pcap(_) => {}
            CaptureFile::Pcapng(blocks) => blocks.file.close(),
        }
    }
}

impl BlockFile<'_> {
    /// Records a frame as a block, with the number of frames that are missing before it.
    fn record(&mut self, from: Side, moment: u64, frame: &[u8]) -> io::Result<()>
        requires { length frame.now ≤ MOST_FRAME }
    {
        let Some(place) = self.file.next(moment) else {
            return Ok(());
        };
        if place.is_new {
            self.file.begin_with(&BLOCKS_HEADER)?;
        }
        let block = block_of(self.own, from, moment, place.missing, frame);
        self.file.write_all(block.as_slice())
    }
}
