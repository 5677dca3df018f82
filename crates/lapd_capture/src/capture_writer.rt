//! Writing captures.

ghost use Rattle.std.specs.Prelude.{◌≡◌, ◌≤◌, length, IfOk, OnOk};
ghost use Rattle.std.specs.Io.KnownBytes.{Appends};
ghost use Rattle.lapd_capture.specs.Written.{file_octets, record_octets};

use crate::written::{FILE_HEADER, MOST_FRAME, record_of};
use lapd_field::Side;
use std::io::{self, Write};

/// A pcap file of link type 177 to which frames are written as one side captures them. Each frame
/// is passed to the writer at once. Stop after an error: the file may end within a record.
#[derive(Drop)]
pub struct CaptureWriter<W> {
    out: W,
    /// The side that captures.
    own: Side,
}

impl<W: Write> CaptureWriter<W> {
    /// Begins the file of the frames that this side captures, and writes its header.
    ///
    /// # Errors
    ///
    /// The writer's.
    pub fn new(own: Side, mut out: W) -> io::Result<CaptureWriter<W>>
    where
        W: Drop,
        ensures own { IfOk result (λ writer. writer.own ≡ own) }
        ensures head { IfOk result (λ writer.
            Appends (W.contents out) (W.contents writer.out) file_octets) }
    {
        out.write_all(&FILE_HEADER)?;
        out.flush()?;
        Ok(CaptureWriter { out, own })
    }

    /// Writes a frame of at most 265 octets, which `from` sent, at a moment in milliseconds since
    /// 1970.
    ///
    /// # Errors
    ///
    /// The writer's.
    pub fn write(&mut self, from: Side, moment: u64, frame: &[u8]) -> io::Result<()>
        requires { length frame.now ≤ MOST_FRAME }
        ensures own { self.new.own ≡ self.old.own }
        ensures record_of { OnOk result (Appends (W.contents self.old.out) (W.contents self.new.out)
            (record_octets self.old.own from moment frame.now)) }
    {
        let record = record_of(self.own, from, moment, frame);
        self.out.write_all(record.as_slice())?;
        self.out.flush()
    }

    /// The writer.
    pub fn into_inner(self) -> W
        ensures { result ≡ self.out }
    {
        self.out
    }
}
