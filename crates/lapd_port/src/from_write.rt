ghost use Rattle.std.specs.Prelude.{◌≡◌};

use crate::device_error::DeviceError;
use crate::sink::Sink;
use std::io::Write;

/// A writer of std as a sink. An interrupted write is reported as such; any other error is a
/// failure.
#[derive(Debug, Drop)]
pub struct FromWrite<W> {
    writer: W,
    failures: u64,
}

impl<W: Write> FromWrite<W> {
    /// Makes a sink from a writer. It has not failed yet.
    pub fn new(writer: W) -> FromWrite<W>
        ensures { result ≡ record { writer = writer; failures = 0 } }
    {
        FromWrite {
            writer,
            failures: 0,
        }
    }

    /// The writer.
    pub fn get_ref(&self) -> &W
        ensures { result.now ≡ self.now.writer }
    {
        &self.writer
    }
}

impl<W: Write> Sink for FromWrite<W> {
    ghost written = { λ sink. W.contents sink.writer };

    ghost failure_count = { λ sink. sink.failures };

    fn write(&mut self, octets: &[u8]) -> Result<usize, DeviceError> {
        match self.writer.write(octets) {
            Ok(count) => Ok(count),
            Err(error) => {
                let error = DeviceError::of(&error);
                self.failures = error.counted(self.failures);
                Err(error)
            }
        }
    }

    fn failures(&self) -> u64 {
        self.failures
    }
}
