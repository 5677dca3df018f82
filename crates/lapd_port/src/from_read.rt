ghost use Rattle.std.specs.Prelude.{◌≡◌};

use crate::device_error::DeviceError;
use crate::source::Source;
use std::io::Read;

/// A reader of std as a source. An interrupted read is reported as such; any other error is a
/// failure.
#[derive(Debug, Drop)]
pub struct FromRead<R> {
    reader: R,
    failures: u64,
}

impl<R: Read> FromRead<R> {
    /// Makes a source from a reader. It has not failed yet.
    pub fn new(reader: R) -> FromRead<R>
        ensures { result ≡ record { reader = reader; failures = 0 } }
    {
        FromRead {
            reader,
            failures: 0,
        }
    }

    /// The reader.
    pub fn get_ref(&self) -> &R
        ensures { result.now ≡ self.now.reader }
    {
        &self.reader
    }
}

impl<R: Read> Source for FromRead<R> {
    ghost rest = { λ source. R.remaining source.reader };

    ghost failure_count = { λ source. source.failures };

    fn read(&mut self, octets: &mut [u8]) -> Result<usize, DeviceError> {
        match self.reader.read(octets) {
            Ok(count) => Ok(count),
            Err(error) => {
                let error = DeviceError::of(&error);
                self.failures = error.counted(self.failures);
                Err(error)
            }
        }
    }

    fn failures(&self) -> u64 {
        self.failures
    }
}
