ghost use Rattle.std.specs.Prelude.{◌≡◌};
ghost use Rattle.std.specs.IoError.{error_kind};
ghost use Rattle.lapd_port.specs.Device.{device_error_of, failures_after};

use std::io::{self, ErrorKind};
use thiserror::Error;

/// Why a call of a source or sink failed.
#[derive(Clone, Copy, Debug, PartialEq, Eq, Error)]
pub enum DeviceError {
    /// The call was interrupted before it did anything. It may be repeated, and does not count as a
    /// failure.
    #[error("interrupted")]
    Interrupted,
    /// The source or sink failed.
    #[error("device failed")]
    Failed,
}

impl DeviceError {
    /// Converts an error of std: the kind `Interrupted` is an interruption, any other kind a
    /// failure.
    pub fn of(error: &io::Error) -> DeviceError
        ensures { result ≡ device_error_of (error_kind error.now) }
    {
        match error.kind() {
            ErrorKind::Interrupted => DeviceError::Interrupted,
            _ => DeviceError::Failed,
        }
    }

    /// The count of failures after this error, if it was `failures` before: a failure adds one, up
    /// to the greatest number.
    pub fn counted(self, failures: u64) -> u64
        ensures { result ≡ failures_after self failures }
    {
        match self {
            DeviceError::Interrupted => failures,
            DeviceError::Failed => failures.saturating_add(1),
        }
    }
}
