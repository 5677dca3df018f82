ghost use Rattle.std.specs.Prelude.{◌≡◌, ℕ, List, Option, None, ⊤};
ghost use Rattle.std.specs.Io.{ReadsAtMost};
ghost use Rattle.std.specs.Io.KnownBytes.{ReadConsumes};
ghost use Rattle.lapd_port.specs.Device.{CountsFailures};

use crate::device_error::DeviceError;

/// A device that octets are read from, as the reading side of a socket.
///
/// A source may show in `rest` the octets that are still unread. A port's contracts about the
/// octets that it reads apply only to such a source; all others apply to any source.
pub trait Source {
    /// The octets that reads will return from now on, if they are known.
    ghost rest: { Self → Option (List ℕ) } = { λ _. None };

    /// How often a read has failed.
    ghost failure_count: { Self → ℕ };

    /// The relation between the source before and after one read. A port changes its source only by
    /// such reads.
    ghost turn: { Self → Self → Type 0 } = { λ _ _. ⊤ };

    /// Reads some octets, and returns how many. 0 means the end of the input, if any octets were
    /// requested. After an error none were read.
    fn read(&mut self, octets: &mut [u8]) -> Result<usize, DeviceError>
        ensures bound { ReadsAtMost result octets.new }
        ensures octets { ReadConsumes (rest self.old) (rest self.new) result octets.new }
        ensures failures { CountsFailures result (failure_count self.old) (failure_count self.new) }
        ensures turn { turn self.old self.new };

    /// How often a read has failed. A failure does not raise the greatest value.
    fn failures(&self) -> u64
        ensures { result ≡ failure_count self.now };
}
