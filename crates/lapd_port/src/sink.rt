ghost use Rattle.std.specs.Prelude.{◌≡◌, ℕ, List, Option, None, ⊤};
ghost use Rattle.std.specs.Io.{WritesAtMost};
ghost use Rattle.std.specs.Io.KnownBytes.{WriteAppends};
ghost use Rattle.lapd_port.specs.Device.{CountsFailures};

use crate::device_error::DeviceError;

/// A device that octets are written to, as the writing side of a socket.
///
/// A sink may show in `written` the octets that it has accepted so far. A port's contracts about
/// the octets that it writes apply only to such a sink; all others apply to any sink.
pub trait Sink {
    /// The octets that were written, if they are known.
    ghost written: { Self → Option (List ℕ) } = { λ _. None };

    /// How often a write has failed.
    ghost failure_count: { Self → ℕ };

    /// The relation between the sink before and after one write. A port changes its sink only by
    /// such writes.
    ghost turn: { Self → Self → Type 0 } = { λ _ _. ⊤ };

    /// Writes some octets from the front on, and returns how many. After an error none were
    /// written.
    fn write(&mut self, octets: &[u8]) -> Result<usize, DeviceError>
        ensures bound { WritesAtMost result octets.now }
        ensures octets { WriteAppends (written self.old) (written self.new) result octets.now }
        ensures failures { CountsFailures result (failure_count self.old) (failure_count self.new) }
        ensures turn { turn self.old self.new };

    /// How often a write has failed. A failure does not raise the greatest value.
    fn failures(&self) -> u64
        ensures { result ≡ failure_count self.now };
}
