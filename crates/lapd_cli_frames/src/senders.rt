//! Who sent a frame, by name or by its octets.

ghost use Rattle.std.specs.Prelude.{◌≡◌};
ghost use Rattle.lapd_cli_frames.specs.Senders.{named_or_by_kind};

use lapd_follow::sender_by_kind;
use lapd_frame::Side;

/// The named sender of these octets, or the one that their kind and C/R bit name.
pub fn named_or_by_kind(named: Option<Side>, octets: &[u8]) -> Option<Side>
    ensures { result ≡ named_or_by_kind named octets.now }
{
    match named {
        None => sender_by_kind(octets),
        Some(from) => Some(from),
    }
}
