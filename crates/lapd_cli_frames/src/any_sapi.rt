//! Octets with a SAPI that is not served, which are read as if it were 0.

ghost use Rattle.std.specs.Prelude.{◌≡◌, IfOk};
ghost use Rattle.lapd_cli_frames.specs.AnySapi.{has_other_sapi, sapi_of, with_sapi_0};

use lapd_frame::Sapi;
use std::alloc::{AllocError, Global};

/// Whether frames of any SAPI are requested, and these octets have one that is not served.
pub(crate) fn has_other_sapi(any: bool, octets: &[u8]) -> bool
    ensures { result ≡ has_other_sapi any octets.now }
{
    match octets {
        [] => false,
        [first, ..] => any && Sapi::new(*first / 4).is_none(),
    }
}

/// The SAPI of the octets, 0 to 63 (Q.921 3.3.3).
pub(crate) fn sapi_of(octets: &[u8]) -> u8
    ensures { result ≡ sapi_of octets.now }
{
    match octets {
        [] => 0,
        [first, ..] => *first / 4,
    }
}

/// The same octets with SAPI 0.
///
/// # Errors
///
/// `AllocError` if an allocation fails.
pub(crate) fn with_sapi_0(alloc: Global, octets: &[u8]) -> Result<Vec<u8>, AllocError>
    ensures { IfOk result (λ copy. copy.items ≡ with_sapi_0 octets.now) }
{
    let mut copy = Vec::new(alloc);
    match octets {
        [] => Ok(copy),
        [first, rest @ ..] => {
            copy.push(*first % 4)?;
            copy.extend_from_slice(rest)?;
            Ok(copy)
        }
    }
}
