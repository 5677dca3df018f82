//! Taking octets from a reader.

ghost use Rattle.std.specs.Prelude.{◌≡◌, ◌≤◌, ◌<◌, ℕ, List, Some, length, take, IfOk, IfErr};
ghost use Rattle.std.specs.Io.KnownBytes.{Consumes, IsAtEnd};
ghost use Rattle.lapd_capture.specs.Takes.{IsApart, Takes, Skips};

use crate::fault::ReadFault;
use std::io::{ErrorKind, Read};

/// How many octets are skipped at a time.
const PART: usize = 512;

/// How many of the requested octets a reader had.
#[derive(Clone, Copy)]
pub(crate) enum Taken {
    /// All.
    All,
    /// Some, but not all, before its end.
    Part,
    /// None before its end.
    Nothing,
}

/// Takes octets from a reader until the slice is full or the reader is at its end.
///
/// # Errors
///
/// `Device` if a read fails.
pub(crate) fn take_all<R: Read>(source: &mut R, octets: &mut [u8]) -> Result<Taken, ReadFault>
    ensures taken { Takes (R.remaining source.old) result octets.new (R.remaining source.new) }
    ensures err { IfErr result IsApart }
{
    let wanted = octets.len();
    let count = fill(source, octets)?;
    if count == wanted {
        return Ok(Taken::All);
    }
    if count == 0 {
        return Ok(Taken::Nothing);
    }
    Ok(Taken::Part)
}

/// Skips this many octets of a reader. Returns whether it had as many.
///
/// # Errors
///
/// `Device` if a read fails.
pub(crate) fn skip<R: Read>(source: &mut R, count: usize) -> Result<bool, ReadFault>
    ensures skipped { Skips count (R.remaining source.old) result (R.remaining source.new) }
    ensures err { IfErr result IsApart }
{
    let mut part = [0u8; PART];
    let mut left = count;
    while left > 0 {
        let size = left.min(PART);
        match take_all(source, &mut part[..size])? {
            Taken::All => left -= size,
            Taken::Part | Taken::Nothing => return Ok(false),
        }
    }
    Ok(true)
}

/// Reads until the slice is full or the reader is at its end, and returns how many octets were
/// read.
pub(crate) fn fill<R: Read>(source: &mut R, octets: &mut [u8]) -> Result<usize, ReadFault>
    ensures bound { IfOk result (λ count. count ≤ length octets.new) }
    ensures octets { IfOk result (λ count. Consumes (R.remaining source.old)
        (R.remaining source.new) (take count octets.new)
        × (count < length octets.new → IsAtEnd (R.remaining source.new))) }
    ensures err { IfErr result IsApart }
{
    let mut filled = 0;
    for _read in 0..u64::MAX {
        if filled == octets.len() {
            return Ok(filled);
        }
        match source.read(&mut octets[filled..]) {
            Ok(0) => return Ok(filled),
            Ok(count) => filled += count,
            Err(error) => {
                if error.kind() != ErrorKind::Interrupted {
                    return Err(ReadFault::Device(error.kind()));
                }
            }
        }
    }
    Err(ReadFault::Device(ErrorKind::Interrupted))
}
