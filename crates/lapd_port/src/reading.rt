//! How a port reads a frame from its source.

ghost use Rattle.std.specs.Prelude.{◌≡◌, ◌≢◌, ◌↔◌, IsTrue, ℕ, ◌+◌, ◌≤◌, ◌<◌, ◌⊎◌, Err, length, take, drop, IfOk, IfErr};
ghost use Rattle.std.specs.Io.KnownBytes.{Consumes, IsAtEnd};
ghost use Rattle.lapd_port.specs.Device.{Turns};
ghost use Rattle.lapd_port.specs.Port.{CountsAsDevice, MakesTurns, ReadsNext};
ghost use Rattle.lapd_port.specs.SocketText.{IsFrameLength, length_octets};

use crate::device_error::DeviceError;
use crate::limits::{LEAST_OCTETS, LENGTH_OCTETS, MOST_OCTETS, MOST_TURNS};
use crate::port_fault::PortFault;
use crate::source::Source;

// Reads the next frame from a source.
pub(crate) fn read_next<R: Source>(
    source: &mut R,
    frame: &mut [u8; MOST_OCTETS],
) -> Result<usize, PortFault>
    ensures length { IfOk result IsFrameLength }
    ensures next { ReadsNext (R.rest source.old) (R.rest source.new) result frame.new }
    ensures behind { IfOk result (λ count. drop count frame.new ≡ drop count frame.old) }
    ensures device { CountsAsDevice result (R.failure_count source.old)
        (R.failure_count source.new) }
    ensures turns { MakesTurns R.turn result source.old source.new }
    ensures not_failed { IfErr result (λ fault. fault ≢ PortFault.Failed) }
{
    let mut turns = 0;
    let mut length = [0; LENGTH_OCTETS];
    match fill(source, &mut length, &mut turns)? {
        0 => return Err(PortFault::End),
        LENGTH_OCTETS => {}
        _ => return Err(PortFault::Cut),
    }
    let count = length_of(length);
    if !is_frame_length(count) {
        return Err(PortFault::BadLength);
    }
    if fill(source, &mut frame[..count], &mut turns)? < count {
        return Err(PortFault::Cut);
    }
    Ok(count)
}

// The length in two octets, high octet first.
fn length_of(octets: [u8; LENGTH_OCTETS]) -> usize
    ensures { octets ≡ length_octets result }
{
    let [high, low] = octets;
    usize::from(u16::from_be_bytes([high, low]))
}

// Whether this is a valid length of a frame.
fn is_frame_length(count: usize) -> bool
    ensures { IsTrue result ↔ IsFrameLength count }
{
    (LEAST_OCTETS..=MOST_OCTETS).contains(&count)
}

// Reads until the slice is full or the input ends, and returns how many octets were read.
fn fill<R: Source>(source: &mut R, octets: &mut [u8], turns: &mut u16) -> Result<usize, PortFault>
    requires { turns.old ≤ MOST_TURNS }
    ensures bound { IfOk result (λ count. count ≤ length octets.new) }
    ensures octets { IfOk result (λ count. Consumes (R.rest source.old) (R.rest source.new)
        (take count octets.new)
        × (count < length octets.new → IsAtEnd (R.rest source.new))) }
    ensures part { IfErr result (λ fault. (count : ℕ) × (count < length octets.new)
        × Consumes (R.rest source.old) (R.rest source.new) (take count octets.new)) }
    ensures device { CountsAsDevice result (R.failure_count source.old)
        (R.failure_count source.new) }
    ensures turns { (count : ℕ) × Turns R.turn count source.old source.new
        × (turns.new ≡ turns.old + count) }
    ensures most { turns.new ≤ MOST_TURNS }
    ensures all_made { result ≡ Err PortFault.TooManyTurns → turns.new ≡ MOST_TURNS }
    ensures faults { IfErr result (λ fault. (fault ≡ PortFault.Device)
        ⊎ (fault ≡ PortFault.TooManyTurns)) }
{
    let mut filled = 0;
    while filled < octets.len() {
        if are_all(*turns) {
            return Err(PortFault::TooManyTurns);
        }
        *turns += 1;
        match source.read(&mut octets[filled..]) {
            Ok(0) => return Ok(filled),
            Ok(count) => filled += count,
            Err(DeviceError::Interrupted) => {}
            Err(DeviceError::Failed) => return Err(PortFault::Device),
        }
    }
    Ok(filled)
}

// Whether no more calls of the source or sink may be made.
fn are_all(turns: u16) -> bool
    ensures { IsTrue result ↔ (turns ≡ MOST_TURNS) }
{
    turns == MOST_TURNS
}
