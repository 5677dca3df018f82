//! How a port writes a frame to its sink.

ghost use Rattle.std.specs.Prelude.{◌≡◌, ◌<◌, ◌⊎◌, length, IfErr};
ghost use Rattle.lapd_port.specs.Port.{CountsAsDevice, MakesTurns, WritesText};
ghost use Rattle.lapd_port.specs.SocketText.{IsFrameLength, frame_text, length_octets};

use crate::device_error::DeviceError;
use crate::limits::{LENGTH_OCTETS, MOST_TURNS, TEXT_OCTETS};
use crate::port_fault::PortFault;
use crate::sink::Sink;
use arrayvec::ArrayVec;

// Writes a frame's length, followed by the frame.
pub(crate) fn write_next<W: Sink>(sink: &mut W, frame: &[u8]) -> Result<(), PortFault>
    requires { IsFrameLength (length frame.now) }
    ensures text { WritesText (W.written sink.old) (W.written sink.new) result
        (frame_text frame.now) }
    ensures device { CountsAsDevice result (W.failure_count sink.old) (W.failure_count sink.new) }
    ensures turns { MakesTurns W.turn result sink.old sink.new }
    ensures faults { IfErr result (λ fault. (fault ≡ PortFault.Device)
        ⊎ (fault ≡ PortFault.TooManyTurns)) }
{
    let text = text_of(frame);
    write_all(sink, text.as_slice())
}

// A frame's length, followed by the frame.
fn text_of(frame: &[u8]) -> ArrayVec<u8, TEXT_OCTETS>
    requires { IsFrameLength (length frame.now) }
    ensures { result.items ≡ frame_text frame.now }
{
    let mut text = ArrayVec::new();
    let Ok(()) = text.try_extend_from_slice(&length_octets_of(frame.len())) else {
        unreachable!()
    };
    let Ok(()) = text.try_extend_from_slice(frame) else {
        unreachable!()
    };
    text
}

// A length in two octets, high octet first.
fn length_octets_of(count: usize) -> [u8; LENGTH_OCTETS]
    requires { IsFrameLength count }
    ensures { result ≡ length_octets count }
{
    (count as u16).to_be_bytes()
}

// Writes all octets; there is at least one.
fn write_all<W: Sink>(sink: &mut W, octets: &[u8]) -> Result<(), PortFault>
    requires { 0 < length octets.now }
    ensures text { WritesText (W.written sink.old) (W.written sink.new) result octets.now }
    ensures device { CountsAsDevice result (W.failure_count sink.old) (W.failure_count sink.new) }
    ensures turns { MakesTurns W.turn result sink.old sink.new }
    ensures faults { IfErr result (λ fault. (fault ≡ PortFault.Device)
        ⊎ (fault ≡ PortFault.TooManyTurns)) }
{
    let mut rest = octets;
    for _turn in 0..MOST_TURNS {
        match sink.write(rest) {
            Ok(count) => {
                rest = &rest[count..];
                if rest.is_empty() {
                    return Ok(());
                }
            }
            Err(DeviceError::Interrupted) => {}
            Err(DeviceError::Failed) => return Err(PortFault::Device),
        }
    }
    Err(PortFault::TooManyTurns)
}
