//! Frames that are sent through a port and must be received from it unchanged.

ghost use Rattle.std.specs.Prelude.{◌≡◌, ◌∷◌, [], length, map, OnOk, IsOkUnless};
ghost use Rattle.lapd_port.specs.SocketText.{IsFrameLength};
ghost use Rattle.lapd_cli_link_commands.specs.Crossing.{HaveCrossed};

use arrayvec::ArrayVec;
use lapd_cli_script::LineFault;
use lapd_port::{LEAST_OCTETS, MOST_OCTETS, Port, Sink, Source};

/// The octets of one frame.
pub(crate) type FrameOctets = ArrayVec<u8, MOST_OCTETS>;

/// Sends these frames one after another, and receives each before it sends the next.
///
/// # Errors
///
/// `Device` if one of them is not received unchanged.
pub(crate) fn cross_all<S: Source, K: Sink>(
    port: &mut Port<S, K>,
    frames: &[FrameOctets],
) -> Result<(), LineFault>
    ensures ok { OnOk result
        (HaveCrossed (S.rest port.old.source) (S.rest port.new.source) (K.written port.old.sink)
        (K.written port.new.sink)
        (map (λ frame. frame.items) frames.now)) }
    ensures err { IsOkUnless result LineFault.Device }
{
    for frame in frames {
        cross(port, frame.as_slice())?;
    }
    Ok(())
}

/// Sends a frame through the port; the next frame received must be the same.
///
/// # Errors
///
/// `Device` if the port reports a fault, if another frame is received, or if the number of octets
/// is out of a frame's range.
fn cross<S: Source, K: Sink>(port: &mut Port<S, K>, frame: &[u8]) -> Result<(), LineFault>
    ensures ok { OnOk result
        (HaveCrossed (S.rest port.old.source) (S.rest port.new.source) (K.written port.old.sink)
        (K.written port.new.sink) (frame.now ∷ [])) }
    ensures err { IsOkUnless result LineFault.Device }
{
    if !(LEAST_OCTETS..=MOST_OCTETS).contains(&frame.len()) {
        return Err(LineFault::Device);
    }
    let Ok(()) = port.write_frame(frame) else {
        return Err(LineFault::Device);
    };
    let mut back = [0; MOST_OCTETS];
    let Ok(count) = port.read_frame(&mut back) else {
        return Err(LineFault::Device);
    };
    if &back[..count] == frame {
        Ok(())
    } else {
        Err(LineFault::Device)
    }
}
