ghost use Rattle.std.specs.Prelude.{◌≡◌};
ghost use Rattle.lapd_frame.specs.declared.Side.TheVariants.{User};
ghost use Rattle.lapd_frame.specs.Reading.{frame_at};
ghost use Rattle.lapd_tei_audit.specs.UsedTei.{used_by, used_by_frame, used_by_message};

use lapd_frame::{Control, Frame, Sapi, Side, Tei, read};
use lapd_tei::{TeiKind, TeiMessage};

/// How a frame of a terminal shows which TEI the terminal has.
#[derive(Clone, Copy, PartialEq, Eq)]
pub enum UsedTei {
    /// By its address: the frame is for a link of this TEI.
    Link(Tei),
    /// By its text: it answers a check of this TEI (Q.921 5.3.3).
    Answer(Tei),
    /// Not at all.
    Nothing,
}

/// Which TEI a terminal has that sent these octets.
pub fn used_tei(octets: &[u8]) -> UsedTei
    ensures { result ≡ used_by (frame_at User octets.now) }
{
    match read(octets, Side::User) {
        Ok(frame) => used_by_frame(&frame),
        Err(fault) => match fault.address {
            Some(address) if address.sapi != Sapi::Management => UsedTei::Link(address.tei),
            _ => UsedTei::Nothing,
        },
    }
}

/// Which TEI a terminal has that sent this frame.
fn used_by_frame(frame: &Frame<'_>) -> UsedTei
    ensures { result ≡ used_by_frame frame.now }
{
    let address = frame.address();
    match (address.sapi, frame.control()) {
        (Sapi::Management, Control::Ui { .. }) => used_by_message(frame.info()),
        (Sapi::Management, _) => UsedTei::Nothing,
        (Sapi::Call | Sapi::Packet, _) => UsedTei::Link(address.tei),
    }
}

/// Which TEI a terminal has that sent this message of TEI management.
fn used_by_message(info: &[u8]) -> UsedTei
    ensures { result ≡ used_by_message info.now }
{
    match TeiMessage::read(info) {
        Ok(
            TeiMessage {
                kind: TeiKind::CheckResponse,
                ai,
                ..
            },
        ) => match Tei::new(ai) {
            Some(tei) => UsedTei::Answer(tei),
            None => UsedTei::Nothing,
        },
        _ => UsedTei::Nothing,
    }
}
