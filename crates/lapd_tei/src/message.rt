ghost use Rattle.std.specs.Prelude.{◌≡◌, ◌≤◌, Ok, IfOk};
ghost use Rattle.lapd_frame.specs.Frame.{spelling};
ghost use Rattle.lapd_tei.specs.Message.{message_octets, message_at, with_ai, IsMessage, frame_of_message};

use crate::{TeiFault, TeiKind};
use lapd_frame::{Address, Role, Sapi, Side, Tei};

/// The first octet of a TEI message: the management entity (Q.921 5.3.6.2).
const MANAGEMENT_ENTITY: u8 = 0x0f;

/// The control field of UI with P=0 (Q.921 Table 5).
const UI: u8 = 0x03;

/// A message of TEI management (Q.921 5.3.6).
#[derive(Clone, Copy, Debug, Default, PartialEq, Eq)]
pub struct TeiMessage {
    /// The reference number, Ri. It distinguishes terminals that request at the same time (Q.921
    /// 5.3.6.3).
    pub ri: u16,
    pub kind: TeiKind,
    /// The action indicator, Ai: a TEI, 0 to 127 (Q.921 5.3.6.5).
    pub ai: u8,
}

impl TeiMessage {
    /// Reads a message from the information field of a UI frame.
    ///
    /// # Errors
    ///
    /// The first of M1 (the first octet is not 0F, or is missing), M2 (not five octets), M3 (no
    /// such message type) and M4 (the extension bit is 0, or the group TEI in an assignment, a
    /// check response or a verification).
    pub fn read(info: &[u8]) -> Result<TeiMessage, TeiFault>
        ensures exact { result ≡ message_at info.now }
        ensures found { IfOk result (λ m. IsMessage m × (info.now ≡ message_octets m)) }
        ensures only { (m : TeiMessage) → IsMessage m → info.now ≡ message_octets m
            → result ≡ Ok m }
    {
        match info {
            [MANAGEMENT_ENTITY, high, low, kind, last] => match TeiKind::new(*kind) {
                None => Err(TeiFault::BadKind),
                Some(kind) => with_ai(u16::from(*high) * 256 + u16::from(*low), kind, *last),
            },
            [MANAGEMENT_ENTITY, ..] => Err(TeiFault::BadLength),
            _ => Err(TeiFault::NotManagement),
        }
    }

    /// The five octets of the message, the information field of a UI frame. `ai` must be 0 to 127.
    pub fn write(&self) -> [u8; 5]
        requires { self.now.ai ≤ 127 }
        ensures { result ≡ message_octets self.now }
    {
        [
            MANAGEMENT_ENTITY,
            (self.ri / 256) as u8,
            (self.ri % 256) as u8,
            self.kind.number(),
            self.ai * 2 + 1,
        ]
    }

    /// The octets of the whole frame that carries the message, as `from` sends it: a UI command
    /// with P=0, SAPI 63 and the group TEI (Q.921 5.3.6.1). `ai` must be 0 to 127.
    pub fn frame(&self, from: Side) -> [u8; 8]
        requires { self.now.ai ≤ 127 }
        ensures { result ≡ spelling from (frame_of_message self.now) }
    {
        let address = Address {
            sapi: Sapi::Management,
            tei: Tei::group(),
            role: Role::Command,
        };
        let [first, second] = address.write(from);
        let [entity, high, low, kind, ai] = self.write();
        [first, second, UI, entity, high, low, kind, ai]
    }
}

/// Completes a message with this last octet: the action indicator and its extension bit.
fn with_ai(ri: u16, kind: TeiKind, last: u8) -> Result<TeiMessage, TeiFault>
    ensures { result ≡ with_ai ri kind last }
{
    let ai = last / 2;
    let permitted = kind.may_name_the_group() || ai != 127;
    if last % 2 == 1 && permitted {
        Ok(TeiMessage { ri, kind, ai })
    } else {
        Err(TeiFault::BadAi)
    }
}
