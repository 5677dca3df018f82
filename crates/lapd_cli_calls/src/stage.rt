//! The stages of a call.

ghost use Rattle.std.specs.Prelude.{◌≡◌};
ghost use Rattle.lapd_cli_calls.specs.Stages.{is_answer, is_clearing, open_after, stage_after};

use lapd_frame::Side;

/// The message type CONNECT (Q.931 4.4).
const CONNECT: u8 = 0x07;

/// The stage of a call (Q.931 5).
#[derive(Clone, Copy, Debug, PartialEq, Eq)]
pub enum Stage {
    /// A side offers the call.
    Offered,
    /// The call is answered.
    Answered,
    /// A side cleared the call.
    Ended(Clearing),
}

/// How a call was cleared.
#[derive(Clone, Copy, Debug, PartialEq, Eq)]
pub struct Clearing {
    /// The side that sent the first clearing message.
    pub by: Side,
    /// Whether the call was answered before.
    pub was_answered: bool,
}

impl Stage {
    /// The stage after a message of this type (Q.931 4.4) that this side sent. The first clearing
    /// message ends the call, and what follows changes nothing.
    pub fn after(self, kind: u8, from: Side) -> Stage
        ensures { result ≡ stage_after self kind from }
    {
        match self {
            Stage::Offered => self.open_after(false, kind, from),
            Stage::Answered => self.open_after(true, kind, from),
            Stage::Ended(_) => self,
        }
    }

    /// The stage of a call that is not cleared, after a message.
    fn open_after(self, was_answered: bool, kind: u8, from: Side) -> Stage
        ensures { result ≡ open_after was_answered self kind from }
    {
        if is_clearing(kind) {
            Stage::Ended(Clearing {
                by: from,
                was_answered,
            })
        } else if is_answer(kind) {
            Stage::Answered
        } else {
            self
        }
    }
}

/// Whether a message of this type answers a call.
fn is_answer(kind: u8) -> bool
    ensures { result ≡ is_answer kind }
{
    kind == CONNECT
}

/// Whether a message of this type clears a call: DISCONNECT, RELEASE or RELEASE COMPLETE.
fn is_clearing(kind: u8) -> bool
    ensures { result ≡ is_clearing kind }
{
    kind == 0x45 || kind == 0x4d || kind == 0x5a
}
