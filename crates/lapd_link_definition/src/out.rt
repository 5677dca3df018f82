ghost use Rattle.std.specs.Prelude.{◌≡◌, [], ◌∷◌};
ghost use Rattle.lapd_link_definition.specs.Out.{letter_code, word_of_out};

use lapd_frame::{Control, Role};
use lapd_timers::Timer;

/// An output: what an event requires to be done (Q.921 4.1 and Annex B).
#[derive(Clone, Copy, Debug, Default, PartialEq, Eq)]
pub enum Out {
    /// Send a frame without information.
    Send(Role, Control),
    /// Send an I command with the message at this place of the I queue. Places are counted after
    /// the step.
    SendMessage(u16, Control),
    /// Send a UI command with P=0, with the octets of the request.
    SendUnit,
    /// Deliver the information of the received I frame to layer 3 (DL-DATA indication).
    #[default]
    Up,
    /// Deliver the information of the received UI frame to layer 3 (DL-UNIT DATA indication).
    UnitUp,
    /// The link is established (DL-ESTABLISH indication).
    Established,
    /// The link is established as layer 3 requested (DL-ESTABLISH confirm).
    Confirmed,
    /// The link is released (DL-RELEASE indication).
    Released,
    /// The link is released as layer 3 requested (DL-RELEASE confirm).
    ReleaseConfirm,
    /// This many messages were acknowledged, at least one.
    Acknowledged(u16),
    /// This many messages were dropped, at least one.
    Dropped(u16),
    /// Start or restart the timer.
    Start(Timer),
    /// Stop the timer, which was running.
    Stop(Timer),
    /// Report an error to management (MDL-ERROR indication, Q.921 Appendix II).
    Report(Letter),
}

impl Out {
    /// The word that reports this output to layer 3 or management, as in `established`; empty if it
    /// is not reported.
    #[inline(always)]
    pub fn word(self) -> &'static str
        ensures { result.now ≡ word_of_out self }
    {
        match self {
            Out::Up => "data",
            Out::UnitUp => "unit",
            Out::Established => "established",
            Out::Confirmed => "confirmed",
            Out::Released => "released",
            Out::ReleaseConfirm => "release-confirmed",
            Out::Acknowledged(_) => "acknowledged",
            Out::Dropped(_) => "dropped",
            Out::Report(_) => "report",
            Out::Send(..) | Out::SendMessage(..) | Out::SendUnit | Out::Start(_) | Out::Stop(_) =>
                "",
        }
    }
}

/// The letter of an error report (Q.921 Appendix II).
#[derive(Clone, Copy, Debug, PartialEq, Eq)]
pub enum Letter {
    /// An unsolicited supervisory response with F=1.
    A,
    /// An unsolicited DM with F=1.
    B,
    /// An unsolicited UA with F=1.
    C,
    /// A UA with F=0.
    D,
    /// A DM with F=0.
    E,
    /// The peer re-establishes the link.
    F,
    /// No response to N200 + 1 SABME.
    G,
    /// No response to N200 + 1 DISC.
    H,
    /// T200 expired in state 8 with RC = N200: no response to any enquiry. There were N200
    /// enquiries after T200 in state 7, and N200 + 1 after T203.
    I,
    /// An N(R) that is not valid.
    J,
    /// A FRMR response.
    K,
    /// An undefined control field.
    L,
    /// Information that is not permitted.
    M,
    /// A frame of a wrong size.
    N,
    /// Information longer than N201.
    O,
}

impl Letter {
    /// The letter itself, as in `F`.
    pub fn name(self) -> &'static str
        ensures { result.now ≡ letter_code self ∷ [] }
    {
        match self {
            Letter::A => "A",
            Letter::B => "B",
            Letter::C => "C",
            Letter::D => "D",
            Letter::E => "E",
            Letter::F => "F",
            Letter::G => "G",
            Letter::H => "H",
            Letter::I => "I",
            Letter::J => "J",
            Letter::K => "K",
            Letter::L => "L",
            Letter::M => "M",
            Letter::N => "N",
            Letter::O => "O",
        }
    }
}
