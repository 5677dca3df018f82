//! The steps of a drawn case.

use lapd_conform_player::{Request, request_word};
use lapd_conform_suite::Kind;
use lapd_frame::Role;
use std::fmt;

/// A frame that the tester sends, with the SAPI and the TEI of the link.
#[derive(Clone, Copy)]
pub struct DrawnFrame {
    /// A command or a response.
    pub role: Role,
    /// Its kind.
    pub kind: Kind,
    /// N(S), 0 to 127; of an I frame alone.
    pub send_number: u8,
    /// N(R), 0 to 127; of I and S frames alone.
    pub receive_number: u8,
    /// P or F.
    pub bit: bool,
}

/// A step of a drawn case.
#[derive(Clone, Copy)]
pub enum Stimulus {
    /// The tester sends this frame.
    Send(DrawnFrame),
    /// The tester sends octets that do not form a valid frame: the role and these digits.
    SendOctets(&'static str),
    /// The upper tester makes this request, this number of times.
    Request(Request, u16),
    /// The tester waits for this number of milliseconds, at most 100,000.
    Pause(u32),
}

/// The word of a kind in a suite.
fn kind_word(kind: Kind) -> &'static str {
    match kind {
        Kind::Information => "I",
        Kind::ReceiveReady => "RR",
        Kind::ReceiveNotReady => "RNR",
        Kind::Reject => "REJ",
        Kind::Sabme => "SABME",
        Kind::DisconnectedMode => "DM",
        Kind::UnnumberedInformation => "UI",
        Kind::Disconnect => "DISC",
        Kind::UnnumberedAcknowledgement => "UA",
        Kind::FrameReject => "FRMR",
        Kind::ExchangeIdentification => "XID",
    }
}

/// Writes the frame in the words of a suite, as in `C I N(S)=1 N(R)=0 P=0`.
impl fmt::Display for DrawnFrame {
    fn fmt<W: fmt::Write>(&self, f: &mut fmt::Formatter<W>) -> fmt::Result {
        let (letter, bit_name) = match self.role {
            Role::Command => ('C', 'P'),
            Role::Answer => ('R', 'F'),
        };
        let (kind, bit) = (kind_word(self.kind), u8::from(self.bit));
        write!(f, "{letter} {kind}")?;
        match self.kind {
            Kind::Information => write!(
                f,
                " N(S)={} N(R)={} {bit_name}={bit}",
                self.send_number, self.receive_number
            ),
            Kind::ReceiveReady | Kind::ReceiveNotReady | Kind::Reject => write!(
                f,
                " N(R)={} {bit_name}={bit}",
                self.receive_number
            ),
            Kind::FrameReject => write!(f, " {bit_name}={bit} info=0000000001"),
            _ => write!(f, " {bit_name}={bit}"),
        }
    }
}

/// Writes the line of a suite, without a line feed.
impl fmt::Display for Stimulus {
    fn fmt<W: fmt::Write>(&self, f: &mut fmt::Formatter<W>) -> fmt::Result {
        match self {
            Stimulus::Send(frame) => write!(f, "send {frame}"),
            Stimulus::SendOctets(octets) => write!(f, "send octets {octets}"),
            Stimulus::Request(request, 1) => write!(f, "do {}", request_word(*request)),
            Stimulus::Request(request, count) => write!(f, "do {} {count}", request_word(*request)),
            Stimulus::Pause(time) => write!(f, "pause {time} ms"),
        }
    }
}
