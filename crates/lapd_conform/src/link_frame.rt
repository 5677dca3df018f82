//! Frames of the link, as the judge sees them.

use crate::own_link::MESSAGE;
use crate::setup::Setup;
use lapd_link::{Control, Frame, Role, Sapi};

/// A frame of the link. Its information is empty, or the message of the judge.
#[derive(Clone, Copy, PartialEq, Eq)]
pub(crate) struct LinkFrame {
    pub role: Role,
    pub control: Control,
}

impl LinkFrame {
    /// Whether it is an acknowledgement alone: RR response with F=0. A later frame with N(R) may
    /// take its place (Q.921 5.6.2.2).
    pub fn is_acknowledgement(&self) -> bool {
        self.role == Role::Answer && self.is_ready(false)
    }

    /// Whether it is RR with this P/F bit.
    fn is_ready(&self, bit: bool) -> bool {
        match self.control {
            Control::Rr { pf, .. } => pf == bit,
            _ => false,
        }
    }

    /// Whether it is REJ with P/F = 1.
    fn is_reject(&self) -> bool {
        matches!(self.control, Control::Rej { pf: true, .. })
    }

    /// N(R), or 128 if it has none.
    fn receive_number(&self) -> u8 {
        match self.control {
            Control::I { nr, .. }
            | Control::Rr { nr, .. }
            | Control::Rnr { nr, .. }
            | Control::Rej { nr, .. } => nr.value(),
            _ => 128,
        }
    }

    /// Whether it has an N(S).
    pub fn is_message(&self) -> bool {
        matches!(self.control, Control::I { .. })
    }

    /// Whether it is an enquiry: RR or RNR as a command with P=1.
    fn is_enquiry(&self) -> bool {
        self.role == Role::Command
            && matches!(
                self.control,
                Control::Rr { pf: true, .. } | Control::Rnr { pf: true, .. }
            )
    }

    /// Whether it is an I frame with P=1 and this N(S).
    fn is_poll_of(&self, last: Option<u8>) -> bool {
        match self.control {
            Control::I { ns, p: true, .. } => last == Some(ns.value()),
            _ => false,
        }
    }

    /// Whether a frame that was received is right in the place of this one. `last` is the N(S) of the
    /// I frame that may take the place of an enquiry (Q.921 5.6.7). `repeats` allows a REJ in place
    /// of the RR with F=1 that answers an I frame out of sequence (Q.921 Appendix I).
    pub fn is_met_by(&self, seen: &LinkFrame, last: Option<u8>, repeats: bool) -> bool {
        if self == seen {
            return true;
        }
        if self.receive_number() != seen.receive_number() {
            return false;
        }
        let is_again = repeats && self.role == seen.role;
        (self.is_ready(false) && seen.is_ready(false))
            || (is_again && self.is_ready(true) && seen.is_reject())
            || (self.is_enquiry() && seen.is_poll_of(last))
    }

    /// Whether it has N(R).
    pub fn has_receive_number(&self) -> bool {
        matches!(
            self.control,
            Control::I { .. } | Control::Rr { .. } | Control::Rnr { .. } | Control::Rej { .. }
        )
    }
}

/// A frame of the stack, as the judge sees it.
pub(crate) enum Seen {
    /// A frame of the link that its table speaks of.
    Link(LinkFrame),
    /// UI and XID frames, and TEI management: the judge allows them at any time.
    Other,
    /// Octets that no end of the link sends.
    Wrong,
}

/// A frame of the stack, as the judge sees it.
pub(crate) fn frame_seen(setup: &Setup, octets: &[u8]) -> Seen {
    match lapd_frame::read(octets, setup.side) {
        Ok(frame) => {
            if is_other(&frame) {
                Seen::Other
            } else if is_of_link(setup, &frame) {
                Seen::Link(LinkFrame {
                    role: frame.address().role,
                    control: frame.control(),
                })
            } else {
                Seen::Wrong
            }
        }
        Err(_) => Seen::Wrong,
    }
}

/// Whether it is UI, XID or TEI management.
fn is_other(frame: &Frame<'_>) -> bool {
    matches!(frame.control(), Control::Ui { .. } | Control::Xid { .. })
        || matches!(frame.address().sapi, Sapi::Management)
}

/// Whether it has the address of the link and, if it is a message, the octets of one.
fn is_of_link(setup: &Setup, frame: &Frame<'_>) -> bool {
    let is_for_link = frame.address().sapi == Sapi::Call && frame.address().tei == setup.tei;
    let is_message = matches!(frame.control(), Control::I { .. });
    is_for_link && (!is_message || setup.active || frame.info() == MESSAGE)
}
