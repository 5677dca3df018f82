ghost use Rattle.std.specs.Prelude.{◌≡◌, Some, None};
ghost use Rattle.lapd_follow.specs.Identities.{behind_entity, identity_by, identity_for, identity_in, identity_of, network_identity, of_one, renewed, user_identity, with_ai, with_last};
ghost use Rattle.lapd_follow.specs.Texts.{identity_clause, identity_text, tei_names};

use crate::reference::Reference;
use lapd_frame::{Control, Frame, Sapi, Side, Tei};
use std::fmt;

/// The first octet of a message: the management entity (Q.921 5.3.6.2).
const MANAGEMENT_ENTITY: u8 = 0x0f;

/// The group TEI.
const GROUP: u8 = 127;

/// A message of TEI management (Q.921 5.3.6, Table 8). The group TEI, 127, stands for all TEIs.
#[derive(Clone, Copy, Debug, PartialEq, Eq)]
pub enum Identity {
    /// A terminal requests a TEI, with this reference.
    Request(u16),
    /// The network assigns a TEI.
    Assigned {
        /// The TEI, 0 to 126.
        tei: Tei,
        /// The reference of the request.
        ri: u16,
    },
    /// The network denies a TEI to the request with this reference.
    Denied(u16),
    /// The network requests a response of each terminal with this TEI.
    CheckRequest(Tei),
    /// A terminal responds to a check.
    CheckResponse {
        /// Its TEI, 0 to 126.
        tei: Tei,
        /// A reference that it drew for this response.
        ri: u16,
    },
    /// The network removes this TEI from each terminal.
    Remove(Tei),
    /// A terminal requests a check of its TEI.
    Verify(Tei),
}

impl Identity {
    /// The clause of Q.921 that defines the message.
    pub(crate) fn clause(&self) -> &'static str
        ensures { result.now ≡ identity_clause self.now }
    {
        match *self {
            Identity::Request(_) | Identity::Assigned { .. } | Identity::Denied(_) => "5.3.2",
            Identity::CheckRequest(_) | Identity::CheckResponse { .. } => "5.3.3.2",
            Identity::Remove(_) => "5.3.4",
            Identity::Verify(_) => "5.3.5",
        }
    }

    /// The TEI that the message assigns or removes: its links begin anew.
    pub(crate) fn renewed(&self) -> Option<Tei>
        ensures { result ≡ renewed self.now }
    {
        match *self {
            Identity::Assigned { tei, .. } | Identity::Remove(tei) => Some(tei),
            Identity::Request(_)
            | Identity::Denied(_)
            | Identity::CheckRequest(_)
            | Identity::CheckResponse { .. }
            | Identity::Verify(_) => None,
        }
    }
}

impl fmt::Display for Identity {
    ghost output = { λ message. Some (identity_text message) };

    fn fmt<W: fmt::Write>(&self, f: &mut fmt::Formatter<W>) -> fmt::Result {
        match *self {
            Identity::Request(ri) => {
                let reference = Reference { ri };
                write!(f, "requests a TEI, reference {reference}")
            }
            Identity::Assigned { tei, ri } => {
                let tei = tei.value();
                let reference = Reference { ri };
                write!(f, "assigns TEI {tei} to reference {reference}")
            }
            Identity::Denied(ri) => {
                let reference = Reference { ri };
                write!(f, "denies a TEI to reference {reference}")
            }
            Identity::CheckRequest(tei) => {
                let names = TeiNames { tei: tei.value() };
                write!(f, "checks {names}")
            }
            Identity::CheckResponse { tei, ri } => {
                let tei = tei.value();
                let reference = Reference { ri };
                write!(f, "answers the check of TEI {tei}, reference {reference}")
            }
            Identity::Remove(tei) => {
                let names = TeiNames { tei: tei.value() };
                write!(f, "removes {names}")
            }
            Identity::Verify(tei) => {
                let tei = tei.value();
                write!(f, "requests a check of TEI {tei}")
            }
        }
    }
}

/// A TEI in words; the group TEI stands for all.
#[derive(Clone, Copy)]
struct TeiNames {
    tei: u8,
}

impl fmt::Display for TeiNames {
    ghost output = { λ names. Some (tei_names names.tei) };

    fn fmt<W: fmt::Write>(&self, f: &mut fmt::Formatter<W>) -> fmt::Result {
        let tei = self.tei;
        if tei == GROUP {
            write!(f, "all TEIs")
        } else {
            write!(f, "TEI {tei}")
        }
    }
}

/// The message in a frame that this side sent, if it carries one: a UI frame of SAPI 63 and the
/// group TEI (Q.921 5.3.6.1).
pub(crate) fn identity_of(sender: Side, frame: &Frame<'_>) -> Option<Identity>
    ensures { result ≡ identity_of sender frame.now }
{
    let address = frame.address();
    match frame.control() {
        Control::Ui { .. } => identity_for(sender, address.sapi, address.tei, frame.info()),
        _ => None,
    }
}

/// The message in the information of a UI frame with this address.
fn identity_for(sender: Side, sapi: Sapi, tei: Tei, info: &[u8]) -> Option<Identity>
    ensures { result ≡ identity_for sender sapi tei info.now }
{
    match sapi {
        Sapi::Management => {
            if tei.value() == GROUP {
                identity_in(sender, info)
            } else {
                None
            }
        }
        Sapi::Call | Sapi::Packet => None,
    }
}

/// The message in these octets: the management entity, the reference, the type, and Ai with its
/// extension bit.
fn identity_in(sender: Side, info: &[u8]) -> Option<Identity>
    ensures { result ≡ identity_in sender info.now }
{
    match info {
        [MANAGEMENT_ENTITY, high, low, kind, last] => {
            let ri = u16::from(*high) * 256 + u16::from(*low);
            with_last(sender, *kind, ri, *last)
        }
        _ => None,
    }
}

/// The message with this last octet.
fn with_last(sender: Side, kind: u8, ri: u16, last: u8) -> Option<Identity>
    ensures { result ≡ with_last sender kind ri last }
{
    if last % 2 == 1 {
        with_ai(sender, kind, ri, Tei::new(last / 2))
    } else {
        None
    }
}

fn with_ai(sender: Side, kind: u8, ri: u16, ai: Option<Tei>) -> Option<Identity>
    ensures { result ≡ with_ai sender kind ri ai }
{
    match ai {
        None => None,
        Some(tei) => identity_by(sender, kind, ri, tei),
    }
}

/// The message of this type, if this side sends such messages.
fn identity_by(sender: Side, kind: u8, ri: u16, tei: Tei) -> Option<Identity>
    ensures { result ≡ identity_by sender kind ri tei }
{
    match sender {
        Side::User => user_identity(kind, ri, tei),
        Side::Network => network_identity(kind, ri, tei),
    }
}

fn user_identity(kind: u8, ri: u16, tei: Tei) -> Option<Identity>
    ensures { result ≡ user_identity kind ri tei }
{
    match kind {
        1 => Some(Identity::Request(ri)),
        5 => of_one(tei, Identity::CheckResponse { tei, ri }),
        7 => of_one(tei, Identity::Verify(tei)),
        _ => None,
    }
}

fn network_identity(kind: u8, ri: u16, tei: Tei) -> Option<Identity>
    ensures { result ≡ network_identity kind ri tei }
{
    match kind {
        2 => of_one(tei, Identity::Assigned { tei, ri }),
        3 => Some(Identity::Denied(ri)),
        4 => Some(Identity::CheckRequest(tei)),
        6 => Some(Identity::Remove(tei)),
        _ => None,
    }
}

/// A message that is valid only with the TEI of one terminal (Q.921 5.3.6.5).
fn of_one(tei: Tei, message: Identity) -> Option<Identity>
    ensures { result ≡ of_one tei message }
{
    if tei.value() == GROUP {
        None
    } else {
        Some(message)
    }
}
