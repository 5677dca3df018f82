ghost use Rattle.std.specs.Prelude.{◌≡◌, ◌+◌, ◌*◌, ◌<◌, ◌≤◌, [], ◌∷◌, ◌++◌, take, length, List, ℕ, IfOk};
ghost use Rattle.lapd_field.specs.Control.{bit, control_octets, control_at, numbered_at, unnumbered_at, has_second, poll_final, IsControl};

use crate::{FieldFault, Number};
use arrayvec::ArrayVec;

/// The control field of a frame (Q.921 3.4 to 3.6, Table 5). `p` is the poll bit of a command, `f`
/// the final bit of a response, and `pf` is the poll bit in a command and the final bit in a
/// response.
#[derive(Clone, Copy, Debug, PartialEq, Eq)]
pub enum Control {
    /// Information: a message of layer 3 with its number.
    I { ns: Number, nr: Number, p: bool },
    /// Receive ready.
    Rr { nr: Number, pf: bool },
    /// Receive not ready.
    Rnr { nr: Number, pf: bool },
    /// Reject: requests retransmission of the I frames from N(R) on.
    Rej { nr: Number, pf: bool },
    /// Set asynchronous balanced mode extended.
    Sabme { p: bool },
    /// Disconnected mode.
    Dm { f: bool },
    /// Unnumbered information.
    Ui { p: bool },
    /// Disconnect.
    Disc { p: bool },
    /// Unnumbered acknowledgement.
    Ua { f: bool },
    /// Frame reject.
    Frmr { f: bool },
    /// Exchange identification.
    Xid { pf: bool },
}

impl Control {
    /// Reads the control field at the front of these octets, and returns it with its length in
    /// octets, 1 or 2.
    ///
    /// Returns `TooShort` if an octet of the field is missing, else `Undefined` if there is no such
    /// field or a reserved bit is set (Q.921 3.6.1).
    #[inline(always)]
    pub fn read(octets: &[u8]) -> Result<(Control, usize), FieldFault>
        ensures exact { result ≡ control_at octets.now }
        ensures found { IfOk result (λ r. IsControl r.0 × (r.1 ≡ length (control_octets r.0))
            × (take r.1 octets.now ≡ control_octets r.0)) }
        ensures only { (c : Control) (rest : List ℕ) → IsControl c
            → octets.now ≡ control_octets c ++ rest
            → result ≡ Ok (c, length (control_octets c)) }
    {
        let (control, taken) = match octets {
            [] => return Err(FieldFault::TooShort),
            [first, ..] if !has_second(*first) => (unnumbered_field(*first), 1),
            [_] => return Err(FieldFault::TooShort),
            [first, second, ..] => (numbered_field(*first, *second), 2),
        };
        match control {
            Some(control) => Ok((control, taken)),
            None => Err(FieldFault::Undefined),
        }
    }

    /// The one or two octets of the field.
    pub fn write(&self) -> ArrayVec<u8, 2>
        ensures octets { result.items ≡ control_octets self.now }
        ensures grammar { IsControl self.now }
    {
        match *self {
            Control::I { ns, nr, p } => two_octets(ns.value() * 2, nr, p),
            Control::Rr { nr, pf } => two_octets(0x01, nr, pf),
            Control::Rnr { nr, pf } => two_octets(0x05, nr, pf),
            Control::Rej { nr, pf } => two_octets(0x09, nr, pf),
            Control::Sabme { p } => one_octet(0x6f, p),
            Control::Dm { f } => one_octet(0x0f, f),
            Control::Ui { p } => one_octet(0x03, p),
            Control::Disc { p } => one_octet(0x43, p),
            Control::Ua { f } => one_octet(0x63, f),
            Control::Frmr { f } => one_octet(0x87, f),
            Control::Xid { pf } => one_octet(0xaf, pf),
        }
    }

    /// The P bit of a command or the F bit of a response (Q.921 3.5.1).
    pub fn poll_final(&self) -> bool
        ensures { result ≡ poll_final self.now }
    {
        match *self {
            Control::I { p, .. } | Control::Sabme { p } | Control::Ui { p } | Control::Disc { p } =>
                p,
            Control::Rr { pf, .. }
            | Control::Rnr { pf, .. }
            | Control::Rej { pf, .. }
            | Control::Xid { pf } => pf,
            Control::Dm { f } | Control::Ua { f } | Control::Frmr { f } => f,
        }
    }
}

/// Whether a field with this first octet has a second octet, as I and S fields do.
fn has_second(first: u8) -> bool
    ensures { result ≡ has_second first }
{
    first % 2 == 0 || first % 4 == 1
}

/// The field of an I or S frame.
fn numbered_field(first: u8, second: u8) -> Option<Control>
    ensures { result ≡ numbered_at first second }
{
    let nr = Number::new(second / 2)?;
    let pf = second % 2 == 1;
    match first {
        0x01 => Some(Control::Rr { nr, pf }),
        0x05 => Some(Control::Rnr { nr, pf }),
        0x09 => Some(Control::Rej { nr, pf }),
        _ if first % 2 == 0 => Some(Control::I {
            ns: Number::new(first / 2)?,
            nr,
            p: pf,
        }),
        _ => None,
    }
}

/// The field of a U frame.
fn unnumbered_field(first: u8) -> Option<Control>
    ensures { result ≡ unnumbered_at first }
{
    match first {
        0x6f => Some(Control::Sabme { p: false }),
        0x7f => Some(Control::Sabme { p: true }),
        0x0f => Some(Control::Dm { f: false }),
        0x1f => Some(Control::Dm { f: true }),
        0x03 => Some(Control::Ui { p: false }),
        0x13 => Some(Control::Ui { p: true }),
        0x43 => Some(Control::Disc { p: false }),
        0x53 => Some(Control::Disc { p: true }),
        0x63 => Some(Control::Ua { f: false }),
        0x73 => Some(Control::Ua { f: true }),
        0x87 => Some(Control::Frmr { f: false }),
        0x97 => Some(Control::Frmr { f: true }),
        0xaf => Some(Control::Xid { pf: false }),
        0xbf => Some(Control::Xid { pf: true }),
        _ => None,
    }
}

/// The octet of a U frame. The P/F bit has the value 16.
fn one_octet(octet: u8, pf: bool) -> ArrayVec<u8, 2>
    requires { octet < 0xB0 }
    ensures { result.items ≡ (octet + bit pf * 16) ∷ [] }
{
    let mut octets = ArrayVec::new();
    octets.push(if pf { octet + 16 } else { octet });
    octets
}

/// The octets of an I or S frame.
fn two_octets(first: u8, nr: Number, pf: bool) -> ArrayVec<u8, 2>
    ensures octets { result.items ≡ first ∷ (nr * 2 + bit pf) ∷ [] }
    ensures grammar { nr ≤ 127 }
{
    let mut octets = ArrayVec::new();
    octets.push(first);
    octets.push(nr_octet(nr, pf));
    octets
}

/// The octet of N(R) and P/F, the second one of an I or S field.
#[inline(always)]
pub(crate) fn nr_octet(nr: Number, pf: bool) -> u8
    ensures octet { result ≡ nr * 2 + bit pf }
    ensures grammar { nr ≤ 127 }
{
    if pf {
        nr.value() * 2 + 1
    } else {
        nr.value() * 2
    }
}
