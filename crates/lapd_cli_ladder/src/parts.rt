//! The parts of a control field that are printed.

ghost use Rattle.std.specs.Prelude.{◌≡◌};
ghost use Rattle.lapd_cli_ladder.specs.Parts.{name_of, nr_of, ns_of};

use lapd_frame::{Control, Number};

/// The name of the frame (Q.921 Table 5).
pub fn name_of(control: Control) -> &'static str
    ensures { result.now ≡ name_of control }
{
    match control {
        Control::I { .. } => "I",
        Control::Rr { .. } => "RR",
        Control::Rnr { .. } => "RNR",
        Control::Rej { .. } => "REJ",
        Control::Sabme { .. } => "SABME",
        Control::Dm { .. } => "DM",
        Control::Ui { .. } => "UI",
        Control::Disc { .. } => "DISC",
        Control::Ua { .. } => "UA",
        Control::Frmr { .. } => "FRMR",
        Control::Xid { .. } => "XID",
    }
}

/// N(S), which an I frame has.
pub fn ns_of(control: Control) -> Option<Number>
    ensures { result ≡ ns_of control }
{
    match control {
        Control::I { ns, .. } => Some(ns),
        _ => None,
    }
}

/// N(R), which I and S frames have.
pub fn nr_of(control: Control) -> Option<Number>
    ensures { result ≡ nr_of control }
{
    match control {
        Control::I { nr, .. }
        | Control::Rr { nr, .. }
        | Control::Rnr { nr, .. }
        | Control::Rej { nr, .. } => Some(nr),
        _ => None,
    }
}
