//! Kinds of frames, by their control fields.

ghost use Rattle.std.specs.Prelude.{◌≡◌, ◌<◌};
ghost use Rattle.lapd_cli_live_text.specs.FrameKinds.{control_kind, kind_name, kind_place, kinds};

use lapd_frame::Control;

/// The number of kinds.
pub(crate) const KINDS: usize = 12;

/// The kind of some octets: a frame with this control field (Q.921 Table 5), or octets that do not
/// form a valid frame.
#[derive(Clone, Copy)]
pub(crate) enum FrameKind {
    I,
    Rr,
    Rnr,
    Rej,
    Sabme,
    Disc,
    Ua,
    Dm,
    Ui,
    Frmr,
    Xid,
    /// Octets that do not form a valid frame.
    Other,
}

/// All kinds, in the order in which their counts are printed.
pub(crate) const ALL_KINDS: [FrameKind; KINDS] = [
    FrameKind::I,
    FrameKind::Rr,
    FrameKind::Rnr,
    FrameKind::Rej,
    FrameKind::Sabme,
    FrameKind::Disc,
    FrameKind::Ua,
    FrameKind::Dm,
    FrameKind::Ui,
    FrameKind::Frmr,
    FrameKind::Xid,
    FrameKind::Other,
];

impl FrameKind {
    /// The kind of a frame with this control field.
    pub(crate) fn of(control: &Control) -> FrameKind
        ensures { result ≡ control_kind control.now }
    {
        match control {
            Control::I { .. } => FrameKind::I,
            Control::Rr { .. } => FrameKind::Rr,
            Control::Rnr { .. } => FrameKind::Rnr,
            Control::Rej { .. } => FrameKind::Rej,
            Control::Sabme { .. } => FrameKind::Sabme,
            Control::Disc { .. } => FrameKind::Disc,
            Control::Ua { .. } => FrameKind::Ua,
            Control::Dm { .. } => FrameKind::Dm,
            Control::Ui { .. } => FrameKind::Ui,
            Control::Frmr { .. } => FrameKind::Frmr,
            Control::Xid { .. } => FrameKind::Xid,
        }
    }

    /// The name before its count.
    pub(crate) fn name(self) -> &'static str
        ensures { result.now ≡ kind_name self }
    {
        match self {
            FrameKind::I => "I",
            FrameKind::Rr => "RR",
            FrameKind::Rnr => "RNR",
            FrameKind::Rej => "REJ",
            FrameKind::Sabme => "SABME",
            FrameKind::Disc => "DISC",
            FrameKind::Ua => "UA",
            FrameKind::Dm => "DM",
            FrameKind::Ui => "UI",
            FrameKind::Frmr => "FRMR",
            FrameKind::Xid => "XID",
            FrameKind::Other => "other",
        }
    }

    /// The index of its count.
    pub(crate) fn place(self) -> usize
        ensures value { result ≡ kind_place self }
        ensures within { result < KINDS }
    {
        match self {
            FrameKind::I => 0,
            FrameKind::Rr => 1,
            FrameKind::Rnr => 2,
            FrameKind::Rej => 3,
            FrameKind::Sabme => 4,
            FrameKind::Disc => 5,
            FrameKind::Ua => 6,
            FrameKind::Dm => 7,
            FrameKind::Ui => 8,
            FrameKind::Frmr => 9,
            FrameKind::Xid => 10,
            FrameKind::Other => 11,
        }
    }
}
