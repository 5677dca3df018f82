ghost use Rattle.std.specs.Prelude.{◌≡◌};
ghost use Rattle.lapd_frame.specs.FrmrInfo.{frmr_info};

use lapd_field::Number;

/// The information of a frame reject (Q.921 3.6.11, Figure 6).
#[derive(Clone, Copy, Debug, PartialEq, Eq)]
pub struct FrmrInfo {
    /// The control field of the rejected frame; a U frame's is in the first octet.
    pub rejected: [u8; 2],
    /// V(S) of the end that sent the FRMR frame.
    pub vs: Number,
    /// V(R) of the end that sent the FRMR frame.
    pub vr: Number,
    /// The rejected frame was a response.
    pub cr: bool,
    /// The control field was undefined.
    pub w: bool,
    /// The frame had information that is not permitted, or was of a wrong size.
    pub x: bool,
    /// The information was longer than N201.
    pub y: bool,
    /// N(R) was not valid.
    pub z: bool,
}

impl FrmrInfo {
    /// Reads the five octets of information of a FRMR frame. Bits that have no field here are
    /// ignored.
    pub fn read(info: &[u8; 5]) -> FrmrInfo
        ensures { result ≡ frmr_info info.now }
    {
        let [first, second, vs, vr, reasons] = *info;
        FrmrInfo {
            rejected: [first, second],
            vs: Number::new(vs / 2).unwrap(),
            vr: Number::new(vr / 2).unwrap(),
            cr: vr % 2 == 1,
            w: reasons % 2 == 1,
            x: reasons / 2 % 2 == 1,
            y: reasons / 4 % 2 == 1,
            z: reasons / 8 % 2 == 1,
        }
    }
}
