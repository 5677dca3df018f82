ghost use Rattle.std.specs.Prelude.{◌≡◌, ◌++◌};
ghost use Rattle.lapd_field.specs.Address.{address_octets};
ghost use Rattle.lapd_field.specs.Control.{control_octets, field_of_response, ready_octet};

use crate::control::nr_octet;
use crate::{Address, Control, Number, Side};

/// The control field of an RR or RNR response, by its numbers (Q.921 3.6.6, 3.6.8).
#[derive(Clone, Copy)]
pub struct Response {
    /// Whether it is an RNR.
    pub is_busy: bool,
    /// N(R).
    pub nr: Number,
    /// F.
    pub f: bool,
}

impl Response {
    /// The control field.
    pub fn control(self) -> Control
        ensures { result ≡ field_of_response self }
    {
        let (nr, pf) = (self.nr, self.f);
        if self.is_busy {
            Control::Rnr { nr, pf }
        } else {
            Control::Rr { nr, pf }
        }
    }

    /// The four octets of a frame with this address and control field, which `from` sends.
    #[inline(always)]
    pub fn octets(self, address: Address, from: Side) -> [u8; 4]
        ensures { result ≡ address_octets from address
            ++ control_octets (field_of_response self) }
    {
        let [first, second] = address.write(from);
        let third = ready_octet(self.is_busy);
        [first, second, third, nr_octet(self.nr, self.f)]
    }
}

/// The first octet of the control field of an RR, or of an RNR if busy.
#[inline(always)]
fn ready_octet(is_busy: bool) -> u8
    ensures { result ≡ ready_octet is_busy }
{
    if is_busy { 0x05 } else { 0x01 }
}
