ghost use Rattle.std.specs.Prelude.{◌≡◌, ◌++◌};
ghost use Rattle.lapd_field.specs.Address.{address_octets};
ghost use Rattle.lapd_field.specs.Control.{control_octets, field_of_message};

use crate::control::nr_octet;
use crate::{Address, Control, Number, Side};

/// The control field of an I command with P=0, by its numbers (Q.921 3.6.1).
#[derive(Clone, Copy)]
pub struct MessageField {
    /// N(S).
    pub ns: Number,
    /// N(R).
    pub nr: Number,
}

impl MessageField {
    /// The control field.
    pub fn control(self) -> Control
        ensures { result ≡ field_of_message self }
    {
        Control::I {
            ns: self.ns,
            nr: self.nr,
            p: false,
        }
    }

    /// The four octets before the information of a frame with this address and control field,
    /// which `from` sends.
    #[inline(always)]
    pub fn octets(self, address: Address, from: Side) -> [u8; 4]
        ensures { result ≡ address_octets from address ++ control_octets (field_of_message self) }
    {
        let [first, second] = address.write(from);
        let third = self.ns.value() * 2;
        [first, second, third, nr_octet(self.nr, false)]
    }
}
