ghost use Rattle.std.specs.Prelude.{◌≡◌, Ok, IfOk};
ghost use Rattle.lapd_field.specs.Address.{address_octets, address_at, role_of, IsAddress};

use crate::{FieldFault, Role, Sapi, Side, Tei};

/// The address field of a frame (Q.921 3.3).
#[derive(Clone, Copy, Debug, PartialEq, Eq)]
pub struct Address {
    /// The service access point.
    pub sapi: Sapi,
    /// The terminal endpoint.
    pub tei: Tei,
    /// Command or response.
    pub role: Role,
}

impl Address {
    /// Reads an address from two octets that `from` sent.
    ///
    /// Returns `BadAddress` if an extension bit is wrong, else `SapiNotServed` if the service
    /// access point is not served.
    #[inline(always)]
    pub fn read(octets: [u8; 2], from: Side) -> Result<Address, FieldFault>
        ensures exact { result ≡ address_at from octets }
        ensures found { IfOk result (λ a. IsAddress a × (octets ≡ address_octets from a)) }
        ensures only { (a : Address) → IsAddress a → octets ≡ address_octets from a
            → result ≡ Ok a }
    {
        let [first, second] = octets;
        if first % 2 == 1 || second % 2 == 0 {
            return Err(FieldFault::BadAddress);
        }
        match (Sapi::new(first / 4), Tei::new(second / 2)) {
            (Some(sapi), Some(tei)) => Ok(Address {
                sapi,
                tei,
                role: role_of(first / 2 % 2 == 1, from),
            }),
            _ => Err(FieldFault::SapiNotServed),
        }
    }

    /// The two octets of the address, in a frame that `from` sends.
    #[inline(always)]
    pub fn write(&self, from: Side) -> [u8; 2]
        ensures octets { result ≡ address_octets from self.now }
        ensures grammar { IsAddress self.now }
    {
        let set = match (from, self.role) {
            (Side::Network, Role::Command) | (Side::User, Role::Answer) => 2,
            _ => 0,
        };
        [self.sapi.value() * 4 + set, self.tei.value() * 2 + 1]
    }
}

/// The role of a frame of `from`, by its C/R bit.
#[inline(always)]
fn role_of(set: bool, from: Side) -> Role
    ensures { result ≡ role_of from set }
{
    match (from, set) {
        (Side::Network, true) | (Side::User, false) => Role::Command,
        _ => Role::Answer,
    }
}
