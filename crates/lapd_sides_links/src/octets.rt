ghost use Rattle.std.specs.Prelude.{◌≡◌, ◌≤◌, [], length, Some};
ghost use Rattle.hex.specs.Hex.{encode_lower};

use lapd_frame::N201;
use std::fmt;
use std::marker::Model;

/// The octets of a received message or unit data for layer 3, at most 260 (N201, Q.921 5.9.3). They
/// print as lower case hexadecimal digits.
// A message overwrites the last one, as in `FrameOctets`.
#[derive(Debug, Drop)]
pub struct Octets {
    len: usize,
    room: [u8; N201],
}

impl Model for Octets {
    ghost use Rattle.std.specs.Prelude.{ℕ, ◌≤◌, List, take};
    ghost use Rattle.lapd_frame.specs.declared.frame.TheConstants.{N201};

    ghost Value = { List ℕ };

    ghost view = { λ o. take o.len o.room };

    ghost invariant = { λ o. o.len ≤ N201 };
}

impl Octets {
    /// Copies these octets, at most 260.
    #[inline(always)]
    pub fn new(octets: &[u8]) -> Octets
        requires { length octets.now ≤ N201 }
        ensures { result ≡ octets.now }
    {
        let mut copy = Octets::none();
        copy.set(octets);
        copy
    }

    /// No octets.
    #[inline(always)]
    pub(crate) fn none() -> Octets
        ensures { result ≡ [] }
    {
        Octets {
            room: [0; N201],
            len: 0,
        }
    }

    /// A copy of the octets.
    #[inline(always)]
    pub(crate) fn copy(&self) -> Octets
        ensures { result ≡ self.now }
    {
        Octets {
            room: self.room,
            len: self.len,
        }
    }

    /// Replaces the octets by these, at most 260.
    #[inline(always)]
    pub(crate) fn set(&mut self, octets: &[u8])
        requires { length octets.now ≤ N201 }
        ensures { self.new ≡ octets.now }
    {
        self.room[..octets.len()].copy_from_slice(octets);
        self.len = octets.len();
    }

    /// Replaces the octets by those of another value.
    #[inline(always)]
    pub(crate) fn set_as(&mut self, other: &Octets)
        ensures { self.new ≡ other.now }
    {
        let len = other.len;
        self.room[..len].copy_from_slice(&other.room[..len]);
        self.len = len;
    }

    /// The octets.
    #[inline(always)]
    pub fn as_slice(&self) -> &[u8]
        ensures { result.now ≡ self.now }
    {
        &self.room[..self.len]
    }
}

impl fmt::Display for Octets {
    ghost output = { λ octets. Some (encode_lower octets) };

    fn fmt<W: fmt::Write>(&self, f: &mut fmt::Formatter<W>) -> fmt::Result {
        let mut room = [0u8; 2 * N201];
        let digits = &mut room[..2 * self.len];
        let Ok(()) = hex::encode_to_slice(self.as_slice(), digits) else {
            unreachable!()
        };
        let Ok(text) = str::from_utf8(digits) else {
            unreachable!()
        };
        f.write_str(text)
    }
}
