ghost use Rattle.std.specs.Prelude.{◌≡◌, ◌≤◌, ◌+◌, ◌<◌, ◌^◌, length};
ghost use Rattle.lapd_capture.specs.Octets.{number_at};

use byteorder::{BigEndian, ByteOrder, LittleEndian};

/// The byte order of a number.
#[derive(Clone, Copy)]
pub enum Order {
    /// The high octet first.
    Big,
    /// The low octet first.
    Little,
}

impl Order {
    /// The number of two octets at a place.
    pub(crate) fn u16_at(self, place: usize, octets: &[u8]) -> usize
        requires { place + 2 ≤ length octets.now }
        ensures number { result ≡ number_at self 2 place octets.now }
        ensures fits { result < 2 ^ 16 }
    {
        match self {
            Order::Big => usize::from(BigEndian::read_u16(&octets[place..])),
            Order::Little => usize::from(LittleEndian::read_u16(&octets[place..])),
        }
    }

    /// The number of four octets at a place.
    pub(crate) fn u32_at(self, place: usize, octets: &[u8]) -> usize
        requires { place + 4 ≤ length octets.now }
        ensures number { result ≡ number_at self 4 place octets.now }
        ensures fits { result < 2 ^ 32 }
    {
        match self {
            Order::Big => BigEndian::read_u32(&octets[place..]) as usize,
            Order::Little => LittleEndian::read_u32(&octets[place..]) as usize,
        }
    }

    /// The number of eight octets at a place.
    pub(crate) fn u64_at(self, place: usize, octets: &[u8]) -> u64
        requires { place + 8 ≤ length octets.now }
        ensures { result ≡ number_at self 8 place octets.now }
    {
        match self {
            Order::Big => BigEndian::read_u64(&octets[place..]),
            Order::Little => LittleEndian::read_u64(&octets[place..]),
        }
    }
}
